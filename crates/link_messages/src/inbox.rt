//! The messages that come.

use block_pool::{Chain, Pool};
use hcp_chain::{ChainFault, Joined, Joiner};
use hcp_packet::{read_header, view_packet};
use swp_base::Info;

/// A message that came whole, in its chain, with its pipe.
#[derive(Drop)]
pub struct Got {
    pipe: u8,
    chain: Chain,
}

/// The messages that come to one end, in the blocks of one owner: those that are partly received, and the one that came whole
/// until it is fetched.
#[derive(Drop)]
pub struct Inbox {
    joiner: Joiner,
    got: Option<Got>,
}

impl Inbox {
    ghost use Rattle.std.specs.Prelude.{◌≡◌, ◌+◌, ◌↔◌, [], ◌∷◌, ◌++◌, IsTrue, IsOk, OnOk, OnErr, IfSome, IfNone, None, is_some};
    ghost use Rattle.std.specs.Option.{option_to_list};
    ghost use Rattle.block_pool.specs.Pool.{used_of};
    ghost use Rattle.hcp_packet.specs.Packets.{packet_of};
    ghost use Rattle.hcp_chain.specs.Joining.{are_taken};
    ghost use Rattle.hcp_chain.specs.Holding.{held_blocks};
    ghost use Rattle.link_messages.specs.Incoming.{chains_in, messages_under_way, came_whole, InboxLiesIn, IsInboxReady, InboxLeavesOthers, Joins};

    /// Nothing came. What comes is kept in the blocks of this owner.
    pub fn new(owner: u8) -> Inbox
        ensures owner { result.joiner.owner ≡ owner }
        ensures empty { chains_in result ≡ [] }
    {
        Inbox {
            joiner: Joiner::new(owner),
            got: None,
        }
    }

    /// Takes a fragment. One outside the packet grammar is dropped, and so is a message that is empty or whose type is reserved.
    /// `Err` comes where its packet can't be joined: nothing that is under way is kept then.
    pub fn take(&mut self, pool: &mut Pool, info: &Info) -> Result<(), ChainFault>
        requires lies { InboxLiesIn pool.old self.old }
        requires ready { IsInboxReady pool.old self.old }
        ensures taken { IsOk result ↔ IsTrue (are_taken (messages_under_way pool.old self.old) (option_to_list (packet_of info.now))) }
        ensures ok { OnOk result (Joins pool.old pool.new self.old self.new (option_to_list (packet_of info.now))) }
        ensures err { OnErr result (InboxLiesIn pool.new self.new × (self.new.joiner.owner ≡ self.old.joiner.owner) × (chains_in self.new ≡ [])
            × (used_of pool.new self.old.joiner.owner ≡ 0)
            × InboxLeavesOthers pool.old pool.new self.old.joiner.owner (chains_in self.old) []) }
    {
        let Ok(packet) = view_packet(info.bytes()) else {
            return Ok(());
        };
        match self.joiner.take_view(pool, &packet) {
            Joined::More => Ok(()),
            Joined::Whole { pipe, chain } => {
                let mut first = [0; 1];
                let count = pool.copy_out(&chain, 0, &mut first);
                if read_header(&first[..count]).is_err() {
                    pool.give(chain);
                    return Ok(());
                }
                self.got = Some(Got { pipe, chain });
                Ok(())
            }
            Joined::Fault(fault) => Err(fault),
        }
    }

    /// The message that came whole and wasn't fetched, with its pipe. It is the caller's from now on.
    pub fn fetch(&mut self) -> Option<(u8, Chain)>
        ensures fetched { self.new.got ≡ None }
        ensures joiner { self.new.joiner ≡ self.old.joiner }
        ensures some { IfSome result (λ m. self.old.got ≡ Some (record { pipe = m.0; chain = m.1 })) }
        ensures none { IfNone result (self.old.got ≡ None) }
    {
        let Got { pipe, chain } = self.got.take()?;
        Some((pipe, chain))
    }

    /// Whether a message came whole and wasn't fetched.
    pub fn has_message(&self) -> bool
        ensures { result ≡ is_some self.now.got }
    {
        self.got.is_some()
    }

    /// Forgets what is partly received. A message that came whole stays.
    pub fn clear(&mut self, pool: &mut Pool)
        requires { InboxLiesIn pool.old self.old }
        ensures lies { InboxLiesIn pool.new self.new }
        ensures open { self.new.joiner.open.items ≡ [] }
        ensures got { self.new.got ≡ self.old.got }
        ensures owner { self.new.joiner.owner ≡ self.old.joiner.owner }
        ensures message { came_whole pool.new self.new ≡ came_whole pool.old self.old }
        ensures counted { used_of pool.new self.old.joiner.owner + held_blocks pool.old (chains_in self.old)
            ≡ used_of pool.old self.old.joiner.owner + held_blocks pool.new (chains_in self.new) }
        ensures elsewhere { InboxLeavesOthers pool.old pool.new self.old.joiner.owner (chains_in self.old) (chains_in self.new) }
    {
        self.joiner.clear(pool);
    }
}
