//! What an end does with a fragment that its SHDLC end accepted.
ghost use Rattle.std.specs.Prelude.{◌≡◌, ◌↔◌, IsTrue, IsOk, OnOk, OnErr, IfSome, Some, []};
ghost use Rattle.std.specs.Option.{option_to_list};
ghost use Rattle.block_pool.specs.Pool.{used_of};
ghost use Rattle.hcp_packet.specs.Packets.{packets_in};
ghost use Rattle.hcp_chain.specs.Joining.{are_taken};
ghost use Rattle.link_messages.specs.Incoming.{messages_under_way, chains_in, InboxLiesIn, IsInboxReady, InboxLeavesOthers};
ghost use Rattle.link_end.specs.Received.{ReceivesOn, fragment_in};

use block_pool::Pool;
use hcp_chain::ChainFault;
use link_messages::Inbox;
use shdlc_core::Taken;
use swp_base::Control;

/// Takes the fragment that was accepted, where one was: that of the frame, which needn't be copied so.
pub fn receive(
    inbox: &mut Inbox,
    pool: &mut Pool,
    control: &Control,
    taken: &Taken,
) -> Result<(), ChainFault>
    requires lies { InboxLiesIn pool.old inbox.old }
    requires ready { IfSome taken.now.accepted (λ _. IsInboxReady pool.old inbox.old) }
    requires brought { IfSome taken.now.accepted (λ info. fragment_in control.now ≡ Some info) }
    ensures taken { IsOk result ↔ IsTrue (are_taken (messages_under_way pool.old inbox.old) (packets_in (option_to_list taken.now.accepted))) }
    ensures ok { OnOk result (ReceivesOn pool.old pool.new inbox.old inbox.new (option_to_list taken.now.accepted)) }
    ensures err { OnErr result (InboxLiesIn pool.new inbox.new × (inbox.new.joiner.owner ≡ inbox.old.joiner.owner) × (chains_in inbox.new ≡ [])
        × (used_of pool.new inbox.old.joiner.owner ≡ 0) × InboxLeavesOthers pool.old pool.new inbox.old.joiner.owner (chains_in inbox.old) []) }
{
    if taken.accepted.is_none() {
        return Ok(());
    }
    match control {
        Control::I { info, .. } => inbox.take(pool, info),
        _ => Ok(()),
    }
}
