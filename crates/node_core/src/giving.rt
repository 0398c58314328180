//! What a host does by itself: it sends a message, or begins an init.
ghost use Rattle.std.specs.Prelude.{◌≡◌, ◌≤◌, ◌==◌, ◌&&◌, length};
ghost use Rattle.node_machine.specs.Controller.{is_command_message};
ghost use Rattle.node_core.specs.Giving.{host_refused};

use crate::node::Node;
use arrayvec::ArrayVec;
use hcp_packet::{MessageKind, read_header};
use link_end::SendRefused;
use node_deeds::{Init, ordered_by};
use swp_base::Nv;
use trace_model::Watch;

/// Why a host doesn't send a message, or doesn't begin an init. Nothing changed.
#[derive(Clone, Copy, Debug, PartialEq, Eq)]
pub enum HostRefused {
    /// Its end isn't up.
    NotUp,
    /// It is a command on pipe 01, and an earlier one isn't answered.
    Waiting,
    /// The message has `len` bytes, more than 4,096; 4,294,967,295 stands for any greater number.
    TooLong { len: u32 },
    /// It needs so many blocks, and so many are spare.
    Full { need: u16, spare: u16 },
}

// Whether a message on this pipe is a command to the administration gate.
fn is_order(pipe: u8, message: &[u8]) -> bool
    ensures { result ≡ (pipe == 1 && is_command_message message.now) }
{
    pipe == 1 && matches!(read_header(message), Ok((MessageKind::Command, _)))
}

// Why a host doesn't send a message that the end of its link refuses.
fn refused_by(why: SendRefused) -> HostRefused
    ensures { result ≡ host_refused why }
{
    match why {
        SendRefused::NotUp => HostRefused::NotUp,
        SendRefused::TooLong { len } => HostRefused::TooLong { len },
        SendRefused::Full { need, spare } => HostRefused::Full { need, spare },
    }
}

// The pipes that an init is to make.
fn pipes_of(pipes: &[[u8; 3]]) -> ArrayVec<[u8; 3], 8>
    requires { length pipes.now ≤ 8 }
    ensures { result.items ≡ pipes.now }
{
    let mut made = ArrayVec::new();
    let _ = made.try_extend_from_slice(pipes);
    made
}

impl<N: Nv + Drop> Node<N> {
    ghost use Rattle.std.specs.Prelude.{◌≡◌, ◌≤◌, ◌==◌, ◌&&◌, ℕ, Bool, List, length, is_some, Some, IsTrue, OnOk, OnErr, IfErr};
    ghost use Rattle.trace_model.specs.declared.entry.Entry.{Entry as Noted};
    ghost use Rattle.hcp_packet.specs.Packets.{IsSendable};
    ghost use Rattle.link_laws.specs.machine.Machine.{give_refusal};
    ghost use Rattle.node_machine.specs.Parts.{Port, Work};
    ghost use Rattle.node_machine.specs.Parts.Deed.{GoesOn};
    ghost use Rattle.node_machine.specs.Carrying.{port_at, done};
    ghost use Rattle.node_machine.specs.Node.{begins_with};
    ghost use Rattle.node_machine.specs.Controller.{is_command_message};
    ghost use Rattle.node_machine.specs.world.World.{sending};
    ghost use Rattle.node_machine.specs.world.Lines.{if_waiting};
    ghost use Rattle.node_core.specs.Nodes.{IsInStep, Carries, CarriesUnseen};
    ghost use Rattle.node_core.specs.Giving.{refused_as, TellsLength};

    // Whether one that has to wait for the last command on pipe 01 does so.
    fn has_to_wait(&self, waits: bool) -> bool
        ensures { result ≡ (waits && is_some self.now.tasks.command) }
    {
        waits && self.tasks.command.is_some()
    }

    /// A host sends a message, which isn't empty, on a pipe that isn't reserved (ETSI TS 102 622, section 5).
    ///
    /// # Errors
    ///
    /// `NotUp` where its end isn't up, `Waiting` where the message is a command on pipe 01 and an earlier one isn't answered, `TooLong`
    /// where it has more than 4,096 bytes, and `Full` where its blocks exceed what is spare: the first of these that applies. Nothing
    /// changed then.
    pub fn give_step<W: Watch>(
        &mut self,
        pipe: u8,
        message: &[u8],
        watch: &mut W,
    ) -> Result<(), HostRefused>
        requires live { IsTrue self.old.store.journal.live }
        requires sendable { IsSendable (pipe, message.now) }
        ensures refusal { (noted : List Noted) (short : Bool) (start : List Noted) (w : Work) (p : Port) → IsInStep self.old noted short start w
            → port_at w.ports self.old.number ≡ Some p → refused_as result
            ≡ if_waiting (pipe == 1 && is_command_message message.now && is_some w.core.command) (give_refusal p.side (pipe, message.now)) }
        ensures long { IfErr result (λ why. TellsLength (length message.now) (Some why)) }
        ensures given { OnOk result (Carries W.noted W.is_short (self.old, watch.old) (self.new, watch.new)
            (begins_with self.old.number (sending self.old.number (pipe, message.now)))) }
        ensures unchanged { OnErr result ((self.new ≡ self.old) × (watch.new ≡ watch.old)) }
        ensures store { self.new.store ≡ self.old.store }
        ensures number { self.new.number ≡ self.old.number }
    {
        let is_order = is_order(pipe, message);
        if self.has_to_wait(is_order) {
            if self.ends.has_link(self.number) {
                return Err(HostRefused::Waiting);
            }
            return Err(HostRefused::NotUp);
        }
        if let Err(why) = self.send(self.number, pipe, message, watch) {
            return Err(refused_by(why));
        }
        if !is_order {
            return Ok(());
        }
        self.tasks.command = Some(ordered_by(message));
        Ok(())
    }

    // An init begins to run, with at most eight pipes.
    pub(crate) fn run_init(&mut self, identity: &[u8; 8], pipes: &[[u8; 3]])
        requires few { length pipes.now ≤ 8 }
        ensures runs_it { (host : ℕ) → CarriesUnseen self.old self.new
            (done host (GoesOn (record { identity = identity.now; pipes = pipes.now; answered = 0 }))) }
        ensures store { self.new.store ≡ self.old.store }
        ensures number { self.new.number ≡ self.old.number }
    {
        self.tasks.init = Some(Init {
            identity: *identity,
            pipes: pipes_of(pipes),
            answered: 0,
        });
    }
}
