//! A host: a node that runs with the link that has its number.
use crate::booting::BootRefused;
use crate::giving::HostRefused;
use crate::inputs::NodeInput;
use crate::running::Ran;
use crate::running_node::RunningNode;
use arrayvec::ArrayVec;
use hci_store::Store;
use link_end::ResetRefused;
use node_ends::LinkInput;
use std::alloc::Global;
use std::marker::Model;
use swp_base::{Lpdu, MemNv, Nv};
use swp_lpdu::read_lpdu;
use trace_model::Watch;

/// A host that runs, of ETSI TS 102 622, section 4.2. Contracts see it as its node. Its calls are this project's own.
#[derive(Drop)]
pub struct Host<N: Nv + Drop> {
    node: RunningNode<N>,
}

impl<N: Nv + Drop> Model for Host<N> {
    ghost use Rattle.std.specs.Prelude.{◌≤◌};
    ghost use Rattle.node_core.specs.declared.node.Node.{Node as Kept};

    ghost Value = { Kept N };

    ghost view = { λ h. h.node };

    ghost invariant = { λ h. 1 ≤ h.node.number };
}

impl<N: Nv + Drop> Host<N> {
    ghost use Rattle.std.specs.Prelude.{◌≡◌, ◌≢◌, ◌≤◌, ◌==◌, ◌&&◌, ◌∷◌, List, map, [], length, is_some, None, Some, IfOk, IfErr, IfSome, OnOk, OnErr, IsTrue};
    ghost use Rattle.std.specs.Prelude.{MatchResult, Ok, true};
    ghost use Rattle.swp_base.specs.Outside.{Rose};
    ghost use Rattle.swp_base.specs.declared.link_terms.Role.TheVariants.{Uicc};
    ghost use Rattle.trace_model.specs.declared.entry.Entry.{Entry as Noted};
    ghost use Rattle.journal_laws.specs.Journal.{journal};
    ghost use Rattle.hci_store.specs.Image.{image_fault};
    ghost use Rattle.hci_store.specs.Starting.{ready_writes, HasWritten};
    ghost use Rattle.hcp_packet.specs.Packets.{IsSendable};
    ghost use Rattle.swp_lpdu.specs.Controls.{lpdu_of, control_of};
    ghost use Rattle.link_laws.specs.machine.Machine.{lpdu_input, give_refusal, next_frame};
    ghost use Rattle.link_laws.specs.machine.Machine.LinkInput.{Reset, Start, Stop};
    ghost use Rattle.node_machine.specs.Parts.{Core, Port, Work};
    ghost use Rattle.node_machine.specs.Carrying.{port_at, with_port};
    ghost use Rattle.node_machine.specs.Controller.{is_command_message};
    ghost use Rattle.node_machine.specs.Node.{steps, begins_with};
    ghost use Rattle.node_machine.specs.Node.NodeInput.{AtEnd, TimePasses};
    ghost use Rattle.node_machine.specs.world.World.{sending, beginning};
    ghost use Rattle.node_machine.specs.world.Lines.{if_waiting};
    ghost use Rattle.node_ends.specs.Ends.{has_sent, frame_at, are_at_rest};
    ghost use Rattle.node_ends.specs.Making.{new_port};
    ghost use Rattle.node_core.specs.Booting.{found_in_memory, IsBootRefused};
    ghost use Rattle.node_core.specs.Giving.{refused_as, TellsLength, IsAsked};
    ghost use Rattle.node_core.specs.Running.{RunsAs, BeginsStep, HasStepped, MayStep, ran_so, one_more_error, core_kept, reset_refusal_at, TakesStep};
    ghost use Rattle.node_ends.specs.Inputs.{input_of_end, refusal_at};
    ghost use Rattle.node_core.specs.Inputs.{IsAskedOf};

    /// A host with this number, 01 to 07, boots from a memory of 65,536 bytes, with the link that has its number. It takes all its memory
    /// here. A memory that says nothing is formatted; one of version 01 is written anew as a snapshot of version 02 before the host
    /// answers.
    ///
    /// # Errors
    ///
    /// `NoMemory` without memory: nothing is read or written then. `Journal` where its store doesn't start. The memory is handed back,
    /// and the next boot finds what this one found. Where none of its calls failed, nothing was written.
    pub fn boot(alloc: Global, host: u8, nv: N) -> Result<Self, BootRefused<N>>
        requires some { 1 ≤ host }
        requires host { host ≤ 7 }
        requires size { N.capacity nv ≡ 65536 }
        ensures runs { IfOk result (λ h. RunsAs h (core_kept h) (map (new_port Uicc) (host ∷ []))) }
        ensures number { IfOk result (λ h. h.number ≡ host) }
        ensures found { IsTrue N.tells → IfOk result (λ h. core_kept h ≡ (found_in_memory host (host ∷ []) (N.content nv)).core) }
        ensures image { IsTrue N.tells → OnOk result (image_fault (N.content nv) ≡ None) }
        ensures unspent { IsTrue N.tells → OnOk result ((journal (N.content nv)).head.version ≡ 1
            → (journal (N.content nv)).head.generation ≢ 4294967295) }
        ensures made { IsTrue N.tells
            → IfOk result (λ h. HasWritten N.reads N.writes N.content (ready_writes (N.content nv)) nv true h.store.journal.nv) }
        ensures count { IfOk result (λ h. N.faults nv ≤ N.faults h.store.journal.nv) }
        ensures refused { IfErr result (λ e. IsBootRefused N.reads N.writes N.faults N.tells N.content nv e.nv e.fault) }
    {
        match RunningNode::boot(alloc, host, 0, nv) {
            Ok(node) => Ok(Host { node }),
            Err(refused) => Err(refused),
        }
    }

    /// A frame with this LPDU is taken from the link. Every frame of the step before was fetched.
    pub fn take<W: Watch>(&mut self, lpdu: &Lpdu, watch: &mut W) -> Ran
        requires may { MayStep self.old }
        ensures stepped { TakesStep N.writes W.noted W.is_short (self.old, watch.old) (self.new, watch.new)
            (steps (AtEnd self.old.number (lpdu_input lpdu.now))) }
        ensures number { self.new.number ≡ self.old.number }
        ensures ran { result ≡ ran_so self.new.store.journal.live }
        ensures count { N.faults self.old.store.journal.nv ≤ N.faults self.new.store.journal.nv }
        ensures rose { result ≡ Ran.Stopped → Rose (N.faults self.old.store.journal.nv) (N.faults self.new.store.journal.nv) }
    {
        let host = self.node.number();
        let read = read_lpdu(lpdu);
        let input = NodeInput::At {
            host,
            what: LinkInput::Frame(&read),
        };
        let stepped = self.node.step(input, watch);
        stepped.unwrap().ran
    }

    /// A tick passes at the link. Every frame of the step before was fetched.
    pub fn tick<W: Watch>(&mut self, watch: &mut W) -> Ran
        requires may { MayStep self.old }
        ensures stepped { TakesStep N.writes W.noted W.is_short (self.old, watch.old) (self.new, watch.new) (steps TimePasses) }
        ensures number { self.new.number ≡ self.old.number }
        ensures ran { result ≡ ran_so self.new.store.journal.live }
        ensures count { N.faults self.old.store.journal.nv ≤ N.faults self.new.store.journal.nv }
        ensures rose { result ≡ Ran.Stopped → Rose (N.faults self.old.store.journal.nv) (N.faults self.new.store.journal.nv) }
    {
        let stepped = self.node.step(NodeInput::Tick, watch);
        stepped.unwrap().ran
    }

    // This is asked of the end of the host: nothing is committed.
    //
    // # Errors
    //
    // A reset is refused. Nothing changed then.
    #[inline(always)]
    fn step_unwritten<W: Watch>(
        &mut self,
        what: LinkInput<'_>,
        watch: &mut W,
    ) -> Result<(), ResetRefused>
        requires may { MayStep self.old }
        requires what { IsAskedOf what }
        ensures refusal { (core : Core) (ports : List Port) → RunsAs self.old core ports → MatchResult result
            (λ done. refusal_at what.entry (port_at ports self.old.number) ≡ None)
            (λ why. refusal_at what.entry (port_at ports self.old.number) ≡ Some why) }
        ensures stepped { OnOk result (TakesStep N.writes W.noted W.is_short (self.old, watch.old) (self.new, watch.new)
            (steps (AtEnd self.old.number (input_of_end what.entry)))) }
        ensures quietly { OnOk result ((start : List Noted) (w : Work) → BeginsStep self.old (W.noted watch.old) (W.is_short watch.old) start w
            → HasStepped self.new (W.noted watch.new) (W.is_short watch.new) start (steps (AtEnd self.old.number (input_of_end what.entry)) w)) }
        ensures unchanged { OnErr result ((core : Core) (ports : List Port) → RunsAs self.old core ports → RunsAs self.new core ports) }
        ensures quiet { OnErr result ((watch.new ≡ watch.old) × (self.new.store ≡ self.old.store)) }
        ensures memory { self.new.store.journal.nv ≡ self.old.store.journal.nv }
        ensures live { IsTrue self.new.store.journal.live }
        ensures number { self.new.number ≡ self.old.number }
    {
        let host = self.node.number();
        let input = NodeInput::At { host, what };
        if let Err(why) = self.node.step(input, watch) {
            return Err(why);
        }
        Ok(())
    }

    /// The link is reset (ETSI TS 102 613, section 10.7), with this window, which is 1 to 4, or with the end's own one. Nothing is committed.
    /// Every frame of the step before was fetched.
    ///
    /// # Errors
    ///
    /// `Inactive` where activation isn't done, and `Waiting` where the end waits already. Nothing changed then.
    pub fn reset<W: Watch>(&mut self, window: Option<u8>, watch: &mut W) -> Result<(), ResetRefused>
        requires may { MayStep self.old }
        requires window { IfSome window (λ w. (1 ≤ w) × (w ≤ 4)) }
        ensures refusal { (core : Core) (ports : List Port) → RunsAs self.old core ports → MatchResult result
            (λ done. reset_refusal_at (port_at ports self.old.number) ≡ None)
            (λ why. reset_refusal_at (port_at ports self.old.number) ≡ Some why) }
        ensures stepped { OnOk result (TakesStep N.writes W.noted W.is_short (self.old, watch.old) (self.new, watch.new)
            (steps (AtEnd self.old.number (Reset window)))) }
        ensures quietly { OnOk result ((start : List Noted) (w : Work) → BeginsStep self.old (W.noted watch.old) (W.is_short watch.old) start w
            → HasStepped self.new (W.noted watch.new) (W.is_short watch.new) start (steps (AtEnd self.old.number (Reset window)) w)) }
        ensures unchanged { OnErr result ((core : Core) (ports : List Port) → RunsAs self.old core ports → RunsAs self.new core ports) }
        ensures quiet { OnErr result ((watch.new ≡ watch.old) × (self.new.store ≡ self.old.store)) }
        ensures memory { self.new.store.journal.nv ≡ self.old.store.journal.nv }
        ensures live { IsTrue self.new.store.journal.live }
        ensures number { self.new.number ≡ self.old.number }
    {
        self.step_unwritten(LinkInput::Reset(window), watch)
    }

    /// Activation begins anew at the link (ETSI TS 102 613, section 9.4), with this sync identifier. Nothing is committed. Every frame of the
    /// step before was fetched.
    pub fn activate<W: Watch>(&mut self, sync: u16, watch: &mut W)
        requires may { MayStep self.old }
        ensures stepped { TakesStep N.writes W.noted W.is_short (self.old, watch.old) (self.new, watch.new) (steps (AtEnd self.old.number (Start sync))) }
        ensures quietly { (start : List Noted) (w : Work) → BeginsStep self.old (W.noted watch.old) (W.is_short watch.old) start w
            → HasStepped self.new (W.noted watch.new) (W.is_short watch.new) start (steps (AtEnd self.old.number (Start sync)) w) }
        ensures memory { self.new.store.journal.nv ≡ self.old.store.journal.nv }
        ensures live { IsTrue self.new.store.journal.live }
        ensures number { self.new.number ≡ self.old.number }
    {
        self.step_unwritten(LinkInput::Start(sync), watch).unwrap();
    }

    /// Activation ends at the link, and the link with it. Nothing is committed. Every frame of the step before was fetched.
    pub fn deactivate<W: Watch>(&mut self, watch: &mut W)
        requires may { MayStep self.old }
        ensures stepped { TakesStep N.writes W.noted W.is_short (self.old, watch.old) (self.new, watch.new) (steps (AtEnd self.old.number Stop)) }
        ensures quietly { (start : List Noted) (w : Work) → BeginsStep self.old (W.noted watch.old) (W.is_short watch.old) start w
            → HasStepped self.new (W.noted watch.new) (W.is_short watch.new) start (steps (AtEnd self.old.number Stop) w) }
        ensures memory { self.new.store.journal.nv ≡ self.old.store.journal.nv }
        ensures live { IsTrue self.new.store.journal.live }
        ensures number { self.new.number ≡ self.old.number }
    {
        self.step_unwritten(LinkInput::Stop, watch).unwrap();
    }

    /// A frame on its way from the controller was refused: one more for REC_ERROR (ETSI TS 102 622, section 7.1), which stops at FFFF.
    pub fn refused(&mut self)
        requires runs { (core : Core) × (ports : List Port) × RunsAs self.old core ports }
        ensures runs { (core : Core) (ports : List Port) → RunsAs self.old core ports
            → RunsAs self.new core (with_port self.old.number one_more_error ports) }
        ensures store { self.new.store ≡ self.old.store }
        ensures number { self.new.number ≡ self.old.number }
    {
        let host = self.node.number();
        self.node.refused(host);
    }

    /// Fetches the frame that is to be sent now; `None` where there is none.
    pub fn next_out(&mut self) -> Option<Lpdu>
        requires runs { (core : Core) × (ports : List Port) × RunsAs self.old core ports }
        ensures answer { (core : Core) (ports : List Port) → RunsAs self.old core ports → result ≡ frame_at (port_at ports self.old.number) }
        ensures read { (core : Core) (ports : List Port) (p : Port) → RunsAs self.old core ports → port_at ports self.old.number ≡ Some p
            → IfSome (next_frame p.side) (λ c. control_of (lpdu_of c) ≡ Ok c) }
        ensures runs { (core : Core) (ports : List Port) → RunsAs self.old core ports → RunsAs self.new core (with_port self.old.number has_sent ports) }
        ensures store { self.new.store ≡ self.old.store }
        ensures number { self.new.number ≡ self.old.number }
    {
        let host = self.node.number();
        self.node.next_out(host)
    }

    /// A message, which isn't empty, is sent on a pipe that isn't reserved (ETSI TS 102 622, section 5). Nothing is committed.
    ///
    /// # Errors
    ///
    /// `NotUp` where the link isn't up, `Waiting` where the message is a command on pipe 01 and an earlier one isn't answered, `TooLong`
    /// where it has more than 4,096 bytes, and `Full` where its blocks exceed what is spare: the first of these that applies. Nothing
    /// changed then.
    pub fn send<W: Watch>(
        &mut self,
        pipe: u8,
        message: &[u8],
        watch: &mut W,
    ) -> Result<(), HostRefused>
        requires runs { (core : Core) × (ports : List Port) × RunsAs self.old core ports }
        requires sendable { IsSendable (pipe, message.now) }
        ensures refusal { (core : Core) (ports : List Port) (p : Port) → RunsAs self.old core ports → port_at ports self.old.number ≡ Some p
            → refused_as result ≡ if_waiting (pipe == 1 && is_command_message message.now && is_some core.command)
            (give_refusal p.side (pipe, message.now)) }
        ensures long { IfErr result (λ why. TellsLength (length message.now) (Some why)) }
        ensures given { OnOk result ((start : List Noted) (w : Work) → IsAsked self.old (W.noted watch.old) (W.is_short watch.old) start w
            → HasStepped self.new (W.noted watch.new) (W.is_short watch.new) start
            (begins_with self.old.number (sending self.old.number (pipe, message.now)) w)) }
        ensures unchanged { OnErr result ((self.new ≡ self.old) × (watch.new ≡ watch.old)) }
        ensures store { self.new.store ≡ self.old.store }
        ensures number { self.new.number ≡ self.old.number }
    {
        self.node.send(pipe, message, watch)
    }

    /// An init begins, with the identity that it is to set and at most eight pipes that it is to make: its first command is sent (ETSI TS
    /// 102 622, section 8.4; what an init makes is this project's own). Nothing is committed.
    ///
    /// # Errors
    ///
    /// `NotUp` where the link isn't up, `Waiting` where a command on pipe 01 isn't answered, and `Full` where the block of the command
    /// isn't spare: the first of these that applies. Nothing changed then.
    pub fn init<W: Watch>(
        &mut self,
        identity: &[u8; 8],
        pipes: &[[u8; 3]],
        watch: &mut W,
    ) -> Result<(), HostRefused>
        requires runs { (core : Core) × (ports : List Port) × RunsAs self.old core ports }
        requires few { length pipes.now ≤ 8 }
        ensures refusal { (core : Core) (ports : List Port) (p : Port) → RunsAs self.old core ports → port_at ports self.old.number ≡ Some p
            → refused_as result ≡ if_waiting (is_some core.command) (give_refusal p.side (1, 3 ∷ [])) }
        ensures begun { OnOk result ((start : List Noted) (w : Work) → IsAsked self.old (W.noted watch.old) (W.is_short watch.old) start w
            → HasStepped self.new (W.noted watch.new) (W.is_short watch.new) start
            (begins_with self.old.number (beginning identity.now pipes.now) w)) }
        ensures unchanged { OnErr result ((self.new ≡ self.old) × (watch.new ≡ watch.old)) }
        ensures store { self.new.store ≡ self.old.store }
        ensures number { self.new.number ≡ self.old.number }
    {
        self.node.init(identity, pipes, watch)
    }

    /// Whether its end is at rest: it doesn't wait for the acceptance of a reset, and where it is Up all messages that were sent in its
    /// session are acknowledged. This project's own.
    pub fn is_at_rest(&self) -> bool
        requires runs { (core : Core) × (ports : List Port) × RunsAs self.now core ports }
        ensures { (core : Core) (ports : List Port) → RunsAs self.now core ports → result ≡ are_at_rest ports }
    {
        self.node.is_at_rest()
    }

    /// The tables, and the memory in which they are kept.
    pub fn store(&self) -> &Store<N>
        ensures { result.now ≡ self.now.store }
    {
        self.node.store()
    }

    /// The memory. It has 65,536 bytes.
    pub fn into_nv(self) -> N
        ensures nv { result ≡ self.store.journal.nv }
        ensures size { N.capacity result ≡ 65536 }
    {
        let Host { node } = self;
        node.into_nv()
    }
}

impl Host<MemNv> {
    ghost use Rattle.std.specs.Prelude.{◌≡◌, ◌<◌, Some, List, length};
    ghost use Rattle.node_machine.specs.Parts.{Core, Port};
    ghost use Rattle.node_core.specs.Running.{RunsAs};

    /// Plans that the `nth` write of the memory from now fails, where 1 is the next. Byte i of its range becomes byte i of `fill`,
    /// modulo its length. An earlier plan is given up. Nothing else changes.
    pub fn arm(&mut self, nth: u32, fill: ArrayVec<u8, 64>)
        requires nth { 0 < nth }
        requires fill { 0 < length fill.items }
        ensures runs { (core : Core) (ports : List Port) → RunsAs self.old core ports → RunsAs self.new core ports }
        ensures tables { self.new.store.tables ≡ self.old.store.tables }
        ensures journal { self.new.store.journal ≡ record self.old.store.journal {
          nv = record self.old.store.journal.nv { plan = Some (record { nth = nth; fill = fill.items }) };
        } }
        ensures number { self.new.number ≡ self.old.number }
    {
        self.node.arm(nth, fill);
    }
}
