//! What begins a step of a node, and how it ends.
ghost use Rattle.std.specs.Prelude.{◌≡◌, Some};
ghost use Rattle.node_core.specs.Syncing.{sync_told};

use crate::inputs::{Came, NodeInput};
use crate::node::{InBuffer, MESSAGE, Node};
use crate::running::Ran;
use link_end::{LinkReport, ResetRefused};
use swp_base::Nv;
use trace_model::Watch;

// The identifier that came by what is told of the end of the link with this host, where one did.
fn sync_told(host: u8, report: &LinkReport) -> Option<(u8, u16)>
    ensures { result ≡ sync_told host (Some report.now) }
{
    match report.sync {
        Some(id) => Some((host, id)),
        None => None,
    }
}

impl<N: Nv + Drop> Node<N> {
    ghost use Rattle.std.specs.Prelude.{◌≡◌, ◌≤◌, List, None, Some, IfSome, IfOk, OnErr, MatchResult, IsTrue};
    ghost use Rattle.node_machine.specs.Parts.{Work};
    ghost use Rattle.node_machine.specs.Node.{all_come, times_out};
    ghost use Rattle.trace_model.specs.declared.entry.Entry.{Entry as Noted};
    ghost use Rattle.node_core.specs.Nodes.{IsInStep, IsUsable, LiesInBuffer, IsInSomeStep, CarriesOutWhere};
    ghost use Rattle.node_core.specs.Faults.{CountsFaults};
    ghost use Rattle.node_core.specs.Turning.{IsNodeInOrder, AreFewDue};
    ghost use Rattle.node_core.specs.Running.{BeginsStep, HasNoneEnded, ran_so};
    ghost use Rattle.node_core.specs.Syncing.{sync_kept, finishes};
    ghost use Rattle.node_core.specs.Inputs.{input_of_node, refusal_by, MayComeToNode, IsWhatCame};

    /// Behind what came in a step: what sessions that ended there leave is settled, the identifier that came is kept, and the messages
    /// that wait have their turns. The node is in order, and at most six control frames wait at each end to be sent. A
    /// message that waits lies in the buffer already, or none does.
    #[inline(always)]
    #[tactic(auto, using(crate::proofs::Faults::faults_stay, crate::proofs::Faults::faults_then))]
    pub(crate) fn finish<W: Watch>(
        &mut self,
        came: Option<(u8, u16)>,
        lies: Option<InBuffer>,
        buffer: &mut [u8; MESSAGE],
        watch: &mut W,
    ) -> Ran
        requires usable { IsUsable self.old.store }
        requires live { IsTrue self.old.store.journal.live }
        requires lies { LiesInBuffer self.old.ends buffer.old lies }
        requires host { IfSome came (λ pair. (1 ≤ pair.0) × (pair.0 ≤ 7)) }
        requires may { IsInSomeStep W.noted W.is_short (self.old, watch.old) (λ w. IsNodeInOrder w.core w.ports × AreFewDue w.ports) }
        ensures carried { CarriesOutWhere N.writes (λ w. IsNodeInOrder w.core w.ports × AreFewDue w.ports) W.noted W.is_short (self.old, watch.old)
            (self.new, watch.new) (finishes (sync_kept self.old.store.journal.state self.old.store.tables came)) }
        ensures ran { result ≡ ran_so self.new.store.journal.live }
        ensures faults { CountsFaults N.faults self.old.store self.new.store }
        ensures number { self.new.number ≡ self.old.number }
        ensures usable { IsUsable self.new.store }
    {
        if came.is_none() && self.ends.are_idle() {
            return Ran::Done;
        }
        if came.is_none() && !self.ends.have_ended() {
            return self.passes(lies, buffer, watch);
        }
        if !self.settle_sessions(came, watch).is_done() {
            return Ran::Stopped;
        }
        self.passes(None, buffer, watch)
    }

    // What begins a step, and what that did is noted. The message that came, where one did, lies in the front of the buffer then.
    #[inline(always)]
    pub(crate) fn comes<W: Watch>(
        &mut self,
        input: NodeInput<'_>,
        buffer: &mut [u8; MESSAGE],
        watch: &mut W,
    ) -> Result<Came, ResetRefused>
        requires { (start : List Noted) × (w : Work) × BeginsStep self.old (W.noted watch.old) (W.is_short watch.old) start w
            × MayComeToNode input w.ports }
        ensures carried { (start : List Noted) (w : Work) → BeginsStep self.old (W.noted watch.old) (W.is_short watch.old) start w
            → IsInStep self.new (W.noted watch.new) (W.is_short watch.new) start
            (times_out (input_of_node input.entry) (all_come (input_of_node input.entry) w)) }
        ensures came { (start : List Noted) (w : Work) → IsInStep self.old (W.noted watch.old) (W.is_short watch.old) start w
            → MatchResult result (λ came. IsWhatCame (input_of_node input.entry) w.ports came × (refusal_by input.entry w.ports ≡ None))
            (λ why. refusal_by input.entry w.ports ≡ Some why) }
        ensures unchanged { OnErr result ((start : List Noted) (w : Work) → IsInStep self.old (W.noted watch.old) (W.is_short watch.old) start w
            → HasNoneEnded w.ports → IsInStep self.new (W.noted watch.new) (W.is_short watch.new) start w) }
        ensures lies { IfOk result (λ came. LiesInBuffer self.new.ends buffer.new came.lies) }
        ensures quiet { OnErr result (watch.new ≡ watch.old) }
        ensures store { self.new.store ≡ self.old.store }
        ensures number { self.new.number ≡ self.old.number }
    {
        match input {
            NodeInput::At { host, what } => {
                let mut told = None;
                if let Err(why) = self.ends.comes(host, what, &mut told) {
                    return Err(why);
                }
                let Some(report) = &told else {
                    return Ok(Came::nothing());
                };
                Ok(Came {
                    sync: sync_told(host, report),
                    lies: self.note_input(host, report, buffer, watch),
                    became_active: report.became_active,
                })
            }
            NodeInput::Tick => {
                self.time_passes(buffer, watch);
                self.times_out(buffer, watch);
                Ok(Came::nothing())
            }
        }
    }
}
