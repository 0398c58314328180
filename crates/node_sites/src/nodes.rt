//! What a node of a world does, controller or host: a step, whatever begins it, and what a host does by itself. Its memory keeps its bytes
//! over a cut.
ghost use Rattle.std.specs.Prelude.{◌≡◌, ◌≤◌, ℕ, true, List, Some, IfOk, MatchResult, None, OnErr, OnOk};
ghost use Rattle.trace_model.specs.declared.entry.Entry.{Entry as Told};
ghost use Rattle.node_machine.specs.Parts.{Core, Port, Work};
ghost use Rattle.node_machine.specs.Carrying.{port_at};
ghost use Rattle.node_machine.specs.Node.{steps, begins_with};
ghost use Rattle.node_core.specs.Giving.{refused_as};
ghost use Rattle.node_core.specs.Inputs.{input_of_node, refusal_by, MayComeToNode};
ghost use Rattle.node_core.specs.Running.{RunsAs, IsAllSent};
ghost use Rattle.node_sites.specs.Asking.{MayBeAsked, deeds_asked, message_asked, message_refused};
ghost use Rattle.node_sites.specs.Powers.{node_memory};
ghost use Rattle.node_sites.specs.WorldNodes.{BeginsOver, HasGone, IsNotedSo};

use crate::noted::Noted;
use link_end::ResetRefused;
use node_core::{HostRefused, NodeInput, RunningNode};
use swp_base::MemNv;

/// A step of a node: this comes to one of its ends, or time passes. Whether the node has its power still.
///
/// # Errors
///
/// A reset is refused: activation isn't done, or the end waits for the acceptance of a reset already. Nothing changed.
#[inline(always)]
pub fn step(
    node: &mut RunningNode<MemNv>,
    input: NodeInput<'_>,
    noted: &mut Noted,
) -> Result<bool, ResetRefused>
    requires { (core : Core) × (ports : List Port) × RunsAs node.old core ports × IsAllSent ports × MayComeToNode input ports }
    ensures refusal { (core : Core) (ports : List Port) → RunsAs node.old core ports
        → MatchResult result (λ live. refusal_by input.entry ports ≡ None) (λ why. refusal_by input.entry ports ≡ Some why) }
    ensures stepped { (w : Work) → BeginsOver node.old w
        → IfOk result (λ live. HasGone node.old node.new (steps (input_of_node input.entry) w) live) }
    ensures noted { (sessions : List ℕ) (start : List Told) (w : Work) → BeginsOver node.old w → IsNotedSo noted.old sessions start w.entries
        → OnOk result (IsNotedSo noted.new sessions start (steps (input_of_node input.entry) w).entries) }
    ensures unchanged { OnErr result ((core : Core) (ports : List Port) → RunsAs node.old core ports → RunsAs node.new core ports) }
    ensures quiet { OnErr result ((noted.new ≡ noted.old) × (node_memory node.new ≡ node_memory node.old)) }
{
    match node.step(input, noted) {
        Ok(stepped) => Ok(stepped.ran.is_done()),
        Err(why) => Err(why),
    }
}

/// What a host is asked to do by itself.
#[derive(Clone, Copy)]
pub enum Asked<'a> {
    /// It sends a message, which isn't empty, on a pipe that isn't reserved.
    Send(u8, &'a [u8]),
    /// An init begins, with the identity that it is to set and at most eight pipes that it is to make: its first command is sent.
    Init(&'a [u8; 8], &'a [[u8; 3]]),
}

/// A host does what it is asked to.
///
/// # Errors
///
/// The link isn't up, an earlier command isn't answered, or the message is too long or needs more blocks than are spare: the first of
/// these that applies. Nothing changed then.
pub fn give(
    node: &mut RunningNode<MemNv>,
    asked: Asked<'_>,
    noted: &mut Noted,
) -> Result<(), HostRefused>
    requires host { 1 ≤ node.old.number }
    requires runs { (core : Core) × (ports : List Port) × RunsAs node.old core ports }
    requires may { MayBeAsked asked }
    ensures refusal { (core : Core) (ports : List Port) (p : Port) → RunsAs node.old core ports → port_at ports node.old.number ≡ Some p
        → refused_as result ≡ message_refused (message_asked asked.entry) core p }
    ensures given { (w : Work) → BeginsOver node.old w
        → OnOk result (HasGone node.old node.new (begins_with node.old.number (deeds_asked asked.entry node.old.number) w) true) }
    ensures noted { (sessions : List ℕ) (start : List Told) (w : Work) → BeginsOver node.old w → IsNotedSo noted.old sessions start w.entries
        → OnOk result (IsNotedSo noted.new sessions start (begins_with node.old.number (deeds_asked asked.entry node.old.number) w).entries) }
    ensures unchanged { OnErr result ((node.new ≡ node.old) × (noted.new ≡ noted.old)) }
{
    match asked {
        Asked::Send(pipe, message) => node.send(pipe, message, noted),
        Asked::Init(identity, pipes) => node.init(identity, pipes, noted),
    }
}
