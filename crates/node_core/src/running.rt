//! What is done with a node between its steps.
ghost use Rattle.std.specs.Prelude.{◌≡◌, ℕ, Bool, true, List, map, Some, None};
ghost use Rattle.trace_model.specs.declared.entry.Entry.{Entry as Noted};
ghost use Rattle.link_laws.specs.machine.Machine.{LinkInput, report, reset_refusal, sent_all};
ghost use Rattle.node_machine.specs.Parts.{Core, Port, Work};
ghost use Rattle.node_machine.specs.Carrying.{port_at, with_port};
ghost use Rattle.node_machine.specs.Node.{steps, with_error};
ghost use Rattle.node_machine.specs.Node.NodeInput.{AtEnd};
ghost use Rattle.std.specs.List.{AllByRecursion};
ghost use Rattle.node_core.specs.declared.node.Node.{Node as Kept};
ghost use Rattle.node_core.specs.Running.{RunsAs, BeginsStep, SendsOneByOne, between, one_more_error};

use swp_base::Nv;

/// How a step of a node ends.
#[derive(Clone, Copy, Debug, PartialEq, Eq)]
pub enum Ran {
    /// It is done.
    Done,
    /// A write to its memory failed: the node has lost its power, and can only be started again from its memory.
    Stopped,
}

/// How a step of a node ended in which something came to one of its ends.
#[derive(Clone, Copy, Debug, PartialEq, Eq)]
pub struct Stepped {
    pub ran: Ran,
    /// Activation of that end was done in the step (ETSI TS 102 613, section 9.4).
    pub became_active: bool,
}

impl Ran {
    ghost use Rattle.std.specs.Prelude.{◌≡◌};
    ghost use Rattle.node_core.specs.Running.{ran_so};

    /// Whether it is done.
    pub fn is_done(self) -> bool
        ensures { self ≡ ran_so result }
    {
        match self {
            Ran::Done => true,
            Ran::Stopped => false,
        }
    }
}

/// A node between its steps keeps neither the numbers of sessions nor what was done to its ends in a step.
pub fn numbers_of_sessions_are_not_kept<N: Nv + Drop>()
    ensures { (n : Kept N) (core : Core) (ports others : List Port) → map between ports ≡ map between others → RunsAs n core ports
        → RunsAs n core others }
{}

/// A frame that was refused counts for the desk of its end alone.
pub fn a_refused_frame_counts_at_its_desk()
    ensures { (host : ℕ) (ports : List Port) → map (λ (p : Port). p.desk) (with_port host one_more_error ports)
        ≡ with_error host (map (λ (p : Port). p.desk) ports) }
{}

/// The frames that a node fetches of an end one after another, until there is none, are all that are due there, at most five of them ACT
/// frames. Then it has sent all, and none is due.
pub fn frames_of_a_node_go_out<N: Nv + Drop>()
    ensures { (n : Kept N) (core : Core) (ports : List Port) → RunsAs n core ports → AllByRecursion (λ (p : Port). SendsOneByOne p.side) ports }
{}

/// An end of a node that becomes active in a step takes a reset behind it, once its frames went out: it doesn't wait.
pub fn a_reset_of_an_end_that_became_active_is_not_refused<N: Nv + Drop>()
    ensures { (n : Kept N) (noted : List Noted) (short : Bool) (start : List Noted) (w : Work) (h : ℕ) (i : LinkInput) (p : Port)
        → BeginsStep n noted short start w → port_at w.ports h ≡ Some p → (report p.side i).became_active ≡ true
        → (q : Port) × (port_at (steps (AtEnd h i) w).ports h ≡ Some q) × (reset_refusal (sent_all q.side) ≡ None) }
{}
