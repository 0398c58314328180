//! A node alone does what comes to it.
ghost use Rattle.std.specs.Prelude.{◌≡◌, ◌≤◌, ◌+◌, ◌*◌, ◌&&◌, ◌++◌, [], List, length, map, IsTrue};
ghost use Rattle.swp_base.specs.Outside.{Rose};
ghost use Rattle.swp_base.specs.declared.control_frames.Control.{Control};
ghost use Rattle.lone_laws.specs.alone.Lone.{Lone, LoneCause};
ghost use Rattle.lone_laws.specs.alone.Lone.LoneCause.{FrameComes};
ghost use Rattle.lone_laws.specs.alone.Ends.{asks_reset};
ghost use Rattle.one_end.specs.Alone.{RunsAlone, TakesAlone};
ghost use Rattle.one_end.specs.Running.{frames_written, cause_of, does_alone, answers_alone, all_answered, RunsYet, RunsReady, HasAnswered};
ghost use Rattle.one_end.specs.Writing.{form_named};

use crate::coming::Coming;
use crate::writing::{Form, Output, write_out};
use node_core::{NodeInput, RunningNode, a_reset_of_an_end_that_became_active_is_not_refused};
use node_ends::LinkInput;
use swp_base::{Lpdu, Nv};
use swp_lpdu::read_lpdu;
use trace_model::{Entry, Watch};

/// The host of the one link.
const HOST: u8 = 2;

/// With what activation begins: full power of a CLF, the identifier of a UICC.
const START: u16 = 1;

/// The most frames of a step.
const MOST_FRAMES: u8 = 17;

/// Keeps nothing of what a node notes.
#[derive(Drop)]
struct Unwatched;

impl Watch for Unwatched {
    ghost use Rattle.std.specs.Prelude.{[], true};

    ghost noted = { λ _. [] };

    ghost is_short = { λ _. true };

    fn note(&mut self, _entry: &Entry, _body: &[u8]) {}

    fn short(&self) -> bool {
        true
    }
}

/// What became of a node by what came.
#[derive(Clone, Copy)]
struct Came {
    /// A write to its memory failed: the node has lost its power.
    stopped: bool,
    /// It asks for a reset of its link: it is a CLF that became active.
    asks_reset: bool,
}

/// A CLF asks for a reset where it becomes active.
#[inline(always)]
fn asks_for_reset(is_clf: bool, became_active: bool) -> bool
    ensures { result ≡ (is_clf && became_active) }
{
    is_clf && became_active
}

/// Appends the frames that are to go out, in their order.
#[inline(always)]
fn send_out<N: Nv + Drop>(node: &mut RunningNode<N>, form: Form, out: &mut Output)
    requires may { (l : Lone) × (frames : List Control) × RunsAlone node.old l frames × (length frames ≤ 17) }
    requires room { length out.old.items + 17 * 323 ≤ 52224 }
    ensures sent { (l : Lone) (frames : List Control) → RunsAlone node.old l frames → length frames ≤ 17 → RunsAlone node.new l [] }
    ensures written { (l : Lone) (frames : List Control) → RunsAlone node.old l frames → length frames ≤ 17
        → out.new.items ≡ out.old.items ++ frames_written (form_named form) node.old.number frames }
    ensures sized { length out.new.items ≤ length out.old.items + 17 * 323 }
    ensures store { node.new.store ≡ node.old.store }
    ensures number { node.new.number ≡ node.old.number }
{
    let is_clf = node.number() == 0;
    for _ in 0..MOST_FRAMES {
        // A frame is long to move, so it is written from where it lies.
        let next = node.next_out(HOST);
        let Some(lpdu) = &next else {
            return;
        };
        write_out(form, is_clf, lpdu, out);
    }
}

/// The node makes a step, and what it writes then is appended.
#[inline(always)]
fn step<N: Nv + Drop>(
    node: &mut RunningNode<N>,
    form: Form,
    input: NodeInput<'_>,
    out: &mut Output,
) -> Came
    requires may { (l : Lone) × (c : LoneCause) × TakesAlone node.old l c input }
    requires room { length out.old.items + 17 * 323 ≤ 52224 }
    ensures done { (l : Lone) (c : LoneCause) → TakesAlone node.old l c input.entry
        → HasAnswered N.writes node.old.store.journal.nv node.new.store.journal.nv (RunsReady node.new result.stopped result.asks_reset)
        (λ m. does_alone (form_named form) (record l { memory = m }) c) out.old.items out.new.items }
    ensures asks { (l : Lone) (c : LoneCause) → TakesAlone node.old l c input.entry → result.asks_reset ≡ asks_reset l c }
    ensures sized { length out.new.items ≤ length out.old.items + 17 * 323 }
    ensures count { N.faults node.old.store.journal.nv ≤ N.faults node.new.store.journal.nv }
    ensures rose { IsTrue result.stopped → Rose (N.faults node.old.store.journal.nv) (N.faults node.new.store.journal.nv) }
    ensures number { node.new.number ≡ node.old.number }
{
    a_reset_of_an_end_that_became_active_is_not_refused::<N>();
    let is_clf = node.number() == 0;
    let Ok(stepped) = node.step(input, &mut Unwatched) else {
        return Came {
            stopped: false,
            asks_reset: false,
        };
    };
    let runs = stepped.ran.is_done();
    let came = Came {
        stopped: !runs,
        asks_reset: asks_for_reset(is_clf, stepped.became_active),
    };
    if runs {
        send_out(node, form, out);
    }
    came
}

/// A frame with this LPDU comes to the node, and what it writes then is appended.
#[inline(always)]
fn take<N: Nv + Drop>(node: &mut RunningNode<N>, form: Form, lpdu: &Lpdu, out: &mut Output) -> Came
    requires may { (l : Lone) × RunsAlone node.old l [] }
    requires room { length out.old.items + 17 * 323 ≤ 52224 }
    ensures done { (l : Lone) → RunsAlone node.old l []
        → HasAnswered N.writes node.old.store.journal.nv node.new.store.journal.nv (RunsReady node.new result.stopped result.asks_reset)
        (λ m. does_alone (form_named form) (record l { memory = m }) (FrameComes lpdu.now)) out.old.items out.new.items }
    ensures asks { (l : Lone) → RunsAlone node.old l [] → result.asks_reset ≡ asks_reset l (FrameComes lpdu.now) }
    ensures sized { length out.new.items ≤ length out.old.items + 17 * 323 }
    ensures count { N.faults node.old.store.journal.nv ≤ N.faults node.new.store.journal.nv }
    ensures rose { IsTrue result.stopped → Rose (N.faults node.old.store.journal.nv) (N.faults node.new.store.journal.nv) }
    ensures number { node.new.number ≡ node.old.number }
{
    // This comes first: it is long, and moved once more where it is made in one case of several.
    let read = read_lpdu(lpdu);
    let what = LinkInput::Frame(&read);
    step(node, form, NodeInput::At { host: HOST, what }, out)
}

/// This comes to the node, and what it writes then is appended. A frame that was refused counts, and makes no step.
fn comes<N: Nv + Drop>(
    node: &mut RunningNode<N>,
    form: Form,
    coming: &Coming,
    out: &mut Output,
) -> Came
    requires may { (l : Lone) × RunsAlone node.old l [] }
    requires room { length out.old.items + 17 * 323 ≤ 52224 }
    ensures done { (l : Lone) → RunsAlone node.old l []
        → HasAnswered N.writes node.old.store.journal.nv node.new.store.journal.nv (RunsReady node.new result.stopped result.asks_reset)
        (λ m. does_alone (form_named form) (record l { memory = m }) (cause_of coming.now)) out.old.items out.new.items }
    ensures asks { (l : Lone) → RunsAlone node.old l [] → result.asks_reset ≡ asks_reset l (cause_of coming.now) }
    ensures sized { length out.new.items ≤ length out.old.items + 17 * 323 }
    ensures count { N.faults node.old.store.journal.nv ≤ N.faults node.new.store.journal.nv }
    ensures rose { IsTrue result.stopped → Rose (N.faults node.old.store.journal.nv) (N.faults node.new.store.journal.nv) }
    ensures number { node.new.number ≡ node.old.number }
{
    match coming {
        Coming::Frame(lpdu) => take(node, form, lpdu, out),
        Coming::Refused(_) => {
            node.refused(HOST);
            Came {
                stopped: false,
                asks_reset: false,
            }
        }
        Coming::Tick => step(node, form, NodeInput::Tick, out),
        Coming::Start => {
            let what = LinkInput::Start(START);
            step(node, form, NodeInput::At { host: HOST, what }, out)
        }
        Coming::Stop => {
            let what = LinkInput::Stop;
            step(node, form, NodeInput::At { host: HOST, what }, out)
        }
    }
}

/// This comes to the node, and then the reset that it asks for, if it does; what it writes then is appended. Whether it has lost its
/// power.
pub(crate) fn answer<N: Nv + Drop>(
    node: &mut RunningNode<N>,
    form: Form,
    coming: &Coming,
    out: &mut Output,
) -> bool
    requires may { (l : Lone) × RunsAlone node.old l [] }
    requires room { length out.old.items + 34 * 323 ≤ 52224 }
    ensures done { (l : Lone) → RunsAlone node.old l []
        → HasAnswered N.writes node.old.store.journal.nv node.new.store.journal.nv (RunsYet node.new result)
        (λ m. answers_alone (form_named form) (record l { memory = m }) (cause_of coming.now)) out.old.items out.new.items }
    ensures sized { length out.new.items ≤ length out.old.items + 34 * 323 }
    ensures count { N.faults node.old.store.journal.nv ≤ N.faults node.new.store.journal.nv }
    ensures rose { IsTrue result → Rose (N.faults node.old.store.journal.nv) (N.faults node.new.store.journal.nv) }
    ensures number { node.new.number ≡ node.old.number }
{
    let came = comes(node, form, coming, out);
    if came.stopped {
        return true;
    }
    if !came.asks_reset {
        return false;
    }
    let what = LinkInput::Reset(None);
    let reset = step(node, form, NodeInput::At { host: HOST, what }, out);
    reset.stopped
}

/// These come to the node, one after another, until it loses its power; what it writes then is appended. Whether it has lost its power.
pub(crate) fn answer_all<N: Nv + Drop>(
    node: &mut RunningNode<N>,
    form: Form,
    comings: &[Coming],
    out: &mut Output,
) -> bool
    requires may { (l : Lone) × RunsAlone node.old l [] }
    requires few { length comings.now ≤ 4 }
    requires room { length out.old.items + 44032 ≤ 52224 }
    ensures done { (l : Lone) → RunsAlone node.old l []
        → HasAnswered N.writes node.old.store.journal.nv node.new.store.journal.nv (RunsYet node.new result)
        (λ m. all_answered (form_named form) (record l { memory = m }) (map cause_of comings.now)) out.old.items out.new.items }
    ensures count { N.faults node.old.store.journal.nv ≤ N.faults node.new.store.journal.nv }
    ensures rose { IsTrue result → Rose (N.faults node.old.store.journal.nv) (N.faults node.new.store.journal.nv) }
    ensures number { node.new.number ≡ node.old.number }
{
    for coming in comings {
        if answer(node, form, coming, out) {
            return true;
        }
    }
    false
}
