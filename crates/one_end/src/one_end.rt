//! A node alone at the end of a link.
ghost use Rattle.std.specs.Prelude.{◌≡◌, ◌++◌, ◌+◌, ◌≤◌, ◌<◌, [], List, ℕ, length, take, false, IsTrue};
ghost use Rattle.swp_base.specs.DataUnits.{IsLpdu};
ghost use Rattle.swp_base.specs.Outside.{Rose};
ghost use Rattle.lone_laws.specs.alone.Lone.{Lone};
ghost use Rattle.lone_laws.specs.alone.Ends.{first_comes};
ghost use Rattle.one_end.specs.Alone.{RunsAlone};
ghost use Rattle.one_end.specs.Running.{all_answered, HasAnswered};
ghost use Rattle.one_end.specs.Standing.{StandsAlone, IsAlone, HasBooted, HasRun, HearsAlone};
ghost use Rattle.one_end.specs.Writing.{form_named};

use crate::coming::{Coming, comings_of, first_comings};
use crate::reading::{Reader, Stretch};
use crate::stepping::{answer, answer_all};
use crate::writing::{Form, Output, ROOM};
use node_core::RunningNode;
use swp_base::{Lpdu, Nv};

/// A node alone at the end of a link whose other end is live: it has its power.
#[derive(Drop)]
pub struct OneEnd<N: Nv + Drop> {
    pub(crate) form: Form,
    pub(crate) reader: Reader,
    /// The controller is at the CLF's end, host 02 at the UICC's.
    pub(crate) node: RunningNode<N>,
}

/// A node that has booted begins at the end of a link: what it writes before any byte comes is put out. Whether it has lost its power.
pub fn begin<N: Nv + Drop>(node: RunningNode<N>, form: Form, out: &mut Output) -> (OneEnd<N>, bool)
    requires may { (l : Lone) × RunsAlone node l [] }
    requires empty { out.old.items ≡ [] }
    ensures form { result.0.form ≡ form }
    ensures may { result.1 ≡ false → (l : Lone) × (older : List ℕ) × StandsAlone result.0 l older }
    ensures run { (content : List ℕ) (first : N) → HasBooted N.writes content first node
        → HasRun N.writes content first result.0 result.1 [] out.new.items }
    ensures begun { (l : Lone) → RunsAlone node l []
        → HasAnswered N.writes node.store.journal.nv result.0.node.store.journal.nv (IsAlone result.0 [] result.1)
        (λ m. all_answered (form_named form) (record l { memory = m }) (first_comes (form_named form) node.number)) out.old.items out.new.items }
    ensures count { N.faults node.store.journal.nv ≤ N.faults result.0.node.store.journal.nv }
    ensures rose { IsTrue result.1 → Rose (N.faults node.store.journal.nv) (N.faults result.0.node.store.journal.nv) }
    ensures number { result.0.node.number ≡ node.number }
{
    let mut node = node;
    let is_clf = node.number() == 0;
    let comings = first_comings(form, is_clf);
    let stopped = answer_all(&mut node, form, comings.as_slice(), out);
    let end = OneEnd {
        form,
        reader: Reader::new(form, is_clf),
        node,
    };
    (end, stopped)
}

/// What became of bytes that came.
#[derive(Clone, Copy, Debug, PartialEq, Eq)]
pub struct Heard {
    /// How many came to the node.
    pub count: usize,
    /// Whether it has lost its power: it does nothing more then.
    pub stopped: bool,
}

/// The first of these bytes come on the link, at least one, up to the first one that brings something to the node, or all where none does.
/// What the node writes for them is appended.
pub fn hear<N: Nv + Drop>(end: &mut OneEnd<N>, bytes: &[u8], out: &mut Output) -> Heard
    requires may { (l : Lone) × (older : List ℕ) × StandsAlone end.old l older }
    requires some { 0 < length bytes.now }
    requires room { length out.old.items + ROOM ≤ 52224 }
    ensures form { end.new.form ≡ end.old.form }
    ensures some { 0 < result.count }
    ensures within { result.count ≤ length bytes.now }
    ensures may { result.stopped ≡ false → (l : Lone) × (older : List ℕ) × StandsAlone end.new l older }
    ensures run { (content came written : List ℕ) (first : N)
        → HasRun N.writes content first end.old false came (written ++ out.old.items)
        → HasRun N.writes content first end.new result.stopped (came ++ take result.count bytes.now) (written ++ out.new.items) }
    ensures count { N.faults end.old.node.store.journal.nv ≤ N.faults end.new.node.store.journal.nv }
    ensures rose { IsTrue result.stopped → Rose (N.faults end.old.node.store.journal.nv) (N.faults end.new.node.store.journal.nv) }
    ensures number { end.new.node.number ≡ end.old.node.number }
{
    if let Some(lpdu) = end.reader.whole_frame(bytes) {
        let count = lpdu.len() + 4;
        let coming = Coming::Frame(lpdu_of(lpdu));
        let stopped = answer(&mut end.node, end.form, &coming, out);
        return Heard { count, stopped };
    }
    hear_in_parts(end, bytes, out)
}

/// The same, byte by byte where one may bring something.
#[inline(never)]
fn hear_in_parts<N: Nv + Drop>(end: &mut OneEnd<N>, bytes: &[u8], out: &mut Output) -> Heard
    requires may { (l : Lone) × (older : List ℕ) × StandsAlone end.old l older }
    requires room { length out.old.items + ROOM ≤ 52224 }
    ensures form { end.new.form ≡ end.old.form }
    ensures some { 0 < length bytes.now → 0 < result.count }
    ensures within { result.count ≤ length bytes.now }
    ensures heard { HearsAlone N.writes end.old end.new result.stopped (take result.count bytes.now) out.old.items out.new.items }
    ensures count { N.faults end.old.node.store.journal.nv ≤ N.faults end.new.node.store.journal.nv }
    ensures rose { IsTrue result.stopped → Rose (N.faults end.old.node.store.journal.nv) (N.faults end.new.node.store.journal.nv) }
    ensures number { end.new.node.number ≡ end.old.node.number }
{
    let Stretch { count, brought } = end.reader.hear_stretch(bytes);
    if brought.is_nothing() {
        return Heard {
            count,
            stopped: false,
        };
    }
    let comings = comings_of(brought);
    let stopped = answer_all(&mut end.node, end.form, comings.as_slice(), out);
    Heard { count, stopped }
}

/// The LPDU of these bytes. Most acknowledgements have a single byte.
#[inline(always)]
fn lpdu_of(bytes: &[u8]) -> Lpdu
    requires { IsLpdu bytes.now }
    ensures { result ≡ bytes.now }
{
    match bytes {
        [byte] => Lpdu::new(&[*byte]),
        _ => Lpdu::new(bytes),
    }
}

/// The memory of a node that has run.
pub fn memory_of<N: Nv + Drop>(end: OneEnd<N>) -> N
    ensures { result ≡ end.node.store.journal.nv }
{
    end.node.into_nv()
}
