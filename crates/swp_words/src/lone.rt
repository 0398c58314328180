//! The command `end`: one node alone at the end of a link whose other end is live.
ghost use Rattle.std.specs.Prelude.{◌≡◌, ◌≢◌, ◌≤◌, ◌<◌, ◌+◌, ◌++◌, ◌∷◌, [], List, ℕ, IsTrue, OnOk, OnErr, IfOk, IfErr, Err, take, false, length};
ghost use Rattle.std.specs.Prelude.{if◌then◌else◌, Bool, true, ◌⊎◌};
ghost use Rattle.std.specs.Prelude.{◌↔◌, None, Some};
ghost use Rattle.swp_base.specs.Outside.{Rose};
ghost use Rattle.hci_store.specs.Image.{image_fault};
ghost use Rattle.hci_store.specs.Refusals.{IsOnlyRead};
ghost use Rattle.nv_journal.specs.declared.JournalFault.{JournalFault as Bad};
ghost use Rattle.swp_words.specs.Records.{most_bytes};
ghost use Rattle.lone_laws.specs.alone.Lone.{Lone};
ghost use Rattle.lone_laws.specs.alone.Memories.{IsTakenMemory};
ghost use Rattle.one_end.specs.Alone.{RunsAlone};
ghost use Rattle.one_end.specs.Standing.{StandsAlone, HasRun, HasBooted};
ghost use Rattle.swp_words.specs.Ends.{Began, IsEndBegun, HasHeardAlone, IsWaitingAlone, IsCutAlone, HasGoneOut, EndedInBytes};
ghost use Rattle.swp_words.specs.Ends.{IsOfEnd, IsOfLone, RanSo, EndedSo};
ghost use Rattle.swp_words.specs.Ends.{IsOfEndWord, status_of_boot};
ghost use Rattle.swp_words.specs.Ends.{AnsweredSo, HasNextGeneration, IsRefusedFor};
ghost use Rattle.one_end.specs.Writing.{form_named};

use crate::driver::{Job, drive};
use crate::output::write_all;
use crate::records::piece_behind;
use crate::status::{Ended, Status};
use crate::tables::refused;
use one_end::{
    BootFault, BootRefused, Form, Heard, OneEnd, Output, ROOM, RunningNode, begin, boot, hear,
    memory_of,
};
use std::alloc::Global;
use swp_base::{Failed, Nv, Sink, Source};
use swp_decode::Decoder;

/// A node that runs alone.
#[derive(Drop)]
pub struct Ending<N: Nv + Drop> {
    pub end: OneEnd<N>,
    /// What it wrote that hasn't gone out.
    pub out: Output,
    pub count: u32,
}

/// The most that waits as bytes come: behind it there is room for what they cause.
const MOST_WAITING: usize = 8192;

/// What waits goes out. Where a call fails, a front of it went out.
fn put_out<K: Sink>(sink: &mut K, out: &mut Output) -> Result<(), Failed>
    ensures count { K.faults sink.old ≤ K.faults sink.new }
    ensures fault { OnErr result (Rose (K.faults sink.old) (K.faults sink.new)) }
    ensures none { OnOk result (out.new.items ≡ []) }
    ensures wrote { IsTrue K.tells → OnOk result (K.written sink.new ≡ K.written sink.old ++ out.old.items) }
    ensures front { OnErr result ((n : ℕ) × (IsTrue K.tells → K.written sink.new ≡ K.written sink.old ++ take n out.old.items)) }
{
    write_all(sink, out.as_slice())?;
    out.clear();
    Ok(())
}

/// What waits goes out, where it leaves too little room for what bytes cause.
fn make_room<K: Sink>(sink: &mut K, out: &mut Output) -> Result<(), Failed>
    ensures count { K.faults sink.old ≤ K.faults sink.new }
    ensures fault { OnErr result (Rose (K.faults sink.old) (K.faults sink.new)) }
    ensures room { OnOk result (length out.new.items + ROOM ≤ 52224) }
    ensures wrote { OnOk result (HasGoneOut K.tells out.old.items out.new.items (K.written sink.old) (K.written sink.new)) }
    ensures front { OnErr result ((n : ℕ) × (IsTrue K.tells → K.written sink.new ≡ K.written sink.old ++ take n out.old.items)) }
{
    if out.len() <= MOST_WAITING {
        return Ok(());
    }
    match put_out(sink, out) {
        Ok(()) => Ok(()),
        Err(Failed) => Err(Failed),
    }
}

/// Bytes come, until the node loses its power or all came. What it writes for them waits, as far as there is room for it.
fn hear_bytes<K: Sink, N: Nv + Drop>(
    sink: &mut K,
    ending: &mut Ending<N>,
    bytes: &[u8],
) -> Result<Heard, Failed>
    requires may { (l : Lone) × (older : List ℕ) × StandsAlone ending.old.end l older }
    ensures count { K.faults sink.old ≤ K.faults sink.new }
    ensures fault { OnErr result (Rose (K.faults sink.old) (K.faults sink.new)) }
    ensures nv_count { N.faults ending.old.end.node.store.journal.nv ≤ N.faults ending.new.end.node.store.journal.nv }
    ensures nv_fault { IfOk result (λ heard. IsTrue heard.stopped
        → Rose (N.faults ending.old.end.node.store.journal.nv) (N.faults ending.new.end.node.store.journal.nv)) }
    ensures within { IfOk result (λ heard. heard.count ≤ length bytes.now) }
    ensures all { IfOk result (λ heard. heard.stopped ≡ false → heard.count ≡ length bytes.now) }
    ensures may { IfOk result (λ heard. heard.stopped ≡ false
        → (l : Lone) × (older : List ℕ) × StandsAlone ending.new.end l older) }
    ensures counted { ending.new.count ≡ ending.old.count }
    ensures goes { IfOk result (λ heard. (o : Began N) (came earlier before : List ℕ)
        → IsWaitingAlone N.writes K.tells o ending.old.end false came earlier ending.old.out.items before (K.written sink.old)
        → IsWaitingAlone N.writes K.tells o ending.new.end heard.stopped (came ++ take heard.count bytes.now) earlier ending.new.out.items
        before (K.written sink.new)) }
    ensures ends { OnErr result ((o : Began N) (came earlier before : List ℕ)
        → IsWaitingAlone N.writes K.tells o ending.old.end false came earlier ending.old.out.items before (K.written sink.old)
        → (n : ℕ) × (n ≤ length bytes.now)
        × IsCutAlone N.writes K.tells o ending.new.end (came ++ take n bytes.now) earlier before (K.written sink.new)) }
{
    let mut at = 0;
    'bytes: while at < bytes.len() {
        make_room(sink, &mut ending.out)?;
        let heard = hear(&mut ending.end, &bytes[at..], &mut ending.out);
        at += heard.count;
        if heard.stopped {
            return Ok(Heard {
                count: at,
                stopped: true,
            });
        }
    }
    Ok(Heard {
        count: at,
        stopped: false,
    })
}

/// The bytes of a piece come, and all that the node writes for them goes out.
fn take_bytes<K: Sink, N: Nv + Drop>(
    sink: &mut K,
    ending: &mut Ending<N>,
    piece: &[u8],
) -> Result<(), Status>
    requires few { ending.old.count ≤ 16777216 }
    requires size { length piece.now ≤ 8192 }
    requires may { (l : Lone) × (older : List ℕ) × StandsAlone ending.old.end l older }
    requires none { ending.old.out.items ≡ [] }
    ensures count { K.faults sink.old ≤ K.faults sink.new }
    ensures write_fault { result ≡ Err Status.WriteFault → Rose (K.faults sink.old) (K.faults sink.new) }
    ensures nv_count { N.faults ending.old.end.node.store.journal.nv ≤ N.faults ending.new.end.node.store.journal.nv }
    ensures nv_fault { result ≡ Err Status.NvFault → Rose (N.faults ending.old.end.node.store.journal.nv) (N.faults ending.new.end.node.store.journal.nv) }
    ensures kind { IfErr result IsOfEnd }
    ensures few { OnOk result (ending.new.count ≤ 16777216) }
    ensures counted { OnOk result (ending.new.count ≡ ending.old.count + length piece.now) }
    ensures may { OnOk result ((l : Lone) × (older : List ℕ) × StandsAlone ending.new.end l older) }
    ensures none { OnOk result (ending.new.out.items ≡ []) }
    ensures goes { OnOk result ((o : Began N) (bytes before : List ℕ)
        → HasHeardAlone N.writes K.tells o ending.old.end false bytes before (K.written sink.old)
        → HasHeardAlone N.writes K.tells o ending.new.end false (bytes ++ piece.now) before (K.written sink.new)) }
    ensures ends { IfErr result (λ status. (given : ℕ) (o : Began N) (bytes left before : List ℕ) → ending.old.count ≡ length bytes
        → length piece.now ≤ given
        → HasHeardAlone N.writes K.tells o ending.old.end false bytes before (K.written sink.old)
        → EndedInBytes N.writes K.tells given o ending.new.end status (bytes ++ piece.now ++ left) left before (K.written sink.new)) }
{
    let few = piece
        .len()
        .min((Decoder::MAX_BYTES - ending.count) as usize);
    match hear_bytes(sink, ending, &piece[..few]) {
        Err(Failed) => Err(Status::WriteFault),
        Ok(heard) => {
            ending.count += heard.count as u32;
            match put_out(sink, &mut ending.out) {
                Err(Failed) => Err(Status::WriteFault),
                Ok(()) => {
                    if heard.stopped {
                        Err(Status::NvFault)
                    } else if few < piece.len() {
                        Err(Status::TooMany { count: 16_777_217 })
                    } else {
                        Ok(())
                    }
                }
            }
        }
    }
}

impl<N: Nv + Drop> Job for Ending<N> {
    ghost use Rattle.std.specs.Prelude.{◌+◌, ◌-◌, ◌≤◌, length};
    ghost use Rattle.swp_words.specs.Records.{most_bytes, piece_of};
    ghost use Rattle.swp_words.specs.Ends.{Began, MayHearOn, IsHearing, EndedAlone, IsOfLone};

    ghost goes_on = { λ e. MayHearOn e.end e.out.items e.count };

    ghost bound = { λ e. most_bytes - e.count };

    ghost piece_size = { λ e. piece_of e.count };

    ghost Origin = { Began N };

    ghost under_way = { λ tells o e input left before after.
        IsHearing N.writes tells o e.end e.count input left before after };

    ghost ended = { λ tells given o e status input left before after.
        EndedAlone N.writes tells given o e.end e.count status input left before after };

    ghost memory_faults = { λ e. N.faults e.end.node.store.journal.nv };

    ghost is_ending = { IsOfLone };

    ghost is_ahead = { λ input left. length input ≤ most_bytes + 4096 + length left };

    fn piece(&self) -> usize {
        piece_behind(self.count)
    }

    fn take<K: Sink>(&mut self, _: Global, sink: &mut K, piece: &[u8]) -> Result<(), Status> {
        match take_bytes(sink, self, piece) {
            Ok(()) => Ok(()),
            Err(status) => Err(status),
        }
    }

    fn close<K: Sink>(&mut self, _: Global, _: &mut K) -> Status {
        Status::Done
    }

    fn cut_off(&self) -> Status {
        Status::ReadFault
    }
}

/// What a node wrote as it began goes out, and then the bytes come that the source has left, unless it has lost its power. What the bytes of a
/// read cause is written before the next one.
fn hear_all<S: Source, K: Sink, N: Nv + Drop>(
    alloc: Global,
    source: &mut S,
    sink: &mut K,
    ending: &mut Ending<N>,
    stopped: bool,
) -> Status
    requires none { ending.old.count ≡ 0 }
    requires may { stopped ≡ false → (l : Lone) × (older : List ℕ) × StandsAlone ending.old.end l older }
    ensures kind { IsOfLone result }
    ensures nv_fault { result ≡ Status.NvFault → (stopped ≡ true)
        ⊎ Rose (N.faults ending.old.end.node.store.journal.nv) (N.faults ending.new.end.node.store.journal.nv) }
    ensures nv_kept { stopped ≡ true → ending.new.end ≡ ending.old.end }
    ensures ran { IsTrue S.tells → (o : Began N) (is_clf : Bool) → IsEndBegun o ending.old.end → o.number ≡ (if is_clf then 0 else 2)
        → HasRun N.writes o.content o.first ending.old.end stopped [] ending.old.out.items
        → RanSo N.writes K.tells (S.end source.new).given
        (form_named o.form) is_clf o.content o.first ending.new.end.node.store.journal.nv result (S.left source.old) (S.left source.new)
        (K.written sink.old) (K.written sink.new) }
    ensures ahead { IsTrue S.tells → (o : Began N) → IsEndBegun o ending.old.end
        → HasRun N.writes o.content o.first ending.old.end stopped [] ending.old.out.items
        → length (S.left source.old) ≤ most_bytes + 4096 + length (S.left source.new) }
    ensures read_fault { result ≡ Status.ReadFault → Rose (S.faults source.old) (S.faults source.new) }
    ensures write_fault { result ≡ Status.WriteFault → Rose (K.faults sink.old) (K.faults sink.new) }
    ensures late { (S.end source.old).ended ≡ false → (S.end source.new).late ≡ (S.end source.old).late }
{
    match put_out(sink, &mut ending.out) {
        Err(Failed) => Status::WriteFault,
        Ok(()) => {
            if stopped {
                Status::NvFault
            } else {
                drive(alloc, source, sink, ending)
            }
        }
    }
}

/// A node that has booted runs at the end of a link.
fn run_alone<S: Source, K: Sink, N: Nv + Drop>(
    alloc: Global,
    source: &mut S,
    sink: &mut K,
    node: RunningNode<N>,
    asked: EndAsked,
) -> Ended<N>
    requires may { (l : Lone) × RunsAlone node l [] }
    requires role { node.number ≡ (if asked.is_clf then 0 else 2) }
    ensures kind { IsOfLone result.status }
    ensures nv_fault { result.status ≡ Status.NvFault → Rose (N.faults node.store.journal.nv) (N.faults result.nv) }
    ensures ran { IsTrue S.tells → (content : List ℕ) → HasBooted N.writes content node.store.journal.nv node
        → RanSo N.writes K.tells (S.end source.new).given
        (form_named asked.form) asked.is_clf content node.store.journal.nv result.nv result.status (S.left source.old) (S.left source.new)
        (K.written sink.old) (K.written sink.new) }
    ensures ahead { IsTrue S.tells → (content : List ℕ) → HasBooted N.writes content node.store.journal.nv node
        → length (S.left source.old) ≤ most_bytes + 4096 + length (S.left source.new) }
    ensures read_fault { result.status ≡ Status.ReadFault → Rose (S.faults source.old) (S.faults source.new) }
    ensures write_fault { result.status ≡ Status.WriteFault → Rose (K.faults sink.old) (K.faults sink.new) }
    ensures late { (S.end source.old).ended ≡ false → (S.end source.new).late ≡ (S.end source.old).late }
{
    let mut out = Output::new();
    let (end, stopped) = begin(node, asked.form, &mut out);
    let mut ending = Ending { end, out, count: 0 };
    let status = hear_all(alloc, source, sink, &mut ending, stopped);
    Ended {
        status,
        nv: memory_of(ending.end),
    }
}

/// How a run ends whose boot was refused.
fn refused_boot<N>(unbooted: BootRefused<N>) -> Ended<N>
    ensures memory { result.nv ≡ unbooted.nv }
    ensures status { result.status ≡ status_of_boot unbooted.fault }
{
    let BootRefused { nv, fault } = unbooted;
    let status = match fault {
        BootFault::NoMemory => Status::NoMemory,
        BootFault::Journal(fault) => refused(fault),
    };
    Ended { status, nv }
}

/// What the words `end ROLE LINK` ask for.
#[derive(Clone, Copy, Debug, PartialEq, Eq)]
pub struct EndAsked {
    /// Whether the node is the controller, at the CLF's end. Else it is host 02, at the UICC's.
    pub is_clf: bool,
    pub form: Form,
}

/// One node runs alone over a memory: the controller or host 02, on a link of this form.
pub fn run_end<S: Source, K: Sink, N: Nv + Drop>(
    alloc: Global,
    source: &mut S,
    sink: &mut K,
    nv: N,
    asked: EndAsked,
) -> Ended<N>
    requires { N.capacity nv ≡ 65536 }
    ensures ended { IsTrue S.tells → IsTrue N.tells → EndedSo N.reads N.writes N.content K.tells (S.end source.new).given
        (form_named asked.form) asked.is_clf nv result.nv
        result.status (S.left source.old) (S.left source.new) (K.written sink.old) (K.written sink.new) }
    ensures answered { IsTrue S.tells → IsTrue N.tells → IsTakenMemory (N.content nv) → AnsweredSo K.tells (form_named asked.form) asked.is_clf
        (N.content nv) (N.content result.nv) result.status (S.left source.old) (S.left source.new) (K.written sink.old) (K.written sink.new) }
    ensures ahead { IsTrue S.tells → IsTrue N.tells → length (S.left source.old) ≤ most_bytes + 4096 + length (S.left source.new) }
    ensures image { IsTrue N.tells → (f : Bad) → image_fault (N.content nv) ≡ Some f → ¬ Rose (N.faults nv) (N.faults result.nv)
        → (result.status ≡ Status.BadImage f) ⊎ (result.status ≡ Status.NoMemory) }
    ensures refuses { IsTrue N.tells → (f : Bad) → (result.status ≡ Status.BadImage f)
        ↔ (IsRefusedFor f (N.content nv) × (result.status ≢ Status.NoMemory) × (result.status ≢ Status.NvFault)) }
    ensures untouched { (f : Bad) → result.status ≡ Status.BadImage f → (source.new ≡ source.old) × (sink.new ≡ sink.old) }
    ensures unwritten { (f : Bad) → result.status ≡ Status.BadImage f → IsOnlyRead N.reads N.tells N.content nv result.nv }
    ensures never_begins { IsTrue N.tells → (f : Bad) → IsRefusedFor f (N.content nv) → (source.new ≡ source.old) × (sink.new ≡ sink.old) }
    ensures kind { IsOfEndWord result.status }
    ensures nv_fault { result.status ≡ Status.NvFault → Rose (N.faults nv) (N.faults result.nv) }
    ensures read_fault { result.status ≡ Status.ReadFault → Rose (S.faults source.old) (S.faults source.new) }
    ensures write_fault { result.status ≡ Status.WriteFault → Rose (K.faults sink.old) (K.faults sink.new) }
    ensures late { (S.end source.old).ended ≡ false → (S.end source.new).late ≡ (S.end source.old).late }
    ensures complete { IsTrue S.tells → IsTrue N.tells → image_fault (N.content nv) ≡ None → HasNextGeneration (N.content nv)
        → length (S.left source.old) ≤ most_bytes → ¬ Rose (S.faults source.old) (S.faults source.new) → ¬ Rose (K.faults sink.old) (K.faults sink.new)
        → ¬ Rose (N.faults nv) (N.faults result.nv) → (result.status ≡ Status.Done) ⊎ (result.status ≡ Status.NoMemory) }
    ensures too_many { IsTrue S.tells → IsTrue N.tells → image_fault (N.content nv) ≡ None → HasNextGeneration (N.content nv)
        → most_bytes < length (S.left source.old) → ¬ Rose (S.faults source.old) (S.faults source.new) → ¬ Rose (K.faults sink.old) (K.faults sink.new)
        → ¬ Rose (N.faults nv) (N.faults result.nv) → (result.status ≡ Status.TooMany 16777217) ⊎ (result.status ≡ Status.NoMemory) }
{
    match boot(alloc, asked.is_clf, nv) {
        Ok(node) => run_alone(alloc, source, sink, node, asked),
        Err(unbooted) => refused_boot(unbooted),
    }
}
