//! A session of a controller and a host, frame by frame: activation, the reset, and the first pipe.
ghost use Rattle.std.specs.Prelude.{◌≡◌, ◌<◌, length};

use crate::card::Card;
use crate::library::{Count, FrontEnd};
use crate::shown::{Sent, same, same_bytes};
use hci_store::Store;
use router::Ran;
use std::alloc::Global;
use std::process::Abort;
use swp_base::{Lpdu, MemNv, Nv};

/// The hosts of the controller: 02 alone.
pub(crate) const HOSTS: u8 = 0b100;

/// What went out, and how much was noted.
#[derive(Drop)]
pub(crate) struct Seen {
    pub(crate) sent: Sent,
    pub(crate) count: Count,
}

impl Seen {
    /// Nothing yet.
    pub(crate) fn new() -> Seen {
        Seen {
            sent: Sent::new(),
            count: Count { entries: 0 },
        }
    }

    /// So many entries were noted, and these frames went out, each behind its host and the count of its bytes.
    pub(crate) fn shows(&self, rt: &impl Abort, entries: u64, frames: &[u8]) {
        same(rt, &self.count.entries, &entries);
        same_bytes(rt, self.sent.bytes().as_slice(), frames);
    }
}

/// The LPDU of these bytes.
pub(crate) fn lpdu(rt: &impl Abort, bytes: &[u8]) -> Lpdu {
    Lpdu::from_bytes(bytes).expect(rt, "an LPDU")
}

/// A controller of host 02 that has booted.
pub(crate) fn front_end<N: Nv + Drop>(rt: &impl Abort, alloc: Global, nv: N) -> FrontEnd<N>
    requires { N.capacity nv ≡ 65536 }
{
    match FrontEnd::boot(alloc, HOSTS, nv) {
        Ok(front) => front,
        Err(_) => panic!(rt; "the controller doesn't boot"),
    }
}

/// Host 02, which has booted and begun activation with the identifier 1A2B.
pub(crate) fn card<N: Nv + Drop>(rt: &impl Abort, alloc: Global, nv: N, seen: &mut Seen) -> Card<N>
    requires { N.capacity nv ≡ 65536 }
{
    match Card::boot(alloc, 2, nv, 0x1A2B, &mut seen.count, &mut seen.sent) {
        Ok(card) => card,
        Err(_) => panic!(rt; "the host doesn't boot"),
    }
}

/// The controller takes this frame of host 02, which makes so many entries and these frames.
pub(crate) fn takes<N: Nv + Drop>(
    rt: &impl Abort,
    front: &mut FrontEnd<N>,
    frame: &[u8],
    entries: u64,
    frames: &[u8],
) {
    let mut seen = Seen::new();
    let ran = front.take(2, &lpdu(rt, frame), &mut seen.count, &mut seen.sent);
    same(rt, &ran, &Ran::Done);
    seen.shows(rt, entries, frames);
}

/// The host takes this frame, which makes so many entries and these frames.
pub(crate) fn hears<N: Nv + Drop>(
    rt: &impl Abort,
    card: &mut Card<N>,
    frame: &[u8],
    entries: u64,
    frames: &[u8],
) {
    let mut seen = Seen::new();
    let ran = card.take(&lpdu(rt, frame), &mut seen.count, &mut seen.sent);
    same(rt, &ran, &Ran::Done);
    seen.shows(rt, entries, frames);
}

/// The host sends this message on pipe 01, in these frames.
pub(crate) fn says<N: Nv + Drop>(rt: &impl Abort, card: &mut Card<N>, message: &[u8], frames: &[u8])
    requires { 0 < length message.now }
{
    let mut seen = Seen::new();
    let sent = card.send(1, message, &mut seen.count, &mut seen.sent);
    same(rt, &sent, &Ok(()));
    seen.shows(rt, 1, frames);
}

/// Activation of host 02 is done, and the controller notes so many commands for its identifier.
fn activated<N: Nv + Drop>(
    rt: &impl Abort,
    front: &mut FrontEnd<N>,
    card: &mut Card<N>,
    commands: u64,
) {
    takes(
        rt,
        front,
        &[0x61, 0x1A, 0x2B],
        commands,
        &[2, 2, 0x62, 0x01],
    );
    hears(rt, card, &[0x62, 0x01], 1, &[2, 1, 0x60]);
    takes(rt, front, &[0x60], 1, &[]);
}

/// The controller resets the link with host 02: a session begins.
fn reset<N: Nv + Drop>(rt: &impl Abort, front: &mut FrontEnd<N>, card: &mut Card<N>) {
    let mut seen = Seen::new();
    let ran = front.reset(2, &mut seen.count, &mut seen.sent);
    same(rt, &ran, &Ok(Ran::Done));
    seen.shows(rt, 0, &[2, 3, 0xF9, 0x04, 0x00]);
    hears(rt, card, &[0xF9, 0x04, 0x00], 1, &[2, 1, 0xE6]);
    takes(rt, front, &[0xE6], 1, &[]);
}

/// The controller's and the host's ends are in a session. The controller keeps the host's identifier.
pub(crate) fn up<N: Nv + Drop>(
    rt: &impl Abort,
    alloc: Global,
    clf: N,
    uicc: N,
) -> (FrontEnd<N>, Card<N>)
    requires clf { N.capacity clf ≡ 65536 }
    requires uicc { N.capacity uicc ≡ 65536 }
{
    up_from(rt, alloc, clf, uicc, 1)
}

/// The controller's and the host's ends are in a session, and the controller notes so many commands for the host's identifier.
pub(crate) fn up_from<N: Nv + Drop>(
    rt: &impl Abort,
    alloc: Global,
    clf: N,
    uicc: N,
    commands: u64,
) -> (FrontEnd<N>, Card<N>)
    requires clf { N.capacity clf ≡ 65536 }
    requires uicc { N.capacity uicc ≡ 65536 }
{
    let mut front = front_end(rt, alloc, clf);
    let mut seen = Seen::new();
    let mut card = card(rt, alloc, uicc, &mut seen);
    seen.shows(rt, 0, &[2, 3, 0x61, 0x1A, 0x2B]);
    let ran = front.activate(2, 1, &mut Count { entries: 0 }, &mut Sent::new());
    same(rt, &ran, &Ran::Done);
    activated(rt, &mut front, &mut card, commands);
    reset(rt, &mut front, &mut card);
    (front, card)
}

/// The store keeps so many commands, and its tables these identifiers and static pipes that were opened, and no others.
pub(crate) fn keeps<N: Nv + Drop>(
    rt: &impl Abort,
    store: &Store<N>,
    commands: u32,
    syncs: &[(u8, u16)],
    statics: &[(u8, u8)],
) {
    same(rt, &store.kept(), &commands);
    same(rt, &store.tables().syncs(), &syncs);
    same(rt, &store.tables().statics(), &statics);
    same(rt, &store.tables().pipes().rows().len(), &0);
}

/// The host opens its pipe 01.
pub(crate) fn opens<N: Nv + Drop>(rt: &impl Abort, front: &mut FrontEnd<N>, card: &mut Card<N>) {
    says(rt, card, &[0x03], &[2, 3, 0x80, 0x81, 0x03]);
    takes(
        rt,
        front,
        &[0x80, 0x81, 0x03],
        5,
        &[2, 1, 0xC1, 2, 4, 0x81, 0x81, 0x80, 0x00],
    );
    hears(rt, card, &[0xC1], 1, &[]);
    hears(rt, card, &[0x81, 0x81, 0x80, 0x00], 2, &[2, 1, 0xC1]);
}

/// The session over these memories.
fn play<N: Nv + Drop>(rt: &impl Abort, alloc: Global, clf: N, uicc: N)
    requires clf { N.capacity clf ≡ 65536 }
    requires uicc { N.capacity uicc ≡ 65536 }
{
    let (mut front, mut card) = up(rt, alloc, clf, uicc);
    opens(rt, &mut front, &mut card);
    keeps(rt, front.controller().store(), 2, &[(2, 0x1A2B)], &[(2, 1)]);
    keeps(rt, card.host().store(), 0, &[], &[]);
    says(
        rt,
        &mut card,
        &[0x02, 0x01],
        &[2, 4, 0x89, 0x81, 0x02, 0x01],
    );
    identity(rt, &mut front);
}

/// The session's second command: the session identity, which is at its default.
fn identity<N: Nv + Drop>(rt: &impl Abort, front: &mut FrontEnd<N>) {
    takes(rt, front, &[0xC1], 1, &[]);
    takes(
        rt,
        front,
        &[0x89, 0x81, 0x02, 0x01],
        3,
        &[
            2, 1, 0xC2, 2, 11, 0x8A, 0x81, 0x80, 0xFF, 0xFF, 0xFF, 0xFF, 0xFF, 0xFF, 0xFF, 0xFF,
        ],
    );
}

/// A new memory that tells what is in it.
pub(crate) fn memory(rt: &impl Abort, alloc: Global) -> MemNv
    ensures { length result.content ≡ 65536 }
{
    MemNv::new(alloc, 65_536).expect(rt, "there is memory")
}

#[test]
fn the_first_pipe_is_opened(rt: HostRuntime) {
    let clf = memory(&rt, rt.alloc());
    let uicc = memory(&rt, rt.alloc());
    play(&rt, rt.alloc(), clf, uicc);
}
