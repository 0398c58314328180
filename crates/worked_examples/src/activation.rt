//! Worked examples of activation.
ghost use Rattle.std.specs.Prelude.{◌≡◌, false};

use crate::shown::same;
use std::process::Abort;
use swp_act::{ActEvent, ActOut, ClfAct, UiccAct};
use swp_base::Act;

fn take(act: Act) -> ActEvent
    ensures { result ≡ ActEvent.Take act false }
{
    ActEvent::Take { act, again: false }
}

/// At a tick the UICC sends this, and gives up after so many tries or doesn't. Nothing else happens.
fn ticks(rt: &impl Abort, uicc: &mut UiccAct, send: Option<Act>, gave_up: Option<u8>) {
    let out = ActOut {
        send,
        became_active: false,
        ended_link: false,
        sync: None,
        gave_up,
    };
    same(rt, &uicc.step(&ActEvent::Tick), &out);
}

/// At so many ticks the UICC does nothing.
fn waits(rt: &impl Abort, uicc: &mut UiccAct, count: u8) {
    for _ in 0..count {
        ticks(rt, uicc, None, None);
    }
}

#[test]
fn a_uicc_tries_three_times(rt: HostRuntime) {
    let mut uicc = UiccAct::new();
    let started = uicc.step(&ActEvent::Start { value: 0x1A2B });
    same(&rt, &started.send, &Some(Act::SyncId(0x1A2B)));
    waits(&rt, &mut uicc, 9);
    ticks(&rt, &mut uicc, Some(Act::SyncId(0x1A2B)), None);
    waits(&rt, &mut uicc, 9);
    ticks(&rt, &mut uicc, Some(Act::SyncId(0x1A2B)), None);
    waits(&rt, &mut uicc, 9);
    ticks(&rt, &mut uicc, None, Some(3));
    waits(&rt, &mut uicc, 10);
    same(&rt, &uicc.active(), &false);
}

/// At this event an end sent this, and its link ended or didn't.
fn sent(rt: &impl Abort, out: ActOut, send: Option<Act>, ended_link: bool) {
    same(rt, &(out.send, out.ended_link), &(send, ended_link));
}

/// At this event an end became active and is so now, or neither.
fn became(rt: &impl Abort, out: ActOut, active: bool, expected: bool) {
    same(rt, &[out.became_active, active], &[expected; 2]);
}

#[test]
fn both_ends_become_active(rt: HostRuntime) {
    let mut uicc = UiccAct::new();
    let mut clf = ClfAct::new();
    let cleared = clf.step(&ActEvent::Start { value: 0 });
    sent(&rt, cleared, None, true);
    let early = clf.step(&take(Act::Ready));
    became(&rt, early, clf.active(), false);
    uicc.step(&ActEvent::Start { value: 7 });
    let synced = clf.step(&take(Act::SyncId(7)));
    sent(&rt, synced, Some(Act::PowerMode(0)), true);
    same(&rt, &synced.sync, &Some(7));
    let powered = uicc.step(&take(Act::PowerMode(0)));
    same(&rt, &powered.send, &Some(Act::Ready));
    became(&rt, powered, uicc.active(), true);
    let ready = clf.step(&take(Act::Ready));
    became(&rt, ready, clf.active(), true);
}

/// At a tick nothing is given up, and then the repeat of a frame with another identifier is answered and tells none.
fn takes_a_repeat(rt: &impl Abort, clf: &mut ClfAct) {
    let ticked = clf.step(&ActEvent::Tick).gave_up;
    let repeat = clf.step(&ActEvent::Take {
        act: Act::SyncId(9),
        again: true,
    });
    same(rt, &(ticked, repeat.sync), &(None, None));
    sent(rt, repeat, Some(Act::PowerMode(1)), false);
}

#[test]
fn a_repeat_is_no_try(rt: HostRuntime) {
    let mut clf = ClfAct::new();
    clf.step(&take(Act::SyncId(7)));
    for _ in 1..=29u8 {
        takes_a_repeat(&rt, &mut clf);
    }
    same(&rt, &clf.step(&ActEvent::Tick).gave_up, &Some(3));
}
