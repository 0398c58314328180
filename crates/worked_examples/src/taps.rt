//! Worked examples of the tap.
ghost use Rattle.std.specs.Prelude.{◌≡◌, ◌≤◌, ◌+◌};

use crate::shown::{same, same_bytes};
use std::alloc::Global;
use std::process::Abort;
use swp_base::Lpdu;
use swp_tap::{Tap, TapMessage};

/// A tap on a bare link that has heard nothing.
fn tap(rt: &impl Abort, alloc: Global) -> Tap
    ensures { result.taken ≡ 0 }
{
    Tap::new(alloc, true).expect(rt, "there is memory")
}

/// What the tap tells at this frame.
fn hears(rt: &impl Abort, tap: &mut Tap, from_clf: bool, bytes: &[u8]) -> Option<TapMessage>
    requires { tap.old.taken ≤ 100 }
    ensures { tap.new.taken ≡ tap.old.taken + 1 }
{
    let lpdu = Lpdu::from_bytes(bytes).expect(rt, "an LPDU");
    tap.take(from_clf, &lpdu)
}

/// At this frame the tap tells nothing.
fn nothing(rt: &impl Abort, tap: &mut Tap, from_clf: bool, bytes: &[u8])
    requires { tap.old.taken ≤ 100 }
    ensures { tap.new.taken ≡ tap.old.taken + 1 }
{
    let told = hears(rt, tap, from_clf, bytes);
    same(rt, &told.is_none(), &true);
}

/// At this frame of the CLF the tap tells that the CLF got this message on pipe 01.
fn got(rt: &impl Abort, tap: &mut Tap, bytes: &[u8], session: u32, body: &[u8])
    requires { tap.old.taken ≤ 100 }
    ensures { tap.new.taken ≡ tap.old.taken + 1 }
{
    let told = hears(rt, tap, true, bytes).expect(rt, "a message");
    same(rt, &told.to_clf, &true);
    same(rt, &told.session, &session);
    same(rt, &told.pipe, &1);
    same_bytes(rt, &told.body, body);
}

#[test]
fn a_repeat_is_told_once(rt: HostRuntime) {
    let mut tap = tap(&rt, rt.alloc());
    nothing(&rt, &mut tap, false, &[0x80, 0x81, 3]);
    nothing(&rt, &mut tap, false, &[0x80, 0x81, 3]);
    got(&rt, &mut tap, &[0xC1], 0, &[3]);
    nothing(&rt, &mut tap, true, &[0xC1]);
    same(&rt, &tap.taken(), &4);
}

#[test]
fn a_session_is_that_of_the_end_that_got(rt: HostRuntime) {
    let mut tap = tap(&rt, rt.alloc());
    nothing(&rt, &mut tap, false, &[0x80, 0x81, 3]);
    nothing(&rt, &mut tap, false, &[0xF9, 4, 0]);
    got(&rt, &mut tap, &[0xC1], 0, &[3]);
    nothing(&rt, &mut tap, true, &[0xE6]);
    nothing(&rt, &mut tap, false, &[0x80, 0x81, 4]);
    got(&rt, &mut tap, &[0xC1], 1, &[4]);
}
