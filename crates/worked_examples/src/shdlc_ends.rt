//! Worked examples of one SHDLC end. Losses, crossed resets and tries are shown by the cases of bare links.
ghost use Rattle.std.specs.Prelude.{◌≡◌, ◌≤◌, [], length};

use crate::shown::{same, same_bytes};
use arrayvec::ArrayVec;
use shdlc_core::{Shdlc, Taken, Ticked};
use std::process::Abort;
use swp_base::{Cause, Control, Info, Kind};

// What comes to an end. Each fragment is the message 03 on pipe 01, alone.
#[derive(Clone, Copy)]
enum Input {
    Offer,
    // An I frame with these numbers.
    I(u8, u8),
    S(Kind, u8),
    Rset(u8),
    Ua,
    Ticks(u8),
    Reset(u8),
    Ready(bool),
    Stop,
}

// What it answers.
#[derive(Clone, Copy, Debug, PartialEq, Eq)]
enum Answer {
    Nothing,
    Refused,
    Acked(u8),
    Accepted,
    Began,
    Ended(Cause),
    EndedAndBegan(Cause),
    GaveUp(u8),
}

fn info() -> Info {
    Info::new(&[0x81, 0x03])
}

// The first byte of a frame's LPDU.
fn first_byte(control: &Control) -> u8 {
    match control {
        Control::I { ns, nr, .. } => 0x80 | (*ns % 8 * 8) | (*nr % 8),
        Control::S { kind, nr } => 0xC0 | kind_bits(*kind) | (*nr % 8),
        Control::Rset { .. } => 0xF9,
        Control::Ua => 0xE6,
        Control::Act { .. } | Control::Clt => 0,
    }
}

fn kind_bits(kind: Kind) -> u8 {
    match kind {
        Kind::Rr => 0,
        Kind::Rej => 8,
        Kind::Rnr => 16,
        Kind::Srej => 24,
    }
}

// Fetches all frames, and gives the first byte of each one.
fn sent(end: &mut Shdlc) -> ArrayVec<u8, 12>
    ensures { end.new.due ≡ [] }
{
    let mut bytes = ArrayVec::new();
    while let Some(control) = end.next_out() {
        let _ = bytes.try_push(first_byte(&control));
    }
    bytes
}

fn of_taken(taken: &Taken) -> Answer {
    match (taken.ended, taken.began) {
        (Some(cause), true) => Answer::EndedAndBegan(cause),
        (Some(cause), false) => Answer::Ended(cause),
        (None, true) => Answer::Began,
        (None, false) if taken.accepted == Some(info()) => Answer::Accepted,
        (None, false) if taken.acked > 0 => Answer::Acked(taken.acked),
        (None, false) => Answer::Nothing,
    }
}

fn of_ticked(ticked: Ticked) -> Answer {
    match (ticked.ended, ticked.gave_up) {
        (Some(cause), _) => Answer::Ended(cause),
        (None, Some(tries)) => Answer::GaveUp(tries),
        (None, None) => Answer::Nothing,
    }
}

// A tick without an answer and without a frame.
fn does_nothing(rt: &impl Abort, end: &mut Shdlc)
    requires { end.old.due ≡ [] }
    ensures { end.new.due ≡ [] }
{
    same(rt, &of_ticked(end.tick()), &Answer::Nothing);
    same_bytes(rt, sent(end).as_slice(), &[]);
}

// The ticks, all of them but the last without an answer and without a frame.
fn ticks(rt: &impl Abort, end: &mut Shdlc, count: u8) -> Answer
    requires { end.old.due ≡ [] }
    ensures { length end.new.due ≤ 1 }
{
    for _ in 1..count {
        does_nothing(rt, end);
    }
    of_ticked(end.tick())
}

// The frame that is taken.
fn control_of(input: Input) -> Option<Control> {
    match input {
        Input::I(ns, nr) => Some(Control::I {
            ns,
            nr,
            info: info(),
        }),
        Input::S(kind, nr) => Some(Control::S { kind, nr }),
        Input::Rset(window) => Some(Control::Rset { window, caps: 0 }),
        Input::Ua => Some(Control::Ua),
        _ => None,
    }
}

// What an end answers that did its part, or refused it.
fn unless_refused(done: bool) -> Answer {
    if done {
        Answer::Nothing
    } else {
        Answer::Refused
    }
}

fn apply(rt: &impl Abort, end: &mut Shdlc, input: Input) -> Answer
    requires { end.old.due ≡ [] }
{
    if let Some(control) = control_of(input) {
        return of_taken(&end.take(&control));
    }
    match input {
        Input::Offer => unless_refused(end.offer(&info()).is_ok()),
        Input::Ticks(count) => ticks(rt, end, count),
        Input::Reset(window) => unless_refused(end.reset(window.clamp(1, 4))),
        Input::Ready(ready) => {
            end.set_ready(ready);
            Answer::Nothing
        }
        _ => {
            end.stop();
            Answer::Nothing
        }
    }
}

// One input after another, with the answer to each and the frames that are sent after it.
fn play(rt: &impl Abort, end: &mut Shdlc, table: &[(Input, Answer, &[u8])])
    requires { end.old.due ≡ [] }
    ensures { end.new.due ≡ [] }
{
    for (input, answer, frames) in table {
        same(rt, &apply(rt, end, *input), answer);
        same_bytes(rt, sent(end).as_slice(), frames);
    }
}

// An end that is Up in a given session.
fn up() -> Shdlc
    ensures { result.due ≡ [] }
{
    let mut end = Shdlc::new(4);
    end.begin();
    end
}

#[test]
fn window_and_queue_hold_four(rt: HostRuntime) {
    let mut host = up();
    play(
        &rt,
        &mut host,
        &[
            (Input::Offer, Answer::Nothing, &[0x80]),
            (Input::Offer, Answer::Nothing, &[0x88]),
            (Input::Offer, Answer::Nothing, &[0x90]),
            (Input::Offer, Answer::Nothing, &[0x98]),
            (Input::Offer, Answer::Refused, &[]),
            (Input::S(Kind::Rr, 1), Answer::Acked(1), &[]),
            (Input::Offer, Answer::Nothing, &[0xA0]),
            (Input::S(Kind::Rr, 5), Answer::Acked(4), &[]),
        ],
    );
}

#[test]
fn busy_end_is_sent_to_when_it_is_ready(rt: HostRuntime) {
    let mut controller = up();
    play(
        &rt,
        &mut controller,
        &[
            (Input::Ready(false), Answer::Nothing, &[]),
            (Input::I(0, 0), Answer::Nothing, &[0xD0]),
            (Input::Ready(true), Answer::Nothing, &[0xC0]),
            (Input::Ready(true), Answer::Nothing, &[]),
            (Input::I(0, 0), Answer::Accepted, &[0xC1]),
        ],
    );
    let mut host = up();
    play(
        &rt,
        &mut host,
        &[
            (Input::Offer, Answer::Nothing, &[0x80]),
            (Input::Offer, Answer::Nothing, &[0x88]),
            (Input::S(Kind::Rnr, 0), Answer::Nothing, &[]),
            (Input::Ticks(10), Answer::Nothing, &[0x80]),
            (Input::S(Kind::Rr, 0), Answer::Nothing, &[0x88]),
            (Input::S(Kind::Rnr, 1), Answer::Acked(1), &[]),
            (Input::S(Kind::Rr, 1), Answer::Nothing, &[0x88]),
        ],
    );
}

#[test]
fn reset_from_either_end_starts_a_session(rt: HostRuntime) {
    let mut host = up();
    play(
        &rt,
        &mut host,
        &[
            (Input::Offer, Answer::Nothing, &[0x80]),
            (Input::Reset(4), Answer::Nothing, &[0xF9]),
            (Input::Reset(4), Answer::Refused, &[]),
            (Input::I(0, 1), Answer::Nothing, &[]),
            (Input::Ticks(10), Answer::Nothing, &[0xF9]),
            (Input::Ua, Answer::Began, &[]),
            (Input::Offer, Answer::Nothing, &[0x80]),
        ],
    );
    let mut controller = up();
    play(
        &rt,
        &mut controller,
        &[
            (Input::Rset(4), Answer::EndedAndBegan(Cause::Peer), &[0xE6]),
            (Input::Ua, Answer::Nothing, &[]),
            (Input::Stop, Answer::Nothing, &[]),
            (Input::Offer, Answer::Refused, &[]),
            (Input::Rset(2), Answer::Began, &[0xE6]),
            (Input::Offer, Answer::Nothing, &[0x80]),
            (Input::Offer, Answer::Nothing, &[0x88]),
            (Input::Offer, Answer::Nothing, &[]),
            (Input::S(Kind::Rr, 1), Answer::Acked(1), &[0x90]),
        ],
    );
}

#[test]
fn frames_that_say_nothing_are_ignored(rt: HostRuntime) {
    let mut end = up();
    play(
        &rt,
        &mut end,
        &[
            (Input::I(0, 1), Answer::Nothing, &[]),
            (Input::S(Kind::Srej, 0), Answer::Nothing, &[]),
            (Input::I(1, 0), Answer::Nothing, &[0xC8]),
            (Input::I(2, 0), Answer::Nothing, &[]),
            (Input::I(0, 0), Answer::Accepted, &[0xC1]),
            (Input::I(0, 0), Answer::Nothing, &[0xC1]),
            (Input::Rset(0), Answer::Nothing, &[]),
            (Input::Rset(7), Answer::EndedAndBegan(Cause::Peer), &[0xE6]),
            (Input::Offer, Answer::Nothing, &[0x80]),
        ],
    );
}
