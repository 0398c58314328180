//! Worked examples of whole link ends.
ghost use Rattle.std.specs.Prelude.{◌<◌, length};

use crate::nodes::{Form, Message, NOTHING, Node, Told};
use crate::relays::Relay;
use crate::shown::{same, same_bytes};
use link_end::{LinkReport, SendRefused};
use shdlc_core::LinkState;
use std::alloc::Global;
use std::process::Abort;
use swp_base::{Cause, FrameFault, Lpdu, Role};

/// The LPDU of these bytes.
fn lpdu(rt: &impl Abort, bytes: &[u8]) -> Lpdu {
    Lpdu::from_bytes(bytes).expect(rt, "an LPDU has these bytes")
}

/// These are the bytes of a frame, or none where they are empty.
fn has_bytes(rt: &impl Abort, frame: &Option<Lpdu>, bytes: &[u8]) {
    match frame {
        Some(lpdu) => same_bytes(rt, lpdu.bytes(), bytes),
        None => same_bytes(rt, &[], bytes),
    }
}

/// The end sends this frame next, or nothing where it is empty.
fn sends(rt: &impl Abort, node: &mut Node, frame: &[u8]) {
    has_bytes(rt, &node.next_out(), frame);
}

/// The end takes a frame, tells this of it, and sends one frame then, or nothing where it is empty.
fn takes(rt: &impl Abort, node: &mut Node, frame: &[u8], report: LinkReport, reply: &[u8]) {
    let told = node.take(rt, Form::Lpdus, &lpdu(rt, frame));
    same(
        rt,
        &(told.report, told.message.is_some()),
        &(report, report.got),
    );
    sends(rt, node, reply);
    sends(rt, node, &[]);
}

/// The end takes a frame, tells nothing of it, and sends nothing.
fn ignores(rt: &impl Abort, node: &mut Node, frame: &[u8]) {
    takes(rt, node, frame, NOTHING, &[]);
}

/// The end takes a frame, tells nothing of it, and sends one frame then.
fn answers(rt: &impl Abort, node: &mut Node, frame: &[u8], reply: &[u8]) {
    takes(rt, node, frame, NOTHING, reply);
}

/// The end takes a frame, ends the session for what it carries, sends nothing, and is Down.
fn ends(rt: &impl Abort, node: &mut Node, frame: &[u8]) {
    let over = LinkReport {
        ended: Some(Cause::Chain),
        ..NOTHING
    };
    takes(rt, node, frame, over, &[]);
    same(rt, &node.state(), &LinkState::Down);
}

/// The end is given a message on pipe 01 to send, and takes it or refuses it so.
fn offers(rt: &impl Abort, node: &mut Node, message: &[u8], answer: Result<(), SendRefused>)
    requires { 0 < length message.now }
{
    same(rt, &node.send(1, message), &answer);
}

/// What a row of frames did at the end that they came to.
#[derive(Clone, Copy)]
struct Seen {
    frames: u16,
    acked: u16,
    last: Option<Message>,
    began: bool,
    became_active: bool,
    sync: Option<u16>,
    ended: Option<Cause>,
}

impl Seen {
    fn new() -> Seen {
        Seen {
            frames: 0,
            acked: 0,
            last: None,
            began: false,
            became_active: false,
            sync: None,
            ended: None,
        }
    }

    fn add(&mut self, told: &Told) {
        let report = told.report;
        self.frames = self.frames.saturating_add(1);
        self.acked = self.acked.saturating_add(report.acked);
        self.began = self.began || report.began;
        self.became_active = self.became_active || report.became_active;
        self.sync = self.sync.or(report.sync);
        self.ended = self.ended.or(report.ended);
        if told.message.is_some() {
            self.last = told.message;
        }
    }
}

/// The frames that one end sends now come to the other, at most 16.
fn deliver(rt: &impl Abort, form: Form, from: &mut Node, to: &mut Node) -> Seen {
    let mut seen = Seen::new();
    for _frame in 0..16u8 {
        match from.next_out() {
            Some(frame) => seen.add(&to.take(rt, form, &frame)),
            None => return seen,
        }
    }
    seen
}

/// Both ends are in this state.
fn are(rt: &impl Abort, clf: &Node, uicc: &Node, state: LinkState) {
    same(rt, &clf.state(), &state);
    same(rt, &uicc.state(), &state);
}

/// Two ends become active, with the sync identifier 0001 and low power.
fn become_active(rt: &impl Abort, form: Form, clf: &mut Node, uicc: &mut Node) {
    let _started = clf.activate(rt, 0);
    let _started = uicc.activate(rt, 1);
    sends(rt, clf, &[]);
    let asked = deliver(rt, form, uicc, clf);
    let powered = deliver(rt, form, clf, uicc);
    let ready = deliver(rt, form, uicc, clf);
    same(
        rt,
        &(asked.sync, powered.became_active, ready.became_active),
        &(Some(1), true, true),
    );
    are(rt, clf, uicc, LinkState::Down);
}

/// A session begins between two ends that are active.
fn begin_session(rt: &impl Abort, form: Form, clf: &mut Node, uicc: &mut Node) {
    let reset = clf.reset(rt, None);
    let heard = deliver(rt, form, clf, uicc);
    let accepted = deliver(rt, form, uicc, clf);
    same(
        rt,
        &(reset, heard.began, accepted.began),
        &(Ok(NOTHING), true, true),
    );
    are(rt, clf, uicc, LinkState::Up);
}

/// A message of one end comes to the other, whose answer acknowledges it.
fn exchange(rt: &impl Abort, form: Form, from: &mut Node, to: &mut Node, pipe: u8, len: u32)
    requires { pipe < 112 }
{
    let bytes = [0x42; 60];
    let count = (len as usize).clamp(1, 60);
    let sent = from.send(pipe, &bytes[..count]);
    let came = deliver(rt, form, from, to);
    let back = deliver(rt, form, to, from);
    let front = if count > 1 { [0x42, 0x42] } else { [0x42, 0] };
    let len = count as u32;
    let message = Message { pipe, len, front };
    same(
        rt,
        &(sent, came.last, back.acked),
        &(Ok(()), Some(message), 1),
    );
}

/// An end is deactivated, which ends its session. Then it takes no message, and sends nothing.
fn stops(rt: &impl Abort, node: &mut Node) {
    same(rt, &node.deactivate(rt).ended, &Some(Cause::Act));
    offers(rt, node, &[3], Err(SendRefused::NotUp));
    sends(rt, node, &[]);
}

/// Two ends become active, exchange messages in this form, and end.
fn connect_and_exchange(rt: &impl Abort, form: Form, clf: &mut Node, uicc: &mut Node) {
    become_active(rt, form, clf, uicc);
    begin_session(rt, form, clf, uicc);
    exchange(rt, form, clf, uicc, 1, 60);
    exchange(rt, form, uicc, clf, 111, 1);
    exchange(rt, form, uicc, clf, 0, 29);
    stops(rt, clf);
    stops(rt, uicc);
}

/// Two new ends become active, exchange messages in this form, and end.
fn exchange_in(rt: &impl Abort, alloc: Global, form: Form) {
    let mut clf = Node::make(rt, alloc, Role::Clf);
    let mut uicc = Node::make(rt, alloc, Role::Uicc);
    connect_and_exchange(rt, form, &mut clf, &mut uicc);
}

#[test]
fn two_ends_exchange_messages_in_each_form(rt: HostRuntime) {
    exchange_in(&rt, rt.alloc(), Form::Lpdus);
    exchange_in(&rt, rt.alloc(), Form::Periods);
    exchange_in(&rt, rt.alloc(), Form::Bytes);
}

#[test]
fn a_bare_end_takes_whatever_comes(rt: HostRuntime) {
    let mut node = Node::make(&rt, rt.alloc(), Role::Bare);
    let got = LinkReport {
        got: true,
        ..NOTHING
    };
    let begins = LinkReport {
        ended: Some(Cause::Peer),
        began: true,
        ..NOTHING
    };
    ignores(&rt, &mut node, &[0x81, 0x81, 0x03]);
    ignores(&rt, &mut node, &[0xD8]);
    ignores(&rt, &mut node, &[0x40]);
    ignores(&rt, &mut node, &[0x00]);
    ignores(&rt, &mut node, &[0xC0, 0x00]);
    answers(&rt, &mut node, &[0x88, 0x81, 0x03], &[0xC8]);
    ignores(&rt, &mut node, &[0x90, 0x81, 0x03]);
    takes(&rt, &mut node, &[0x80, 0x81, 0x03], got, &[0xC1]);
    answers(&rt, &mut node, &[0x80, 0x81, 0x03], &[0xC1]);
    answers(&rt, &mut node, &[0x88, 0xF0, 0x03], &[0xC2]);
    ignores(&rt, &mut node, &[0xF9, 0x00, 0x00]);
    takes(&rt, &mut node, &[0xF9, 0x07], begins, &[0xE6]);
}

/// What is wrong with the frame that these bytes of a byte link end.
fn refused_at_last(rt: &impl Abort, node: &mut Node, bytes: &[u8]) -> Option<FrameFault> {
    let mut refused = None;
    for byte in bytes {
        refused = node.take_byte(rt, *byte).report.refused;
    }
    refused
}

#[test]
fn a_broken_frame_is_told(rt: HostRuntime) {
    let mut node = Node::make(&rt, rt.alloc(), Role::Bare);
    let refused = refused_at_last(&rt, &mut node, &[0x00, 0x01, 0xC1, 0xD7, 0x63]);
    let fault = FrameFault::Crc {
        want: 0xD762,
        got: 0xD763,
    };
    same(&rt, &refused, &Some(fault));
    sends(&rt, &mut node, &[]);
}

#[test]
fn a_fifth_message_under_way_ends_the_session(rt: HostRuntime) {
    let mut node = Node::make(&rt, rt.alloc(), Role::Bare);
    answers(&rt, &mut node, &[0x80, 0x02, 0x41], &[0xC1]);
    answers(&rt, &mut node, &[0x88, 0x03, 0x41], &[0xC2]);
    answers(&rt, &mut node, &[0x90, 0x04, 0x41], &[0xC3]);
    answers(&rt, &mut node, &[0x98, 0x05, 0x41], &[0xC4]);
    ends(&rt, &mut node, &[0xA0, 0x06, 0x41]);
}

#[test]
fn a_message_of_4097_bytes_ends_the_session(rt: HostRuntime) {
    let mut node = Node::make(&rt, rt.alloc(), Role::Bare);
    let mut frame = [0x41; 30];
    frame[1] = 0x02;
    for number in 0..146u8 {
        frame[0] = 0x80 + 8 * (number % 8);
        answers(&rt, &mut node, &frame, &[0xC0 + (number + 1) % 8]);
    }
    frame[0] = 0x80 + 8 * 2;
    ends(&rt, &mut node, &frame[..11]);
}

/// At a tick the end gives up after so many tries, or doesn't, and then sends this frame.
fn ticks(rt: &impl Abort, node: &mut Node, gave_up: Option<u8>, frame: &[u8]) {
    same(rt, &node.tick(rt).gave_up, &gave_up);
    sends(rt, node, frame);
}

/// At so many ticks the end does nothing.
fn waits(rt: &impl Abort, node: &mut Node, count: u8) {
    for _tick in 0..count {
        ticks(rt, node, None, &[]);
    }
}

#[test]
fn an_end_that_is_not_answered_gives_up_after_three_tries(rt: HostRuntime) {
    let mut node = Node::make(&rt, rt.alloc(), Role::Uicc);
    let _started = node.activate(&rt, 1);
    sends(&rt, &mut node, &[0x61, 0x00, 0x01]);
    waits(&rt, &mut node, 9);
    ticks(&rt, &mut node, None, &[0x61, 0x00, 0x01]);
    waits(&rt, &mut node, 9);
    ticks(&rt, &mut node, None, &[0x61, 0x00, 0x01]);
    waits(&rt, &mut node, 9);
    ticks(&rt, &mut node, Some(3), &[]);
    waits(&rt, &mut node, 10);
}

/// A frame comes to the first end, which answers it, and the second one sends the same frame.
fn passes_on(rt: &impl Abort, relay: &mut Relay, frame: &[u8]) {
    relay.take(rt, &lpdu(rt, frame));
    same(rt, &relay.next_back().is_some(), &true);
    has_bytes(rt, &relay.next_out(), frame);
}

#[test]
fn messages_are_passed_on_in_one_pool(rt: HostRuntime) {
    let mut relay = Relay::make(&rt, rt.alloc());
    for number in 0..140u8 {
        let come = [0x80 + 8 * (number % 8), 0x81, 0x42, number];
        passes_on(&rt, &mut relay, &come);
        relay.take_back(&rt, &lpdu(&rt, &[0xC0 + (number + 1) % 8]));
    }
}
