//! Worked examples of the gates of a controller but the administration gate.
use crate::shown::{same, same_bytes};
use gate_identity::serve as serve_identity;
use gate_link::serve as serve_link;
use gate_loopback::posts_back;
use std::process::Abort;

/// The identity gate, with the gates 04 and 05, answers a command so.
fn identity_answers(rt: &impl Abort, message: &[u8], answer: &[u8]) {
    assert!(rt; !message.is_empty() && message[0] < 0x40);
    let served = serve_identity(&[0x04, 0x05], message);
    same_bytes(rt, served.as_slice(), answer);
}

/// The gate of link management, with REC_ERROR 0102, answers a command so, and sets it to this or not at all.
fn link_answers(rt: &impl Abort, message: &[u8], answer: &[u8], set: Option<u16>) {
    assert!(rt; !message.is_empty() && message[0] < 0x40);
    let served = serve_link(0x0102, message);
    same(rt, &(served.0.as_slice(), served.1), &(answer, set));
}

#[test]
fn parameters_are_read_and_not_set(rt: HostRuntime) {
    identity_answers(&rt, &[0x02, 0x01], &[0x80, 0x01, 0x00, 0x00]);
    identity_answers(&rt, &[0x02, 0x02], &[0x80, 0x02]);
    identity_answers(&rt, &[0x02, 0x03], &[0x80, 0x01, 0x00, 0x00]);
    identity_answers(
        &rt,
        &[0x02, 0x04],
        &[0x80, 0x53, 0x57, 0x50, 0x20, 0x48, 0x43, 0x49],
    );
    identity_answers(&rt, &[0x02, 0x05], &[0x80, 0x01]);
    identity_answers(&rt, &[0x02, 0x06], &[0x80, 0x04, 0x05]);
    identity_answers(&rt, &[0x02, 0x07], &[0x85]);
    identity_answers(&rt, &[0x02], &[0x82]);
    identity_answers(&rt, &[0x02, 0x01, 0x01], &[0x82]);
    identity_answers(&rt, &[0x01], &[0x82]);
    identity_answers(&rt, &[0x01, 0x07, 0x01], &[0x85]);
    identity_answers(&rt, &[0x01, 0x06, 0x01], &[0x8A]);
    identity_answers(&rt, &[0x14], &[0x87]);
}

#[test]
fn rec_error_is_read_and_set(rt: HostRuntime) {
    link_answers(&rt, &[0x02, 0x01], &[0x80, 0x01, 0x02], None);
    link_answers(&rt, &[0x02], &[0x82], None);
    link_answers(&rt, &[0x02, 0x01, 0x00], &[0x82], None);
    link_answers(&rt, &[0x02, 0x02], &[0x85], None);
    link_answers(&rt, &[0x01, 0x01, 0xAB, 0xCD], &[0x80], Some(0xABCD));
    link_answers(&rt, &[0x01], &[0x82], None);
    link_answers(&rt, &[0x01, 0x02, 0x00, 0x00], &[0x85], None);
    link_answers(&rt, &[0x01, 0x01, 0xAB], &[0x82], None);
    link_answers(&rt, &[0x01, 0x01, 0xAB, 0xCD, 0xEF], &[0x82], None);
    link_answers(&rt, &[0x10, 0x01], &[0x87], None);
}

/// The message is sent back, or isn't.
fn is_sent_back(rt: &impl Abort, message: &[u8], sent: bool) {
    same(rt, &(message, posts_back(message)), &(message, sent));
}

#[test]
fn only_post_data_is_sent_back(rt: HostRuntime) {
    is_sent_back(&rt, &[0x42, 0x01, 0x02], true);
    is_sent_back(&rt, &[0x42], true);
    is_sent_back(&rt, &[0x41, 0x01], false);
    is_sent_back(&rt, &[0x02, 0x01], false);
    is_sent_back(&rt, &[0x82], false);
    is_sent_back(&rt, &[], false);
}
