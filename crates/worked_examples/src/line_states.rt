use crate::shown::same;
use swp_line::*;

/// The state of a line behind one more byte of its record.
fn state_after(line: &mut LineTracker, byte: u8) -> LineState {
    let _period = line.step(byte);
    line.state()
}

#[test]
fn states_over_a_record(rt: HostRuntime) {
    let mut line = LineTracker::new();
    // At first, and behind bits, a suspended line, an invalid byte and a deactivated line.
    let states = [
        line.state(),
        state_after(&mut line, 0x40),
        state_after(&mut line, 0x55),
        state_after(&mut line, 0x01),
        state_after(&mut line, 0x00),
    ];
    let deactivated = LineState::Deactivated;
    let suspended = LineState::Suspended;
    same(
        &rt,
        &states,
        &[
            deactivated,
            LineState::Active,
            suspended,
            suspended,
            deactivated,
        ],
    );
}
