ghost use Rattle.swp_lpdu.specs.Controls.{HasNumbers};

use crate::shown::{same, same_bytes};
use std::process::Abort;
use swp_base::{Act, Control, Info, Kind, Lpdu};
use swp_lpdu::{LpduFault, read_lpdu, write_lpdu};

/// What these bytes say; none where they are no LPDU.
fn read(bytes: &[u8]) -> Option<Result<Control, LpduFault>> {
    Some(read_lpdu(&Lpdu::from_bytes(bytes)?))
}

/// These bytes are read as this control.
fn says(rt: &impl Abort, bytes: &[u8], control: Control) {
    same(rt, &read(bytes), &Some(Ok(control)));
}

/// These bytes are read as a supervisory frame.
fn is_supervisory(rt: &impl Abort, bytes: &[u8], kind: Kind, nr: u8) {
    says(rt, bytes, Control::S { kind, nr });
}

/// These bytes are read as a frame of activation.
fn is_activation(rt: &impl Abort, bytes: &[u8], act: Act, again: bool) {
    says(rt, bytes, Control::Act { act, again });
}

/// These bytes are read as a reset.
fn is_reset(rt: &impl Abort, bytes: &[u8], window: u8, caps: u8) {
    says(rt, bytes, Control::Rset { window, caps });
}

#[test]
fn control_bytes_say_what_the_table_says(rt: HostRuntime) {
    is_supervisory(&rt, &[0xC1], Kind::Rr, 1);
    is_supervisory(&rt, &[0xCF], Kind::Rej, 7);
    is_supervisory(&rt, &[0xD2], Kind::Rnr, 2);
    is_supervisory(&rt, &[0xD8], Kind::Srej, 0);
    is_reset(&rt, &[0xF9], 4, 0);
    is_reset(&rt, &[0xF9, 2], 2, 0);
    is_reset(&rt, &[0xF9, 3, 1, 7], 3, 1);
    says(&rt, &[0xE6, 0], Control::Ua);
    is_activation(&rt, &[0x68], Act::Ready, true);
    is_activation(&rt, &[0x61, 0x12, 0x34], Act::SyncId(0x1234), false);
    is_activation(&rt, &[0x6A, 1], Act::PowerMode(1), true);
    says(&rt, &[0x5F, 9], Control::Clt);
}

/// These bytes are refused so.
fn is_refused(rt: &impl Abort, bytes: &[u8], fault: LpduFault) {
    same(rt, &read(bytes), &Some(Err(fault)));
}

#[test]
fn refusals_say_what_is_wrong(rt: HostRuntime) {
    is_refused(&rt, &[0x00, 1], LpduFault::Unknown { byte: 0x00 });
    is_refused(&rt, &[0x63, 1], LpduFault::Unknown { byte: 0x63 });
    is_refused(&rt, &[0xFF, 1], LpduFault::Unknown { byte: 0xFF });
    is_refused(&rt, &[0x61, 1], LpduFault::Short { need: 3, got: 2 });
    is_refused(&rt, &[0xC1, 0], LpduFault::TooLong { got: 2 });
    is_refused(&rt, &[0x80], LpduFault::Short { need: 2, got: 1 });
}

/// The control is written as these bytes, and they are read as it again.
fn is_written(rt: &impl Abort, control: Control, bytes: &[u8])
    requires { HasNumbers control }
{
    same_bytes(rt, write_lpdu(&control).bytes(), bytes);
    says(rt, bytes, control);
}

#[test]
fn an_information_frame_has_its_numbers_and_its_field(rt: HostRuntime) {
    let info = Info::new(&[0x81, 0x03]);
    is_written(&rt, Control::I { ns: 1, nr: 2, info }, &[0x8A, 0x81, 0x03]);
    is_written(&rt, Control::Clt, &[0x40]);
}
