//! A line of text.
ghost use Rattle.std.specs.Prelude.{◌≡◌, ◌+◌, ◌≤◌, ◌++◌, length};
ghost use Rattle.swp_base.specs.DataUnits.{IsLpdu};
ghost use Rattle.swp_frame.specs.declared.fed.Fed.TheVariants.{Frame};
ghost use Rattle.swp_decode.specs.Texts.{wire_name, whole_line, verdict_line};

use crate::words::{Text, push_decimal, push_payload, push_text, push_verdict};
use swp_frame::Fed;

/// A direction of a line.
#[derive(Clone, Copy, Debug, PartialEq, Eq)]
pub enum Wire {
    /// From the CLF to the UICC.
    S1,
    /// From the UICC to the CLF.
    S2,
}

/// Appends the line of what was read on a wire, of a frame whose start is at this place; nothing where nothing came.
#[inline]
pub fn push_line(text: &mut Text, wire: Wire, start: u32, fed: &Fed)
    requires { length text.old.items + 128 ≤ 8192 }
    ensures items { text.new.items ≡ text.old.items ++ verdict_line wire start fed.now }
    ensures sized { length text.new.items ≤ length text.old.items + 128 }
{
    match fed {
        Fed::Nothing => {}
        Fed::Frame(_) | Fed::Refused(_) => push_whole_line(text, wire, start, fed),
    }
}

#[cold]
#[inline(never)]
fn push_whole_line(text: &mut Text, wire: Wire, start: u32, fed: &Fed)
    requires { length text.old.items + 128 ≤ 8192 }
    ensures items { text.new.items ≡ text.old.items ++ whole_line wire start fed.now }
    ensures sized { length text.new.items ≤ length text.old.items + 128 }
{
    push_name(text, wire);
    push_decimal(text, start);
    push_text(text, b" ");
    push_verdict(text, fed);
    push_text(text, b"\n");
}

/// Appends the line of a frame with this payload, which was read on a wire and whose start is at this place.
#[inline(never)]
pub fn push_frame_line(text: &mut Text, wire: Wire, start: u32, payload: &[u8])
    requires room { length text.old.items + 128 ≤ 8192 }
    requires payload { IsLpdu payload.now }
    ensures items { text.new.items ≡ text.old.items ++ whole_line wire start (Frame payload.now) }
    ensures sized { length text.new.items ≤ length text.old.items + 128 }
{
    push_name(text, wire);
    push_decimal(text, start);
    push_text(text, b" ");
    push_payload(text, payload);
    push_text(text, b"\n");
}

fn push_name(text: &mut Text, wire: Wire)
    requires { length text.old.items + 3 ≤ 8192 }
    ensures items { text.new.items ≡ text.old.items ++ wire_name wire }
    ensures sized { length text.new.items ≤ length text.old.items + 3 }
{
    match wire {
        Wire::S1 => push_text(text, b"s1 "),
        Wire::S2 => push_text(text, b"s2 "),
    }
}
