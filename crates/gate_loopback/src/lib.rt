//! The loopback gate (ETSI TS 102 622, sections 4.3, 7.1 and 8.5).
#![tactic(auto)]

ghost use Rattle.std.specs.Prelude.{◌≡◌, ◌↔◌, IsTrue, Ok};
ghost use Rattle.hcp_packet.specs.MessageHeader.{header_of};
ghost use Rattle.gate_loopback.specs.Loopback.{posts_back};

use gate_answers::EVT_POST_DATA;
use hcp_packet::{MessageKind, read_header};

/// Whether a loopback gate sends a message back as it came: exactly where it is the event EVT_POST_DATA, whatever it carries (ETSI TS
/// 102 622, sections 6.3 and 8.5).
pub fn posts_back(message: &[u8]) -> bool
    ensures posted { result ≡ posts_back message.now }
    ensures event { IsTrue result ↔ (header_of message.now ≡ Ok (MessageKind.Event, 2)) }
{
    matches!(
        read_header(message),
        Ok((MessageKind::Event, EVT_POST_DATA))
    )
}
