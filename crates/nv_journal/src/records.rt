//! The bytes of a record.
ghost use Rattle.std.specs.Prelude.{◌≡◌};
ghost use Rattle.journal_laws.specs.Records.{IsBody, record_bytes};

use arrayvec::ArrayVec;

/// A record of version 02 behind its gate: its length, its position in the bank, and its body.
pub fn record(position: u16, body: &[u8]) -> ArrayVec<u8, 65>
    requires short { IsBody body.now }
    ensures { result.items ≡ record_bytes position body.now }
{
    let mut bytes = ArrayVec::<u8, 65>::new();
    bytes.push(body.len() as u8);
    let _index = bytes.try_extend_from_slice(&position.to_be_bytes());
    let _body = bytes.try_extend_from_slice(body);
    bytes
}
