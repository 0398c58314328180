//! The bytes of a body.
ghost use Rattle.std.specs.Prelude.{◌≡◌, drop, slice_index};

/// What stands behind the first byte.
pub(crate) fn behind_first(bytes: &[u8]) -> &[u8]
    ensures { result.now ≡ drop 1 bytes.now }
{
    match bytes {
        [] => &[],
        [_, rest @ ..] => rest,
    }
}

/// The byte at a place of a body, or 00 behind its end.
pub(crate) fn byte_at(body: &[u8], place: usize) -> u8
    ensures { result ≡ slice_index body.now place }
{
    body.get(place).copied().unwrap_or(0)
}
