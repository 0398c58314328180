//! The words of a line, which stand apart by spaces.
ghost use Rattle.std.specs.Prelude.{◌≡◌, ◌<◌, ◌==◌, not, [], ◌∷◌, codes, length, position, unwrap_or, slice_get, IfSome, IfNone};
ghost use Rattle.std.specs.Option.{option_copied};
ghost use Rattle.schedule_text.specs.Words.{words};

use memchr::memchr;

/// From how many bytes on a line is searched many bytes at once.
const LONG: usize = 32;

/// The first word of a line, and what stands behind it.
pub(crate) fn next_word(line: &[u8]) -> Option<(&[u8], &[u8])>
    ensures some { IfSome result (λ r. words line.now ≡ r.0.now ∷ words r.1.now) }
    ensures none { IfNone result (words line.now ≡ []) }
    ensures shorter { IfSome result (λ r. length r.1.now < length line.now) }
{
    let start = first_letter(line)?;
    let (_, rest) = line.split_at(start);
    let end = first_space(rest).unwrap_or(rest.len());
    Some(rest.split_at(end))
}

/// What stands behind the word `send` at the front of a line, if a space does.
#[inline(always)]
pub(crate) fn behind_send(line: &[u8]) -> Option<&[u8]>
    ensures { IfSome result (λ rest. words line.now ≡ codes "send" ∷ words rest.now) }
{
    match line {
        [b's', b'e', b'n', b'd', b' ', ..] => Some(line.split_at(4).1),
        _ => None,
    }
}

/// What stands behind the word `deliver` at the front of a line, if a space does.
#[inline(always)]
pub(crate) fn behind_deliver(line: &[u8]) -> Option<&[u8]>
    ensures { IfSome result (λ rest. words line.now ≡ codes "deliver" ∷ words rest.now) }
{
    match line {
        [b'd', b'e', b'l', b'i', b'v', b'e', b'r', b' ', ..] => Some(line.split_at(7).1),
        _ => None,
    }
}

/// What stands behind the word `lose` at the front of a line, if a space does.
#[inline(always)]
pub(crate) fn behind_lose(line: &[u8]) -> Option<&[u8]>
    ensures { IfSome result (λ rest. words line.now ≡ codes "lose" ∷ words rest.now) }
{
    match line {
        [b'l', b'o', b's', b'e', b' ', ..] => Some(line.split_at(4).1),
        _ => None,
    }
}

/// What stands behind the word `tick` at the front of a line, if a space does.
#[inline(always)]
pub(crate) fn behind_tick(line: &[u8]) -> Option<&[u8]>
    ensures { IfSome result (λ rest. words line.now ≡ codes "tick" ∷ words rest.now) }
{
    match line {
        [b't', b'i', b'c', b'k', b' ', ..] => Some(line.split_at(4).1),
        _ => None,
    }
}

/// What stands behind the word `reset` at the front of a line, if a space does.
#[inline(always)]
pub(crate) fn behind_reset(line: &[u8]) -> Option<&[u8]>
    ensures { IfSome result (λ rest. words line.now ≡ codes "reset" ∷ words rest.now) }
{
    match line {
        [b'r', b'e', b's', b'e', b't', b' ', ..] => Some(line.split_at(5).1),
        _ => None,
    }
}

/// What stands behind the word `damage` at the front of a line, if a space does.
#[inline(always)]
pub(crate) fn behind_damage(line: &[u8]) -> Option<&[u8]>
    ensures { IfSome result (λ rest. words line.now ≡ codes "damage" ∷ words rest.now) }
{
    match line {
        [b'd', b'a', b'm', b'a', b'g', b'e', b' ', ..] => Some(line.split_at(6).1),
        _ => None,
    }
}

/// What stands behind the word `busy` at the front of a line, if a space does.
#[inline(always)]
pub(crate) fn behind_busy(line: &[u8]) -> Option<&[u8]>
    ensures { IfSome result (λ rest. words line.now ≡ codes "busy" ∷ words rest.now) }
{
    match line {
        [b'b', b'u', b's', b'y', b' ', ..] => Some(line.split_at(4).1),
        _ => None,
    }
}

/// What stands behind the word `settle` at the front of a line, if a space does.
#[inline(always)]
pub(crate) fn behind_settle(line: &[u8]) -> Option<&[u8]>
    ensures { IfSome result (λ rest. words line.now ≡ codes "settle" ∷ words rest.now) }
{
    match line {
        [b's', b'e', b't', b't', b'l', b'e', b' ', ..] => Some(line.split_at(6).1),
        _ => None,
    }
}

/// What stands behind the word `ready` at the front of a line, if a space does.
#[inline(always)]
pub(crate) fn behind_ready(line: &[u8]) -> Option<&[u8]>
    ensures { IfSome result (λ rest. words line.now ≡ codes "ready" ∷ words rest.now) }
{
    match line {
        [b'r', b'e', b'a', b'd', b'y', b' ', ..] => Some(line.split_at(5).1),
        _ => None,
    }
}

fn first_letter(line: &[u8]) -> Option<usize>
    ensures { result ≡ position (λ b. not (b == 32)) line.now }
{
    line.iter().position(|b| *b != b' ')
}

fn first_space(line: &[u8]) -> Option<usize>
    ensures { result ≡ position (λ b. b == 32) line.now }
{
    if line.len() < LONG {
        line.iter().position(|b| *b == b' ')
    } else {
        memchr(b' ', line)
    }
}

/// Word `k` of a line, counted from 0.
pub(crate) fn word_at(line: &[u8], k: usize) -> Option<&[u8]>
    ensures { option_copied result ≡ slice_get (words line.now) k }
{
    let (word, more) = next_word(line)?;
    if k == 0 {
        Some(word)
    } else {
        word_at(more, k - 1)
    }
}
