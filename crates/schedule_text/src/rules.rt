//! What may be wrong with the words of a line: one rule over the kinds that its row in the table gives them.
ghost use Rattle.std.specs.Prelude.{◌≡◌, ◌+◌, ◌<◌, ◌≤◌, ◌&&◌, length, is_some};
ghost use Rattle.std.specs.List.{list_all};
ghost use Rattle.std.specs.Option.{option_map, option_or};
ghost use Rattle.schedule_text.specs.Words.{words};
ghost use Rattle.schedule_text.specs.Forms.{row_of_form};
ghost use Rattle.schedule_text.specs.Rules.{slots, has_shape, rising, digits_fault, first_digits_fault, host_fault, first_host_fault, words_fault, has_byte};
ghost use Rattle.schedule_text.specs.Rules.{has_bytes};
ghost use Rattle.schedule_text.specs.Values.{byte_value, bytes_value, number_in};
ghost use Rattle.hex.specs.Hex.{is_hex_digit};

use crate::LineFault;
use crate::forms::{Form, Kind};
use crate::values::{byte_of, end_of, number_of};
use crate::words::next_word;

/// What is wrong with the words behind the first one: their number and shapes come before their digits, and these before
/// unknown hosts.
pub(crate) fn fault_in(hci: bool, hosts: &[u8], form: &Form, rest: &[u8]) -> Option<LineFault>
    requires { length rest.now ≤ 9000 }
    ensures { result ≡ words_fault hci hosts.now (row_of_form form.now) (words rest.now) }
{
    let seen = look_over(hci, hosts, form.kinds, rest);
    if seen.count < form.least || form.most < seen.count || !seen.shaped {
        return Some(LineFault::Word);
    }
    match (seen.digits, seen.host) {
        (Some(fault), _) => Some(fault),
        (None, Some(id)) => Some(LineFault::Host { id }),
        (None, None) => None,
    }
}

fn count_words(rest: &[u8]) -> usize
    requires { length rest.now ≤ 9000 }
    ensures count { result ≡ length (words rest.now) }
    ensures few { result ≤ length rest.now }
{
    let mut count = 0;
    let mut left = rest;
    'words: while let Some((_, more)) = next_word(left) {
        count += 1;
        left = more;
    }
    count
}

/// What is seen of the words behind the first one: how many there are, whether all have their shapes, and the first that has
/// wrong digits or names an unknown host.
#[derive(Clone, Copy)]
struct Seen {
    count: usize,
    shaped: bool,
    digits: Option<LineFault>,
    host: Option<u8>,
}

fn look_over(hci: bool, hosts: &[u8], kinds: &[Kind], rest: &[u8]) -> Seen
    requires { length rest.now ≤ 9000 }
    ensures count { result.count ≡ length (words rest.now) }
    ensures shaped { result.shaped ≡ list_all (λ s. has_shape hci s.kind s.word) (slots kinds.now (words rest.now)) }
    ensures digits { result.digits ≡ first_digits_fault 2 0 (slots kinds.now (words rest.now)) }
    ensures host { result.host ≡ first_host_fault hosts.now 0 (slots kinds.now (words rest.now)) }
{
    let mut coming = kinds;
    let mut left = rest;
    let mut at = 2;
    let mut from = 0;
    let mut seen = Seen {
        count: 0,
        shaped: true,
        digits: None,
        host: None,
    };
    'words: while let Some((word, more)) = next_word(left) {
        let Some((kind, others)) = coming.split_first() else {
            seen.count += count_words(left);
            return seen;
        };
        seen = seen_with(seen, hci, hosts, at, from, *kind, word);
        from = rising(from, *kind, word);
        if !others.is_empty() {
            coming = others;
        }
        left = more;
        at += 1;
    }
    seen
}

fn seen_with(
    seen: Seen,
    hci: bool,
    hosts: &[u8],
    at: u32,
    from: u32,
    kind: Kind,
    word: &[u8],
) -> Seen
    requires { seen.count < 9000 }
    ensures count { result.count ≡ seen.count + 1 }
    ensures shaped { result.shaped ≡ (seen.shaped && has_shape hci kind word.now) }
    ensures digits { result.digits ≡ option_or seen.digits (digits_fault at from kind word.now) }
    ensures host { result.host ≡ option_or seen.host (host_fault hosts.now from kind word.now) }
{
    Seen {
        count: seen.count + 1,
        shaped: seen.shaped && shaped(hci, kind, word),
        digits: digits_or(seen.digits, at, from, kind, word),
        host: host_or(seen.host, hosts, from, kind, word),
    }
}

fn digits_or(
    found: Option<LineFault>,
    at: u32,
    from: u32,
    kind: Kind,
    word: &[u8],
) -> Option<LineFault>
    ensures { result ≡ option_or found (digits_fault at from kind word.now) }
{
    match found {
        Some(fault) => Some(fault),
        None => wrong_digits(at, from, kind, word),
    }
}

fn host_or(found: Option<u8>, hosts: &[u8], from: u32, kind: Kind, word: &[u8]) -> Option<u8>
    ensures { result ≡ option_or found (host_fault hosts.now from kind word.now) }
{
    match found {
        Some(host) => Some(host),
        None => unknown_host(hosts, from, kind, word),
    }
}

fn shaped(hci: bool, kind: Kind, word: &[u8]) -> bool
    ensures { result ≡ has_shape hci kind word.now }
{
    match kind {
        Kind::Version => word == b"1".as_slice(),
        Kind::Bare => word == b"bare".as_slice(),
        Kind::Nodes => word == b"hci".as_slice(),
        Kind::End => end_of(word).is_some(),
        Kind::Sender => match end_of(word) {
            Some(at) => !hci || at.at_host,
            None => false,
        },
        Kind::NewHost
        | Kind::Host
        | Kind::Node
        | Kind::Byte { .. }
        | Kind::Bytes { .. }
        | Kind::Number { .. }
        | Kind::Rising { .. } => true,
    }
}

fn wrong_digits(at: u32, from: u32, kind: Kind, word: &[u8]) -> Option<LineFault>
    ensures { result ≡ digits_fault at from kind word.now }
{
    let (is_right, fault) = match kind {
        Kind::Version | Kind::Bare | Kind::Nodes | Kind::End | Kind::Sender => return None,
        Kind::NewHost | Kind::Host | Kind::Node => {
            (byte_of(word).is_some(), LineFault::Hex { at })
        }
        Kind::Byte { below } => (byte_below(word, below), LineFault::Hex { at }),
        Kind::Bytes { low, high } => (is_bytes(word, low, high), LineFault::Hex { at }),
        Kind::Number { low, high } => (
            is_number(word, u32::from(low), high),
            LineFault::Number { at },
        ),
        Kind::Rising { high } => (is_number(word, from, high), LineFault::Number { at }),
    };
    if is_right { None } else { Some(fault) }
}

fn is_number(word: &[u8], low: u32, high: u16) -> bool
    ensures { result ≡ is_some (number_in low high word.now) }
{
    number_of(word, low, high).is_some()
}

fn byte_below(word: &[u8], below: u8) -> bool
    ensures { result ≡ has_byte below (byte_value word.now) }
{
    match byte_of(word) {
        Some(byte) => byte < below,
        None => false,
    }
}

fn is_bytes(word: &[u8], low: u16, high: u16) -> bool
    ensures { result ≡ has_bytes low high (bytes_value word.now) }
{
    match byte_count(word) {
        Some(count) => usize::from(low) <= count && count <= usize::from(high),
        None => false,
    }
}

fn byte_count(word: &[u8]) -> Option<usize>
    ensures { result ≡ option_map length (bytes_value word.now) }
{
    if word.len() % 2 == 0 && all_hex(word) {
        Some(word.len() / 2)
    } else {
        None
    }
}

fn all_hex(word: &[u8]) -> bool
    ensures { result ≡ list_all is_hex_digit word.now }
{
    word.iter().all(|digit| is_hex(*digit))
}

pub(crate) fn is_hex(digit: u8) -> bool
    ensures { result ≡ is_hex_digit digit }
{
    matches!(digit, b'A'..=b'F' | b'a'..=b'f' | b'0'..=b'9')
}

fn unknown_host(hosts: &[u8], from: u32, kind: Kind, word: &[u8]) -> Option<u8>
    ensures { result ≡ host_fault hosts.now from kind word.now }
{
    match kind {
        Kind::NewHost => match byte_of(word) {
            Some(host) if 0 < host && from <= u32::from(host) && host <= 7 => None,
            other => other,
        },
        Kind::End | Kind::Sender => match end_of(word) {
            Some(at) if hosts.contains(&at.link) => None,
            Some(at) => Some(at.link),
            None => None,
        },
        Kind::Host => match byte_of(word) {
            Some(host) if hosts.contains(&host) => None,
            other => other,
        },
        Kind::Node => match byte_of(word) {
            Some(node) if node == 0 || hosts.contains(&node) => None,
            other => other,
        },
        Kind::Version
        | Kind::Bare
        | Kind::Nodes
        | Kind::Byte { .. }
        | Kind::Bytes { .. }
        | Kind::Number { .. }
        | Kind::Rising { .. } => None,
    }
}

/// What the next word of rising numbers or hosts is at least.
fn rising(from: u32, kind: Kind, word: &[u8]) -> u32
    ensures { result ≡ rising from kind word.now }
{
    match kind {
        Kind::NewHost => match byte_of(word) {
            Some(host) => u32::from(host) + 1,
            None => from,
        },
        Kind::Rising { high } => match number_of(word, from, high) {
            Some(number) => u32::from(number) + 1,
            None => from,
        },
        Kind::Version
        | Kind::Bare
        | Kind::Nodes
        | Kind::End
        | Kind::Sender
        | Kind::Host
        | Kind::Node
        | Kind::Byte { .. }
        | Kind::Bytes { .. }
        | Kind::Number { .. } => from,
    }
}
