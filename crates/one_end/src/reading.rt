//! What a node alone reads, byte by byte.
ghost use Rattle.std.specs.Prelude.{◌≡◌, ◌==◌, ◌<◌, ◌≤◌, ◌+◌, ◌++◌, List, ℕ, [], ◌∷◌, true, length, reverse, take, IfSome};
ghost use Rattle.swp_base.specs.DataUnits.{IsLpdu};
ghost use Rattle.byte_link.specs.Kept.{ByteLinkStandsFor};
ghost use Rattle.lone_laws.specs.alone.Lone.LoneCause.{FrameComes};
ghost use Rattle.lone_laws.specs.alone.Ends.{unit_brings, bytes_bring};
ghost use Rattle.lone_laws.specs.alone.Ends.EndForm.{OnBytes};
ghost use Rattle.one_end.specs.Reading.{causes_brought, is_nothing_brought};

use crate::line::LineReader;
use crate::writing::Form;
use byte_link::{ByteLink, Unit};
use swp_frame::Fed;

/// What a byte brings to a node, in the order in which it comes.
#[derive(Debug, Drop, PartialEq, Eq)]
pub struct Brought {
    /// The activation of a UICC begins.
    pub starts: bool,
    /// A frame comes, or one was refused.
    pub fed: Fed,
    /// The line is deactivated.
    pub stops: bool,
    /// A tick comes.
    pub ticks: bool,
}

impl Brought {
    /// Whether nothing comes to the node.
    #[inline(always)]
    pub fn is_nothing(&self) -> bool
        ensures { result ≡ is_nothing_brought self.now }
    {
        match self.fed {
            Fed::Nothing => !self.starts && !self.stops && !self.ticks,
            Fed::Frame(_) | Fed::Refused(_) => false,
        }
    }
}

/// The first of some bytes, of which only the last may bring something to a node.
#[derive(Debug, Drop, PartialEq, Eq)]
pub struct Stretch {
    /// How many bytes they are.
    pub count: usize,
    /// What the last of them brings.
    pub brought: Brought,
}

/// Reads what comes to the node at one end of a link.
#[derive(Drop)]
pub enum Reader {
    /// The link is a line.
    Line(LineReader),
    /// The link is a byte link.
    Bytes(ByteLink),
}

impl Reader {
    ghost use Rattle.lone_laws.specs.alone.Ends.{byte_brings};
    ghost use Rattle.one_end.specs.Reading.{ReaderStandsFor, form_read};
    ghost use Rattle.one_end.specs.Writing.{form_named};

    /// Nothing came yet.
    pub fn new(form: Form, is_clf: bool) -> Self
        ensures form { form_read result ≡ form_named form }
        ensures stands { (number : ℕ) → (number == 0) ≡ is_clf → ReaderStandsFor result number [] }
    {
        match form {
            Form::Line => Reader::Line(LineReader::new(is_clf)),
            Form::Bytes => Reader::Bytes(ByteLink::new()),
        }
    }

    /// Takes a byte, and gives what it brings to the node.
    #[inline(always)]
    pub fn hear(&mut self, byte: u8) -> Brought
        ensures form { form_read self.new ≡ form_read self.old }
        ensures stands { (number : ℕ) (older : List ℕ) → ReaderStandsFor self.old number older → ReaderStandsFor self.new number (byte ∷ older) }
        ensures brings { (number : ℕ) (older : List ℕ) → ReaderStandsFor self.old number older
            → causes_brought result ≡ byte_brings (form_read self.old) number byte older }
    {
        match self {
            Reader::Line(line) => line.hear(byte),
            Reader::Bytes(link) => brought_by_unit(link.feed(byte)),
        }
    }

    /// Takes the first of these bytes that bring nothing to the node, those that are taken at once. It answers how many they are.
    #[inline(always)]
    fn pass(&mut self, bytes: &[u8]) -> usize
        ensures form { form_read self.new ≡ form_read self.old }
        ensures within { result ≤ length bytes.now }
        ensures stands { (number : ℕ) (older : List ℕ) → ReaderStandsFor self.old number older
            → ReaderStandsFor self.new number (reverse (take result bytes.now) ++ older) }
        ensures quiet { (number : ℕ) (older : List ℕ) → ReaderStandsFor self.old number older
            → bytes_bring (form_read self.old) number older (take result bytes.now) ≡ [] }
    {
        match self {
            Reader::Line(line) => line.pass(bytes),
            Reader::Bytes(link) => link.pass(bytes),
        }
    }

    /// The LPDU of the frame that the first of these bytes bring, where they are a whole unit of a byte link. The unit is four bytes longer than the
    /// LPDU, and the reader is behind it as it was before it.
    #[inline(always)]
    pub fn whole_frame<'a>(&self, bytes: &'a [u8]) -> Option<&'a [u8]>
        ensures lpdu { IfSome result (λ lpdu. IsLpdu lpdu.now) }
        ensures within { IfSome result (λ lpdu. length lpdu.now + 4 ≤ length bytes.now) }
        ensures stands { IfSome result (λ lpdu. (number : ℕ) (older : List ℕ) → ReaderStandsFor self.now number older
            → ReaderStandsFor self.now number (reverse (take (length lpdu.now + 4) bytes.now) ++ older)) }
        ensures brings { IfSome result (λ lpdu. (number : ℕ) (older : List ℕ) → ReaderStandsFor self.now number older
            → bytes_bring (form_read self.now) number older (take (length lpdu.now + 4) bytes.now) ≡ FrameComes lpdu.now ∷ []) }
    {
        match self {
            Reader::Line(_) => None,
            Reader::Bytes(link) => link.whole_lpdu(bytes),
        }
    }

    /// Takes the first of these bytes, up to the first one that brings something to the node, or all where none does.
    pub fn hear_stretch(&mut self, bytes: &[u8]) -> Stretch
        ensures form { form_read self.new ≡ form_read self.old }
        ensures some { 0 < length bytes.now → 0 < result.count }
        ensures within { result.count ≤ length bytes.now }
        ensures rest { is_nothing_brought result.brought ≡ true → result.count ≡ length bytes.now }
        ensures stands { (number : ℕ) (older : List ℕ) → ReaderStandsFor self.old number older
            → ReaderStandsFor self.new number (reverse (take result.count bytes.now) ++ older) }
        ensures brings { (number : ℕ) (older : List ℕ) → ReaderStandsFor self.old number older
            → causes_brought result.brought ≡ bytes_bring (form_read self.old) number older (take result.count bytes.now) }
    {
        let mut count = 0;
        'bytes: while count < bytes.len() {
            let passed = self.pass(&bytes[count..]);
            count += passed;
            if count == bytes.len() {
                return Stretch {
                    count,
                    brought: nothing(),
                };
            }
            let brought = self.hear(bytes[count]);
            count += 1;
            if !brought.is_nothing() {
                return Stretch { count, brought };
            }
        }
        Stretch {
            count,
            brought: nothing(),
        }
    }
}

/// Nothing is brought.
#[inline(always)]
fn nothing() -> Brought
    ensures { causes_brought result ≡ [] }
{
    Brought {
        starts: false,
        fed: Fed::Nothing,
        stops: false,
        ticks: false,
    }
}

/// What a unit of a byte link brings.
#[inline(always)]
fn brought_by_unit(unit: Unit) -> Brought
    ensures { causes_brought result ≡ unit_brings unit }
{
    let ticks = unit == Unit::Tick;
    let fed = match unit {
        Unit::Nothing | Unit::Tick => Fed::Nothing,
        Unit::Frame(lpdu) => Fed::Frame(lpdu),
        Unit::Refused(fault) => Fed::Refused(fault),
    };
    Brought {
        starts: false,
        fed,
        stops: false,
        ticks,
    }
}
