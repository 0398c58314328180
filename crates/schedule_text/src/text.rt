//! Text that grows at the end of a vector until memory runs out.
ghost use Rattle.std.specs.Prelude.{◌≡◌, ◌<◌, ◌≤◌, true, false, List, ℕ, [], ◌∷◌, ◌++◌, ◌+◌, ◌*◌, ◌/◌, ◌%◌, map, take, length, slice_index};
ghost use Rattle.std.specs.Prelude.{OnOk, OnErr};
ghost use Rattle.std.specs.Fmt.{decimal};
ghost use Rattle.hex.specs.Hex.{encode_upper, upper_digits};
ghost use Rattle.schedule_text.specs.Entries.{end_text, byte_text, two_bytes_text, number_words};
ghost use Rattle.schedule_text.specs.Growth.{Start, start_in, all_text, HoldsText, HoldsWords};
ghost use Rattle.schedule_text.specs.Parts.{part_words, parts_words};

use arrayvec::ArrayVec;
use std::alloc::Global;
use swp_base::NoMemory;
use trace_model::End;

/// The two hexadecimal digits of each byte.
static PAIRS: [[u8; 2]; 256] = [
    *b"00", *b"01", *b"02", *b"03", *b"04", *b"05", *b"06", *b"07", *b"08", *b"09", *b"0A", *b"0B",
    *b"0C", *b"0D", *b"0E", *b"0F", *b"10", *b"11", *b"12", *b"13", *b"14", *b"15", *b"16", *b"17",
    *b"18", *b"19", *b"1A", *b"1B", *b"1C", *b"1D", *b"1E", *b"1F", *b"20", *b"21", *b"22", *b"23",
    *b"24", *b"25", *b"26", *b"27", *b"28", *b"29", *b"2A", *b"2B", *b"2C", *b"2D", *b"2E", *b"2F",
    *b"30", *b"31", *b"32", *b"33", *b"34", *b"35", *b"36", *b"37", *b"38", *b"39", *b"3A", *b"3B",
    *b"3C", *b"3D", *b"3E", *b"3F", *b"40", *b"41", *b"42", *b"43", *b"44", *b"45", *b"46", *b"47",
    *b"48", *b"49", *b"4A", *b"4B", *b"4C", *b"4D", *b"4E", *b"4F", *b"50", *b"51", *b"52", *b"53",
    *b"54", *b"55", *b"56", *b"57", *b"58", *b"59", *b"5A", *b"5B", *b"5C", *b"5D", *b"5E", *b"5F",
    *b"60", *b"61", *b"62", *b"63", *b"64", *b"65", *b"66", *b"67", *b"68", *b"69", *b"6A", *b"6B",
    *b"6C", *b"6D", *b"6E", *b"6F", *b"70", *b"71", *b"72", *b"73", *b"74", *b"75", *b"76", *b"77",
    *b"78", *b"79", *b"7A", *b"7B", *b"7C", *b"7D", *b"7E", *b"7F", *b"80", *b"81", *b"82", *b"83",
    *b"84", *b"85", *b"86", *b"87", *b"88", *b"89", *b"8A", *b"8B", *b"8C", *b"8D", *b"8E", *b"8F",
    *b"90", *b"91", *b"92", *b"93", *b"94", *b"95", *b"96", *b"97", *b"98", *b"99", *b"9A", *b"9B",
    *b"9C", *b"9D", *b"9E", *b"9F", *b"A0", *b"A1", *b"A2", *b"A3", *b"A4", *b"A5", *b"A6", *b"A7",
    *b"A8", *b"A9", *b"AA", *b"AB", *b"AC", *b"AD", *b"AE", *b"AF", *b"B0", *b"B1", *b"B2", *b"B3",
    *b"B4", *b"B5", *b"B6", *b"B7", *b"B8", *b"B9", *b"BA", *b"BB", *b"BC", *b"BD", *b"BE", *b"BF",
    *b"C0", *b"C1", *b"C2", *b"C3", *b"C4", *b"C5", *b"C6", *b"C7", *b"C8", *b"C9", *b"CA", *b"CB",
    *b"CC", *b"CD", *b"CE", *b"CF", *b"D0", *b"D1", *b"D2", *b"D3", *b"D4", *b"D5", *b"D6", *b"D7",
    *b"D8", *b"D9", *b"DA", *b"DB", *b"DC", *b"DD", *b"DE", *b"DF", *b"E0", *b"E1", *b"E2", *b"E3",
    *b"E4", *b"E5", *b"E6", *b"E7", *b"E8", *b"E9", *b"EA", *b"EB", *b"EC", *b"ED", *b"EE", *b"EF",
    *b"F0", *b"F1", *b"F2", *b"F3", *b"F4", *b"F5", *b"F6", *b"F7", *b"F8", *b"F9", *b"FA", *b"FB",
    *b"FC", *b"FD", *b"FE", *b"FF",
];

/// How many bytes are written as digits at once.
const AT_ONCE: usize = 32;

/// Words to be written, by their kind.
#[derive(Clone, Copy)]
pub(crate) enum Part<'a> {
    /// A word as it stands.
    Word(&'a [u8]),
    /// An end, as `02c` or `02h`.
    End(End),
    /// A byte as two hexadecimal digits.
    Byte(u8),
    /// Two bytes as four hexadecimal digits, the high byte first.
    TwoBytes(u16),
    /// Bytes as pairs of hexadecimal digits, in one word.
    Bytes(&'a [u8]),
    /// A decimal number.
    Number(u32),
    /// A decimal number, if there is one.
    Maybe(Option<u8>),
    /// How many there are of something, decimal.
    Count(usize),
    /// Decimal numbers, each a word.
    Numbers(&'a [u16]),
    /// Bytes, each a word of two hexadecimal digits.
    EachByte(&'a [u8]),
    /// Bytes in threes, each three a word.
    EachThree(&'a [[u8; 3]]),
}

/// Text that grows at its end. What comes last waits beside a vector, so that much of it is appended at once. Once memory has run out
/// in a line nothing that stood before it changes, and in the end nothing of the line stays.
#[derive(Drop)]
pub(crate) struct Text {
    pub bytes: Vec<u8>,
    pub waiting: ArrayVec<u8, 1024>,
    /// How many bytes stood there as the line began.
    pub mark: usize,
    pub short: bool,
}

impl Text {
    /// No text.
    pub(crate) fn new(alloc: Global) -> Text
        ensures { all_text result ≡ [] }
    {
        Text {
            bytes: Vec::new(alloc),
            waiting: ArrayVec::new(),
            mark: 0,
            short: false,
        }
    }

    /// A line begins, or several that are taken back together.
    #[inline(always)]
    pub(crate) fn begin(&mut self)
        ensures { HoldsText (start_in (all_text self.old)) [] self.new }
    {
        self.mark = self.bytes.len() + self.waiting.len();
        self.short = false;
    }

    /// What began has ended. Where memory has run out in it, it is taken back.
    #[inline(always)]
    pub(crate) fn finish(&mut self) -> Result<(), NoMemory>
        ensures ok { OnOk result ((start : Start) (text : List ℕ) → HoldsText start text self.old → all_text self.new ≡ start.before ++ text) }
        ensures err { OnErr result ((start : Start) (text : List ℕ) → HoldsText start text self.old
            → all_text self.new ≡ take start.mark (start.before ++ text)) }
    {
        if self.short {
            self.cut_to(self.mark);
            return Err(NoMemory);
        }
        Ok(())
    }

    /// Takes back what stands behind so many bytes.
    #[cold]
    #[inline(never)]
    pub(crate) fn cut_to(&mut self, len: usize)
        ensures { all_text self.new ≡ take len (all_text self.old) }
    {
        if len <= self.bytes.len() {
            self.bytes.truncate(len);
            self.waiting.clear();
        } else {
            self.waiting.truncate(len - self.bytes.len());
        }
    }

    /// Appends bytes.
    #[inline(always)]
    pub(crate) fn push(&mut self, bytes: &[u8])
        ensures { (start : Start) (text : List ℕ) → HoldsText start text self.old
            → HoldsText start (text ++ bytes.now) self.new }
    {
        if self.waiting.try_extend_from_slice(bytes).is_err() {
            self.push_behind(bytes);
        }
    }

    /// Appends bytes for which there is no room beside those that wait.
    #[cold]
    #[inline(never)]
    pub(crate) fn push_behind(&mut self, bytes: &[u8])
        ensures { (start : Start) (text : List ℕ) → HoldsText start text self.old
            → HoldsText start (text ++ bytes.now) self.new }
    {
        self.make_room();
        if self.short {
            return;
        }
        match self.bytes.extend_from_slice(bytes) {
            Ok(()) => {}
            Err(_) => self.short = true,
        }
    }

    /// Appends a few bytes.
    #[inline(always)]
    pub(crate) fn push_few(&mut self, bytes: &[u8])
        requires { length bytes.now ≤ 64 }
        ensures { (start : Start) (text : List ℕ) → HoldsText start text self.old
            → HoldsText start (text ++ bytes.now) self.new }
    {
        if self.waiting.remaining_capacity() < bytes.len() {
            self.make_room();
        }
        match self.waiting.try_extend_from_slice(bytes) {
            Ok(()) => {}
            Err(_) => self.give_up(),
        }
    }

    /// Appends what waits to the vector, if there is memory, so that nothing waits.
    #[cold]
    #[inline(never)]
    pub(crate) fn make_room(&mut self)
        ensures same { (start : Start) (text : List ℕ) → HoldsText start text self.old → HoldsText start text self.new }
        ensures all { all_text self.new ≡ all_text self.old }
        ensures none { self.new.short ≡ false → self.new.waiting.items ≡ [] }
    {
        match self.bytes.extend_from_slice(self.waiting.as_slice()) {
            Ok(()) => self.waiting.clear(),
            Err(_) => self.short = true,
        }
    }

    /// Appends nothing more, since there is no memory for what comes next.
    #[cold]
    pub(crate) fn give_up(&mut self)
        ensures { (start : Start) (text more : List ℕ) → HoldsText start text self.old → HoldsText start (text ++ more) self.new }
    {
        self.short = true;
    }

    /// Appends a word and behind it parts, as the first ones of a line.
    pub(crate) fn entry(&mut self, word: &[u8], parts: &[Part<'_>])
        ensures { (start : Start) → HoldsText start [] self.old
            → HoldsWords start (word.now ∷ parts_words parts.now) self.new }
    {
        self.push(word);
        self.parts(parts);
    }

    /// Appends parts, a space before each word.
    pub(crate) fn parts(&mut self, parts: &[Part<'_>])
        ensures { (start : Start) (first : List ℕ) (more : List (List ℕ)) → HoldsWords start (first ∷ more) self.old
            → HoldsWords start (first ∷ (more ++ parts_words parts.now)) self.new }
    {
        for part in parts {
            self.part(part);
        }
    }

    fn part(&mut self, part: &Part<'_>)
        ensures { (start : Start) (first : List ℕ) (more : List (List ℕ)) → HoldsWords start (first ∷ more) self.old
            → HoldsWords start (first ∷ (more ++ part_words part.now)) self.new }
    {
        match part {
            Part::Word(word) => self.word(word),
            Part::End(at) => self.end(*at),
            Part::Byte(byte) => self.byte(*byte),
            Part::TwoBytes(number) => self.two_bytes(*number),
            Part::Bytes(bytes) => self.hex(bytes),
            Part::Number(number) => self.short_number(*number),
            Part::Maybe(number) => self.maybe(*number),
            Part::Count(count) => self.number(*count as u64),
            Part::Numbers(numbers) => self.numbers(numbers),
            Part::EachByte(bytes) => self.each_byte(bytes),
            Part::EachThree(threes) => self.each_three(threes),
        }
    }

    fn two_bytes(&mut self, number: u16)
        ensures { (start : Start) (first : List ℕ) (more : List (List ℕ)) → HoldsWords start (first ∷ more) self.old
            → HoldsWords start (first ∷ (more ++ two_bytes_text number ∷ [])) self.new }
    {
        let [high, low] = number.to_be_bytes();
        self.hex(&[high, low]);
    }

    #[inline(always)]
    pub(crate) fn maybe(&mut self, number: Option<u8>)
        ensures { (start : Start) (first : List ℕ) (more : List (List ℕ)) → HoldsWords start (first ∷ more) self.old
            → HoldsWords start (first ∷ (more ++ number_words number)) self.new }
    {
        if let Some(number) = number {
            self.number(u64::from(number));
        }
    }

    fn numbers(&mut self, numbers: &[u16])
        ensures { (start : Start) (first : List ℕ) (more : List (List ℕ)) → HoldsWords start (first ∷ more) self.old
            → HoldsWords start (first ∷ (more ++ map decimal numbers.now)) self.new }
    {
        for number in numbers {
            self.number(u64::from(*number));
        }
    }

    fn each_byte(&mut self, bytes: &[u8])
        ensures { (start : Start) (first : List ℕ) (more : List (List ℕ)) → HoldsWords start (first ∷ more) self.old
            → HoldsWords start (first ∷ (more ++ map byte_text bytes.now)) self.new }
    {
        for byte in bytes {
            self.byte(*byte);
        }
    }

    fn each_three(&mut self, threes: &[[u8; 3]])
        ensures { (start : Start) (first : List ℕ) (more : List (List ℕ)) → HoldsWords start (first ∷ more) self.old
            → HoldsWords start (first ∷ (more ++ map encode_upper threes.now)) self.new }
    {
        for three in threes {
            self.hex(three);
        }
    }

    /// Appends a space and a word.
    #[inline]
    pub(crate) fn word(&mut self, word: &[u8])
        ensures { (start : Start) (first : List ℕ) (more : List (List ℕ)) → HoldsWords start (first ∷ more) self.old
            → HoldsWords start (first ∷ (more ++ word.now ∷ [])) self.new }
    {
        self.push_few(b" ");
        self.push(word);
    }

    /// Appends a space and an end, as `02c` or `02h`.
    #[inline]
    pub(crate) fn end(&mut self, at: End)
        ensures { (start : Start) (first : List ℕ) (more : List (List ℕ)) → HoldsWords start (first ∷ more) self.old
            → HoldsWords start (first ∷ (more ++ end_text at ∷ [])) self.new }
    {
        let [high, low, side] = letters_of(at);
        self.push_few(&[b' ', high, low, side]);
    }

    /// Appends a space and a byte as two hexadecimal digits.
    #[inline]
    pub(crate) fn byte(&mut self, byte: u8)
        ensures { (start : Start) (first : List ℕ) (more : List (List ℕ)) → HoldsWords start (first ∷ more) self.old
            → HoldsWords start (first ∷ (more ++ byte_text byte ∷ [])) self.new }
    {
        let [high, low] = digits_of(byte);
        self.push_few(&[b' ', high, low]);
    }

    /// Appends a word of four letters, an end and bytes as pairs of hexadecimal digits, as the first ones of a line.
    #[inline(always)]
    pub(crate) fn frame(&mut self, word: &[u8; 4], at: End, bytes: &[u8])
        ensures { (start : Start) → HoldsText start [] self.old
            → HoldsWords start (word.now ∷ end_text at ∷ encode_upper bytes.now ∷ []) self.new }
    {
        let [high, low, side] = letters_of(at);
        match bytes.split_first() {
            Some((first, rest)) => {
                let [one, two] = digits_of(*first);
                self.push_few(&[
                    word[0], word[1], word[2], word[3], b' ', high, low, side, b' ', one, two,
                ]);
                self.pairs(rest);
            }
            None => self.push_few(&[
                word[0], word[1], word[2], word[3], b' ', high, low, side, b' ',
            ]),
        }
    }

    /// Appends an end and a decimal number, a space before each.
    #[inline(always)]
    pub(crate) fn end_and_number(&mut self, at: End, number: u32)
        ensures { (start : Start) (first : List ℕ) (more : List (List ℕ)) → HoldsWords start (first ∷ more) self.old
            → HoldsWords start (first ∷ ((more ++ end_text at ∷ []) ++ decimal number ∷ [])) self.new }
    {
        if number < 10 {
            let [high, low, side] = letters_of(at);
            self.push_few(&[b' ', high, low, side, b' ', b'0' + number as u8]);
            return;
        }
        self.end(at);
        self.short_number(number);
    }

    /// Appends a byte and bytes as pairs of hexadecimal digits, a space before each.
    #[inline(always)]
    pub(crate) fn byte_and_hex(&mut self, byte: u8, bytes: &[u8])
        ensures { (start : Start) (first : List ℕ) (more : List (List ℕ)) → HoldsWords start (first ∷ more) self.old
            → HoldsWords start (first ∷ ((more ++ byte_text byte ∷ []) ++ encode_upper bytes.now ∷ [])) self.new }
    {
        let [high, low] = digits_of(byte);
        match bytes.split_first() {
            Some((first, rest)) => {
                let [one, two] = digits_of(*first);
                self.push_few(&[b' ', high, low, b' ', one, two]);
                self.pairs(rest);
            }
            None => self.push_few(&[b' ', high, low, b' ']),
        }
    }

    /// Appends a space and bytes as pairs of hexadecimal digits.
    #[inline]
    pub(crate) fn hex(&mut self, bytes: &[u8])
        ensures { (start : Start) (first : List ℕ) (more : List (List ℕ)) → HoldsWords start (first ∷ more) self.old
            → HoldsWords start (first ∷ (more ++ encode_upper bytes.now ∷ [])) self.new }
    {
        self.push_few(b" ");
        self.pairs(bytes);
    }

    /// Appends bytes as pairs of hexadecimal digits.
    #[inline]
    fn pairs(&mut self, bytes: &[u8])
        ensures { (start : Start) (text : List ℕ) → HoldsText start text self.old
            → HoldsText start (text ++ encode_upper bytes.now) self.new }
    {
        if 8 <= bytes.len() {
            self.many_pairs(bytes);
            return;
        }
        for byte in bytes {
            self.push_few(&digits_of(*byte));
        }
    }

    /// Appends bytes as pairs of hexadecimal digits, 32 bytes at once.
    #[inline(never)]
    fn many_pairs(&mut self, bytes: &[u8])
        ensures { (start : Start) (text : List ℕ) → HoldsText start text self.old
            → HoldsText start (text ++ encode_upper bytes.now) self.new }
    {
        let mut left = bytes;
        'pieces: while let Some((piece, more)) = left.split_first_chunk::<AT_ONCE>() {
            let mut digits = [0; 64];
            write_digits(piece, &mut digits);
            self.push_few(&digits);
            left = more;
        }
        self.few_pairs(left);
    }

    /// Appends fewer than 32 bytes as pairs of hexadecimal digits, as the front of 16 or of 32.
    fn few_pairs(&mut self, bytes: &[u8])
        requires { length bytes.now < 32 }
        ensures { (start : Start) (text : List ℕ) → HoldsText start text self.old
            → HoldsText start (text ++ encode_upper bytes.now) self.new }
    {
        if bytes.len() <= 16 {
            let mut piece = [0; 16];
            piece[..bytes.len()].copy_from_slice(bytes);
            let mut digits = [0; 32];
            write_digits(&piece, &mut digits);
            self.push_few(&digits[..2 * bytes.len()]);
            return;
        }
        let mut piece = [0; AT_ONCE];
        piece[..bytes.len()].copy_from_slice(bytes);
        let mut digits = [0; 64];
        write_digits(&piece, &mut digits);
        self.push_few(&digits[..2 * bytes.len()]);
    }

    /// Appends a space and a decimal number.
    #[inline(always)]
    pub(crate) fn number(&mut self, number: u64)
        ensures { (start : Start) (first : List ℕ) (more : List (List ℕ)) → HoldsWords start (first ∷ more) self.old
            → HoldsWords start (first ∷ (more ++ decimal number ∷ [])) self.new }
    {
        if number < 10 {
            self.push_few(&[b' ', b'0' + number as u8]);
            return;
        }
        if number < 100 {
            self.push_few(&[b' ', b'0' + (number / 10) as u8, b'0' + (number % 10) as u8]);
            return;
        }
        self.long_number(number);
    }

    /// Appends a space and a decimal number of three digits or more.
    #[inline(never)]
    fn long_number(&mut self, number: u64)
        requires { 100 ≤ number }
        ensures { (start : Start) (first : List ℕ) (more : List (List ℕ)) → HoldsWords start (first ∷ more) self.old
            → HoldsWords start (first ∷ (more ++ decimal number ∷ [])) self.new }
    {
        if number < 1000 {
            self.push_few(&[
                b' ',
                b'0' + (number / 100) as u8,
                b'0' + (number / 10 % 10) as u8,
                b'0' + (number % 10) as u8,
            ]);
            return;
        }
        if number < 10000 {
            self.push_few(&[
                b' ',
                b'0' + (number / 1000) as u8,
                b'0' + (number / 100 % 10) as u8,
                b'0' + (number / 10 % 10) as u8,
                b'0' + (number % 10) as u8,
            ]);
            return;
        }
        self.push_few(b" ");
        self.digits(number);
    }

    /// Appends a space and a decimal number.
    #[inline(always)]
    pub(crate) fn short_number(&mut self, number: u32)
        ensures { (start : Start) (first : List ℕ) (more : List (List ℕ)) → HoldsWords start (first ∷ more) self.old
            → HoldsWords start (first ∷ (more ++ decimal number ∷ [])) self.new }
    {
        self.number(u64::from(number));
    }

    fn digits(&mut self, number: u64)
        ensures { (start : Start) (text : List ℕ) → HoldsText start text self.old
            → HoldsText start (text ++ decimal number) self.new }
    {
        if number < 10 {
            self.push_few(&[b'0' + number as u8]);
            return;
        }
        if number < 100 {
            self.push_few(&[b'0' + (number / 10) as u8, b'0' + (number % 10) as u8]);
            return;
        }
        self.digits(number / 100);
        self.push_few(&[b'0' + (number / 10 % 10) as u8, b'0' + (number % 10) as u8]);
    }
}

/// Writes bytes as pairs of hexadecimal digits, for which there is just the room.
#[inline(always)]
fn write_digits(bytes: &[u8], digits: &mut [u8])
    requires { length digits.old ≡ 2 * length bytes.now }
    ensures { digits.new ≡ encode_upper bytes.now }
{
    'bytes: for i in 0..bytes.len() {
        digits[2 * i] = digit(bytes[i] / 16);
        digits[2 * i + 1] = digit(bytes[i] % 16);
    }
}

/// A hexadecimal digit, without a table, so that many digits are made at once.
fn digit(value: u8) -> u8
    requires { value < 16 }
    ensures { result ≡ slice_index upper_digits value }
{
    value + b'0' + if value > 9 { b'A' - b'0' - 10 } else { 0 }
}

/// The two hexadecimal digits of a byte.
#[inline(always)]
fn digits_of(byte: u8) -> [u8; 2]
    ensures { result ≡ byte_text byte }
{
    PAIRS[byte as usize]
}

/// The two hexadecimal digits of an end's link, and the letter of its side.
#[inline(always)]
fn letters_of(at: End) -> [u8; 3]
    ensures { result ≡ end_text at }
{
    let [high, low] = digits_of(at.link);
    [high, low, if at.at_host { b'h' } else { b'c' }]
}
