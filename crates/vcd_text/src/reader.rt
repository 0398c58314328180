//! The reader of a text.
ghost use Rattle.std.specs.Prelude.{◌≡◌, IfOk, IfErr, IfSome, None, Some};

use crate::fault::{VcdFault, VcdRefusal};
use crate::number::{femtoseconds_of, number_of};
use crate::word::VcdWord;
use arrayvec::ArrayVec;
use line_capture::{Change, MOST_TIME};

/// How many bytes of a time scale are kept.
const SCALE_KEPT: usize = 8;

/// How many bytes the code of a signal has at most.
const MOST_CODE: usize = 32;

/// A code of a signal.
type Code = ArrayVec<u8, MOST_CODE>;

/// What a byte tells.
#[derive(Clone, Copy, Debug, PartialEq, Eq)]
pub enum VcdTold {
    /// Nothing.
    Nothing,
    /// The line begins at this time, in femtoseconds.
    Begins(u64),
    /// S1 or S2 changes; the time is in femtoseconds.
    Changes(Change),
}

/// How a text ended.
#[derive(Clone, Copy, Debug, PartialEq, Eq)]
pub struct VcdEnd {
    /// The change at the last time, where there is one.
    pub change: Option<Change>,
    /// The last time, in femtoseconds.
    pub time: u64,
}

/// Where in a text the next word stands.
#[derive(Clone, Copy, PartialEq, Eq)]
enum VcdPlace {
    /// In front of a declaration.
    Definitions,
    /// In a line that sigrok-cli writes in front of what it converts.
    Meta,
    /// In a declaration that doesn't matter here.
    Other,
    /// In the time scale.
    Timescale,
    /// Behind so many words of a variable.
    Variable(u8),
    /// In the last declaration.
    EndDefinitions,
    /// In front of a change.
    Changes,
    /// In a comment among the changes.
    Comment,
    /// In front of the code of a change that doesn't matter here.
    OtherCode,
}

/// Reads a text.
#[derive(Drop)]
pub struct VcdReader {
    line: u64,
    word: VcdWord,
    place: VcdPlace,
    scale_text: ArrayVec<u8, SCALE_KEPT>,
    scale: Option<u64>,
    is_one_bit: bool,
    code: Code,
    code_is_longer: bool,
    s1_code: Option<Code>,
    s2_code: Option<Code>,
    last_time: Option<u64>,
    s1: bool,
    s2: bool,
    told_s1: bool,
    told_s2: bool,
}

impl VcdReader {
    ghost use Rattle.vcd_text.specs.Times.{FitsTold};

    /// In front of the first byte, which stands in line 1, and of the first time.
    pub fn new() -> Self
        ensures line { result.line ≡ 1 }
        ensures time { result.last_time ≡ None }
    {
        VcdReader {
            line: 1,
            word: VcdWord::new(),
            place: VcdPlace::Definitions,
            scale_text: ArrayVec::new(),
            scale: None,
            is_one_bit: false,
            code: ArrayVec::new(),
            code_is_longer: false,
            s1_code: None,
            s2_code: None,
            last_time: None,
            s1: false,
            s2: false,
            told_s1: false,
            told_s2: false,
        }
    }

    /// Takes the next byte.
    pub fn take(&mut self, byte: u8) -> Result<VcdTold, VcdRefusal>
        ensures { IfOk result FitsTold }
    {
        if !byte.is_ascii_whitespace() {
            self.word.push(byte);
            return Ok(VcdTold::Nothing);
        }
        let told = if self.word.bytes().is_empty() {
            Ok(VcdTold::Nothing)
        } else {
            self.take_word()
        };
        self.word.clear();
        let line = self.line;
        if byte == b'\n' {
            self.line = self.line.saturating_add(1);
            if self.place == VcdPlace::Meta {
                self.place = VcdPlace::Definitions;
            }
        }
        told.map_err(|fault| VcdRefusal { line, fault })
    }

    /// The number of the line that the next byte stands in.
    pub fn line(&self) -> u64
        ensures { result ≡ self.now.line }
    {
        self.line
    }

    /// The text has ended, at the last time; the last byte taken ended a word.
    pub fn finish(&self) -> Result<VcdEnd, VcdRefusal>
        ensures time { IfOk result (λ end. self.now.last_time ≡ Some end.time) }
        ensures refused { IfErr result (λ refusal. refusal.line ≡ self.now.line) }
    {
        let line = self.line;
        match self.place {
            VcdPlace::Changes | VcdPlace::Comment | VcdPlace::OtherCode => {}
            _ => {
                return Err(VcdRefusal {
                    line,
                    fault: VcdFault::NoDefinitions,
                });
            }
        }
        match self.last_time {
            Some(time) => Ok(VcdEnd {
                change: self.change_at(time),
                time,
            }),
            None => Err(VcdRefusal {
                line,
                fault: VcdFault::NoTime,
            }),
        }
    }

    /// Takes a whole word.
    fn take_word(&mut self) -> Result<VcdTold, VcdFault>
        ensures { IfOk result FitsTold }
    {
        match self.place {
            VcdPlace::Changes => return self.take_change(),
            VcdPlace::OtherCode => self.place = VcdPlace::Changes,
            VcdPlace::Definitions => self.begin_declaration()?,
            VcdPlace::Meta => {}
            _ => {
                if matches!(self.word.bytes(), b"$end") {
                    self.end_declaration()?;
                } else {
                    self.go_on()?;
                }
            }
        }
        Ok(VcdTold::Nothing)
    }

    fn begin_declaration(&mut self) -> Result<(), VcdFault> {
        self.place = match self.word.bytes() {
            b"$timescale" => VcdPlace::Timescale,
            b"$var" => VcdPlace::Variable(0),
            b"$enddefinitions" => VcdPlace::EndDefinitions,
            b"META" if self.line == 1 => VcdPlace::Meta,
            [b'$', ..] => VcdPlace::Other,
            _ => return Err(VcdFault::NoVcd),
        };
        Ok(())
    }

    /// A declaration, or a comment among the changes, ends.
    fn end_declaration(&mut self) -> Result<(), VcdFault> {
        match self.place {
            VcdPlace::Timescale => {
                self.scale = femtoseconds_of(self.scale_text.as_slice());
                if self.scale.is_none() {
                    return Err(VcdFault::BadTimescale);
                }
            }
            VcdPlace::Variable(words) if words < 4 => return Err(VcdFault::BadVariable),
            VcdPlace::EndDefinitions => {
                self.check_declared()?;
                self.place = VcdPlace::Changes;
                return Ok(());
            }
            VcdPlace::Comment => {
                self.place = VcdPlace::Changes;
                return Ok(());
            }
            _ => {}
        }
        self.place = VcdPlace::Definitions;
        Ok(())
    }

    /// Whether all is declared that is needed.
    fn check_declared(&self) -> Result<(), VcdFault> {
        if self.scale.is_none() {
            return Err(VcdFault::NoTimescale);
        }
        match (&self.s1_code, &self.s2_code) {
            (None, _) => Err(VcdFault::NoS1),
            (_, None) => Err(VcdFault::NoS2),
            (Some(one), Some(two)) if one.as_slice() == two.as_slice() => Err(VcdFault::SameSignal),
            _ => Ok(()),
        }
    }

    /// A word inside a declaration.
    fn go_on(&mut self) -> Result<(), VcdFault> {
        match self.place {
            VcdPlace::Timescale => {
                for byte in self.word.bytes() {
                    if self.scale_text.try_push(*byte).is_err() {
                        return Err(VcdFault::BadTimescale);
                    }
                }
                Ok(())
            }
            VcdPlace::Variable(words) => self.take_variable(words),
            _ => Ok(()),
        }
    }

    /// The next word of a variable, behind so many: its type, its size, its code, its name.
    fn take_variable(&mut self, words: u8) -> Result<(), VcdFault> {
        let word = self.word.bytes();
        match words {
            0 => self.is_one_bit = !matches!(word, b"string" | b"real" | b"realtime"),
            1 => self.is_one_bit = self.is_one_bit && matches!(word, b"1"),
            2 => {
                self.code = code_of(word);
                self.code_is_longer = word.len() > MOST_CODE;
            }
            3 => self.name_variable()?,
            _ => {}
        }
        if words < 4 {
            self.place = VcdPlace::Variable(words + 1);
        }
        Ok(())
    }

    fn name_variable(&mut self) -> Result<(), VcdFault> {
        if !self.is_one_bit {
            return Ok(());
        }
        let is_s1 = matches!(self.word.bytes(), b"S1");
        let is_s2 = matches!(self.word.bytes(), b"S2");
        if (is_s1 || is_s2) && self.code_is_longer {
            return Err(VcdFault::BadVariable);
        }
        if is_s1 {
            if self.s1_code.is_some() {
                return Err(VcdFault::TwoS1);
            }
            self.s1_code = Some(code_of(self.code.as_slice()));
        }
        if is_s2 {
            if self.s2_code.is_some() {
                return Err(VcdFault::TwoS2);
            }
            self.s2_code = Some(code_of(self.code.as_slice()));
        }
        Ok(())
    }

    /// A word among the changes.
    fn take_change(&mut self) -> Result<VcdTold, VcdFault>
        ensures { IfOk result FitsTold }
    {
        match self.word.bytes() {
            [b'#', ..] => return self.take_time(),
            [level, _, ..] if is_level(*level) => {
                let is_up = matches!(level, b'1' | b'h' | b'H');
                self.take_level(is_up);
            }
            [b'b' | b'B' | b'r' | b'R' | b's' | b'S', ..] => self.place = VcdPlace::OtherCode,
            b"$comment" => self.place = VcdPlace::Comment,
            [b'$', ..] => {}
            _ => return Err(VcdFault::BadChange),
        }
        Ok(VcdTold::Nothing)
    }

    /// The signal whose code stands behind the first byte of the word has this level.
    fn take_level(&mut self, is_up: bool) {
        let [_, code @ ..] = self.word.bytes() else {
            return;
        };
        if self.word.is_longer() {
            return;
        }
        if is_code(&self.s1_code, code) {
            self.s1 = is_up;
        } else if is_code(&self.s2_code, code) {
            self.s2 = is_up;
        }
    }

    /// The time goes on.
    fn take_time(&mut self) -> Result<VcdTold, VcdFault>
        ensures { IfOk result FitsTold }
    {
        let count = count_of(self.word.bytes(), self.word.is_longer())?;
        let scale = self.scale.unwrap_or(1);
        let time = match count.checked_mul(scale) {
            Some(time) if time < MOST_TIME => time,
            _ => return Err(VcdFault::TimeTooLarge),
        };
        let Some(now) = self.last_time else {
            self.last_time = Some(time);
            return Ok(VcdTold::Begins(time));
        };
        if time < now {
            return Err(VcdFault::TimeBack);
        }
        if time == now {
            return Ok(VcdTold::Nothing);
        }
        let change = self.change_at(now);
        self.last_time = Some(time);
        self.told_s1 = self.s1;
        self.told_s2 = self.s2;
        match change {
            Some(change) => Ok(VcdTold::Changes(change)),
            None => Ok(VcdTold::Nothing),
        }
    }

    /// The change at this time, where the levels are other than those told last.
    fn change_at(&self, time: u64) -> Option<Change>
        ensures { IfSome result (λ change. change.time ≡ time) }
    {
        if self.s1 == self.told_s1 && self.s2 == self.told_s2 {
            return None;
        }
        Some(Change {
            time,
            s1: self.s1,
            s2: self.s2,
        })
    }
}

/// The time that a word tells, in units of the scale.
fn count_of(word: &[u8], is_longer: bool) -> Result<u64, VcdFault> {
    let [b'#', digits @ ..] = word else {
        return Err(VcdFault::BadTime);
    };
    if digits.is_empty() || !digits.iter().all(|digit| digit.is_ascii_digit()) {
        return Err(VcdFault::BadTime);
    }
    if is_longer {
        return Err(VcdFault::TimeTooLarge);
    }
    number_of(digits).ok_or(VcdFault::TimeTooLarge)
}

/// A code, or its front where it is too long.
fn code_of(word: &[u8]) -> Code {
    let mut code = ArrayVec::new();
    for byte in word {
        let _fits = code.try_push(*byte);
    }
    code
}

/// Whether a signal has this code.
fn is_code(signal: &Option<Code>, code: &[u8]) -> bool {
    match signal {
        Some(kept) => kept.as_slice() == code,
        None => false,
    }
}

/// Whether a byte is a level of a signal of one bit.
fn is_level(byte: u8) -> bool {
    matches!(
        byte,
        b'0' | b'1'
            | b'x'
            | b'X'
            | b'z'
            | b'Z'
            | b'-'
            | b'u'
            | b'U'
            | b'l'
            | b'L'
            | b'h'
            | b'H'
            | b'w'
            | b'W'
    )
}
