use thiserror::Error;

/// What is wrong with a line of a schedule (this project's own). Where several things are, the first of these holds: the
/// line is too long, out of order, has a wrong word, a wrong number or wrong digits, names an unknown host.
#[derive(Clone, Copy, Debug, PartialEq, Eq, Error)]
pub enum LineFault {
    /// The first word, a fixed word of a header, the number of words or the form of an end is wrong.
    #[error("unknown word")]
    Word,
    /// Word `at`, counted from 1, is no decimal number of its form, outside its range, or not above the place before it.
    #[error("bad number in word {at}")]
    Number { at: u32 },
    /// Word `at`, counted from 1, has wrong hexadecimal digits, a wrong length, or a value outside its range.
    #[error("bad hex in word {at}")]
    Hex { at: u32 },
    /// The first host that isn't in the header; in a header the first that isn't 01 to 07, or not above the one before.
    #[error("bad host {id:02X}")]
    Host { id: u8 },
    /// The first line isn't a header, a later one is, or the header doesn't allow this form.
    #[error("out of order")]
    Order,
    /// The line has more than 9,000 bytes.
    #[error("too long")]
    TooLong,
}
