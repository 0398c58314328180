//! The forms of the lines of a schedule, as a table: a row has the first word of a line, the headers that allow it, and
//! the kinds of the words behind it.
ghost use Rattle.std.specs.Prelude.{◌≡◌, ◌&&◌, map, find};
ghost use Rattle.std.specs.Str.{bytes_eq};
ghost use Rattle.std.specs.Option.{option_map, option_copied};
ghost use Rattle.schedule_text.specs.Words.{words};
ghost use Rattle.schedule_text.specs.Forms.{row_of_form, row_in, row_for, is_word, has_third};

use crate::words::word_at;

/// What a word of a line may be.
#[derive(Clone, Copy)]
pub(crate) enum Kind {
    /// The version of the schedule's form, `1`.
    Version,
    /// The word `bare`.
    Bare,
    /// The word `hci`.
    Nodes,
    /// A host that a header names: two hexadecimal digits, 01 to 07, above the host before it.
    NewHost,
    /// An end of a link of the world.
    End,
    /// An end that sends: in `hci` a host's.
    Sender,
    /// A host of the world: two hexadecimal digits.
    Host,
    /// A node of the world: two hexadecimal digits, 00 for the controller.
    Node,
    /// Two hexadecimal digits, below this number.
    Byte { below: u8 },
    /// Pairs of hexadecimal digits, from `low` to `high` of them.
    Bytes { low: u16, high: u16 },
    /// A decimal number from `low` to `high`.
    Number { low: u16, high: u16 },
    /// A decimal number up to `high`, above the one before it.
    Rising { high: u16 },
}

/// Where a line may stand.
#[derive(Clone, Copy)]
pub(crate) enum Place {
    /// As the first line alone.
    First,
    /// Below every header.
    Below,
    /// Below a header `bare`.
    BelowBare,
    /// Below a header `hci`.
    BelowNodes,
}

/// Which line it is.
#[derive(Clone, Copy)]
pub(crate) enum Name {
    Header,
    NodesHeader,
    Send,
    Deliver,
    Lose,
    Damage,
    Tick,
    Reset,
    Busy,
    Ready,
    Boot,
    Cut,
    Activate,
    Arm,
    Init,
    Tables,
    Settle,
}

/// A row of the table. The last kind is that of all further words.
#[derive(Clone, Copy)]
pub(crate) struct Form {
    pub first: &'static [u8],
    /// The third word of the line, where another row has the same first word; else no letters.
    pub third: &'static [u8],
    pub name: Name,
    pub place: Place,
    pub kinds: &'static [Kind],
    /// How many words stand behind the first one at least.
    pub least: usize,
    /// How many stand there at most.
    pub most: usize,
}

/// The forms.
const FORMS: [Form; 17] = [
    Form {
        first: b"swp",
        third: b"hci",
        name: Name::NodesHeader,
        place: Place::First,
        kinds: &[Kind::Version, Kind::Nodes, Kind::NewHost],
        least: 3,
        most: 9000,
    },
    Form {
        first: b"swp",
        third: b"",
        name: Name::Header,
        place: Place::First,
        kinds: &[Kind::Version, Kind::Bare, Kind::NewHost],
        least: 3,
        most: 3,
    },
    Form {
        first: b"send",
        third: b"",
        name: Name::Send,
        place: Place::Below,
        kinds: &[
            Kind::Sender,
            Kind::Byte { below: 0x70 },
            Kind::Bytes { low: 1, high: 4500 },
        ],
        least: 3,
        most: 3,
    },
    Form {
        first: b"deliver",
        third: b"",
        name: Name::Deliver,
        place: Place::Below,
        kinds: &[Kind::End, Kind::Number { low: 1, high: 64 }],
        least: 1,
        most: 2,
    },
    Form {
        first: b"lose",
        third: b"",
        name: Name::Lose,
        place: Place::Below,
        kinds: &[Kind::End],
        least: 1,
        most: 1,
    },
    Form {
        first: b"damage",
        third: b"",
        name: Name::Damage,
        place: Place::Below,
        kinds: &[Kind::End, Kind::Rising { high: 399 }],
        least: 2,
        most: 17,
    },
    Form {
        first: b"tick",
        third: b"",
        name: Name::Tick,
        place: Place::Below,
        kinds: &[Kind::Number { low: 1, high: 100 }],
        least: 0,
        most: 1,
    },
    Form {
        first: b"reset",
        third: b"",
        name: Name::Reset,
        place: Place::Below,
        kinds: &[Kind::End, Kind::Number { low: 1, high: 4 }],
        least: 1,
        most: 2,
    },
    Form {
        first: b"busy",
        third: b"",
        name: Name::Busy,
        place: Place::BelowBare,
        kinds: &[Kind::End],
        least: 1,
        most: 1,
    },
    Form {
        first: b"ready",
        third: b"",
        name: Name::Ready,
        place: Place::BelowBare,
        kinds: &[Kind::End],
        least: 1,
        most: 1,
    },
    Form {
        first: b"boot",
        third: b"",
        name: Name::Boot,
        place: Place::BelowNodes,
        kinds: &[Kind::Node],
        least: 1,
        most: 1,
    },
    Form {
        first: b"cut",
        third: b"",
        name: Name::Cut,
        place: Place::BelowNodes,
        kinds: &[Kind::Node],
        least: 1,
        most: 1,
    },
    Form {
        first: b"activate",
        third: b"",
        name: Name::Activate,
        place: Place::BelowNodes,
        kinds: &[
            Kind::Host,
            Kind::Bytes { low: 2, high: 2 },
            Kind::Byte { below: 2 },
        ],
        least: 3,
        most: 3,
    },
    Form {
        first: b"arm",
        third: b"",
        name: Name::Arm,
        place: Place::BelowNodes,
        kinds: &[
            Kind::Node,
            Kind::Number { low: 1, high: 1000 },
            Kind::Bytes { low: 1, high: 64 },
        ],
        least: 3,
        most: 3,
    },
    Form {
        first: b"init",
        third: b"",
        name: Name::Init,
        place: Place::BelowNodes,
        kinds: &[
            Kind::Sender,
            Kind::Bytes { low: 8, high: 8 },
            Kind::Bytes { low: 3, high: 3 },
        ],
        least: 2,
        most: 10,
    },
    Form {
        first: b"tables",
        third: b"",
        name: Name::Tables,
        place: Place::BelowNodes,
        kinds: &[Kind::Node],
        least: 1,
        most: 1,
    },
    Form {
        first: b"settle",
        third: b"",
        name: Name::Settle,
        place: Place::Below,
        kinds: &[Kind::Number {
            low: 1,
            high: 20000,
        }],
        least: 1,
        most: 1,
    },
];

/// The form of the lines that begin with a word, behind which stands `rest`.
pub(crate) fn form_of(first: &[u8], rest: &[u8]) -> Option<Form>
    ensures { option_map row_of_form result ≡ row_for first.now (words rest.now) }
{
    form_in(&FORMS, first, rest)
}

fn form_in(forms: &[Form], first: &[u8], rest: &[u8]) -> Option<Form>
    ensures { option_map row_of_form result ≡ row_in (map row_of_form forms.now) first.now (words rest.now) }
{
    found(forms, first, rest)
}

fn found(forms: &[Form], first: &[u8], rest: &[u8]) -> Option<Form>
    ensures { result ≡ find (λ form. bytes_eq form.first.now first.now && has_third form.third.now (words rest.now)) forms.now }
{
    forms
        .iter()
        .copied()
        .find(|form| form.first == first && has_third(form.third, rest))
}

/// Whether a line has this third word, `rest` standing behind its first one. No letters stand for any word.
fn has_third(wanted: &[u8], rest: &[u8]) -> bool
    ensures { result ≡ has_third wanted.now (words rest.now) }
{
    wanted.is_empty() || is_word(wanted, word_at(rest, 1))
}

fn is_word(wanted: &[u8], word: Option<&[u8]>) -> bool
    ensures { result ≡ is_word wanted.now (option_copied word.entry) }
{
    match word {
        Some(word) => word == wanted,
        None => false,
    }
}
