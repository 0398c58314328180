//! An entry of a transcript is written.
ghost use Rattle.std.specs.Prelude.{◌≡◌, List, ℕ, [], ◌∷◌, ◌++◌, OnOk, OnErr, IfOk, codes, false, if◌then◌else◌};
ghost use Rattle.std.specs.Fmt.{decimal};
ghost use Rattle.hex.specs.Hex.{encode_upper};
ghost use Rattle.tables_text.specs.Tables.{hex_or_dash};
ghost use Rattle.schedule_text.specs.Entries.{end_text, byte_text, header_words, line_words, down_word, lost_word, cause_words, command_words};
ghost use Rattle.schedule_text.specs.Entries.{count_words, entry_words, lines_behind, entry_line, entry_lines};
ghost use Rattle.schedule_text.specs.Growth.{Start, all_text, HoldsText, HoldsWords};

use crate::text::Part::{
    Byte, Bytes, Count, EachByte, EachThree, End, Maybe, Number, Numbers, TwoBytes, Word,
};
use crate::text::Text;
use crate::transcript::Transcript;
use hci_tables::{Command, Tables};
use std::alloc::{AllocError, Global};
use swp_base::{Cause, NoMemory};
use trace_model::{End as At, Entry, Header, Line, LostCause, NoCause};

/// Appends an entry as a line of the transcript, LF included, and tables as several lines (this project's own text). Where
/// there is no memory for all of it, `out` stays as it was.
pub fn write_entry(alloc: Global, entry: &Entry, out: &mut Vec<u8>) -> Result<(), NoMemory>
    ensures ok { OnOk result (out.new.items ≡ out.old.items ++ entry_line entry.now) }
    ensures err { OnErr result (out.new.items ≡ out.old.items) }
{
    let mut text = Text::new(alloc);
    text.begin();
    write_whole(alloc, &mut text, entry);
    text.finish()?;
    append_text(&text, out)
}

/// Appends a text, or nothing where there is no memory for it.
fn append_text(text: &Text, out: &mut Vec<u8>) -> Result<(), NoMemory>
    ensures ok { OnOk result (out.new.items ≡ out.old.items ++ all_text text.now) }
    ensures err { OnErr result (out.new.items ≡ out.old.items) }
{
    let mark = out.len();
    if out.extend_from_slice(text.bytes.as_slice()).is_err() {
        return Err(NoMemory);
    }
    if out.extend_from_slice(text.waiting.as_slice()).is_err() {
        out.truncate(mark);
        return Err(NoMemory);
    }
    Ok(())
}

/// Appends a line of the schedule as it is repeated, and the entries below it. Where there is no memory for all of them, `out` stays
/// as it was.
pub fn write_step(
    alloc: Global,
    line: &Line,
    entries: &[Entry],
    out: &mut Transcript,
) -> Result<(), NoMemory>
    ensures ok { OnOk result (out.new.items ≡ out.old.items ++ (entry_line (Entry.Echo line.now) ++ entry_lines entries.now)) }
    ensures err { OnErr result (out.new.items ≡ out.old.items) }
{
    out.text.begin();
    out.text.push(b">");
    write_line(&mut out.text, line);
    out.text.push_few(b"\n");
    write_each(alloc, &mut out.text, entries);
    out.text.finish()
}

/// Appends entries, one below the other. Where there is no memory for all of them, `out` stays as it was.
pub fn write_entries(alloc: Global, entries: &[Entry], out: &mut Transcript) -> Result<(), NoMemory>
    ensures ok { OnOk result (out.new.items ≡ out.old.items ++ entry_lines entries.now) }
    ensures err { OnErr result (out.new.items ≡ out.old.items) }
{
    out.text.begin();
    write_each(alloc, &mut out.text, entries);
    out.text.finish()
}

/// Appends the header of a schedule as it is repeated, and the entries below it. Where there is no memory for all of them, `out`
/// stays as it was.
pub fn write_opening(
    alloc: Global,
    header: &Header,
    entries: &[Entry],
    out: &mut Transcript,
) -> Result<(), NoMemory>
    ensures ok { OnOk result (out.new.items ≡ out.old.items ++ (entry_line (Entry.Head header.now) ++ entry_lines entries.now)) }
    ensures err { OnErr result (out.new.items ≡ out.old.items) }
{
    out.text.begin();
    out.text.entry(b">", &[]);
    write_header(&mut out.text, header);
    out.text.push_few(b"\n");
    write_each(alloc, &mut out.text, entries);
    out.text.finish()
}

#[inline(always)]
fn write_each(alloc: Global, text: &mut Text, entries: &[Entry])
    ensures { (start : Start) (before : List ℕ) → HoldsText start before text.old
        → HoldsText start (before ++ entry_lines entries.now) text.new }
{
    for entry in entries {
        write_whole(alloc, text, entry);
    }
}

/// Appends an entry with all its lines.
#[inline(always)]
fn write_whole(alloc: Global, text: &mut Text, entry: &Entry)
    ensures { (start : Start) (before : List ℕ) → HoldsText start before text.old
        → HoldsText start (before ++ entry_line entry.now) text.new }
{
    if has_rows(entry) {
        write_with_rows(alloc, text, entry);
        return;
    }
    write_frequent(text, entry);
    text.push_few(b"\n");
}

fn has_rows(entry: &Entry) -> bool
    ensures { result ≡ false → lines_behind entry.now ≡ [] }
{
    match entry {
        Entry::Tables { .. } => true,
        _ => false,
    }
}

#[cold]
#[inline(never)]
fn write_with_rows(alloc: Global, text: &mut Text, entry: &Entry)
    ensures { (start : Start) (before : List ℕ) → HoldsText start before text.old
        → HoldsText start (before ++ entry_line entry.now) text.new }
{
    match lines_behind(alloc, entry) {
        Ok(lines) => {
            write_words(text, entry);
            text.push_few(b"\n");
            text.push_behind(lines.as_slice());
        }
        Err(_) => text.give_up(),
    }
}

fn lines_behind(alloc: Global, entry: &Entry) -> Result<Vec<u8>, AllocError>
    ensures { IfOk result (λ lines. lines.items ≡ lines_behind entry.now) }
{
    let mut lines = Vec::new(alloc);
    if let Entry::Tables { tables, .. } = entry {
        tables_text::write_rows(alloc, tables.tables(), &mut lines)?;
    }
    Ok(lines)
}

/// Appends the words of an entry; the kinds that most entries have stand first.
#[inline(always)]
fn write_frequent(text: &mut Text, entry: &Entry)
    ensures { (start : Start) → HoldsText start [] text.old
        → HoldsWords start (entry_words entry.now) text.new }
{
    match entry {
        Entry::Emit { at, lpdu } => text.frame(b"emit", *at, lpdu.bytes()),
        Entry::Took { at, lpdu } => text.frame(b"took", *at, lpdu.bytes()),
        Entry::Sent {
            at,
            session,
            pid,
            message,
        } => write_message(text, b"sent", *at, *session, *pid, message.as_slice()),
        Entry::Got {
            at,
            session,
            pid,
            message,
        } => write_message(text, b"got", *at, *session, *pid, message.as_slice()),
        Entry::Acked { at, session, count } => {
            text.push(b"acked");
            text.end_and_number(*at, *session);
            text.short_number(*count);
        }
        Entry::Turn { at, pid, message } => {
            text.push(b"turn");
            text.end(*at);
            text.byte_and_hex(*pid, message.as_slice());
        }
        Entry::Dropped { at, pid } => text.frame(b"drop", *at, &[*pid]),
        Entry::Settled { rounds } => {
            text.push(b"settled");
            text.short_number(*rounds);
        }
        Entry::No {
            cause: NoCause::Empty,
        } => text.push(b"no empty"),
        _ => write_words(text, entry),
    }
}

/// Appends the words of an entry, whatever its kind.
#[cold]
#[inline(never)]
fn write_words(text: &mut Text, entry: &Entry)
    ensures { (start : Start) → HoldsText start [] text.old
        → HoldsWords start (entry_words entry.now) text.new }
{
    match entry {
        Entry::Head(header) => {
            text.entry(b">", &[]);
            write_header(text, header);
        }
        Entry::Echo(line) => {
            text.entry(b">", &[]);
            write_by_parts(text, line);
        }
        Entry::Up { at, session } => {
            text.push(b"up");
            text.end_and_number(*at, *session);
        }
        Entry::Down { at, cause } => {
            text.push(b"down");
            text.end(*at);
            text.word(cause_of_end(*cause));
        }
        Entry::Active { at } => text.entry(b"active", &[End(*at)]),
        Entry::GaveUp { at, tries } => text.entry(
            b"gaveup",
            &[End(*at), Number(u32::from(*tries))],
        ),
        Entry::Sent {
            at,
            session,
            pid,
            message,
        } => text.entry(
            b"sent",
            &[
                End(*at),
                Number(*session),
                Byte(*pid),
                Bytes(message.as_slice()),
            ],
        ),
        Entry::Got {
            at,
            session,
            pid,
            message,
        } => text.entry(
            b"got",
            &[
                End(*at),
                Number(*session),
                Byte(*pid),
                Bytes(message.as_slice()),
            ],
        ),
        Entry::Acked { at, session, count } => text.entry(
            b"acked",
            &[End(*at), Number(*session), Number(*count)],
        ),
        Entry::Emit { at, lpdu } => text.entry(b"emit", &[End(*at), Bytes(lpdu.bytes())]),
        Entry::Took { at, lpdu } => text.entry(b"took", &[End(*at), Bytes(lpdu.bytes())]),
        Entry::Lost { at, lpdu, cause } => {
            text.frame(b"lost", *at, lpdu.bytes());
            text.word(cause_of_loss(*cause));
        }
        Entry::Turn { at, pid, message } => text.entry(
            b"turn",
            &[End(*at), Byte(*pid), Bytes(message.as_slice())],
        ),
        Entry::Held { at, need, spare } => text.entry(
            b"held",
            &[
                End(*at),
                Number(u32::from(*need)),
                Number(u32::from(*spare)),
            ],
        ),
        Entry::Ask { host, message } => text.entry(
            b"ask",
            &[Byte(*host), Bytes(message.as_slice())],
        ),
        Entry::Dropped { at, pid } => text.entry(b"drop", &[End(*at), Byte(*pid)]),
        Entry::Command { node, command } => {
            write_node(text, b"command", *node);
            write_command(text, command);
        }
        Entry::AnyOk { node, count } => write_node_number(text, b"ok", *node, *count),
        Entry::InitSame { at } => text.entry(b"init", &[End(*at), Word(b"same")]),
        Entry::InitMade { at, count } => text.entry(
            b"init",
            &[End(*at), Word(b"made"), Number(u32::from(*count))],
        ),
        Entry::InitFailed { at, code } => text.entry(
            b"init",
            &[End(*at), Word(b"failed"), Byte(*code)],
        ),
        Entry::Cut { node } => text.entry(b"cut", &[Byte(*node)]),
        Entry::Booted { node, count } => write_node_number(text, b"booted", *node, *count),
        Entry::Tables { node, tables } => write_counts(text, *node, tables.tables()),
        Entry::Settled { rounds } => text.entry(b"settled", &[Number(*rounds)]),
        Entry::No { cause } => {
            text.push(b"no");
            write_cause(text, *cause);
        }
    }
}

#[inline(always)]
fn write_message(text: &mut Text, word: &[u8], at: At, session: u32, pid: u8, message: &[u8])
    ensures { (start : Start) → HoldsText start [] text.old
        → HoldsWords start (word.now ∷ end_text at ∷ decimal session ∷ byte_text pid ∷ encode_upper message.now ∷ []) text.new }
{
    text.push(word);
    text.end_and_number(at, session);
    text.byte_and_hex(pid, message);
}

#[inline(never)]
fn write_node(text: &mut Text, word: &[u8], node: u8)
    ensures { (start : Start) → HoldsText start [] text.old
        → HoldsWords start (word.now ∷ byte_text node ∷ []) text.new }
{
    text.push(word);
    text.byte(node);
}

#[inline(never)]
fn write_node_number(text: &mut Text, word: &[u8], node: u8, number: u32)
    ensures { (start : Start) → HoldsText start [] text.old
        → HoldsWords start (word.now ∷ byte_text node ∷ decimal number ∷ []) text.new }
{
    text.push(word);
    text.byte(node);
    text.short_number(number);
}

#[inline(never)]
fn write_counts(text: &mut Text, node: u8, tables: &Tables)
    ensures { (start : Start) → HoldsText start [] text.old
        → HoldsWords start (count_words node tables.now) text.new }
{
    text.entry(
        b"tables",
        &[
            Byte(node),
            Count(tables.pipes().rows().len()),
            Count(tables.statics().len()),
            Count(tables.registry().values().len()),
            Count(tables.syncs().len()),
        ],
    );
}

fn cause_of_end(cause: Cause) -> &'static [u8]
    ensures { result.now ≡ down_word cause }
{
    match cause {
        Cause::Asked => b"asked",
        Cause::NoAnswer => b"noanswer",
        Cause::Peer => b"peer",
        Cause::Act => b"act",
        Cause::Chain => b"chain",
    }
}

fn cause_of_loss(cause: LostCause) -> &'static [u8]
    ensures { result.now ≡ lost_word cause }
{
    match cause {
        LostCause::Asked => b"asked",
        LostCause::Age => b"age",
        LostCause::Full => b"full",
        LostCause::Length => b"length",
        LostCause::Alignment => b"alignment",
        LostCause::Crc => b"crc",
        LostCause::Broken => b"broken",
        LostCause::Nothing => b"none",
    }
}

#[inline(never)]
fn write_header(text: &mut Text, header: &Header)
    ensures { (start : Start) (first : List ℕ) (more : List (List ℕ)) → HoldsWords start (first ∷ more) text.old
        → HoldsWords start (first ∷ (more ++ header_words header.now)) text.new }
{
    text.parts(&[
        Word(b"swp"),
        Word(b"1"),
        Word(world_of(header.hci)),
        EachByte(header.hosts.as_slice()),
    ]);
}

fn world_of(hci: bool) -> &'static [u8]
    ensures { result.now ≡ (if hci then codes "hci" else codes "bare") }
{
    if hci { b"hci" } else { b"bare" }
}

/// Appends the words of a line; the forms that most lines have stand first.
#[inline(always)]
fn write_line(text: &mut Text, line: &Line)
    ensures { (start : Start) (first : List ℕ) (more : List (List ℕ)) → HoldsWords start (first ∷ more) text.old
        → HoldsWords start (first ∷ (more ++ line_words line.now)) text.new }
{
    match line {
        Line::Send { at, pid, message } => {
            text.push(b" send");
            text.end(*at);
            text.byte_and_hex(*pid, message.as_slice());
        }
        Line::Deliver { at, count } => {
            text.push(b" deliver");
            text.end(*at);
            text.maybe(*count);
        }
        Line::Lose { at } => {
            text.push(b" lose");
            text.end(*at);
        }
        Line::Tick { times } => {
            text.push(b" tick");
            text.maybe(*times);
        }
        Line::Reset { at, window } => {
            text.push(b" reset");
            text.end(*at);
            text.maybe(*window);
        }
        Line::Settle { rounds } => {
            text.push(b" settle");
            text.short_number(*rounds);
        }
        _ => write_by_parts(text, line),
    }
}

/// Appends the words of a line, whatever its form: most of them by their parts.
#[cold]
#[inline(never)]
fn write_by_parts(text: &mut Text, line: &Line)
    ensures { (start : Start) (first : List ℕ) (more : List (List ℕ)) → HoldsWords start (first ∷ more) text.old
        → HoldsWords start (first ∷ (more ++ line_words line.now)) text.new }
{
    match line {
        Line::Send { at, pid, message } => text.parts(&[
            Word(b"send"),
            End(*at),
            Byte(*pid),
            Bytes(message.as_slice()),
        ]),
        Line::Deliver { at, count } => text.parts(&[Word(b"deliver"), End(*at), Maybe(*count)]),
        Line::Lose { at } => text.parts(&[Word(b"lose"), End(*at)]),
        Line::Damage { at, places } => text.parts(&[
            Word(b"damage"),
            End(*at),
            Numbers(places.as_slice()),
        ]),
        Line::Tick { times } => text.parts(&[Word(b"tick"), Maybe(*times)]),
        Line::Reset { at, window } => text.parts(&[Word(b"reset"), End(*at), Maybe(*window)]),
        Line::Busy { at } => text.parts(&[Word(b"busy"), End(*at)]),
        Line::Ready { at } => text.parts(&[Word(b"ready"), End(*at)]),
        Line::Boot { node } => text.parts(&[Word(b"boot"), Byte(*node)]),
        Line::Cut { node } => text.parts(&[Word(b"cut"), Byte(*node)]),
        Line::Activate { host, sync, power } => text.parts(&[
            Word(b"activate"),
            Byte(*host),
            TwoBytes(*sync),
            Byte(*power),
        ]),
        Line::Arm { node, nth, fill } => text.parts(&[
            Word(b"arm"),
            Byte(*node),
            Number(*nth),
            Bytes(fill.as_slice()),
        ]),
        Line::Init {
            at,
            identity,
            pipes,
        } => text.parts(&[
            Word(b"init"),
            End(*at),
            Bytes(identity),
            EachThree(pipes.as_slice()),
        ]),
        Line::Tables { node } => text.parts(&[Word(b"tables"), Byte(*node)]),
        Line::Settle { rounds } => text.parts(&[Word(b"settle"), Number(*rounds)]),
    }
}

#[inline(never)]
fn write_cause(text: &mut Text, cause: NoCause)
    ensures { (start : Start) (first : List ℕ) (more : List (List ℕ)) → HoldsWords start (first ∷ more) text.old
        → HoldsWords start (first ∷ (more ++ cause_words cause)) text.new }
{
    match cause {
        NoCause::Off => text.word(b"off"),
        NoCause::Running => text.word(b"running"),
        NoCause::Inactive => text.word(b"inactive"),
        NoCause::NotUp => text.word(b"not-up"),
        NoCause::Waiting => text.word(b"waiting"),
        NoCause::TooLong => text.word(b"too-long"),
        NoCause::Full { need, spare } => text.parts(&[
            Word(b"full"),
            Number(u32::from(need)),
            Number(u32::from(spare)),
        ]),
        NoCause::Empty => text.word(b"empty"),
        NoCause::Beyond { bits } => text.parts(&[Word(b"beyond"), Number(u32::from(bits))]),
    }
}

#[inline(never)]
fn write_command(text: &mut Text, command: &Command)
    ensures { (start : Start) (first : List ℕ) (more : List (List ℕ)) → HoldsWords start (first ∷ more) text.old
        → HoldsWords start (first ∷ (more ++ command_words command.now)) text.new }
{
    match command {
        Command::Create(row) => text.parts(&[
            Word(b"create"),
            Byte(row.pid),
            Byte(row.creator),
            Byte(row.creator_gate),
            Byte(row.dest),
            Byte(row.dest_gate),
        ]),
        Command::Delete { pid } => text.parts(&[Word(b"delete"), Byte(*pid)]),
        Command::Clear { host } => text.parts(&[Word(b"clear"), Byte(*host)]),
        Command::SetOpened { host, pid, opened } => text.parts(&[
            Word(b"opened"),
            Byte(*host),
            Byte(*pid),
            Byte(flag_of(*opened)),
        ]),
        Command::Set {
            host,
            gate,
            param,
            value,
        } => write_setting(text, *host, *gate, *param, value.as_slice()),
        Command::Sync { host, id } => text.parts(&[Word(b"sync"), Byte(*host), TwoBytes(*id)]),
    }
}

/// Appends the words of a command that sets a parameter.
fn write_setting(text: &mut Text, host: u8, gate: u8, param: u8, value: &[u8])
    ensures { (start : Start) (first : List ℕ) (more : List (List ℕ)) → HoldsWords start (first ∷ more) text.old
        → HoldsWords start (first ∷ (more ++ codes "set" ∷ byte_text host ∷ byte_text gate ∷ byte_text param ∷ hex_or_dash value.now ∷ [])) text.new }
{
    text.word(b"set");
    text.byte(host);
    text.byte(gate);
    text.byte(param);
    write_value(text, value);
}

/// Appends the bytes of a value, and a dash where there are none.
fn write_value(text: &mut Text, value: &[u8])
    ensures { (start : Start) (first : List ℕ) (more : List (List ℕ)) → HoldsWords start (first ∷ more) text.old
        → HoldsWords start (first ∷ (more ++ hex_or_dash value.now ∷ [])) text.new }
{
    if value.is_empty() {
        text.word(b"-");
    } else {
        text.hex(value);
    }
}

fn flag_of(opened: bool) -> u8
    ensures { result ≡ (if opened then 1 else 0) }
{
    u8::from(opened)
}
