//! A worked example of the program's `run` over a source and a sink that never fail, and what other examples hand to it. What it writes is shown by
//! the table of cases, `examples/cases.txt`, and what it does where a read or a write fails by `.ci/hostile`.
ghost use Rattle.std.specs.Prelude.{◌≡◌, ◌≤◌, ◌⊎◌, ◌∷◌, [], ℕ, length, map, string_bytes, codes, Some, None, IfOk};
ghost use Rattle.swp_tool.specs.Schedules.{Stop, schedule_in};
ghost use Rattle.swp_tool.specs.Runs.{status_at};
ghost use Rattle.swp_words.specs.Records.{most_bytes};

use crate::rows::*;
use crate::shown::same;
use schedule_text::LineFault;
use std::alloc::Global;
use std::process::Abort;
use swp_base::{NoMemory, SureNv, SureSink, SureSource};
use swp_tool::*;

/// A copy of this word.
fn text_of(rt: &impl Abort, alloc: Global, word: &str) -> String {
    String::from_str(alloc, word).expect(rt, "there is memory")
}

/// A copy of these words.
pub(crate) fn words_of(rt: &impl Abort, alloc: Global, words: &[&str]) -> Vec<String> {
    let mut given = Vec::new(alloc);
    for word in words {
        let _ = given.push(text_of(rt, alloc, word));
    }
    given
}

/// The words that are this one.
pub(crate) fn one_word(alloc: Global, word: &str) -> Result<Vec<String>, NoMemory>
    ensures { IfOk result (λ words. map string_bytes words.items ≡ word.now ∷ []) }
{
    let mut words = Vec::new(alloc);
    if words.push(String::from_str(alloc, word)?).is_err() {
        return Err(NoMemory);
    }
    Ok(words)
}

/// What a run over this word and these bytes ended with, where nothing outside ever fails. The sink tells nothing, so the
/// clauses follow from what `run` says of any sink.
fn status_over_sure(alloc: Global, word: &str, bytes: &[u8]) -> Result<Status, NoMemory>
    ensures done { word.now ≡ codes "replay" → (schedule_in bytes.now).stop ≡ None →
        IfOk result (λ status. (status ≡ Status.Done) ⊎ (status ≡ Status.NoMemory)) }
    ensures refused { word.now ≡ codes "replay" → (why : Stop) → (schedule_in bytes.now).stop ≡ Some why →
        IfOk result (λ status. (status ≡ status_at why (schedule_in bytes.now).count) ⊎ (status ≡ Status.NoMemory)) }
    ensures decoded { word.now ≡ codes "decode" → length bytes.now ≤ most_bytes →
        IfOk result (λ status. status ≡ Status.Done) }
{
    let words = one_word(alloc, word)?;
    let mut source = SureSource::new(Vec::from_slice(alloc, bytes)?);
    let mut sink = SureSink;
    let nv = SureNv::new(alloc, 65_536)?;
    let Ended { status, nv: _ } = run(alloc, words.as_slice(), &mut source, &mut sink, nv);
    Ok(status)
}

/// The frame of `C1` on S1.
const RECORD: [u8; 40] = [
    0x40, 0x54, 0x54, 0x54, 0x54, 0x54, 0x54, 0x40, 0x54, 0x54, 0x40, 0x40, 0x40, 0x40, 0x40, 0x54,
    0x54, 0x54, 0x40, 0x54, 0x40, 0x54, 0x54, 0x54, 0x40, 0x54, 0x54, 0x40, 0x40, 0x40, 0x54, 0x40,
    0x40, 0x54, 0x54, 0x54, 0x54, 0x54, 0x54, 0x54,
];

/// A run over this word and these bytes ends so where nothing outside ever fails.
fn ends(rt: &impl Abort, alloc: Global, word: &str, bytes: &[u8], status: Status) {
    same(
        rt,
        &status_over_sure(alloc, word, bytes).ok(),
        &Some(status),
    );
}

#[test]
fn worked_examples_end_alike_over_a_sink_that_tells_nothing(rt: HostRuntime) {
    let alloc = rt.alloc();
    let [schedule, _] = ONE_MESSAGE;
    let [damage, _] = DAMAGE_THE_CRC_DOES_NOT_SHOW;
    let (line, fault) = (1, LineFault::Order);
    ends(&rt, alloc, "replay", schedule.as_bytes(), Status::Done);
    ends(
        &rt,
        alloc,
        "replay",
        damage.as_bytes(),
        Status::Undetected { line: 3 },
    );
    ends(
        &rt,
        alloc,
        "replay",
        b"",
        Status::BadSchedule { line, fault },
    );
    ends(&rt, alloc, "decode", &RECORD, Status::Done);
}
