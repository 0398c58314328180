//! What is read of the wave of a line record.
ghost use Rattle.std.specs.Prelude.{◌≡◌, ℕ, ◌+◌, ◌*◌, ◌<◌, List, None, length, map};
ghost use Rattle.line_capture.specs.Reading.{record_of};
ghost use Rattle.swp_line.specs.Periods.{byte_of_period};
ghost use Rattle.swp_line.specs.declared.period.Period.{Period};
ghost use Rattle.line_capture.specs.Waves.{wave_of, IsNear, DrawnPeriod, AreEdgesNear, changes_drawn, byte_drawn};

/// The wave of a record, each of whose bytes is in the table of line records, is read as these bytes.
pub fn waves_are_read_back()
    ensures { (unit begin : ℕ) (periods : List Period) → 0 < unit → let bytes = map byte_of_period periods in
        record_of unit begin (wave_of unit begin bytes) (begin + 16 * unit * length bytes) ≡ bytes }
{}

/// So is every wave whose edges lie less than a sixteenth of a period from where they belong, and whose S2 changes at will while S1 is low.
pub fn near_waves_are_read_back()
    ensures { (unit begin first end : ℕ) (drawn : List DrawnPeriod) → 0 < unit → IsNear unit begin first → AreEdgesNear unit begin drawn end
        → record_of unit first (changes_drawn None drawn) end ≡ map byte_drawn drawn }
{}
