//! What a tap keeps, four fragments, one set of messages under way and a few numbers of each side, stands for all that it has heard. There is
//! no code here that runs.

ghost use Rattle.std.specs.Prelude.{◌≡◌, Bool, List};
ghost use Rattle.swp_base.specs.declared.control_frames.Control.{Control};
ghost use Rattle.tap_reading.specs.Tap.{TapState, new_tap, tap_after_frame, tap_reports, tapped};
ghost use Rattle.tap_reading.specs.keeping.Keeping.{IsSmall, KeptTap, StandsForTap, kept_after, kept_after_frame, kept_reported, kept_reports, new_kept_tap};

/// What a new tap keeps stands for nothing heard. At each frame of either side what is kept then stands for what was heard then, and what is
/// reported is the same.
pub fn kept_tap_stands_for_what_was_heard()
    ensures start { StandsForTap new_kept_tap new_tap }
    ensures frame { (bare : Bool) (k : KeptTap) (t : TapState) (clf : Bool) (c : Control) → StandsForTap k t →
        StandsForTap (kept_after_frame bare k clf c) (tap_after_frame bare t clf c) × (kept_reports bare k clf c ≡ tap_reports bare t clf c) }
{}

/// Over any frames, those of no link too, a tap reports from what it keeps what it would from all that it has heard, and keeps at most four
/// fragments of each side.
pub fn kept_tap_reports_the_same()
    ensures same { (bare : Bool) (frames : List (Bool × Control)) → kept_reported bare new_kept_tap frames ≡ tapped bare frames }
    ensures small { (bare : Bool) (frames : List (Bool × Control)) → IsSmall (kept_after bare new_kept_tap frames) }
{}
