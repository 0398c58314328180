//! One direction of a session: a sender, its receiver and the wires between them, in one session. Here are the wire with its
//! frames, what it is to be in order and delivered, and the lemmas on them. There is no code here that runs.

ghost use Rattle.std.specs.Prelude.{◌≡◌, ℕ, ◌+◌, ◌%◌, ◌≤◌, length, Some};
ghost use Rattle.shdlc_core.specs.Machine.{Session, ahead, place_of};

/// Numbers modulo 8 are enough: an N(R) names the one place that it can mean, where at most four fragments were sent beyond those
/// acknowledged; and an N(S) is the number expected only where its fragment is the one expected, if that stands at most four places
/// below it and three above.
pub fn numbers_name_places()
    ensures acknowledged { (s : Session) (place : ℕ) → s.acked ≤ place → place ≤ s.reached → s.reached ≤ s.acked + 4 →
        place_of s (place % 8) ≡ Some place }
    ensures expected { (s : Session) (place : ℕ) → length s.acc ≤ place + 4 → place ≤ length s.acc + 3 → ahead s (place % 8) ≡ 0 →
        place ≡ length s.acc }
{}
