//! Laws of decoded records. No code.
ghost use Rattle.std.specs.Prelude.{List, ◌++◌, ◌≡◌};
ghost use Rattle.swp_frame.specs.Signal.{mark_of, start_mark};
ghost use Rattle.swp_decode.specs.Readings.{ReadSymbol, symbols, start_of};
ghost use Rattle.swp_decode.specs.Starts.{first_bit, IsSinceStart};

/// START is the place of the byte that held the first bit of the last start of frame: the 0 in front of its six 1 bits, or the
/// first of these where that 0 was only read in, at the beginning of the record or behind a break.
pub fn start_is_the_place_of_the_first_bit()
    ensures mark { (readings : List ReadSymbol) → mark_of (symbols readings) ≡ start_mark → start_of readings ≡ first_bit readings }
    ensures last { (since front : List ReadSymbol) → IsSinceStart since front → start_of (since ++ front) ≡ first_bit front }
{}
