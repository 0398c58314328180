//! The rate of a line from the first changes of its capture.
ghost use Rattle.std.specs.Prelude.{◌≡◌, ◌==◌, ◌||◌, ◌<◌, ◌≤◌, ◌^◌, ◌++◌, ◌∷◌, [], length, slice_get, unwrap_or, IfSome, Some, None};

use arrayvec::ArrayVec;
use line_capture::Change;

/// How many changes are kept at most while the rate is sought.
const MOST_CHANGES: usize = 1024;

/// How many bit periods are measured at most.
const MOST_PERIODS: usize = 64;

/// How many are measured at least.
const LEAST_PERIODS: usize = 8;

/// The shortest and the longest bit period, in femtoseconds.
const PERIODS: (u64, u64) = (100_000_000, 50_000_000_000);

/// The first changes of a line, until its rate is known.
#[derive(Drop)]
pub struct Search {
    changes: ArrayVec<Option<Change>, MOST_CHANGES>,
    periods: ArrayVec<u64, MOST_PERIODS>,
    is_high: bool,
    rise: Option<u64>,
    fall: Option<u64>,
}

impl Search {
    /// No change yet.
    pub fn new() -> Self
        ensures changes { result.changes.items ≡ [] }
        ensures periods { result.periods.items ≡ [] }
    {
        Search {
            changes: ArrayVec::new(),
            periods: ArrayVec::new(),
            is_high: false,
            rise: None,
            fall: None,
        }
    }

    /// Whether enough is known, or no more is kept.
    pub fn is_over(&self) -> bool
        ensures { result ≡ (length self.now.periods.items == 64 || length self.now.changes.items == 1024) }
    {
        self.periods.is_full() || self.changes.is_full()
    }

    /// How many changes are kept.
    pub fn count(&self) -> usize
        ensures { result ≡ length self.now.changes.items }
    {
        self.changes.len()
    }

    /// The change with this number, from 0.
    pub fn change_at(&self, at: usize) -> Option<Change>
        ensures { result ≡ unwrap_or (slice_get self.now.changes.items at) None }
    {
        match self.changes.as_slice().get(at) {
            Some(kept) => *kept,
            None => None,
        }
    }

    /// Keeps a change, while there is room for it.
    pub fn note(&mut self, change: Change)
        ensures kept { length self.old.changes.items < 1024 → self.new.changes.items ≡ self.old.changes.items ++ Some change ∷ [] }
        ensures full { length self.old.changes.items ≡ 1024 → self.new.changes.items ≡ self.old.changes.items }
    {
        let _has_room = self.changes.try_push(Some(change));
        if change.s1 == self.is_high {
            return;
        }
        self.is_high = change.s1;
        if change.s1 {
            if let (Some(rise), Some(fall)) = (self.rise, self.fall) {
                self.measure(rise, fall, change.time);
            }
            self.rise = Some(change.time);
            self.fall = None;
        } else {
            self.fall = Some(change.time);
        }
    }

    /// Measures what may be a bit period, from a rise over a fall to the next rise: S1 is high for 15 % to 36 % of one, or for 64 % to
    /// 85 %.
    fn measure(&mut self, rise: u64, fall: u64, next: u64)
        ensures { self.new.changes ≡ self.old.changes }
    {
        if fall < rise || next < fall {
            return;
        }
        let (high, whole) = (fall - rise, next - rise);
        if whole < PERIODS.0 || whole > PERIODS.1 {
            return;
        }
        let is_bit = (15 * whole <= 100 * high && 100 * high <= 36 * whole)
            || (64 * whole <= 100 * high && 100 * high <= 85 * whole);
        if is_bit {
            let _has_room = self.periods.try_push(whole);
        }
    }

    /// A sixteenth of the period in the middle of those that were measured; none where they are too few.
    pub fn unit(&mut self) -> Option<u64>
        ensures some { IfSome result (λ unit. 0 < unit) }
        ensures few { IfSome result (λ unit. unit ≤ 2 ^ 32) }
    {
        if self.periods.len() < LEAST_PERIODS {
            return None;
        }
        self.periods.as_mut_slice().sort_unstable();
        let middle = self.periods.len() / 2;
        let period = *self.periods.as_slice().get(middle)?;
        Some((period.clamp(PERIODS.0, PERIODS.1) + 8) / 16)
    }
}
