//! The state of a line over its periods.
ghost use Rattle.std.specs.Prelude.{◌≡◌};
ghost use Rattle.swp_line.specs.Periods.{period_at, state_after};

use crate::period::{Period, period_of};
use std::marker::Model;

/// The state that a line is in.
#[derive(Clone, Copy, Debug, PartialEq, Eq)]
pub enum LineState {
    Deactivated,
    Suspended,
    Active,
}

/// Follows the state of a line over the bytes of its record.
#[derive(Clone, Copy)]
pub struct LineTracker {
    state: LineState,
}

impl Model for LineTracker {
    ghost use Rattle.swp_line.specs.declared.tracker.LineState.{LineState};

    ghost Value = { LineState };

    ghost view = { λ t. t.state };

    ghost inverse = { λ s. record { state = s } };
}

impl LineTracker {
    /// A line that is deactivated.
    pub fn new() -> Self
        ensures { result ≡ LineState.Deactivated }
    {
        Self {
            state: LineState::Deactivated,
        }
    }

    /// Takes the next byte of the record, and gives its period. Bits make the line active, suspension and a resume that is
    /// asked make it suspended, and deactivation makes it deactivated; a byte that is no period changes nothing.
    pub fn step(&mut self, byte: u8) -> Option<Period>
        ensures period { result ≡ period_at byte }
        ensures state { self.new ≡ state_after self.old (period_at byte) }
    {
        let period = period_of(byte);
        match period {
            Some(Period::Bits { .. }) => self.state = LineState::Active,
            Some(Period::Suspended | Period::ResumeAsked) => self.state = LineState::Suspended,
            Some(Period::Deactivated) => self.state = LineState::Deactivated,
            None => {}
        }
        period
    }

    /// The state after the bytes taken.
    pub fn state(&self) -> LineState
        ensures { result ≡ self.now }
    {
        self.state
    }
}
