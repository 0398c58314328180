//! The half of a session that receives: the number of the fragment that is accepted next (ETSI TS 102 613, section 10).
ghost use Rattle.std.specs.Prelude.{ℕ, ◌≡◌, ◌<◌, ◌++◌, ◌∷◌, [], false, true};
ghost use Rattle.shdlc_core.specs.Kept.{ReceivesFor};
ghost use Rattle.shdlc_core.specs.Machine.{Fragment, Session, ahead, expected, new_session};

use std::marker::Model;

#[derive(Drop)]
pub struct Receiver {
    awaited: u8,
    gap_open: bool,
    answered_rnr: bool,
}

impl Model for Receiver {
    ghost use Rattle.std.specs.Prelude.{◌<◌};
    ghost use Rattle.shdlc_core.specs.Kept.{KeptReceiver};

    ghost Value = { KeptReceiver };

    ghost view = { λ a. record { awaited = a.awaited; gap_open = a.gap_open; answered_rnr = a.answered_rnr } };

    ghost invariant = { λ a. a.awaited < 8 };
}

impl Receiver {
    /// Nothing is accepted, and the numbers begin at 0.
    pub fn new() -> Self
        ensures { (w : ℕ) → ReceivesFor result (new_session w) }
    {
        Self {
            awaited: 0,
            gap_open: false,
            answered_rnr: false,
        }
    }

    /// The number of the fragment that is accepted next.
    pub fn expected(&self) -> u8
        ensures { (s : Session) → ReceivesFor self.now s → result ≡ expected s }
    {
        self.awaited
    }

    /// How far a fragment of this number is ahead of the one expected, modulo 8.
    pub fn ahead(&self, ns: u8) -> u8
        ensures { (s : Session) → ReceivesFor self.now s → result ≡ ahead s ns }
    {
        let ahead = (u16::from(ns) + u16::from(8 - self.awaited)) % 8;
        ahead as u8
    }

    pub fn gap_is_open(&self) -> bool
        ensures { (s : Session) → ReceivesFor self.now s → result ≡ s.gap_open }
    {
        self.gap_open
    }

    pub fn has_answered_rnr(&self) -> bool
        ensures { (s : Session) → ReceivesFor self.now s → result ≡ s.answered_rnr }
    {
        self.answered_rnr
    }

    /// One more fragment is accepted, and no gap is open.
    pub fn accept(&mut self)
        ensures { (s : Session) (info : Fragment) → ReceivesFor self.old s →
            ReceivesFor self.new (record s { acc = s.acc ++ info ∷ []; gap_open = false }) }
    {
        self.awaited = (self.awaited + 1) % 8;
        self.gap_open = false;
    }

    /// A gap was found.
    pub fn open_gap(&mut self)
        ensures { (s : Session) → ReceivesFor self.old s → ReceivesFor self.new (record s { gap_open = true }) }
    {
        self.gap_open = true;
    }

    /// RNR was answered, or that is forgotten.
    pub fn set_answered_rnr(&mut self, answered: bool)
        ensures { (s : Session) → ReceivesFor self.old s → ReceivesFor self.new (record s { answered_rnr = answered }) }
    {
        self.answered_rnr = answered;
    }
}
