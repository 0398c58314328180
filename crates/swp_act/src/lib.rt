//! Interface activation (ETSI TS 102 613, section 9.4): both ends, as machines that take one event and answer what
//! came of it. Timers, tries and what is ignored are this project's own.
#![tactic(auto)]

ghost use Rattle.std.specs.Prelude.{◌≡◌};
ghost use Rattle.swp_act.specs.Activation.{no_act_out, sends, ends_link, is_active, phase_ticked, out_ticked};

use swp_base::Act;

mod clf;
pub mod laws;
mod uicc;

pub use clf::ClfAct;
pub use uicc::UiccAct;

/// What comes to an end of an activation.
#[derive(Clone, Copy, Debug, PartialEq, Eq)]
pub enum ActEvent {
    /// Activation begins anew. `value` is the UICC's sync identifier, or the CLF's power code (00 low, 01 full).
    Start { value: u16 },
    /// A frame of activation is taken.
    Take { act: Act, again: bool },
    /// One tick of the clock.
    Tick,
    /// The end becomes inactive.
    Stop,
}

/// What an end does at one event.
#[derive(Clone, Copy, Debug, PartialEq, Eq)]
pub struct ActOut {
    /// The frame to send.
    pub send: Option<Act>,
    /// Whether the end became active.
    pub became_active: bool,
    /// Whether the link goes down, if it was up.
    pub ended_link: bool,
    /// The UICC's identifier, where the CLF took it in a frame that doesn't ask for a repeat.
    pub sync: Option<u16>,
    /// The number of tries, where the end gave up: 3.
    pub gave_up: Option<u8>,
}

impl ActOut {
    fn nothing() -> ActOut
        ensures { result ≡ no_act_out }
    {
        ActOut::sends(None)
    }

    fn sends(send: Option<Act>) -> ActOut
        ensures { result ≡ sends send }
    {
        ActOut {
            send,
            became_active: false,
            ended_link: false,
            sync: None,
            gave_up: None,
        }
    }

    fn ends_link() -> ActOut
        ensures { result ≡ ends_link }
    {
        ActOut {
            ended_link: true,
            ..ActOut::nothing()
        }
    }
}

/// Where an end stands.
#[derive(Clone, Copy)]
enum Phase {
    Inactive,
    /// It waits for the other end's frame: how often it tried (1 to 3), and the ticks since its timer started (0 to 9).
    Awaiting { tries: u8, ticks: u8 },
    Active,
}

/// How many ticks an end waits for an answer to a try.
const TRY_TICKS: u8 = 10;

/// How often an end tries before it gives up.
const MOST_TRIES: u8 = 3;

impl Phase {
    fn is_active(self) -> bool
        ensures { result ≡ is_active self }
    {
        match self {
            Phase::Active => true,
            _ => false,
        }
    }

    /// One tick, at an end that sent `last`.
    fn tick(&mut self, last: Option<Act>) -> ActOut
        ensures phase { self.new ≡ phase_ticked self.old }
        ensures out { result ≡ out_ticked self.old last }
    {
        let Phase::Awaiting { tries, ticks } = *self else {
            return ActOut::nothing();
        };
        if ticks < TRY_TICKS - 1 {
            *self = Phase::Awaiting {
                tries,
                ticks: ticks + 1,
            };
            return ActOut::nothing();
        }
        if tries < MOST_TRIES {
            *self = Phase::Awaiting {
                tries: tries + 1,
                ticks: 0,
            };
            return ActOut::sends(last);
        }
        *self = Phase::Inactive;
        ActOut {
            gave_up: Some(MOST_TRIES),
            ..ActOut::nothing()
        }
    }
}
