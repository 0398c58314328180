//! The UICC's end of an activation.
use crate::{ActEvent, ActOut, Phase};
use swp_base::Act;

/// The UICC's end: it sends ACT_SYNC_ID at its start, and ACT_READY for an ACT_POWER_MODE.
#[derive(Drop)]
pub struct UiccAct {
    phase: Phase,
    last: Option<Act>,
}

impl UiccAct {
    ghost use Rattle.std.specs.Prelude.{◌≡◌};
    ghost use Rattle.swp_act.specs.Activation.{new_uicc, is_active, uicc_step, uicc_powered};

    /// An inactive end that sent nothing yet.
    pub fn new() -> UiccAct
        ensures { result ≡ new_uicc }
    {
        UiccAct {
            phase: Phase::Inactive,
            last: None,
        }
    }

    /// Whether the end is active.
    pub fn active(&self) -> bool
        ensures { result ≡ is_active self.now.phase }
    {
        self.phase.is_active()
    }

    /// Takes one event.
    pub fn step(&mut self, event: &ActEvent) -> ActOut
        ensures state { self.new ≡ (uicc_step self.old event.now).0 }
        ensures out { result ≡ (uicc_step self.old event.now).1 }
    {
        match *event {
            ActEvent::Start { value } => self.start(value),
            ActEvent::Take { act, again } => self.take(act, again),
            ActEvent::Tick => self.phase.tick(self.last),
            ActEvent::Stop => {
                self.phase = Phase::Inactive;
                ActOut::ends_link()
            }
        }
    }

    fn start(&mut self, sync: u16) -> ActOut
        ensures state { self.new ≡ (uicc_step self.old (ActEvent.Start sync)).0 }
        ensures out { result ≡ (uicc_step self.old (ActEvent.Start sync)).1 }
    {
        self.phase = Phase::Awaiting { tries: 1, ticks: 0 };
        self.last = Some(Act::SyncId(sync));
        ActOut {
            send: self.last,
            ..ActOut::ends_link()
        }
    }

    fn take(&mut self, act: Act, again: bool) -> ActOut
        ensures state { self.new ≡ (uicc_step self.old (ActEvent.Take act again)).0 }
        ensures out { result ≡ (uicc_step self.old (ActEvent.Take act again)).1 }
    {
        if again {
            return ActOut::sends(self.last);
        }
        match act {
            Act::PowerMode(code) if code <= 1 => self.power_up(),
            _ => ActOut::nothing(),
        }
    }

    fn power_up(&mut self) -> ActOut
        ensures state { self.new ≡ (uicc_powered self.old.phase self.old).0 }
        ensures out { result ≡ (uicc_powered self.old.phase self.old).1 }
    {
        let became_active = match self.phase {
            Phase::Inactive => return ActOut::nothing(),
            Phase::Awaiting { .. } => true,
            Phase::Active => false,
        };
        self.phase = Phase::Active;
        self.last = Some(Act::Ready);
        ActOut {
            became_active,
            ..ActOut::sends(self.last)
        }
    }
}
