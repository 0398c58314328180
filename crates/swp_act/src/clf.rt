//! The CLF's end of an activation.
use crate::{ActEvent, ActOut, Phase};
use swp_base::Act;

/// The CLF's end: it answers ACT_SYNC_ID by ACT_POWER_MODE, and waits for ACT_READY.
#[derive(Drop)]
pub struct ClfAct {
    phase: Phase,
    last: Option<Act>,
    power: u8,
}

impl ClfAct {
    ghost use Rattle.std.specs.Prelude.{◌≡◌};
    ghost use Rattle.swp_act.specs.Activation.{new_clf, is_active, clf_step, clf_synced, clf_readied, IsPowerStart};

    /// An inactive end that sent nothing yet. Its power mode is full power until a start names another.
    pub fn new() -> ClfAct
        ensures { result ≡ new_clf }
    {
        ClfAct {
            phase: Phase::Inactive,
            last: None,
            power: 1,
        }
    }

    /// Whether the end is active.
    pub fn active(&self) -> bool
        ensures { result ≡ is_active self.now.phase }
    {
        self.phase.is_active()
    }

    /// Takes one event. It asks for a power code of 00 or 01 at a start.
    pub fn step(&mut self, event: &ActEvent) -> ActOut
        requires { IsPowerStart event.now }
        ensures state { self.new ≡ (clf_step self.old event.now).0 }
        ensures out { result ≡ (clf_step self.old event.now).1 }
    {
        match *event {
            ActEvent::Start { value } => {
                self.phase = Phase::Inactive;
                self.power = value as u8;
                ActOut::ends_link()
            }
            ActEvent::Take { act, again } => self.take(act, again),
            ActEvent::Tick => self.phase.tick(self.last),
            ActEvent::Stop => {
                self.phase = Phase::Inactive;
                ActOut::ends_link()
            }
        }
    }

    fn take(&mut self, act: Act, again: bool) -> ActOut
        ensures state { self.new ≡ (clf_step self.old (ActEvent.Take act again)).0 }
        ensures out { result ≡ (clf_step self.old (ActEvent.Take act again)).1 }
    {
        if again {
            return ActOut::sends(self.last);
        }
        match act {
            Act::SyncId(id) => self.synchronise(id),
            Act::Ready => self.ready(),
            Act::PowerMode(_) => ActOut::nothing(),
        }
    }

    fn synchronise(&mut self, id: u16) -> ActOut
        ensures state { self.new ≡ (clf_synced self.old.phase self.old id).0 }
        ensures out { result ≡ (clf_synced self.old.phase self.old id).1 }
    {
        let (tries, ended_link) = match self.phase {
            Phase::Awaiting { tries, .. } => (tries, false),
            _ => (1, true),
        };
        self.phase = Phase::Awaiting { tries, ticks: 0 };
        self.last = Some(Act::PowerMode(self.power));
        ActOut {
            ended_link,
            sync: Some(id),
            ..ActOut::sends(self.last)
        }
    }

    fn ready(&mut self) -> ActOut
        ensures state { self.new ≡ (clf_readied self.old.phase self.old).0 }
        ensures out { result ≡ (clf_readied self.old.phase self.old).1 }
    {
        if !matches!(self.phase, Phase::Awaiting { .. }) {
            return ActOut::nothing();
        }
        self.phase = Phase::Active;
        ActOut {
            became_active: true,
            ..ActOut::nothing()
        }
    }
}
