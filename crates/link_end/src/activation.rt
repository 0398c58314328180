//! What goes before the link at an end.
ghost use Rattle.std.specs.Prelude.{◌≡◌};
ghost use Rattle.swp_act.specs.Activation.{no_act_out};

use swp_act::{ActEvent, ActOut, ClfAct, UiccAct};
use swp_base::Role;

/// What goes before the link: nothing at a bare end, else the activation of a CLF or of a UICC.
#[derive(Drop)]
pub enum Activation {
    Bare,
    Clf(ClfAct),
    Uicc(UiccAct),
}

impl Activation {
    ghost use Rattle.std.specs.Prelude.{◌≡◌};
    ghost use Rattle.link_laws.specs.machine.Machine.{is_open, role_after, act_answer};
    ghost use Rattle.link_end.specs.Roles.{role_of, new_role, MayStart};
    ghost use Rattle.link_end.specs.Inputs.{heard_bit};

    /// An end of this role, which is inactive where it isn't bare.
    pub fn new(role: Role) -> Activation
        ensures { role_of result ≡ new_role role }
    {
        match role {
            Role::Bare => Activation::Bare,
            Role::Clf => Activation::Clf(ClfAct::new()),
            Role::Uicc => Activation::Uicc(UiccAct::new()),
        }
    }

    /// Whether frames of SHDLC are taken and sent.
    pub fn is_open(&self) -> bool
        ensures { result ≡ is_open (role_of self.now) }
    {
        match self {
            Activation::Bare => true,
            Activation::Clf(clf) => clf.active(),
            Activation::Uicc(uicc) => uicc.active(),
        }
    }

    /// The bit that the end hears in a period: S2 at a CLF, S1 at a UICC.
    pub fn heard_bit(&self, s1: bool, s2: bool) -> bool
        ensures { result ≡ heard_bit (role_of self.now) s1 s2 }
    {
        match self {
            Activation::Bare => s1,
            Activation::Clf(_clf) => s2,
            Activation::Uicc(_uicc) => s1,
        }
    }

    /// Takes one event. It asks for a power code of 00 or 01 at a start of a CLF. Nothing happens at a bare end.
    pub fn step(&mut self, event: &ActEvent) -> ActOut
        requires { MayStart (role_of self.old) event.now }
        ensures role { role_of self.new ≡ role_after (role_of self.old) event.now }
        ensures out { result ≡ act_answer (role_of self.old) event.now }
    {
        match self {
            Activation::Bare => nothing(),
            Activation::Clf(clf) => clf.step(event),
            Activation::Uicc(uicc) => uicc.step(event),
        }
    }
}

// An answer that says nothing.
fn nothing() -> ActOut
    ensures { result ≡ no_act_out }
{
    ActOut {
        send: None,
        became_active: false,
        ended_link: false,
        sync: None,
        gave_up: None,
    }
}
