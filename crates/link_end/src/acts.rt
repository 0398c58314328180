//! ACT frames that wait to be fetched, in their places among the control frames of SHDLC.
ghost use Rattle.std.specs.Prelude.{◌≡◌, ◌-◌, map, length, IfSome, IfNone};
ghost use Rattle.link_end.specs.Dues.{kept_in_front, kept_nearer, front_act, behind_front};

use arrayvec::ArrayVec;
use swp_base::Act;

/// An ACT frame that is due, and how many of the SHDLC control frames that are due were made before it.
#[derive(Clone, Copy, Debug, PartialEq, Eq)]
pub struct ActDue {
    pub frame: Act,
    pub behind: u8,
}

impl Default for ActDue {
    fn default() -> Self {
        ActDue {
            frame: Act::Ready,
            behind: 0,
        }
    }
}

/// No SHDLC control frame stands before any of them any more.
pub fn bring_to_front(acts: &mut ArrayVec<ActDue, 8>)
    ensures { acts.new.items ≡ map kept_in_front acts.old.items }
{
    if acts.is_empty() {
        return;
    }
    let mut moved = ArrayVec::new();
    for act in acts.as_slice() {
        moved.push(ActDue {
            frame: act.frame,
            behind: 0,
        });
    }
    *acts = moved;
}

// Counts one SHDLC control frame fewer before each act. A call of its own, since acts seldom wait.
#[inline(never)]
fn bring_nearer(acts: &mut ArrayVec<ActDue, 8>)
    ensures { acts.new.items ≡ map kept_nearer acts.old.items }
{
    let mut moved = ArrayVec::new();
    for act in acts.as_slice() {
        moved.push(ActDue {
            frame: act.frame,
            behind: act.behind.saturating_sub(1),
        });
    }
    *acts = moved;
}

/// Takes the first one out where no SHDLC control frame stands before it, and it is the next frame to be sent. Where there is none,
/// one SHDLC control frame fewer stands before each.
pub fn next_act(acts: &mut ArrayVec<ActDue, 8>) -> Option<Act>
    ensures act { result ≡ front_act acts.old.items }
    ensures sent { IfSome result (λ _. acts.new.items ≡ behind_front acts.old.items) }
    ensures nearer { IfNone result (acts.new.items ≡ map kept_nearer (behind_front acts.old.items)) }
{
    let Some(due) = acts.as_slice().first().copied() else {
        return None;
    };
    if due.behind > 0 {
        bring_nearer(acts);
        return None;
    }
    acts.remove(0);
    Some(due.frame)
}
