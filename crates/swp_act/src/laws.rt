//! When an end of an activation tries again and when it gives up, over any list of events. Nothing here runs.

ghost use Rattle.std.specs.Prelude.{◌≡◌, ℕ, ◌+◌, ◌<◌, ◌≤◌, List, ◌∷◌, Some, false};
ghost use Rattle.std.specs.List.{AllByRecursion};
ghost use Rattle.swp_base.specs.declared.control_frames.Act.TheVariants.{SyncId, PowerMode};
ghost use Rattle.swp_act.specs.declared.ActEvent.{ActEvent as Event};
ghost use Rattle.swp_act.specs.declared.ActEvent.TheVariants.{Start, Take, Tick};
ghost use Rattle.swp_act.specs.declared.Phase.TheVariants.{Awaiting};
ghost use Rattle.swp_act.specs.declared.uicc.UiccAct.{UiccAct};
ghost use Rattle.swp_act.specs.declared.clf.ClfAct.{ClfAct};
ghost use Rattle.swp_act.specs.Activation.{uicc_step, clf_step};
ghost use Rattle.swp_act.specs.Tries.{uicc_after, clf_after, ticks_in, IsNoPowerMode, IsNoReady, ticks_from, answer_to_tick};

/// A UICC that was started sends its identifier again at the tenth and the twentieth tick and gives up at the thirtieth,
/// whatever comes in between that is no power mode. Frames that ask for a repeat count for nothing.
pub fn uicc_tries_three_times()
    ensures { (s : UiccAct) (id : ℕ) (between : List Event) → AllByRecursion IsNoPowerMode between → ticks_in between < 30
        → (uicc_step (uicc_after s (Start id ∷ between)) Tick).1 ≡ answer_to_tick (Some (SyncId id)) 1 (ticks_in between + 1) }
{}

/// A CLF that takes a UICC's identifier while it doesn't wait sends its power mode again at the tenth and the twentieth
/// tick and gives up at the thirtieth, whatever comes in between that is neither ready nor an identifier. Where it waits
/// already, in its first, second or third try, the same goes on from this try.
pub fn clf_tries_three_times()
    ensures first { (s : ClfAct) (id : ℕ) (between : List Event) → ((tries ticks : ℕ) → s.phase ≡ Awaiting tries ticks → ⊥)
        → AllByRecursion IsNoReady between → ticks_in between < 30
        → (clf_step (clf_after s (Take (SyncId id) false ∷ between)) Tick).1
        ≡ answer_to_tick (Some (PowerMode s.power)) 1 (ticks_in between + 1) }
    ensures later { (s : ClfAct) (id tries ticks : ℕ) (between : List Event) → s.phase ≡ Awaiting tries ticks → tries ≤ 3
        → AllByRecursion IsNoReady between → ticks_in between < ticks_from tries
        → (clf_step (clf_after s (Take (SyncId id) false ∷ between)) Tick).1
        ≡ answer_to_tick (Some (PowerMode s.power)) tries (ticks_in between + 1) }
{}

/// An end gives up at a tick alone, while it waits: at the tenth tick since its timer started, after the third try.
pub fn gives_up_while_it_waits()
    ensures uicc { (s : UiccAct) (e : Event) (n : ℕ) → (uicc_step s e).1.gave_up ≡ Some n
        → (n ≡ 3) × (e ≡ Tick) × (tries ticks : ℕ) × (s.phase ≡ Awaiting tries ticks) × (3 ≤ tries) × (9 ≤ ticks) }
    ensures clf { (s : ClfAct) (e : Event) (n : ℕ) → (clf_step s e).1.gave_up ≡ Some n
        → (n ≡ 3) × (e ≡ Tick) × (tries ticks : ℕ) × (s.phase ≡ Awaiting tries ticks) × (3 ≤ tries) × (9 ≤ ticks) }
{}
