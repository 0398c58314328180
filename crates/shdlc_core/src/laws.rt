//! Laws of one end of a link, over every list of inputs. There is no code here that runs: each law is the contract of a
//! function with an empty body.
ghost use Rattle.std.specs.Prelude.{◌≡◌, ◌≢◌, ℕ, ◌+◌, ◌%◌, ◌<◌, ◌≤◌, false, List, [], length, Contains};
ghost use Rattle.swp_base.specs.declared.control_frames.Control.{Control};
ghost use Rattle.swp_base.specs.declared.control_frames.Control.TheVariants.{I};
ghost use Rattle.shdlc_core.specs.declared.answers.LinkState.TheVariants.{Up};
ghost use Rattle.shdlc_core.specs.declared.answers.OfferRefused.TheVariants.{NotUp};
ghost use Rattle.shdlc_core.specs.Machine.{EndInput, Fragment, shdlc_after_inputs, end_step, frame_due, take_answer};
ghost use Rattle.shdlc_core.specs.Machine.EndInput.{Offer};
ghost use Rattle.shdlc_core.specs.Machine.EndOutput.{OfferIsRefused};
ghost use Rattle.shdlc_core.specs.Histories.{AskForWindows, shdlc_end_after, history_of, IsOneSession, Begins, CarriesNr, IsNextFragment};

/// The lists and the acknowledged place of a session are those of its history.
pub fn sessions_are_their_histories()
    ensures accepted { (w : ℕ) (inputs : List EndInput) → (shdlc_end_after w inputs).session.acc ≡ (history_of w inputs).accepted }
    ensures offered { (w : ℕ) (inputs : List EndInput) → (shdlc_end_after w inputs).session.out ≡ (history_of w inputs).offered }
    ensures acked { (w : ℕ) (inputs : List EndInput) → (shdlc_end_after w inputs).session.acked ≡ (history_of w inputs).acked }
{}

/// Never more fragments than the window are sent and unacknowledged: each place that was sent lies less than the window
/// behind the first unacknowledged one.
pub fn window_is_kept()
    ensures { (w : ℕ) (inputs : List EndInput) (p : ℕ) → Contains (history_of w inputs).sent p →
        p < (history_of w inputs).acked + (shdlc_end_after w inputs).session.window }
{}

/// The places that were sent have no hole, and what was acknowledged was sent. A fragment that is sent now is one from the
/// first unacknowledged on, within the window, and all before it were sent.
pub fn places_are_sent_without_a_hole()
    ensures no_hole { (w : ℕ) (inputs : List EndInput) (p q : ℕ) → Contains (history_of w inputs).sent q → p < q →
        Contains (history_of w inputs).sent p }
    ensures acknowledged { (w : ℕ) (inputs : List EndInput) (p : ℕ) → p < (history_of w inputs).acked →
        Contains (history_of w inputs).sent p }
    ensures next { (w : ℕ) (inputs : List EndInput) (ns nr : ℕ) (info : Fragment) →
        frame_due (shdlc_end_after w inputs) ≡ Some (I ns nr info) →
        IsNextFragment (history_of w inputs) (shdlc_end_after w inputs).session.window ns info }
{}

/// Each N(R) that goes out is the number of fragments accepted in the session, modulo 8.
pub fn numbers_count_what_was_accepted()
    ensures { (w : ℕ) (inputs : List EndInput) (c : Control) → frame_due (shdlc_end_after w inputs) ≡ Some c →
        CarriesNr (length (history_of w inputs).accepted % 8) c }
{}

/// While a session neither begins nor ends, the accepted fragments only grow.
pub fn accepted_fragments_only_grow()
    ensures { (w : ℕ) (inputs more : List EndInput) → IsOneSession (shdlc_end_after w inputs) more →
        Begins (shdlc_after_inputs (shdlc_end_after w inputs) more).session.acc (shdlc_end_after w inputs).session.acc }
{}

/// An end that isn't Up takes no fragment for sending, accepts none and sends none.
pub fn nothing_goes_on_without_a_session()
    ensures offers { (w : ℕ) (inputs : List EndInput) (info : Fragment) → (shdlc_end_after w inputs).phase ≢ Up →
        end_step (shdlc_end_after w inputs) (Offer info) ≡ (shdlc_end_after w inputs, OfferIsRefused NotUp) }
    ensures accepts { (w : ℕ) (inputs : List EndInput) (c : Control) → (shdlc_end_after w inputs).phase ≢ Up →
        (take_answer (shdlc_end_after w inputs) c).accepted ≡ None }
    ensures sends { (w : ℕ) (inputs : List EndInput) (ns nr : ℕ) (info : Fragment) → (shdlc_end_after w inputs).phase ≢ Up →
        frame_due (shdlc_end_after w inputs) ≢ Some (I ns nr info) }
    ensures empty { (w : ℕ) (inputs : List EndInput) → (shdlc_end_after w inputs).phase ≢ Up →
        ((history_of w inputs).accepted ≡ []) × ((history_of w inputs).offered ≡ []) × ((history_of w inputs).sent ≡ []) }
{}

/// The window of a session is 1 to 4: the end's own one is, whatever the other end asks for.
pub fn windows_are_one_to_four()
    ensures low { (w : ℕ) (inputs : List EndInput) → 1 ≤ w → w ≤ 4 → AskForWindows inputs → (shdlc_end_after w inputs).phase ≡ Up →
        1 ≤ (shdlc_end_after w inputs).session.window }
    ensures high { (w : ℕ) (inputs : List EndInput) → 1 ≤ w → w ≤ 4 → AskForWindows inputs → (shdlc_end_after w inputs).phase ≡ Up →
        (shdlc_end_after w inputs).session.window ≤ 4 }
{}

/// T2 stands at 0 while nothing is sent and unacknowledged, unless the other end is busy and something waits. A timer never
/// stands at 10 ticks, and nothing is tried more than five times.
pub fn timers_run_only_while_an_answer_is_awaited()
    ensures ready { (w : ℕ) (inputs : List EndInput) → 1 ≤ w → w ≤ 4 → AskForWindows inputs → (shdlc_end_after w inputs).phase ≡ Up →
        (shdlc_end_after w inputs).session.next ≡ (shdlc_end_after w inputs).session.acked →
        (shdlc_end_after w inputs).session.peer_busy ≡ false → (shdlc_end_after w inputs).timer ≡ 0 }
    ensures empty { (w : ℕ) (inputs : List EndInput) → 1 ≤ w → w ≤ 4 → AskForWindows inputs → (shdlc_end_after w inputs).phase ≡ Up →
        length (shdlc_end_after w inputs).session.out ≡ (shdlc_end_after w inputs).session.acked → (shdlc_end_after w inputs).timer ≡ 0 }
    ensures ticks { (w : ℕ) (inputs : List EndInput) → 1 ≤ w → w ≤ 4 → AskForWindows inputs → (shdlc_end_after w inputs).timer < 10 }
    ensures tries { (w : ℕ) (inputs : List EndInput) → 1 ≤ w → w ≤ 4 → AskForWindows inputs → (shdlc_end_after w inputs).tries ≤ 5 }
{}
