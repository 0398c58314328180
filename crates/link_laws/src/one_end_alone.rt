//! What one end of a link does over whole messages, as a machine: activation, SHDLC, messages cut and joined, blocks. Its laws
//! hold for every list of inputs to a new end of any role. There is no code here that runs.

ghost use Rattle.std.specs.Prelude.{◌≡◌, ◌+◌, ◌≤◌, ℕ, true, false, List, Some, length, take};
ghost use Rattle.swp_base.specs.declared.control_frames.Control.{Control as Frame};
ghost use Rattle.swp_base.specs.declared.link_terms.Cause.{Cause};
ghost use Rattle.shdlc_core.specs.declared.answers.LinkState.TheVariants.{Up};
ghost use Rattle.hcp_packet.specs.Packets.{fragments_of};
ghost use Rattle.link_laws.specs.machine.Machine.{Role, LinkInput, after_input, ended_by, frames_out, in_use, is_open, next_frame, sent_all, spare};
ghost use Rattle.link_laws.specs.machine.Machine.{whole_acked};
ghost use Rattle.shdlc_core.specs.Machine.{most_frames};
ghost use Rattle.link_laws.specs.machine.Machine.LinkInput.{Take};
ghost use Rattle.link_laws.specs.machine.Laws.{AreSendableInputs, Forgets, IsNone, after_fetches, end_after, fetches, is_fragment, is_shdlc, most_fetches};

/// In a session the fragments given to SHDLC are the packets of the messages sent, in order, and none is left out.
pub fn fragments_are_those_of_the_messages_sent()
    ensures { (role : Role) (inputs : List LinkInput) → AreSendableInputs inputs →
        (end_after role inputs).shdlc.session.out ≡ fragments_of (end_after role inputs).sent }
{}

/// What counts as acknowledged whole never passes what was sent, and all its fragments are acknowledged.
pub fn whole_messages_are_acknowledged()
    ensures sent { (role : Role) (inputs : List LinkInput) → AreSendableInputs inputs →
        whole_acked (end_after role inputs) ≤ length (end_after role inputs).sent }
    ensures acknowledged { (role : Role) (inputs : List LinkInput) → AreSendableInputs inputs →
        length (fragments_of (take (whole_acked (end_after role inputs)) (end_after role inputs).sent))
        ≤ (end_after role inputs).shdlc.session.acked }
    ensures offered { (role : Role) (inputs : List LinkInput) → AreSendableInputs inputs →
        (end_after role inputs).shdlc.session.acked ≤ length (end_after role inputs).shdlc.session.out }
{}

/// The blocks of the messages that aren't acknowledged whole, those set aside and those that are spare are 128.
pub fn blocks_are_shared_out()
    ensures { (role : Role) (inputs : List LinkInput) → AreSendableInputs inputs →
        in_use (end_after role inputs) + (end_after role inputs).aside + spare (end_after role inputs) ≡ 128 }
{}

/// An end that isn't active takes frames of activation alone, and sends no others.
pub fn inactive_end_has_activation_alone()
    ensures takes { (role : Role) (inputs : List LinkInput) → AreSendableInputs inputs → is_open (end_after role inputs).role ≡ false →
        (c : Frame) → is_shdlc c ≡ true → after_input (end_after role inputs) (Take c) ≡ end_after role inputs }
    ensures sends { (role : Role) (inputs : List LinkInput) → AreSendableInputs inputs → is_open (end_after role inputs).role ≡ false →
        IsNone is_shdlc (next_frame (end_after role inputs)) }
{}

/// An end that is Down or waits sends no I frame.
pub fn end_without_session_sends_no_fragment()
    ensures { (role : Role) (inputs : List LinkInput) → AreSendableInputs inputs → ((end_after role inputs).shdlc.phase ≡ Up → ⊥) →
        IsNone is_fragment (next_frame (end_after role inputs)) }
{}

/// The end of a session forgets every message that was sent in it and every one that came in part; those that came whole stay.
pub fn ended_session_is_forgotten()
    ensures { (role : Role) (inputs : List LinkInput) → AreSendableInputs inputs → (i : LinkInput) (cause : Cause) →
        ended_by (end_after role inputs) i ≡ Some cause → Forgets (end_after role inputs) (after_input (end_after role inputs) i) }
{}

/// An end that has at most twelve control frames of SHDLC to send gives all that is due one frame after another: control frames in the
/// order in which they were made, then fragments.
pub fn frames_are_fetched_one_by_one()
    ensures frames { (role : Role) (inputs : List LinkInput) → length (end_after role inputs).shdlc.due ≤ most_frames →
        fetches (most_fetches (end_after role inputs)) (end_after role inputs) ≡ frames_out (end_after role inputs) }
    ensures rest { (role : Role) (inputs : List LinkInput) → length (end_after role inputs).shdlc.due ≤ most_frames →
        after_fetches (most_fetches (end_after role inputs)) (end_after role inputs) ≡ sent_all (end_after role inputs) }
{}
