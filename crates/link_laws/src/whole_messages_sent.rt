//! What one end that sends whole messages, one after another, means for the end that joins them. Nothing here runs.

ghost use Rattle.std.specs.Prelude.{◌≡◌, ℕ, List, [], IsTrue};
ghost use Rattle.hcp_packet.specs.Packets.{fragments_of, packets_in, messages_of, IsFrontOf};
ghost use Rattle.hcp_chain.specs.Joining.{are_taken, given_by};
ghost use Rattle.link_laws.specs.sending.Sending.{AreShort};

/// However many of the fragments of messages have come that were sent one after another, each is taken without a fault,
/// and what they give are their messages.
pub fn no_sender_causes_a_fault()
    ensures taken { (sent : List (ℕ × List ℕ)) (got : List (List ℕ)) → AreShort sent → IsFrontOf got (fragments_of sent)
        → IsTrue (are_taken [] (packets_in got)) }
    ensures given { (sent : List (ℕ × List ℕ)) (got : List (List ℕ)) → AreShort sent → IsFrontOf got (fragments_of sent)
        → given_by [] (packets_in got) ≡ messages_of (packets_in got) }
{}
