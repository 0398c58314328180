//! What joining packets one at a time gives. Nothing here runs.

ghost use Rattle.std.specs.Prelude.{◌≡◌, ◌≢◌, ℕ, ◌&&◌, List, [], ◌++◌, IsTrue};
ghost use Rattle.hcp_packet.specs.declared.Packet.{Packet as Part};
ghost use Rattle.hcp_packet.specs.Packets.{messages_of, IsFrontOf};
ghost use Rattle.hcp_chain.specs.Joining.{given_by, are_taken, open_after};

/// Packets that are taken without a fault give their messages, in the order of their last packets.
pub fn taken_packets_give_their_messages()
    ensures { (packets : List Part) → IsTrue (are_taken [] packets) → given_by [] packets ≡ messages_of packets }
{}

/// Joining goes on from the messages under way: what more packets give comes behind what those before gave.
pub fn joining_goes_on()
    ensures open { (messages : List (ℕ × List ℕ)) (packets more : List Part) →
        open_after messages (packets ++ more) ≡ open_after (open_after messages packets) more }
    ensures given { (messages : List (ℕ × List ℕ)) (packets more : List Part) →
        given_by messages (packets ++ more) ≡ given_by messages packets ++ given_by (open_after messages packets) more }
    ensures taken { (messages : List (ℕ × List ℕ)) (packets more : List Part) →
        are_taken messages (packets ++ more) ≡ (are_taken messages packets && are_taken (open_after messages packets) more) }
{}
