//! What cutting into packets and joining again says of messages (ETSI TS 102 622, section 5.3). Nothing here runs.

ghost use Rattle.std.specs.Prelude.{◌≡◌, ℕ, ◌*◌, ◌<◌, List, length, Some, slice_get};
ghost use Rattle.hcp_packet.specs.Packets.{packets_of, packet_at, packet_count, packets_in, messages_of, fragments_of, good_messages_of, good_of, AreSendable};
ghost use Rattle.hcp_packet.specs.Packets.{IsFrontOf};

/// Messages that are cut into packets, one message after another, and joined again are the messages that were sent.
pub fn joined_again()
    ensures { (sent : List (ℕ × List ℕ)) → AreSendable sent → messages_of (packets_in (fragments_of sent)) ≡ sent }
{}

/// Whatever comes behind fragments, their good messages stay the first ones.
pub fn good_messages_grow()
    ensures { (early late : List (List ℕ)) → IsFrontOf early late → IsFrontOf (good_messages_of early) (good_messages_of late) }
{}

/// The good messages of any front of the fragments that were sent are a front of the good messages that were sent.
pub fn good_messages_are_a_front()
    ensures { (sent : List (ℕ × List ℕ)) (got : List (List ℕ)) → AreSendable sent → IsFrontOf got (fragments_of sent)
        → IsFrontOf (good_messages_of got) (good_of sent) }
{}

/// Where the fragments of messages have all come, the good ones of these messages have come, in order and first.
pub fn whole_messages_have_come()
    ensures { (sent : List (ℕ × List ℕ)) (got : List (List ℕ)) → AreSendable sent → IsFrontOf (fragments_of sent) got
        → IsFrontOf (good_of sent) (good_messages_of got) }
{}

/// A message has a packet for each 28 bytes and one for what is left, and each stands at its place in the message.
pub fn packets_stand_in_place()
    ensures counted { (pipe : ℕ) (message : List ℕ) → length (packets_of pipe message) ≡ packet_count (length message) }
    ensures in_place { (pipe : ℕ) (message : List ℕ) (k : ℕ) → 28 * k < length message
        → slice_get (packets_of pipe message) k ≡ Some (packet_at pipe message (28 * k)) }
{}
