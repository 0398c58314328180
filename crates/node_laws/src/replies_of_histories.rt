//! A controller's replies to messages are those that are read off all that was noted until their turns. Nothing here runs.

ghost use Rattle.std.specs.Prelude.{◌≡◌, ◌∷◌, ◌++◌, ℕ, false, List, None, Some};
ghost use Rattle.std.specs.List.{AllByRecursion};
ghost use Rattle.trace_model.specs.Lines.{IsHost};
ghost use Rattle.trace_model.specs.declared.entry.Entry.{Entry};
ghost use Rattle.trace_model.specs.declared.entry.Entry.TheVariants.{Held, Turn};
ghost use Rattle.trace_model.specs.declared.line.End.{End};
ghost use Rattle.journal_laws.specs.Journal.{count_of};
ghost use Rattle.link_laws.specs.machine.Machine.{Message};
ghost use Rattle.node_machine.specs.Parts.{Work};
ghost use Rattle.node_machine.specs.Controller.{view_of};
ghost use Rattle.node_machine.specs.Turns.{deeds_of, passes};
ghost use Rattle.node_machine.specs.world.World.{end_c};
ghost use Rattle.node_laws.specs.kept.Hosts.{AreHosts, IsFew};
ghost use Rattle.node_laws.specs.answers.Answered.{IsHeldFor, IsReplied};
ghost use Rattle.node_laws.specs.answers.Moments.{Moment, lack_of, noted_of_deeds, reply, until, view_read};
ghost use Rattle.node_laws.specs.read_steps.Alike.{KnowsTheSame};
ghost use Rattle.node_laws.specs.read_steps.Works.{KeepsInStep, LinksAreRead};
ghost use Rattle.node_laws.specs.passes.Noting.{entries_of_reply, session_of_port};
ghost use Rattle.node_laws.specs.passes.Passing.{ComesTo, lacking};
ghost use Rattle.trace_model.specs.declared.line.Header.{Header};
ghost use Rattle.trace_model.specs.declared.line.Line.{Line};
ghost use Rattle.link_laws.specs.machine.Machine.{LinkInput};
ghost use Rattle.link_laws.specs.messages.Links.{Comes};
ghost use Rattle.node_machine.specs.Parts.{Running};
ghost use Rattle.node_machine.specs.Node.NodeInput.{AtEnd, TimePasses};
ghost use Rattle.node_machine.specs.world.World.{NodeWorld, all_aged, input_of, link_to, new_world};
ghost use Rattle.node_machine.specs.world.Lines.{Occurrence};
ghost use Rattle.node_machine.specs.world.NodeHistories.{FollowsNodes, NodeHistory, entries_in, node_entries, occurrences_in};
ghost use Rattle.node_laws.specs.links.Runs.{ArePlayable};
ghost use Rattle.node_laws.specs.telling.Telling.{world_behind};
ghost use Rattle.node_laws.specs.kept.Hosts.{IsSentByHost};
ghost use Rattle.node_laws.specs.read_steps.Worlds.{as_it_ticks};
ghost use Rattle.node_laws.specs.replies.Passes.{AreRepliedIn, BeginsPass};
ghost use Rattle.node_laws.specs.replies.Known.{EndsAreRead, HasRoomForAll, IsNoAnswer, KeepsBeside, MessagesAreRead};
ghost use Rattle.node_laws.specs.read_steps.Names.{AreNamed};
ghost use Rattle.node_laws.specs.passes.Steps.{comes_to_pass, controller_begins};

/// A controller that keeps in a step what is read, and whose links that are up are those that are read, knows at a message of a host what
/// is read off all entries until there; so what it does with it is the reply that is read. Its journal has room, and the notices of
/// creations go to the hosts that they name.
pub fn what_is_read_is_known()
    ensures knows { (hosts : List ℕ) → AreHosts hosts → (t : List Entry) (w : Work) → KeepsInStep hosts t w →
        LinksAreRead hosts (t ++ w.entries) w.ports → HasRoomForAll w → AreNamed (t ++ w.entries) → (m : Moment) → until m ≡ t ++ w.entries →
        (h : ℕ) → KnowsTheSame (view_of w.core w.ports) (view_read hosts m 0) h }
    ensures replies { (hosts : List ℕ) → AreHosts hosts → (t : List Entry) (w : Work) → KeepsInStep hosts t w →
        LinksAreRead hosts (t ++ w.entries) w.ports → HasRoomForAll w → AreNamed (t ++ w.entries) → (m : Moment) → until m ≡ t ++ w.entries →
        (h : ℕ) (message : Message) → reply hosts m (end_c h) message ≡ deeds_of w.core w.ports h message }
{}

/// Where the sessions of its ends and the blocks that they have to spare are read too, the room that a message lacks is what is read; and
/// what is noted of the reply that is read is what the deeds of the message note, with the sessions and the count of the controller.
pub fn what_is_lacked_and_noted_is_read()
    ensures lacks { (hosts : List ℕ) → AreHosts hosts → (t : List Entry) (w : Work) → KeepsInStep hosts t w → EndsAreRead (t ++ w.entries) w.ports →
        HasRoomForAll w → AreNamed (t ++ w.entries) → (m : Moment) → until m ≡ t ++ w.entries → (h : ℕ) (message : Message) →
        lack_of hosts m (end_c h) message ≡ lacking w h message }
    ensures notes { (hosts : List ℕ) → AreHosts hosts → (t : List Entry) (w : Work) → KeepsBeside hosts t w → (m : Moment) →
        until m ≡ t ++ w.entries → (h : ℕ) → IsHost h → (message : Message) → noted_of_deeds (until m) 0 h (reply hosts m (end_c h) message) ≡
        entries_of_reply 0 (session_of_port w.ports) h (count_of w.core.journal) (deeds_of w.core w.ports h message) }
{}

/// So each message that has its turn in a pass of such a controller is replied to, where the controller stays so in the turns of the pass,
/// and behind the entries of the pass stand no answers of it; and each that is noted as held lacks what is noted. Where the messages that
/// wait at its ends are read, a message that is noted as held is the first one there, and wasn't noted so before.
pub fn passes_reply_as_is_read()
    ensures turns { (hosts : List ℕ) → AreHosts hosts → (t : List Entry) (w : Work) → KeepsInStep hosts t w →
        ((v : Work) → ComesTo w v → KeepsBeside hosts t v) → (front back : List Entry) (e : End) (pid : ℕ) (message : List ℕ) →
        (passes w).entries ≡ w.entries ++ (front ++ (Turn e pid message ∷ back)) → (m : Moment) → until m ≡ (t ++ w.entries) ++ front →
        (rest : List Entry) → AllByRecursion IsNoAnswer rest → IsReplied hosts m (Turn e pid message) (back ++ rest) }
    ensures lacks { (hosts : List ℕ) → AreHosts hosts → (t : List Entry) (w : Work) → KeepsInStep hosts t w →
        ((v : Work) → ComesTo w v → KeepsBeside hosts t v) →
        (front back : List Entry) (e : End) (need spare : ℕ) → (passes w).entries ≡ w.entries ++ (front ++ (Held e need spare ∷ back)) →
        (m : Moment) → until m ≡ (t ++ w.entries) ++ front → (message : Message) × (lack_of hosts m e message ≡ Some (need, spare)) }
    ensures held { (hosts : List ℕ) → AreHosts hosts → (t : List Entry) (w : Work) → KeepsInStep hosts t w →
        ((v : Work) → ComesTo w v → KeepsBeside hosts t v) → ((v : Work) → ComesTo w v → MessagesAreRead (t ++ v.entries) v.ports) →
        (front back : List Entry) (e : End) (need spare : ℕ) → (passes w).entries ≡ w.entries ++ (front ++ (Held e need spare ∷ back)) →
        (m : Moment) → until m ≡ (t ++ w.entries) ++ front → (rest : List Entry) → IsHeldFor hosts m (Held e need spare) (back ++ rest) }
{}

/// So it is in a history that follows a schedule, for hosts from 01 to 07 that are all different, lines that can be played, messages that
/// hosts send, and no more commands than a journal counts: in each step of the controller, where something comes to one of its ends, or
/// time passes, its pass replies to messages as is read, where as it begins the messages that wait are read, and in its turns it finds
/// room for any command.
pub fn passes_of_histories_reply_as_is_read()
    ensures comes { (header : Header) (lines : List Line) (t : NodeHistory) → FollowsNodes header lines t → AreHosts header.hosts.items →
        ArePlayable lines → AllByRecursion IsSentByHost lines → IsFew (node_entries t) → (front back : List Occurrence) →
        occurrences_in t ≡ front ++ back → (w : NodeWorld) → world_behind (new_world header.hosts.items) front ≡ w → (r : Running) →
        w.controller ≡ Some r → (h : ℕ) (comes : Comes) (i : LinkInput) → input_of (link_to w.sites h) comes ≡ Some i →
        (comes_to_pass (AtEnd h i) (controller_begins w r h comes)).cut ≡ false →
        BeginsPass (entries_in front) (comes_to_pass (AtEnd h i) (controller_begins w r h comes)) →
        AreRepliedIn header.hosts.items (entries_in front) (comes_to_pass (AtEnd h i) (controller_begins w r h comes)) }
    ensures ticks { (header : Header) (lines : List Line) (t : NodeHistory) → FollowsNodes header lines t → AreHosts header.hosts.items →
        ArePlayable lines → AllByRecursion IsSentByHost lines → IsFew (node_entries t) → (front back : List Occurrence) →
        occurrences_in t ≡ front ++ back → (w : NodeWorld) → world_behind (new_world header.hosts.items) front ≡ w → (r : Running) →
        w.controller ≡ Some r → (comes_to_pass TimePasses (as_it_ticks w r)).cut ≡ false →
        BeginsPass (entries_in front ++ (all_aged w).1) (comes_to_pass TimePasses (as_it_ticks w r)) →
        AreRepliedIn header.hosts.items (entries_in front ++ (all_aged w).1) (comes_to_pass TimePasses (as_it_ticks w r)) }
{}
