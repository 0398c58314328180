//! What a node notes in a step: what its deeds note, the turns of its pass, and what stands before them. Nothing here runs.

ghost use Rattle.std.specs.Prelude.{◌≡◌, ◌==◌, ℕ, true, false, List, [], ◌∷◌, ◌++◌, Option, Some, None};
ghost use Rattle.std.specs.List.{AllByRecursion};
ghost use Rattle.journal_laws.specs.declared.state.State.{State};
ghost use Rattle.journal_laws.specs.Journal.{count_of};
ghost use Rattle.hci_tables.specs.Tables.{AreTables, HciTables};
ghost use Rattle.hci_store.specs.Recordable.{IsRecordable};
ghost use Rattle.link_laws.specs.machine.Machine.{Message};
ghost use Rattle.node_machine.specs.Parts.{Deed, Init, Work};
ghost use Rattle.node_machine.specs.Carrying.{all_done, lack, needs};
ghost use Rattle.node_machine.specs.Turns.{handles, passes};
ghost use Rattle.node_machine.specs.Node.{NodeInput, steps};
ghost use Rattle.node_laws.specs.kept.Finds.{Knows};
ghost use Rattle.node_laws.specs.kept.Deeds.{MayBeDone};
ghost use Rattle.node_laws.specs.kept.Books.{hosts_of_ends};
ghost use Rattle.node_laws.specs.passes.Noting.{GiveOnce, AreTaken, CountsCommands, IsReplyNoted, entries_of_reply, noted_by_deeds, session_of_port};
ghost use Rattle.node_laws.specs.passes.Passing.{AreNoTurns, ArePassed, ComesTo, IsBehind, IsWaitingRead, takes_up};
ghost use Rattle.node_laws.specs.passes.Steps.{comes_to_pass, noted_before_pass};

/// Deeds note, behind what was noted before, what each of them notes as it is done.
pub fn deeds_note_as_they_are_done()
    ensures noted { (h : ℕ) (deeds : List Deed) (w : Work) → (all_done h deeds w).entries ≡ w.entries ++ noted_by_deeds h deeds w }
{}

/// In a pass of a node whose power is on each entry of a turn stands behind those of a state of the node, to which the turns before it
/// led, in which the message was the first at that end and lacked nothing; it is followed by what the deeds of the message note, and then
/// by the next turn of the pass, or by nothing where the power has gone. Where a message is noted as held, it was the first there, lacked
/// just what is noted, and wasn't noted as held. The turns stand in the order of the ends. And behind a pass in which the power stayed on,
/// what waits at an end is what waited there as the node left it: nothing, or a first message that lacked something there and is held.
pub fn passes_have_turns()
    ensures walked { (w : Work) → w.cut ≡ false → ArePassed (ComesTo w) (hosts_of_ends w.ports) w (passes w) }
    ensures left { (w : Work) → w.cut ≡ false → (passes w).cut ≡ false → (earlier : List ℕ) (h : ℕ) (later : List ℕ) →
        hosts_of_ends w.ports ≡ earlier ++ (h ∷ later) → AllByRecursion (λ k. (k == h) ≡ false) later →
        IsBehind (ComesTo w) w (passes w) earlier h later }
{}

/// Where no deed of a message lacks room, and they give each end one message or block at most, they note the reply: a list that they make
/// with the number of the node, the sessions of its ends that are up, and the count of its commands. Where the power goes they note the
/// reply up to the command in whose writes it goes, and its loss. So it is with deeds outside turns, each of whose messages is taken. A
/// node that knows its journal counts the command of a message as one more.
pub fn replies_are_noted()
    ensures message { (h : ℕ) (m : Message) (deeds : List Deed) (w : Work) → w.cut ≡ false → GiveOnce h [] deeds →
        lack w.ports (needs h deeds) ≡ None → CountsCommands w.core.journal w.core.tables deeds →
        IsReplyNoted (handles h m deeds w).cut w.core.node (noted_by_deeds h deeds (takes_up h m w))
        (entries_of_reply w.core.node (session_of_port w.ports) h (count_of w.core.journal) deeds) }
    ensures outside { (h : ℕ) (deeds : List Deed) (w : Work) → w.cut ≡ false → AreTaken h deeds w →
        CountsCommands w.core.journal w.core.tables deeds →
        IsReplyNoted (all_done h deeds w).cut w.core.node (noted_by_deeds h deeds w)
        (entries_of_reply w.core.node (session_of_port w.ports) h (count_of w.core.journal) deeds) }
    ensures taken { (h : ℕ) (deeds : List Deed) (w : Work) → GiveOnce h [] deeds → lack w.ports (needs h deeds) ≡ None → AreTaken h deeds w }
    ensures counted { (content : List ℕ) (s : State) (t : HciTables) → Knows content s t → AreTables t → IsRecordable t →
        (command : Option (List ℕ)) (init : Option Init) (deeds : List Deed) → MayBeDone (Some s) command init deeds → CountsCommands s t deeds }
{}

/// Before its pass a node notes in a step what came, the links that late notices reset, the identifiers that it keeps, and what it owes to
/// askers, and no turn; then it passes, unless its power has gone. Its ends stay the same until then.
pub fn steps_note_before_they_pass()
    ensures before { (input : NodeInput) (w : Work) → (comes_to_pass input w).entries ≡ w.entries ++ noted_before_pass input w }
    ensures no_turns { (input : NodeInput) (w : Work) → AreNoTurns (noted_before_pass input w) }
    ensures ends { (input : NodeInput) (w : Work) → hosts_of_ends (comes_to_pass input w).ports ≡ hosts_of_ends w.ports }
    ensures without_power { (input : NodeInput) (w : Work) → (comes_to_pass input w).cut ≡ true → steps input w ≡ comes_to_pass input w }
    ensures with_power { (input : NodeInput) (w : Work) → (comes_to_pass input w).cut ≡ false → steps input w ≡ passes (comes_to_pass input w) }
{}

/// What waits at an end of a node at each turn of a pass, and whether its first message was noted as held, is read off what was noted since
/// the pass began: each turn there takes the first message, which isn't held then.
pub fn waiting_messages_are_read_at_turns()
    ensures waits { (w : Work) (v : Work) (h : ℕ) → ComesTo w v → IsWaitingRead h w v }
{}
