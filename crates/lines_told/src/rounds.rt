//! The lines of a round do what a round does, and tell of it. There is no code here that runs.

ghost use Rattle.std.specs.Prelude.{◌≡◌, ◌++◌, ◌∷◌, [], ℕ, List, None, replicate, true, false};
ghost use Rattle.std.specs.List.{flat_map};
ghost use Rattle.trace_model.specs.declared.entry.Entry.TheVariants.{Settled};
ghost use Rattle.trace_model.specs.declared.line.End.{End};
ghost use Rattle.trace_model.specs.declared.line.Header.{Header};
ghost use Rattle.trace_model.specs.declared.line.Line.{Line};
ghost use Rattle.trace_model.specs.declared.line.Line.TheVariants.{Deliver, Settle};
ghost use Rattle.link_laws.specs.messages.Links.{Link};
ghost use Rattle.history.specs.Follows.{causes_in, host_of, link_after_lines};
ghost use Rattle.history.specs.Steps.{link_after_all};
ghost use Rattle.node_machine.specs.world.Lines.{noted_lines};
ghost use Rattle.node_machine.specs.world.NodeHistories.{NoneIsMisread, entries_in, world_after};
ghost use Rattle.node_machine.specs.world.Rounds.{end_takes_all, ends_in_order, rounds_of_world, world_round, world_rounds_to_settle, world_settling};
ghost use Rattle.node_machine.specs.world.World.{NodeWorld, new_world};
ghost use Rattle.lines_told.specs.lines.Below.{entries_below, nodes_behind};
ghost use Rattle.lines_told.specs.lines.Plays.{Play, lines_played, round_behind, round_in, taking_in, taking_on, told_behind, told_of_line, told_of_rounds};
ghost use Rattle.lines_told.specs.lines.Plays.Play.{Round};

/// In a world of nodes the line of an end, where there is one, does what the end does as it takes all that stands on its wire; and the lines
/// of a round do what the round does. What is noted below them, one after another, is what is noted of that, and no refusal among it.
pub fn lines_of_a_round_do_what_it_does()
    ensures end { (w : NodeWorld) (e : End) → world_after w (taking_in w e) ≡ (end_takes_all w e).0 }
    ensures end_told { (w : NodeWorld) (e : End) → flat_map entries_below (noted_lines w (taking_in w e)) ≡ entries_in (end_takes_all w e).1 }
    ensures round { (w : NodeWorld) → world_after w (round_in w (ends_in_order w)) ≡ (world_round w).0 }
    ensures told { (w : NodeWorld) →
        flat_map entries_below (noted_lines w (round_in w (ends_in_order w))) ≡ entries_in (world_round w).1 }
{}

/// So it is behind the lines of plays in a world of nodes: with a round, with so many rounds, and with those of a line that lets the links
/// settle, below which it is noted last how many there were.
pub fn rounds_behind_plays_are_rounds_of_nodes()
    ensures round { (header : Header) → header.hci ≡ true → (before : List Line) →
        nodes_behind header (before ++ round_behind header before) ≡ (world_round (nodes_behind header before)).0 }
    ensures told { (header : Header) → header.hci ≡ true → (before : List Line) →
        told_behind header before (round_behind header before) ≡ entries_in (world_round (nodes_behind header before)).1 }
    ensures rounds { (header : Header) → header.hci ≡ true → (n : ℕ) (plays : List Play) →
        nodes_behind header (lines_played header (plays ++ replicate n Round)) ≡
        (rounds_of_world n (nodes_behind header (lines_played header plays))).0 }
    ensures rounds_told { (header : Header) → header.hci ≡ true → (n : ℕ) (plays : List Play) →
        told_of_rounds header plays n ≡ entries_in (rounds_of_world n (nodes_behind header (lines_played header plays))).1 }
    ensures settles { (header : Header) → header.hci ≡ true → (n : ℕ) (plays : List Play) →
        told_of_line header plays (Settle n) ≡ entries_in (world_settling n (nodes_behind header (lines_played header plays))).1 ++
        Settled (world_rounds_to_settle n (nodes_behind header (lines_played header plays))) ∷ [] }
    ensures sure { (header : Header) → header.hci ≡ true → (plays : List Play) →
        NoneIsMisread (new_world header.hosts.items) (lines_played header plays) →
        NoneIsMisread (new_world header.hosts.items) (lines_played header (plays ++ Round ∷ [])) }
{}

/// On a bare link the line of an end, where there is one, does what the causes of a line do that has the end take all that stands on its wire.
pub fn lines_of_a_round_do_what_its_causes_do()
    ensures { (h : ℕ) (l : Link) (e : End) → link_after_lines h l (taking_on l e) ≡ link_after_all l (causes_in l (Deliver e None)) }
{}
