//! What a node does with a message, in rows: when each applies and what is done then. The first one that applies says what is done. Nothing
//! here runs.

ghost use Rattle.std.specs.Prelude.{◌≡◌, ◌==◌, ℕ, false, List, IsTrue};
ghost use Rattle.std.specs.List.{AllByRecursion};
ghost use Rattle.trace_model.specs.declared.line.End.{End};
ghost use Rattle.link_laws.specs.machine.Machine.{Message};
ghost use Rattle.node_machine.specs.Parts.{NodeView};
ghost use Rattle.node_machine.specs.Turns.{deeds_for};
ghost use Rattle.node_machine.specs.world.World.{node_of};
ghost use Rattle.node_laws.specs.answers.Moments.{Moment, reply, view_read};
ghost use Rattle.node_laws.specs.answers.Rows.{answer_rows, first_row};
ghost use Rattle.node_laws.specs.answers.Rules.{IsSentAsAllowed, IsAskedAsAllowed, commits_first};

/// What a node does with a message that came at the end with the host h, whatever it goes by, is what the first row says that applies; and
/// so it is with the reply that is read off a history.
pub fn the_first_row_that_applies_says_what_is_done()
    ensures done { (v : NodeView) (h : ℕ) (m : Message) → deeds_for v h m ≡ first_row (answer_rows v h m) }
    ensures read { (hosts : List ℕ) (m : Moment) (e : End) (message : Message) →
        reply hosts m e message ≡ first_row (answer_rows (view_read hosts m (node_of e)) e.link message) }
{}

/// What a controller sends as it handles a message of the host h goes back to h, or on: the message itself, relayed on an opened pipe of which
/// h and the other host are the ends while that one's link is up; or it is the answer to a host that asked for a creation to which h answers.
pub fn messages_go_back_or_are_relayed_as_allowed()
    ensures { (v : NodeView) (h : ℕ) (m : Message) → IsTrue (v.own.node == 0) → AllByRecursion (IsSentAsAllowed v h m) (deeds_for v h m) }
{}

/// A controller asks a host for a creation as it handles a command of the host h only where the whitelist of that host holds h, which is the
/// creator, and that host is connected; the pipe is in no row and kept for no other creation.
pub fn creations_are_asked_of_hosts_that_allow_them()
    ensures { (v : NodeView) (h : ℕ) (m : Message) → IsTrue (v.own.node == 0) → AllByRecursion (IsAskedAsAllowed v h) (deeds_for v h m) }
{}

/// As a node handles a message nothing is committed behind a message that it sends, and ANY_OK is said behind a commit and its answer alone: so
/// an answer that a command was done goes out behind its commit.
pub fn any_ok_is_said_behind_its_commit()
    ensures { (v : NodeView) (h : ℕ) (m : Message) → IsTrue (commits_first false false (deeds_for v h m)) }
{}
