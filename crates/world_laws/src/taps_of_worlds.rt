//! The law of a passive tap on a link of a world of nodes. There is no code here that runs.

ghost use Rattle.std.specs.Prelude.{◌≡◌, ◌++◌, ℕ, false, List};
ghost use Rattle.std.specs.List.{list_any};
ghost use Rattle.trace_model.specs.declared.line.Header.{Header};
ghost use Rattle.trace_model.specs.declared.line.Line.{Line};
ghost use Rattle.node_machine.specs.world.Lines.{Occurrence};
ghost use Rattle.node_machine.specs.world.NodeHistories.{FollowsNodes, NodeHistory, entries_in, occurrences_in};
ghost use Rattle.node_laws.specs.kept.Hosts.{AreHosts};
ghost use Rattle.node_laws.specs.links.Runs.{ArePlayable};
ghost use Rattle.node_laws.specs.order.Resets.{cuts_on};
ghost use Rattle.tap_reading.specs.Lpdus.{tapped_lpdus};
ghost use Rattle.world_laws.specs.histories.Tapping.{gots_on, lpdus_on};

/// At the end of each event of a history of hosts from 01 to 07 that are all different, where neither node of a link lost its power until
/// then, what a new tap reports over the frames that both ends put on the link are the messages that they got until then, with end,
/// session, pipe and bytes, in order, and nothing else. Whether a node lost its power is read off the entries.
pub fn tap_reports_what_was_got()
    ensures { (header : Header) (lines : List Line) (t : NodeHistory) → FollowsNodes header lines t → AreHosts header.hosts.items →
        ArePlayable lines → (front back : List Occurrence) → occurrences_in t ≡ front ++ back → (h : ℕ) →
        list_any (cuts_on h) (entries_in front) ≡ false →
        tapped_lpdus false (lpdus_on h (entries_in front)) ≡ gots_on h (entries_in front) }
{}
