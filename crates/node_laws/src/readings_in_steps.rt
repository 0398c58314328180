//! What a controller keeps within a step is what is read off all entries until there: where its pass over the ends begins, and over each
//! message that has its turn. Nothing here runs.

ghost use Rattle.std.specs.Prelude.{◌≡◌, ◌∷◌, ◌++◌, ◌-◌, ◌^◌, ℕ, false, true, [], length, min, slice_index, List, None, Some};
ghost use Rattle.std.specs.List.{AllByRecursion};
ghost use Rattle.std.specs.Option.{option_and_then, option_map_or};
ghost use Rattle.trace_model.specs.declared.line.Header.{Header};
ghost use Rattle.trace_model.specs.declared.line.Line.{Line};
ghost use Rattle.trace_model.specs.declared.entry.Entry.{Entry};
ghost use Rattle.gate_answers.specs.Answers.{instruction_in};
ghost use Rattle.journal_laws.specs.Journal.{count_of};
ghost use Rattle.link_laws.specs.machine.Machine.{LinkInput, Message};
ghost use Rattle.link_laws.specs.messages.Links.{Comes};
ghost use Rattle.node_machine.specs.Parts.{NodeView, Port, Running, Work};
ghost use Rattle.node_machine.specs.Carrying.{lack, needs, port_at};
ghost use Rattle.node_machine.specs.Turns.{deeds_of, handles, holds_back, lets_go};
ghost use Rattle.node_machine.specs.Node.NodeInput.{AtEnd, TimePasses};
ghost use Rattle.node_machine.specs.Controller.{controller_deeds, view_for};
ghost use Rattle.node_machine.specs.world.Lines.{Occurrence};
ghost use Rattle.node_machine.specs.world.NodeFilters.{aside_in, commands_in, notice_in, tables_in};
ghost use Rattle.node_machine.specs.world.NodeHistories.{FollowsNodes, NodeHistory, entries_in, node_entries, occurrences_in};
ghost use Rattle.node_machine.specs.world.World.{NodeWorld, all_aged, end_c, input_of, link_to, new_world};
ghost use Rattle.node_laws.specs.kept.Hosts.{AreHosts, IsFew, IsSentByHost};
ghost use Rattle.node_laws.specs.telling.Telling.{world_behind};
ghost use Rattle.node_laws.specs.cuts.Histories.{is_one_of};
ghost use Rattle.node_laws.specs.notices.Notices.{IsKeptNotice};
ghost use Rattle.node_laws.specs.creations.Creations.{KnowsAsRead};
ghost use Rattle.node_laws.specs.views.Errors.{errors_in};
ghost use Rattle.node_laws.specs.views.Views.{IsSameView, view_at};
ghost use Rattle.node_laws.specs.read_steps.Alike.{KnowsTheSame};
ghost use Rattle.node_laws.specs.read_steps.Works.{KeepsInStep, LinksAreRead, ReadsInStep, RunsInStep};
ghost use Rattle.node_laws.specs.passes.Steps.{comes_to_pass, controller_begins};
ghost use Rattle.node_laws.specs.read_steps.Worlds.{ReadsBetween, as_it_ticks};

/// At the end of each event of a history the controller keeps what is read. It asks for hosts from 01 to 07 that are all different, for
/// messages that hosts send, and that no node has more commands than a journal counts.
pub fn histories_keep_what_is_read()
    ensures { (header : Header) (lines : List Line) (t : NodeHistory) → FollowsNodes header lines t → AreHosts header.hosts.items →
        AllByRecursion IsSentByHost lines → IsFew (node_entries t) → (front back : List Occurrence) → occurrences_in t ≡ front ++ back →
        ReadsBetween header.hosts.items (entries_in front) (world_behind (new_world header.hosts.items) front) }
{}

/// In a world whose controller keeps what is read, each step of it begins so: where its pass over the ends begins, and its power isn't cut,
/// its tables, notices, creations, blocks that are set aside, and REC_ERROR are what is read off all entries until there. Something comes
/// to one of its ends; or time passes, behind what was noted of frames that grew too old.
pub fn a_pass_begins_as_is_read()
    ensures comes { (hosts : List ℕ) → AreHosts hosts → (t : List Entry) (w : NodeWorld) → ReadsBetween hosts t w → (r : Running) →
        w.controller ≡ Some r → (h : ℕ) (comes : Comes) (i : LinkInput) → input_of (link_to w.sites h) comes ≡ Some i →
        (comes_to_pass (AtEnd h i) (controller_begins w r h comes)).cut ≡ false →
        ReadsInStep hosts t (comes_to_pass (AtEnd h i) (controller_begins w r h comes)) }
    ensures ticks { (hosts : List ℕ) → AreHosts hosts → (t : List Entry) (w : NodeWorld) → ReadsBetween hosts t w → (r : Running) →
        w.controller ≡ Some r → (comes_to_pass TimePasses (as_it_ticks w r)).cut ≡ false →
        ReadsInStep hosts (t ++ (all_aged w).1) (comes_to_pass TimePasses (as_it_ticks w r)) }
{}

/// So it stays over the handling of each message that came and finds room, unless the power is cut in it, where a message is held, and
/// where none is.
pub fn turns_keep_what_is_read()
    ensures handles { (hosts : List ℕ) → AreHosts hosts → (t : List Entry) (h : ℕ) (m : Message) (rest : List Message) (w : Work) →
        ReadsInStep hosts t w → option_map_or (λ (p : Port). p.side.got) (port_at w.ports h) [] ≡ m ∷ rest →
        lack w.ports (needs h (deeds_of w.core w.ports h m)) ≡ None → (handles h m (deeds_of w.core w.ports h m) w).cut ≡ false →
        ReadsInStep hosts t (handles h m (deeds_of w.core w.ports h m) w) }
    ensures holds { (hosts : List ℕ) → AreHosts hosts → (t : List Entry) (h : ℕ) (short : ℕ × ℕ) (w : Work) → ReadsInStep hosts t w →
        ReadsInStep hosts t (holds_back h short w) }
    ensures lets { (hosts : List ℕ) → AreHosts hosts → (t : List Entry) (h : ℕ) (w : Work) → ReadsInStep hosts t w →
        ReadsInStep hosts t (lets_go h w) }
{}

/// So what decides a message at its turn is read off all entries until there: the tables, the notice to each host that isn't answered,
/// whose creations wait and of which pipes, the block that is set aside at each end, REC_ERROR of each end, and, where the sessions of links
/// are read too, the view; and how many commands there are. The notice of a creation names the host that it went to.
pub fn what_decides_a_turn_is_read()
    ensures tables { (hosts : List ℕ) (t : List Entry) (w : Work) → KeepsInStep hosts t w → w.core.tables ≡ tables_in (t ++ w.entries) 0 }
    ensures notices { (hosts : List ℕ) → AreHosts hosts → (t : List Entry) (w : Work) → KeepsInStep hosts t w → (h : ℕ) →
        IsKeptNotice (notice_in (t ++ w.entries) h) (option_and_then (λ (p : Port). p.desk.notice) (port_at w.ports h)) }
    ensures creations { (hosts : List ℕ) → AreHosts hosts → (t : List Entry) (w : Work) → KeepsInStep hosts t w →
        KnowsAsRead hosts (t ++ w.entries) w.ports }
    ensures asides { (hosts : List ℕ) → AreHosts hosts → (t : List Entry) (w : Work) → KeepsInStep hosts t w → (h : ℕ) (p : Port) →
        port_at w.ports h ≡ Some p → aside_in (t ++ w.entries) (end_c h) ≡ p.side.aside }
    ensures errors { (hosts : List ℕ) → AreHosts hosts → (t : List Entry) (w : Work) → KeepsInStep hosts t w → (h : ℕ) (p : Port) →
        port_at w.ports h ≡ Some p → p.desk.errors ≡ errors_in (t ++ w.entries) (end_c h) }
    ensures view { (hosts : List ℕ) → AreHosts hosts → (t : List Entry) (w : Work) → KeepsInStep hosts t w →
        LinksAreRead hosts (t ++ w.entries) w.ports → (h : ℕ) → is_one_of hosts h ≡ true →
        IsSameView (view_for w.core.tables w.ports h) (view_at hosts (t ++ w.entries) h) }
    ensures count { (hosts : List ℕ) (t : List Entry) (w : Work) → RunsInStep hosts t w →
        count_of w.core.journal ≡ min (length (commands_in (t ++ w.entries) 0)) (2 ^ 32 - 1) }
    ensures names { (hosts : List ℕ) (t : List Entry) (w : Work) → ReadsInStep hosts t w → (h : ℕ) (message : List ℕ) →
        notice_in (t ++ w.entries) h ≡ Some message → instruction_in message ≡ 18 → slice_index message 3 ≡ h }
{}

/// Two controllers that know the same do the same with a message.
pub fn controllers_that_know_the_same_do_the_same()
    ensures { (v u : NodeView) (h : ℕ) → KnowsTheSame v u h → (m : Message) → controller_deeds v h m ≡ controller_deeds u h m }
{}
