//! The law of one link carried to the links of a world of nodes: whatever lines are played, each link is a run of the law of one
//! link, and what holds of such runs holds of it. And notices go over links that are up. Nothing here runs.

ghost use Rattle.std.specs.Prelude.{◌≡◌, ◌∷◌, ℕ, false, is_some, List, Some};
ghost use Rattle.std.specs.List.{AllByRecursion};
ghost use Rattle.swp_base.specs.declared.link_terms.Cause.TheVariants.{Chain};
ghost use Rattle.shdlc_core.specs.declared.answers.LinkState.TheVariants.{Up};
ghost use Rattle.trace_model.specs.declared.line.Line.{Line};
ghost use Rattle.link_laws.specs.sessions.Sessions.{OnWire};
ghost use Rattle.link_laws.specs.machine.Machine.{LinkEnd, LinkInput, Message, after_input, ended_by};
ghost use Rattle.link_laws.specs.machine.Machine.LinkInput.{Take};
ghost use Rattle.link_laws.specs.messages.Links.{LinkEvent, number_of, talk_now, talk_of};
ghost use Rattle.link_laws.specs.messages.Order.{InOrder};
ghost use Rattle.link_laws.specs.messages.Quiet.{AllDelivered, IsQuiet, losses_of};
ghost use Rattle.link_laws.specs.messages.Settled.{AreUpTogether, IsSettled, sure_of};
ghost use Rattle.node_machine.specs.Parts.{Core, Port, Work};
ghost use Rattle.node_machine.specs.Carrying.{port_at};
ghost use Rattle.node_machine.specs.Controller.{controller_deeds, view_of};
ghost use Rattle.node_machine.specs.Node.{NodeInput, steps};
ghost use Rattle.node_machine.specs.world.World.{Site, new_world};
ghost use Rattle.node_laws.specs.links.Notices.{AllReach, IsBegun, IsComing, IsNoticedUp, IsOutside, OnFirst};
ghost use Rattle.node_laws.specs.links.Runs.{ArePlayable, IsRun, IsRunOf, SharesOut, new_line};
ghost use Rattle.node_machine.specs.world.NodeHistories.{world_after};

/// Whatever lines are played in a world of nodes, the link of each host is what some events of the law of one link make of a new
/// link with activation, and each of them may happen: what nodes send may be sent, a UICC begins activation only while its CLF isn't
/// active, and a tick in which a notice is late is such an event too.
pub fn each_link_is_a_run_of_the_law_of_one_link()
    ensures { (hosts : List ℕ) (lines : List Line) → ArePlayable lines →
        AllByRecursion (λ (s : Site). IsRun s.link) (world_after (new_world hosts) lines).sites }
{}

/// On each link of such a world, in each session, the messages that an end got are a front of the good ones that the other end was
/// given in the session of this number, and what counts as acknowledged was got.
pub fn messages_come_in_order_on_each_link()
    ensures to_host { (hosts : List ℕ) (lines : List Line) → ArePlayable lines →
        AllByRecursion (λ (s : Site). (n : ℕ) → InOrder (talk_of s.link.controller n) (talk_of s.link.host n)) (world_after (new_world hosts) lines).sites }
    ensures to_controller { (hosts : List ℕ) (lines : List Line) → ArePlayable lines →
        AllByRecursion (λ (s : Site). (n : ℕ) → InOrder (talk_of s.link.host n) (talk_of s.link.controller n)) (world_after (new_world hosts) lines).sites }
{}

/// No frame that is on its way on a link of such a world ends a session by a chain fault, whatever was lost and whichever node lost
/// its power.
pub fn no_chain_fault_comes_on_any_link()
    ensures controller { (hosts : List ℕ) (lines : List Line) → ArePlayable lines →
        AllByRecursion (λ (s : Site). (x : OnWire) (xs : List OnWire) → s.link.to_controller ≡ x ∷ xs →
        ended_by s.link.controller.side (Take x.frame) ≡ Some Chain → ⊥) (world_after (new_world hosts) lines).sites }
    ensures host { (hosts : List ℕ) (lines : List Line) → ArePlayable lines →
        AllByRecursion (λ (s : Site). (x : OnWire) (xs : List OnWire) → s.link.to_host ≡ x ∷ xs →
        ended_by s.link.host.side (Take x.frame) ≡ Some Chain → ⊥) (world_after (new_world hosts) lines).sites }
{}

/// Two ends of a link of such a world that are both Up are Up with one number.
pub fn ends_of_each_link_agree_on_the_session()
    ensures { (hosts : List ℕ) (lines : List Line) → ArePlayable lines →
        AllByRecursion (λ (s : Site). s.link.controller.side.shdlc.phase ≡ Up → s.link.host.side.shdlc.phase ≡ Up →
        number_of s.link.controller ≡ number_of s.link.host) (world_after (new_world hosts) lines).sites }
{}

/// Where both ends of a link of such a world are Up in one session, no frame but of activation was lost and no RNR made since the
/// first of them came up in it, and both wires hold none but of activation, the messages that an end got are the good ones that the
/// other end was given in it, and all that it was given are acknowledged.
pub fn quiet_links_have_delivered_all()
    ensures to_host { (hosts : List ℕ) (lines : List Line) → ArePlayable lines →
        AllByRecursion (λ (s : Site). (events : List LinkEvent) → IsRunOf events s.link → IsQuiet s.link (losses_of new_line events) →
        AllDelivered (talk_now s.link.controller.side) (talk_now s.link.host.side)) (world_after (new_world hosts) lines).sites }
    ensures to_controller { (hosts : List ℕ) (lines : List Line) → ArePlayable lines →
        AllByRecursion (λ (s : Site). (events : List LinkEvent) → IsRunOf events s.link → IsQuiet s.link (losses_of new_line events) →
        AllDelivered (talk_now s.link.host.side) (talk_now s.link.controller.side)) (world_after (new_world hosts) lines).sites }
{}

/// Where a reset put an RSET on a link of such a world while the other end wasn't Waiting, and since then no frame was lost but of
/// activation, no other RSET was sent, activation neither began nor ended, no end that isn't active took a frame, no node lost
/// power, and both wires hold no frame but of activation, both ends are Up with one number.
pub fn resets_bring_both_ends_up()
    ensures { (hosts : List ℕ) (lines : List Line) → ArePlayable lines →
        AllByRecursion (λ (s : Site). (events : List LinkEvent) → IsRunOf events s.link → IsSettled s.link (sure_of new_line events) →
        AreUpTogether s.link) (world_after (new_world hosts) lines).sites }
{}

/// The blocks in use at each end of a link of such a world, those set aside and those that are spare are 128.
pub fn blocks_of_each_end_are_shared_out()
    ensures controller { (hosts : List ℕ) (lines : List Line) → ArePlayable lines →
        AllByRecursion (λ (s : Site). SharesOut s.link.controller.side) (world_after (new_world hosts) lines).sites }
    ensures host { (hosts : List ℕ) (lines : List Line) → ArePlayable lines →
        AllByRecursion (λ (s : Site). SharesOut s.link.host.side) (world_after (new_world hosts) lines).sites }
{}

/// Whatever message of a host a controller handles, it asks and tells by a notice only hosts whose links are up; and an end that
/// is up stays so over whatever comes to it that doesn't end its session.
pub fn notices_go_over_links_that_are_up()
    ensures sent { (core : Core) (ports : List Port) (h : ℕ) (m : Message) → AllReach ports (controller_deeds (view_of core ports) h m) }
    ensures kept { (e : LinkEnd) (i : LinkInput) → IsComing i → e.shdlc.phase ≡ Up → is_some (ended_by e i) ≡ false →
        (after_input e i).shdlc.phase ≡ Up }
{}

/// In each step of a controller, where each end had a notice that isn't answered only while it was up, so it is after the step:
/// with the session of an end its notice is dropped, and at the hundredth tick its link is reset and the notice dropped too.
pub fn unanswered_notices_stand_at_ends_that_are_up()
    ensures { (input : NodeInput) (w : Work) → IsOutside input → w.core.node ≡ 0 → ((x : ℕ) → OnFirst IsBegun (port_at w.ports x)) →
        (x : ℕ) → OnFirst IsNoticedUp (port_at (steps input w).ports x) }
{}
