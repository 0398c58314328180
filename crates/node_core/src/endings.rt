//! What is settled behind what came in a step: what ends with sessions, what is owed then, and the identifiers that came.
use crate::node::Node;
use crate::running::Ran;
use arrayvec::ArrayVec;
use gate_answers::{Response, refused};
use hci_tables::Command;
use node_deeds::Tasks;
use swp_base::Nv;
use trace_model::Watch;

impl<N: Nv + Drop> Node<N> {
    ghost use Rattle.std.specs.Prelude.{◌≡◌, ◌≤◌, ◌∷◌, false, List, [], map, slice_get, IfSome, IsTrue};
    ghost use Rattle.std.specs.Option.{option_map_or};
    ghost use Rattle.std.specs.List.{flat_map, filter};
    ghost use Rattle.node_machine.specs.Parts.{Port};
    ghost use Rattle.node_machine.specs.Node.{after_sessions, forgets, without_notice, forgotten, owed};
    ghost use Rattle.node_ends.specs.Ends.{EndsStandFor};
    ghost use Rattle.node_core.specs.Nodes.{CarriesUnseen, IsUsable, CarriesOut, Carries};
    ghost use Rattle.node_core.specs.Running.{ran_so};
    ghost use Rattle.gate_answers.specs.declared.response.Response.{Response as Code};
    ghost use Rattle.node_machine.specs.Carrying.{all_done};
    ghost use Rattle.node_core.specs.Faults.{CountsFaults};
    ghost use Rattle.node_core.specs.Syncing.{sync_kept, settles};
    ghost use Rattle.node_machine.specs.Parts.Deed.{Releases};
    ghost use Rattle.node_machine.specs.Controller.{asked_at};
    ghost use Rattle.node_core.specs.Owing.{freed_at, answers_owed, has_ended_so, owed_at};

    // Where the session of an end has ended in this step, a host has nothing under way any more.
    fn drop_tasks(&mut self)
        ensures carried { CarriesUnseen self.old self.new (λ w. record w { core = after_sessions w.core w.ports }) }
        ensures store { self.new.store ≡ self.old.store }
        ensures number { self.new.number ≡ self.old.number }
    {
        if self.ends.have_ended() {
            self.tasks = Tasks {
                command: None,
                init: None,
            };
        }
    }

    // The creations whose askers have lost their sessions in this step are forgotten.
    fn forget(&mut self)
        ensures carried { CarriesUnseen self.old self.new (λ w. record w { ports = map (forgets w.ports) w.ports }) }
        ensures store { self.new.store ≡ self.old.store }
        ensures number { self.new.number ≡ self.old.number }
    {
        for i in 0..7 {
            self.ends.forget(i);
        }
    }

    // Where the session of an end has ended in this step, its notice is answered no more.
    fn drop_notices(&mut self)
        ensures carried { CarriesUnseen self.old self.new (λ w. record w { ports = map without_notice w.ports }) }
        ensures store { self.new.store ≡ self.old.store }
        ensures number { self.new.number ≡ self.old.number }
    {
        for i in 0..7 {
            self.ends.drop_notice(i);
        }
    }

    // The identifier that came from the UICC of a host, 01 to 07, where one did, is kept, unless it is the one that is kept or there is no
    // room for it.
    #[cold]
    #[inline(never)]
    #[tactic(auto, using(crate::proofs::Faults::faults_stay, crate::proofs::Faults::faults_then))]
    fn keep_sync<W: Watch>(&mut self, came: Option<(u8, u16)>, watch: &mut W) -> Ran
        requires usable { IsUsable self.old.store }
        requires live { IsTrue self.old.store.journal.live }
        requires host { IfSome came (λ pair. (1 ≤ pair.0) × (pair.0 ≤ 7)) }
        ensures carried { CarriesOut N.writes W.noted W.is_short (self.old, watch.old) (self.new, watch.new)
            (all_done 0 (sync_kept self.old.store.journal.state self.old.store.tables came)) }
        ensures ran { result ≡ ran_so self.new.store.journal.live }
        ensures faults { CountsFaults N.faults self.old.store self.new.store }
        ensures number { self.new.number ≡ self.old.number }
        ensures usable { IsUsable self.new.store }
    {
        let Some((host, id)) = came else {
            return Ran::Done;
        };
        if self.store.tables().is_kept(host, id) {
            return Ran::Done;
        }
        let sync = Command::Sync { host, id };
        if !self.store.room(&sync) {
            return Ran::Done;
        }
        self.commit(&sync, watch)
    }

    // The asker of the creation that waits at the end at this place, where it is forgotten since the asker's session ended in this step.
    fn forgotten_at(&self, i: usize) -> Option<u8>
        ensures { (ports : List Port) → EndsStandFor self.now.ends ports
            → option_map_or (λ asker. Releases asker ∷ []) result [] ≡ option_map_or (freed_at ports) (slice_get ports i) [] }
    {
        let Some(desk) = self.ends.desk(i) else {
            return None;
        };
        let Some(row) = desk.awaited() else {
            return None;
        };
        if self.ends.is_over(row.creator) {
            Some(row.creator)
        } else {
            None
        }
    }

    /// The askers whose creations are forgotten, since their sessions ended in this step.
    fn forgotten(&self) -> ArrayVec<u8, 7>
        ensures { (ports : List Port) → EndsStandFor self.now.ends ports → map Releases result.items ≡ forgotten ports }
    {
        let mut askers = ArrayVec::new();
        for i in 0..7 {
            if let Some(asker) = self.forgotten_at(i) {
                askers.push(asker);
            }
        }
        askers
    }

    /// The blocks that were set aside for these askers, where they were, are free.
    fn release_all(&mut self, askers: &[u8])
        requires live { IsTrue self.old.store.journal.live }
        ensures carried { CarriesUnseen self.old self.new (all_done 0 (map Releases askers.now)) }
        ensures store { self.new.store ≡ self.old.store }
        ensures number { self.new.number ≡ self.old.number }
    {
        for asker in askers {
            self.ends.release(*asker);
        }
    }

    // Whether the session of the end at this place ended in this step, as its notice was late or otherwise.
    fn has_ended_so(&self, i: usize, late: bool) -> bool
        ensures { (ports : List Port) → EndsStandFor self.now.ends ports
            → result ≡ option_map_or (has_ended_so late) (slice_get ports i) false }
    {
        if late {
            self.ends.was_late(i)
        } else {
            self.ends.has_ended(i)
        }
    }

    // The asker of the creation that waits at the end at this place, where the session of that end ended so in this step.
    fn owed_at(&self, i: usize, late: bool) -> Option<u8>
        ensures { (ports : List Port) (r : Code) → EndsStandFor self.now.ends ports
            → option_map_or (answers_owed r) result [] ≡ option_map_or (owed_at late r) (slice_get ports i) [] }
    {
        if !self.has_ended_so(i, late) {
            return None;
        }
        let Some(desk) = self.ends.desk(i) else {
            return None;
        };
        match desk.awaited() {
            Some(row) => Some(row.creator),
            None => None,
        }
    }

    /// The askers to whom an answer is owed, since the session of the host that is asked ended in this step, as its notice was late or
    /// otherwise.
    fn owed(&self, late: bool) -> ArrayVec<u8, 7>
        ensures { (ports : List Port) (r : Code) → EndsStandFor self.now.ends ports
            → flat_map (answers_owed r) result.items ≡ flat_map (λ p. owed r (asked_at p)) (filter (has_ended_so late) ports) }
    {
        let mut askers = ArrayVec::new();
        for i in 0..7 {
            if let Some(asker) = self.owed_at(i, late) {
                askers.push(asker);
            }
        }
        askers
    }

    /// These askers get this answer, and the blocks that were set aside for it are free.
    fn answer_all<W: Watch>(&mut self, askers: &[u8], response: Response, watch: &mut W)
        requires live { IsTrue self.old.store.journal.live }
        ensures carried { Carries W.noted W.is_short (self.old, watch.old) (self.new, watch.new) (all_done 0 (flat_map (answers_owed response) askers.now)) }
        ensures store { self.new.store ≡ self.old.store }
        ensures number { self.new.number ≡ self.old.number }
    {
        for asker in askers {
            self.ends.release(*asker);
            let _ = self.send(*asker, 1, refused(response).as_slice(), watch);
        }
    }

    /// What is left to settle behind what came in a step. Where sessions ended in it, the creations of their askers are forgotten and their
    /// blocks free, no notice to their hosts is answered any more, and those who asked for creations there get their answers. The identifier
    /// that came with its host, where one did, is kept.
    #[cold]
    #[inline(never)]
    #[tactic(auto, using(crate::proofs::Faults::faults_stay, crate::proofs::Faults::faults_then))]
    pub(crate) fn settle_sessions<W: Watch>(
        &mut self,
        came: Option<(u8, u16)>,
        watch: &mut W,
    ) -> Ran
        requires usable { IsUsable self.old.store }
        requires live { IsTrue self.old.store.journal.live }
        requires host { IfSome came (λ pair. (1 ≤ pair.0) × (pair.0 ≤ 7)) }
        ensures carried { CarriesOut N.writes W.noted W.is_short (self.old, watch.old) (self.new, watch.new)
            (settles (sync_kept self.old.store.journal.state self.old.store.tables came)) }
        ensures ran { result ≡ ran_so self.new.store.journal.live }
        ensures faults { CountsFaults N.faults self.old.store self.new.store }
        ensures number { self.new.number ≡ self.old.number }
        ensures usable { IsUsable self.new.store }
    {
        let freed = self.forgotten();
        self.drop_tasks();
        self.forget();
        let ended = self.owed(false);
        let late = self.owed(true);
        self.drop_notices();
        self.release_all(freed.as_slice());
        if !self.keep_sync(came, watch).is_done() {
            return Ran::Stopped;
        }
        self.answer_all(ended.as_slice(), Response::NotConnected, watch);
        self.answer_all(late.as_slice(), Response::Timeout, watch);
        Ran::Done
    }
}
