//! What comes to an end of a node, and notices there that aren't answered in time.
use crate::node::{InBuffer, MESSAGE, Node};
use crate::reporting::note;
use link_end::LinkReport;
use swp_base::Nv;
use trace_model::{Entry, Octets, Watch};

impl<N: Nv + Drop> Node<N> {
    ghost use Rattle.std.specs.Prelude.{◌≡◌, if◌then◌else◌, List, map, Some, None, slice_get, ℕ, []};
    ghost use Rattle.std.specs.List.{flat_map};
    ghost use Rattle.trace_model.specs.declared.entry.Entry.{Entry as Noted};
    ghost use Rattle.node_machine.specs.Parts.{Port, Work, Core};
    ghost use Rattle.node_machine.specs.Carrying.{noting, own_side, port_at};
    ghost use Rattle.node_machine.specs.Node.{with_older, reset_late, told_late, times_out, all_come};
    ghost use Rattle.node_machine.specs.Node.NodeInput.{TimePasses, AtEnd};
    ghost use Rattle.node_ends.specs.Ends.{EndsStandFor, FewAreDue, at_place, got_at};
    ghost use Rattle.node_core.specs.Nodes.{IsInStep, CarriesUnseen, IsInSomeStep, CarriesWhere, LiesInBuffer};
    ghost use Rattle.node_core.specs.Turning.{AreFewDue, AreYoung};
    ghost use Rattle.std.specs.Option.{option_map_or};
    ghost use Rattle.link_laws.specs.machine.Machine.{Report, whole_acked};
    ghost use Rattle.link_laws.specs.machine.Machine.LinkInput.{Tick};
    ghost use Rattle.link_laws.specs.entries.Entries.{told};
    ghost use Rattle.link_laws.specs.entries.Entries.Entry.{Got};
    ghost use Rattle.history.specs.Steps.{entries_for};
    ghost use Rattle.link_end.specs.Reports.{report_told};
    ghost use Rattle.node_ends.specs.Holding.{kept_number};
    ghost use Rattle.node_core.specs.Noting.{AreNotes, unnumbered};

    // The message that came to the end of the link with this host, where one did, is noted: it lies in the front of the buffer then.
    fn note_message<W: Watch>(
        &self,
        host: u8,
        came: bool,
        buffer: &mut [u8; MESSAGE],
        watch: &mut W,
    ) -> Option<InBuffer>
        ensures lies { LiesInBuffer self.now.ends buffer.new result }
        ensures notes { (ports : List Port) (core : Core) → EndsStandFor self.now.ends ports → core.node ≡ self.now.number
            → AreNotes (W.is_short watch.old) (W.is_short watch.new) (W.noted watch.old) (W.noted watch.new)
            (entries_for host (map (Got (own_side core) 0) (if came then got_at ports host else []))) }
    {
        if !came {
            return None;
        }
        let Some((pipe, len)) = self.ends.read(host, buffer) else {
            return None;
        };
        let got = Entry::Got {
            at: self.end_at(host),
            session: 0,
            pid: pipe,
            message: Octets::new(self.alloc),
        };
        note(watch, got, &buffer[..len]);
        Some(InBuffer {
            host,
            pipe,
            len: len as u16,
        })
    }

    // What an input at the end of the link with this host did is noted, with the message that it brought. That message, where one came, lies
    // in the front of the buffer then.
    #[inline(never)]
    fn note_news<W: Watch>(
        &self,
        host: u8,
        report: &LinkReport,
        buffer: &mut [u8; MESSAGE],
        watch: &mut W,
    ) -> Option<InBuffer>
        ensures lies { LiesInBuffer self.now.ends buffer.new result }
        ensures notes { (ports : List Port) (core : Core) (x : Report) (n acked : ℕ) → EndsStandFor self.now.ends ports → core.node ≡ self.now.number
            → report.now ≡ report_told x → option_map_or (λ (p : Port). kept_number (whole_acked p.side)) (port_at ports host) 0 ≡ kept_number acked
            → x.got ≡ (if report.now.got then got_at ports host else [])
            → AreNotes (W.is_short watch.old) (W.is_short watch.new) (W.noted watch.old) (W.noted watch.new)
            (map unnumbered (entries_for host (told (own_side core) n x acked))) }
    {
        let at = self.end_at(host);
        if let Some(cause) = report.ended {
            note(watch, Entry::Down { at, cause }, &[]);
        }
        if report.began {
            note(watch, Entry::Up { at, session: 0 }, &[]);
        }
        if report.became_active {
            note(watch, Entry::Active { at }, &[]);
        }
        if let Some(tries) = report.gave_up {
            note(watch, Entry::GaveUp { at, tries }, &[]);
        }
        if report.acked > 0 {
            let session = 0;
            let count = self.ends.acked(host);
            note(watch, Entry::Acked { at, session, count }, &[]);
        }
        self.note_message(host, report.got, buffer, watch)
    }

    // What an input at the end of the link with this host did is noted, where anything of it is, with the message that it brought. That
    // message, where one came, lies in the front of the buffer then.
    #[inline(always)]
    pub(crate) fn note_input<W: Watch>(
        &self,
        host: u8,
        report: &LinkReport,
        buffer: &mut [u8; MESSAGE],
        watch: &mut W,
    ) -> Option<InBuffer>
        ensures lies { LiesInBuffer self.now.ends buffer.new result }
        ensures notes { (ports : List Port) (core : Core) (x : Report) (n acked : ℕ) → EndsStandFor self.now.ends ports → core.node ≡ self.now.number
            → report.now ≡ report_told x → option_map_or (λ (p : Port). kept_number (whole_acked p.side)) (port_at ports host) 0 ≡ kept_number acked
            → x.got ≡ (if report.now.got then got_at ports host else [])
            → AreNotes (W.is_short watch.old) (W.is_short watch.new) (W.noted watch.old) (W.noted watch.new)
            (map unnumbered (entries_for host (told (own_side core) n x acked))) }
    {
        if report.ended.is_none()
            && !report.began
            && !report.became_active
            && report.gave_up.is_none()
            && report.acked == 0
            && !report.got
        {
            return None;
        }
        self.note_news(host, report, buffer, watch)
    }

    // A tick comes to the end at this place, where there is one, and what it did is noted. At most six control frames wait there to be
    // sent.
    fn tick_at<W: Watch>(&mut self, i: usize, buffer: &mut [u8; MESSAGE], watch: &mut W)
        requires may { IsInSomeStep W.noted W.is_short (self.old, watch.old) (λ w. FewAreDue (slice_get w.ports i)) }
        ensures carried { (start : List Noted) (w : Work) (p : Port) → IsInStep self.old (W.noted watch.old) (W.is_short watch.old) start w
            → slice_get w.ports i ≡ Some p → IsInStep self.new (W.noted watch.new) (W.is_short watch.new) start (all_come (AtEnd p.desk.host Tick) w) }
        ensures none { CarriesWhere (λ w. slice_get w.ports i ≡ None) W.noted W.is_short (self.old, watch.old) (self.new, watch.new) (λ w. w) }
        ensures store { self.new.store ≡ self.old.store }
        ensures number { self.new.number ≡ self.old.number }
    {
        let Some(host) = self.ends.host(i) else {
            return;
        };
        let mut told = None;
        self.ends.tick(i, &mut told);
        let Some(report) = &told else {
            return;
        };
        self.note_input(host, report, buffer, watch);
    }

    /// Time passes at all ends, one after another, and what it did there is noted. At most six control frames wait at each to be sent.
    pub(crate) fn time_passes<W: Watch>(&mut self, buffer: &mut [u8; MESSAGE], watch: &mut W)
        requires may { IsInSomeStep W.noted W.is_short (self.old, watch.old) (λ w. AreFewDue w.ports) }
        ensures carried { CarriesWhere (λ w. AreFewDue w.ports) W.noted W.is_short (self.old, watch.old) (self.new, watch.new) (all_come TimePasses) }
        ensures store { self.new.store ≡ self.old.store }
        ensures number { self.new.number ≡ self.old.number }
    {
        for i in 0..self.ends.count() {
            self.tick_at(i, buffer, watch);
        }
    }

    // The notices of all ends are a tick older; each has fewer than 255 ticks.
    fn grow_older(&mut self)
        requires young { (ports : List Port) × EndsStandFor self.old.ends ports × AreYoung ports }
        ensures carried { CarriesUnseen self.old self.new (λ w. record w { ports = map with_older w.ports }) }
        ensures store { self.new.store ≡ self.old.store }
        ensures number { self.new.number ≡ self.old.number }
    {
        for i in 0..self.ends.count() {
            self.ends.grow_older(i);
        }
    }

    // The link of the end at this place is reset, where its notice is late, and what that did is noted. At most six control frames wait
    // there to be sent.
    fn reset_late_at<W: Watch>(&mut self, i: usize, buffer: &mut [u8; MESSAGE], watch: &mut W)
        requires may { IsInSomeStep W.noted W.is_short (self.old, watch.old) (λ w. FewAreDue (slice_get w.ports i)) }
        ensures carried { (start : List Noted) (w : Work) (p : Port) → IsInStep self.old (W.noted watch.old) (W.is_short watch.old) start w
            → slice_get w.ports i ≡ Some p → IsInStep self.new (W.noted watch.new) (W.is_short watch.new) start
            (noting (told_late w.core p) (record w { ports = at_place i reset_late w.ports })) }
        ensures none { CarriesWhere (λ w. slice_get w.ports i ≡ None) W.noted W.is_short (self.old, watch.old) (self.new, watch.new) (λ w. w) }
        ensures store { self.new.store ≡ self.old.store }
        ensures number { self.new.number ≡ self.old.number }
    {
        let Some(host) = self.ends.host(i) else {
            return;
        };
        let Some(report) = self.ends.reset_late(i) else {
            return;
        };
        self.note_input(host, &report, buffer, watch);
    }

    // The links of late notices are reset, one after another, and what that did is noted.
    fn reset_late<W: Watch>(&mut self, buffer: &mut [u8; MESSAGE], watch: &mut W)
        requires may { IsInSomeStep W.noted W.is_short (self.old, watch.old) (λ w. AreFewDue w.ports) }
        ensures carried { CarriesWhere (λ w. AreFewDue w.ports) W.noted W.is_short (self.old, watch.old) (self.new, watch.new)
            (λ w. noting (flat_map (told_late w.core) w.ports) (record w { ports = map reset_late w.ports })) }
        ensures store { self.new.store ≡ self.old.store }
        ensures number { self.new.number ≡ self.old.number }
    {
        for i in 0..self.ends.count() {
            self.reset_late_at(i, buffer, watch);
        }
    }

    // Notices are a tick older, and the links of those that are late are reset, which is noted. At most six control frames wait at each
    // end to be sent, and notices have fewer than 255 ticks.
    #[cold]
    #[inline(never)]
    fn notices_time_out<W: Watch>(&mut self, buffer: &mut [u8; MESSAGE], watch: &mut W)
        requires may { IsInSomeStep W.noted W.is_short (self.old, watch.old) (λ w. AreFewDue w.ports × AreYoung w.ports) }
        ensures carried { CarriesWhere (λ w. AreFewDue w.ports) W.noted W.is_short (self.old, watch.old) (self.new, watch.new) (times_out TimePasses) }
        ensures store { self.new.store ≡ self.old.store }
        ensures number { self.new.number ≡ self.old.number }
    {
        self.grow_older();
        self.reset_late(buffer, watch);
    }

    /// Time has passed: notices are a tick older, and the links of those that are late are reset, which is noted. At most six control
    /// frames wait at each end to be sent, and notices have fewer than 255 ticks.
    pub(crate) fn times_out<W: Watch>(&mut self, buffer: &mut [u8; MESSAGE], watch: &mut W)
        requires may { IsInSomeStep W.noted W.is_short (self.old, watch.old) (λ w. AreFewDue w.ports × AreYoung w.ports) }
        ensures carried { CarriesWhere (λ w. AreFewDue w.ports) W.noted W.is_short (self.old, watch.old) (self.new, watch.new) (times_out TimePasses) }
        ensures store { self.new.store ≡ self.old.store }
        ensures number { self.new.number ≡ self.old.number }
    {
        if !self.ends.have_notices() {
            return;
        }
        self.notices_time_out(buffer, watch);
    }
}
