//! The law of histories: whatever follows a schedule is legal. Nothing here runs.

ghost use Rattle.std.specs.Prelude.{◌≡◌, ◌++◌, false, List};
ghost use Rattle.std.specs.List.{list_any, AllByRecursion};
ghost use Rattle.trace_model.specs.declared.line.End.{End};
ghost use Rattle.trace_model.specs.declared.line.Header.{Header};
ghost use Rattle.trace_model.specs.declared.line.Line.{Line};
ghost use Rattle.trace_model.specs.Lines.{IsHeader, IsLineOf};
ghost use Rattle.shdlc_core.specs.Machine.{is_waiting};
ghost use Rattle.history.specs.Histories.{Event, History, all_entries, all_events, causes_of, entries_of};
ghost use Rattle.history.specs.Follows.{Follows, host_of, machine_of};
ghost use Rattle.history.specs.Steps.{bare_link, link_after_all};
ghost use Rattle.history.specs.Legal.{Complete, Prefix, Settled, is_chain_fault, waits_in};

/// In each history of a bare world that follows a schedule each end has got, at each moment and in each session, a front of the
/// good messages that the other sent in it; the good ones among those that count as acknowledged are a front of what the other got;
/// and no more count than were sent. No session ends by packets that can't be joined. At the end of each event a quiet link, on
/// which both ends are up with one number, both wires are empty, and since the first of them came up with it no frame was lost
/// and no RNR put, has delivered all, and all is acknowledged. And a reset of an end while the other one doesn't wait for the answer to
/// one has brought both up with one number, once both wires are empty and no frame was lost and no other RSET put on the link since then.
pub fn every_history_is_legal()
    ensures in_order { (header : Header) (lines : List Line) (t : History) → AllByRecursion (IsLineOf header) lines → IsHeader header
        → Follows header lines t → Prefix t }
    ensures joined { (header : Header) (lines : List Line) (t : History) → AllByRecursion (IsLineOf header) lines → IsHeader header
        → Follows header lines t → list_any is_chain_fault (all_entries t) ≡ false }
    ensures complete { (header : Header) (lines : List Line) (t : History) → AllByRecursion (IsLineOf header) lines → IsHeader header
        → Follows header lines t → Complete t }
    ensures settled { (header : Header) (lines : List Line) (t : History) → AllByRecursion (IsLineOf header) lines → IsHeader header
        → Follows header lines t → Settled t }
{}

/// In each history of a bare world that follows a schedule an end waits for the answer to a reset, behind any of its events, exactly where
/// that is read off the entries until then: RSET went out of it, and since then neither its session began nor it gave up.
pub fn ends_wait_as_is_read()
    ensures waits { (header : Header) (lines : List Line) (t : History) → AllByRecursion (IsLineOf header) lines → IsHeader header
        → Follows header lines t → (front back : List Event) → all_events t ≡ front ++ back → (e : End) → e.link ≡ host_of header
        → waits_in (t.opening ++ entries_of front) e ≡ is_waiting (machine_of (link_after_all bare_link (causes_of front)) e).shdlc }
{}
