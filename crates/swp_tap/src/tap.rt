//! The tap.
ghost use Rattle.std.specs.Prelude.{◌≡◌, ◌<◌, ◌≤◌, ◌+◌, ℕ, Bool, length, IfNone};
ghost use Rattle.swp_base.specs.DataUnits.{IsInfo};
ghost use Rattle.tap_reading.specs.keeping.Keeping.{kept_hears, kept_numbered};
ghost use Rattle.swp_tap.specs.Coming.{news_in};
ghost use Rattle.swp_tap.specs.Hearing.{kept_pair, news_at, news_by, rsets_behind};

use crate::body::Body;
use crate::side::Side;
use arrayvec::ArrayVec;
use std::alloc::Global;
use std::marker::Model;
use swp_base::{Control, Lpdu, NoMemory};
use swp_lpdu::read_lpdu;

/// What is told of one message that an end has got, before its bytes.
#[derive(Clone, Copy)]
pub struct TapHead {
    /// The end is the CLF.
    pub to_clf: bool,
    /// The number of the session: that of the RSET that began it, and 0 on a bare link before any.
    pub session: u32,
    /// 0 to 6F.
    pub pipe: u8,
}

/// A message that an end has got.
#[derive(Drop)]
pub struct TapMessage {
    /// The end is the CLF.
    pub to_clf: bool,
    /// The number of the session: that of the RSET that began it, and 0 on a bare link before any.
    pub session: u32,
    /// 0 to 6F.
    pub pipe: u8,
    /// With its header.
    pub body: ArrayVec<u8, 4096>,
}

/// A passive tap on one link. It hears the frames that both ends put on the link, and tells a message once the end that it was sent to
/// has acknowledged its last fragment. It keeps at most four fragments of each side and the bytes of the message that it told last, and no
/// history.
#[derive(Drop)]
pub struct Tap {
    bare: bool,
    clf: Side,
    uicc: Side,
    rsets: u32,
    taken: u32,
    body: Body,
}

impl Model for Tap {
    ghost use Rattle.std.specs.Prelude.{◌≤◌};
    ghost use Rattle.swp_tap.specs.Hearing.{TapValue};

    ghost Value = { TapValue };

    ghost view = { λ t. record { bare = t.bare; kept = record { clf = t.clf; uicc = t.uicc; rsets = t.rsets }; taken = t.taken; body = t.body } };

    ghost invariant = { λ t. t.rsets ≤ t.taken };
}

// An N(R) of the near side.
fn number(near: &mut Side, far: &mut Side, nr: u8, body: &mut Body) -> Option<u8>
    ensures near { near.new ≡ (kept_numbered (kept_pair near.old far.old 0) nr).clf }
    ensures far { far.new ≡ (kept_numbered (kept_pair near.old far.old 0) nr).uicc }
    ensures news { news_in result body.new ≡ news_at near.old far.old nr }
    ensures stays { IfNone result (body.new ≡ body.old) }
{
    if !near.tells_more(far, nr) {
        return None;
    }
    let first = far.first();
    near.acknowledge(&first, body)
}

// An I frame of the near side, with these numbers and this fragment.
fn hear_fragment(
    near: &mut Side,
    far: &mut Side,
    bare: bool,
    ns: u8,
    nr: u8,
    info: &[u8],
    body: &mut Body,
) -> Option<u8>
    requires { IsInfo info.now }
    ensures near { (rsets : ℕ) → near.new ≡ (kept_hears bare (kept_pair near.old far.old rsets) (Control.I ns nr info.now)).clf }
    ensures far { (rsets : ℕ) → far.new ≡ (kept_hears bare (kept_pair near.old far.old rsets) (Control.I ns nr info.now)).uicc }
    ensures news { news_in result body.new ≡ news_by bare near.old far.old (Control.I ns nr info.now) }
    ensures stays { IfNone result (body.new ≡ body.old) }
{
    if !bare && near.number() == 0 {
        return None;
    }
    near.list();
    near.add(ns, info);
    number(near, far, nr, body)
}

// A frame of the near side, of which this many RSETs were heard before on the link.
fn hear(
    near: &mut Side,
    far: &mut Side,
    bare: bool,
    rsets: u32,
    control: &Control,
    body: &mut Body,
) -> Option<u8>
    requires { rsets < 4294967295 }
    ensures near { near.new ≡ (kept_hears bare (kept_pair near.old far.old rsets) control.now).clf }
    ensures far { far.new ≡ (kept_hears bare (kept_pair near.old far.old rsets) control.now).uicc }
    ensures news { news_in result body.new ≡ news_by bare near.old far.old control.now }
    ensures stays { IfNone result (body.new ≡ body.old) }
{
    match control {
        Control::I { ns, nr, info } => {
            hear_fragment(near, far, bare, *ns, *nr, info.bytes(), body)
        }
        Control::S { kind: _, nr } => {
            if !bare && near.number() == 0 {
                return None;
            }
            number(near, far, *nr, body)
        }
        Control::Rset { .. } => {
            near.asks(rsets + 1);
            None
        }
        Control::Ua => {
            near.renumber(far.asked());
            None
        }
        Control::Act { .. } | Control::Clt => None,
    }
}

// These bytes, in room of their own.
fn copied(bytes: &[u8]) -> ArrayVec<u8, 4096>
    requires { length bytes.now ≤ 4096 }
    ensures { result.items ≡ bytes.now }
{
    let mut body = ArrayVec::new();
    let _all = body.try_extend_from_slice(bytes);
    body
}

// How many RSETs were heard after this frame.
fn rsets_after(rsets: u32, control: &Control) -> u32
    requires { rsets < 4294967295 }
    ensures { result ≡ rsets_behind rsets control.now }
{
    match control {
        Control::Rset { .. } => rsets + 1,
        _ => rsets,
    }
}

impl Tap {
    ghost use Rattle.std.specs.Prelude.{◌≡◌, ◌+◌, ◌<◌, ◌≤◌, List, ℕ, Bool, ◌++◌, ◌∷◌, [], length, IfOk, MatchOption};
    ghost use Rattle.swp_base.specs.DataUnits.{IsInfo};
    ghost use Rattle.tap_reading.specs.Lpdus.{tapped_lpdus};
    ghost use Rattle.tap_reading.specs.keeping.Keeping.{kept_after_frame, kept_reports};
    ghost use Rattle.swp_tap.specs.Hearing.{StandsFor, new_tap_value, kept_after_lpdu, kept_reports_lpdu, reports_in, reports_told};

    /// A tap on a link that is bare or not. It has heard nothing.
    pub fn new(alloc: Global, bare: bool) -> Result<Tap, NoMemory>
        ensures new { IfOk result (λ t. t ≡ new_tap_value bare) }
        ensures stands { IfOk result (λ t. StandsFor t []) }
    {
        let clf = Side::make(alloc)?;
        let uicc = Side::make(alloc)?;
        Ok(Tap {
            bare,
            clf,
            uicc,
            rsets: 0,
            taken: 0,
            body: Body::new(),
        })
    }

    /// How many frames it has taken.
    pub fn taken(&self) -> u32
        ensures { result ≡ self.now.taken }
    {
        self.taken
    }

    /// The bytes of the message that it told last, with its header, and none before any.
    pub fn body(&self) -> &[u8]
        ensures value { result.now ≡ self.now.body }
        ensures short { length result.now ≤ 4096 }
    {
        self.body.as_slice()
    }

    /// Takes a frame that a side put on the link, and tells the message that it brings, if any: as `tell` does, with its bytes. Where it takes all
    /// frames that both ends put on the link from the first one on, and no end loses its power, it tells exactly what they got: that is the law
    /// `tap_reports_what_was_got` of `world_laws::taps_of_entries`, `taps_of_histories` and `taps_of_worlds`.
    pub fn take(&mut self, from_clf: bool, lpdu: &Lpdu) -> Option<TapMessage>
        requires { self.old.taken < 4294967295 }
        ensures bare { self.new.bare ≡ self.old.bare }
        ensures taken { self.new.taken ≡ self.old.taken + 1 }
        ensures stands { (lpdus : List (Bool × List ℕ)) → StandsFor self.old lpdus → StandsFor self.new (lpdus ++ (from_clf, lpdu.now) ∷ []) }
        ensures reports { (lpdus : List (Bool × List ℕ)) → StandsFor self.old lpdus →
            tapped_lpdus self.old.bare (lpdus ++ (from_clf, lpdu.now) ∷ []) ≡ tapped_lpdus self.old.bare lpdus ++ reports_told result }
        ensures body { MatchOption result (self.new.body ≡ self.old.body) (λ m. self.new.body ≡ m.body.items) }
    {
        match self.tell(from_clf, lpdu) {
            None => None,
            Some(
                TapHead {
                    to_clf,
                    session,
                    pipe,
                },
            ) => Some(TapMessage {
                to_clf,
                session,
                pipe,
                body: copied(self.body()),
            }),
        }
    }

    /// Takes a frame that a side put on the link. The head of the message that it tells comes, if any: at most one. Its bytes are then those of
    /// `body`, which stay as they are where nothing is told. One that is outside the grammar of LPDUs, and frames of activation and of
    /// contactless tunnelling, tell nothing. It takes no memory. It asks that fewer than 4,294,967,295 frames were taken.
    pub fn tell(&mut self, from_clf: bool, lpdu: &Lpdu) -> Option<TapHead>
        requires { self.old.taken < 4294967295 }
        ensures bare { self.new.bare ≡ self.old.bare }
        ensures taken { self.new.taken ≡ self.old.taken + 1 }
        ensures stands { (lpdus : List (Bool × List ℕ)) → StandsFor self.old lpdus → StandsFor self.new (lpdus ++ (from_clf, lpdu.now) ∷ []) }
        ensures reports { (lpdus : List (Bool × List ℕ)) → StandsFor self.old lpdus →
            tapped_lpdus self.old.bare (lpdus ++ (from_clf, lpdu.now) ∷ []) ≡ tapped_lpdus self.old.bare lpdus ++ reports_in result self.new.body }
        ensures stays { IfNone result (self.new.body ≡ self.old.body) }
    {
        self.hear(from_clf, lpdu)
    }

    // Takes a frame. An I frame, as most are, is read where it lies.
    fn hear(&mut self, from_clf: bool, lpdu: &Lpdu) -> Option<TapHead>
        requires { self.old.taken < 4294967295 }
        ensures bare { self.new.bare ≡ self.old.bare }
        ensures taken { self.new.taken ≡ self.old.taken + 1 }
        ensures kept { self.new.kept ≡ kept_after_lpdu self.old.bare self.old.kept from_clf lpdu.now }
        ensures reports { reports_in result self.new.body ≡ kept_reports_lpdu self.old.bare self.old.kept from_clf lpdu.now }
        ensures stays { IfNone result (self.new.body ≡ self.old.body) }
    {
        let bytes = lpdu.bytes();
        let first = bytes[0];
        if (0x80..=0xBF).contains(&first) && bytes.len() >= 2 {
            return self.hear_numbers(from_clf, (first - 0x80) / 8, first % 8, &bytes[1..]);
        }
        self.hear_other(from_clf, lpdu)
    }

    // Takes an I frame with these numbers and this fragment.
    fn hear_numbers(&mut self, from_clf: bool, ns: u8, nr: u8, info: &[u8]) -> Option<TapHead>
        requires few { self.old.taken < 4294967295 }
        requires sized { IsInfo info.now }
        ensures bare { self.new.bare ≡ self.old.bare }
        ensures taken { self.new.taken ≡ self.old.taken + 1 }
        ensures kept { self.new.kept ≡ kept_after_frame self.old.bare self.old.kept from_clf (Control.I ns nr info.now) }
        ensures reports { reports_in result self.new.body ≡ kept_reports self.old.bare self.old.kept from_clf (Control.I ns nr info.now) }
        ensures stays { IfNone result (self.new.body ≡ self.old.body) }
    {
        self.taken += 1;
        if from_clf {
            let session = self.clf.number();
            let pipe = hear_fragment(
                &mut self.clf,
                &mut self.uicc,
                self.bare,
                ns,
                nr,
                info,
                &mut self.body,
            )?;
            return Some(TapHead {
                to_clf: true,
                session,
                pipe,
            });
        }
        let session = self.uicc.number();
        let pipe = hear_fragment(
            &mut self.uicc,
            &mut self.clf,
            self.bare,
            ns,
            nr,
            info,
            &mut self.body,
        )?;
        Some(TapHead {
            to_clf: false,
            session,
            pipe,
        })
    }

    // Takes a frame of any kind.
    fn hear_other(&mut self, from_clf: bool, lpdu: &Lpdu) -> Option<TapHead>
        requires { self.old.taken < 4294967295 }
        ensures bare { self.new.bare ≡ self.old.bare }
        ensures taken { self.new.taken ≡ self.old.taken + 1 }
        ensures kept { self.new.kept ≡ kept_after_lpdu self.old.bare self.old.kept from_clf lpdu.now }
        ensures reports { reports_in result self.new.body ≡ kept_reports_lpdu self.old.bare self.old.kept from_clf lpdu.now }
        ensures stays { IfNone result (self.new.body ≡ self.old.body) }
    {
        let rsets = self.rsets;
        self.taken += 1;
        let Ok(control) = read_lpdu(lpdu) else {
            return None;
        };
        self.rsets = rsets_after(rsets, &control);
        if from_clf {
            let session = self.clf.number();
            let pipe = hear(
                &mut self.clf,
                &mut self.uicc,
                self.bare,
                rsets,
                &control,
                &mut self.body,
            )?;
            return Some(TapHead {
                to_clf: true,
                session,
                pipe,
            });
        }
        let session = self.uicc.number();
        let pipe = hear(
            &mut self.uicc,
            &mut self.clf,
            self.bare,
            rsets,
            &control,
            &mut self.body,
        )?;
        Some(TapHead {
            to_clf: false,
            session,
            pipe,
        })
    }
}
