//! What is read at the ends of a node.
ghost use Rattle.std.specs.Prelude.{◌≡◌, ◌≤◌, if◌then◌else◌};

use crate::ends::Ends;
use crate::places::place_of;
use arrayvec::ArrayVec;
use node_deeds::Desk;

/// What a node looks at of its ends before it decides.
#[derive(Drop)]
pub struct Seen {
    /// What is kept of each end, in their order.
    pub desks: ArrayVec<Desk, 7>,
    /// The links that are up: bit h stands for the one with host h, 1 to 7.
    pub up: u8,
}

impl Ends {
    ghost use Rattle.std.specs.Prelude.{◌≡◌, ◌≤◌, List, IfSome, length, option_map, slice_get, false};
    ghost use Rattle.node_machine.specs.Parts.{Port};
    ghost use Rattle.node_machine.specs.Carrying.{with_port};
    ghost use Rattle.node_deeds.specs.Shown.{desk_shown, AreSeen};
    ghost use Rattle.node_ends.specs.Desks.{have_notices};
    ghost use Rattle.node_ends.specs.Ends.{EndsStandFor, AreOfHosts, got_at, message_read, rests, are_idle, are_at_rest};
    ghost use Rattle.std.specs.Option.{option_map_or};
    ghost use Rattle.node_deeds.specs.Cores.{AreSoundDesks};
    ghost use Rattle.node_deeds.specs.Room.{AreSpares};
    ghost use Rattle.std.specs.List.{AllByRecursion, list_any};
    ghost use Rattle.node_machine.specs.Node.{is_over};

    /// Copies the message that waits at the end of the link with this host into the front of a buffer of 4,096 bytes. Its pipe, and
    /// how many bytes it has.
    #[inline(always)]
    pub fn read(&self, host: u8, buffer: &mut [u8]) -> Option<(u8, usize)>
        requires buffer { length buffer.old ≡ 4096 }
        ensures waits { (ports : List Port) → EndsStandFor self.now ports → got_at ports host ≡ message_read result buffer.new }
        ensures inside { IfSome result (λ x. x.1 ≤ 4096) }
    {
        let Some(i) = place_of(self.seats.as_slice(), host) else {
            return None;
        };
        let seat = &self.seats[i];
        match &seat.waiting {
            Some(waiting) => {
                let len = self.pool.copy_out(&waiting.chain, 0, buffer);
                Some((waiting.pipe, len))
            }
            None => None,
        }
    }

    /// What is kept of the ends, and which links are up. They are links with hosts 01 to 07.
    #[inline(always)]
    pub fn seen(&self) -> Seen
        ensures seen { (ports : List Port) → EndsStandFor self.now ports → AreOfHosts ports → AreSeen result.up result.desks.items ports }
        ensures few { length result.desks.items ≤ 7 }
        ensures sound { AreSoundDesks result.desks.items }
    {
        let mut desks = ArrayVec::new();
        let mut links = [false; 8];
        for seat in self.seats.as_slice() {
            desks.push(seat.desk);
            let host = usize::from(seat.desk.host);
            if host < 8 {
                links[host] = seat.is_up();
            }
        }
        let up = 2 * bit(links[1])
            + 4 * bit(links[2])
            + 8 * bit(links[3])
            + 16 * bit(links[4])
            + 32 * bit(links[5])
            + 64 * bit(links[6])
            + 128 * bit(links[7]);
        Seen { desks, up }
    }

    /// How many blocks for messages are spare at the end of the link with each host, 0 to 7, by its number. No host is above 7.
    pub fn spares(&self) -> [u16; 8]
        ensures { (ports : List Port) → EndsStandFor self.now ports → AllByRecursion (λ (p : Port). p.desk.host ≤ 7) ports → AreSpares result ports }
    {
        let mut spares = [0; 8];
        for i in 0..self.seats.len() {
            let seat = &self.seats[i];
            let host = usize::from(seat.desk.host);
            if host < 8 {
                spares[host] = self.pool.spare((2 * i) as u8);
            }
        }
        spares
    }

    /// Whether the session of the end at this place ended in this step as something came there; `false` behind the last end.
    pub fn has_ended(&self, i: usize) -> bool
        ensures { (ports : List Port) → EndsStandFor self.now ports → result ≡ option_map_or (λ (p : Port). p.ended) (slice_get ports i) false }
    {
        match self.seats.get(i) {
            Some(seat) => seat.ended,
            None => false,
        }
    }

    /// Whether nothing is left to do at the end at this place: no message waits there, and it isn't held. `false` behind the last end.
    pub fn rests(&self, i: usize) -> bool
        ensures { (ports : List Port) → EndsStandFor self.now ports → result ≡ option_map_or rests (slice_get ports i) false }
    {
        if i >= self.seats.len() {
            return false;
        }
        let seat = &self.seats[i];
        seat.rests()
    }

    /// Whether all ends are at rest: none waits for the acceptance of a reset, and at each that is Up all messages that were sent in its
    /// session are acknowledged. This project's own.
    pub fn are_at_rest(&self) -> bool
        ensures { (ports : List Port) → EndsStandFor self.now ports → result ≡ are_at_rest ports }
    {
        for seat in self.seats.as_slice() {
            if !seat.side.is_at_rest() {
                return false;
            }
        }
        true
    }

    /// Whether nothing is left to do at any end behind what came in a step: no session ended there, no message waits, and none is held.
    pub fn are_idle(&self) -> bool
        ensures { (ports : List Port) → EndsStandFor self.now ports → result ≡ are_idle ports }
    {
        for seat in self.seats.as_slice() {
            if !seat.is_idle() {
                return false;
            }
        }
        true
    }

    /// Whether the session of some end has ended in this step.
    pub fn have_ended(&self) -> bool
        ensures { (ports : List Port) → EndsStandFor self.now ports → result ≡ list_any is_over ports }
    {
        self.seats
            .as_slice()
            .iter()
            .any(|seat| seat.ended || seat.late)
    }

    /// Whether a notice waits for its answer at some end.
    pub fn have_notices(&self) -> bool
        ensures { (ports : List Port) → EndsStandFor self.now ports → result ≡ have_notices ports }
    {
        self.seats
            .as_slice()
            .iter()
            .any(|seat| seat.desk.notice.is_some())
    }

    /// Whether the notice of the end at this place was late in this step; `false` behind the last end.
    pub fn was_late(&self, i: usize) -> bool
        ensures { (ports : List Port) → EndsStandFor self.now ports → result ≡ option_map_or (λ (p : Port). p.late) (slice_get ports i) false }
    {
        match self.seats.get(i) {
            Some(seat) => seat.late,
            None => false,
        }
    }

    /// REC_ERROR of the end of the link with this host is set.
    pub fn set_errors(&mut self, host: u8, errors: u16)
        ensures { (ports : List Port) → EndsStandFor self.old ports
            → EndsStandFor self.new (with_port host (λ p. record p { desk = record p.desk { errors = errors } }) ports) }
    {
        if let Some(i) = place_of(self.seats.as_slice(), host) {
            let seat = &mut self.seats[i];
            seat.desk.errors = errors;
        }
    }

    /// What is kept of the end at this place, where there is one.
    pub fn desk(&self, i: usize) -> Option<Desk>
        ensures { (ports : List Port) → EndsStandFor self.now ports
            → option_map desk_shown result ≡ option_map (λ (p : Port). p.desk) (slice_get ports i) }
    {
        match self.seats.get(i) {
            Some(seat) => Some(seat.desk),
            None => None,
        }
    }
}

// 1 where it is so.
fn bit(is: bool) -> u8
    ensures value { result ≡ (if is then 1 else 0) }
    ensures small { result ≤ 1 }
{
    if is { 1 } else { 0 }
}
