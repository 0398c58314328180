//! Which blocks deeds need.
ghost use Rattle.std.specs.Prelude.{◌≡◌, ℕ, ◌+◌, ◌/◌, ◌≤◌, List, [], ◌∷◌, length, option_map, slice_index};
ghost use Rattle.node_machine.specs.Parts.{Port};
ghost use Rattle.node_machine.specs.Carrying.{lack, needs};
ghost use Rattle.node_deeds.specs.Shown.{Handling, deed_shown, deeds_shown};
ghost use Rattle.node_deeds.specs.Room.{AreSpares, lack_shown, short_of, lack_by};

use crate::deeds::{Deed, asking_notice};

/// How many bytes of a message a block holds.
const BLOCK_BYTES: usize = 32;

/// Deeds lack blocks at the end of a link: so many are needed, and so many are spare. This project's own.
#[derive(Clone, Copy)]
pub struct Shortfall {
    pub need: u16,
    pub spare: u16,
}

/// The first need of the deeds for a message of this length, which came from this host, that is above what is spare at its end. What
/// is spare stands in `spares` by the host of the link, 0 where there is no such link. A message has at most 4,096 bytes. This project's own.
pub fn lack(deeds: &[Deed], host: u8, len: usize, spares: &[u16]) -> Option<Shortfall>
    requires { len ≤ 4096 }
    ensures { (a : Handling) (ports : List Port) → length a.message.1 ≡ len → AreSpares spares.now ports
        → option_map lack_shown result ≡ lack ports (needs host (deeds_shown a deeds.now)) }
{
    for deed in deeds {
        if let Some(lack) = lack_of(deed, host, len, spares) {
            return Some(lack);
        }
    }
    None
}

// The first need of one deed that is above what is spare.
fn lack_of(deed: &Deed, host: u8, len: usize, spares: &[u16]) -> Option<Shortfall>
    requires { len ≤ 4096 }
    ensures { (a : Handling) → length a.message.1 ≡ len
        → option_map lack_shown result ≡ lack_by (λ h. slice_index spares.now h) (needs host (deed_shown a deed.now ∷ [])) }
{
    match deed {
        Deed::PassesOn { host: to } => lack_at(spares, *to, len),
        Deed::Sends {
            host: to,
            message,
            ..
        } => lack_at(spares, *to, message.len()),
        Deed::Asks(row) => {
            let aside = lack_at(spares, row.creator, 1);
            if aside.is_some() {
                return aside;
            }
            lack_at(spares, row.dest, asking_notice(row).len())
        }
        Deed::Tells { host: to, message } => lack_at(spares, *to, message.len()),
        Deed::Orders(order) => lack_at(spares, host, order.len()),
        _ => None,
    }
}

// A message of this length needs more blocks than are spare at the end of the link with a host.
fn lack_at(spares: &[u16], host: u8, len: usize) -> Option<Shortfall>
    requires { len ≤ 4096 }
    ensures { option_map lack_shown result ≡ short_of (slice_index spares.now host) ((len + 31) / 32) }
{
    let need = len.div_ceil(BLOCK_BYTES) as u16;
    let spare = spares.get(usize::from(host)).copied().unwrap_or(0);
    if spare < need {
        Some(Shortfall { need, spare })
    } else {
        None
    }
}
