//! The opened static pipes: sorted pairs of host and pipe.
ghost use Rattle.std.specs.Prelude.{◌≡◌, ℕ, ◌<◌, ◌≤◌, nat_lt};
ghost use Rattle.std.specs.List.{prefix_len};
ghost use Rattle.sorted_rows.specs.Rows.{AreRows, with_row, without_row};
ghost use Rattle.hci_tables.specs.Tables.{static_place, without_statics};

use arrayvec::ArrayVec;

/// The opened static pipes, as pairs of host and pipe: at most two for each of eight hosts.
pub(crate) type Statics = ArrayVec<(u8, u8), 16>;

fn place_of(pair: &(u8, u8)) -> u16
    ensures { result ≡ static_place pair.now }
{
    2 * u16::from(pair.0) + u16::from(pair.1)
}

// How many pairs stand before a place.
fn place_in(statics: &[(u8, u8)], place: u16) -> usize
    ensures { result ≡ prefix_len (λ pair. nat_lt (static_place pair) place) statics.now }
{
    statics
        .iter()
        .take_while(|pair| place_of(pair) < place)
        .count()
}

fn take_out(statics: &mut Statics, place: u16)
    ensures { statics.new.items ≡ without_row static_place place statics.old.items }
{
    statics.retain(|pair| place_of(pair) != place);
}

/// A static pipe of a host is opened.
pub(crate) fn open(statics: &mut Statics, host: u8, pid: u8)
    requires sorted { AreRows static_place 0 16 statics.old.items }
    requires host { host ≤ 7 }
    requires pipe { pid < 2 }
    ensures { statics.new.items ≡ with_row static_place (host, pid) statics.old.items }
{
    let place = place_of(&(host, pid));
    take_out(statics, place);
    let at = place_in(statics.as_slice(), place);
    statics.insert(at, (host, pid));
}

/// A static pipe of a host is closed.
pub(crate) fn close(statics: &mut Statics, host: u8, pid: u8)
    ensures { statics.new.items ≡ without_row static_place (static_place (host, pid)) statics.old.items }
{
    take_out(statics, place_of(&(host, pid)));
}

/// The static pipes of a host are closed.
pub(crate) fn close_host(statics: &mut Statics, host: u8)
    ensures { statics.new.items ≡ without_statics statics.old.items host }
{
    statics.retain(|pair| pair.0 != host);
}
