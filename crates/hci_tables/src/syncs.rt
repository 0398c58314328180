//! The sync identifiers that are kept: sorted pairs of host and identifier.
ghost use Rattle.std.specs.Prelude.{◌≡◌, ℕ, ◌<◌, ◌≤◌};
ghost use Rattle.sorted_rows.specs.Rows.{AreRows, IsPlace, row_of, with_row};
ghost use Rattle.hci_tables.specs.Tables.{sync_host, is_kept_sync};

use arrayvec::ArrayVec;

/// The sync identifiers that are kept, as pairs of host and identifier.
pub(crate) type Syncs = ArrayVec<(u8, u16), 7>;

// Where the pair of a host stands, or where it would be put.
fn place_in(syncs: &[(u8, u16)], host: u8) -> Result<usize, usize>
    requires { AreRows sync_host 1 8 syncs.now }
    ensures { IsPlace sync_host host syncs.now result }
{
    syncs.binary_search_by_key(&host, |pair| pair.0)
}

/// The identifier of a host is kept, in place of the one that was.
pub(crate) fn keep(syncs: &mut Syncs, host: u8, id: u16)
    requires sorted { AreRows sync_host 1 8 syncs.old.items }
    requires some { 1 ≤ host }
    requires host { host ≤ 7 }
    ensures { syncs.new.items ≡ with_row sync_host (host, id) syncs.old.items }
{
    match place_in(syncs.as_slice(), host) {
        Ok(at) => syncs.as_mut_slice()[at] = (host, id),
        Err(at) => syncs.insert(at, (host, id)),
    }
}

/// Whether this is the identifier that is kept of a host.
pub(crate) fn is_kept(syncs: &[(u8, u16)], host: u8, id: u16) -> bool
    ensures { result ≡ is_kept_sync syncs.now host id }
{
    match find(syncs, host) {
        Some(pair) => pair.1 == id,
        None => false,
    }
}

fn find(syncs: &[(u8, u16)], host: u8) -> Option<(u8, u16)>
    ensures { result ≡ row_of sync_host host syncs.now }
{
    syncs.iter().copied().find(|pair| pair.0 == host)
}
