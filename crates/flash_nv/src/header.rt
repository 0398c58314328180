//! The headers of pages: a sector's number, a version, and the complement of these nine bytes.
ghost use Rattle.std.specs.Prelude.{◌≡◌, length};
ghost use Rattle.flash_nv.specs.Pages.{page_header, is_valid, sector_of, version_of};

/// A header is valid where the complement agrees.
pub fn is_valid(header: &[u8; 18]) -> bool
    ensures { result ≡ is_valid header.now }
{
    for i in 0..9 {
        if header[9 + i] != !header[i] {
            return false;
        }
    }
    true
}

/// The version in a header, most significant byte first.
pub fn version_of(header: &[u8; 18]) -> u64
    ensures { result ≡ version_of header.now }
{
    let [_, a, b, c, d, e, f, g, h, ..] = *header;
    u64::from_be_bytes([a, b, c, d, e, f, g, h])
}

/// The header of a page that has this sector in this version.
pub fn page_header(sector: u8, version: u64) -> [u8; 18]
    ensures { result ≡ page_header sector version }
{
    let [a, b, c, d, e, f, g, h] = version.to_be_bytes();
    [
        sector, a, b, c, d, e, f, g, h, !sector, !a, !b, !c, !d, !e, !f, !g, !h,
    ]
}
