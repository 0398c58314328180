//! What is known of the pages between calls.
ghost use Rattle.std.specs.Prelude.{◌≡◌, ◌≤◌, ◌<◌, ◌↔◌, length, slice_index_or, slice_get, slice_set, count_by, None, Some, IfSome, IsTrue, true, false};
ghost use Rattle.std.specs.Prelude.{replicate};
ghost use Rattle.std.specs.Option.{ForSome};
ghost use Rattle.flash_nv.specs.Maps.{IsNextFree, IsUsed, marked, page_behind};

use std::marker::Model;

/// How many pages a flash memory has.
const PAGES: u16 = 272;

/// The page of each sector, and the page from which on a free one is looked for.
#[derive(Drop)]
pub struct PageMap {
    pages: [Option<u16>; 256],
    next: u16,
}

impl Model for PageMap {
    ghost use Rattle.std.specs.Prelude.{◌≡◌, ◌<◌, ℕ, Some, None, slice_index_or};
    ghost use Rattle.flash_nv.specs.Maps.{Map};

    ghost Value = { Map };

    ghost view = { λ m. record { pages = m.pages; next = m.next } };

    ghost invariant = { λ m. (m.next < 272) × ((s : ℕ) (p : ℕ) → slice_index_or m.pages s None ≡ Some p → p < 272) };
}

impl PageMap {
    /// No sector has a page, and page 0 is looked at first.
    pub fn new() -> Self
        ensures { result ≡ record { pages = replicate 256 None; next = 0 } }
    {
        PageMap {
            pages: [None; 256],
            next: 0,
        }
    }

    /// The page of a sector.
    pub fn page(&self, sector: u8) -> Option<u16>
        ensures page { result ≡ slice_index_or self.now.pages sector None }
        ensures below { IfSome result (λ p. p < 272) }
        ensures len { length self.now.pages ≡ 256 }
    {
        self.pages[sector as usize]
    }

    /// Makes this the page of a sector.
    pub fn set_page(&mut self, sector: u8, page: u16)
        requires { page < 272 }
        ensures { self.new ≡ record self.old { pages = slice_set self.old.pages sector (Some page) } }
    {
        self.pages[sector as usize] = Some(page);
    }

    /// Makes this the page of a sector, for which it was taken.
    pub fn take(&mut self, sector: u8, page: u16)
        requires { page < 272 }
        ensures { self.new ≡ record { pages = slice_set self.old.pages sector (Some page); next = page_behind page } }
    {
        self.pages[sector as usize] = Some(page);
        self.next = if page == PAGES - 1 { 0 } else { page + 1 };
    }

    /// The page that is taken next.
    pub fn free(&self) -> u16
        ensures { IsNextFree self.now result }
    {
        let used = used(&self.pages);
        if let Some(page) = first_free(&used, self.next, PAGES) {
            return page;
        }
        let Some(page) = first_free(&used, 0, self.next) else {
            unreachable!()
        };
        page
    }
}

/// Which pages are that of a sector.
fn used(pages: &[Option<u16>; 256]) -> [bool; 272]
    requires { (s : _) (p : _) → slice_index_or pages.now s None ≡ Some p → p < 272 }
    ensures used { (p : _) → p < 272 → IsTrue (slice_index_or result p true) → IsUsed pages.now p }
    ensures marked { (s : _) (p : _) → s < 256 → slice_index_or pages.now s None ≡ Some p → slice_index_or result p true ≡ true }
    ensures few { count_by (λ b. b) result ≤ 256 }
    ensures len { length result ≡ 272 }
{
    let mut used = [false; 272];
    for sector in 0..256 {
        mark(&mut used, pages[sector]);
    }
    used
}

/// Marks a page as used, where there is one.
fn mark(used: &mut [bool; 272], page: Option<u16>)
    requires { ForSome page (λ p. p < 272) }
    ensures { used.new ≡ marked used.old page }
{
    if let Some(page) = page {
        used[page as usize] = true;
    }
}

/// The first page from `from` on and below `to` that isn't used.
fn first_free(used: &[bool; 272], from: u16, to: u16) -> Option<u16>
    requires { to ≤ 272 }
    ensures found { IfSome result (λ p. (from ≤ p) × (p < to) × (slice_index_or used.now p true ≡ false)) }
    ensures least { IfSome result (λ p. (q : _) → from ≤ q → q < p → slice_index_or used.now q true ≡ true) }
    ensures none { result ≡ None → (q : _) → from ≤ q → q < to → slice_index_or used.now q true ≡ true }
{
    for page in from..to {
        if !used[page as usize] {
            return Some(page);
        }
    }
    None
}
