//! The law of the pages: which page has the data of a sector. There is no code here that runs.
ghost use Rattle.std.specs.Prelude.{◌≡◌, ◌↔◌, ℕ, List, None, Some};
ghost use Rattle.flash_nv.specs.Held.{HoldsSector, HasGreatestVersion, IsContentOf};
ghost use Rattle.flash_nv.specs.Pages.{flash_content, page_of};

/// The page of a sector is the valid one that has its number and the greatest version, the lowest where two agree; there is none
/// exactly where no valid page has that number. The content is what these pages say, and nothing else is.
pub fn each_sector_stands_on_its_page_of_the_greatest_version()
    ensures page { (cells : List ℕ) (sector page : ℕ) → (page_of cells sector ≡ Some page) ↔ HasGreatestVersion cells sector page }
    ensures none { (cells : List ℕ) (sector : ℕ) → (page_of cells sector ≡ None) ↔ ((page : ℕ) → HoldsSector cells sector page → ⊥) }
    ensures content { (cells content : List ℕ) → (content ≡ flash_content cells) ↔ IsContentOf cells content }
{}
