//! A memory over flash that is erased by pages, and whose programming can only clear bits. Page layout and model are this
//! project's own.
#![tactic(auto)]

mod flash;
mod header;
mod held_pages;
mod mem_flash;
mod memory;
mod page_map;
mod put;
mod scan;
mod sector;

pub use flash::Flash;
pub use held_pages::each_sector_stands_on_its_page_of_the_greatest_version;
pub use mem_flash::MemFlash;
pub use memory::FlashNv;
