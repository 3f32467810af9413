// Tables of sections that a caller hands over in bytes. Assumes nothing but what each function says.
ghost use Rattle.std.specs.Prelude.{◌≡◌, true, ◌+◌, ◌≤◌, length};
ghost use Rattle.std.proofs.Common.{rules};
ghost use Rattle.bound.specs.Table.{no_section};
ghost use Rattle.vesztamor.specs.Tables.{is_sections, parent_of, section_in, sections_in};

use crate::sized::{Row, is_sized, rows_in};
use bound::{NO_SECTION, Section, Sections};
use lent_bytes::numbers::{four_bytes, two_bytes};
use model::TaskNo;

fn parent_of(b: u8) -> Option<u16>
    ensures { result ≡ parent_of b }
{
    (b != 255).then_some(u16::from(b))
}

#[tactic(auto, unfolding(crate::specs::Tables::section_in))]
fn section_in(bytes: &[u8], at: usize) -> Section
    requires { at + 9 ≤ length bytes.now }
    ensures { result ≡ section_in bytes.now at }
{
    Section {
        task: TaskNo(two_bytes(bytes, at)),
        resource: two_bytes(bytes, at + 2),
        length: four_bytes(bytes, at + 4),
        parent: parent_of(bytes[at + 8]),
    }
}

impl Row for Section {
    ghost HEADER = { 4 };

    ghost SIZE = { 9 };

    const HEADER: usize = 4;

    const SIZE: usize = 9;

    ghost read_at = { section_in };

    ghost nothing = { no_section };

    fn nothing() -> Section {
        NO_SECTION
    }

    fn read(bytes: &[u8], at: usize) -> Section {
        section_in(bytes, at)
    }

    ghost sizes = { Prim.search rules };
}

pub fn is_sections(bytes: &[u8]) -> bool
    ensures { result ≡ is_sections bytes.now }
{
    is_sized::<Section>(bytes)
}

#[tactic(auto, using(crate::proofs::Lines::sized_least), unfolding(crate::specs::Tables::sections_in))]
pub fn sections_in(bytes: &[u8]) -> Sections
    requires { is_sections bytes.now ≡ true }
    ensures { result ≡ sections_in bytes.now }
{
    Sections {
        tasks: two_bytes(bytes, 0),
        count: two_bytes(bytes, 2),
        section: rows_in(bytes),
    }
}
