// A state in lent bytes: a fixed layout, little-endian (docs/STATE.md), for callers that keep the state on their side of the library. The header and the
// entries in use are read and written, every other byte stays (rule 1.7). Writing and reading give each other back (laws `decoded_encoded` and
// `encoded_decoded`). No assumption on the bytes or the state.
#![tactic(auto)]

// An enum as the number of its variant and the number that the variant holds, 0 where it holds none.
#[derive(Clone, Copy)]
pub struct Tagged {
    pub tag: u8,
    pub number: u16,
}

pub use tags::phase_tag;

pub mod reading;
pub mod sizes;
pub mod tags;
mod testing;
pub mod writing;
