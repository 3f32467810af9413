// A table of sections as text (docs/BOUNDS.md): a line with the number of tasks, then a line for each section, read a byte at a time.
// What a text is read as stands in specs/. Assumes nothing.
#![tactic(auto)]

use bound::{SECTIONS, Section};

mod bytes;
pub mod fault;
pub mod read;

// The fields of a section's line.
pub const FIELDS: usize = 4;

// The greatest numbers of 32 and of 16 bits: a greater one counts as these.
pub const GREATEST: u32 = u32::MAX;

pub const GREATEST_SHORT: u16 = u16::MAX;

// What a line has shown so far: how many fields and their numbers, whether the last byte stands in a number, whether the last field is a dash,
// whether the line is understood, and whether a comment has begun. The numbers stand in an array with their count beside it, since there is no heap.
#[derive(Clone, Copy)]
pub struct Line {
    pub fields: u16,
    pub value: [u32; FIELDS],
    pub inside: bool,
    pub outermost: bool,
    pub clear: bool,
    pub comment: bool,
}

// What the lines have shown so far: `line` is the number of the line that is being read, from 1, or, where they are no longer `clear`, of the first that
// is not understood; `first` is that of the line with the number of tasks; `lines` are those of the sections, apart from these, since the sections
// are a table's array; `surplus` is that of the thirteenth section.
#[derive(Clone, Copy)]
pub struct Reading {
    pub tasks: u16,
    pub first: Option<u32>,
    pub clear: bool,
    pub count: u16,
    pub section: [Section; SECTIONS],
    pub lines: [u32; SECTIONS],
    pub surplus: Option<u32>,
    pub line: u32,
}

#[derive(Clone, Copy)]
pub struct State {
    pub reading: Reading,
    pub line: Line,
}
