// The interference bound (rule 12): its table of sections and its answer. What the bound is stands in specs/; the functions stand in the modules.
// Assumes nothing.
#![tactic(auto)]

pub mod answer;
mod draw;
mod interference;
mod sets;
pub mod table;

use model::TaskNo;

// The most tasks and sections that a table may have.
pub const TASKS: usize = 6;

pub const SECTIONS: usize = 12;

// The longest section, and the largest allowance.
pub const MILLION: u32 = 1000000;

// `parent` is where the section stands: in none, or directly in the section of that number.
#[derive(Clone, Copy)]
pub struct Section {
    pub task: TaskNo,
    pub resource: u16,
    pub length: u32,
    pub parent: Option<u16>,
}

// A place of a table that holds no section.
pub const NO_SECTION: Section = Section {
    task: TaskNo(0),
    resource: 0,
    length: 0,
    parent: None,
};

// Entries past `count` are not read.
#[derive(Clone, Copy)]
pub struct Sections {
    pub tasks: u16,
    pub count: u16,
    pub section: [Section; SECTIONS],
}

// The bound and the weighings spent on it.
#[derive(Clone, Copy)]
pub struct Bound {
    pub value: u64,
    pub weighings: u32,
}

// A set of resources, a bit for each number.
#[derive(Clone, Copy)]
pub(crate) struct Resources {
    pub bits: u16,
}

// Where the sections stand that a calculation goes over: the first number and the end of the numbers. In a byte each, since a drawing has 109 of them on the
// stack, and is handed over once.
#[derive(Clone, Copy)]
pub(crate) struct Span {
    pub from: u8,
    pub end: u8,
}

// A value, the section that gave it if one did, and the allowance left. None in place of a tally says that the weighings exceeded the allowance.
#[derive(Clone, Copy)]
pub(crate) struct Tally {
    pub value: u64,
    pub giver: Option<usize>,
    pub left: u32,
}
