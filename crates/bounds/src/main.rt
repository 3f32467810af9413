// The planners' program: a table of sections on standard input, the allowance as an argument, and a line for each task. The format is in
// docs/BOUNDS.md. What is read, and at which line a table is refused, stands in `bound_text`, what is calculated in `bound`; this only writes. A table
// that is refused is told on standard output, like a bound; where no table is looked at, the reason is told on standard error.
#![tactic(auto)]

ghost use Rattle.std.specs.Prelude.{◌≤◌, length};

use bound::{Sections, table};
use bound_text::{Reading, fault};
use model::{Refusal, TaskNo};
use std::env::FillError;
use std::io::Read;
use std::process::ExitCode;
use std::rt::Env;
use std::{fmt, io};

// The allowance where none is given: the largest.
const ALLOWANCE: u32 = bound::MILLION;

// As many bytes as the buffer has: a text that fills it may be longer.
const TEXT_BYTES: usize = 65536;

// The longest argument that is looked at as a number.
const ARGUMENT_BYTES: usize = 16;

// A refusal as it is told: its number, and what it means.
#[derive(Drop)]
struct Told(Refusal);

impl fmt::Display for Told {
    fn fmt<W: fmt::Write>(&self, f: &mut fmt::Formatter<W>) -> fmt::Result {
        let meaning = match self.0 {
            Refusal::BadSectionCounts => ": a table has 1 to 6 tasks and at most 12 sections",
            Refusal::BadSection =>
                ": task, resource (0 to 15), length (1 to 1000000) or parent (an earlier section of the same task)",
            Refusal::ResourceOrder => ": its resource is not above its parent's",
            Refusal::ChildrenTooLong => ": with it the sections in its parent are longer than that",
            Refusal::NoSuchBoundTask => ": no such task",
            Refusal::BadAllowance => ": the allowance is 1 to 1000000",
            Refusal::AllowanceSpent => ": more weighings than the allowance",
            _ => "",
        };
        let number = u16::from(self.0);
        write!(f, "refused {number}{meaning}")
    }
}

fn put_bound(rt: &impl Print, s: Sections, task: TaskNo, allowance: u32) -> io::Result<()> {
    match bound::answer::bound(s, task, allowance) {
        Ok(found) => println!(rt;
            "task {} bound {} weighings {}",
            task.0, found.value, found.weighings
        ),
        Err(refusal) => println!(rt; "task {} {}", task.0, Told(refusal)),
    }
}

fn put_bounds(rt: &impl Print, s: Sections, allowance: u32) -> io::Result<()> {
    for task in 0..s.tasks {
        put_bound(rt, s, TaskNo(task), allowance)?;
    }
    println!(rt;
        "These figures are the calculation of the paper's Fig. 5, and not a safe bound on what a server can lose."
    )
}

fn put_fault(rt: &impl Print, reading: Reading, refusal: Refusal) -> io::Result<()> {
    match fault::faulty_line(reading, u16::from(refusal)) {
        Some(line) => println!(rt; "line {line}: {}", Told(refusal)),
        None => println!(rt; "{}", Told(refusal)),
    }
}

fn put_reading(rt: &impl Print, reading: Reading, allowance: u32) -> io::Result<()> {
    if !reading.clear {
        return println!(rt;
            "line {}: not understood: the number of tasks, or a section's task, resource, length and parent",
            reading.line
        );
    }
    let s = fault::table_to(reading, reading.count);
    match table::table_refusal(s) {
        Ok(()) => put_bounds(rt, s, allowance),
        Err(refusal) => put_fault(rt, reading, refusal),
    }
}

// Whether the program was given this argument, however long.
fn is_given(rt: &impl Env, argument: usize) -> bool {
    let mut text = [0u8; ARGUMENT_BYTES];
    !matches!(rt.arg(argument, &mut text), Err(FillError::NotPresent))
}

// The first argument as a number; without it a million, with anything else 0, which is refused.
fn allowance(rt: &impl Env) -> u32 {
    let mut text = [0u8; ARGUMENT_BYTES];
    match rt.arg(1, &mut text) {
        Ok(n) => bound_text::read::number(&text[..n]).unwrap_or(0),
        Err(FillError::TooLong) => 0,
        Err(FillError::NotPresent) => ALLOWANCE,
    }
}

// Reads until the buffer is full, the input ends or a read fails, and says how many bytes it put at the buffer's start. By hand, since read_to_end
// wants a heap, and read_exact does not say how much it read of a text that is shorter.
fn read_full(reader: &mut impl Read, text: &mut [u8]) -> usize
    ensures { result ≤ length text.new }
{
    let mut done = 0;
    while done < text.len() {
        match reader.read(&mut text[done..]) {
            Ok(0) | Err(_) => break,
            Ok(n) => done += n,
        }
    }
    done
}

// The answer to the table on standard input, or why it is not looked at.
fn answer(rt: &(impl Env + Input + Print + Eprint)) -> io::Result<()> {
    if is_given(rt, 2) {
        return eprintln!(rt; "bounds: too many arguments: give one number, the allowance, or none");
    }
    let mut text = [0u8; TEXT_BYTES];
    let n = read_full(&mut rt.reader(), &mut text);
    if n == TEXT_BYTES {
        return eprintln!(rt;
            "bounds: the table has more than 65535 bytes: shorten it, its comments first"
        );
    }
    put_reading(rt, bound_text::read::read(&text[..n]), allowance(rt))
}

// A refused table is an answer like a bound. That something could not be written is told by the exit status alone.
fn main(rt: HostRuntime) -> ExitCode {
    match answer(&rt) {
        Ok(()) => ExitCode::SUCCESS,
        Err(_) => ExitCode::FAILURE,
    }
}
