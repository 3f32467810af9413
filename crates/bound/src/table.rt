// The tests of a table, a task and an allowance: 40 to 45 in the order of rule 12.9.
// Entries past the count are not read. Assumes nothing.
ghost use Rattle.std.specs.Prelude.{◌≡◌, ◌<◌, ◌≤◌, if◌then◌else◌, Some};
ghost use Rattle.std.proofs.Math.Option.{none};
ghost use Rattle.laws.specs.Tests.{first_of};
ghost use Rattle.laws.specs.Loops.{all_to, fold_to};
ghost use Rattle.model.specs.Refusals.{numbered};
ghost use Rattle.model.specs.Verdicts.{verdict};
ghost use Rattle.bound.specs.Table.{section_numbers, directly_in, counts_fit, children_fit, section_tests, section_refusal, table_refusal, refusal};
ghost use Rattle.bound.specs.Computed.{parent_tests};

use crate::{MILLION, SECTIONS, Section, Sections, TASKS};
use model::verdicts::refused_if;
use model::{Refusal, TaskNo};

// 41 or 42 for section i, where its parent is said to be p.
#[tactic(auto, unfolding(laws::specs::Tests::first_of))]
fn parent_refusal(s: &Sections, i: usize, p: usize) -> Result<(), Refusal>
    requires { i < section_numbers }
    ensures { numbered result ≡ verdict (first_of (parent_tests s.now i p)) }
{
    if i <= p || s.section[p].task != s.section[i].task {
        return Err(Refusal::BadSection);
    }
    if s.section[i].resource <= s.section[p].resource {
        return Err(Refusal::ResourceOrder);
    }
    Ok(())
}

// 41 or 42 for section i.
#[tactic(auto, unfolding(laws::specs::Tests::first_of, crate::specs::Table::section_fits))]
fn section_refusal(s: &Sections, i: usize) -> Result<(), Refusal>
    requires { i < section_numbers }
    ensures { numbered result ≡ verdict (first_of (section_tests s.now i)) }
{
    let section = s.section[i];
    let there = section.task.0 < s.tasks && section.resource <= 15;
    if !(there && 1 <= section.length && section.length <= MILLION) {
        return Err(Refusal::BadSection);
    }
    match s.section[i].parent {
        None => Ok(()),
        Some(p) => parent_refusal(s, i, p as usize),
    }
}

// 41 and 42, by section.
fn sections_refusal(s: &Sections) -> Result<(), Refusal>
    requires { s.now.count ≤ section_numbers }
    ensures { numbered result ≡ verdict (fold_to s.now.count (section_refusal s.now) none) }
{
    for i in 0..s.count as usize {
        section_refusal(s, i)?;
    }
    Ok(())
}

// The section's length if it is a direct child of i.
fn child_length(section: Section, i: usize) -> u64
    ensures is { result ≡ (if directly_in section.parent (Some i) then section.length else 0) }
    ensures small { result < 4294967296 }
{
    match section.parent {
        Some(p) if p as usize == i => section.length as u64,
        _ => 0,
    }
}

// Rule 12.2: what stands directly in section i is together no longer than it is.
fn children_fit(s: &Sections, i: usize) -> bool
    requires { (s.now.count ≤ section_numbers) × (i < section_numbers) }
    ensures { result ≡ children_fit s.now i }
{
    let children = &s.section[..s.count as usize];
    let sum: u64 = children.iter().map(|child| child_length(*child, i)).sum();
    sum <= s.section[i].length as u64
}

// 43 is for a table of which this does not hold.
fn all_children_fit(s: &Sections) -> bool
    requires { s.now.count ≤ section_numbers }
    ensures { result ≡ all_to s.now.count (children_fit s.now) }
{
    (0..s.count as usize).all(|i| children_fit(s, i))
}

// 40 is for a table of which this does not hold.
fn counts_fit(s: &Sections) -> bool
    ensures { result ≡ counts_fit s.now }
{
    1 <= s.tasks && s.tasks as usize <= TASKS && s.count as usize <= SECTIONS
}

// 40 to 43.
pub fn table_refusal(s: Sections) -> Result<(), Refusal>
    ensures { numbered result ≡ verdict (table_refusal s) }
{
    if !counts_fit(&s) {
        return Err(Refusal::BadSectionCounts);
    }
    sections_refusal(&s)?;
    refused_if(Refusal::ChildrenTooLong, !all_children_fit(&s))
}

// 40 to 45.
pub(crate) fn refusal(s: Sections, task: TaskNo, allowance: u32) -> Result<(), Refusal>
    ensures { numbered result ≡ verdict (refusal s task.0 allowance) }
{
    table_refusal(s)?;
    if s.tasks <= task.0 {
        return Err(Refusal::NoSuchBoundTask);
    }
    if allowance == 0 || MILLION < allowance {
        return Err(Refusal::BadAllowance);
    }
    Ok(())
}
