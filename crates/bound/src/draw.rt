// A table that is accepted, drawn out once for all that is calculated from it: with the outer resources of each section, and where the sections stand
// that a calculation goes over. Entries past the count are not read. Assumes nothing.
ghost use Rattle.std.specs.Prelude.{◌≡◌, ℕ, ◌<◌, get_or, IfSome};
ghost use Rattle.std.proofs.Math.Option.{none};
ghost use Rattle.bound.specs.Sets.{task_numbers, resource_numbers};
ghost use Rattle.bound.specs.Table.{section_numbers, outer, table_refusal};
ghost use Rattle.bound.specs.Computed.{no_bits, resources_of, on_span, in_span, widened, Spanned, Laid, Laid-prop};

use crate::{Resources, SECTIONS, Sections, Span};

// A span for each task and resource, then one for no section and one for each section.
pub(crate) const SPANS: usize = 109;

const IN_SPANS: usize = 96;

impl Span {
    // The span with section i at its end.
    fn widened(self, i: usize) -> Span
        requires { i < section_numbers }
        ensures { result ≡ widened self i }
    {
        let i = i as u8;
        Span {
            from: if self.end == 0 { i } else { self.from },
            end: i + 1,
        }
    }
}

// No calculation looks at a section outside the span that it asks for (`Spans.spans_done`, `Skips`).
#[derive(Drop)]
pub(crate) struct Drawing {
    pub sections: Sections,
    pub outers: [Resources; SECTIONS],
    pub spans: [Span; SPANS],
    ghost laid: { Laid sections outers spans } by { Laid-prop sections outers spans },
}

impl Drawing {
    pub(crate) fn of(sections: Sections) -> Drawing
        requires { table_refusal sections ≡ none }
        ensures { result.sections ≡ sections }
    {
        Drawing {
            sections,
            outers: outers(&sections),
            spans: spans(&sections),
        }
    }
}

// The number of the span of a task's sections on a resource. `small` follows from `is`, and saves every caller the proof of its index; so below.
pub(crate) fn on_span(task: usize, resource: usize) -> usize
    requires { (task < task_numbers) × (resource < resource_numbers) }
    ensures is { result ≡ on_span task resource }
    ensures small { result < 109 }
{
    task * 16 + resource
}

// The number of the span of the sections directly in a section, or in none.
pub(crate) fn in_span(parent: Option<u16>) -> usize
    requires { IfSome parent (λ p. p < section_numbers) }
    ensures is { result ≡ in_span parent }
    ensures small { result < 109 }
{
    match parent {
        None => IN_SPANS,
        Some(p) => IN_SPANS + 1 + p as usize,
    }
}

// The outer resources of section i, from those of the sections before it: a parent comes before its children.
fn outer_of(s: &Sections, outers: &[Resources; SECTIONS], i: usize) -> Resources
    requires accepted { table_refusal s.now ≡ none }
    requires there { i < s.now.count }
    requires drawn { (j : ℕ) → j < i → resources_of (get_or outers.now j no_bits).bits ≡ outer s.now j }
    ensures { resources_of result.bits ≡ outer s.now i }
{
    match s.section[i].parent {
        None => Resources::NONE,
        Some(p) => {
            let p = p as usize;
            outers[p].with(s.section[p].resource as usize)
        }
    }
}

fn outers(s: &Sections) -> [Resources; SECTIONS]
    requires { table_refusal s.now ≡ none }
    ensures { (i : ℕ) → i < s.now.count → resources_of (get_or result i no_bits).bits ≡ outer s.now i }
{
    let mut drawn = [Resources::NONE; SECTIONS];
    // one by one, and not by from_fn: each is made of those before it
    for i in 0..s.count as usize {
        drawn[i] = outer_of(s, &drawn, i);
    }
    drawn
}

fn spans(s: &Sections) -> [Span; SPANS]
    requires { table_refusal s.now ≡ none }
    ensures { Spanned s.now result }
{
    let empty = Span { from: 0, end: 0 };
    let mut drawn = [empty; SPANS];
    // by numbers, which are what a span is made of
    for i in 0..s.count as usize {
        let section = s.section[i];
        let on = on_span(section.task.0 as usize, section.resource as usize);
        drawn[on] = drawn[on].widened(i);
        let inside = in_span(section.parent);
        drawn[inside] = drawn[inside].widened(i);
    }
    drawn
}
