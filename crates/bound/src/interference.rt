// The interference sum and the ordering value (rules 12.4 and 12.5). Each calls the other with fewer tasks left or one level deeper. An allowance is
// spent for each section weighed, and nothing more is weighed once it is exceeded. The table comes drawn out (`draw`), so that no weighing copies it.
// A contract says what a function leaves of the allowance (`spend`) for the calculation of `Interference` that it names; the law in brackets is what
// joins the code's way with that definition. Assumes nothing.
ghost use Rattle.std.specs.Prelude.{◌≡◌, true, ◌&&◌, ◌-◌, ◌<◌, ◌≤◌, eqb, None, IfSome};
ghost use Rattle.bound.specs.Sets.{task_numbers, resource_numbers, has};
ghost use Rattle.bound.specs.Table.{section_numbers, directly_in};
ghost use Rattle.bound.specs.Interference.{weighing, weighed_on, best, held_after, tried_next, order, blockers, ordering, sum_over, level};
ghost use Rattle.bound.specs.Computed.{resources_of, spend, Fair};

use crate::draw::Drawing;
use crate::{Resources, SECTIONS, Section, TASKS, Tally, draw, sets};

impl Tally {
    fn nothing(allowance: u32) -> Tally
        ensures { result ≡ record { value = 0; giver = None; left = allowance } }
    {
        Tally {
            value: 0,
            giver: None,
            left: allowance,
        }
    }
}

// How far a calculation still goes: past the tasks of B, with how many tasks outside B, and how deep or with how many tasks left to order.
#[derive(Clone, Copy)]
pub(crate) struct Reach {
    pub b: [bool; TASKS],
    pub left: usize,
    pub depth: usize,
}

impl Section {
    // Whether it is the task's, on the resource.
    fn is_on(self, task: usize, resource: usize) -> bool
        ensures { result ≡ (eqb self.task.0 task && eqb self.resource resource) }
    {
        self.task.0 as usize == task && self.resource as usize == resource
    }

    // Whether it is the task's, directly in the parent.
    fn is_in(self, task: usize, parent: Option<u16>) -> bool
        ensures { result ≡ (eqb self.task.0 task && directly_in self.parent parent) }
    {
        self.task.0 as usize == task && self.parent == parent
    }
}

impl Drawing {
    // Held once the giver, a section or none, has been chosen.
    fn held_after(&self, held: Resources, giver: Option<usize>) -> Resources
        requires { IfSome giver (λ i. i < self.now.sections.count) }
        ensures { resources_of result.bits ≡ held_after self.now.sections (resources_of held.bits) giver }
    {
        match giver {
            None => held,
            Some(i) => held.joined(self.outers[i]),
        }
    }

    // Who has a section on the resource and is not in B.
    fn blockers(&self, b: [bool; TASKS], resource: usize) -> [bool; TASKS]
        ensures { result ≡ blockers self.now.sections resource b }
    {
        let mut found = [false; TASKS];
        for section in &self.sections.section[..self.sections.count as usize] {
            let task = section.task.0 as usize;
            if section.resource as usize == resource && !b[task] {
                found[task] = true;
            }
        }
        found
    }

    // What section i weighs, if it is the task's on the resource: nothing where its outer resources meet Held, else its length and its
    // children (`Steps.weigh_is`).
    #[cycle(interference)]
    fn weigh(
        &self,
        reach: Reach,
        held: Resources,
        resource: usize,
        task: usize,
        i: usize,
        allowance: u32,
    ) -> Option<Tally>
        requires { (task < task_numbers) × (i < self.now.sections.count) × (reach.left ≤ task_numbers) }
        ensures is { let s = self.now.sections in result ≡ spend (weighed_on (weighing (level reach.left section_numbers s) s reach.b (resources_of held.bits)) s resource task i) allowance }
        ensures fair { Fair self.now.sections.count allowance result }
    {
        let section = self.sections.section[i];
        if !section.is_on(task, resource) {
            return Some(Tally::nothing(allowance));
        }
        if allowance == 0 {
            return None;
        }
        let kept = allowance - 1;
        let outer = self.outers[i];
        if outer.meets(held) {
            return Some(Tally::nothing(kept));
        }
        let below = Reach {
            b: sets::put(reach.b, task, true),
            depth: SECTIONS,
            ..reach
        };
        let joint = held.joined(outer);
        let nested = self.interference_sum(below, task, Some(i as u16), joint, kept)?;
        Some(Tally {
            value: section.length as u64 + nested.value,
            giver: None,
            left: nested.left,
        })
    }

    // The first of the greatest of the task's sections on the resource, by number (`Skips.best_to_lem`).
    #[cycle(interference)]
    fn first_greatest(
        &self,
        reach: Reach,
        held: Resources,
        resource: usize,
        task: usize,
        allowance: u32,
    ) -> Option<Tally>
        requires { (task < task_numbers) × (reach.left ≤ task_numbers) × (resource < resource_numbers) }
        ensures is { let s = self.now.sections in result ≡ spend (best (weighing (level reach.left section_numbers s) s reach.b (resources_of held.bits)) s resource task) allowance }
        ensures fair { Fair self.now.sections.count allowance result }
    {
        let span = self.spans[draw::on_span(task, resource)];
        let mut best = Tally::nothing(allowance);
        for i in span.from as usize..span.end as usize {
            let weighed = self.weigh(reach, held, resource, task, i, best.left)?;
            best = if best.value < weighed.value {
                Tally {
                    giver: Some(i),
                    ..weighed
                }
            } else {
                Tally {
                    left: weighed.left,
                    ..best
                }
            };
        }
        Some(best)
    }

    // The tree of orders (rule 12.8) under this task, which remains and comes next (`Steps.tried_is`).
    #[cycle(interference)]
    fn tried_next(
        &self,
        reach: Reach,
        remaining: [bool; TASKS],
        held: Resources,
        resource: usize,
        task: usize,
        allowance: u32,
    ) -> Option<Tally>
        requires { (task < task_numbers) × (reach.left ≤ task_numbers) × (1 ≤ reach.depth) × (reach.depth ≤ task_numbers) × (resource < resource_numbers) × (has remaining task ≡ true) }
        ensures is { let s = self.now.sections in let weigh = weighing (level reach.left section_numbers s) s in result ≡ spend (tried_next weigh (order (reach.depth - 1) weigh s resource) s resource reach.b remaining (resources_of held.bits) task) allowance }
        ensures fair { Fair self.now.sections.count allowance result }
    {
        let next = self.first_greatest(reach, held, resource, task, allowance)?;
        let shorter = Reach {
            depth: reach.depth - 1,
            ..reach
        };
        let fewer = sets::put(remaining, task, false);
        let holding = self.held_after(held, next.giver);
        let later = self.largest_order(shorter, fewer, holding, resource, next.left)?;
        Some(Tally {
            value: next.value + later.value,
            giver: None,
            left: later.left,
        })
    }

    // The largest sum over the orders of the remaining tasks (`Steps.order_made`).
    #[cycle(interference)]
    fn largest_order(
        &self,
        reach: Reach,
        remaining: [bool; TASKS],
        held: Resources,
        resource: usize,
        allowance: u32,
    ) -> Option<Tally>
        requires { (reach.left ≤ task_numbers) × (reach.depth ≤ task_numbers) × (resource < resource_numbers) }
        ensures is { let s = self.now.sections in result ≡ spend (order reach.depth (weighing (level reach.left section_numbers s) s) s resource reach.b remaining (resources_of held.bits)) allowance }
        ensures fair { Fair self.now.sections.count allowance result }
    {
        let mut largest = Tally::nothing(allowance);
        if reach.depth == 0 {
            return Some(largest);
        }
        for task in 0..TASKS {
            if !remaining[task] {
                continue;
            }
            let tried = self.tried_next(reach, remaining, held, resource, task, largest.left)?;
            largest = Tally {
                value: largest.value.max(tried.value),
                giver: None,
                left: tried.left,
            };
        }
        Some(largest)
    }

    // The ordering value of a section on the resource (rule 12.5); `entry` is what Held begins as (`Steps.own_is`).
    #[cycle(interference)]
    fn ordering_value(
        &self,
        reach: Reach,
        resource: usize,
        entry: Resources,
        allowance: u32,
    ) -> Option<Tally>
        requires { (1 ≤ reach.left) × (reach.left ≤ task_numbers) × (resource < resource_numbers) }
        ensures is { let s = self.now.sections in result ≡ spend (ordering reach.left (level (reach.left - 1) section_numbers s) s reach.b resource (resources_of entry.bits)) allowance }
        ensures fair { Fair self.now.sections.count allowance result }
    {
        let found = self.blockers(reach.b, resource);
        let across = Reach {
            left: reach.left - 1,
            depth: reach.left,
            ..reach
        };
        self.largest_order(across, found, entry, resource, allowance)
    }

    // What section c adds to a sum (rule 12.4), if it stands in the parent: both parts are found with its own resource added to R
    // (`Steps.sum_is_lem`).
    #[cycle(interference)]
    fn sum_over(
        &self,
        reach: Reach,
        task: usize,
        parent: Option<u16>,
        r: Resources,
        c: usize,
        allowance: u32,
    ) -> Option<Tally>
        requires { (c < self.now.sections.count) × (1 ≤ reach.left) × (reach.left ≤ task_numbers) × (1 ≤ reach.depth) × (reach.depth ≤ section_numbers) }
        ensures is { let s = self.now.sections in result ≡ spend (sum_over (ordering reach.left (level (reach.left - 1) section_numbers s) s reach.b) (level reach.left (reach.depth - 1) s reach.b task) s task parent (resources_of r.bits) c) allowance }
        ensures fair { Fair self.now.sections.count allowance result }
    {
        let section = self.sections.section[c];
        if !section.is_in(task, parent) {
            return Some(Tally::nothing(allowance));
        }
        let resource = section.resource as usize;
        let wider = r.with(resource);
        let ordered = self.ordering_value(reach, resource, wider, allowance)?;
        let inner = Reach {
            depth: reach.depth - 1,
            ..reach
        };
        let nested = self.interference_sum(inner, task, Some(c as u16), wider, ordered.left)?;
        Some(Tally {
            value: ordered.value + nested.value,
            giver: None,
            left: nested.left,
        })
    }

    // Rule 12.4, of the task's sections that stand directly in the parent (`Skips.sum_to`, `Steps.sum_made`).
    #[cycle(interference)]
    pub(crate) fn interference_sum(
        &self,
        reach: Reach,
        task: usize,
        parent: Option<u16>,
        r: Resources,
        allowance: u32,
    ) -> Option<Tally>
        requires { (reach.left ≤ task_numbers) × (reach.depth ≤ section_numbers) × IfSome parent (λ p. p < section_numbers) }
        ensures is { let s = self.now.sections in result ≡ spend (level reach.left reach.depth s reach.b task parent (resources_of r.bits)) allowance }
        ensures fair { Fair self.now.sections.count allowance result }
    {
        let mut sum = Tally::nothing(allowance);
        if reach.left == 0 || reach.depth == 0 {
            return Some(sum);
        }
        let span = self.spans[draw::in_span(parent)];
        for c in span.from as usize..span.end as usize {
            let added = self.sum_over(reach, task, parent, r, c, sum.left)?;
            sum = Tally {
                value: sum.value + added.value,
                giver: None,
                left: added.left,
            };
        }
        Some(sum)
    }
}
