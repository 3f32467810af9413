// A state with what the test reads off it, each array once and where it is wanted first, so that a state that fails before is refused without it. That the
// arrays are this state's stands in the types, so that no test has to ask for it. Assumes that the state has no more resources than places.
ghost use Rattle.std.specs.Prelude.{◌≡◌, ◌&&◌, ◌<◌, ◌≤◌};
ghost use Rattle.laws.specs.Loops.{sum_to};
ghost use Rattle.model.specs.State.{owner_of};
ghost use Rattle.model.specs.Sound.{each, if_here, if_present};
ghost use Rattle.chain.specs.Arrays.{array_of, wanted_of, ends_of, runs_for};
ghost use Rattle.soundness.specs.Computed.{task_passes_at, depth_at, tasks_pass, resource_passes_at, length_at, resources_pass, server_passes_at, servers_pass};

use crate::entries::{executes_passes, resource_passes, server_passes, task_passes};
use crate::lists::used;
use chain::links::{at_or_nobody, numbers, owners, wanted};
use chain::servers::running_for;
use chain::walk::ends_by;
use model::entries::in_use;
use model::{State, TaskNo};

// Who owns each resource.
#[derive(Clone, Copy)]
pub(crate) struct Reading<'a> {
    st: &'a State,
    owners: [u16; 16],
    ghost sizes: { st.now.resources ≤ 16 },
    ghost owners_read: { owners ≡ array_of (owner_of st.now) },
}

// And what each task waits for.
#[derive(Clone, Copy)]
struct Waits<'a> {
    reading: Reading<'a>,
    wants: [u16; 16],
    ghost wants_read: { wants ≡ wanted_of reading.st.now },
}

// And where each chain ends, and whom the servers run for.
#[derive(Clone, Copy)]
struct Chains<'a> {
    waits: Waits<'a>,
    ends: [TaskNo; 16],
    runs_by: [u16; 16],
    ghost ends_read: { ends ≡ ends_of waits.reading.st.now },
    ghost runs_read: { runs_by ≡ array_of (runs_for waits.reading.st.now) },
}

impl<'a> Reading<'a> {
    pub(crate) fn of(st: &'a State) -> Reading<'a>
        requires { st.now.resources ≤ 16 }
        ensures { result.st.now ≡ st.now }
    {
        let owners = numbers(owners(*st));
        Reading { st, owners }
    }

    // Task t, if it is in use.
    #[tactic(auto, unfolding(model::specs::Sound::if_here, model::specs::State::here, crate::specs::Computed::task_passes_at))]
    fn task_passes(&self, t: usize) -> bool
        requires { t < 16 }
        ensures { result ≡ if_here self.now.st.now (task_passes_at self.now.st.now) t }
    {
        let st = self.st;
        !in_use(st.tasks, t)
            || task_passes(st.resources, st.clock, &self.owners, t as u16, &st.task[t])
    }

    // How many entries there are in stacks.
    fn stacked(&self) -> u32
        ensures { result ≡ sum_to 16 (depth_at self.now.st.now) }
    {
        let st = self.st;
        let mut total = 0;
        for (t, task) in st.task.iter().enumerate() {
            if in_use(st.tasks, t) {
                total += u32::from(task.depth);
            }
        }
        total
    }

    // Each task in use, and as many entries in stacks as owned resources.
    fn tasks_pass(&self) -> bool
        ensures { result ≡ tasks_pass self.now.st.now }
    {
        (0..16).all(|t| self.task_passes(t)) && self.stacked() == u32::from(used(&self.owners))
    }

    // All of these, and those of what tasks wait for and of the chains.
    pub(crate) fn passes(&self) -> bool
        ensures { result ≡ (tasks_pass self.now.st.now && resources_pass self.now.st.now && servers_pass self.now.st.now) }
    {
        self.tasks_pass() && Waits::of(*self).passes()
    }
}

impl<'a> Waits<'a> {
    fn of(reading: Reading<'a>) -> Waits<'a>
        ensures { result.reading.st.now ≡ reading.entry.st.now }
    {
        Waits {
            reading,
            wants: wanted(*reading.st),
        }
    }

    // Resource r, if it is in use.
    #[tactic(auto, unfolding(model::specs::Sound::if_present, model::specs::State::present, crate::specs::Computed::resource_passes_at))]
    fn resource_passes(&self, r: usize) -> bool
        requires { r < 16 }
        ensures { result ≡ if_present self.now.reading.st.now (resource_passes_at self.now.reading.st.now) r }
    {
        let st = self.reading.st;
        !in_use(st.resources, r)
            || resource_passes(
                self.reading.owners[r],
                &self.wants,
                r as u16,
                &st.resource[r],
            )
    }

    // How many entries there are in queues. A sum over both arrays alike would take the array, its count and which number to add, and be longer than this.
    fn queued(&self) -> u32
        ensures { result ≡ sum_to 16 (length_at self.now.reading.st.now) }
    {
        let st = self.reading.st;
        let mut total = 0;
        for (r, resource) in st.resource.iter().enumerate() {
            if in_use(st.resources, r) {
                total += u32::from(resource.waiting);
            }
        }
        total
    }

    // Each resource in use, and as many entries in queues as waiting tasks.
    fn resources_pass(&self) -> bool
        ensures { result ≡ resources_pass self.now.reading.st.now }
    {
        (0..16).all(|r| self.resource_passes(r)) && self.queued() == u32::from(used(&self.wants))
    }

    // All of these, and those of the chains.
    fn passes(&self) -> bool
        ensures { result ≡ (resources_pass self.now.reading.st.now && servers_pass self.now.reading.st.now) }
    {
        self.resources_pass() && Chains::of(*self).servers_pass()
    }
}

impl<'a> Chains<'a> {
    fn of(waits: Waits<'a>) -> Chains<'a>
        ensures { result.waits.reading.st.now ≡ waits.entry.reading.st.now }
    {
        let st = waits.reading.st;
        let ends = ends_by(&waits.reading.owners, &waits.wants);
        let runs_by = numbers(running_for(st.server, st.tasks, ends));
        Chains {
            waits,
            ends,
            runs_by,
        }
    }

    // Server i, if it is in use: its own numbers, its chain, the task that it serves, and where its own task executes.
    fn server_passes(&self, i: usize) -> bool
        requires { i < 16 }
        ensures { result ≡ if_here self.now.waits.reading.st.now (server_passes_at self.now.waits.reading.st.now) i }
    {
        let st = self.waits.reading.st;
        if !in_use(st.tasks, i) {
            return true;
        }
        let end = self.ends[i].0 as usize;
        let link = at_or_nobody(&self.waits.reading.owners, self.waits.wants[end]);
        server_passes(st.clock, &st.server[i], link, &st.task[end])
            && executes_passes(&self.runs_by, i as u16, st.task[i].runs)
    }

    // As many running as there are processors (rule 4.6), and each server in use.
    fn servers_pass(&self) -> bool
        ensures { result ≡ servers_pass self.now.waits.reading.st.now }
    {
        used(&self.runs_by) <= self.waits.reading.st.processors
            && (0..16).all(|i| self.server_passes(i))
    }
}
