// Sets of tasks, a test for each number, and of resources, a bit for each (laws of `Masks`). Assumes nothing.
ghost use Rattle.std.specs.Prelude.{◌≡◌, ◌<◌, set};
ghost use Rattle.bound.specs.Sets.{task_numbers, resource_numbers, with, joined, meets};
ghost use Rattle.bound.specs.Computed.{resources_of};

use crate::{Resources, TASKS};

// The set of tasks with the task in it, or without it.
pub(crate) fn put(mut tasks: [bool; TASKS], task: usize, there: bool) -> [bool; TASKS]
    requires { task < task_numbers }
    ensures { result ≡ set tasks task there }
{
    tasks[task] = there;
    tasks
}

impl Resources {
    pub const NONE: Resources = Resources { bits: 0 };

    #[tactic(auto, using(crate::proofs::Masks::mask_with))]
    pub(crate) fn with(self, resource: usize) -> Resources
        requires { resource < resource_numbers }
        ensures { resources_of result.bits ≡ with (resources_of self.bits) resource }
    {
        Resources {
            bits: (1 << resource) | self.bits,
        }
    }

    // The resources that are in either set.
    #[tactic(auto, using(crate::proofs::Masks::mask_joined))]
    pub(crate) fn joined(self, other: Resources) -> Resources
        ensures { resources_of result.bits ≡ joined (resources_of self.bits) (resources_of other.bits) }
    {
        Resources {
            bits: self.bits | other.bits,
        }
    }

    // Whether some resource is in both sets.
    #[tactic(auto, using(crate::proofs::Masks::mask_meets))]
    pub(crate) fn meets(self, other: Resources) -> bool
        ensures { result ≡ meets (resources_of self.bits) (resources_of other.bits) }
    {
        self.bits & other.bits != 0
    }
}
