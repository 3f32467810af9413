// Stacks and queues: whether the first places of an array are their holder's, each number once, as specs/Computed.antt says. Assumes nothing.
ghost use Rattle.std.specs.Prelude.{◌≡◌, ◌<◌, ◌≤◌};
ghost use Rattle.laws.specs.Loops.{all_to};
ghost use Rattle.soundness.specs.Computed.{other_at, member_at, members_fit, used_in};

use chain::links::at_or_nobody;
use model::entries::in_set;

// Whether x stands at none of the first `count` places.
fn is_new(xs: &[u16; 16], count: usize, x: u16) -> bool
    requires { count ≤ 16 }
    ensures { result ≡ all_to count (other_at xs.now x) }
{
    !xs[..count].contains(&x)
}

// Whether number j is the holder's, is in the set, and stands at no earlier place.
#[tactic(auto, unfolding(crate::specs::Computed::member_at))]
fn member_fits(xs: &[u16; 16], set: u16, owners: &[u16; 16], holder: u16, j: usize) -> bool
    requires { j < 16 }
    ensures { result ≡ member_at xs.now set owners.now holder j }
{
    let x = xs[j];
    at_or_nobody(owners, x) == holder && in_set(set, x as usize) && is_new(xs, j, x)
}

// Whether each of the first `count` numbers is.
#[tactic(auto, unfolding(crate::specs::Computed::members_fit))]
pub fn members_fit(xs: &[u16; 16], count: u16, set: u16, owners: &[u16; 16], holder: u16) -> bool
    ensures { result ≡ members_fit xs.now count set owners.now holder }
{
    count <= 16 && (0..count as usize).all(|j| member_fits(xs, set, owners, holder, j))
}

// How many entries are numbers in use.
pub fn used(xs: &[u16; 16]) -> u16
    ensures { result ≡ used_in xs.now }
{
    let mut count = 0;
    for x in xs {
        count += u16::from(*x < 16);
    }
    count
}
