// The end of a chain (rule 3.2), by the links: each call goes on to the owner with one task fewer left. Assumes nothing.
ghost use Rattle.std.specs.Prelude.{◌≡◌};
ghost use Rattle.chain.specs.Arrays.{ends_of};
ghost use Rattle.chain.specs.Computed.{end_by, ends_by};
ghost use Rattle.model.specs.State.{served};

use crate::links::{links_by, numbers, owners, wanted};
use model::{State, TaskNo};
use std::array;

// Where the chain of t leads with so many tasks left.
fn end_of(links: &[u16; 16], t: u16, left: u16) -> u16
    ensures { result ≡ end_by left links.now t }
{
    if left == 0 {
        return t;
    }
    if t >= 16 {
        return t;
    }
    let owner = links[t as usize];
    if owner >= 16 {
        return t;
    }
    end_of(links, owner, left - 1)
}

// The end of each chain, from the owners' numbers and what the tasks wait for.
pub fn ends_by(owners: &[u16; 16], wants: &[u16; 16]) -> [TaskNo; 16]
    ensures { result ≡ ends_by owners.now wants.now }
{
    let links = links_by(owners, wants);
    array::from_fn(|t| TaskNo(end_of(&links, t as u16, 16)))
}

// The end of each chain of a state. The end of a number that is not in use is that number.
pub fn chain_ends(st: State) -> [TaskNo; 16]
    ensures { result ≡ ends_of st }
{
    let held = numbers(owners(st));
    let wants = wanted(st);
    ends_by(&held, &wants)
}

// The chain end of one task. A number that is not in use is its own end; in a closed chain it is where sixteen links lead.
pub fn chain_end(st: State, t: TaskNo) -> TaskNo
    ensures { result ≡ record { 0 = served st t.0 } }
{
    let held = numbers(owners(st));
    let wants = wanted(st);
    let links = links_by(&held, &wants);
    TaskNo(end_of(&links, t.0, 16))
}
