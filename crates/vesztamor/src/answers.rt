// Answers as one number: the word's number in bits 56 to 63, what follows in bits 32 to 55, the number in bits 0 to 31. Assumes nothing.
ghost use Rattle.std.specs.Prelude.{◌≡◌};
ghost use Rattle.std.proofs.Math.Option.{none};
ghost use Rattle.model.specs.Refusals.{refusal_no};
ghost use Rattle.model.specs.Said.{refused, said, is_refused};
ghost use Rattle.settle.specs.Doing.{said_doing};
ghost use Rattle.vesztamor.specs.Packed.{packed};
ghost use Rattle.vesztamor.specs.Exported.{doing_told};

use model::{Answer, Refusal};
use settle::Doing;

// 2 ^ 56, where the word stands
const WORD: u64 = 72057594037927936;

// 2 ^ 32, where what follows stands
const FURTHER: u64 = 4294967296;

const EXECUTES: u64 = WORD;

const SPINS: u64 = 2 * WORD;

const GRANTED: u64 = 3 * WORD;

const WAITS: u64 = 4 * WORD;

const PASSED: u64 = 5 * WORD;

const FREED: u64 = 6 * WORD;

const REFUSED: u64 = 7 * WORD;

// the refusal that a resource follows
const WAITING: u64 = 62;

// memory of another length than was asked for: 0, which is the number of no refusal
const UNFIT: u64 = REFUSED;

pub fn unfit() -> u64
    ensures { result ≡ packed (refused, 0, none) }
{
    UNFIT
}

pub fn refused(refusal: Refusal) -> u64
    ensures { result ≡ packed (refused, refusal_no refusal, none) }
{
    REFUSED + u64::from(u16::from(refusal))
}

pub fn step_answer(answer: Answer) -> u64
    ensures { result ≡ packed (said answer) }
{
    match answer {
        Answer::Ok(n) => u64::from(n),
        Answer::Executes(t) => EXECUTES + u64::from(t.0),
        Answer::Spins(t) => SPINS + u64::from(t.0),
        Answer::Granted(r) => GRANTED + u64::from(r),
        Answer::Waits(t) => WAITS + u64::from(t.0),
        Answer::Passed(t) => PASSED + u64::from(t.0),
        Answer::Freed(r) => FREED + u64::from(r),
        Answer::Refused(n) => REFUSED + u64::from(n),
        // one more than the resource, since 0 says that nothing follows
        Answer::RefusedWaiting(r) => REFUSED + (u64::from(r) + 1) * FURTHER + WAITING,
    }
}

pub fn is_refused(answer: Answer) -> bool
    ensures { result ≡ is_refused answer }
{
    matches!(answer, Answer::Refused(_) | Answer::RefusedWaiting(_))
}

pub fn doing_answer(doing: Doing) -> u64
    ensures { result ≡ packed (doing_told (said_doing doing)) }
{
    match doing {
        Doing::Executes(t) => EXECUTES + u64::from(t.0),
        Doing::Spins(t) => SPINS + u64::from(t.0),
        Doing::NotRunning => 0,
    }
}
