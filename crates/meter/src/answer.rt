// What metering answers, before a row is written: it depends on how many rows are lent and not on what they hold. Assumes nothing.
ghost use Rattle.std.specs.Prelude.{◌≡◌};
ghost use Rattle.meter.specs.Decided.{decided_on, written};
ghost use Rattle.model.specs.Meter.{meter_refusal};
ghost use Rattle.model.specs.Refusals.{numbered};
ghost use Rattle.model.specs.Verdicts.{verdict};

use model::{Answer, Refusal, State};
use soundness::sound::is_sound;

// Rule 9.2. A state that is not sound is told before rows that are too few.
#[tactic(auto, unfolding(model::specs::Meter::meter_refusal, laws::specs::Tests::first_of))]
fn test(st: &State, lent: usize) -> Result<(), Refusal>
    ensures { numbered result ≡ verdict (meter_refusal st.now lent) }
{
    if !is_sound(*st) {
        return Err(Refusal::Unsound);
    }
    if lent < st.tasks as usize {
        return Err(Refusal::FewRows);
    }
    Ok(())
}

// As many rows as there are tasks, or the number of the refusal.
#[tactic(auto, using(crate::proofs::Decided::decided_ok, crate::proofs::Decided::decided_refused))]
pub fn decided(st: State, lent: usize) -> Answer
    ensures { result ≡ decided_on st lent }
{
    match test(&st, lent) {
        Ok(()) => Answer::Ok(st.tasks),
        Err(refusal) => Answer::Refused(u16::from(refusal)),
    }
}

// How many rows the answer says are written: none where it refuses.
pub fn rows_written(answer: Answer) -> u16
    ensures { result ≡ written answer }
{
    match answer {
        Answer::Ok(n) => n,
        _ => 0,
    }
}
