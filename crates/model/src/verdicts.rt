// What a test says: that it does not refuse, or what refuses, as specs/Verdicts.antt defines it. Assumes nothing.
ghost use Rattle.std.specs.Prelude.{◌≡◌};
ghost use Rattle.model.specs.Verdicts.{refused_if};

// By one test. What refuses is a refusal or, for a caller that has no more, its number.
pub fn refused_if<E: Drop>(refusal: E, refuses: bool) -> Result<(), E>
    ensures { result ≡ refused_if refusal refuses }
{
    if refuses { Err(refusal) } else { Ok(()) }
}
