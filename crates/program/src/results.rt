//! Several answers, of whose causes the least is told.

ghost use Rattle.std.specs.Prelude.{◌≡◌};
ghost use Rattle.program.specs.Causes as causes;

use program_text::ProgramCause;

/// Both, or the least of what is wrong with them.
pub fn both<A: Drop, B: Drop>(
    first: Result<A, ProgramCause>,
    second: Result<B, ProgramCause>,
) -> Result<(A, B), ProgramCause>
    ensures { result ≡ causes.both first second }
{
    match (first, second) {
        (Ok(first), Ok(second)) => Ok((first, second)),
        (Ok(_), Err(cause)) => Err(cause),
        (Err(cause), Ok(_)) => Err(cause),
        (Err(cause), Err(other)) => Err(cause.least(other)),
    }
}

/// The answer, of which this cause holds too if the test does.
pub fn too_if<A: Drop>(
    test: bool,
    cause: ProgramCause,
    answer: Result<A, ProgramCause>,
) -> Result<A, ProgramCause>
    ensures { result ≡ causes.too_if test cause answer }
{
    if !test {
        return answer;
    }
    match answer {
        Ok(_) => Err(cause),
        Err(other) => Err(cause.least(other)),
    }
}
