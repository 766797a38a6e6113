// The least unrun time, and the run to a time. A run to a time returns the number of a refusal that ended it, which is never 17; 17 with the time where the places
// are full; and 256 where the turns were too few.

ghost use Rattle.std.specs.Prelude.{◌≡◌, Result};
ghost use Rattle.refusal.specs.declared.Refusal.{Refusal};
ghost use Rattle.engine_answers.specs.declared.NextAnswer.{NextAnswer};
ghost use Rattle.engine_answers.specs.declared.UntilError.{UntilError};
ghost use Rattle.engine_promises.specs.Promises.{TellsNext};
ghost use Rattle.engine_until.specs.Promises.{RunsUntil};
ghost use Rattle.exports_codes.specs.AnswerCodes.{code_of};
ghost use Rattle.exports_until.specs.UntilCodes.{next_values, until_code, until_values};

use exports_until::{tell_next, tell_until};

#[unsafe(no_mangle)]
pub extern "C" fn engine_next(b: &[u8], at: &mut [u64; 2]) -> u64
    ensures { (a : Result NextAnswer Refusal) × (TellsNext b.now a) × (result ≡ code_of a) × (at.new ≡ next_values a at.old) }
{
    tell_next(engine::next(b), at)
}

#[unsafe(no_mangle)]
pub extern "C" fn engine_run_until(
    b: &mut [u8],
    time: u64,
    turns: u64,
    out: &mut [u8],
    at: &mut [u64; 1],
) -> u64
    ensures { (a : Result Unit UntilError) × (RunsUntil time turns b.old out.old a b.new out.new) × (result ≡ until_code a) × (at.new ≡ until_values a at.old) }
{
    tell_until(engine_until::run_until(b, time, turns, out), at)
}
