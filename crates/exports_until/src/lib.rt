// The answers of next and of a run to a time as a caller in Rust or C gets them: a number, and the values in the numbers that he lends.

#![tactic(auto)]

ghost use Rattle.std.specs.Prelude.{◌≡◌};
ghost use Rattle.exports_codes.specs.AnswerCodes.{code_of};
ghost use Rattle.exports_until.specs.UntilCodes.{next_values, until_code, until_values};

use engine_answers::{NextAnswer, UntilError};
use exports_codes::answer_codes::code;
use refusal::Refusal;

// The station and its time, or the number of the refusal.
pub fn tell_next(a: Result<NextAnswer, Refusal>, at: &mut [u64; 2]) -> u64
    ensures { (result ≡ code_of a) × (at.new ≡ next_values a at.old) }
{
    if let Ok(n) = a {
        at[0] = n.station;
        at[1] = n.time;
    }
    code(&a)
}

// 0 where it is done; the number of the refusal, which is never 17; 17 with the time where it is busy; 256 where the turns were too few.
pub fn tell_until(a: Result<(), UntilError>, at: &mut [u64; 1]) -> u64
    ensures { (result ≡ until_code a) × (at.new ≡ until_values a at.old) }
{
    match a {
        Ok(()) => 0,
        Err(UntilError::Refused(e)) => refusal::number(e),
        Err(UntilError::Busy { time }) => {
            at[0] = time;
            17
        }
        Err(UntilError::Unfinished) => 256,
    }
}
