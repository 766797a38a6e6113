// The calendar's answers as numbers.

ghost use Rattle.std.specs.Prelude.{◌≡◌};
ghost use Rattle.exports_codes.specs.AnswerCodes.{code_of};
ghost use Rattle.exports_codes.specs.CalendarCodes.{found};

use super::answer_codes::code;
use calendar_answers::Least;
use refusal::Refusal;

// The time, the station and the count of bitmap words read go to `at`, which a refusal leaves as it was.
pub fn tell(l: Result<Least, Refusal>, at: &mut [u64; 3]) -> u64
    ensures { (result ≡ code_of l) × (at.new ≡ found l at.old) }
{
    if let Ok(least) = l {
        at[0] = least.time;
        at[1] = least.station;
        at[2] = least.words;
    }
    code(&l)
}
