// The plan's answers as numbers. The values of an answer go to `at`, which a refusal leaves as it was, but for the station of 2, 4 and 5 in its first place.

ghost use Rattle.std.specs.Prelude.{◌≡◌};
ghost use Rattle.exports_codes.specs.AnswerCodes.{code_of};
ghost use Rattle.exports_codes.specs.PlanCodes.{count_values, placing, name_values};

use super::answer_codes::{code, tell_station};
use refusal::Refusal;

// How many stations were read, or how many bytes were written.
pub fn tell_count(a: Result<usize, Refusal>, at: &mut [u64; 2]) -> u64
    ensures { (result ≡ code_of a) × (at.new ≡ count_values a at.old) }
{
    match a {
        Ok(n) => at[0] = n as u64,
        Err(e) => tell_station(e, at),
    }
    code(&a)
}

// A name's first byte, and its length.
pub fn tell_name(a: Result<(usize, usize), Refusal>, at: &mut [u64; 2]) -> u64
    ensures { (result ≡ code_of a) × (at.new ≡ name_values (placing a) at.old) }
{
    match a {
        Ok((first, len)) => {
            at[0] = first as u64;
            at[1] = len as u64;
        }
        Err(e) => tell_station(e, at),
    }
    code(&a)
}
