// What the answers of more than one crate tell alike.

ghost use Rattle.std.specs.Prelude.{◌≡◌};
ghost use Rattle.refusal.specs.Numbers.{stations_of};
ghost use Rattle.exports_codes.specs.AnswerCodes.{code_of, number_values, first_or};

use refusal::Refusal;

// 0, or the number of the refusal.
pub fn code<T>(a: &Result<T, Refusal>) -> u64
    ensures { result ≡ code_of a.now }
{
    match a {
        Ok(_) => 0,
        Err(e) => refusal::number(*e),
    }
}

// The number goes to the first place of `at`, which a refusal leaves as it was.
pub fn tell_number(a: Result<u64, Refusal>, at: &mut [u64]) -> u64
    ensures { (result ≡ code_of a) × (at.new ≡ number_values a at.old) }
{
    if let Ok(n) = a
        && let Some(first) = at.first_mut()
    {
        *first = n;
    }
    code(&a)
}

// The station of 2, 4 and 5 goes to the first place of `at`.
pub(crate) fn tell_station(e: Refusal, at: &mut [u64; 2])
    ensures { at.new ≡ first_or (stations_of e) at.old }
{
    match e {
        Refusal::Pair(s) | Refusal::Field(s) | Refusal::Name(s) => {
            at[0] = s as u64;
        }
        _ => {}
    }
}
