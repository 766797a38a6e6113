// The engine's answers as numbers. The values of an answer go to `at`, which a refusal leaves as it was, but for the station of 2, 4 and 5 in its first place.

ghost use Rattle.std.specs.Prelude.{◌≡◌};
ghost use Rattle.exports_codes.specs.AnswerCodes.{code_of};
ghost use Rattle.exports_codes.specs.EngineCodes.{open_values, post_values, run_values, lowest_values, record_values};

use super::answer_codes::{code, tell_station};
use engine_answers::{LowestAnswer, PostAnswer, RunAnswer};
use line::State;
use refusal::Refusal;

pub fn tell_open(a: Result<(), Refusal>, at: &mut [u64; 2]) -> u64
    ensures { (result ≡ code_of a) × (at.new ≡ open_values a at.old) }
{
    if let Err(e) = a {
        tell_station(e, at);
    }
    code(&a)
}

pub fn tell_post(a: Result<PostAnswer, Refusal>, at: &mut [u64; 2]) -> u64
    ensures { (result ≡ code_of a) × (at.new ≡ post_values a at.old) }
{
    if let Ok(p) = a {
        at[0] = p.number;
        at[1] = p.undone;
    }
    code(&a)
}

pub fn tell_run(a: Result<RunAnswer, Refusal>, at: &mut [u64; 2]) -> u64
    ensures { (result ≡ code_of a) × (at.new ≡ run_values a at.old) }
{
    if let Ok(r) = a {
        at[0] = r.station;
        at[1] = r.undone;
    }
    code(&a)
}

pub fn tell_lowest(a: Result<LowestAnswer, Refusal>, at: &mut [u64; 3]) -> u64
    ensures { (result ≡ code_of a) × (at.new ≡ lowest_values a at.old) }
{
    if let Ok(l) = a {
        at[0] = l.station;
        at[1] = l.undone;
        at[2] = l.words;
    }
    code(&a)
}

pub fn tell_record(a: Result<State, Refusal>, at: &mut [u64; 7]) -> u64
    ensures { (result ≡ code_of a) × (at.new ≡ record_values a at.old) }
{
    if let Ok(s) = a {
        at[0] = s.draw as u64;
        at[1] = s.level as u64;
        at[2] = s.heard as u64;
        at[3] = s.lost as u64;
        at[4] = s.sent as u64;
        at[5] = s.last;
        at[6] = s.reached as u64;
    }
    code(&a)
}
