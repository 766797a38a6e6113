// Running an engine to a time: run lowest and commit, as often as it takes.
//
// A turn is a stretch of runs and one commit, at the least unrun time or at the time itself, whichever is less: so places are freed as events are run, and the
// end is reached by the commit at the time. It takes any bytes.

#![tactic(auto)]

ghost use Rattle.engine_until.specs.Promises.{RunsUntil};
ghost use Rattle.engine_until.specs.Steps.{Goes, Fronts, Stretches, Settles, Turns};

pub use engine_answers::UntilError;
use refusal::Refusal;

// The runs of a turn, at most.
const RUNS: u16 = 256;

// A refusal with 14, 15 or 17 ends nothing: a commit or more runs come after it. False: the time isn't reached.
fn after_refusal(e: Refusal) -> Result<bool, UntilError>
    ensures { Goes e result }
{
    match e {
        Refusal::Idle | Refusal::Unrun | Refusal::Full => Ok(false),
        _ => Err(UntilError::Refused(e)),
    }
}

// The least unrun time, where it is before the time; else the time.
fn front(b: &[u8], time: u64) -> u64
    ensures { Fronts time b.now result }
{
    let Ok(next) = engine::next(b) else {
        return time;
    };
    if next.time < time {
        return next.time;
    }
    time
}

// So many run lowest calls, or as many as are accepted and the refused one.
fn run_some(b: &mut [u8], most: u16) -> Result<(), Refusal>
    ensures { Stretches b.old result b.new }
{
    for _ in 0..most {
        engine::run_lowest(b)?;
    }
    Ok(())
}

// What a stretch, and the commit of so many events at c after it, say of the time: whether it is reached, or why it won't be.
fn settle(ran: Result<(), Refusal>, c: u64, count: u64, time: u64) -> Result<bool, UntilError>
    ensures { Settles ran c count time result }
{
    if c == time {
        return Ok(true);
    }
    match ran {
        Ok(()) => Ok(false),
        Err(Refusal::Full) if count == 0 => Err(UntilError::Busy { time: c }),
        Err(e) => after_refusal(e),
    }
}

// A stretch of runs, and a commit of what has run. Answers whether the time is reached.
fn turn(b: &mut [u8], time: u64, out: &mut [u8]) -> Result<bool, UntilError>
    ensures { Turns time b.old out.old result b.new out.new }
{
    let ran = run_some(b, RUNS);
    let c = front(b, time);
    match engine::commit(b, c, out) {
        Ok(count) => settle(ran, c, count, time),
        Err(e) => after_refusal(e),
    }
}

// All events before the time are run and committed, in at most so many turns of 256 runs. The output has room for a commit's log, which is left there.
pub fn run_until(b: &mut [u8], time: u64, turns: u64, out: &mut [u8]) -> Result<(), UntilError>
    ensures { RunsUntil time turns b.old out.old result b.new out.new }
{
    for _ in 0..turns {
        if turn(b, time, out)? {
            return Ok(());
        }
    }
    Err(UntilError::Unfinished)
}
