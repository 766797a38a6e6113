// Commit and record: the run events before a time leave for the log; a station's state at the commit time.
//
// A call first judges, by reading alone, and then changes: so a refusal leaves the buffer as it was. Each takes any bytes; a buffer that is too short for the
// numbers of its own header, which no opening leaves so, is refused with 7.

#![tactic(auto)]

ghost use Rattle.std.specs.Prelude.{◌≤◌};
ghost use Rattle.rules.specs.Engine.Call.{Commit, Record};
ghost use Rattle.engine_promises.specs.Answers.{commit_said, record_said};
ghost use Rattle.engine_promises.specs.Promises.{Answered, Commits};
ghost use Rattle.engine_committing.specs.Steps.{Early, Counts, Writes, JudgesCommit};
ghost use Rattle.engine_events.specs.Promises.{AfterHeader};

use line::State;
use refusal::{HORIZON, Refusal};

// ---- commit

// Does an unrun event lie before the time?
fn unrun_before(b: &[u8], n: u16, c: u16, time: u64) -> bool
    ensures { Early n c b.now time result }
{
    match engine_events::lowest(b, n, c) {
        Ok(least) => least.time < time,
        Err(_) => false,
    }
}

// How many run events of the log's front lie before the time.
fn count_before(b: &[u8], n: u16, c: u16, time: u64) -> u16
    ensures few { result ≤ c }
    ensures counts { Counts n c b.now time result }
{
    let mut x = engine_ends::first_logged(b, n, c);
    for count in 0..c {
        let i = engine_index::slot_in(b, n, c, x);
        if c <= i {
            return count;
        }
        if time <= engine_rows::time(b, n, i) {
            return count;
        }
        x = engine_index::next_logged(b, n, c, x);
    }
    c
}

// The log's first events are written, 24 bytes each, and leave.
fn write_first(b: &mut [u8], n: u16, c: u16, count: u16, out: &mut [u8])
    ensures frame { AfterHeader b.old b.new }
    ensures writes { Writes n c b.old count out.old b.new out.new }
{
    for k in 0..count {
        let x = engine_ends::first_logged(b, n, c);
        let i = engine_index::slot_in(b, n, c, x);
        if c <= i {
            return;
        }
        let e = engine_rows::event(b, n, i);
        entry::write(out, 24 * k as u32, e);
        engine_moves::release(b, n, c, x);
    }
}

// What judging a commit finds: how many events it writes, with the line's numbers of stations and slots.
#[derive(Clone, Copy)]
struct Front {
    n: u16,
    c: u16,
    count: u16,
}

// The commit is judged, for an output of so many bytes.
fn judge_commit(b: &[u8], time: u64, room: usize) -> Result<Front, Refusal>
    ensures { JudgesCommit time room b.now result }
{
    let n = engine_promises::stations(b);
    let c = engine_promises::capacity(b);
    if !engine_events::fits(b, n, c) {
        return Err(Refusal::Space);
    }
    if HORIZON + 1 < time {
        return Err(Refusal::Late);
    }
    if time < engine_rows::header(b, engine_rows::COMMIT_TIME) {
        return Err(Refusal::Early);
    }
    if unrun_before(b, n, c, time) {
        return Err(Refusal::Unrun);
    }
    let count = count_before(b, n, c, time);
    if room < 24 * count as usize {
        return Err(Refusal::Output);
    }
    Ok(Front { n, c, count })
}

// Every event before the time is written and dropped, and the time is the commit time.
pub fn commit(b: &mut [u8], time: u64, out: &mut [u8]) -> Result<u64, Refusal>
    ensures { Commits (Commit time) (commit_said result) b.old b.new out.old out.new }
{
    let Front { n, c, count } = judge_commit(b, time, out.len())?;
    write_first(b, n, c, count, out);
    engine_rows::set_header(b, engine_rows::COMMIT_TIME, time);
    engine_moves::raise(b, n, c, time);
    Ok(count as u64)
}

// ---- record

// The station's state as of the commit time: the one from before its first run event, and the current one where none is run.
pub fn record(b: &[u8], station: u64) -> Result<State, Refusal>
    ensures { Answered (Record station) (record_said result) b.now b.now }
{
    let n = engine_promises::stations(b);
    let c = engine_promises::capacity(b);
    if !engine_events::fits(b, n, c) {
        return Err(Refusal::Space);
    }
    if n as u64 <= station {
        return Err(Refusal::Station);
    }
    let s = station as u16;
    let x = engine_ends::first_run(b, n, c, s);
    if x == 0 {
        return Ok(engine_rows::state(b, n, s));
    }
    Ok(engine_events::saved(b, n, x))
}
