// Run lowest: the first unrun event of the station that the calendar names is run. Next: that station and its time, by reading alone.
//
// Run lowest first judges, by reading alone, and then changes: so a refusal leaves the buffer as it was. Both take any bytes; a buffer that is too short for the
// numbers of its own header, which no opening leaves so, is refused with 7.

#![tactic(auto)]

ghost use Rattle.rules.specs.Engine.Call.{RunLowest};
ghost use Rattle.engine_promises.specs.Answers.{lowest_said};
ghost use Rattle.engine_promises.specs.Promises.{Answered, TellsNext};
ghost use Rattle.engine_lowest.specs.Steps.{JudgesLowest};

use calendar_answers::Least;
use engine_answers::{LowestAnswer, NextAnswer};
use refusal::Refusal;

// What judging a run lowest finds: the station that the calendar names and the bitmap words that it read, with the line's numbers of stations and slots.
#[derive(Clone, Copy)]
struct LowestRun {
    n: u16,
    c: u16,
    station: u16,
    words: u64,
}

// A run lowest is judged, but for what refuses the run of its station.
fn judge_lowest(b: &[u8]) -> Result<LowestRun, Refusal>
    ensures { JudgesLowest b.now result }
{
    let n = engine_promises::stations(b);
    let c = engine_promises::capacity(b);
    if !engine_events::fits(b, n, c) {
        return Err(Refusal::Space);
    }
    let Least { station, words, .. } = engine_events::lowest(b, n, c)?;
    if 65535 < station {
        return Err(Refusal::Station);
    }
    let station = station as u16;
    Ok(LowestRun {
        n,
        c,
        station,
        words,
    })
}

// The first unrun event of the station that the calendar names is run; answered with the bitmap words that it read.
pub fn run_lowest(b: &mut [u8]) -> Result<LowestAnswer, Refusal>
    ensures { Answered RunLowest (lowest_said result) b.old b.new }
{
    let LowestRun {
        n,
        c,
        station,
        words,
    } = judge_lowest(b)?;
    let ran = engine_running::run_at(b, n, c, station)?;
    Ok(LowestAnswer {
        station: ran.station,
        undone: ran.undone,
        words,
    })
}

// The station that the calendar names, with the time of its first unrun event.
pub fn next(b: &[u8]) -> Result<NextAnswer, Refusal>
    ensures { TellsNext b.now result }
{
    let n = engine_promises::stations(b);
    let c = engine_promises::capacity(b);
    if !engine_events::fits(b, n, c) {
        return Err(Refusal::Space);
    }
    let Least { station, time, .. } = engine_events::lowest(b, n, c)?;
    Ok(NextAnswer { station, time })
}
