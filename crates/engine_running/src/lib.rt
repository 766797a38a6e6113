// Run station, and what run lowest does once its station is known: the first unrun event of a station is run.
//
// A call first judges, by reading alone, and then changes: so a refusal leaves the buffer as it was. Each takes any bytes; a buffer that is too short for the
// numbers of its own header, which no opening leaves so, is refused with 7.

#![tactic(auto)]

ghost use Rattle.std.specs.Prelude.{◌≡◌, ◌≤◌, length};
ghost use Rattle.rules.specs.Engine.Call.{RunStation};
ghost use Rattle.engine_promises.specs.Answers.{run_said};
ghost use Rattle.engine_promises.specs.Promises.{Answered};
ghost use Rattle.engine_promises.specs.Steps.{HasRoom};
ghost use Rattle.engine_running.specs.Steps.{AddsSend, JudgesRun, RunsNode};
ghost use Rattle.engine_running.specs.Promises.{RunsAt};
ghost use Rattle.line.specs.Answer.{sends_of};
ghost use Rattle.engine_events.specs.Promises.{AfterHeader};

use engine_answers::RunAnswer;
use engine_rollback::Added;
use line::{Effect, Event};
use refusal::Refusal;

// ---- sends

// How many events a place for a send has.
fn sends(s: Option<Event>) -> u16
    ensures { result ≡ length (sends_of s) }
{
    match s {
        None => 0,
        Some(_) => 1,
    }
}

// How many places are free; 2 where more are.
fn free_places(b: &[u8], n: u16, c: u16) -> u16
    ensures { HasRoom n c b.now result }
{
    let x = engine_ends::first_free(b, n, c);
    if x == 0 {
        return 0;
    }
    if engine_index::next(b, n, c, x) == engine_index::free_ring(n) {
        return 1;
    }
    2
}

// A send is added, where there is one; its node is 0 where there is none.
fn add_send(b: &mut [u8], n: u16, c: u16, s: Option<Event>) -> Added
    ensures frame { AfterHeader b.old b.new }
    ensures few { result.undone ≤ c }
    ensures adds { AddsSend n c b.old s result.node result.undone b.new }
{
    match s {
        None => Added { node: 0, undone: 0 },
        Some(e) => engine_rollback::add(b, n, c, e),
    }
}

// ---- a station's run

// What judging a run finds: the node of the station's first unrun event and what running it does.
#[derive(Clone, Copy)]
struct NextRun {
    node: u16,
    effect: Effect,
}

// The run of station s is judged.
fn judge_run(b: &[u8], n: u16, c: u16, s: u16) -> Result<NextRun, Refusal>
    ensures { JudgesRun n c s b.now result }
{
    if !engine_events::fits(b, n, c) {
        return Err(Refusal::Space);
    }
    if n <= s {
        return Err(Refusal::Station);
    }
    let x = engine_ends::first_unrun(b, n, c, s);
    let i = engine_index::slot_in(b, n, c, x);
    if c <= i {
        return Err(Refusal::Idle);
    }
    let e = engine_rows::event(b, n, i);
    let config = engine_rows::config(b, n, s);
    let state = engine_rows::state(b, n, s);
    let effect = line_running::run_event(config, state, e).ok_or(Refusal::Count)?;
    let one = effect.first;
    let two = effect.second;
    if free_places(b, n, c) < sends(one) + sends(two) {
        return Err(Refusal::Full);
    }
    Ok(NextRun { node: x, effect })
}

// The event of that node is run, and its sends are added in order. Answers how many events are undone.
fn run_node(b: &mut [u8], n: u16, c: u16, x: u16, effect: Effect) -> u64
    ensures { RunsNode n c x effect result b.old b.new }
{
    let one = effect.first;
    let two = effect.second;
    let after = effect.state;
    let first = add_send(b, n, c, one);
    let second = add_send(b, n, c, two);
    engine_moves::run(b, n, c, x, after, first.node, second.node);
    first.undone + second.undone
}

// The first unrun event of station s is run.
pub fn run_at(b: &mut [u8], n: u16, c: u16, s: u16) -> Result<RunAnswer, Refusal>
    ensures { RunsAt n c s result b.old b.new }
{
    let NextRun { node, effect } = judge_run(b, n, c, s)?;
    let undone = run_node(b, n, c, node, effect);
    let station = s as u64;
    Ok(RunAnswer { station, undone })
}

// ---- the call

// The station's least unrun event is run.
pub fn run_station(b: &mut [u8], station: u64) -> Result<RunAnswer, Refusal>
    ensures { Answered (RunStation station) (run_said result) b.old b.new }
{
    if 65535 < station {
        return Err(Refusal::Station);
    }
    let n = engine_promises::stations(b);
    let c = engine_promises::capacity(b);
    run_at(b, n, c, station as u16)
}
