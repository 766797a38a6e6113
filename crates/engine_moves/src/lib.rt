// One event is held, run, unrun, discarded or released: its slot with its index, its station's state and the calendar are changed together.
//
// The calendar is told the time of a station's first unrun event when that may have changed. On an engine's bytes it refuses none of these calls, so that
// its answers are left. Each function takes any bytes and any numbers; n stations and c slots are the header's.

#![tactic(auto)]

ghost use Rattle.std.specs.Prelude.{◌≡◌, true, false, ◌+◌, ◌≤◌, ◌<◌, length};
ghost use Rattle.rings.specs.Table.{Frame};
ghost use Rattle.engine_moves.specs.RunCount.{runs_below};
ghost use Rattle.engine_events.specs.Represents.{calendar_at};
ghost use Rattle.engine_events.specs.Promises.{AfterHeader};
ghost use Rattle.engine_moves.specs.Answers.{held_node, has_run_at};
ghost use Rattle.engine_moves.specs.Steps.{Tells};
ghost use Rattle.engine_moves.specs.Promises.{HoldsEvent, RunsEvent, UnrunsEvent, DiscardsEvent, ReleasesEvent, Raises, ClearsEvents};

use line::{Event, State};

// ---- the calendar

// The calendar is told the time of a station's first unrun event.
fn tell(b: &mut [u8], n: u16, c: u16, s: u16)
    requires { (n ≤ 256) × (c ≤ 4096) × (s < n) × (calendar_at n c ≤ length b.old) }
    ensures frame { Frame (calendar_at n c) (length b.old) b.old b.new }
    ensures tells { Tells n c s b.old b.new }
{
    let start = engine_events::calendar_start(n, c) as usize;
    let x = engine_ends::first_unrun(b, n, c, s);
    if x == 0 {
        let _ = calendar::unregister(&mut b[start..], s as u64);
        return;
    }
    let t = engine_rows::time(b, n, engine_index::slot(n, x));
    let _ = calendar::register(&mut b[start..], s as u64, t);
}

// ---- the changes

// An event is held, unrun. Answers its node; 0 where no slot is free, the numbers are out of range, the buffer is too short or the target is no station.
pub fn hold(b: &mut [u8], n: u16, c: u16, e: Event) -> u16
    ensures frame { AfterHeader b.old b.new }
    ensures takes { HoldsEvent n c b.old e result b.new }
    ensures answer { result ≡ held_node b.old n c e }
{
    if engine_events::fits(b, n, c) {
        let t = e.target;
        if t < n {
            if 0 < c {
                let x = engine_filing::put(b, n, c, e);
                tell(b, n, c, t);
                return x;
            }
        }
    }
    0
}

// The first unrun event of its station, of node x, has run: its station's state is the one after it, and its sends are at these nodes.
pub fn run(b: &mut [u8], n: u16, c: u16, x: u16, after: State, first: u16, second: u16)
    ensures frame { AfterHeader b.old b.new }
    ensures runs { RunsEvent n c b.old x after first second b.new }
{
    if engine_events::fits(b, n, c) {
        let i = engine_index::slot_in(b, n, c, x);
        if i < c {
            let e = engine_rows::event(b, n, i);
            let t = e.target;
            if t < n {
                let v = engine_rows::state(b, n, t);
                engine_rows::set_number(b, n, i, engine_rows::FIRST_SEND, first);
                engine_rows::set_number(b, n, i, engine_rows::SECOND_SEND, second);
                engine_filing::mark(b, n, c, x, v);
                engine_rows::set_state(b, n, t, after);
                tell(b, n, c, t);
            }
        }
    }
}

// The last run event of its station, of node x, is unrun again, and the station's state is that from before it. False where x is no run event's node:
// then nothing is done.
pub fn unrun(b: &mut [u8], n: u16, c: u16, x: u16) -> bool
    ensures frame { AfterHeader b.old b.new }
    ensures none { result ≡ false → b.new ≡ b.old }
    ensures fewer { result ≡ true → 1 + runs_below n b.new c ≤ runs_below n b.old c }
    ensures unruns { UnrunsEvent n c b.old x result b.new }
    ensures answer { result ≡ has_run_at b.old n c x }
{
    if engine_events::fits(b, n, c) {
        let i = engine_index::slot_in(b, n, c, x);
        if i < c {
            if engine_rows::number(b, n, i, engine_rows::STATUS) == engine_rows::RUN {
                let e = engine_rows::event(b, n, i);
                let t = e.target;
                if t < n {
                    let v = engine_rows::saved(b, n, i);
                    engine_freeing::unmark(b, n, c, x);
                    engine_rows::set_state(b, n, t, v);
                    tell(b, n, c, t);
                    return true;
                }
            }
        }
    }
    false
}

// The unrun event of node x leaves.
pub fn discard(b: &mut [u8], n: u16, c: u16, x: u16)
    ensures frame { AfterHeader b.old b.new }
    ensures fewer { runs_below n b.new c ≤ runs_below n b.old c }
    ensures leaves { DiscardsEvent n c b.old x b.new }
{
    if engine_events::fits(b, n, c) {
        let i = engine_index::slot_in(b, n, c, x);
        if i < c {
            let e = engine_rows::event(b, n, i);
            let t = e.target;
            if t < n {
                engine_freeing::drop(b, n, c, x);
                tell(b, n, c, t);
            }
        }
    }
}

// The first of all held events, a run one, of node x, leaves.
pub fn release(b: &mut [u8], n: u16, c: u16, x: u16)
    ensures frame { AfterHeader b.old b.new }
    ensures releases { ReleasesEvent n c b.old x b.new }
{
    engine_freeing::release(b, n, c, x);
}

// The commit time is raised.
pub fn raise(b: &mut [u8], n: u16, c: u16, floor: u64)
    ensures frame { AfterHeader b.old b.new }
    ensures raises { Raises n c floor b.old b.new }
{
    if engine_events::fits(b, n, c) {
        let start = engine_events::calendar_start(n, c) as usize;
        let _ = calendar::advance(&mut b[start..], floor);
    }
}

// No event is held, by a calendar of this arity and leaf width.
pub fn clear(b: &mut [u8], n: u16, c: u16, arity: u64, width: u64)
    ensures frame { AfterHeader b.old b.new }
    ensures clears { ClearsEvents n c arity width b.old b.new }
{
    if engine_events::fits(b, n, c) {
        let start = engine_events::calendar_start(n, c) as usize;
        let _ = calendar::open(n as u64, arity, width, &mut b[start..]);
        engine_freeing::clear(b, n, c);
    }
}
