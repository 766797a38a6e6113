// Running an event: what it makes of its station's state, and what it sends; None where heard, lost or sent would pass 32 bits.

#![tactic(auto)]

ghost use Rattle.std.specs.Prelude.{◌≡◌, ◌+◌, Some, None};
ghost use Rattle.generator.specs.Draw.{next_draw};
ghost use Rattle.line.specs.Station.{silent as silentOf, send as sendOf, period as periodOf, drawn_state, lose, hear, run_read, repeat, pass, run_frame, run_at};
ghost use Rattle.line.specs.Answer.{counted, said};

use line::{Config, Effect, Event, Matter, State};
use refusal::HORIZON;

// An effect that sends nothing.
fn silent(s: State) -> Option<Effect>
    ensures said { said result ≡ counted (silentOf s) }
    ensures one { (e : Effect) → result ≡ Some e → e.second ≡ None }
{
    Some(Effect {
        state: s,
        first: None,
        second: None,
    })
}

// An effect of one send, which is not made where it would come after the horizon.
fn send(s: State, station: u16, time: u64, delay: u32, to: u16, m: Matter) -> Option<Effect>
    ensures said { said result ≡ counted (sendOf station (time + delay) to m (silentOf s)) }
    ensures one { (e : Effect) → result ≡ Some e → e.second ≡ None }
{
    if HORIZON < time {
        return silent(s);
    }
    if HORIZON - time < delay as u64 {
        return silent(s);
    }
    if s.sent == 4294967295 {
        return None;
    }
    Some(Effect {
        state: State {
            sent: s.sent + 1,
            ..s
        },
        first: Some(Event {
            time: time + delay as u64,
            target: to,
            source: station,
            number: s.sent,
            matter: m,
        }),
        second: None,
    })
}

// The time to a station's next reading.
fn period(c: Config, s: State) -> u32
    ensures { result ≡ periodOf c s }
{
    if c.threshold <= s.level {
        c.spring
    } else {
        c.calm
    }
}

// A reading at a station.
// Kept: a station's numbers c, its state s, its own number and the time go in one by one below, as the definitions of document 01 take them.
fn run_read(c: Config, s: State, station: u16, time: u64) -> Option<Effect>
    ensures { said result ≡ counted (run_read c station time s) }
{
    if station == 0 {
        return silent(s);
    }
    let read = send(s, station, time, period(c, s), station, Matter::Read)?;
    let frame = send(
        read.state,
        station,
        time,
        c.hop,
        c.parent,
        Matter::Frame(station, 0),
    )?;
    Some(Effect {
        state: frame.state,
        first: read.first,
        second: frame.first,
    })
}

// A frame that was lost goes to the station itself again with one repeat more, and is given up after three.
fn run_lost(
    c: Config,
    s: State,
    draw: u32,
    station: u16,
    time: u64,
    origin: u16,
    repeats: u8,
) -> Option<Effect>
    requires { draw ≡ next_draw s.draw }
    ensures { said result ≡ counted (repeat c station time origin repeats (silentOf (lose (drawn_state s)))) }
{
    if s.lost == 4294967295 {
        return None;
    }
    let lost = State {
        draw,
        lost: s.lost + 1,
        ..s
    };
    if repeats < 3 {
        send(
            lost,
            station,
            time,
            c.hop,
            station,
            Matter::Frame(origin, repeats + 1),
        )
    } else {
        silent(lost)
    }
}

// A frame that was heard goes to the parent, but at station 0, with no repeats made.
fn run_heard(c: Config, s: State, draw: u32, station: u16, time: u64, origin: u16) -> Option<Effect>
    requires { draw ≡ next_draw s.draw }
    ensures { said result ≡ counted (pass c station time origin (silentOf (hear time (drawn_state s)))) }
{
    if s.heard == 4294967295 {
        return None;
    }
    let heard = State {
        draw,
        heard: s.heard + 1,
        last: time,
        reached: true,
        ..s
    };
    if station != 0 {
        send(
            heard,
            station,
            time,
            c.hop,
            c.parent,
            Matter::Frame(origin, 0),
        )
    } else {
        silent(heard)
    }
}

// A frame at a station.
fn run_frame(
    c: Config,
    s: State,
    station: u16,
    time: u64,
    origin: u16,
    repeats: u8,
) -> Option<Effect>
    ensures { said result ≡ counted (run_frame c station time origin repeats s) }
{
    let draw = generator::drawn(s.draw);
    if draw <= c.noise {
        run_lost(c, s, draw, station, time, origin, repeats)
    } else {
        run_heard(c, s, draw, station, time, origin)
    }
}

// Running an event at its target, whose numbers are c and whose state is s.
pub fn run_event(c: Config, s: State, e: Event) -> Option<Effect>
    ensures { said result ≡ counted (run_at c s e) }
{
    let m = e.matter;
    match m {
        Matter::Read => run_read(c, s, e.target, e.time),
        Matter::Frame(origin, repeats) => run_frame(c, s, e.target, e.time, origin, repeats),
        Matter::Level(mm) => silent(State { level: mm, ..s }),
    }
}
