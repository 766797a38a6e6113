// A plain machine over crate line, fed the two posts of document 01's worked list: it prints each event before 1001 as it runs it, with time,
// target, kind, source, number and value, and then the stations' states. The four events are those that the document prints.

#![tactic(auto)]

ghost use Rattle.std.specs.Prelude.{◌<◌, length, IfSome};

use line::{Config, Event, Matter, State};
use std::io;

// The states of both stations, and the events that wait, each in some place.
#[derive(Clone, Copy)]
struct Machine {
    states: [State; 2],
    waiting: [Option<Event>; 16],
}

fn event(time: u64, number: u32, matter: Matter) -> Event {
    Event {
        time,
        target: 1,
        source: line::POSTED,
        number,
        matter,
    }
}

// A send, where there is one, goes into the first empty place, where there is one.
fn add(waiting: &mut [Option<Event>], send: Option<Event>) {
    for place in waiting.iter_mut() {
        if place.is_none() {
            *place = send;
            return;
        }
    }
}

// The place of the least event, and the event.
fn least(waiting: &[Option<Event>]) -> Option<(usize, Event)>
    ensures { IfSome result (λ x. x.0 < length waiting.now) }
{
    let mut best: Option<(usize, Event)> = None;
    for (i, place) in waiting.iter().enumerate() {
        if let Some(e) = *place {
            let comes_first = match best {
                Some((_, b)) => line::before(e, b),
                None => true,
            };
            if comes_first {
                best = Some((i, e));
            }
        }
    }
    best
}

fn print_event(rt: &impl Print, e: Event) -> io::Result<()> {
    let kind = line::kind_of(e.matter);
    let value = line::value_of(e.matter);
    println!(rt;
        "{} {} {kind} {} {} {value}",
        e.time, e.target, e.source, e.number
    )
}

fn print_state(rt: &impl Print, s: State) -> io::Result<()> {
    println!(rt;
        "{} {} {} {} {} {} {}",
        s.draw,
        s.level,
        s.heard,
        s.lost,
        s.sent,
        s.last,
        u8::from(s.reached)
    )
}

// The two stations of the document's plan have the same numbers.
fn config() -> Config {
    Config {
        parent: 0,
        calm: 1000,
        spring: 200,
        threshold: 5000,
        hop: 30,
        noise: 0,
        seed: 1,
    }
}

// The machine with its two posts.
fn start() -> Machine {
    let mut m = Machine {
        states: [line::first_state(config()); 2],
        waiting: [None; 16],
    };
    add(&mut m.waiting, Some(event(0, 0, Matter::Read)));
    add(&mut m.waiting, Some(event(500, 1, Matter::Level(5000))));
    m
}

// The least event before 1001 is run; where there is none, nothing is done.
fn step(rt: &impl Print, m: &mut Machine) -> io::Result<()> {
    let Some((at, e)) = least(&m.waiting) else {
        return Ok(());
    };
    let target = e.target as usize;
    if 1001 <= e.time || 2 <= target {
        return Ok(());
    }
    let Some(effect) = line_running::run_event(config(), m.states[target], e) else {
        return Ok(());
    };
    print_event(rt, e)?;
    m.states[target] = effect.state;
    m.waiting[at] = None;
    add(&mut m.waiting, effect.first);
    add(&mut m.waiting, effect.second);
    Ok(())
}

fn main(rt: HostRuntime) -> io::Result<()> {
    let mut m = start();
    for _ in 0..10 {
        step(&rt, &mut m)?;
    }
    for s in m.states {
        print_state(&rt, s)?;
    }
    Ok(())
}
