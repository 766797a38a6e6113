// Star lines on the engine: for a plan and a commit time a line of what the collector has heard, from its record after that commit, and of the tariff.

#![tactic(auto)]

use std::io;
use std::rt::Files;

// One reading at time 0 for each station other than 0.
fn post_readings(b: &mut [u8], stations: u64) {
    for s in 1..stations {
        let _ = engine::post(b, s, 0, 1, 0);
    }
}

// Runs the lowest until the commit at c is accepted. Some that are run come after c; the log and the record do not show them.
fn run_to(b: &mut [u8], c: u64, out: &mut [u8]) {
    for _ in 0..64 {
        if engine::commit(b, c, out).is_ok() {
            return;
        }
        for _ in 0..16 {
            let _ = engine::run_lowest(b);
        }
    }
}

// A commit at each of so many times, a step apart.
fn run_by(b: &mut [u8], steps: u32, step: u32, out: &mut [u8]) {
    for k in 0..steps {
        run_to(b, k as u64 * step as u64, out);
    }
}

fn say_heard(rt: &impl Print, b: &[u8]) -> io::Result<()> {
    match engine::record(b, 0) {
        Ok(state) => print!(rt; "{} ", state.heard),
        Err(_) => Ok(()),
    }
}

fn say_tariff(rt: &impl Print, plan: &[u8], c: u64) -> io::Result<()> {
    let mut text = [0u8; 96];
    let n = bench_printing::print_tariff(&mut text, 0, tariff::at(plan, c));
    console::put(rt, &text, n)
}

// The line of a plan of so many stations is run to c, with commits on the way.
fn run_star(plan: &[u8], b: &mut [u8], stations: u64, steps: u32, step: u32, c: u64) {
    if engine::open(plan, 16, 64, 1024, b).is_ok() {
        let mut out = [0u8; 24576];
        post_readings(b, stations);
        run_by(b, steps, step, &mut out);
        run_to(b, c, &mut out);
    }
}

fn show(
    rt: &(impl Files + Print),
    path: &[u8],
    stations: u64,
    steps: u32,
    step: u32,
    c: u64,
) -> io::Result<()> {
    let mut plan = [0u8; 16384];
    let len = console::read_plan(rt, path, &mut plan);
    let mut b = [0u8; 360448];
    run_star(&plan[..len], &mut b, stations, steps, step, c);
    say_heard(rt, &b)?;
    say_tariff(rt, &plan[..len], c)
}

fn main(rt: HostRuntime) -> io::Result<()> {
    show(&rt, b"three.bin", 3, 0, 0, 0)?;
    show(&rt, b"three.bin", 3, 0, 0, 30)?;
    show(&rt, b"three.bin", 3, 0, 0, 31)?;
    show(&rt, b"three.bin", 3, 0, 0, 45)?;
    show(&rt, b"three.bin", 3, 0, 0, 46)?;
    show(&rt, b"three.bin", 3, 0, 0, 745)?;
    show(&rt, b"three.bin", 3, 0, 0, 746)?;
    show(&rt, b"three.bin", 3, 0, 0, 1001)?;
    show(&rt, b"three.bin", 3, 0, 0, 1030)?;
    show(&rt, b"three.bin", 3, 0, 0, 1031)?;
    show(&rt, b"three.bin", 3, 360, 10000, 3600000)?;
    show(&rt, b"named.bin", 3, 0, 0, 2)?;
    show(&rt, b"named.bin", 3, 0, 0, 3)?;
    show(&rt, b"named.bin", 3, 0, 0, 50)?;
    show(&rt, b"one.bin", 1, 0, 0, 100)?;
    show(&rt, b"day.bin", 256, 36, 100000, 3600000)?;
    show(&rt, b"day.bin", 256, 36, 100000, 3600251)?;
    show(&rt, b"slowest.bin", 2, 256, 4294967295, 1099511627775)?;
    show(&rt, b"slowest.bin", 2, 256, 4294967295, 1099511627776)
}
