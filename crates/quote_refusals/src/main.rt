// The quote of plans and scenarios that tools/quote_cases.py lists: each refusal, and what is nearly one. What is said goes to the standard output.

#![tactic(auto)]

use refusal::Refusal;
use std::io;
use std::rt::{Clock, Files};

// Each is asked of good.bin.
const SCENARIOS: [&str; 31] = [
    "nothing.txt",
    "day.txt",
    "last_days_hold.txt",
    "empty_line.txt",
    "empty_after.txt",
    "days_0.txt",
    "days_366.txt",
    "days_367.txt",
    "leading_zero.txt",
    "sign.txt",
    "two_spaces.txt",
    "space_after.txt",
    "carriage_return.txt",
    "capital.txt",
    "too_few.txt",
    "too_many.txt",
    "over_64_bits.txt",
    "station_2.txt",
    "station_3.txt",
    "station_64_bits.txt",
    "level.txt",
    "level_over.txt",
    "station_before_level.txt",
    "time.txt",
    "time_over.txt",
    "level_before_time.txt",
    "posts_4096.txt",
    "posts_4097.txt",
    "posts_4095.txt",
    "full.txt",
    "busy.txt",
];

// Each is asked by day.txt.
const PLANS: [&str; 20] = [
    "parent_of_the_first.bin",
    "calm_before_seed.bin",
    "spring_0.bin",
    "hop_before_noise.bin",
    "seed_high.bin",
    "chain.bin",
    "empty.bin",
    "one_byte.bin",
    "no_stations.bin",
    "stations_257.bin",
    "no_pairs.bin",
    "cut.bin",
    "offset.bin",
    "trailing.bin",
    "own_parent.bin",
    "calm_0.bin",
    "hop_0.bin",
    "noise.bin",
    "seed_0.bin",
    "space_in_a_name.bin",
];

// A plan is quoted by the scenario in a file.
fn ask(rt: &(impl Files + Print + Eprint + Clock), path: &str, scenario: &str) -> io::Result<()> {
    match console::open(rt, scenario.as_bytes()) {
        Ok(mut file) => quote_console::serve(
            rt,
            path.as_bytes(),
            &mut file,
            b"quote.svg",
            &mut io::writer(rt),
        ),
        Err(e) => console::fail(rt, scenario.as_bytes(), e),
    }
}

// What no plan and scenario of these meets.
fn unmet(rt: &impl Print) -> io::Result<()> {
    let mut words = io::writer(rt);
    quote_words::refused_run(&mut words, Refusal::Count)?;
    quote_words::refused_run(&mut words, Refusal::Output)?;
    quote_words::unfinished(&mut words)?;
    quote_words::long_scenario(&mut words)
}

fn main(rt: HostRuntime) -> io::Result<()> {
    for scenario in SCENARIOS {
        ask(&rt, "good.bin", scenario)?;
    }
    for plan in PLANS {
        ask(&rt, plan, "day.txt")?;
    }
    unmet(&rt)
}
