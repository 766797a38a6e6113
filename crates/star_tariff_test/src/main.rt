// The star tariff's program on plans of every kind, each with some lines of the input: those that tools/star_tariff.py lists.

#![tactic(auto)]

use std::io;
use std::io::Input;
use std::rt::Files;

// So many lines for one plan. Each call reads one and leaves the rest.
fn ask(rt: &(impl Files + Input + Print), path: &[u8], lines: u64) -> io::Result<()> {
    for _ in 0..lines {
        tariff_console::serve(rt, path)?;
    }
    Ok(())
}

// Stars, the first with lines of every kind.
fn stars(rt: &(impl Files + Input + Print)) -> io::Result<()> {
    ask(rt, b"three.bin", 47)?;
    ask(rt, b"one.bin", 3)?;
    ask(rt, b"named.bin", 3)?;
    ask(rt, b"day.bin", 5)?;
    ask(rt, b"fastest.bin", 3)?;
    ask(rt, b"slowest.bin", 2)
}

// Plans that are almost stars.
fn others(rt: &(impl Files + Input + Print)) -> io::Result<()> {
    ask(rt, b"bench.bin", 1)?;
    ask(rt, b"spring_of_the_first.bin", 1)?;
    ask(rt, b"spring_of_the_middle.bin", 1)?;
    ask(rt, b"spring_of_the_last.bin", 1)?;
    ask(rt, b"noise_of_the_first.bin", 1)?;
    ask(rt, b"noise_of_the_middle.bin", 1)?;
    ask(rt, b"noise_of_the_last.bin", 1)?;
    ask(rt, b"parent_of_the_last.bin", 1)?;
    ask(rt, b"last_of_256.bin", 1)
}

// Plans that are refused, a file that is not there, and a star again: its second line is the end of the input.
fn refused(rt: &(impl Files + Input + Print)) -> io::Result<()> {
    ask(rt, b"empty.bin", 1)?;
    ask(rt, b"one_byte.bin", 1)?;
    ask(rt, b"no_stations.bin", 1)?;
    ask(rt, b"stations_257.bin", 1)?;
    ask(rt, b"no_pairs.bin", 1)?;
    ask(rt, b"cut.bin", 1)?;
    ask(rt, b"offset.bin", 1)?;
    ask(rt, b"trailing.bin", 1)?;
    ask(rt, b"own_parent.bin", 1)?;
    ask(rt, b"calm_0.bin", 1)?;
    ask(rt, b"hop_0.bin", 1)?;
    ask(rt, b"noise.bin", 1)?;
    ask(rt, b"seed_0.bin", 1)?;
    ask(rt, b"space_in_a_name.bin", 1)?;
    ask(rt, b"missing.bin", 1)?;
    ask(rt, b"three.bin", 2)
}

fn main(rt: HostRuntime) -> io::Result<()> {
    stars(&rt)?;
    others(&rt)?;
    refused(&rt)
}
