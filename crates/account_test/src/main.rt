// Runs calls on accounts and writes a line for each: the call with its numbers, then its answer. An entry that is laid out in a part has a line as the bench
// writes it, after its place. tools/account.py writes the same lines from a reading of the documents that shares nothing with the crates.

#![tactic(auto)]

use refusal::Refusal;
use std::io;

// ---- a call and its line

fn no(rt: &impl Print, e: Refusal) -> io::Result<()> {
    println!(rt; ": no {}", refusal::number(e))
}

fn tell(rt: &impl Print, said: Result<(), Refusal>) -> io::Result<()> {
    match said {
        Ok(()) => println!(rt; ": ok"),
        Err(e) => no(rt, e),
    }
}

fn tell_charge(rt: &impl Print, said: Result<u64, Refusal>) -> io::Result<()> {
    match said {
        Ok(units) => println!(rt; ": {units}"),
        Err(e) => no(rt, e),
    }
}

fn open(rt: &impl Print, n: u64, reading: u32, frame: u32, b: &mut [u8]) -> io::Result<()> {
    print!(rt; "open {n} {reading} {frame} {}", b.len())?;
    tell(rt, account::open(n, reading, frame, b))
}

fn read(rt: &impl Print, b: &mut [u8], n: u64, part: &[u8]) -> io::Result<()> {
    print!(rt; "read {n} {}", part.len())?;
    tell(rt, account::read(b, n, part))
}

fn charge(rt: &impl Print, b: &[u8], n: u64, station: u64) -> io::Result<()> {
    print!(rt; "charge {n} {station}")?;
    tell_charge(rt, account::charge(b, n, station))
}

// Both charges of two stations.
fn both(rt: &impl Print, b: &[u8]) -> io::Result<()> {
    charge(rt, b, 2, 0)?;
    charge(rt, b, 2, 1)
}

fn plus(x: u64, y: u64) -> u64 {
    x % 4294967296 + y % 4294967296
}

// What both come to, where each has 32 bits.
fn sum(rt: &impl Print, b: &[u8]) -> io::Result<()> {
    let x = account::charge(b, 2, 0).unwrap_or(0);
    let y = account::charge(b, 2, 1).unwrap_or(0);
    println!(rt; "sum 2: {}", plus(x, y))
}

// ---- parts
//
// Kept: an entry's numbers in a row, in the order of its line; a struct written out at each call would be no plainer.

fn lay(
    part: &mut [u8],
    k: u8,
    time: u64,
    target: u16,
    kind: u32,
    source: u16,
    num: u32,
    value: u32,
) {
    let at = 24 * k as usize;
    words::store::<u64>(part, at, time);
    words::store::<u32>(part, at + 8, num);
    words::store::<u32>(part, at + 12, value);
    words::store::<u16>(part, at + 16, target);
    words::store::<u16>(part, at + 18, source);
    words::store::<u32>(part, at + 20, kind);
}

fn entry(
    rt: &impl Print,
    part: &mut [u8],
    k: u8,
    time: u64,
    target: u16,
    kind: u32,
    source: u16,
    num: u32,
    value: u32,
) -> io::Result<()> {
    println!(rt; "entry {k} {time} {target} {kind} {source} {num} {value}")?;
    lay(part, k, time, target, kind, source, num, value);
    Ok(())
}

// The log of the bench program's example: a reading that is posted, the frame that it sends, a level and the next reading.
fn bench(rt: &impl Print, part: &mut [u8]) -> io::Result<()> {
    entry(rt, part, 0, 0, 1, 1, 65535, 0, 0)?;
    entry(rt, part, 1, 30, 0, 2, 1, 1, 1)?;
    entry(rt, part, 2, 500, 1, 3, 65535, 1, 5000)?;
    entry(rt, part, 3, 1000, 1, 1, 1, 0, 0)
}

// A part of one entry. The event's number may be any.
fn one(
    rt: &impl Print,
    b: &mut [u8],
    n: u64,
    time: u64,
    target: u16,
    kind: u32,
    source: u16,
    value: u32,
) -> io::Result<()> {
    let mut part = [165u8; 24];
    entry(
        rt, &mut part, 0, time, target, kind, source, 4294967295, value,
    )?;
    read(rt, b, n, &part)
}

// .. for two stations, with both charges after it.
fn one_of_two(
    rt: &impl Print,
    b: &mut [u8],
    time: u64,
    target: u16,
    kind: u32,
    source: u16,
    value: u32,
) -> io::Result<()> {
    one(rt, b, 2, time, target, kind, source, value)?;
    both(rt, b)
}

fn read_first(rt: &impl Print, b: &mut [u8], part: &[u8], bytes: usize) -> io::Result<()> {
    if part.len() < bytes {
        return Ok(());
    }
    read(rt, b, 2, &part[0..bytes])
}

// ---- the worked numbers

fn worked(rt: &impl Print) -> io::Result<()> {
    let mut b = [165u8; 24];
    let mut part = [165u8; 96];
    open(rt, 2, 5, 7, &mut b)?;
    both(rt, &b)?;
    bench(rt, &mut part)?;
    read(rt, &mut b, 2, &part)?;
    both(rt, &b)?;
    sum(rt, &b)?;
    read(rt, &mut b, 2, &part)?;
    both(rt, &b)?;
    sum(rt, &b)?;
    // an opening starts from 0, with its own costs
    open(rt, 2, 1, 100, &mut b)?;
    both(rt, &b)?;
    read(rt, &mut b, 2, &part)?;
    both(rt, &b)
}

// ---- 7 and 9

// A number of stations that is out of range: 7 before 19 and before 9.
fn out_of_range(rt: &impl Print, b: &mut [u8], n: u64) -> io::Result<()> {
    let part = [165u8; 23];
    open(rt, n, 1, 1, b)?;
    read(rt, b, n, &part)?;
    charge(rt, b, n, 18446744073709551615)
}

// .. and nothing has changed then.
fn ranges(rt: &impl Print) -> io::Result<()> {
    let mut b = [165u8; 2064];
    open(rt, 2, 5, 7, &mut b)?;
    one_of_two(rt, &mut b, 0, 1, 1, 65535, 0)?;
    out_of_range(rt, &mut b, 0)?;
    out_of_range(rt, &mut b, 257)?;
    out_of_range(rt, &mut b, 65538)?;
    out_of_range(rt, &mut b, 4294967298)?;
    out_of_range(rt, &mut b, 18446744073709551615)?;
    both(rt, &b)
}

fn in_space(rt: &impl Print, b: &mut [u8], n: u64, last: u64) -> io::Result<()> {
    let part = [165u8; 23];
    open(rt, n, 5, 7, b)?;
    read(rt, b, n, &part)?;
    charge(rt, b, n, n)?;
    charge(rt, b, n, last)
}

// One byte too few, and just enough.
fn spaces(rt: &impl Print) -> io::Result<()> {
    let mut a = [165u8; 15];
    in_space(rt, &mut a, 1, 0)?;
    let mut b = [165u8; 16];
    in_space(rt, &mut b, 1, 0)?;
    let mut c = [165u8; 2055];
    in_space(rt, &mut c, 256, 255)?;
    let mut d = [165u8; 2056];
    in_space(rt, &mut d, 256, 255)
}

fn no_stations(rt: &impl Print) -> io::Result<()> {
    let mut b = [165u8; 24];
    open(rt, 2, 5, 7, &mut b)?;
    charge(rt, &b, 2, 2)?;
    charge(rt, &b, 2, 256)?;
    charge(rt, &b, 2, 4294967296)?;
    charge(rt, &b, 2, 18446744073709551615)
}

// ---- 19

// Parts that are no multiple of 24 bytes, and some that are.
fn lengths(rt: &impl Print) -> io::Result<()> {
    let mut b = [165u8; 24];
    let mut part = [165u8; 96];
    open(rt, 2, 5, 7, &mut b)?;
    bench(rt, &mut part)?;
    read_first(rt, &mut b, &part, 23)?;
    read_first(rt, &mut b, &part, 25)?;
    read_first(rt, &mut b, &part, 32)?;
    read_first(rt, &mut b, &part, 36)?;
    both(rt, &b)?;
    read_first(rt, &mut b, &part, 0)?;
    both(rt, &b)?;
    read_first(rt, &mut b, &part, 24)?;
    both(rt, &b)
}

fn targets_and_sources(rt: &impl Print, b: &mut [u8]) -> io::Result<()> {
    one_of_two(rt, b, 0, 2, 1, 65535, 0)?;
    one_of_two(rt, b, 0, 65535, 1, 65535, 0)?;
    one_of_two(rt, b, 0, 1, 1, 2, 0)?;
    one_of_two(rt, b, 0, 1, 1, 65534, 0)?;
    one_of_two(rt, b, 0, 1, 1, 0, 0)?;
    one_of_two(rt, b, 0, 0, 1, 65535, 0)
}

fn times(rt: &impl Print, b: &mut [u8]) -> io::Result<()> {
    one_of_two(rt, b, 1099511627776, 1, 1, 65535, 0)?;
    one_of_two(rt, b, 18446744073709551615, 1, 1, 65535, 0)?;
    one_of_two(rt, b, 1099511627775, 1, 1, 65535, 0)
}

// Kinds that are none, readings with a value, and a level, which costs nothing.
fn kinds(rt: &impl Print, b: &mut [u8]) -> io::Result<()> {
    one_of_two(rt, b, 0, 1, 0, 65535, 0)?;
    one_of_two(rt, b, 0, 1, 4, 65535, 0)?;
    one_of_two(rt, b, 0, 1, 65537, 65535, 0)?;
    one_of_two(rt, b, 0, 1, 4294967295, 65535, 0)?;
    one_of_two(rt, b, 0, 1, 1, 65535, 1)?;
    one_of_two(rt, b, 0, 1, 1, 65535, 65536)?;
    one_of_two(rt, b, 0, 1, 3, 65535, 4294967295)
}

// Frames with origin 2, with 4 repeats and more, and one with origin 1 and 3 repeats.
fn frames(rt: &impl Print, b: &mut [u8]) -> io::Result<()> {
    one_of_two(rt, b, 0, 1, 2, 0, 2)?;
    one_of_two(rt, b, 0, 1, 2, 0, 1024)?;
    one_of_two(rt, b, 0, 1, 2, 0, 65537)?;
    one_of_two(rt, b, 0, 1, 2, 0, 4294967295)?;
    one_of_two(rt, b, 0, 1, 2, 0, 769)
}

fn entries(rt: &impl Print) -> io::Result<()> {
    let mut b = [165u8; 24];
    open(rt, 2, 5, 7, &mut b)?;
    targets_and_sources(rt, &mut b)?;
    times(rt, &mut b)?;
    kinds(rt, &mut b)?;
    frames(rt, &mut b)
}

// A wrong entry after right ones leaves all charges.
fn whole(rt: &impl Print) -> io::Result<()> {
    let mut b = [165u8; 24];
    let mut part = [165u8; 96];
    open(rt, 2, 5, 7, &mut b)?;
    bench(rt, &mut part)?;
    read(rt, &mut b, 2, &part)?;
    entry(rt, &mut part, 3, 1000, 2, 1, 1, 0, 0)?;
    read(rt, &mut b, 2, &part)?;
    both(rt, &b)
}

// ---- the shortest and the longest line

fn narrowest(rt: &impl Print) -> io::Result<()> {
    let mut b = [165u8; 16];
    open(rt, 1, 5, 7, &mut b)?;
    one(rt, &mut b, 1, 0, 1, 1, 65535, 0)?;
    one(rt, &mut b, 1, 0, 0, 1, 1, 0)?;
    one(rt, &mut b, 1, 0, 0, 2, 0, 1)?;
    one(rt, &mut b, 1, 0, 0, 2, 0, 768)?;
    charge(rt, &b, 1, 0)
}

fn ends(rt: &impl Print, b: &[u8]) -> io::Result<()> {
    charge(rt, b, 256, 0)?;
    charge(rt, b, 256, 1)?;
    charge(rt, b, 256, 254)?;
    charge(rt, b, 256, 255)
}

fn widest(rt: &impl Print) -> io::Result<()> {
    let mut b = [165u8; 2056];
    open(rt, 256, 1, 100, &mut b)?;
    one(rt, &mut b, 256, 0, 256, 1, 65535, 0)?;
    one(rt, &mut b, 256, 0, 255, 1, 256, 0)?;
    one(rt, &mut b, 256, 0, 255, 2, 255, 1024)?;
    ends(rt, &b)?;
    one(rt, &mut b, 256, 0, 255, 1, 65535, 0)?;
    one(rt, &mut b, 256, 0, 254, 2, 255, 255)?;
    one(rt, &mut b, 256, 0, 0, 2, 255, 1023)?;
    ends(rt, &b)
}

// ---- 20

// An account is handed over with that charge.
fn put(rt: &impl Print, b: &mut [u8], station: u8, units: u64) -> io::Result<()> {
    println!(rt; "put {station} {units}")?;
    words::store::<u64>(b, 8 + 8 * station as usize, units);
    Ok(())
}

// 4294967297 readings at 4294967295 units come to 2 ^ 64 - 1. These are the last two, and more.
fn largest(rt: &impl Print) -> io::Result<()> {
    let mut b = [165u8; 24];
    let mut part = [165u8; 48];
    open(rt, 2, 4294967295, 1, &mut b)?;
    put(rt, &mut b, 1, 18446744065119617025)?;
    entry(rt, &mut part, 0, 0, 1, 1, 65535, 0, 0)?;
    entry(rt, &mut part, 1, 0, 1, 1, 65535, 0, 0)?;
    read(rt, &mut b, 2, &part)?;
    both(rt, &b)?;
    after_largest(rt, &mut b)
}

// A reading and a frame there pass it. A level, a frame elsewhere and a part without entries do not.
fn after_largest(rt: &impl Print, b: &mut [u8]) -> io::Result<()> {
    one_of_two(rt, b, 0, 1, 1, 65535, 0)?;
    one_of_two(rt, b, 0, 1, 2, 1, 1)?;
    one_of_two(rt, b, 0, 1, 3, 65535, 0)?;
    one_of_two(rt, b, 0, 0, 2, 1, 1)?;
    read(rt, b, 2, b"")?;
    both(rt, b)
}

// One charge passes it, and the other stays too.
fn passed(rt: &impl Print) -> io::Result<()> {
    let mut b = [165u8; 24];
    let mut part = [165u8; 48];
    open(rt, 2, 4294967295, 1, &mut b)?;
    put(rt, &mut b, 1, 18446744069414584321)?;
    entry(rt, &mut part, 0, 0, 0, 2, 1, 0, 1)?;
    entry(rt, &mut part, 1, 0, 1, 1, 65535, 0, 0)?;
    read(rt, &mut b, 2, &part)?;
    both(rt, &b)?;
    passed_in_wrong_part(rt, &mut b)
}

// 19 comes before it, also where the wrong entry comes after, and 7 before both.
fn passed_in_wrong_part(rt: &impl Print, b: &mut [u8]) -> io::Result<()> {
    let mut part = [165u8; 48];
    entry(rt, &mut part, 0, 0, 1, 1, 65535, 0, 0)?;
    entry(rt, &mut part, 1, 0, 0, 0, 1, 0, 1)?;
    read(rt, b, 2, &part)?;
    read(rt, b, 3, &part)?;
    both(rt, b)
}

// The second of two frames is the one too many.
fn second(rt: &impl Print) -> io::Result<()> {
    let mut b = [165u8; 24];
    let mut part = [165u8; 48];
    open(rt, 2, 0, 1, &mut b)?;
    put(rt, &mut b, 0, 18446744073709551614)?;
    entry(rt, &mut part, 0, 0, 0, 2, 1, 0, 1)?;
    entry(rt, &mut part, 1, 0, 0, 2, 1, 0, 1)?;
    read(rt, &mut b, 2, &part)?;
    both(rt, &b)?;
    read_first(rt, &mut b, &part, 24)?;
    both(rt, &b)?;
    // a reading costs nothing here
    one_of_two(rt, &mut b, 0, 0, 1, 65535, 0)
}

// Each charge counts by itself: two of them may have the largest.
fn sum_over_64_bits(rt: &impl Print) -> io::Result<()> {
    let mut b = [165u8; 24];
    let mut part = [165u8; 96];
    open(rt, 2, 5, 7, &mut b)?;
    put(rt, &mut b, 0, 18446744073709551608)?;
    put(rt, &mut b, 1, 18446744073709551605)?;
    bench(rt, &mut part)?;
    read(rt, &mut b, 2, &part)?;
    both(rt, &b)?;
    read(rt, &mut b, 2, &part)?;
    both(rt, &b)
}

// ---- the bytes after an account

fn beyond(rt: &impl Print) -> io::Result<()> {
    let mut b = [165u8; 34];
    open(rt, 2, 4294967295, 4294967295, &mut b)?;
    one_of_two(rt, &mut b, 0, 1, 1, 65535, 0)?;
    println!(rt; " {} {}", b[24], b[33])
}

fn main(rt: HostRuntime) -> io::Result<()> {
    worked(&rt)?;
    ranges(&rt)?;
    spaces(&rt)?;
    no_stations(&rt)?;
    lengths(&rt)?;
    entries(&rt)?;
    whole(&rt)?;
    narrowest(&rt)?;
    widest(&rt)?;
    largest(&rt)?;
    passed(&rt)?;
    second(&rt)?;
    sum_over_64_bits(&rt)?;
    beyond(&rt)
}
