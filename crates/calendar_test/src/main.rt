// Runs calls on calendars of the four shapes and writes a line for each: the call with its numbers, then its answer. tools/calendar.py writes the same lines from a reading of
// the documents that shares nothing with the crates.

#![tactic(auto)]

ghost use Rattle.std.specs.Prelude.{◌≡◌, ◌-◌, ◌≤◌, length, take, drop};
ghost use Rattle.calendar_header.specs.Rules.{register_checks, registered_at};
ghost use Rattle.calendar_header.specs.Promises.{Obeys};

use calendar_answers::Least;
use refusal::Refusal;
use std::io;

// ---- a call and its line

// The answer of a call that names no station.
fn tell(rt: &impl Print, answer: Result<(), Refusal>) -> io::Result<()> {
    match answer {
        Ok(_) => println!(rt; ": ok"),
        Err(e) => println!(rt; ": no {}", refusal::number(e)),
    }
}

fn tell_least(rt: &impl Print, answer: Result<Least, Refusal>) -> io::Result<()> {
    match answer {
        Ok(at) => println!(rt; ": {} {} {}", at.station, at.time, at.words),
        Err(e) => println!(rt; ": no {}", refusal::number(e)),
    }
}

// A long buffer. It comes from a call, so that a proof of what lends it knows its length alone: one that saw the array itself would go through it byte by byte.
fn filled<const N: usize>() -> [u8; N] {
    [165u8; N]
}

fn open(rt: &impl Print, n: u64, arity: u64, width: u64, b: &mut [u8]) -> io::Result<()> {
    print!(rt; "open {n} {arity} {width} {}", b.len())?;
    tell(rt, calendar::open(n, arity, width, b))
}

fn register(rt: &impl Print, b: &mut [u8], station: u64, time: u64) -> io::Result<()> {
    print!(rt; "register {station} {time}")?;
    tell(rt, calendar::register(b, station, time))
}

fn unregister(rt: &impl Print, b: &mut [u8], station: u64) -> io::Result<()> {
    print!(rt; "unregister {station}")?;
    tell(rt, calendar::unregister(b, station))
}

fn lowest(rt: &impl Print, b: &[u8]) -> io::Result<()> {
    print!(rt; "lowest")?;
    tell_least(rt, calendar::lowest(b))
}

fn extract(rt: &impl Print, b: &mut [u8]) -> io::Result<()> {
    print!(rt; "extract")?;
    tell_least(rt, calendar::extract(b))
}

// Whether the floor was advanced.
fn advance(rt: &impl Print, b: &mut [u8], floor: u64) -> io::Result<bool> {
    print!(rt; "advance {floor}")?;
    let answer = calendar::advance(b, floor);
    tell(rt, answer)?;
    Ok(answer.is_ok())
}

// ---- openings

fn openings(rt: &impl Print) -> io::Result<()> {
    let mut b = [165u8; 32896];
    open(rt, 2, 16, 0, &mut b)?;
    open(rt, 2, 16, 1048577, &mut b)?;
    open(rt, 0, 16, 0, &mut b)?;
    open(rt, 0, 16, 64, &mut b)?;
    open(rt, 257, 16, 64, &mut b)?;
    open(rt, 3, 16, 64, &mut b)?;
    open(rt, 2, 16, 1048576, &mut b)?;
    open(rt, 2, 16, 1, &mut b)
}

// Of the arity, then of the leaf width, then of the rest.
fn arities(rt: &impl Print) -> io::Result<()> {
    let mut b = [165u8; 32832];
    open(rt, 0, 7, 0, &mut b)?;
    open(rt, 0, 8, 0, &mut b)?;
    open(rt, 0, 8, 1, &mut b)?;
    open(rt, 1, 0, 64, &mut b)?;
    open(rt, 1, 1, 64, &mut b)?;
    open(rt, 1, 4, 64, &mut b)?;
    open(rt, 1, 12, 64, &mut b)?;
    open(rt, 1, 128, 64, &mut b)?;
    open(rt, 1, 65552, 64, &mut b)?;
    open(rt, 1, 4294967312, 64, &mut b)?;
    open(rt, 1, 18446744073709551615, 64, &mut b)
}

fn open_first(rt: &impl Print, arity: u64, b: &mut [u8], bytes: usize) -> io::Result<()> {
    if b.len() < bytes {
        return Ok(());
    }
    open(rt, 1, arity, 64, &mut b[0..bytes])
}

// For one station, the longest buffer that is too short, and the shortest that is not.
fn bounds(rt: &impl Print) -> io::Result<()> {
    let mut b = filled::<524352>();
    open_first(rt, 8, &mut b, 8255)?;
    open_first(rt, 8, &mut b, 8256)?;
    open_first(rt, 16, &mut b, 32831)?;
    open_first(rt, 16, &mut b, 32832)?;
    open_first(rt, 32, &mut b, 131135)?;
    open_first(rt, 32, &mut b, 131136)?;
    open_first(rt, 64, &mut b, 524351)?;
    open_first(rt, 64, &mut b, 524352)
}

// ---- each refusal, and the edges of the floor

fn refusals(rt: &impl Print) -> io::Result<()> {
    let mut b = [165u8; 33024];
    open(rt, 4, 16, 64, &mut b)?;
    lowest(rt, &b)?;
    extract(rt, &mut b)?;
    register(rt, &mut b, 4, 1099511627776)?;
    register(rt, &mut b, 3, 1099511627776)?;
    unregister(rt, &mut b, 4)?;
    unregister(rt, &mut b, 3)?;
    register(rt, &mut b, 3, 1099511627775)?;
    lowest(rt, &b)?;
    advance(rt, &mut b, 1099511627777)?;
    advance(rt, &mut b, 1099511627776)?;
    advance(rt, &mut b, 1099511627775)?;
    advance(rt, &mut b, 1099511627774)?;
    register(rt, &mut b, 2, 1099511627774)?;
    register(rt, &mut b, 2, 1099511627775)?;
    lowest(rt, &b)?;
    unregister(rt, &mut b, 2)?;
    lowest(rt, &b)?;
    extract(rt, &mut b)?;
    lowest(rt, &b)?;
    advance(rt, &mut b, 1099511627776)?;
    register(rt, &mut b, 2, 1099511627775)?;
    lowest(rt, &b)
}

// ---- the slips of the pseudo-code

// A station that was taken out is gone from the table, and comes back at another time.
fn taken(rt: &impl Print) -> io::Result<()> {
    let mut b = [165u8; 33024];
    open(rt, 4, 16, 64, &mut b)?;
    register(rt, &mut b, 1, 100)?;
    register(rt, &mut b, 2, 5000)?;
    unregister(rt, &mut b, 1)?;
    lowest(rt, &b)?;
    unregister(rt, &mut b, 1)?;
    register(rt, &mut b, 1, 9000)?;
    lowest(rt, &b)?;
    extract(rt, &mut b)?;
    extract(rt, &mut b)?;
    extract(rt, &mut b)
}

// Leaves whose bits would be found in the other order, were they counted from the least significant.
fn places(rt: &impl Print) -> io::Result<()> {
    let mut b = [165u8; 33024];
    open(rt, 4, 16, 64, &mut b)?;
    register(rt, &mut b, 0, 192)?;
    register(rt, &mut b, 1, 768)?;
    register(rt, &mut b, 2, 3072)?;
    register(rt, &mut b, 3, 12288)?;
    for _ in 0..4 {
        extract(rt, &mut b)?;
    }
    Ok(())
}

// Only the ring's last block has a time, and then no block.
fn last_block(rt: &impl Print) -> io::Result<()> {
    let mut b = [165u8; 33024];
    open(rt, 4, 16, 64, &mut b)?;
    advance(rt, &mut b, 16384)?;
    register(rt, &mut b, 1, 278527)?;
    lowest(rt, &b)?;
    unregister(rt, &mut b, 1)?;
    lowest(rt, &b)
}

// Times that wait in the overflow table, and that an advanced ring covers: they come before later ones of the ring.
fn overflow(rt: &impl Print) -> io::Result<()> {
    let mut b = [165u8; 33024];
    open(rt, 4, 16, 64, &mut b)?;
    register(rt, &mut b, 0, 262144)?;
    register(rt, &mut b, 1, 262143)?;
    register(rt, &mut b, 2, 600000)?;
    register(rt, &mut b, 3, 500000)?;
    extract(rt, &mut b)?;
    lowest(rt, &b)?;
    advance(rt, &mut b, 16383)?;
    advance(rt, &mut b, 16384)?;
    register(rt, &mut b, 1, 270000)?;
    extract(rt, &mut b)?;
    extract(rt, &mut b)?;
    lowest(rt, &b)?;
    register(rt, &mut b, 0, 500000)?;
    lowest(rt, &b)?;
    advance(rt, &mut b, 400000)?;
    register(rt, &mut b, 1, 599999)?;
    extract(rt, &mut b)?;
    for _ in 0..4 {
        extract(rt, &mut b)?;
    }
    Ok(())
}

// ---- ties: of the stations of the least time the lowest-numbered is named

fn register_three(rt: &impl Print, b: &mut [u8], time: u64) -> io::Result<()> {
    register(rt, b, 200, time)?;
    register(rt, b, 3, time)?;
    register(rt, b, 9, time)
}

fn extract_three(rt: &impl Print, b: &mut [u8]) -> io::Result<()> {
    lowest(rt, b)?;
    extract(rt, b)?;
    extract(rt, b)?;
    extract(rt, b)
}

// Station 3 is moved away from the others and back.
fn move_one(rt: &impl Print, b: &mut [u8], away: u64, back: u64) -> io::Result<()> {
    register(rt, b, 3, away)?;
    lowest(rt, b)?;
    register(rt, b, 3, back)
}

fn ties(rt: &impl Print) -> io::Result<()> {
    let mut b = [165u8; 49152];
    open(rt, 256, 16, 64, &mut b)?;
    register_three(rt, &mut b, 100)?;
    extract_three(rt, &mut b)?;
    // in the overflow table
    register_three(rt, &mut b, 300000)?;
    extract_three(rt, &mut b)?;
    // brought in by an advance
    register_three(rt, &mut b, 300000)?;
    advance(rt, &mut b, 65536)?;
    extract_three(rt, &mut b)?;
    // after a move, in the ring and in the overflow table
    register_three(rt, &mut b, 70000)?;
    move_one(rt, &mut b, 71000, 70000)?;
    extract_three(rt, &mut b)?;
    register_three(rt, &mut b, 900000)?;
    move_one(rt, &mut b, 901000, 900000)?;
    extract_three(rt, &mut b)?;
    // a lower station of the same leaf has a later time, and then the same
    register(rt, &mut b, 1, 70000)?;
    register(rt, &mut b, 0, 70001)?;
    lowest(rt, &b)?;
    register(rt, &mut b, 0, 70000)?;
    lowest(rt, &b)
}

// ---- how many bitmap words are read

fn lowest_at(rt: &impl Print, b: &mut [u8], time: u64) -> io::Result<()> {
    register(rt, b, 1, time)?;
    lowest(rt, b)
}

// One time: 0, the last of the ring's first block and the one after it, the same of the block before the last, and of the last, after which it waits in the
// overflow table. Then an advanced ring comes to cover it, in slot 0.
fn words_read(rt: &impl Print, arity: u64, edges: [u64; 6]) -> io::Result<()> {
    let mut b = filled::<524544>();
    open(rt, 4, arity, 64, &mut b)?;
    lowest(rt, &b)?;
    lowest_at(rt, &mut b, 0)?;
    for time in edges.iter() {
        lowest_at(rt, &mut b, *time)?;
    }
    for floor in [edges[0], edges[1], edges[3], edges[5]].iter() {
        advance(rt, &mut b, *floor)?;
        lowest(rt, &b)?;
    }
    extract(rt, &mut b)?;
    extract(rt, &mut b)
}

// Times that are 32 bits and more after the start of the ring.
fn far_in_the_ring(rt: &impl Print) -> io::Result<()> {
    let mut b = filled::<524544>();
    open(rt, 4, 64, 1048576, &mut b)?;
    lowest_at(rt, &mut b, 4294967295)?;
    lowest_at(rt, &mut b, 4294967296)?;
    lowest_at(rt, &mut b, 68719476735)?;
    lowest_at(rt, &mut b, 68719476736)
}

// Two stations in the last of 65536 leaves.
fn last_leaf(rt: &impl Print) -> io::Result<()> {
    let mut b = filled::<524736>();
    open(rt, 7, 64, 64, &mut b)?;
    register(rt, &mut b, 5, 4194303)?;
    register(rt, &mut b, 6, 4194302)?;
    unregister(rt, &mut b, 5)?;
    lowest(rt, &b)?;
    register(rt, &mut b, 5, 4194303)?;
    extract(rt, &mut b)?;
    extract(rt, &mut b)?;
    lowest(rt, &b)
}

// A time of the ring's last block, one after the ring, and one of the floor's block.
fn words_read_of_three(rt: &impl Print) -> io::Result<()> {
    let mut b = [165u8; 33024];
    open(rt, 4, 16, 64, &mut b)?;
    advance(rt, &mut b, 16384)?;
    lowest_at(rt, &mut b, 278528)?;
    register(rt, &mut b, 2, 278527)?;
    lowest(rt, &b)?;
    register(rt, &mut b, 3, 16384)?;
    for _ in 0..4 {
        extract(rt, &mut b)?;
    }
    Ok(())
}

// ---- a calendar in a part of a larger buffer

fn register_in(b: &mut [u8], from: usize, to: usize, station: u64, time: u64) -> Result<(), Refusal>
    requires { (from ≤ to) × (to ≤ length b.old) }
    ensures obeys { Obeys (λ q. register_checks q station time) (λ q. registered_at q station time)
        (take (to - from) (drop from b.old)) result (take (to - from) (drop from b.new)) }
    ensures before { take from b.new ≡ take from b.old }
    ensures beyond { drop to b.new ≡ drop to b.old }
{
    calendar::register(&mut b[from..to], station, time)
}

fn open_in(rt: &impl Print, b: &mut [u8]) -> io::Result<()> {
    if b.len() < 34100 {
        return Ok(());
    }
    open(rt, 4, 16, 64, &mut b[1000..34100])
}

fn tell_register_in(rt: &impl Print, b: &mut [u8]) -> io::Result<()> {
    if b.len() < 34100 {
        return Ok(());
    }
    print!(rt; "register 2 77")?;
    tell(rt, register_in(b, 1000, 34100, 2, 77))
}

// .. and the bytes on both sides of the part.
fn lowest_in(rt: &impl Print, b: &[u8]) -> io::Result<()> {
    if b.len() < 34101 {
        return Ok(());
    }
    lowest(rt, &b[1000..34100])?;
    println!(rt; " {} {}", b[999], b[34100])
}

fn part(rt: &impl Print) -> io::Result<()> {
    let mut b = [165u8; 40000];
    open_in(rt, &mut b)?;
    tell_register_in(rt, &mut b)?;
    lowest_in(rt, &b)
}

// ---- drawn calls

fn below(x: u32, n: u32) -> u32 {
    if n == 0 { 0 } else { x % n }
}

fn thrice(d: u32) -> u32 {
    generator::drawn(generator::drawn(generator::drawn(d)))
}

// A time up to t after the floor; of sixteen one is after half the floor.
fn time_after(floor: u64, t: u32) -> u64 {
    let from = if t % 16 == 0 { floor / 2 } else { floor };
    from.wrapping_add(t as u64)
}

// One call of a kind by the draw d, with a station up to n.
fn call(rt: &impl Print, b: &mut [u8], n: u16, span: u32, floor: u64, d: u32) -> io::Result<()> {
    let e = generator::drawn(d);
    let station = below(e, n as u32 + 1) as u64;
    let time = time_after(floor, below(generator::drawn(e), span));
    match d / 4096 % 8 {
        0..=3 => register(rt, b, station, time),
        4 => unregister(rt, b, station),
        5 => lowest(rt, b),
        _ => extract(rt, b),
    }
}

// After every eighth call the floor rises by up to an eighth of the span, or that is refused.
fn raised(rt: &impl Print, b: &mut [u8], span: u32, floor: u64, d: u32, i: u32) -> io::Result<u64> {
    if i % 8 != 7 {
        return Ok(floor);
    }
    let next = floor.wrapping_add(below(d, span / 8 + 1) as u64);
    if advance(rt, b, next)? {
        Ok(next)
    } else {
        Ok(floor)
    }
}

// So many calls from a seed.
fn calls(
    rt: &impl Print,
    b: &mut [u8],
    n: u16,
    span: u32,
    seed: u32,
    count: u32,
) -> io::Result<()> {
    let mut d = seed;
    let mut floor: u64 = 0;
    for i in 0..count {
        call(rt, &mut *b, n, span, floor, d)?;
        d = thrice(d);
        floor = raised(rt, &mut *b, span, floor, d, i)?;
    }
    Ok(())
}

fn drawn(
    rt: &impl Print,
    n: u16,
    arity: u64,
    width: u64,
    span: u32,
    seed: u32,
    count: u32,
) -> io::Result<()> {
    let mut b = filled::<540672>();
    open(rt, n as u64, arity, width, &mut b)?;
    calls(rt, &mut b, n, span, seed, count)
}

fn main(rt: HostRuntime) -> io::Result<()> {
    openings(&rt)?;
    arities(&rt)?;
    bounds(&rt)?;
    refusals(&rt)?;
    taken(&rt)?;
    places(&rt)?;
    last_block(&rt)?;
    overflow(&rt)?;
    ties(&rt)?;
    words_read(&rt, 8, [4095, 4096, 61439, 61440, 65535, 65536])?;
    words_read(&rt, 16, [16383, 16384, 245759, 245760, 262143, 262144])?;
    words_read(&rt, 32, [65535, 65536, 983039, 983040, 1048575, 1048576])?;
    words_read(
        &rt,
        64,
        [262143, 262144, 3932159, 3932160, 4194303, 4194304],
    )?;
    words_read_of_three(&rt)?;
    far_in_the_ring(&rt)?;
    last_leaf(&rt)?;
    part(&rt)?;
    drawn(&rt, 5, 16, 1, 9000, 1, 300)?;
    drawn(&rt, 256, 16, 64, 400000, 77, 300)?;
    drawn(&rt, 40, 16, 3, 20000, 12345, 300)?;
    drawn(&rt, 40, 16, 3, 40, 4321, 200)?;
    drawn(&rt, 256, 16, 1048576, 1000000000, 999, 200)?;
    drawn(&rt, 40, 8, 3, 9000, 11, 300)?;
    drawn(&rt, 256, 8, 64, 200000, 12, 200)?;
    drawn(&rt, 40, 32, 1, 40000, 13, 300)?;
    drawn(&rt, 256, 32, 64, 2000000, 14, 200)?;
    drawn(&rt, 40, 64, 1, 150000, 15, 300)?;
    drawn(&rt, 256, 64, 1048576, 4000000000, 16, 200)
}
