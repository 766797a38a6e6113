// Judges plans and writes a line for each: the number of stations, or `no` with the refusal's number and, for 2, 4 and 5, the station.

#![tactic(auto)]

use line::Config;
use refusal::Refusal;
use std::io;

// ---- a plan is laid out

// The byte i after a place.
fn byte(out: &mut [u8], at: usize, i: usize, v: u8) {
    if at < out.len() && i < out.len() - at {
        out[at + i] = v;
    }
}

// The bytes of a number, which stands i bytes after a place.
fn number(out: &mut [u8], at: usize, i: u8, bytes: &[u8]) {
    for (k, b) in bytes.iter().enumerate() {
        byte(&mut *out, at, i as usize + k, *b);
    }
}

fn numbers(out: &mut [u8], at: usize, c: Config) {
    number(&mut *out, at, 0, &c.parent.to_le_bytes());
    number(&mut *out, at, 2, &c.calm.to_le_bytes());
    number(&mut *out, at, 6, &c.spring.to_le_bytes());
    number(&mut *out, at, 10, &c.threshold.to_le_bytes());
    number(&mut *out, at, 14, &c.hop.to_le_bytes());
    number(&mut *out, at, 18, &c.noise.to_le_bytes());
    number(&mut *out, at, 22, &c.seed.to_le_bytes());
}

fn usual() -> Config {
    Config {
        parent: 0,
        calm: 1000,
        spring: 200,
        threshold: 5000,
        hop: 30,
        noise: 0,
        seed: 1,
    }
}

// n stations with the usual numbers and a name of so many bytes.
fn lay(out: &mut [u8], n: u16, name: u8) {
    let size = 26 + name as usize;
    number(&mut *out, 0, 0, &n.to_le_bytes());
    let mut at = 2 + 8 * (n as usize);
    for k in 0..n {
        let pair = 2 + 8 * (k as usize);
        number(&mut *out, pair, 0, &(at as u32).to_le_bytes());
        number(&mut *out, pair, 4, &(size as u32).to_le_bytes());
        numbers(&mut *out, at, usual());
        letters(&mut *out, at, name);
        at += size;
    }
}

fn letters(out: &mut [u8], at: usize, n: u8) {
    for i in 0..n {
        byte(&mut *out, at, 26 + i as usize, b'a');
    }
}

// ---- what is written

fn refused(rt: &impl Print, r: Refusal) -> io::Result<()> {
    let number = refusal::number(r);
    match r {
        Refusal::Pair(k) | Refusal::Field(k) | Refusal::Name(k) => println!(rt; "no {number} {k}"),
        _ => println!(rt; "no {number}"),
    }
}

fn tell(rt: &impl Print, a: Result<usize, Refusal>) -> io::Result<()> {
    match a {
        Ok(n) => println!(rt; "{n}"),
        Err(r) => refused(rt, r),
    }
}

// What judging a plan says.
fn say(rt: &impl Print, plan: &[u8]) -> io::Result<()> {
    tell(rt, plan::judge(plan))
}

// .. and its first len bytes, where there are so many.
fn say_front(rt: &impl Print, plan: &[u8], len: usize) -> io::Result<()> {
    match plan.get(..len) {
        Some(front) => say(rt, front),
        None => Ok(()),
    }
}

// ---- the plans. Two stations with no names have their pairs at 2 and 10, their records at 18 and 44, and 70 bytes.

// A right plan of two stations, with one byte changed.
fn changed(rt: &impl Print, i: usize, v: u8) -> io::Result<()> {
    let mut b = [0u8; 70];
    lay(&mut b, 2, 0);
    byte(&mut b, 0, i, v);
    say(rt, &b)
}

// .. and the same with a number of station 1 changed.
fn numbered(rt: &impl Print, i: u8, v: u32) -> io::Result<()> {
    let mut b = [0u8; 70];
    lay(&mut b, 2, 0);
    number(&mut b, 44, i, &v.to_le_bytes());
    say(rt, &b)
}

// The first len bytes of a right plan of two stations, with a byte after it.
fn cut(rt: &impl Print, len: usize) -> io::Result<()> {
    let mut b = [0u8; 71];
    lay(&mut b, 2, 0);
    say_front(rt, &b, len)
}

// One station whose name has 16 bytes, one of them changed.
fn named(rt: &impl Print, v: u8) -> io::Result<()> {
    let mut b = [0u8; 52];
    lay(&mut b, 1, 16);
    byte(&mut b, 10, 41, v);
    say(rt, &b)
}

fn accepted(rt: &impl Print) -> io::Result<()> {
    cut(rt, 70)?;
    let mut one = [0u8; 36];
    lay(&mut one, 1, 0);
    say(rt, &one)?;
    let mut most = [0u8; 12802];
    lay(&mut most, 256, 16);
    say(rt, &most)
}

fn shapes(rt: &impl Print) -> io::Result<()> {
    cut(rt, 0)?;
    cut(rt, 1)?;
    changed(rt, 0, 0)?;
    let mut b = [0u8; 12900];
    lay(&mut b, 257, 16);
    say_front(rt, &b, 12852)?;
    cut(rt, 17)
}

fn pairs(rt: &impl Print) -> io::Result<()> {
    changed(rt, 2, 19)?;
    changed(rt, 10, 43)?;
    changed(rt, 5, 255)?;
    changed(rt, 14, 25)?;
    changed(rt, 6, 43)?;
    cut(rt, 69)
}

fn fields(rt: &impl Print) -> io::Result<()> {
    changed(rt, 18, 1)?;
    changed(rt, 44, 1)?;
    changed(rt, 44, 2)?;
    numbered(rt, 2, 0)?;
    numbered(rt, 6, 0)?;
    numbered(rt, 10, 0)?;
    numbered(rt, 14, 0)?;
    numbered(rt, 18, 2147483646)?;
    numbered(rt, 18, 2147483647)?;
    numbered(rt, 22, 0)?;
    numbered(rt, 22, 2147483646)?;
    numbered(rt, 22, 2147483647)
}

fn names(rt: &impl Print) -> io::Result<()> {
    named(rt, b'a')?;
    named(rt, 0x20)?;
    named(rt, 0x21)?;
    named(rt, 0x7e)?;
    named(rt, 0x7f)
}

// Two faults at once: 2 and 3; 4 at station 1 and 5 at station 0, whose name has one byte.
fn order(rt: &impl Print) -> io::Result<()> {
    let mut b = [0u8; 73];
    lay(&mut b, 2, 0);
    byte(&mut b, 14, 0, 25);
    say_front(rt, &b, 71)?;
    lay(&mut b, 2, 1);
    byte(&mut b, 44, 0, 0x20);
    say_front(rt, &b, 72)?;
    number(&mut b, 45, 22, &0u32.to_le_bytes());
    say_front(rt, &b, 72)?;
    say(rt, &b)
}

// Two stations, for a list of so many records.
fn room(rt: &impl Print, n: usize) -> io::Result<()> {
    let mut b = [0u8; 70];
    lay(&mut b, 2, 0);
    tell(rt, plan::judge_in(&b, n))
}

fn main(rt: HostRuntime) -> io::Result<()> {
    accepted(&rt)?;
    shapes(&rt)?;
    pairs(&rt)?;
    cut(&rt, 71)?;
    fields(&rt)?;
    names(&rt)?;
    order(&rt)?;
    room(&rt, 1)?;
    room(&rt, 2)
}
