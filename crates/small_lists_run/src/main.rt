// Makes every small list of calls on an engine of its own and writes a line for each: its four bytes, and each call as the bench's command with what the bench prints
// for it. This is what a logger is held against; tools/small_lists.py writes the same lines from a reading of the documents that shares nothing with the crates.

#![tactic(auto)]

use std::io;

// ---- a call

// Its command; an unused place has none.
fn ask(rt: &impl Print, number: u8) -> io::Result<()> {
    match number {
        0 => print!(rt; " | run: "),
        1 => print!(rt; " | run 0: "),
        2 => print!(rt; " | run 1: "),
        3 => print!(rt; " | post 1 0 1 0: "),
        4 => print!(rt; " | post 1 30 1 0: "),
        5 => print!(rt; " | retract 0: "),
        6 => print!(rt; " | commit 31: "),
        _ => Ok(()),
    }
}

// Its answer's lines, with a stroke for the end of each that is not the last.
fn tell(rt: &impl Print, lines: &[u8]) -> io::Result<()> {
    for (i, x) in lines.iter().enumerate() {
        if *x != b'\n' {
            rt.write_all(&[*x])?;
        } else if i + 1 < lines.len() {
            print!(rt; " / ")?;
        }
    }
    Ok(())
}

// The first n bytes of a text.
fn put(rt: &impl Print, text: &[u8], n: usize) -> io::Result<()> {
    if n <= text.len() {
        tell(rt, &text[..n])?;
    }
    Ok(())
}

fn call(rt: &impl Print, b: &mut [u8], number: u8) -> io::Result<()> {
    let mut text = [0u8; 6240];
    let n = small_lists_making::make(b, number, &mut text);
    ask(rt, number)?;
    put(rt, &text, n)
}

// ---- a list

// The buffer is the same for all lists: an opening does not depend on what it held.
fn list(
    rt: &impl Print,
    b: &mut [u8],
    length: u8,
    first: u8,
    second: u8,
    third: u8,
) -> io::Result<()> {
    print!(rt; "{length} {first} {second} {third}")?;
    let mut text = [0u8; 6240];
    let n = small_lists_making::open(b, &mut text);
    put(rt, &text, n)?;
    call(rt, b, first)?;
    call(rt, b, second)?;
    call(rt, b, third)?;
    println!(rt)
}

fn all(rt: &impl Print, lists: &[u8; 1600]) -> io::Result<()> {
    let mut b = [0u8; 57344];
    for four in lists.chunks_exact(4) {
        list(rt, &mut b, four[0], four[1], four[2], four[3])?;
    }
    Ok(())
}

fn main(rt: HostRuntime) -> io::Result<()> {
    let mut lists = [0u8; 1600];
    match small_lists::write(&mut lists) {
        Ok(()) => all(&rt, &lists),
        Err(_) => println!(&rt; "no 18"),
    }
}
