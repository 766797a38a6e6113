// Writes the small lists to outputs of several lengths, each a part of 1700 bytes of 165, and writes a line for each: the answer, how many bytes are 165 still, and
// the sum of all bytes. Then some lists of the last output, and what stands after them. tools/small_lists.py writes the same lines from a reading of the document.

#![tactic(auto)]

ghost use Rattle.std.specs.Prelude.{◌≤◌, length};

use refusal::Refusal;
use std::io;

fn tell(rt: &impl Print, said: Result<(), Refusal>) -> io::Result<()> {
    match said {
        Ok(()) => print!(rt; ": ok, "),
        Err(e) => print!(rt; ": no {}, ", refusal::number(e)),
    }
}

// How many bytes are 165, and the sum of all.
#[derive(Clone, Copy)]
struct Totals {
    same: u64,
    sum: u64,
}

fn total(out: &[u8]) -> Totals
    requires { length out.now ≤ 1700 }
{
    Totals {
        same: out.iter().filter(|x| **x == 165).count() as u64,
        sum: out.iter().map(|x| u64::from(*x)).sum(),
    }
}

fn write(rt: &impl Print, out: &mut [u8], length: usize) -> io::Result<()> {
    if length <= out.len() {
        tell(rt, small_lists::write(&mut out[..length]))?;
    }
    Ok(())
}

fn output(rt: &impl Print, length: u16) -> io::Result<()> {
    let mut out = [165u8; 1700];
    print!(rt; "write {length}")?;
    write(rt, &mut out, length as usize)?;
    let t = total(&out);
    println!(rt; "{} as they were, sum {}", t.same, t.sum)
}

// List k of the output.
fn list(rt: &impl Print, out: &[u8; 1700], k: u16) -> io::Result<()> {
    if k < 425 {
        let at = 4 * k as usize;
        println!(rt;
            "list {k}: {} {} {} {}",
            out[at],
            out[at + 1],
            out[at + 2],
            out[at + 3]
        )?;
    }
    Ok(())
}

fn lists(rt: &impl Print) -> io::Result<()> {
    let mut out = [165u8; 1700];
    let _ = small_lists::write(&mut out);
    list(rt, &out, 0)?;
    list(rt, &out, 1)?;
    list(rt, &out, 7)?;
    list(rt, &out, 8)?;
    list(rt, &out, 9)?;
    list(rt, &out, 56)?;
    list(rt, &out, 57)?;
    list(rt, &out, 58)?;
    list(rt, &out, 399)?;
    list(rt, &out, 400)
}

fn main(rt: HostRuntime) -> io::Result<()> {
    output(&rt, 0)?;
    output(&rt, 1)?;
    output(&rt, 4)?;
    output(&rt, 1596)?;
    output(&rt, 1599)?;
    output(&rt, 1600)?;
    output(&rt, 1601)?;
    output(&rt, 1604)?;
    output(&rt, 1700)?;
    lists(&rt)
}
