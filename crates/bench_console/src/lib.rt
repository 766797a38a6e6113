// The bench: a plan and command lines in, answers out. What is answered is crate bench_answers; here are input, output and the loop.

#![tactic(auto)]

ghost use Rattle.std.specs.Prelude.{List, [], ◌∷◌, ℕ, ◌≤◌, length, IfOk};
ghost use Rattle.bench_console.specs.Steps.{Printed, Console, Taken, ReadOn, Within, AnswersAll};

use std::io;
use std::io::{Input, Write};
use std::rt::Files;

// ---- command lines

// A line is answered.
fn answer<W: Write>(b: &mut [u8], line: &[u8], out: &mut W) -> io::Result<()>
    ensures { Printed line.now b.old b.new }
{
    let mut text = [0u8; 6240];
    let n = bench_answers::reply(b, line, &mut text);
    console::put_to(out, &text, n)
}

// One byte of input: it ends the line, or is put after it. Answers the line's length. Of a line that is longer than the buffer the front is kept: it is
// longer than any command, and so is the line.
// Kept: the buffer is fixed memory that a line grows in, so its length stands beside it.
fn take<W: Write>(
    b: &mut [u8],
    line: &mut [u8],
    len: usize,
    byte: u8,
    out: &mut W,
) -> io::Result<usize>
    requires { (len ≤ length line.old) × (128 ≤ length line.old) }
    ensures within { IfOk result (λ n. n ≤ length line.new) }
    ensures fed { (xs input : List ℕ) → Console xs input line.old len b.old
        → Taken xs input (byte ∷ []) line.new result b.new }
{
    if byte == 10 {
        answer(b, &line[..len], out)?;
        return Ok(0);
    }
    if len < line.len() {
        line[len] = byte;
        return Ok(len + 1);
    }
    Ok(len)
}

fn take_all<W: Write>(
    b: &mut [u8],
    line: &mut [u8],
    len: usize,
    input: &[u8],
    out: &mut W,
) -> io::Result<usize>
    requires { (len ≤ length line.old) × (128 ≤ length line.old) }
    ensures within { IfOk result (λ n. n ≤ length line.new) }
    ensures fed { (xs before : List ℕ) → Console xs before line.old len b.old
        → Taken xs before input.now line.new result b.new }
{
    let mut at = len;
    for byte in input {
        at = take(b, line, at, *byte, out)?;
    }
    Ok(at)
}

// A read of input, and its lines. At the end the line that has not ended is one too. Answers the length of the line that has not ended, or none at the end.
fn read_some<I: io::Read, W: Write>(
    b: &mut [u8],
    line: &mut [u8],
    len: usize,
    from: &mut I,
    out: &mut W,
) -> io::Result<Option<usize>>
    requires { (len ≤ length line.old) × (128 ≤ length line.old) }
    ensures within { IfOk result (λ r. Within r line.new) }
    ensures fed { (xs input : List ℕ) → Console xs input line.old len b.old
        → ReadOn xs input line.new result b.new }
{
    let mut input = [0u8; 4096];
    let n = console::read_some(from, &mut input);
    if n == 0 {
        if 0 < len {
            answer(b, &line[..len], out)?;
        }
        return Ok(None);
    }
    Ok(Some(take_all(b, line, len, &input[..n], out)?))
}

// A proved loop has to end, and nothing says that the input does: so it takes as many turns as no run uses up.
fn read_all<I: io::Read, W: Write>(b: &mut [u8], from: &mut I, out: &mut W) -> io::Result<()>
    ensures { AnswersAll b.old b.new }
{
    let mut space = [0u8; 128];
    let line: &mut [u8] = &mut space;
    let mut len = 0;
    for _ in 0..u64::MAX {
        let Some(n) = read_some(b, line, len, from, out)? else {
            return Ok(());
        };
        len = n;
    }
    Ok(())
}

// ---- the program

// The plan in that file is opened, and the command lines of the standard input are answered. It lends nothing to its caller and returns nothing but the
// error of a write, so its contract has nothing to speak of: what it does is in the contracts of `open` and `read_all`.
pub fn serve(rt: &(impl Files + Input + Print), path: &[u8]) -> io::Result<()> {
    let mut plan = [0u8; 16384];
    let n = console::read_plan(rt, path, &mut plan);
    let mut b = [0u8; 57344];
    let mut text = [0u8; 6240];
    let k = bench_answers::open(&plan[..n], &mut b, &mut text);
    let mut out = io::writer(rt);
    console::put_to(&mut out, &text, k)?;
    if k == 0 {
        return read_all(&mut b, &mut rt.reader(), &mut out);
    }
    Ok(())
}
