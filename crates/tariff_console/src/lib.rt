// The star tariff's program: a plan and a commit time in, one line out.

#![tactic(auto)]

ghost use Rattle.tariff_console.specs.Promises.{TellsTariff, RepliesTariff};

use std::io;
use std::io::Input;
use std::rt::Files;

// The tariff at the commit time that a line says, without the byte that ends it.
fn tell(plan: &[u8], line: &[u8]) -> Option<u64>
    ensures { TellsTariff plan.now line.now result }
{
    let number = text_reading::sole_number(line)?;
    tariff::at(plan, number.value)
}

// The line that is printed for it, into a text of 96 bytes or more; answers its length.
// Kept: the text is fixed memory that the line is written into, so its length stands beside it.
pub fn reply(plan: &[u8], line: &[u8], text: &mut [u8]) -> usize
    ensures { RepliesTariff plan.now line.now text.old result text.new }
{
    bench_printing::print_tariff(text, 0, tell(plan, line))
}

// The plan in that file, and the next line of the standard input: no number has more than 20 digits, so of a line 21 bytes are enough. It lends nothing to its
// caller and returns nothing but the error of a write, so its contract has nothing to speak of: what it prints is in the contract of `reply`.
pub fn serve(rt: &(impl Files + Input + Print), path: &[u8]) -> io::Result<()> {
    let mut plan = [0u8; 16384];
    let n = console::read_plan(rt, path, &mut plan);
    let mut line = [0u8; 21];
    let len = console::read_line(&mut rt.reader(), &mut line);
    let mut text = [0u8; 96];
    let k = reply(&plan[..n], &line[..len], &mut text);
    console::put(rt, &text, k)
}
