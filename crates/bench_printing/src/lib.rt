// The lines of the bench's answers, of a log's entries, and of the star line's tariff.

#![tactic(auto)]

ghost use Rattle.std.specs.Prelude.{[], ◌∷◌, ◌++◌};
ghost use Rattle.text.specs.Spaced.{spaced};
ghost use Rattle.text_writing.specs.Promises.{Appends};
ghost use Rattle.bench_command.specs.Lines.{no_line, answer_line, entry_line};
ghost use Rattle.bench_command.specs.TariffLine.{tariff_line};
ghost use Rattle.bench_printing.specs.Promises.{Prints};

use bench_command::Output;
use line::Event;
use refusal::Refusal;
use text_writing::{append_after, append_byte, append_number, append_word};

// The bytes that have room for every line.
const ROOM: usize = 96;

// Numbers, each after one space, and the line's end.
fn end_line(out: &mut [u8], at: usize, numbers: &[u64]) -> usize
    ensures { Appends (spaced [] numbers.now ++ 10 ∷ []) at out.old result out.new }
{
    let mut end = at;
    for v in numbers {
        end = append_after(out, end, *v);
    }
    append_byte(out, end, 10)
}

// The line of a word with numbers after it.
fn fill_line(out: &mut [u8], at: usize, word: &[u8], numbers: &[u64]) -> usize
    ensures { Appends (spaced word.now numbers.now ++ 10 ∷ []) at out.old result out.new }
{
    let a = append_word(out, at, word);
    end_line(out, a, numbers)
}

// The line of a refusal's number.
fn fill_no(out: &mut [u8], at: usize, number: u64) -> usize
    ensures { Appends (no_line number) at out.old result out.new }
{
    fill_line(out, at, b"no", &[number])
}

// The line of an answer, or of its refusal.
fn fill(out: &mut [u8], at: usize, r: Result<Output, Refusal>) -> usize
    ensures { Appends (answer_line r) at out.old result out.new }
{
    match r {
        Ok(Output::Post { number, undone }) => fill_line(out, at, b"post", &[number, undone]),
        Ok(Output::Retract { undone }) => fill_line(out, at, b"retract", &[undone]),
        Ok(Output::Run { station, undone }) => fill_line(out, at, b"run", &[station, undone]),
        Ok(Output::Commit { count }) => fill_line(out, at, b"commit", &[count]),
        Err(e) => fill_line(out, at, b"no", &[refusal::number(e)]),
    }
}

// The line of an answer, at a place of a buffer that has 96 bytes or more from there on; answers the place after it.
pub fn print(out: &mut [u8], at: usize, r: Result<Output, Refusal>) -> usize
    ensures { Prints (answer_line r) at out.old result out.new }
{
    if out.len().saturating_sub(at) < ROOM {
        return at;
    }
    fill(out, at, r)
}

// The line of a refusal with any number, into a buffer as for print.
pub fn print_no(out: &mut [u8], at: usize, number: u64) -> usize
    ensures { Prints (no_line number) at out.old result out.new }
{
    if out.len().saturating_sub(at) < ROOM {
        return at;
    }
    fill_no(out, at, number)
}

// The line of a log's entry: time, target, kind, source, number, value.
fn fill_entry(out: &mut [u8], at: usize, e: Event) -> usize
    ensures { Appends (entry_line e) at out.old result out.new }
{
    let target = e.target as u64;
    let kind = line::kind_of(e.matter) as u64;
    let source = e.source as u64;
    let number = e.number as u64;
    let value = line::value_of(e.matter) as u64;
    let a = append_number(out, at, e.time);
    end_line(out, a, &[target, kind, source, number, value])
}

// The line of a log's entry, into a buffer as for print.
pub fn print_entry(out: &mut [u8], at: usize, e: Event) -> usize
    ensures { Prints (entry_line e) at out.old result out.new }
{
    if out.len().saturating_sub(at) < ROOM {
        return at;
    }
    fill_entry(out, at, e)
}

// The line of a tariff.
fn fill_tariff(out: &mut [u8], at: usize, t: Option<u64>) -> usize
    ensures { Appends (tariff_line t) at out.old result out.new }
{
    match t {
        Some(sum) => fill_line(out, at, b"yes", &[sum]),
        None => append_word(out, at, b"no\n"),
    }
}

// The line of a tariff, into a buffer as for print.
pub fn print_tariff(out: &mut [u8], at: usize, t: Option<u64>) -> usize
    ensures { Prints (tariff_line t) at out.old result out.new }
{
    if out.len().saturating_sub(at) < ROOM {
        return at;
    }
    fill_tariff(out, at, t)
}
