// The quote's program: a plan and a scenario in; a table, bars, the figure and a picture out. What is found is crate quoting; here are input and output.

#![tactic(auto)]

ghost use Rattle.std.specs.Prelude.{◌≡◌, length};

use engine_answers::UntilError;
use quote_setup::SetUpError;
use quoting::QuoteError;
use std::io;
use std::io::{Read, Write};
use std::rt::{Clock, Files};

// ---- room
//
// Kept: functions with their lengths as contracts. An array written where it is used has its length computed item by item there, and the proof runs out of
// stack.

// An engine of 256 stations and 4096 events: 32768 + 256·256 + 256·4096 bytes.
fn engine_room() -> [u8; 1146880]
    ensures { 1146880 ≡ length result }
{
    [0; 1146880]
}

// A commit of 4096 events, of 24 bytes each.
fn log_room() -> [u8; 98304]
    ensures { 98304 ≡ length result }
{
    [0; 98304]
}

// Two numbers an hour, of 366 days.
fn table_room() -> [u32; 17568]
    ensures { 17568 ≡ length result }
{
    [0; 17568]
}

// A scenario, and a byte more: where it is read too, the scenario is too long.
fn scenario_room() -> [u8; 65537]
    ensures { 65537 ≡ length result }
{
    [0; 65537]
}

// ---- what is shown

fn draw(
    rt: &(impl Files + Eprint),
    path: &[u8],
    plan: &[u8],
    days: u16,
    table: &[u32],
) -> io::Result<()> {
    match console::create(rt, path) {
        Ok(mut file) => quote_picture::write(&mut file, plan, days, table),
        Err(e) => console::fail(rt, path, e),
    }
}

// The report on the standard output, and the picture in its file. No quote is done for more than 366 days.
fn show(
    rt: &(impl Files + Print + Eprint),
    plan: &[u8],
    b: &[u8],
    days: u64,
    table: &[u32],
    picture: &[u8],
) -> io::Result<()> {
    if 366 < days {
        return Ok(());
    }
    let days = days as u16;
    quote_report::report(rt, plan, b, days, table)?;
    draw(rt, picture, plan, days, table)
}

// Why there is no figure. The table lent here is never short.
fn show_error(words: &mut impl Write, plan: &[u8], e: QuoteError) -> io::Result<()> {
    match e {
        QuoteError::Short => Ok(()),
        QuoteError::SetUp(SetUpError::Plan(r)) => quote_words::refused_plan(words, plan, r),
        QuoteError::SetUp(SetUpError::Line(l)) => {
            quote_words::refused_line(words, l.line, l.refusal)
        }
        QuoteError::SetUp(SetUpError::Reading(r)) => quote_words::refused_readings(words, r),
        QuoteError::Stopped(UntilError::Refused(r)) => quote_words::refused_run(words, r),
        QuoteError::Stopped(UntilError::Busy { time }) => quote_words::too_busy(words, time),
        QuoteError::Stopped(UntilError::Unfinished) => quote_words::unfinished(words),
    }
}

// ---- what is read

fn run(
    rt: &(impl Files + Print + Eprint + Clock),
    plan: &[u8],
    text: &[u8],
    picture: &[u8],
    words: &mut impl Write,
) -> io::Result<()> {
    let mut b = engine_room();
    let mut out = log_room();
    let mut table = table_room();
    match quoting::quote(rt, plan, text, &mut b, &mut out, &mut table) {
        Ok(days) => show(rt, plan, &b, days, &table, picture),
        Err(e) => show_error(words, plan, e),
    }
}

fn read_scenario(
    rt: &(impl Files + Print + Eprint + Clock),
    plan: &[u8],
    scenario: &mut impl Read,
    picture: &[u8],
    words: &mut impl Write,
) -> io::Result<()> {
    let mut text = scenario_room();
    let n = console::read_full(scenario, &mut text);
    if 65536 < n {
        return quote_words::long_scenario(words);
    }
    run(rt, plan, &text[..n], picture, words)
}

// The plan in a file is quoted by the scenario that can be read from `scenario`. The table, the bars and the figure go to the standard output, the picture to
// its file, and to `words` why there is no figure. It lends nothing to its caller and returns nothing but the error of a write, so its contract has nothing to
// speak of: what is quoted is in the contract of `quoting::quote`.
pub fn serve(
    rt: &(impl Files + Print + Eprint + Clock),
    path: &[u8],
    scenario: &mut impl Read,
    picture: &[u8],
    words: &mut impl Write,
) -> io::Result<()> {
    match console::open(rt, path) {
        Ok(mut file) => {
            let mut plan = [0u8; 16384];
            let n = console::read_full(&mut file, &mut plan);
            read_scenario(rt, &plan[..n], scenario, picture, words)
        }
        Err(e) => console::fail(rt, path, e),
    }
}
