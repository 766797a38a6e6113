// The bench's answers: a plan is opened, and a command line is answered. What is printed is put into a lent text.

#![tactic(auto)]

ghost use Rattle.std.specs.Prelude.{◌≡◌, ◌++◌, ◌≤◌, length};
ghost use Rattle.bench_command.specs.Lines.{answer_line};
ghost use Rattle.bench_answers.specs.Shown.{entry_lines};
ghost use Rattle.bench_answers.specs.Promises.{Written, InText, OpensBench, Obeyed, Replied};
ghost use Rattle.bench_answers.specs.Steps.{AsksEngine, entries_in};

use bench_command::{Command, Output};
use engine::{LowestAnswer, PostAnswer, RunAnswer};
use refusal::Refusal;

// The bytes of a text that has room for every answer: the lines of 64 entries and of their count. With a shorter one nothing is done.
const TEXT: usize = 6240;

// ---- commands

// A command is asked of the engine; a commit's log is written into the lent bytes. The count of bitmap words that a run lowest reads is not printed.
fn ask(b: &mut [u8], c: Command, log: &mut [u8]) -> Result<Output, Refusal>
    ensures { AsksEngine c log.old b.old result b.new log.new }
{
    match c {
        Command::Post {
            station,
            time,
            kind,
            value,
        } => {
            let PostAnswer { number, undone } = engine::post(b, station, time, kind, value)?;
            Ok(Output::Post { number, undone })
        }
        Command::Retract { number } => {
            let undone = engine::retract(b, number)?;
            Ok(Output::Retract { undone })
        }
        Command::Run => {
            let LowestAnswer {
                station,
                undone,
                ..
            } = engine::run_lowest(b)?;
            Ok(Output::Run { station, undone })
        }
        Command::RunStation { station: asked } => {
            let RunAnswer { station, undone } = engine::run_station(b, asked)?;
            Ok(Output::Run { station, undone })
        }
        Command::Commit { time } => {
            let count = engine::commit(b, time, log)?;
            Ok(Output::Commit { count })
        }
    }
}

// How many entries of the log are printed: a commit's, of which the log has 64 at most.
fn entry_count(r: Result<Output, Refusal>) -> u32
    ensures { result ≡ entries_in r }
{
    match r {
        Ok(Output::Commit { count }) => count.min(64) as u32,
        _ => 0,
    }
}

// The lines of the log's entries, then of the answer.
fn print_answer(text: &mut [u8], log: &[u8], r: Result<Output, Refusal>) -> usize
    requires { 6240 ≤ length text.old }
    ensures { Written (entry_lines (entries_in r) log.now ++ answer_line r) text.old result text.new }
{
    let mut at = 0;
    for k in 0..entry_count(r) {
        at = bench_printing::print_entry(text, at, entry::read(log, 24 * k));
    }
    bench_printing::print(text, at, r)
}

// A command is obeyed; answers how many bytes of the text are to be printed.
pub fn obey(b: &mut [u8], c: Command, text: &mut [u8]) -> usize
    ensures { InText (Obeyed c b.old b.new) b.old text.old result b.new text.new }
{
    if text.len() < TEXT {
        return 0;
    }
    let mut log = [0u8; 1536];
    let r = ask(b, c, &mut log);
    print_answer(text, &log, r)
}

// ---- command lines

// The answer to a line, without the byte that ends it; answers how many bytes of the text are to be printed.
pub fn reply(b: &mut [u8], line: &[u8], text: &mut [u8]) -> usize
    ensures { InText (Replied line.now b.old b.new) b.old text.old result b.new text.new }
{
    if text.len() < TEXT {
        return 0;
    }
    match bench_parsing::parse(line) {
        Ok(c) => obey(b, c, text),
        Err(e) => bench_printing::print(text, 0, Err(e)),
    }
}

// ---- the opening

// A plan's engine is opened. Answers how many bytes of the text are to be printed: 0 where the opening is accepted.
pub fn open(plan: &[u8], b: &mut [u8], text: &mut [u8]) -> usize
    ensures { InText (OpensBench plan.now b.old b.new) b.old text.old result b.new text.new }
{
    if text.len() < TEXT {
        return 0;
    }
    match engine::open(plan, 16, 64, 64, b) {
        Ok(()) => 0,
        Err(e) => bench_printing::print(text, 0, Err(e)),
    }
}
