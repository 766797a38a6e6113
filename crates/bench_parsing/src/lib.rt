// A command line of the bench to its command.

#![tactic(auto)]

ghost use Rattle.std.specs.Prelude.{◌≡◌, ◌++◌, drop};
ghost use Rattle.bench_command.specs.Lines.{post_word, retract_word, run_word, commit_word};
ghost use Rattle.bench_parsing.specs.Promises.{Parses};
ghost use Rattle.bench_parsing.specs.Steps.{Reads};

use bench_command::Command;
use refusal::Refusal;
use text_reading::{begins, last_number, number_after};

// A number is taken with the place after it by let .. else, the form that document 01 names here.

// "post STATION TIME KIND VALUE", where the line begins with post.
fn parse_post(line: &[u8]) -> Result<Command, Refusal>
    requires { line.now ≡ post_word ++ drop 4 line.now }
    ensures { Reads line.now result }
{
    let Some(station) = number_after(line, 4) else {
        return Err(Refusal::Command);
    };
    let Some(time) = number_after(line, station.end) else {
        return Err(Refusal::Command);
    };
    let Some(kind) = number_after(line, time.end) else {
        return Err(Refusal::Command);
    };
    let Some(value) = number_after(line, kind.end) else {
        return Err(Refusal::Command);
    };
    if value.end == line.len() {
        return Ok(Command::Post {
            station: station.value,
            time: time.value,
            kind: kind.value,
            value: value.value,
        });
    }
    Err(Refusal::Command)
}

fn parse_retract(line: &[u8]) -> Result<Command, Refusal>
    requires { line.now ≡ retract_word ++ drop 7 line.now }
    ensures { Reads line.now result }
{
    let Some(number) = last_number(line, 7) else {
        return Err(Refusal::Command);
    };
    Ok(Command::Retract {
        number: number.value,
    })
}

// "run" or "run STATION"
fn parse_run(line: &[u8]) -> Result<Command, Refusal>
    requires { line.now ≡ run_word ++ drop 3 line.now }
    ensures { Reads line.now result }
{
    if line.len() == 3 {
        return Ok(Command::Run);
    }
    let Some(station) = last_number(line, 3) else {
        return Err(Refusal::Command);
    };
    Ok(Command::RunStation {
        station: station.value,
    })
}

fn parse_commit(line: &[u8]) -> Result<Command, Refusal>
    requires { line.now ≡ commit_word ++ drop 6 line.now }
    ensures { Reads line.now result }
{
    let Some(time) = last_number(line, 6) else {
        return Err(Refusal::Command);
    };
    Ok(Command::Commit { time: time.value })
}

// A command line, without the byte that ends it.
pub fn parse(line: &[u8]) -> Result<Command, Refusal>
    ensures { Parses line.now result }
{
    if begins(line, b"post") {
        return parse_post(line);
    }
    if begins(line, b"retract") {
        return parse_retract(line);
    }
    if begins(line, b"run") {
        return parse_run(line);
    }
    if begins(line, b"commit") {
        return parse_commit(line);
    }
    Err(Refusal::Command)
}
