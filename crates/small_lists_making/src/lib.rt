// The calls of the small lists on an engine, by their numbers: what a logger is held against. What is answered goes into a lent text, as the bench prints it.
//
// Kept: the text is fixed memory, so how many of its bytes are to be printed stands beside it, as bench_answers answers it.

#![tactic(auto)]

ghost use Rattle.std.specs.Prelude.{◌<◌};
ghost use Rattle.bench_answers.specs.Promises.{InText, OpensBench};
ghost use Rattle.small_lists_making.specs.Plan.{bench_plan};
ghost use Rattle.small_lists_making.specs.Promises.{MakesCall};
ghost use Rattle.small_lists_making.specs.Steps.{IsCommand};

use bench_command::Command;

// A call as the bench's command.
fn command_of(number: u8) -> Command
    requires { number < 7 }
    ensures { IsCommand number result }
{
    match number {
        0 => Command::Run,
        1 => Command::RunStation { station: 0 },
        2 => Command::RunStation { station: 1 },
        3 => Command::Post {
            station: 1,
            time: 0,
            kind: 1,
            value: 0,
        },
        4 => Command::Post {
            station: 1,
            time: 30,
            kind: 1,
            value: 0,
        },
        5 => Command::Retract { number: 0 },
        _ => Command::Commit { time: 31 },
    }
}

// The two-station plan of the bench case is opened: a count of 2, the pairs 18, 26 and 44, 26, and the same record twice (parent 0, periods 1000 and 200, threshold
// 5000, hop delay 30, noise limit 0, seed 1). Answers how many bytes of the text are to be printed: 0 where the opening is accepted.
pub fn open(b: &mut [u8], text: &mut [u8]) -> usize
    ensures { InText (OpensBench bench_plan b.old b.new) b.old text.old result b.new text.new }
{
    bench_answers::open(
        b"\x02\x00\x12\x00\x00\x00\x1a\x00\x00\x00\x2c\x00\x00\x00\x1a\x00\x00\x00\
          \x00\x00\xe8\x03\x00\x00\xc8\x00\x00\x00\x88\x13\x00\x00\x1e\x00\x00\x00\x00\x00\x00\x00\x01\x00\x00\x00\
          \x00\x00\xe8\x03\x00\x00\xc8\x00\x00\x00\x88\x13\x00\x00\x1e\x00\x00\x00\x00\x00\x00\x00\x01\x00\x00\x00",
        b,
        text,
    )
}

// The call with that number is made. Answers how many bytes of the text are to be printed: none where the number is 7 or more, and nothing is done then.
pub fn make(b: &mut [u8], number: u8, text: &mut [u8]) -> usize
    ensures { InText (MakesCall number b.old b.new) b.old text.old result b.new text.new }
{
    if 6 < number {
        return 0;
    }
    bench_answers::obey(b, command_of(number), text)
}
