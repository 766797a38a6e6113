// The lines of a scenario are obeyed one after the other: what each asks is posted to the engine.

#![tactic(auto)]

ghost use Rattle.std.specs.Prelude.{◌≡◌, ◌≤◌, length, nat_eq};
ghost use Rattle.std.specs.List.{position_or_len};
ghost use Rattle.scenario_posting.specs.Promises.{TakesLines};
ghost use Rattle.scenario_posting.specs.Steps.{EndsLine, next_line, TakesOrder, TakesLine};

use refusal::Refusal;
use scenario::Order;

// What lines ask for: so many days, and whether a reading.
#[derive(Clone, Copy)]
pub struct Asked {
    pub days: u64,
    pub read: bool,
}

// A line, counted from 1, that is no order or whose post is refused.
#[derive(Clone, Copy)]
pub struct LineRefused {
    pub line: u64,
    pub refusal: Refusal,
}

// ---- one line

// How many bytes stand before the first byte 10; all, where there is none.
fn line_len(text: &[u8]) -> usize
    ensures { result ≡ position_or_len (λ b. nat_eq b 10) text.now }
{
    text.iter().take_while(|b| **b != 10).count()
}

// Where the line that begins at a place ends: at its byte 10, or where the text ends.
fn line_end(text: &[u8], from: usize) -> usize
    requires { from ≤ length text.now }
    ensures { EndsLine text.now from result }
{
    from + line_len(&text[from..])
}

// An order is obeyed: what is asked for after it.
fn take_order(b: &mut [u8], asked: Asked, o: Order) -> Result<Asked, Refusal>
    ensures { TakesOrder asked.days asked.read o b.old result b.new }
{
    match o {
        Order::Days { days } => Ok(Asked { days, ..asked }),
        Order::Read { station, time } => {
            engine::post(b, station, time, 1, 0)?;
            Ok(Asked {
                read: true,
                ..asked
            })
        }
        Order::Level { station, time, mm } => {
            engine::post(b, station, time, 3, mm)?;
            Ok(asked)
        }
    }
}

// A line is read and obeyed.
fn take_line(b: &mut [u8], asked: Asked, line: &[u8]) -> Result<Asked, Refusal>
    ensures { TakesLine asked.days asked.read line.now b.old result b.new }
{
    let o = scenario::order_of(line)?;
    take_order(b, asked, o)
}

// Where the line after one that ends at a place begins.
fn after_line(text: &[u8], end: usize) -> usize
    ensures { result ≡ next_line end (length text.now) }
{
    if end < text.len() {
        return end + 1;
    }
    end
}

// The lines of a scenario are obeyed one after the other.
pub fn take_lines(b: &mut [u8], text: &[u8]) -> Result<Asked, LineRefused>
    ensures { TakesLines text.now b.old result b.new }
{
    let mut asked = Asked {
        days: 1,
        read: false,
    };
    let mut line: u64 = 0;
    let mut from = 0;
    while from < text.len() {
        line += 1;
        let end = line_end(text, from);
        match take_line(b, asked, &text[from..end]) {
            Ok(next) => asked = next,
            Err(refusal) => return Err(LineRefused { line, refusal }),
        }
        from = after_line(text, end);
    }
    Ok(asked)
}
