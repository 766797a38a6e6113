// A line of a scenario to its order.

#![tactic(auto)]

ghost use Rattle.std.specs.Prelude.{◌≡◌, ◌++◌, drop};
ghost use Rattle.scenario.specs.Orders.{days_word, read_word, level_word};
ghost use Rattle.scenario.specs.Promises.{ReadsOrder};
ghost use Rattle.scenario.specs.Steps.{FindsOrder};

use refusal::Refusal;

// A line of a scenario: how many days, a reading from a time on, or a level from a time on.
#[derive(Clone, Copy)]
pub enum Order {
    Days { days: u64 },
    Read { station: u64, time: u64 },
    Level { station: u64, time: u64, mm: u64 },
}

// "days DAYS", where the line begins with days: 1 to 366.
fn days_order(line: &[u8]) -> Option<Order>
    requires { line.now ≡ days_word ++ drop 4 line.now }
    ensures { FindsOrder line.now result }
{
    let days = text_reading::last_number(line, 4)?.value;
    if days < 1 || 366 < days {
        return None;
    }
    Some(Order::Days { days })
}

// "read STATION TIME", where the line begins with read.
fn read_order(line: &[u8]) -> Option<Order>
    requires { line.now ≡ read_word ++ drop 4 line.now }
    ensures { FindsOrder line.now result }
{
    let station = text_reading::number_after(line, 4)?;
    let time = text_reading::last_number(line, station.end)?;
    Some(Order::Read {
        station: station.value,
        time: time.value,
    })
}

// "level STATION TIME MM", where the line begins with level.
fn level_order(line: &[u8]) -> Option<Order>
    requires { line.now ≡ level_word ++ drop 5 line.now }
    ensures { FindsOrder line.now result }
{
    let station = text_reading::number_after(line, 5)?;
    let time = text_reading::number_after(line, station.end)?;
    let mm = text_reading::last_number(line, time.end)?;
    Some(Order::Level {
        station: station.value,
        time: time.value,
        mm: mm.value,
    })
}

// The order of a line, if it is one.
fn find_order(line: &[u8]) -> Option<Order>
    ensures { FindsOrder line.now result }
{
    if text_reading::begins(line, b"days") {
        return days_order(line);
    }
    if text_reading::begins(line, b"read") {
        return read_order(line);
    }
    if text_reading::begins(line, b"level") {
        return level_order(line);
    }
    None
}

// The order of a line, without the byte that ends it; or refusal 8.
pub fn order_of(line: &[u8]) -> Result<Order, Refusal>
    ensures { ReadsOrder line.now result }
{
    find_order(line).ok_or(Refusal::Command)
}
