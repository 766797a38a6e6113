// The hours of the day in a quote: what the collector hears and loses in each of the 24, of all days, with bars.

#![tactic(auto)]

ghost use Rattle.std.specs.Prelude.{Some};
ghost use Rattle.quote_hours.specs.Bars.{bar};

use quote_numbers::{HEARD, LOST};
use std::{fmt, io};

// The frames of an hour of the day, of all days.
fn of_hour(hours: &[u32], which: u8, days: u16, hour: u8) -> u64 {
    let mut sum = 0;
    for d in 0..days {
        let from = 24 * u32::from(d) + u32::from(hour);
        sum += u64::from(quote_numbers::between(hours, which, from, from + 1));
    }
    sum
}

// The most that is heard in one of them.
fn most_heard(hours: &[u32], days: u16) -> u64 {
    (0..24)
        .map(|h| of_hour(hours, HEARD, days, h))
        .max()
        .unwrap_or(0)
}

// A bar of so many bytes, after two spaces; nothing where it has none.
#[derive(Clone, Copy)]
struct Bar(u64);

impl fmt::Display for Bar {
    ghost output = { λ b. Some (bar b.0) };

    fn fmt<W: fmt::Write>(&self, f: &mut fmt::Formatter<W>) -> fmt::Result {
        if self.0 == 0 {
            return Ok(());
        }
        write!(f, "  ")?;
        for _ in 0..self.0 {
            write!(f, "#")?;
        }
        Ok(())
    }
}

// Of each hour of the days in turn `hours` has two numbers: what the collector had heard and what it had lost when the hour ended, since the start.
// One byte of a bar stands for so many frames that the longest bar has 50 at most.
pub fn put(rt: &impl Print, hours: &[u32], days: u16) -> io::Result<()> {
    let unit = quote_numbers::round_up(most_heard(hours, days).div_ceil(50));
    println!(rt; "\n   hour      heard       lost  # is {unit} heard")?;
    for hour in 0..24 {
        let heard = of_hour(hours, HEARD, days, hour);
        let lost = of_hour(hours, LOST, days, hour);
        let bar = Bar(heard / unit);
        println!(rt; "{hour:>7}{heard:>11}{lost:>11}{bar}")?;
    }
    Ok(())
}
