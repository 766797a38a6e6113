// The table of a quote: a line for each station, with what its plan and its state say.

#![tactic(auto)]

ghost use Rattle.std.specs.Prelude.{◌+◌, ◌-◌, []};
ghost use Rattle.plan_format.specs.Plan.{offset_of, length_of};
ghost use Rattle.quote_table.specs.Names.{NamesStation};

use line::State;
use std::{fmt, io};

// The name of a station as text; none where the plan has no such bytes, or they are no text.
pub fn name_of(plan: &[u8], station: u16) -> &str
    ensures { NamesStation plan.now station result.now }
{
    let offset = plan_format::offset_of(plan, station);
    let end = offset + plan_format::length_of(plan, station);
    let part = plan.get(offset + 26..end).unwrap_or(&[]);
    std::str::from_utf8(part).unwrap_or("")
}

// Frames lost, in tenths of a per cent of those that arrived; no number where none did.
#[derive(Clone, Copy)]
struct Share {
    lost: u32,
    heard: u32,
}

impl fmt::Display for Share {
    fn fmt<W: fmt::Write>(&self, f: &mut fmt::Formatter<W>) -> fmt::Result {
        let arrived = u64::from(self.heard) + u64::from(self.lost);
        if arrived == 0 {
            return write!(f, "{:>7}", "-");
        }
        let share = 1000 * u64::from(self.lost) / arrived;
        write!(f, "{:>5}.{}", share / 10, share % 10)
    }
}

// When a frame was last heard; no number where none was.
#[derive(Clone, Copy)]
struct Last(Option<u64>);

impl fmt::Display for Last {
    fn fmt<W: fmt::Write>(&self, f: &mut fmt::Formatter<W>) -> fmt::Result {
        match self.0 {
            Some(time) => write!(f, "{time:>14}"),
            None => write!(f, "{:>14}", "-"),
        }
    }
}

// A station of a plan, with its state.
pub fn put_row(rt: &impl Print, plan: &[u8], station: u16, s: State) -> io::Result<()> {
    let State {
        heard,
        lost,
        sent,
        ..
    } = s;
    let name = name_of(plan, station);
    let parent = plan_format::config_at(plan, station).parent;
    let share = Share { lost, heard };
    let last = Last(s.reached.then_some(s.last));
    println!(rt; "{station:>7}  {name:<16}{parent:>7}{heard:>11}{lost:>11}{share}{sent:>11}{last}")
}

// What the columns are.
pub fn put_head(rt: &impl Print) -> io::Result<()> {
    println!(rt;
        "station  name             parent      heard       lost  lost%       sent    last heard"
    )
}
