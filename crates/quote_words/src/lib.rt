// What a quote says where there is no figure, to a writer, and how far a long one has come, to the standard error: a line each.

#![tactic(auto)]

use line::Config;
use refusal::Refusal;
use std::io;
use std::io::Write;

// ---- the plan

// The parent is not below its station, or station 0 has another than itself.
fn parent_out(station: u16, parent: u16) -> bool {
    if station == 0 {
        parent != 0
    } else {
        station <= parent
    }
}

// The first number of a station that is out of range.
fn field_out(station: u16, g: Config) -> &'static str {
    if parent_out(station, g.parent) {
        "parent"
    } else if g.calm < 1 {
        "calm period"
    } else if g.spring < 1 {
        "spring period"
    } else if g.hop < 1 {
        "hop delay"
    } else if 2147483646 < g.noise {
        "noise limit"
    } else {
        "seed"
    }
}

// Why a plan is refused: its station and field, where there is one.
fn refused_plan_for(out: &mut impl Write, plan: &[u8], e: Refusal) -> io::Result<()> {
    match e {
        Refusal::Shape => write!(
            out,
            "it has no station, more than 256, or too few bytes for their pairs"
        ),
        Refusal::Pair(s) => write!(out, "station {s}, its pair has a wrong offset or length"),
        Refusal::Trailing => write!(out, "bytes follow the last record"),
        Refusal::Field(s) => {
            let field = field_out(s, plan_format::config_at(plan, s));
            write!(out, "station {s}, {field} is out of range")
        }
        Refusal::Name(s) => write!(out, "station {s}, a byte of its name is out of range"),
        _ => write!(out, "it is not opened"),
    }
}

// A plan that is refused.
pub fn refused_plan(out: &mut impl Write, plan: &[u8], e: Refusal) -> io::Result<()> {
    write!(out, "quote: plan.bin is refused: ")?;
    refused_plan_for(out, plan, e)?;
    writeln!(out, " ({})", refusal::number(e))
}

// ---- the scenario

// Why a line of the scenario is refused.
fn line_fault(e: Refusal) -> &'static str {
    match e {
        Refusal::Command => {
            "none of 'days DAYS' (1 to 366), 'read STATION TIME', 'level STATION TIME MM'"
        }
        Refusal::Station => "the plan has no such station",
        Refusal::Matter => "the level is over 4294967295 mm",
        Refusal::Late => "the time is after 1099511627775 ms",
        Refusal::Full => "more than 4096 posts",
        _ => "the post is refused",
    }
}

// A line of the scenario that is no order, or whose post is refused.
pub fn refused_line(out: &mut impl Write, line: u64, e: Refusal) -> io::Result<()> {
    let fault = line_fault(e);
    writeln!(
        out,
        "quote: scenario, line {line}: {fault} ({})",
        refusal::number(e)
    )
}

// With the readings that are posted where no line is one, there are too many.
pub fn refused_readings(out: &mut impl Write, e: Refusal) -> io::Result<()> {
    writeln!(
        out,
        "quote: scenario: more than 4096 posts, with a reading of each station at 0 ({})",
        refusal::number(e)
    )
}

// ---- the run

// A run that met a refusal.
pub fn refused_run(out: &mut impl Write, e: Refusal) -> io::Result<()> {
    let fault = match e {
        Refusal::Count => "the count of a station would pass 32 bits",
        _ => "a run is refused",
    };
    writeln!(out, "quote: no figure: {fault} ({})", refusal::number(e))
}

// More events are held at a time than there are places: those that run then, and those that wait.
pub fn too_busy(out: &mut impl Write, time: u64) -> io::Result<()> {
    writeln!(
        out,
        "quote: no figure: the line is too busy: more than 4096 events are held at {time} ms ({})",
        refusal::number(Refusal::Full)
    )
}

// The day that is run next, counted from 1.
pub fn progress(rt: &impl Eprint, day: u64, days: u64) -> io::Result<()> {
    eprintln!(rt; "quote: day {day} of {days}")
}

// The scenario has more bytes than are read.
pub fn long_scenario(out: &mut impl Write) -> io::Result<()> {
    writeln!(out, "quote: the scenario is longer than 65536 bytes")
}

// The run made all its turns: 2 to the 64 less 1, so no run is seen to end so.
pub fn unfinished(out: &mut impl Write) -> io::Result<()> {
    writeln!(out, "quote: no figure: the run did not come to its end")
}
