// The quote: from the bytes of a plan and of a scenario to what the collector hears and loses, hour by hour.

#![tactic(auto)]

ghost use Rattle.std.specs.Prelude.{◌≡◌, ◌≤◌, ◌<◌, length};
ghost use Rattle.quoting.specs.Promises.{Quotes};
ghost use Rattle.quoting.specs.declared.QuoteError.TheVariants.{SetUp, Stopped};
ghost use Rattle.quoting.specs.Steps.{Notes, RunsHour, RunsHours};

use engine_answers::UntilError;
use quote_setup::SetUpError;
use std::rt::Clock;

// Why there is no figure: the table has fewer than 17568 numbers, and then nothing is done; or the quote isn't set up; or the run to an hour did not come to
// it.
#[derive(Clone, Copy)]
pub enum QuoteError {
    Short,
    SetUp(SetUpError),
    Stopped(UntilError),
}

impl From<SetUpError> for QuoteError {
    ghost from_gives = { λ e q. q ≡ SetUp e };

    fn from(e: SetUpError) -> QuoteError {
        QuoteError::SetUp(e)
    }
}

impl From<UntilError> for QuoteError {
    ghost from_gives = { λ u q. q ≡ Stopped u };

    fn from(u: UntilError) -> QuoteError {
        QuoteError::Stopped(u)
    }
}

// Two numbers an hour, of 366 days.
const TABLE: usize = 17568;

// What the collector has heard and lost goes into the table, at an hour.
fn note(b: &[u8], hour: u64, table: &mut [u32])
    requires { (hour < 8784) × (17568 ≤ length table.old) }
    ensures { Notes hour b.now table.old table.new }
{
    let Ok(s) = engine::record(b, 0) else {
        return;
    };
    let i = 2 * hour as usize;
    table[i] = s.heard;
    table[i + 1] = s.lost;
}

// The run to the end of an hour.
fn run_hour(b: &mut [u8], hour: u64, out: &mut [u8], table: &mut [u32]) -> Result<(), UntilError>
    requires { (hour < 8784) × (17568 ≤ length table.old) }
    ensures { RunsHour hour b.old out.old table.old result b.new out.new table.new }
{
    engine_until::run_until(b, 3600000 * (hour + 1), u64::MAX, out)?;
    note(b, hour, table);
    Ok(())
}

// The run to the end of each of so many hours.
fn run_hours(
    rt: &(impl Clock + Eprint),
    b: &mut [u8],
    hours: u64,
    out: &mut [u8],
    table: &mut [u32],
) -> Result<(), UntilError>
    requires { (hours ≤ 8784) × (17568 ≤ length table.old) }
    ensures { RunsHours hours b.old out.old result b.new out.new table.new }
{
    let mut watch = quote_progress::start();
    for hour in 0..hours {
        run_hour(b, hour, out, table)?;
        watch = quote_progress::tell(rt, watch, hour, hours);
    }
    Ok(())
}

// The plan's line is run by the scenario for its days, which are answered. An engine of 256 stations and 4096 events needs 1146880 bytes, and an output that has room for every
// commit 98304. Where the quote is done, `engine::record` tells of the buffer what each station has counted.
pub fn quote(
    rt: &(impl Clock + Eprint),
    plan: &[u8],
    text: &[u8],
    b: &mut [u8],
    out: &mut [u8],
    table: &mut [u32],
) -> Result<u64, QuoteError>
    ensures { Quotes plan.now text.now b.old out.old table.old result b.new out.new table.new }
{
    if table.len() < TABLE {
        return Err(QuoteError::Short);
    }
    let days = quote_setup::set_up(plan, text, b)?;
    run_hours(rt, b, 24 * days, out, table)?;
    Ok(days)
}
