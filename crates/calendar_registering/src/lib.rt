// Stations enter the calendar, move in it and leave it.

#![tactic(auto)]

ghost use Rattle.std.specs.Prelude.{◌≡◌, suc, ◌≤◌, ◌<◌, MatchResult};
ghost use Rattle.refusal.specs.declared.Refusal.TheVariants.{Station};
ghost use Rattle.calendar_cells.specs.Table.{arity_of};
ghost use Rattle.calendar_header.specs.Rules.{register_checks, registered_at, unregister_checks, unregistered};
ghost use Rattle.calendar_header.specs.Bytes.{floor_of, count_of, Sound};
ghost use Rattle.calendar_header.specs.Promises.{Obeys, Extracts};
ghost use Rattle.calendar_registering.specs.Steps.{Entered};

use calendar_answers::Least;
use calendar_cells::word;
use calendar_header::{FLOOR, leaf, stations};
use calendar_naming::lowest;
use refusal::{HORIZON, Refusal};

// Station s is put into the bucket of its time, unless it has that time already.
fn enter(b: &mut [u8], s: u32, time: u64)
    requires { (s < 256) × (time ≤ 1099511627775) }
    ensures { Sound b.old → s < count_of b.old → floor_of b.old ≤ time
        → Entered (arity_of b.old) s (suc time) b.old b.new }
{
    if calendar_buckets::due(b, s) == time + 1 {
        return;
    }
    let l = leaf(b, time);
    calendar_buckets::put(b, s, time + 1, l);
}

// The number of a station that the calendar has.
fn station_in(b: &[u8], station: u64) -> Result<u32, Refusal>
    ensures { MatchResult result (λ s. (s ≡ station) × (s < 256) × (Sound b.now → s < count_of b.now))
        (λ e. (e ≡ Station) × (Sound b.now → count_of b.now ≤ station)) }
{
    if stations(b) <= station {
        return Err(Refusal::Station);
    }
    Ok(station as u32)
}

// A station is registered at a time, or moved to it.
pub fn register(b: &mut [u8], station: u64, time: u64) -> Result<(), Refusal>
    ensures { Obeys (λ q. register_checks q station time) (λ q. registered_at q station time) b.old result b.new }
{
    let s = station_in(b, station)?;
    if HORIZON < time {
        return Err(Refusal::Late);
    }
    if time < word(b, FLOOR) {
        return Err(Refusal::Early);
    }
    enter(b, s, time);
    Ok(())
}

// A station is no longer registered; an absent one stays so.
pub fn unregister(b: &mut [u8], station: u64) -> Result<(), Refusal>
    ensures { Obeys (λ q. unregister_checks q station) (λ q. unregistered q station) b.old result b.new }
{
    let s = station_in(b, station)?;
    calendar_buckets::take(b, s);
    Ok(())
}

// The station of the least registered time is no longer registered; the answer is that of lowest.
pub fn extract(b: &mut [u8]) -> Result<Least, Refusal>
    ensures { Extracts b.old result b.new }
{
    let at = lowest(b)?;
    calendar_buckets::take(b, at.station as u32);
    Ok(at)
}
