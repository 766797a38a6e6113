// The plan's reader: the bytes are judged, and then their records are read into a lent list.

#![tactic(auto)]

ghost use Rattle.std.specs.Prelude.{◌≡◌, ℕ, true, false, ◌++◌, ◌+◌, ◌<◌, ◌≤◌, length, take, drop, MatchOption};
ghost use Rattle.plan_format.specs.Lowest.{lowest};
ghost use Rattle.plan_format.specs.Plan.{padded, station_at, stations_from, pair_wrong, field_wrong, name_wrong};
ghost use Rattle.plan_reading.specs.Promises.{Judges, JudgesIn, ReadsPlan};
ghost use Rattle.plan_reading.specs.Search.{NoneBelow};

use plan_format::Station;
use refusal::Refusal;
use words::load;

// The bytes of a name, with zeros after them.
fn name_at(plan: &[u8], at: usize, len: usize) -> [u8; 16]
    requires { (at + len ≤ length plan.now) × (len ≤ 16) }
    ensures { result ≡ padded (take len (drop at plan.now)) }
{
    let mut name = [0u8; 16];
    name[..len].copy_from_slice(&plan[at..at + len]);
    name
}

// A station whose pair is right.
fn station_at(plan: &[u8], k: usize) -> Station
    requires { (k < 256) × (pair_wrong plan.now k ≡ false) }
    ensures { result ≡ station_at plan.now k }
{
    let station = k as u16;
    let at = plan_format::offset_of(plan, station);
    let len = plan_format::length_of(plan, station) - 26;
    let config = plan_format::config_at(plan, station);
    let name = name_at(plan, at + 26, len);
    Station { config, name, len }
}

// A number of the station is out of range.
#[tactic(auto, unfolding(plan_format::specs::Plan::field_wrong, plan_format::specs::Plan::station_at))]
fn field_wrong(plan: &[u8], k: u16) -> bool
    ensures { result ≡ field_wrong plan.now k }
{
    plan_format::number_out(k, plan_format::config_at(plan, k))
}

#[tactic(auto, unfolding(plan_format::specs::Plan::name_wrong))]
// Its name is.
fn name_wrong(plan: &[u8], k: u16) -> bool
    requires { (k < 256) × (pair_wrong plan.now k ≡ false) }
    ensures { result ≡ name_wrong plan.now k }
{
    plan_format::name_out(station_at(plan, k as usize))
}

// The lowest station below n that is wrong.
fn lowest_wrong<F: Fn(u16) -> bool>(n: u16, wrong: F) -> Option<u16>
    requires { (k : ℕ) → k < n → F.pre wrong k }
    ensures { MatchOption result (NoneBelow (F.post wrong) n) (λ k. (k < n) × NoneBelow (F.post wrong) k × F.post wrong k true) }
{
    for k in 0..n {
        if wrong(k) {
            return Some(k);
        }
    }
    None
}

// What is wrong with a plan, in checking order; or its number of stations.
pub fn judge(plan: &[u8]) -> Result<usize, Refusal>
    ensures { Judges plan.now result }
{
    if plan_format::shape_wrong(plan) {
        return Err(Refusal::Shape);
    }
    let n = load::<u16>(plan, 0);
    if let Some(pair) = lowest_wrong(n, |k| plan_format::pair_wrong(plan, k)) {
        return Err(Refusal::Pair(pair));
    }
    if plan_format::begin_of(plan, n) < plan.len() {
        return Err(Refusal::Trailing);
    }
    if let Some(field) = lowest_wrong(n, |k| field_wrong(plan, k)) {
        return Err(Refusal::Field(field));
    }
    if let Some(name) = lowest_wrong(n, |k| name_wrong(plan, k)) {
        return Err(Refusal::Name(name));
    }
    Ok(n as usize)
}

// ---- the lent list

// What reading a plan into a list of so many records answers.
pub fn judge_in(plan: &[u8], room: usize) -> Result<usize, Refusal>
    ensures { JudgesIn plan.now room result }
{
    let n = judge(plan)?;
    if room < n {
        return Err(Refusal::Output);
    }
    Ok(n)
}

// The first n records are set to the plan's first n stations.
fn fill(plan: &[u8], stations: &mut [Station], n: usize)
    requires { (n ≤ length stations.old) × ((n ≤ 256) × (lowest (pair_wrong plan.now) n ≡ n)) }
    ensures { stations.new ≡ stations_from plan.now 0 n ++ drop n stations.old }
{
    for k in 0..n {
        stations[k] = station_at(plan, k);
    }
}

// Reads a plan into the lent records. A refusal leaves them as they were.
pub fn read(plan: &[u8], stations: &mut [Station]) -> Result<usize, Refusal>
    ensures { ReadsPlan plan.now stations.old result stations.new }
{
    let n = judge_in(plan, stations.len())?;
    fill(plan, stations, n);
    Ok(n)
}
