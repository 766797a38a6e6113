// The plan of a line: what its bytes are, the records that they stand for, and what is out of range in either.

#![tactic(auto)]

ghost use Rattle.std.specs.Prelude.{◌≡◌, ◌<◌};
ghost use Rattle.line.specs.Station.{parent_out, number_out};
ghost use Rattle.plan_format.specs.Plan.{offset_of, length_of, begins, config_at, shape_wrong, pair_wrong, any_out, name_out};

use line::Config;
use words::load;

// One station of a plan: its numbers, and its name in the first len bytes of `name`.
// Kept: a buffer with its length, since C lends lists of these records.
#[repr(C)]
#[derive(Clone, Copy)]
pub struct Station {
    pub config: Config,
    pub name: [u8; 16],
    pub len: usize,
}

// ---- a record's bytes

// The pair of a station: where its record begins, and how many bytes it has.
pub fn offset_of(plan: &[u8], station: u16) -> usize
    ensures { (result ≡ offset_of plan.now station) × (result < 4294967296) }
{
    load::<u32>(plan, 2 + 8 * (station as usize)) as usize
}

pub fn length_of(plan: &[u8], station: u16) -> usize
    ensures { (result ≡ length_of plan.now station) × (result < 4294967296) }
{
    load::<u32>(plan, 6 + 8 * (station as usize)) as usize
}

// The numbers of a station.
#[tactic(auto, unfolding(crate::specs::Plan::config_at))]
pub fn config_at(plan: &[u8], station: u16) -> Config
    ensures { result ≡ config_at plan.now (offset_of plan.now station) }
{
    let at = offset_of(plan, station);
    Config {
        parent: load::<u16>(plan, at),
        calm: load::<u32>(plan, at + 2),
        spring: load::<u32>(plan, at + 6),
        threshold: load::<u32>(plan, at + 10),
        hop: load::<u32>(plan, at + 14),
        noise: load::<u32>(plan, at + 18),
        seed: load::<u32>(plan, at + 22),
    }
}

// ---- what is wrong with a plan

// The plan is too short for its pairs, or has no station or more than 256.
pub fn shape_wrong(plan: &[u8]) -> bool
    ensures { result ≡ shape_wrong plan.now }
{
    let stations = load::<u16>(plan, 0);
    plan.len() < 2 || stations < 1 || 256 < stations || plan.len() < 2 + 8 * (stations as usize)
}

// Where the record of a station has to begin: after the pairs, or after the record before it.
#[tactic(auto, unfolding(crate::specs::Plan::begins))]
pub fn begin_of(plan: &[u8], station: u16) -> usize
    ensures { result ≡ begins plan.now station }
{
    if station == 0 {
        return 2 + 8 * (load::<u16>(plan, 0) as usize);
    }
    offset_of(plan, station - 1) + length_of(plan, station - 1)
}

// A wrong offset, a length outside 26 to 42, or an end past the plan.
#[tactic(auto, unfolding(crate::specs::Plan::pair_wrong))]
pub fn pair_wrong(plan: &[u8], station: u16) -> bool
    ensures { result ≡ pair_wrong plan.now station }
{
    let at = offset_of(plan, station);
    let len = length_of(plan, station);
    at != begin_of(plan, station) || len < 26 || 42 < len || plan.len() < at + len
}

// A parent is below its station, and that of station 0 is 0.
#[tactic(auto, unfolding(line::specs::Station::parent_out))]
fn parent_out(station: u16, parent: u16) -> bool
    ensures { result ≡ parent_out station parent }
{
    if station == 0 {
        parent != 0
    } else {
        station <= parent
    }
}

// A number of the station is out of range.
#[tactic(auto, unfolding(line::specs::Station::number_out))]
pub fn number_out(station: u16, c: Config) -> bool
    ensures { result ≡ number_out station c }
{
    parent_out(station, c.parent)
        || c.calm < 1
        || c.spring < 1
        || c.hop < 1
        || 2147483646 < c.noise
        || c.seed < 1
        || 2147483646 < c.seed
}

// A byte is out of a name's range.
fn any_out(name: &[u8]) -> bool
    ensures { result ≡ any_out name.now }
{
    name.iter().any(|b| *b < 0x21 || 0x7e < *b)
}

// A station's name is too long, or has such a byte.
#[tactic(auto, unfolding(crate::specs::Plan::name_out))]
pub fn name_out(s: Station) -> bool
    ensures { result ≡ name_out s }
{
    let name = s.name;
    16 < s.len || any_out(&name[..s.len])
}
