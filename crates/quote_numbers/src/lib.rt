// The numbers of a quote: frames between two hours, a mean in tenths, round numbers for scales, and heights in a picture.

#![tactic(auto)]

ghost use Rattle.std.specs.Prelude.{◌≡◌, ◌+◌, ◌*◌, ◌<◌, ◌≤◌, get_or, Some};
ghost use Rattle.text_writing.specs.Promises.{Appends};
ghost use Rattle.quote_numbers.specs.Hours.{count_before, between as betweenHours};
ghost use Rattle.quote_numbers.specs.Tenths.{tenths_aday, tenths};
ghost use Rattle.quote_numbers.specs.Rounds.{round_at, round_up};
ghost use Rattle.quote_numbers.specs.Heights.{height_of};

use std::fmt;

// Which of an hour's two numbers: frames heard, or frames lost.
pub const HEARD: u8 = 0;

pub const LOST: u8 = 1;

fn number_at(hours: &[u32], i: usize) -> u32
    ensures { result ≡ get_or hours.now i 0 }
{
    hours.get(i).copied().unwrap_or(0)
}

// What the collector had heard, or lost, when an hour began.
#[tactic(auto, using(crate::proofs::Counting::none_before, crate::proofs::Counting::some_before))]
fn count_before(hours: &[u32], which: u8, hour: u32) -> u32
    ensures { result ≡ count_before hours.now which hour }
{
    if hour == 0 {
        return 0;
    }
    number_at(hours, 2 * (hour as usize - 1) + (which as usize))
}

// What it heard, or lost, from the start of an hour to the start of another.
pub fn between(hours: &[u32], which: u8, from: u32, to: u32) -> u32
    ensures { result ≡ betweenHours hours.now which from to }
{
    let before = count_before(hours, which, from);
    let after = count_before(hours, which, to);
    after.saturating_sub(before)
}

// What it heard, or lost, on a day.
pub fn on_day(hours: &[u32], which: u8, day: u16) -> u32
    ensures { result ≡ betweenHours hours.now which (24 * day) (24 * day + 24) }
{
    let from = 24 * u32::from(day);
    between(hours, which, from, from + 24)
}

// Frames a day in tenths, rounded down.
#[tactic(auto, using(crate::proofs::Counting::no_day, crate::proofs::Counting::some_days))]
pub fn tenths_a_day(frames: u32, days: u16) -> u64
    ensures { result ≡ tenths_aday frames days }
{
    if days == 0 {
        return 0;
    }
    10 * u64::from(frames) / u64::from(days)
}

// A number of tenths, with its point, into a text as far as it has room.
pub fn append_tenths(out: &mut [u8], at: usize, v: u64) -> usize
    ensures { Appends (tenths v) at out.old result out.new }
{
    let a = text_writing::append_number(out, at, v / 10);
    let c = text_writing::append_byte(out, a, 46);
    text_writing::append_number(out, c, v % 10)
}

// The same, to be printed.
#[derive(Clone, Copy)]
pub struct Tenths(pub u64);

impl fmt::Display for Tenths {
    ghost output = { λ t. Some (tenths t.0) };

    fn fmt<W: fmt::Write>(&self, f: &mut fmt::Formatter<W>) -> fmt::Result {
        let v = self.0;
        write!(f, "{}.{}", v / 10, v % 10)
    }
}

// The least of 1, 2 and 5 times a power of ten that is `least` or more; 5 times it where all are less.
fn round_at(power: u64, least: u64) -> u64
    requires { power < 1000000000001 }
    ensures rounds { result ≡ round_at power least }
    ensures within { (power ≤ result) × (result ≤ 5 * power) }
{
    if least <= power {
        return power;
    }
    if least <= 2 * power {
        return 2 * power;
    }
    5 * power
}

// The least of 1, 2, 5, 10, 20, 50, .. that is `least` or more; 5000000000000 where all up to it are less.
pub fn round_up(least: u64) -> u64
    ensures rounds { result ≡ round_up least }
    ensures within { (0 < result) × (result ≤ 5000000000000) }
{
    let mut power: u64 = 1;
    while power < 1000000000000 {
        if least <= 5 * power {
            return round_at(power, least);
        }
        power = 10 * power;
    }
    round_at(power, least)
}

// How high a number is drawn in a picture, where `top` is 280 high: 280 at most.
#[tactic(auto, using(crate::proofs::Heights::no_top, crate::proofs::Heights::too_many, crate::proofs::Heights::under_top))]
pub fn height(v: u64, top: u64) -> u64
    ensures { (result ≡ height_of v top) × (result ≤ 280) }
{
    if top == 0 {
        return 0;
    }
    if 1000000000000 < v {
        return 280;
    }
    let high = 280 * v / top;
    high.min(280)
}
