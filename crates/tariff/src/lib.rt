// The tariff of a star line: which plans are stars, and how many frames the collector hears by a commit time.

#![tactic(auto)]

ghost use Rattle.std.specs.Prelude.{◌≡◌, ◌≤◌, Ok};
ghost use Rattle.plan_format.specs.Line.{line_of};
ghost use Rattle.plan_format.specs.Reading.{judging};
ghost use Rattle.tariff.specs.Star.{star_at, star_below};
ghost use Rattle.tariff.specs.Tariff.{share as share_of, tariff, is_star_plan, tariff_of};

use line::Config;
use refusal::HORIZON;

// Is the station one of a star's?
#[tactic(auto, unfolding(crate::specs::Star::star_at))]
fn star_at(g: Config) -> bool
    ensures { result ≡ star_at g }
{
    g.parent == 0 && g.noise == 0 && g.calm == g.spring
}

// Are the first n stations?
fn stars(plan: &[u8], n: u16) -> bool
    ensures { result ≡ star_below n (line_of plan.now).config }
{
    (0..n).all(|s| star_at(plan_format::config_at(plan, s)))
}

// Is it a star's plan? A refused one is not.
pub fn is_star(plan: &[u8]) -> bool
    ensures { result ≡ is_star_plan plan.now }
{
    match plan_reading::judge(plan) {
        Ok(n) => stars(plan, n as u16),
        Err(_) => false,
    }
}

// The frames of a station that the collector hears before c.
fn share(g: Config, c: u64) -> u64
    requires { (1 ≤ g.calm) × (c ≤ 1099511627776) }
    ensures { (result ≡ share_of g c) × (result ≤ 1103806595072) }
{
    let hop = g.hop as u64;
    let period = g.calm as u64;
    if c <= hop {
        return 0;
    }
    (c - hop + period - 1) / period
}

// Those of all stations other than 0, of n.
fn sum(plan: &[u8], n: u16, c: u64) -> u64
    requires { (judging plan.now ≡ Ok n) × (c ≤ 1099511627776) }
    ensures { result ≡ tariff (line_of plan.now) c }
{
    let mut total = 0;
    for s in 1..n {
        total += share(plan_format::config_at(plan, s), c);
    }
    total
}

// How many frames the collector has heard by a commit at c: none is said where the plan is not a star's, or c is after H + 1.
pub fn at(plan: &[u8], c: u64) -> Option<u64>
    ensures { result ≡ tariff_of plan.now c }
{
    if HORIZON + 1 < c {
        return None;
    }
    if is_star(plan) {
        return Some(sum(plan, words::load::<u16>(plan, 0), c));
    }
    None
}
