// The bars of a quote's picture: a day each, what was heard and, on top of it, what was lost; and the days' numbers and the colours' legend.
//
// The first day begins at x = 90, bars stand on y = 344, and are 280 high at most.

#![tactic(auto)]

ghost use Rattle.std.specs.Prelude.{◌≤◌};

use quote_numbers::{HEARD, LOST};
use std::io;
use std::io::Write;

// The colours of what was heard, and of what was lost.
const HEARD_FILL: &str = "#3a7ca5";

const LOST_FILL: &str = "#e8871e";

// The pixels that a day has: whole ones, so that all bars look alike.
fn slot_of(days: u16) -> u64
    ensures { result ≤ 740 }
{
    if days == 0 {
        return 740;
    }
    740 / u64::from(days)
}

// How wide a bar is: a quarter of the slot and one pixel less than it, and 80 at most.
fn bar_of(slot: u64) -> u64 {
    if slot < 2 {
        return 1;
    }
    (slot - slot / 4 - 1).min(80)
}

// Where a bar begins in its slot.
fn margin_of(slot: u64, bar: u64) -> u64
    ensures { result ≤ slot }
{
    slot.saturating_sub(bar) / 2
}

// Which days are named: those that this divides. All of up to 31, and of more 24 at most.
fn named_of(days: u16) -> u64 {
    if days <= 31 {
        return 1;
    }
    quote_numbers::round_up(u64::from(days).div_ceil(24))
}

// What was lost, on a bar of this height: 2 high at least, so that it is seen.
fn put_lost_on(out: &mut impl Write, x: u64, wide: u64, low: u64, high: u64) -> io::Result<()>
    requires { (low ≤ 280) × (high ≤ 280) }
{
    let tall = high.saturating_sub(low).max(2);
    quote_shapes::put_rect(out, x, 344 - low - tall, wide, tall, LOST_FILL)
}

fn put_bar(
    out: &mut impl Write,
    x: u64,
    wide: u64,
    heard: u32,
    lost: u32,
    top: u64,
) -> io::Result<()> {
    let low = quote_numbers::height(u64::from(heard), top);
    quote_shapes::put_rect(out, x, 344 - low, wide, low, HEARD_FILL)?;
    if lost == 0 {
        return Ok(());
    }
    let high = quote_numbers::height(u64::from(heard) + u64::from(lost), top);
    put_lost_on(out, x, wide, low, high)
}

// A day's number below its bar, where it is named.
fn put_name(out: &mut impl Write, x: u64, day: u64, named: u64) -> io::Result<()> {
    if named == 0 || day % named != 0 {
        return Ok(());
    }
    quote_labels::put(out, x, 362, "middle", day)
}

// The days in turn, where a number of `top` frames is 280 high.
pub fn put(out: &mut impl Write, hours: &[u32], days: u16, top: u64) -> io::Result<()> {
    let slot = slot_of(days);
    let wide = bar_of(slot);
    let margin = margin_of(slot, wide);
    let named = named_of(days);
    for d in 0..days {
        let x = 90 + slot * u64::from(d);
        let heard = quote_numbers::on_day(hours, HEARD, d);
        let lost = quote_numbers::on_day(hours, LOST, d);
        put_bar(out, x + margin, wide, heard, lost, top)?;
        put_name(out, x + slot / 2, u64::from(d) + 1, named)?;
    }
    Ok(())
}

// What the colours say, with the frames of all days.
pub fn put_legend(out: &mut impl Write, heard: u32, lost: u32) -> io::Result<()> {
    quote_shapes::put_rect(out, 90, 37, 11, 11, HEARD_FILL)?;
    quote_labels::put(out, 107, 47, "start", format_args!("heard {heard}"))?;
    quote_shapes::put_rect(out, 240, 37, 11, 11, LOST_FILL)?;
    quote_labels::put(out, 257, 47, "start", format_args!("lost {lost}"))
}
