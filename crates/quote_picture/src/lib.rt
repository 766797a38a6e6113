// The picture of a quote, in SVG: a bar a day (crate quote_bars), light lines at round numbers, and the mean.
//
// Bars stand on y = 344, from x = 90 to `right`, and are 280 high at most.

#![tactic(auto)]

ghost use Rattle.std.specs.Prelude.{◌≤◌};

use quote_numbers::{HEARD, LOST, Tenths};
use std::io;
use std::io::Write;

// Where the last day ends: 740, less what is left when the days share it, from x = 90 on.
fn right_of(days: u16) -> u64
    ensures { result ≤ 830 }
{
    if days == 0 {
        return 830;
    }
    830 - 740 % u64::from(days)
}

// The frames that came to the collector on a day, heard or lost.
fn arrived(hours: &[u32], day: u16) -> u64 {
    let heard = quote_numbers::on_day(hours, HEARD, day);
    let lost = quote_numbers::on_day(hours, LOST, day);
    u64::from(heard) + u64::from(lost)
}

fn most_arrived(hours: &[u32], days: u16) -> u64 {
    (0..days).map(|d| arrived(hours, d)).max().unwrap_or(0)
}

// The highest light line: the first that reaches the most, and the eighth at most.
fn top_of(most: u64, step: u64) -> u64
    requires { step ≤ 5000000000000 }
{
    (1..8)
        .map(|k| k * step)
        .find(|top| most <= *top)
        .unwrap_or(8 * step)
}

// A light line with its number.
fn put_line(out: &mut impl Write, right: u64, value: u64, top: u64) -> io::Result<()> {
    let y = 344 - quote_numbers::height(value, top);
    quote_shapes::put_rule(out, 90, right, y, "#ddd")?;
    quote_labels::put(out, 82, y + 4, "end", value)
}

fn put_lines(out: &mut impl Write, right: u64, step: u64, top: u64) -> io::Result<()>
    requires { step ≤ 5000000000000 }
{
    for k in 0..9 {
        let value = k * step;
        if top < value {
            break;
        }
        put_line(out, right, value, top)?;
    }
    Ok(())
}

// The mean of the frames heard a day, as a dashed rule over the bars.
fn put_mean(out: &mut impl Write, right: u64, tenths: u64, top: u64) -> io::Result<()>
    requires { right ≤ 830 }
{
    let y = 344 - quote_numbers::height(tenths / 10, top);
    let stroke = "#000\" stroke-width=\"2\" stroke-dasharray=\"6 4";
    quote_shapes::put_rule(out, 90, right, y + 1, stroke)?;
    quote_labels::put(out, right + 8, y, "start", "mean")?;
    quote_labels::put(out, right + 8, y + 14, "start", Tenths(tenths))
}

// The picture's ground, what it is of, and what its colours say.
fn put_frame(out: &mut impl Write, plan: &[u8], right: u64, tenths: u64) -> io::Result<()>
    requires { right ≤ 830 }
{
    quote_shapes::put_start(out, right + 104)?;
    quote_shapes::put_rect(out, 0, 0, right + 104, 400, "#fff")?;
    quote_title::put(out, plan, tenths)
}

fn put_axis(out: &mut impl Write, right: u64) -> io::Result<()>
    requires { right ≤ 830 }
{
    quote_shapes::put_rule(out, 90, right, 344, "#333")?;
    quote_labels::put(out, (90 + right) / 2, 384, "middle", "day")
}

// The picture of a plan's quote of so many days. `hours` is as for crate quote_report.
pub fn write(out: &mut impl Write, plan: &[u8], days: u16, hours: &[u32]) -> io::Result<()> {
    let right = right_of(days);
    let heard = quote_numbers::between(hours, HEARD, 0, 24 * u32::from(days));
    let lost = quote_numbers::between(hours, LOST, 0, 24 * u32::from(days));
    let tenths = quote_numbers::tenths_a_day(heard, days);
    let most = most_arrived(hours, days);
    // from one light line to the next: so that the eighth, at most, reaches the most
    let step = quote_numbers::round_up(most.div_ceil(8));
    let top = top_of(most, step);
    put_frame(out, plan, right, tenths)?;
    quote_bars::put_legend(out, heard, lost)?;
    put_lines(out, right, step, top)?;
    quote_bars::put(out, hours, days, top)?;
    put_axis(out, right)?;
    put_mean(out, right, tenths, top)?;
    writeln!(out, "</svg>")
}
