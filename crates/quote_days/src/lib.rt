// What a quote prints of the collector: its frames of each day, those of each hour of the day (crate quote_hours), and the figure.

#![tactic(auto)]

use quote_numbers::{HEARD, LOST, Tenths};
use std::io;

fn put_days(rt: &impl Print, hours: &[u32], days: u16) -> io::Result<()> {
    println!(rt; "\n    day      heard       lost")?;
    for day in 0..days {
        let heard = quote_numbers::on_day(hours, HEARD, day);
        let lost = quote_numbers::on_day(hours, LOST, day);
        println!(rt; "{:>7}{heard:>11}{lost:>11}", u32::from(day) + 1)?;
    }
    Ok(())
}

// The frames heard, of so many days, and of one of them.
fn put_figure(rt: &impl Print, heard: u32, days: u16) -> io::Result<()> {
    let noun = if days == 1 { "day" } else { "days" };
    let mean = Tenths(quote_numbers::tenths_a_day(heard, days));
    println!(rt; "\ncollector: {heard} frames in {days} {noun}: {mean} a day")
}

// Of each hour of the days in turn `hours` has two numbers: what the collector had heard and what it had lost when the hour ended, since the start.
pub fn put(rt: &impl Print, hours: &[u32], days: u16, heard: u32) -> io::Result<()> {
    put_days(rt, hours, days)?;
    quote_hours::put(rt, hours, days)?;
    put_figure(rt, heard, days)
}
