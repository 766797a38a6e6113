// What a quote prints: the table of stations, and what the collector heard.

#![tactic(auto)]

use std::io;

fn put_stations(rt: &impl Print, plan: &[u8], b: &[u8], stations: u16) -> io::Result<()> {
    quote_table::put_head(rt)?;
    for s in 0..stations {
        if let Ok(state) = engine::record(b, u64::from(s)) {
            quote_table::put_row(rt, plan, s, state)?;
        }
    }
    Ok(())
}

fn put_collector(rt: &impl Print, b: &[u8], days: u16, hours: &[u32]) -> io::Result<()> {
    match engine::record(b, 0) {
        Ok(state) => quote_days::put(rt, hours, days, state.heard),
        Err(_) => Ok(()),
    }
}

// The report of a plan whose engine, in buffer b, has run so many days. Of each hour in turn `hours` has two numbers: what the collector had heard and what it
// had lost when the hour ended, since the start.
pub fn report(rt: &impl Print, plan: &[u8], b: &[u8], days: u16, hours: &[u32]) -> io::Result<()> {
    let Ok(n) = plan_reading::judge(plan) else {
        return Ok(());
    };
    let Ok(stations) = u16::try_from(n) else {
        return Ok(());
    };
    put_stations(rt, plan, b, stations)?;
    put_collector(rt, b, days, hours)
}
