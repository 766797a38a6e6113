// How far a quote's run is: a line on standard error each second, from the second one on.

#![tactic(auto)]

use std::rt::Clock;

// The second that the clock showed last, and how often it has changed, up to 2.
#[derive(Clone, Copy)]
pub struct Watch {
    pub second: i64,
    pub changes: u8,
}

pub fn start() -> Watch {
    Watch {
        second: 0,
        changes: 0,
    }
}

// The second that the clock shows, counted from 1970; 0 where it shows none.
fn second(rt: &impl Clock) -> i64 {
    let Ok(since) = rt.since_1970() else {
        return 0;
    };
    i64::try_from(since.as_secs()).unwrap_or(0)
}

// The clock is looked at. Its first change is that from 0, the next may come at once, and from the third on a second has gone by: then the day of an hour,
// counted from 0, is told at each change; what can't be told is left out. What reaches a file is in no contract of the kit's, and no promise rests on a
// watch: so nothing is stated here.
pub fn tell(rt: &(impl Clock + Eprint), w: Watch, hour: u64, hours: u64) -> Watch {
    let now = second(rt);
    if now == w.second {
        return w;
    }
    let mut next = Watch {
        second: now,
        changes: w.changes,
    };
    if next.changes < 2 {
        next.changes = next.changes + 1;
        return next;
    }
    let _ = quote_words::progress(rt, hour / 24 + 1, hours / 24);
    next
}
