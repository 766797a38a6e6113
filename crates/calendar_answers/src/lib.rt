// What the calendar's calls answer that name a station.

#![tactic(auto)]

// What lowest and extract answer: words is how many bitmap words they read.
#[derive(Clone, Copy, PartialEq, Eq)]
pub struct Least {
    pub station: u64,
    pub time: u64,
    pub words: u64,
}
