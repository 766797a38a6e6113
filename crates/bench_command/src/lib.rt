// The commands of the bench, and what their answers print.

#![tactic(auto)]

#[derive(Clone, Copy)]
pub enum Command {
    Post {
        station: u64,
        time: u64,
        kind: u64,
        value: u64,
    },
    Retract {
        number: u64,
    },
    Run,
    RunStation {
        station: u64,
    },
    Commit {
        time: u64,
    },
}

// What an answer prints: its values.
#[derive(Clone, Copy)]
pub enum Output {
    Post { number: u64, undone: u64 },
    Retract { undone: u64 },
    Run { station: u64, undone: u64 },
    Commit { count: u64 },
}
