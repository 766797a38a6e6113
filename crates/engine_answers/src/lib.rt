// What the engine's calls answer where they are accepted; a refused call answers its refusal.

#![tactic(auto)]

ghost use Rattle.std.specs.Prelude.{◌≡◌};
ghost use Rattle.engine_answers.specs.declared.UntilError.TheVariants.{Refused};

use refusal::Refusal;

// A post's number, and how many events it has undone.
#[derive(Clone, Copy)]
pub struct PostAnswer {
    pub number: u64,
    pub undone: u64,
}

// The station whose event was run, and how many events that has undone.
#[derive(Clone, Copy)]
pub struct RunAnswer {
    pub station: u64,
    pub undone: u64,
}

// With the bitmap words that were read to find the station.
#[derive(Clone, Copy)]
pub struct LowestAnswer {
    pub station: u64,
    pub undone: u64,
    pub words: u64,
}

// A station of least unrun time, with that time.
#[derive(Clone, Copy)]
pub struct NextAnswer {
    pub station: u64,
    pub time: u64,
}

// Why a run to a time isn't done: a call was refused; or too few places are free at this time, with nothing left to commit; or the turns were too few.
#[derive(Clone, Copy)]
pub enum UntilError {
    Refused(Refusal),
    Busy { time: u64 },
    Unfinished,
}

impl From<Refusal> for UntilError {
    ghost from_gives = { λ e u. u ≡ Refused e };

    fn from(e: Refusal) -> UntilError {
        UntilError::Refused(e)
    }
}
