// The held events with their index (crate engine_index), the stations' states (crate engine_rows) and the calendar: what they hold together, and what is
// read of them. engine_moves changes them.
//
// The calendar stands after the index, to the end of the buffer. Each function takes any bytes and any numbers; n stations and c slots are the header's.

#![tactic(auto)]

ghost use Rattle.std.specs.Prelude.{◌≡◌, ◌+◌, length};
ghost use Rattle.words.specs.Le.{load_at};
ghost use Rattle.engine_rows.specs.Layout.{slot_row};
ghost use Rattle.entry.specs.Entry.{event_at};
ghost use Rattle.engine_records.specs.Records.{state_at};
ghost use Rattle.engine_index.specs.Layout.{slot_of};
ghost use Rattle.engine_events.specs.Represents.{fits_in, calendar_at};
ghost use Rattle.engine_events.specs.Promises.{Finds};

use calendar_answers::Least;
use line::{Event, State};
use refusal::Refusal;

// ---- the buffer

// Are the numbers in range, and is the buffer long enough for what stands before the calendar?
pub fn fits(b: &[u8], n: u16, c: u16) -> bool
    ensures { result ≡ fits_in n c (length b.now) }
{
    if 256 < n {
        return false;
    }
    if 4096 < c {
        return false;
    }
    calendar_start(n, c) as usize <= b.len()
}

// ---- what stands in the slot of a node

pub fn event(b: &[u8], n: u16, x: u16) -> Event
    ensures { result ≡ event_at (slot_row n (slot_of n x)) b.now }
{
    engine_rows::event(b, n, engine_index::slot(n, x))
}

// The state from before it.
pub fn saved(b: &[u8], n: u16, x: u16) -> State
    ensures { result ≡ state_at (slot_row n (slot_of n x) + 24) b.now }
{
    engine_rows::saved(b, n, engine_index::slot(n, x))
}

// The nodes of its sends; 0 is none.
pub fn first_send(b: &[u8], n: u16, x: u16) -> u16
    ensures { result ≡ load_at 2 (slot_row n (slot_of n x) + 56) b.now }
{
    engine_rows::number(b, n, engine_index::slot(n, x), engine_rows::FIRST_SEND)
}

pub fn second_send(b: &[u8], n: u16, x: u16) -> u16
    ensures { result ≡ load_at 2 (slot_row n (slot_of n x) + 58) b.now }
{
    engine_rows::number(b, n, engine_index::slot(n, x), engine_rows::SECOND_SEND)
}

// ---- the calendar

// Where the calendar's part starts.
pub fn calendar_start(n: u16, c: u16) -> u32
    ensures { result ≡ calendar_at n c }
{
    72 + 144 * n as u32 + 72 * c as u32
}

// The lowest-numbered station of the least time among the first unrun events, with that time; 14 where there is none.
pub fn lowest(b: &[u8], n: u16, c: u16) -> Result<Least, Refusal>
    ensures { Finds n c b.now result }
{
    if fits(b, n, c) {
        let start = calendar_start(n, c) as usize;
        return calendar::lowest(&b[start..]);
    }
    Err(Refusal::Idle)
}
