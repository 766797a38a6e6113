// The engine's header, stations and slots in its lent buffer, each record by itself. Nothing here knows what they mean to each other.
//
// Layout, little-endian. Header: eight words of 64 bits. From byte 64 on a row of 128 bytes for each station: its numbers of the plan in the first 28
// bytes, its state in the 32 from byte 32 on. Then a row of 64 bytes for each slot: the event in the 24 bytes that a commit writes, in the 32 from byte 24
// on the state from before it (its checkpoint), from byte 56 on four numbers of 16 bits: the slots of its sends, its status, and one that is free. What the
// bytes of a state are says crate engine_records. After the slots stand the links (crate engine_index), and after those the calendar's part (crate
// engine_events).
//
// So a station takes 208 of the 256 bytes that number 7 counts for it: 128 in its row, 16 of links, 64 in the calendar's part.

#![tactic(auto)]

ghost use Rattle.std.specs.Prelude.{◌≡◌, ◌+◌, ◌≤◌, ◌<◌};
ghost use Rattle.line.specs.Event.{before as isBefore};
ghost use Rattle.words.specs.Le.{load_at, store_at};
ghost use Rattle.entry.specs.Entry.{event_at, put_event};
ghost use Rattle.engine_records.specs.Records.{state_at, put_state, stored_config, put_config};
ghost use Rattle.engine_rows.specs.Layout.{station_row, slot_row, word_place, number_place};

use line::{Config, Event, State};

// ---- the header

// Its words.
pub const STATIONS: u16 = 0;

pub const CAPACITY: u16 = 1;

pub const COMMIT_TIME: u16 = 2;

pub const NEXT_POST: u16 = 3;

// Word i of the header; 0 where there is none.
pub fn header(b: &[u8], i: u16) -> u64
    ensures { (i < 8 → result ≡ load_at 8 (word_place i) b.now) × (8 ≤ i → result ≡ 0) }
{
    if 8 <= i {
        return 0;
    }
    words::load::<u64>(b, 8 * i as usize)
}

pub fn set_header(b: &mut [u8], i: u16, v: u64)
    ensures { (i < 8 → b.new ≡ store_at 8 (word_place i) v b.old) × (8 ≤ i → b.new ≡ b.old) }
{
    if 8 <= i {
        return;
    }
    words::store::<u64>(b, 8 * i as usize, v);
}

// ---- rows

fn station_row(n: u16, s: u16) -> u32
    ensures { (result ≡ station_row n s) × (result < 16777216) }
{
    64 + 128 * s as u32
}

fn slot_row(n: u16, i: u16) -> u32
    ensures { (result ≡ slot_row n i) × (result < 33554432) }
{
    64 + 128 * n as u32 + 64 * i as u32
}

// ---- stations

// A station's numbers of the plan.
pub fn config(b: &[u8], n: u16, s: u16) -> Config
    ensures { result ≡ stored_config (station_row n s) b.now }
{
    engine_records::read_config(b, station_row(n, s))
}

pub fn set_config(b: &mut [u8], n: u16, s: u16, c: Config)
    ensures { b.new ≡ put_config (station_row n s) c b.old }
{
    engine_records::write_config(b, station_row(n, s), c);
}

// A station's state.
pub fn state(b: &[u8], n: u16, s: u16) -> State
    ensures { result ≡ state_at (station_row n s + 32) b.now }
{
    engine_records::read_state(b, station_row(n, s) + 32)
}

pub fn set_state(b: &mut [u8], n: u16, s: u16, v: State)
    ensures { b.new ≡ put_state (station_row n s + 32) v b.old }
{
    engine_records::write_state(b, station_row(n, s) + 32, v);
}

// ---- slots

// The event in a slot.
pub fn event(b: &[u8], n: u16, i: u16) -> Event
    ensures { result ≡ event_at (slot_row n i) b.now }
{
    entry::read(b, slot_row(n, i))
}

pub fn set_event(b: &mut [u8], n: u16, i: u16, e: Event)
    ensures { b.new ≡ put_event (slot_row n i) e b.old }
{
    entry::write(b, slot_row(n, i), e);
}

// Does the event in a slot come before e? Mostly its time tells.
pub fn before(b: &[u8], n: u16, i: u16, e: Event) -> bool
    ensures { result ≡ isBefore (event_at (slot_row n i) b.now) e }
{
    let t = time(b, n, i);
    if t != e.time {
        return t < e.time;
    }
    line::before(event(b, n, i), e)
}

// The event's time alone.
pub fn time(b: &[u8], n: u16, i: u16) -> u64
    ensures { result ≡ load_at 8 (slot_row n i) b.now }
{
    words::load::<u64>(b, slot_row(n, i) as usize)
}

// The state from before the event.
pub fn saved(b: &[u8], n: u16, i: u16) -> State
    ensures { result ≡ state_at (slot_row n i + 24) b.now }
{
    engine_records::read_state(b, slot_row(n, i) + 24)
}

pub fn set_saved(b: &mut [u8], n: u16, i: u16, v: State)
    ensures { b.new ≡ put_state (slot_row n i + 24) v b.old }
{
    engine_records::write_state(b, slot_row(n, i) + 24, v);
}

// The numbers of a slot: the nodes of its event's two sends, and its status; one more, 3, is free.
pub const FIRST_SEND: u16 = 0;

pub const SECOND_SEND: u16 = 1;

pub const STATUS: u16 = 2;

// The statuses.
pub const FREE: u16 = 0;

pub const UNRUN: u16 = 1;

pub const RUN: u16 = 2;

// Number k of a slot; 0 where there is none.
pub fn number(b: &[u8], n: u16, i: u16, k: u16) -> u16
    ensures { (k < 4 → result ≡ load_at 2 (number_place n i k) b.now) × (4 ≤ k → result ≡ 0) }
{
    if 4 <= k {
        return 0;
    }
    words::load::<u16>(b, slot_row(n, i) as usize + 56 + 2 * k as usize)
}

pub fn set_number(b: &mut [u8], n: u16, i: u16, k: u16, v: u16)
    ensures { (k < 4 → b.new ≡ store_at 2 (number_place n i k) v b.old) × (4 ≤ k → b.new ≡ b.old) }
{
    if 4 <= k {
        return;
    }
    words::store::<u16>(b, slot_row(n, i) as usize + 56 + 2 * k as usize, v);
}
