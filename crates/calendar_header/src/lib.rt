// The calendar's header, in the words that the table of crate calendar_cells leaves to it.
//
// A due number is a time + 1. The first 64 bytes of the buffer are words of 64 bits: leaf width, floor, start and end of the floor's block, end of the
// ring, slot of the floor's block, number of stations, row of the shape. The ring's numbers follow from arity, width and floor and are kept so that
// register needs only one division.

#![tactic(auto)]

ghost use Rattle.std.specs.Prelude.{◌≡◌, ℕ, ◌*◌, ◌≤◌, ◌<◌};
ghost use Rattle.calendar_cells.specs.Table.{arity_of};
ghost use Rattle.calendar_ring.specs.Ring.{leaf_for};
ghost use Rattle.calendar_header.specs.Bytes.{width_of, floor_of, limit_of, count_of, Header, Sound};

use calendar_cells::word;

pub const WIDTH: u32 = 0;

pub const FLOOR: u32 = 1;

pub const START: u32 = 2;

pub const END: u32 = 3;

pub const LIMIT: u32 = 4;

pub const SLOT: u32 = 5;

pub const COUNT: u32 = 6;

pub const ROW: u32 = 7;

// The number of stations; 0 where the buffer is too short for a calendar.
pub fn stations(b: &[u8]) -> u64
    ensures { (Sound b.now → result ≡ count_of b.now) × (result ≤ 256) }
{
    if b.len() < 8192 {
        return 0;
    }
    let n = word(b, COUNT);
    if 256 < n {
        return 0;
    }
    n
}

// The leaves of a block.
pub fn block_leaves(b: &[u8]) -> u32
    ensures { (result ≡ arity_of b.now * arity_of b.now) × (0 < result) × (result ≤ 4096) }
{
    calendar_shapes::leaves(word(b, ROW))
}

// The leaf of a time that is not before the floor; the number of all leaves where it lies after the ring.
pub fn leaf(b: &[u8], time: u64) -> u32
    ensures within { result ≤ 16 * (arity_of b.now * arity_of b.now) }
    ensures leaf { (a : ℕ) → a ≡ arity_of b.now → Header a b.now → floor_of b.now ≤ time
        → result ≡ leaf_for a (width_of b.now) (limit_of b.now) time }
{
    let n = block_leaves(b);
    let end = 16 * n;
    if word(b, LIMIT) <= time {
        return end;
    }
    let start = word(b, START);
    if time < start {
        return end;
    }
    let width = word(b, WIDTH);
    if width == 0 {
        return end;
    }
    let k = (time - start) / width;
    ((word(b, SLOT) % 16) as u32 * n + (k % 65536) as u32) % end
}
