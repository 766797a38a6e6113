// The cells of the calendar's table in a lent buffer, and what the table's bytes stand for: each station is absent or has a due number, and stands in
// one bucket.
//
// Of arity a, buckets 0 to 16 a² - 1 are the leaves of the ring, 16 blocks of a². Each is a linked list of stations in the order of (due, station).
// From there on is the overflow table: bucket 16 a² + s has station s or nothing, so that a station enters and leaves it in constant time. Buckets
// stand under bitmap words of a children: a node over a buckets, a root over a nodes. A bit is set exactly when something is below it.
//
// Layout, little-endian. The first 56 bytes are the caller's. Words of 64 bits: row of the shape at 7, due of station s and 2 ^ 41 times its bucket at
// 8 + s, 0 where it is absent; root r at 264 + r, node j at 541 + 4 a² + j. From 2272 on numbers of 32 bits: prev of station s at s + 1. From 3304 on
// numbers of 16 bits: next of place p at p. Place s below 256 is station s and place 256 + l the head of bucket l. A next is a station + 1, or 0 at
// the end.
//
// A cell's number is one of 32 bits, so that no sum can wrap. A cell that does not lie whole in the buffer is read as 0, and is not stored.

#![tactic(auto)]

ghost use Rattle.std.specs.Prelude.{◌≡◌, ◌+◌, ◌*◌, ◌≤◌};
ghost use Rattle.calendar_shapes.specs.Rule.{arity_in};
ghost use Rattle.calendar_cells.specs.Cells.{word_at, back_at, link_at, put_word, put_back, put_link};
ghost use Rattle.calendar_cells.specs.Table.{bytes_for};

// A station's word has a due number below this, and its bucket times this.
pub const DUES: u64 = 2199023255552;

// Word i.
pub fn word(b: &[u8], i: u32) -> u64
    ensures { result ≡ word_at i b.now }
{
    words::load::<u64>(b, 8 * i as usize)
}

pub fn set_word(b: &mut [u8], i: u32, v: u64)
    ensures { b.new ≡ put_word i v b.old }
{
    words::store::<u64>(b, 8 * i as usize, v);
}

// The place before the station of number k - 1.
pub fn back(b: &[u8], k: u32) -> u32
    ensures { result ≡ back_at k b.now }
{
    words::load::<u32>(b, 2272 + 4 * k as usize)
}

pub fn set_back(b: &mut [u8], k: u32, v: u32)
    ensures { b.new ≡ put_back k v b.old }
{
    words::store::<u32>(b, 2272 + 4 * k as usize, v);
}

// Where place p leads to.
pub fn link(b: &[u8], p: u32) -> u16
    ensures { result ≡ link_at p b.now }
{
    words::load::<u16>(b, 3304 + 2 * p as usize)
}

pub fn set_link(b: &mut [u8], p: u32, v: u16)
    ensures { b.new ≡ put_link p v b.old }
{
    words::store::<u16>(b, 3304 + 2 * p as usize, v);
}

// The word of node 0.
pub fn nodes_at(row: u64) -> u32
    ensures { (result ≡ 541 + 4 * (arity_in row * arity_in row)) × (result ≤ 16925) }
{
    541 + 4 * calendar_shapes::leaves(row)
}

// The bytes of a table of a row's shape, and of those before it.
pub fn table_bytes(row: u64) -> usize
    ensures { (result ≡ bytes_for (arity_in row)) × (result ≤ 143848) }
{
    4584 + 128 * calendar_shapes::arity(row) as usize + 32 * calendar_shapes::leaves(row) as usize
}
