// The calendar's table in a lent buffer: a station is put under a due number and a leaf, and taken out, in constant time.

#![tactic(auto)]

ghost use Rattle.std.specs.Prelude.{◌≡◌, None, IfSome, ◌⊎◌, ℕ, suc, ◌+◌, ◌*◌, ◌%◌, ◌≤◌, ◌<◌, length};
ghost use Rattle.refusal.specs.Tests.{horizon};
ghost use Rattle.calendar_shapes.specs.Rule.{arity_in};
ghost use Rattle.calendar_cells.specs.Table.{due_of, bytes_for, Table};
ghost use Rattle.calendar_buckets.specs.Promises.{bucket_for, Kept, Placed, Gone, First, Cleared};

use calendar_bits::{lower, raise};
use calendar_cells::{DUES, back, link, set_word, word};
use calendar_lists::{find, head, join};
use calendar_search::first_leaf;
pub use calendar_search::{Searched, later};
use calendar_shapes::leaves;

// The largest due number: H + 1.
const LAST: u64 = refusal::HORIZON + 1;

// The bytes of the smallest table and of those before it. A call on a shorter buffer does nothing; with that known, the compiler leaves out the test of
// each load and store at a place that does not depend on the shape.
const BYTES: usize = 7656;

// A registered station is taken out of its bucket.
fn unlink(b: &mut [u8], row: u64, s: u32)
    requires { s < 256 }
    ensures kept { Kept b.old b.new }
    ensures gone { Table (arity_in row) b.old → (due_of b.old s ≡ 0 → ⊥)
        → Gone (arity_in row) s b.old b.new }
{
    let p = back(b, s + 1);
    let n = link(b, s);
    let list = (word(b, 8 + s) / DUES) as u32;
    set_word(b, 8 + s, 0);
    join(b, p, n);
    lower(b, row, list);
}

// An absent station is put into a bucket.
fn insert(b: &mut [u8], row: u64, s: u32, due: u64, list: u32)
    requires { (s < 256) × (0 < due) × (due ≤ suc horizon) × (list < 16 * (arity_in row * arity_in row) + 256)
        × (16 * (arity_in row * arity_in row) ≤ list → list ≡ 16 * (arity_in row * arity_in row) + s) × (list < 65792) }
    ensures kept { Kept b.old b.new }
    ensures placed { Table (arity_in row) b.old → due_of b.old s ≡ 0
        → Placed (arity_in row) s due list b.old b.new }
{
    let p = find(b, list, due * 256 + s as u64);
    let n = link(b, p);
    set_word(b, 8 + s, list as u64 * DUES + due);
    join(b, s, n);
    join(b, p, (s + 1) as u16);
    raise(b, row, list);
}

// The bucket of station s for a leaf; after the last leaf, its own in the overflow table.
fn bucket(row: u64, leaf: u32, s: u32) -> u32
    requires { s < 256 }
    ensures { (result ≡ bucket_for (arity_in row) leaf s) × (result < 16 * (arity_in row * arity_in row) + 256)
        × (16 * (arity_in row * arity_in row) ≤ result → result ≡ 16 * (arity_in row * arity_in row) + s) × (result < 65792) }
{
    let end = 16 * leaves(row);
    if leaf < end {
        return leaf;
    }
    end + s
}

// ---- the table

// The due number of a station; 0 where it is absent or there is no such station.
pub fn due(b: &[u8], s: u32) -> u64
    ensures { (s < 256 → result ≡ due_of b.now s) × (256 ≤ s → result ≡ 0) × (result < 2199023255552) }
{
    if 256 <= s {
        return 0;
    }
    word(b, 8 + s) % DUES
}

// Station s becomes absent. Nothing is done where there is no such station or the buffer is shorter than a table.
pub fn take(b: &mut [u8], s: u32)
    ensures kept { Kept b.old b.new }
    ensures none { (256 ≤ s) ⊎ (length b.old < 7656) → b.new ≡ b.old }
    ensures gone { (a : ℕ) → Table a b.old → s < 256 → Gone a s b.old b.new }
{
    if 256 <= s {
        return;
    }
    if b.len() < BYTES {
        return;
    }
    if due(b, s) == 0 {
        return;
    }
    let row = word(b, 7);
    unlink(b, row, s);
}

// Station s is due then, in that leaf, or in the overflow table where there is no such leaf. Nothing is done where there is no such station, the due
// number is 0 or over H + 1, or the buffer is shorter than a table.
pub fn put(b: &mut [u8], s: u32, due: u64, leaf: u32)
    ensures kept { Kept b.old b.new }
    ensures none { (256 ≤ s) ⊎ ((due ≡ 0) ⊎ ((suc horizon < due) ⊎ (length b.old < 7656))) → b.new ≡ b.old }
    ensures placed { (a : ℕ) → Table a b.old → s < 256 → 0 < due → due ≤ suc horizon
        → Placed a s due (bucket_for a leaf s) b.old b.new }
{
    if 256 <= s {
        return;
    }
    if due == 0 {
        return;
    }
    if LAST < due {
        return;
    }
    if b.len() < BYTES {
        return;
    }
    take(b, s);
    let row = word(b, 7);
    let list = bucket(row, leaf, s);
    insert(b, row, s, due, list);
}

// The first station of the first leaf in ring order from a slot on, by (due, station); none where all leaves are empty or the buffer is shorter than a
// table.
pub fn first(b: &[u8], slot: u32) -> Searched
    ensures within { IfSome result.at (λ s. s < 256) × (result.words ≤ 17) }
    ensures short { length b.now < 7656 → (result.at ≡ None) × (result.words ≡ 16) }
    ensures first { (a : ℕ) → Table a b.now → First a b.now (slot % 16) result.at result.words }
{
    if b.len() < BYTES {
        return Searched {
            at: None,
            words: 16,
        };
    }
    let row = word(b, 7);
    let f = first_leaf(b, row, slot);
    Searched {
        at: f.at.and_then(|l| head(b, l)),
        words: f.words,
    }
}

// The end of the table's bytes; of the buffer where that is shorter.
fn table_end(len: usize, row: u64) -> usize
    ensures { (result ≤ len) × (result < bytes_for (arity_in row) → result ≡ len) × (result ≤ bytes_for (arity_in row)) }
{
    let q = calendar_shapes::row(row);
    let end = (4456 + 32 * q.leaves + 128 * q.words) as usize;
    if len < end {
        return len;
    }
    end
}

// All stations become absent, whatever the bytes held, in a table of that row's shape: the table's bytes become 0, as far as the buffer has them.
pub fn clear(b: &mut [u8], row: u64)
    ensures { Cleared (arity_in row) b.old b.new }
{
    set_word(b, 7, row);
    let end = table_end(b.len(), row);
    if 64 < end {
        b[64..end].fill(0);
    }
}
