// The bits above the buckets: what is raised and lowered as buckets are filled and emptied.
//
// Kept: each call goes by the row to one function that has it as a literal: there the compiler knows the arity, and one test of the length stands for all.

#![tactic(auto)]

ghost use Rattle.std.specs.Prelude.{◌≡◌, ◌⊎◌, ◌+◌, ◌*◌, ◌≤◌, ◌<◌, length};
ghost use Rattle.calendar_shapes.specs.Rule.{arity_in};
ghost use Rattle.calendar_cells.specs.Table.{bytes_for};
ghost use Rattle.calendar_bits.specs.Promises.{Raised, Lowered};

use calendar_bitmap::with_child;
use calendar_cells::{link, nodes_at, set_word, table_bytes, word};
use calendar_shapes::{above, arity, child_of, leaves};

fn raise_in(b: &mut [u8], row: u64, list: u32)
    ensures raised { Raised (arity_in row) list b.old b.new }
    ensures none { (16 * (arity_in row * arity_in row) + 256 ≤ list) ⊎ (length b.old < bytes_for (arity_in row))
        → b.new ≡ b.old }
{
    if 16 * leaves(row) + 256 <= list {
        return;
    }
    if b.len() < table_bytes(row) {
        return;
    }
    let a = arity(row);
    let j = above(list, row);
    let n = nodes_at(row) + j;
    set_word(b, n, with_child(word(b, n), child_of(list, row), a, true));
    let r = 264 + above(j, row);
    set_word(b, r, with_child(word(b, r), child_of(j, row), a, true));
}

// The two bits above a bucket that is filled are set. Nothing is done where there is no such bucket or the buffer is shorter than a table of that row's
// shape.
pub fn raise(b: &mut [u8], row: u64, list: u32)
    ensures raised { Raised (arity_in row) list b.old b.new }
    ensures none { (16 * (arity_in row * arity_in row) + 256 ≤ list) ⊎ (length b.old < bytes_for (arity_in row))
        → b.new ≡ b.old }
{
    match row % 4 {
        0 => raise_in(b, 0, list),
        1 => raise_in(b, 1, list),
        2 => raise_in(b, 2, list),
        _ => raise_in(b, 3, list),
    }
}

fn lower_in(b: &mut [u8], row: u64, list: u32)
    ensures lowered { Lowered (arity_in row) list b.old b.new }
    ensures none { (16 * (arity_in row * arity_in row) + 256 ≤ list) ⊎ (length b.old < bytes_for (arity_in row))
        → b.new ≡ b.old }
{
    if 16 * leaves(row) + 256 <= list {
        return;
    }
    if b.len() < table_bytes(row) {
        return;
    }
    if link(b, 256 + list) != 0 {
        return;
    }
    let a = arity(row);
    let j = above(list, row);
    let n = nodes_at(row) + j;
    let y = with_child(word(b, n), child_of(list, row), a, false);
    set_word(b, n, y);
    if y == 0 {
        let r = 264 + above(j, row);
        set_word(b, r, with_child(word(b, r), child_of(j, row), a, false));
    }
}

// The bit above a bucket that was filled is cleared where it is empty now, and the one above that where the word is 0 then. Nothing is done where there
// is no such bucket or the buffer is shorter than a table of that row's shape.
pub fn lower(b: &mut [u8], row: u64, list: u32)
    ensures lowered { Lowered (arity_in row) list b.old b.new }
    ensures none { (16 * (arity_in row * arity_in row) + 256 ≤ list) ⊎ (length b.old < bytes_for (arity_in row))
        → b.new ≡ b.old }
{
    match row % 4 {
        0 => lower_in(b, 0, list),
        1 => lower_in(b, 1, list),
        2 => lower_in(b, 2, list),
        _ => lower_in(b, 3, list),
    }
}
