// What the bits above the buckets find: the first leaf in ring order, and the stations of the overflow table.
//
// Each search goes by the row to one function that has it as a literal: there the compiler knows the arity.
// Kept: one function over the row alone took an event 1.23 times the instructions.

#![tactic(auto)]

ghost use Rattle.std.specs.Prelude.{◌≡◌, None, IfSome, ℕ, ◌%◌, ◌≤◌, ◌<◌, length};
ghost use Rattle.calendar_shapes.specs.Rule.{arity_in};
ghost use Rattle.calendar_cells.specs.Table.{bytes_for, Table};
ghost use Rattle.calendar_search.specs.Promises.{FirstLeaf, Later};
ghost use Rattle.calendar_search.specs.Steps.{LeafUnder};

use calendar_bitmap::{first_child, first_from};
use calendar_cells::{nodes_at, table_bytes, word};
use calendar_shapes::{above, arity, below, child_of};

// ---- the leaves

// What a search of the leaves found, and how many bitmap words it read.
#[derive(Clone, Copy)]
pub struct Searched {
    pub at: Option<u32>,
    pub words: u64,
}

fn leaf_in(b: &[u8], row: u64, r: u32, x: u64) -> u32
    requires { r < 16 }
    ensures within { result < 65792 }
    ensures under { LeafUnder (arity_in row) b.now r x result }
{
    let a = arity(row);
    let j = below(r, row) + first_child(x, a);
    let y = word(b, nodes_at(row) + j);
    below(j, row) + first_child(y, a)
}

// The first leaf under root word x, which is that of slot r: by its first child, and the first child of that node's word.
fn leaf_under(b: &[u8], row: u64, r: u32, x: u64) -> u32
    requires { r < 16 }
    ensures within { result < 65792 }
    ensures under { LeafUnder (arity_in row) b.now r x result }
{
    match row % 4 {
        0 => leaf_in(b, 0, r, x),
        1 => leaf_in(b, 1, r, x),
        2 => leaf_in(b, 2, r, x),
        _ => leaf_in(b, 3, r, x),
    }
}

// The first leaf in ring order from a slot on, modulo 16, that is not empty.
pub fn first_leaf(b: &[u8], row: u64, slot: u32) -> Searched
    ensures within { IfSome result.at (λ l. l < 65792) × (result.words ≤ 17) }
    ensures first { Table (arity_in row) b.now → FirstLeaf (arity_in row) b.now (slot % 16) result.at result.words }
{
    let from = slot % 16;
    for i in 0..16 {
        let r = (from + i) % 16;
        let x = word(b, 264 + r);
        if x != 0 {
            // i roots that are 0, this one, and a node
            return Searched {
                at: Some(leaf_under(b, row, r, x)),
                words: i as u64 + 2,
            };
        }
    }
    Searched {
        at: None,
        words: 16,
    }
}

// ---- the overflow table

fn later_in(b: &[u8], row: u64, from: u32) -> Option<u32>
    ensures from { IfSome result (λ s. (from ≤ s) × (s < 256)) }
    ensures short { length b.now < bytes_for (arity_in row) → result ≡ None }
    ensures first { Table (arity_in row) b.now → Later (arity_in row) b.now from result }
{
    if b.len() < table_bytes(row) {
        return None;
    }
    let a = arity(row);
    let nodes = nodes_at(row) + 16 * a;
    let mut s = from;
    // Kept: a turn goes on to the next node's first station, so that no index is counted
    while s < 256 {
        let j = above(s, row);
        let c = first_from(word(b, nodes + j), child_of(s, row), a);
        if c < a {
            return Some(below(j, row) + c);
        }
        s = below(j, row) + a;
    }
    None
}

// The first station of the overflow table, from a number on; none where the buffer is shorter than a table.
pub fn later(b: &[u8], from: u32) -> Option<u32>
    ensures from { IfSome result (λ s. (from ≤ s) × (s < 256)) }
    ensures short { length b.now < 7656 → result ≡ None }
    ensures first { (a : ℕ) → Table a b.now → Later a b.now from result }
{
    match word(b, 7) % 4 {
        0 => later_in(b, 0, from),
        1 => later_in(b, 1, from),
        2 => later_in(b, 2, from),
        _ => later_in(b, 3, from),
    }
}
