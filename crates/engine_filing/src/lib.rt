// The index's changes that look for a place in the event order: an event is put into a free slot, or marked as run.
//
// Each function takes any bytes and any numbers, and does nothing where n is over 256 or c over 4096 or the index does not lie whole in the buffer.

#![tactic(auto)]

ghost use Rattle.std.specs.Prelude.{◌≡◌, ◌≤◌};
ghost use Rattle.rings.specs.Table.{prev_of, Frame};
ghost use Rattle.rings.specs.Walk.{steps};
ghost use Rattle.engine_rows.specs.Layout.{slot_row};
ghost use Rattle.engine_index.specs.Layout.{index_bytes};
ghost use Rattle.engine_index.specs.Promises.{Spares, Puts, Marks};
ghost use Rattle.engine_ends.specs.Ends.{spare_node};
ghost use Rattle.engine_index.specs.Steps.{stop_at, filed};

use line::{Event, State};

// ---- the place of an event

// Is node i the sentinel s, or does its event come before e?
fn stops(b: &[u8], n: u16, s: u16, e: Event, i: u16) -> bool
    requires { n ≤ 256 }
    ensures { result ≡ stop_at b.now n s e i }
{
    if i == s {
        return true;
    }
    engine_rows::before(b, n, engine_index::slot(n, i), e)
}

// From node a back along the links at o, the first node at which that is so. On bytes that are no ring it stops after so many steps.
fn walk_back(b: &[u8], n: u16, o: u32, s: u16, e: Event, a: u16, fuel: u16) -> u16
    requires { n ≤ 256 }
    ensures { result ≡ steps (prev_of b.now o) (stop_at b.now n s e) fuel a }
{
    let mut at = a;
    for _ in 0..fuel {
        if stops(b, n, s, e, at) {
            return at;
        }
        at = rings::prev(b, o, at);
    }
    at
}

// Node x goes to the place of the event e in the ring of s, found from the last one back. That is mostly after the last: callers try it first.
fn file(b: &mut [u8], n: u16, o: u32, k: u16, s: u16, e: Event, x: u16)
    requires { n ≤ 256 }
    ensures { b.new ≡ filed b.old n o k s e x }
{
    let last = rings::prev(b, o, s);
    let a = walk_back(b, n, o, s, e, last, k);
    rings::insert_after(b, o, k, a, x);
}

// ---- the changes

// A free slot takes the event, unrun. Answers its node; 0 where no slot is free, and then nothing is done.
pub fn put(b: &mut [u8], n: u16, c: u16, e: Event) -> u16
    ensures frame { Frame (slot_row n 0) (index_bytes n c) b.old b.new }
    ensures puts { Puts n c b.old e result b.new }
    ensures spares { Spares n c result b.old b.new }
    ensures answer { result ≡ spare_node b.old n c }
    ensures none { result ≡ 0 → b.new ≡ b.old }
{
    let x = engine_ends::first_free(b, n, c);
    let spare = engine_index::slot_in(b, n, c, x);
    if spare < c {
        let o = engine_index::links(n, c);
        let k = engine_index::nodes(n, c);
        rings::unlink(b, o, k, x);
        engine_rows::set_event(b, n, spare, e);
        engine_rows::set_number(b, n, spare, engine_rows::STATUS, engine_rows::UNRUN);
        let last = rings::prev(b, o, e.target);
        if stops(b, n, e.target, e, last) {
            rings::insert_after(b, o, k, last, x);
            return x;
        }
        file(b, n, o, k, e.target, e, x);
        return x;
    }
    0
}

// The unrun event of node x, the first of its station, has run from the state v.
pub fn mark(b: &mut [u8], n: u16, c: u16, x: u16, v: State)
    ensures frame { Frame (slot_row n 0) (index_bytes n c) b.old b.new }
    ensures marks { Marks n c b.old x v b.new }
    ensures spares { Spares n c x b.old b.new }
{
    let i = engine_index::slot_in(b, n, c, x);
    if i < c {
        let e = engine_rows::event(b, n, i);
        let t = e.target;
        if t < n {
            let o = engine_index::links(n, c);
            let k = engine_index::nodes(n, c);
            engine_rows::set_saved(b, n, i, v);
            engine_rows::set_number(b, n, i, engine_rows::STATUS, engine_rows::RUN);
            rings::unlink(b, o, k, x);
            let a = rings::prev(b, o, engine_index::run_ring(n, t));
            rings::insert_after(b, o, k, a, x);
            let l = engine_index::log(n, c);
            let last = rings::prev(b, l, 0);
            if stops(b, n, 0, e, last) {
                rings::insert_after(b, l, k, last, x);
                return;
            }
            file(b, n, l, k, 0, e, x);
        }
    }
}
