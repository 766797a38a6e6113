// The index's changes that look for no place: a run event is unrun again, a slot is freed, all slots are.
//
// Each function takes any bytes and any numbers, and does nothing where n is over 256 or c over 4096; unmark, drop and release do nothing either where the
// index does not lie whole in the buffer.

#![tactic(auto)]

ghost use Rattle.std.specs.Prelude.{◌≡◌, ◌≤◌, ◌<◌};
ghost use Rattle.rings.specs.Table.{Frame};
ghost use Rattle.engine_rows.specs.Layout.{slot_row, free_status, unrun_status};
ghost use Rattle.entry.specs.Entry.{event_at};
ghost use Rattle.engine_index.specs.Layout.{index_bytes, slot_of};
ghost use Rattle.engine_index.specs.Promises.{Spares, Sets, Clears, Unmarks, Drops, Releases};
ghost use Rattle.engine_index.specs.Steps.{emptied, filled, Frees};

// The run event of node x, the last of its station, is unrun again.
pub fn unmark(b: &mut [u8], n: u16, c: u16, x: u16)
    ensures frame { Frame (slot_row n 0) (index_bytes n c) b.old b.new }
    ensures unmarks { Unmarks n c b.old x b.new }
    ensures spares { Spares n c x b.old b.new }
    ensures sets { (event_at (slot_row n (slot_of n x)) b.old).target < n → Sets n c x unrun_status b.old b.new }
{
    let i = engine_index::slot_in(b, n, c, x);
    if i < c {
        let e = engine_rows::event(b, n, i);
        let t = e.target;
        if t < n {
            let o = engine_index::links(n, c);
            let k = engine_index::nodes(n, c);
            engine_rows::set_number(b, n, i, engine_rows::STATUS, engine_rows::UNRUN);
            rings::unlink(b, engine_index::log(n, c), k, x);
            rings::unlink(b, o, k, x);
            rings::insert_after(b, o, k, t, x);
        }
    }
}

// Node x goes from its ring to the free ring, and its slot is free. Nothing is done where it is no slot's node.
fn free(b: &mut [u8], n: u16, c: u16, x: u16)
    ensures { Frees n c b.old x b.new }
{
    let held = engine_index::slot_in(b, n, c, x);
    if held < c {
        let o = engine_index::links(n, c);
        let k = engine_index::nodes(n, c);
        engine_rows::set_number(b, n, held, engine_rows::STATUS, engine_rows::FREE);
        rings::unlink(b, o, k, x);
        rings::insert_after(b, o, k, engine_index::free_ring(n), x);
    }
}

// The slot of node x, an unrun event's, is free.
pub fn drop(b: &mut [u8], n: u16, c: u16, x: u16)
    ensures frame { Frame (slot_row n 0) (index_bytes n c) b.old b.new }
    ensures drops { Drops n c b.old x b.new }
    ensures spares { Spares n c x b.old b.new }
    ensures sets { Sets n c x free_status b.old b.new }
{
    free(b, n, c, x);
}

// The slot of node x, a run event's, is free.
pub fn release(b: &mut [u8], n: u16, c: u16, x: u16)
    ensures frame { Frame (slot_row n 0) (index_bytes n c) b.old b.new }
    ensures releases { Releases n c b.old x b.new }
    ensures spares { Spares n c x b.old b.new }
{
    let i = engine_index::slot_in(b, n, c, x);
    if i < c {
        rings::unlink(b, engine_index::log(n, c), engine_index::nodes(n, c), x);
        free(b, n, c, x);
    }
}

// ---- all slots

// Nodes 0 to m - 1 are alone in their rings.
#[tactic(auto, unfolding(engine_index::specs::Steps::emptied))]
fn empty_rings(b: &mut [u8], o: u32, k: u16, m: u16)
    ensures { b.new ≡ emptied b.old o k m }
{
    for s in 0..m {
        rings::make_empty(b, o, k, s);
    }
}

// Slots 0 to c - 1 are free, and in the free ring in this order.
#[tactic(auto, unfolding(engine_index::specs::Steps::filled), using(crate::proofs::Clearing::filled_on))]
fn free_slots(b: &mut [u8], n: u16, o: u32, k: u16, c: u16)
    requires { (n ≤ 256) × (c ≤ 4096) }
    ensures { b.new ≡ filled b.old n o k c }
{
    for i in 0..c {
        let x = engine_index::node_of(n, i);
        engine_rows::set_number(b, n, i, engine_rows::STATUS, engine_rows::FREE);
        rings::insert_after(b, o, k, x - 1, x);
    }
}

// No event is held, and all slots are free, whatever the bytes held.
pub fn clear(b: &mut [u8], n: u16, c: u16)
    ensures frame { Frame (slot_row n 0) (index_bytes n c) b.old b.new }
    ensures clears { Clears n c b.old b.new }
{
    if engine_index::in_range(n, c) {
        let o = engine_index::links(n, c);
        let k = engine_index::nodes(n, c);
        empty_rings(b, o, k, engine_index::node_of(n, 0));
        free_slots(b, n, o, k, c);
        rings::make_empty(b, engine_index::log(n, c), k, 0);
    }
}
