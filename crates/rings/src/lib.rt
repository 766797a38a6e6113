// Circular doubly linked lists (rings) over 16-bit links in lent bytes. A table of links starts at byte o: node i's next is at o + 4 i, its previous at
// o + 4 i + 2. In a ring the sentinel is a node too.
//
// Each function takes any bytes and any numbers. A link that does not lie whole in the buffer is read as 0 and is not stored. Stores are bounded by n:
// on any bytes an operation on the table of n nodes changes no byte outside o .. o + 4 n.

#![tactic(auto)]

ghost use Rattle.std.specs.Prelude.{◌≡◌};
ghost use Rattle.rings.specs.Table.{next_of, prev_of, with_next, with_prev, empty_at, link_after, unlinked};

// The node after node i.
// Kept: next and prev, set_next and set_prev are pairs that differ in the two bytes between a node's links: one function would take the side from each call.
pub fn next(b: &[u8], o: u32, i: u16) -> u16
    ensures { result ≡ next_of b.now o i }
{
    words::load::<u16>(b, o as usize + 4 * i as usize)
}

// The node before node i.
pub fn prev(b: &[u8], o: u32, i: u16) -> u16
    ensures { result ≡ prev_of b.now o i }
{
    words::load::<u16>(b, o as usize + 4 * i as usize + 2)
}

fn set_next(b: &mut [u8], o: u32, n: u16, i: u16, v: u16)
    ensures { b.new ≡ with_next b.old o n i v }
{
    if i < n {
        words::store::<u16>(b, o as usize + 4 * i as usize, v);
    }
}

fn set_prev(b: &mut [u8], o: u32, n: u16, i: u16, v: u16)
    ensures { b.new ≡ with_prev b.old o n i v }
{
    if i < n {
        words::store::<u16>(b, o as usize + 4 * i as usize + 2, v);
    }
}

// A ring of node s alone.
pub fn make_empty(b: &mut [u8], o: u32, n: u16, s: u16)
    ensures { b.new ≡ empty_at b.old o n s }
{
    set_next(b, o, n, s, s);
    set_prev(b, o, n, s, s);
}

// Node x goes after node a.
pub fn insert_after(b: &mut [u8], o: u32, n: u16, a: u16, x: u16)
    ensures { b.new ≡ link_after b.old o n a x }
{
    let c = next(b, o, a);
    set_next(b, o, n, x, c);
    set_prev(b, o, n, x, a);
    set_next(b, o, n, a, x);
    set_prev(b, o, n, c, x);
}

// Node x leaves its ring.
pub fn unlink(b: &mut [u8], o: u32, n: u16, x: u16)
    ensures { b.new ≡ unlinked b.old o n x }
{
    let p = prev(b, o, x);
    let q = next(b, o, x);
    set_next(b, o, n, p, q);
    set_prev(b, o, n, q, p);
}
