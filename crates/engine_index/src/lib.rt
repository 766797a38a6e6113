// The engine's index: which slot holds which event, by rings (crate rings) over the slots and the events in them (crate engine_rows). Here is what it is and
// what is read of it; engine_filing and engine_freeing change it.
//
// Of n stations and c slots: nodes 0 to n - 1 are the sentinels of the waiting rings, each with a station's unrun events in the event order; nodes n to
// 2 n - 1 those of the run rings, each with its run events in that order; node 2 n that of the free ring; node 2 n + 1 + i is slot i. A second table of links
// over the same nodes has the log: all run events in the event order, with node 0 as its sentinel. The links stand after the slots, the log's after those.
// A slot's status (crate engine_rows) says which of these it is in.
//
// Each function takes any bytes and any numbers.

#![tactic(auto)]

ghost use Rattle.std.specs.Prelude.{◌≡◌, ◌+◌, ◌*◌, ◌%◌, length};
ghost use Rattle.rings.specs.Table.{next_of};
ghost use Rattle.engine_index.specs.Layout.{links_at, run_ring, free_ring, node_of, nodes_of, in_range, slot_of, slot_found, next_logged};

// ---- shape

// Are the numbers in range?
pub fn in_range(n: u16, c: u16) -> bool
    ensures { result ≡ in_range n c }
{
    n <= 256 && c <= 4096
}

// Where the links start.
pub fn links(n: u16, c: u16) -> u32
    ensures { result ≡ links_at n c }
{
    64 + 128 * n as u32 + 64 * c as u32
}

// How many nodes there are; as 16 bits hold it.
pub fn nodes(n: u16, c: u16) -> u16
    ensures { result ≡ nodes_of n c % 65536 }
{
    ((2 * n as u32 + 1 + c as u32) % 65536) as u16
}

// Where the log's links start, after those of so many nodes.
pub fn log(n: u16, c: u16) -> u32
    ensures { result ≡ links_at n c + 4 * (nodes_of n c % 65536) }
{
    links(n, c) + 4 * nodes(n, c) as u32
}

// The sentinel of a station's ring of run events, and that of the free ring; as 16 bits hold them.
pub fn run_ring(n: u16, s: u16) -> u16
    ensures { result ≡ run_ring n s % 65536 }
{
    ((n as u32 + s as u32) % 65536) as u16
}

pub fn free_ring(n: u16) -> u16
    ensures { result ≡ free_ring n % 65536 }
{
    ((2 * n as u32) % 65536) as u16
}

// The node of a slot; as 16 bits hold it.
pub fn node_of(n: u16, i: u16) -> u16
    ensures { result ≡ node_of n i % 65536 }
{
    ((2 * n as u32 + 1 + i as u32) % 65536) as u16
}

// The slot of a node; 0 for a sentinel.
pub fn slot(n: u16, x: u16) -> u16
    ensures { result ≡ slot_of n x }
{
    let first = 2 * n as u32 + 1;
    if (x as u32) < first {
        return 0;
    }
    (x as u32 - first) as u16
}

// The slot of node x; c where x is a sentinel, or the index does not lie whole in the buffer; more than that where x is no node. Where it is below c, the
// compiler leaves out the tests of the loads and stores in that slot and its links.
pub fn slot_in(b: &[u8], n: u16, c: u16, x: u16) -> u16
    ensures { result ≡ slot_found n c (length b.now) x }
{
    if in_range(n, c) && log(n, c) as usize + 4 * nodes(n, c) as usize <= b.len() && 2 * n < x {
        return x - (2 * n + 1);
    }
    c
}

// ---- links

// The node after node x in the stations' rings and the free ring.
pub fn next(b: &[u8], n: u16, c: u16, x: u16) -> u16
    ensures { result ≡ next_of b.now (links_at n c) x }
{
    rings::next(b, links(n, c), x)
}

// The node after node x in the log; 0 where the numbers are out of range.
pub fn next_logged(b: &[u8], n: u16, c: u16, x: u16) -> u16
    ensures { result ≡ next_logged b.now n c x }
{
    if in_range(n, c) {
        return rings::next(b, log(n, c), x);
    }
    0
}
