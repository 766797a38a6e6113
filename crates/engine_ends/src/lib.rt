// The ends of the index's rings: a station's first unrun event, its first and its last run one, the first free slot, the first run event of all.
//
// Each function takes any bytes and any numbers, and answers a node; 0, which is a sentinel, where there is none.

#![tactic(auto)]

ghost use Rattle.std.specs.Prelude.{◌≡◌};
ghost use Rattle.engine_ends.specs.Ends.{beside_sentinel, first_unrun, first_run, last_run, first_free, first_logged};

// The node x that stands next to the sentinel u: none where it is u.
fn beside_sentinel(u: u16, x: u16) -> u16
    ensures { result ≡ beside_sentinel u x }
{
    if x == u { 0 } else { x }
}

#[tactic(auto, unfolding(crate::specs::Ends::first_unrun))]
pub fn first_unrun(b: &[u8], n: u16, c: u16, s: u16) -> u16
    ensures { result ≡ first_unrun b.now n c s }
{
    if s < n {
        return beside_sentinel(s, rings::next(b, engine_index::links(n, c), s));
    }
    0
}

#[tactic(auto, unfolding(crate::specs::Ends::first_run))]
pub fn first_run(b: &[u8], n: u16, c: u16, s: u16) -> u16
    ensures { result ≡ first_run b.now n c s }
{
    if s < n && n <= 256 {
        let u = engine_index::run_ring(n, s);
        return beside_sentinel(u, rings::next(b, engine_index::links(n, c), u));
    }
    0
}

#[tactic(auto, unfolding(crate::specs::Ends::last_run))]
pub fn last_run(b: &[u8], n: u16, c: u16, s: u16) -> u16
    ensures { result ≡ last_run b.now n c s }
{
    if s < n && n <= 256 {
        let u = engine_index::run_ring(n, s);
        return beside_sentinel(u, rings::prev(b, engine_index::links(n, c), u));
    }
    0
}

#[tactic(auto, unfolding(crate::specs::Ends::first_free))]
pub fn first_free(b: &[u8], n: u16, c: u16) -> u16
    ensures { result ≡ first_free b.now n c }
{
    if n <= 256 {
        let f = engine_index::free_ring(n);
        return beside_sentinel(f, rings::next(b, engine_index::links(n, c), f));
    }
    0
}

pub fn first_logged(b: &[u8], n: u16, c: u16) -> u16
    ensures { result ≡ first_logged b.now n c }
{
    engine_index::next_logged(b, n, c, 0)
}
