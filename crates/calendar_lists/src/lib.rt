// A bucket's list of stations, in the order of (due, station).

#![tactic(auto)]

ghost use Rattle.std.specs.Prelude.{◌≡◌, None, IfSome, ◌⊎◌, ℕ, ◌+◌, ◌*◌, ◌≤◌, ◌<◌};
ghost use Rattle.calendar_cells.specs.Lists.{rank_of};
ghost use Rattle.calendar_cells.specs.Table.{due_of, Table};
ghost use Rattle.calendar_lists.specs.Promises.{Chained, Place, Joined, HeadOf};

use calendar_cells::{DUES, link, set_back, set_link, word};

// The rank of a station in its list, by due and then by number.
fn rank(b: &[u8], s: u32) -> u64
    requires { s < 256 }
    ensures { result ≡ rank_of (due_of b.now) s }
{
    word(b, 8 + s) % DUES * 256 + s as u64
}

// The last place of a list whose rank is below k; 0 where there is no such list. The walk goes on only while the rank rises, so that it ends on any
// bytes.
pub fn find(b: &[u8], list: u32, k: u64) -> u32
    ensures within { result < 66048 }
    ensures none { 65792 ≤ list → result ≡ 0 }
    ensures place { (a : ℕ) → list < 65792 → list < 16 * (a * a) + 256 → 0 < k → Chained a b.now
        → Place a b.now list k result }
{
    if 65792 <= list {
        return 0;
    }
    let mut p = 256 + list;
    let mut n = link(b, p) as u32;
    let mut last: u64 = 0;
    // Kept: a turn goes on along the list's links, so that no index is counted
    loop {
        if n == 0 {
            return p;
        }
        if 256 < n {
            return p;
        }
        let kn = rank(b, n - 1);
        if kn <= last {
            return p;
        }
        if k <= kn {
            return p;
        }
        p = n - 1;
        n = link(b, p) as u32;
        last = kn;
    }
}

// The place p leads to n, a station + 1 or 0, and that station back to p. Where n is 0 the way back goes to a cell that no station has: no test is
// needed. Nothing is done where there is no such place or station.
pub fn join(b: &mut [u8], p: u32, n: u16)
    ensures joined { Joined p n b.old b.new }
    ensures none { (66048 ≤ p) ⊎ (256 < n) → b.new ≡ b.old }
{
    if 66048 <= p {
        return;
    }
    if 256 < n {
        return;
    }
    set_link(b, p, n);
    set_back(b, n as u32, p);
}

// The first station of a bucket; none where the bucket is empty or there is no such bucket.
pub fn head(b: &[u8], list: u32) -> Option<u32>
    ensures within { IfSome result (λ h. h < 256) }
    ensures none { 65792 ≤ list → result ≡ None }
    ensures first { (a : ℕ) → list < 65792 → list < 16 * (a * a) + 256 → Table a b.now → HeadOf b.now list result }
{
    if 65792 <= list {
        return None;
    }
    let h = link(b, 256 + list) as u32;
    if h == 0 {
        return None;
    }
    if 256 < h {
        return None;
    }
    Some(h - 1)
}
