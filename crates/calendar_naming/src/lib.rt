// Which station has the lowest timestamp (a Lowest-Timestamp-First scheduler).

#![tactic(auto)]

ghost use Rattle.std.specs.Prelude.{Some, IfSome, ◌≤◌, ◌<◌};
ghost use Rattle.calendar_cells.specs.Table.{arity_of};
ghost use Rattle.calendar_header.specs.Bytes.{Sound};
ghost use Rattle.calendar_header.specs.Promises.{Names};
ghost use Rattle.calendar_naming.specs.Steps.{FirstOf, Nearest, Nearer};

use calendar_answers::Least;
use calendar_cells::word;
use calendar_header::SLOT;
use refusal::Refusal;

// The nearer of two stations by due, the first where both have the same; s where there is no best yet.
fn nearer(b: &[u8], best: Option<u32>, s: u32) -> u32
    requires { IfSome best (λ h. h < 256) × (s < 256) }
    ensures { Nearer b.now best s result }
{
    if let Some(h) = best {
        if calendar_buckets::due(b, s) < calendar_buckets::due(b, h) {
            return s;
        }
        return h;
    }
    s
}

// The first station of the overflow table by (due, station).
fn nearest(b: &[u8]) -> Option<u32>
    ensures within { IfSome result (λ h. h < 256) }
    ensures nearest { Sound b.now → Nearest (arity_of b.now) b.now 256 result }
{
    let mut best: Option<u32> = None;
    let mut from: u32 = 0;
    while let Some(s) = calendar_buckets::later(b, from) {
        best = Some(nearer(b, best, s));
        from = s + 1;
    }
    best
}

// The answer that names a station, with the words that were read.
fn named(b: &[u8], station: u32, words: u64) -> Result<Least, Refusal>
    requires { (station < 256) × (words ≤ 17) }
    ensures { (Sound b.now → FirstOf (arity_of b.now) b.now (Some station) words) → Names b.now result }
{
    let due = calendar_buckets::due(b, station);
    if due == 0 {
        return Err(Refusal::Idle);
    }
    Ok(Least {
        station: station as u64,
        time: due - 1,
        words,
    })
}

// The least registered time, the lowest-numbered station that has it, and how many bitmap words were read. The overflow table is looked at only where
// the ring is empty: its times are later than any of the ring's.
pub fn lowest(b: &[u8]) -> Result<Least, Refusal>
    ensures { Names b.now result }
{
    let f = calendar_buckets::first(b, (word(b, SLOT) % 16) as u32);
    let at = f.at.or_else(|| nearest(b));
    let station = at.ok_or(Refusal::Idle)?;
    named(b, station, f.words)
}
