// A part of a committed log: whether an account takes it, and what its entries cost.

#![tactic(auto)]

ghost use Rattle.std.specs.Prelude.{◌≡◌};
ghost use Rattle.account_parts.specs.Part.{entry_at, source_out, entry_out, part_out};
ghost use Rattle.account_parts.specs.Cost.{cost_of};

use refusal::HORIZON;

// Is a source neither a station below n nor that of a post?
fn source_out(n: u16, source: u16) -> bool
    ensures { result ≡ source_out n source }
{
    source >= n && source != line::POSTED
}

// Does 19 refuse the entry at the front of the bytes?
#[tactic(auto, unfolding(crate::specs::Part::entry_at, crate::specs::Part::entry_out), using(crate::proofs::OneEntry::unsuited_is))]
fn entry_out(entry: &[u8], n: u16) -> bool
    ensures { result ≡ entry_out n (entry_at 0 entry.now) }
{
    let kind = words::load::<u32>(entry, 20);
    let value = words::load::<u32>(entry, 12);
    HORIZON < words::load::<u64>(entry, 0)
        || n <= words::load::<u16>(entry, 16)
        || source_out(n, words::load::<u16>(entry, 18))
        || line::matter_of(n, kind as u64, value as u64).is_err()
}

// Does 19 refuse the part, of a line of n stations?
pub fn part_out(part: &[u8], n: u16) -> bool
    ensures { result ≡ part_out n part.now }
{
    part.len() % 24 != 0 || part.chunks_exact(24).any(|entry| entry_out(entry, n))
}

// What an entry of that kind costs, where a reading and a frame cost so much.
pub fn cost(kind: u32, reading: u32, frame: u32) -> u64
    ensures { result ≡ cost_of reading frame kind }
{
    match kind {
        1 => reading as u64,
        2 => frame as u64,
        0 | 3..=4294967295 => 0,
    }
}
