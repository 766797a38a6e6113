// The floor rises, and the ring of blocks with it.

#![tactic(auto)]

ghost use Rattle.std.specs.Prelude.{◌≡◌, ℕ, ◌≤◌, ◌<◌};
ghost use Rattle.calendar_cells.specs.Table.{due_of, Waits};
ghost use Rattle.calendar_header.specs.Rules.{any_before, advance_checks, advanced};
ghost use Rattle.calendar_header.specs.Bytes.{floor_of, SoundAt, Sound, state_of};
ghost use Rattle.calendar_header.specs.Promises.{Obeys};
ghost use Rattle.calendar_floor.specs.Steps.{Moved, Settling, Settled, Risen};

use calendar_cells::{set_word, word};
use calendar_header::{END, FLOOR, LIMIT, SLOT, START, WIDTH, block_leaves, leaf};
use calendar_naming::lowest;
use refusal::{HORIZON, Refusal};

// A station of the overflow table goes to its leaf where the ring covers its time by now.
fn fetch(b: &mut [u8], s: u32)
    requires { s < 256 }
    ensures { (a : ℕ) → Settling a s b.old → Waits a b.old s → Moved a s b.old b.new }
{
    let due = calendar_buckets::due(b, s);
    if due == 0 {
        return;
    }
    let l = leaf(b, due - 1);
    if 16 * block_leaves(b) <= l {
        return;
    }
    calendar_buckets::put(b, s, due, l);
}

// Each station of the overflow table whose time the ring has come to cover goes to its leaf.
fn settle(b: &mut [u8])
    ensures { (a : ℕ) → Settling a 0 b.old → Settled a b.old b.new }
{
    let mut from: u32 = 0;
    while let Some(s) = calendar_buckets::later(b, from) {
        fetch(b, s);
        from = s + 1;
    }
}

// The ring is turned to the floor's block.
fn turn(b: &mut [u8], floor: u64)
    requires { floor ≤ 1099511627776 }
    ensures { (a : ℕ) → SoundAt a b.old → ((x : ℕ) → x < 256 → (due_of b.old x ≡ 0 → ⊥) → floor < due_of b.old x)
        → floor_of b.old ≤ floor → Risen a floor b.old b.new }
{
    let width = word(b, WIDTH);
    if width == 0 {
        return;
    }
    if 1048576 < width {
        return;
    }
    let span = width * block_leaves(b) as u64;
    let block = floor / span;
    set_word(b, FLOOR, floor);
    set_word(b, START, block * span);
    set_word(b, END, (block + 1) * span);
    set_word(b, LIMIT, (block + 16) * span);
    set_word(b, SLOT, block % 16);
    settle(b);
}

// The floor rises, within its block or into a later one.
fn rise(b: &mut [u8], floor: u64)
    requires { floor ≤ 1099511627776 }
    ensures { (a : ℕ) → SoundAt a b.old → ((x : ℕ) → x < 256 → (due_of b.old x ≡ 0 → ⊥) → floor < due_of b.old x)
        → floor_of b.old ≤ floor → Risen a floor b.old b.new }
{
    if floor < word(b, END) {
        set_word(b, FLOOR, floor);
        return;
    }
    turn(b, floor);
}

// Does a registered time lie before the floor?
fn early(b: &[u8], floor: u64) -> bool
    ensures { Sound b.now → result ≡ any_before floor (state_of b.now).times }
{
    lowest(b).is_ok_and(|at| at.time < floor)
}

// The floor is advanced, and the ring with it.
pub fn advance(b: &mut [u8], floor: u64) -> Result<(), Refusal>
    ensures { Obeys (λ q. advance_checks q floor) (λ q. advanced q floor) b.old result b.new }
{
    if HORIZON + 1 < floor {
        return Err(Refusal::Late);
    }
    if floor < word(b, FLOOR) {
        return Err(Refusal::Early);
    }
    if early(b, floor) {
        return Err(Refusal::Unrun);
    }
    rise(b, floor);
    Ok(())
}
