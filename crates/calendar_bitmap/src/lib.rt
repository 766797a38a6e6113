// A bitmap word of `arity` children, 8, 16, 32 or 64, in the low bits of 64: child 0 is the most significant of its bits.

#![tactic(auto)]

ghost use Rattle.std.specs.Prelude.{◌≡◌, ◌⊎◌, ◌-◌, ◌%◌, ◌^◌, ◌≤◌, ◌<◌};
ghost use Rattle.calendar_bitmap.specs.Child.{Arity};
ghost use Rattle.calendar_bitmap.specs.Promises.{FirstChild, FirstFrom, WithChild};

// The word in which child i alone is set.
fn child_word(i: u32, arity: u32) -> u64
    requires { (i < arity) × (arity ≤ 64) }
    ensures { result ≡ 2 ^ (arity - 1 - i) }
{
    let place = arity - 1 - i;
    1u64 << place
}

// The children of x from i on, the others clear.
fn rest(x: u64, i: u32, arity: u32) -> u64
    ensures { result ≡ x % 2 ^ (arity - i) }
{
    if arity <= i {
        return 0;
    }
    let n = arity - i;
    if 64 <= n {
        return x;
    }
    x % (1u64 << n)
}

// The first child of x that is set, by the leading zeros of a word of the arity's width; the arity where none is. 0 where there is no such arity.
pub fn first_child(x: u64, arity: u32) -> u32
    ensures within { result ≤ 64 }
    ensures first { Arity arity → FirstChild arity (x % 2 ^ arity) result }
    ensures none { (Arity arity → ⊥) → result ≡ 0 }
{
    match arity {
        8 => u8::leading_zeros((x % 256) as u8),
        16 => u16::leading_zeros((x % 65536) as u16),
        32 => u32::leading_zeros((x % 4294967296) as u32),
        64 => u64::leading_zeros(x),
        _ => 0,
    }
}

// The first child of x that is set, from child i on; the arity where none is. 0 where there is no such arity.
pub fn first_from(x: u64, i: u32, arity: u32) -> u32
    ensures within { result ≤ 64 }
    ensures first { Arity arity → FirstFrom arity x i result }
    ensures none { (Arity arity → ⊥) → result ≡ 0 }
{
    first_child(rest(x, i, arity), arity)
}

// The word x with child i set or clear; x itself where there is no child i, or no word of so many.
pub fn with_child(x: u64, i: u32, arity: u32, set: bool) -> u64
    ensures child { i < arity → arity ≤ 64 → WithChild arity x i set result }
    ensures none { (arity ≤ i) ⊎ (64 < arity) → result ≡ x }
{
    if arity <= i {
        return x;
    }
    if 64 < arity {
        return x;
    }
    let p = child_word(i, arity);
    let on = x | p;
    if set {
        return on;
    }
    on ^ p
}
