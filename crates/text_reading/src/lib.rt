// Numbers and words in a line of text: whether it begins with a word, the number at a place, after one space, to the line's end.

#![tactic(auto)]

ghost use Rattle.std.specs.Prelude.{◌≡◌, length, [], ◌∷◌, drop};
ghost use Rattle.std.specs.List.{prefix_len};
ghost use Rattle.text.specs.Decimal.{is_digit};
ghost use Rattle.text.specs.Numeral.{digit_count, total};
ghost use Rattle.text_reading.specs.Promises.{Begins, Numbers, Lasts};
ghost use Rattle.text_reading.specs.Steps.{total_of};

// A number, and the place after it.
#[derive(Clone, Copy)]
pub struct Number {
    pub value: u64,
    pub end: usize,
}

// Does the line begin with this word?
pub fn begins(line: &[u8], word: &[u8]) -> bool
    ensures { Begins word.now line.now result }
{
    line.starts_with(word)
}

// How many digits stand at the front of some bytes.
fn digits_in(rest: &[u8]) -> usize
    ensures { result ≡ prefix_len is_digit rest.now }
{
    rest.iter().take_while(|b| b.is_ascii_digit()).count()
}

// How many digits stand at a place. The rest of the line is taken at once: `skip` would step over each byte before the place.
fn digit_count(line: &[u8], at: usize) -> usize
    ensures { result ≡ prefix_len is_digit (drop at line.now) }
{
    match line.get(at..) {
        Some(rest) => digits_in(rest),
        None => 0,
    }
}

// What digits say.
fn digit_total(digits: &[u8]) -> Option<u64>
    requires { digit_count digits.now ≡ length digits.now }
    ensures { result ≡ total_of (total 0 digits.now) }
{
    let mut v: u64 = 0;
    for b in digits {
        v = v.checked_mul(10)?.checked_add((*b - 48) as u64)?;
    }
    Some(v)
}

// The decimal number at a place, with the place after it.
pub fn number_at(line: &[u8], at: usize) -> Option<Number>
    ensures { Numbers [] line.now at result }
{
    let n = digit_count(line, at);
    if n == 0 {
        return None;
    }
    if line[at] == 48 && 1 < n {
        return None;
    }
    let end = at + n;
    let value = digit_total(&line[at..end])?;
    Some(Number { value, end })
}

// The number after one space.
pub fn number_after(line: &[u8], at: usize) -> Option<Number>
    ensures { Numbers (32 ∷ []) line.now at result }
{
    match line.get(at) {
        Some(32) => number_at(line, at + 1),
        _ => None,
    }
}

// The one number after a word of `at` bytes, to the line's end.
pub fn last_number(line: &[u8], at: usize) -> Option<Number>
    ensures { Lasts (32 ∷ []) line.now at result }
{
    number_after(line, at).filter(|n| n.end == line.len())
}

// The number that is a whole line, without the byte that ends it.
pub fn sole_number(line: &[u8]) -> Option<Number>
    ensures { Lasts [] line.now 0 result }
{
    number_at(line, 0).filter(|n| n.end == line.len())
}
