// Bytes and numbers that are appended to a text: each function writes from byte `at` on as many bytes as have room, and answers the place after them.
// Kept, a place beside the buffer: the promise is of the whole buffer at entry and at exit, as its callers ask. Kept, digits by hand: `write!` says nothing of
// what stands in a buffer that it found too small, and here as many digits as have room are promised.

#![tactic(auto)]

ghost use Rattle.std.specs.Prelude.{◌≡◌, [], ◌∷◌, length, replicate};
ghost use Rattle.text.specs.Decimal.{decimal};
ghost use Rattle.text.specs.Padded.{right_in};
ghost use Rattle.text_writing.specs.Promises.{Appends};

pub fn append_byte(out: &mut [u8], at: usize, byte: u8) -> usize
    ensures { Appends (byte ∷ []) at out.old result out.new }
{
    if at < out.len() {
        out[at] = byte;
        return at + 1;
    }
    at
}

pub fn append_word(out: &mut [u8], at: usize, word: &[u8]) -> usize
    ensures { Appends word.now at out.old result out.new }
{
    let mut end = at;
    for b in word {
        end = append_byte(out, end, *b);
    }
    end
}

// A byte n times.
pub fn append_times(out: &mut [u8], at: usize, byte: u8, n: usize) -> usize
    ensures { Appends (replicate n byte) at out.old result out.new }
{
    let mut end = at;
    for _ in 0..n {
        end = append_byte(out, end, byte);
    }
    end
}

// How many decimal digits a number has.
fn width(v: u64) -> usize
    ensures { result ≡ length (decimal v) }
{
    let mut rest = v;
    let mut n = 1;
    while 9 < rest {
        rest /= 10;
        n += 1;
    }
    n
}

// A number in decimal, from its last digit to its first.
pub fn append_number(out: &mut [u8], at: usize, v: u64) -> usize
    ensures { Appends (decimal v) at out.old result out.new }
{
    if out.len() <= at {
        return at;
    }
    let room = out.len() - at;
    let n = width(v);
    let mut rest = v;
    for k in (0..n).rev() {
        if k < room {
            out[at + k] = (48 + rest % 10) as u8;
        }
        rest /= 10;
    }
    at + n.min(room)
}

// A number after one space.
pub fn append_after(out: &mut [u8], at: usize, v: u64) -> usize
    ensures { Appends (32 ∷ decimal v) at out.old result out.new }
{
    let a = append_byte(out, at, 32);
    append_number(out, a, v)
}

// A number at the right of a column that is `wide` bytes wide.
pub fn append_right(out: &mut [u8], at: usize, v: u64, wide: usize) -> usize
    ensures { Appends (right_in wide v) at out.old result out.new }
{
    let a = append_times(out, at, 32, wide.saturating_sub(width(v)));
    append_number(out, a, v)
}
