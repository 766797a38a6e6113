// The four shapes of a calendar (document 02, change 9), and the numbers of a row of theirs.

#![tactic(auto)]

ghost use Rattle.std.specs.Prelude.{◌≡◌, ◌+◌, ◌*◌, ◌/◌, ◌%◌, ◌≤◌, ◌<◌};
ghost use Rattle.calendar_shapes.specs.Rule.{arity_in, Right, EntryIs};

// Of a block: the arity, the leaves and the bitmap words.
#[derive(Clone, Copy)]
pub struct Shape {
    pub arity: u64,
    pub leaves: u64,
    pub words: u64,
}

// A shape and its row in the table.
#[derive(Clone, Copy)]
pub struct Entry {
    pub row: u64,
    pub shape: Shape,
}

const SHAPES: [Shape; 4] = [
    Shape {
        arity: 8,
        leaves: 64,
        words: 9,
    },
    Shape {
        arity: 16,
        leaves: 256,
        words: 17,
    },
    Shape {
        arity: 32,
        leaves: 1024,
        words: 33,
    },
    Shape {
        arity: 64,
        leaves: 4096,
        words: 65,
    },
];

// The shape in a row of the table, whatever number stands for the row.
pub fn row(i: u64) -> Shape
    ensures { Right (i % 4) result }
{
    SHAPES[(i % 4) as usize]
}

// The shape of an arity, where the table has it.
pub fn shape_of(arity: u64) -> Option<Entry>
    ensures { EntryIs arity result }
{
    for i in 0..4 {
        let q = row(i);
        if q.arity == arity {
            return Some(Entry { row: i, shape: q });
        }
    }
    None
}

// The exponent of the arity in a row.
pub fn exponent(row: u64) -> u32
    ensures { result ≡ 3 + row % 4 }
{
    3 + (row % 4) as u32
}

// The arity in a row.
pub fn arity(row: u64) -> u32
    ensures { (result ≡ arity_in row) × (result ≤ 64) }
{
    1u32 << exponent(row)
}

// The leaves of a block in a row.
pub fn leaves(row: u64) -> u32
    ensures { (result ≡ arity_in row * arity_in row) × (result ≤ 4096) }
{
    let n = 2 * exponent(row);
    1u32 << n
}

// ---- places under words of the arity in a row: by shifts, since a division by a number that the compiler does not know is slow

// The word above place l.
pub fn above(l: u32, row: u64) -> u32
    ensures { (result ≡ l / arity_in row) × (result ≤ l) }
{
    l >> exponent(row)
}

// The place of child 0 of word j, modulo 2 ^ 32.
pub fn below(j: u32, row: u64) -> u32
    ensures any { result ≡ j * arity_in row % 4294967296 }
    ensures fits { j < 67108864 → (result ≡ j * arity_in row) × (result ≤ j * 64) }
{
    j << exponent(row)
}

// The child of its word that place l is.
pub fn child_of(l: u32, row: u64) -> u32
    ensures { (result ≡ l % arity_in row) × (result < arity_in row) }
{
    l % (1u32 << exponent(row))
}
