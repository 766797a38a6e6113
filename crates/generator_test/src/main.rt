// Writes the first two draws from the seed 1, and the ten thousandth, which Park and Miller publish as the check of an implementation.
// Then the table of docs/GENERATOR.md: draws worked out by Schrage's cases, and draws by the formula.

#![tactic(auto)]

use std::io;

// The draw after n draws from x.
fn after(n: u32, x: u32) -> u32 {
    (0..n).fold(x, |d, _| generator::drawn(d))
}

// A row by Schrage's cases, as on a pocket calculator: the seed, its quotient and remainder by 127773, both products, their
// difference, and the draw that the generator makes.
fn worked(rt: &impl Print, seed: u32) -> io::Result<()> {
    let quotient = seed / 127773;
    let remainder = seed % 127773;
    let low = 16807 * i64::from(remainder);
    let high = 2836 * i64::from(quotient);
    let difference = low - high;
    let draw = generator::drawn(seed);
    println!(rt; "{seed} {quotient} {remainder} {low} {high} {difference} {draw}")
}

fn main(rt: HostRuntime) -> io::Result<()> {
    for n in [1, 2, 10000] {
        println!(rt; "{}", after(n, 1))?;
    }
    for seed in [
        1, 16807, 127772, 127773, 739806647, 1407677000, 2147480811, 2147483646,
    ] {
        worked(&rt, seed)?;
    }
    // By the formula: the number and the draw.
    for x in [0, 2147483647, 2147483648, 4294967295] {
        println!(rt; "{x} {}", generator::drawn(x))?;
    }
    Ok(())
}
