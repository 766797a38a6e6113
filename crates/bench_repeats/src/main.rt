// The bench, on frames that are repeated and given up: heard after two losses, posted with repeats made, taken back, with no place free.

#![tactic(auto)]

use std::io;

fn main(rt: HostRuntime) -> io::Result<()> {
    bench_console::serve(&rt, b"plan.bin")
}
