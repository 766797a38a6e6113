// The bench, on a list that meets the refusals, the edges of the command lines, and ties, one of them with no place free.

#![tactic(auto)]

use std::io;

fn main(rt: HostRuntime) -> io::Result<()> {
    bench_console::serve(&rt, b"plan.bin")
}
