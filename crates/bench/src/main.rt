// The bench program: plan.bin and command lines in, answers out.

#![tactic(auto)]

use std::io;

fn main(rt: HostRuntime) -> io::Result<()> {
    bench_console::serve(&rt, b"plan.bin")
}
