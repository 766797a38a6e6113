// The bench, on a long drawn list: noise and losses, levels that shorten the interval, late posts and retracts that undo through several hops, ties.

#![tactic(auto)]

use std::io;

fn main(rt: HostRuntime) -> io::Result<()> {
    bench_console::serve(&rt, b"plan.bin")
}
