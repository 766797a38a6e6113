// The star tariff's program: the file plan.bin and a commit time in, "yes SUM" or "no" out.

#![tactic(auto)]

use std::io;

fn main(rt: HostRuntime) -> io::Result<()> {
    tariff_console::serve(&rt, b"plan.bin")
}
