// The bench, on plans of every kind: those that are refused print their number, the last two nothing.

#![tactic(auto)]

use std::io;

fn main(rt: HostRuntime) -> io::Result<()> {
    bench_console::serve(&rt, b"missing.bin")?;
    bench_console::serve(&rt, b"empty.bin")?;
    bench_console::serve(&rt, b"one_byte.bin")?;
    bench_console::serve(&rt, b"no_stations.bin")?;
    bench_console::serve(&rt, b"too_many.bin")?;
    bench_console::serve(&rt, b"no_pairs.bin")?;
    bench_console::serve(&rt, b"offset.bin")?;
    bench_console::serve(&rt, b"second_offset.bin")?;
    bench_console::serve(&rt, b"length_25.bin")?;
    bench_console::serve(&rt, b"length_43.bin")?;
    bench_console::serve(&rt, b"cut.bin")?;
    bench_console::serve(&rt, b"trailing.bin")?;
    bench_console::serve(&rt, b"parent.bin")?;
    bench_console::serve(&rt, b"own_parent.bin")?;
    bench_console::serve(&rt, b"calm_0.bin")?;
    bench_console::serve(&rt, b"hop_0.bin")?;
    bench_console::serve(&rt, b"noise.bin")?;
    bench_console::serve(&rt, b"seed_0.bin")?;
    bench_console::serve(&rt, b"name.bin")?;
    bench_console::serve(&rt, b"stations_33.bin")?;
    bench_console::serve(&rt, b"stations_256.bin")?;
    bench_console::serve(&rt, b"stations_32.bin")?;
    bench_console::serve(&rt, b"named.bin")
}
