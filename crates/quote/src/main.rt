// The quote: plan.bin and a scenario on the standard input, in; the table, the bars and the figure out, and quote.svg.

#![tactic(auto)]

use std::io;

fn main(rt: HostRuntime) -> io::Result<()> {
    quote_console::serve(
        &rt,
        b"plan.bin",
        &mut rt.stdin(),
        b"quote.svg",
        &mut rt.stderr(),
    )
}
