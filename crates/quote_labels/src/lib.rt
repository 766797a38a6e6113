// Texts of an SVG picture, each written to a file as a line.

#![tactic(auto)]

use quote_lines::Line;
use std::fmt::Display;
use std::io;
use std::io::Write;

// A text at a place, which is its start, its middle or its end by the anchor.
pub fn put(
    out: &mut impl Write,
    x: u64,
    y: u64,
    anchor: &str,
    text: impl Display + Drop,
) -> io::Result<()> {
    let mut line = Line::new();
    writeln!(
        line,
        "<text x=\"{x}\" y=\"{y}\" text-anchor=\"{anchor}\">{text}</text>"
    )?;
    line.put(out)
}
