// Shapes of an SVG picture, each written to a file as a line: the picture's frame, rectangles, rules from left to right.

#![tactic(auto)]

use quote_lines::Line;
use std::io;
use std::io::Write;

// The start of a picture that is 400 high. Lines at whole numbers stay sharp.
pub fn put_start(out: &mut impl Write, wide: u64) -> io::Result<()> {
    writeln!(
        out,
        "<svg xmlns=\"http://www.w3.org/2000/svg\" font-family=\"sans-serif\" font-size=\"12\" fill=\"#333\" shape-rendering=\"crispEdges\""
    )?;
    let mut size = Line::new();
    write!(size, "    width=\"{wide}\" height=\"400\"")?;
    writeln!(size, " viewBox=\"0 0 {wide} 400\">")?;
    size.put(out)
}

// A rectangle, by its upper left corner.
pub fn put_rect(
    out: &mut impl Write,
    x: u64,
    y: u64,
    wide: u64,
    tall: u64,
    fill: &str,
) -> io::Result<()> {
    let mut line = Line::new();
    writeln!(
        line,
        "<rect x=\"{x}\" y=\"{y}\" width=\"{wide}\" height=\"{tall}\" fill=\"{fill}\"/>"
    )?;
    line.put(out)
}

// A rule from left to right; the stroke is its colour, and may bring other attributes along.
pub fn put_rule(
    out: &mut impl Write,
    left: u64,
    right: u64,
    y: u64,
    stroke: &str,
) -> io::Result<()> {
    let mut line = Line::new();
    writeln!(
        line,
        "<path d=\"M{left} {y}H{right}\" stroke=\"{stroke}\"/>"
    )?;
    line.put(out)
}
