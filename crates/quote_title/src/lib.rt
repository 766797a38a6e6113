// The title of a quote's picture: the collector's name and its frames a day.

#![tactic(auto)]

use quote_lines::Line;
use quote_numbers::Tenths;
use std::io;
use std::io::Write;

// A text in SVG, byte by byte, since a plan's bytes may be no UTF-8: three bytes mean something else there.
fn put_escaped(line: &mut Line, text: &[u8]) -> io::Result<()> {
    for byte in text {
        match *byte {
            b'&' => line.write_all(b"&amp;")?,
            b'<' => line.write_all(b"&lt;")?,
            b'>' => line.write_all(b"&gt;")?,
            b => line.write_all(&[b])?,
        }
    }
    Ok(())
}

// The collector's name, as far as the plan has its bytes, or what it is where its record has none.
fn name_of(plan: &[u8]) -> &[u8] {
    let offset = plan_format::offset_of(plan, 0);
    let first = offset + 26;
    let end = offset + plan_format::length_of(plan, 0);
    if end <= first {
        return b"collector";
    }
    plan.get(first..end.min(plan.len())).unwrap_or(&[])
}

// The title, with the frames a day in tenths.
pub fn put(out: &mut impl Write, plan: &[u8], tenths: u64) -> io::Result<()> {
    let mut line = Line::new();
    write!(
        line,
        "<text x=\"90\" y=\"24\" font-size=\"17\" font-weight=\"bold\">"
    )?;
    put_escaped(&mut line, name_of(plan))?;
    let mean = Tenths(tenths);
    writeln!(line, ": {mean} frames a day</text>")?;
    line.put(out)
}
