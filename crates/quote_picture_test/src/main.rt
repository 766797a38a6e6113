// Pictures and reports of made-up hours: of 1 to 366 days, of a collector without a name and of one whose name has the bytes that SVG escapes, and of nothing.

#![tactic(auto)]

use std::io;

// Each hour hears 3 to 393, and each seventh loses up to 22 frames.
fn fill(hours: &mut [u32; 17568]) {
    let mut heard = 0;
    let mut lost = 0;
    for h in 0..8784 {
        let n = h as u32;
        heard += 13 * (n % 31) + 3;
        if n % 7 == 0 {
            lost += n % 23;
        }
        hours[2 * h] = heard;
        hours[2 * h + 1] = lost;
    }
}

fn draw(rt: &impl Print, plan: &[u8], days: u16, hours: &[u32]) -> io::Result<()> {
    let heard = quote_numbers::between(hours, quote_numbers::HEARD, 0, 24 * u32::from(days));
    quote_days::put(rt, hours, days, heard)?;
    quote_picture::write(&mut io::writer(rt), plan, days, hours)
}

fn main(rt: HostRuntime) -> io::Result<()> {
    let mut plan = [0u8; 64];
    let mut hours = [0u32; 17568];
    let n = console::read_plan(&rt, b"nameless.bin", &mut plan);
    draw(&rt, &plan[..n], 9, &hours)?;
    fill(&mut hours);
    draw(&rt, &plan[..n], 2, &hours)?;
    let m = console::read_plan(&rt, b"named.bin", &mut plan);
    for days in [1, 31, 32, 366] {
        draw(&rt, &plan[..m], days, &hours)?;
    }
    Ok(())
}
