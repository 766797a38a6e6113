// The plan's writer: a list of station records is judged in a first pass, and written into lent bytes in a second.

#![tactic(auto)]

ghost use Rattle.std.specs.Prelude.{◌≡◌, ◌++◌, cond, true, false, ◌+◌, ◌*◌, ◌<◌, ◌≤◌, length, take};
ghost use Rattle.std.proofs.lemmas.List.Edits.{sets};
ghost use Rattle.words.specs.Le.{bytes_of};
ghost use Rattle.plan_format.specs.Typed.{AreSized};
ghost use Rattle.plan_format.specs.Writing.{size_of, record_bytes};
ghost use Rattle.plan_writing.specs.Promises.{WritesPlan};
ghost use Rattle.plan_writing.specs.Steps.{lower, name_bytes, moved, ready, roomy, headed, placed, stepped, drafted, pen_of, wanted, answered, head_bytes, tail_bytes};

use line::Config;
use plan_format::Station;
use refusal::Refusal;

// Where a pass over n stations stands: the next station k, where its record begins, and the lowest station below k with a number or a name
// out of range, or k.
// Kept: `writing` is a flag, since a closure for the step would take the output through the judging pass as well, and be no plainer.
#[derive(Clone, Copy)]
struct Pen {
    n: usize,
    k: usize,
    at: usize,
    field: usize,
    name: usize,
    writing: bool,
}

// ---- the pen

fn pen_of(n: usize, writing: bool) -> Pen
    requires { n ≤ 256 }
    ensures { result ≡ pen_of n writing }
{
    Pen {
        n,
        k: 0,
        at: 2 + 8 * n,
        field: 0,
        name: 0,
        writing,
    }
}

fn lowest_of(low: usize, k: usize, bad: bool) -> usize
    requires { k < 256 }
    ensures { result ≡ lower low k bad }
{
    if low < k {
        return low;
    }
    if bad {
        return k;
    }
    k + 1
}

fn counted_of(len: usize) -> usize
    ensures { result ≡ name_bytes len }
{
    len.min(16)
}

#[tactic(auto, unfolding(crate::specs::Steps::moved))]
fn move_on(s: Station, p: Pen) -> Pen
    requires { (p.k < 256) × (p.at < 65536) }
    ensures { result ≡ moved s p }
{
    let k = p.k;
    let c = s.config;
    let field = lowest_of(p.field, k, plan_format::number_out(k as u16, c));
    let name = lowest_of(p.name, k, plan_format::name_out(s));
    Pen {
        n: p.n,
        k: k + 1,
        at: p.at + 26 + counted_of(s.len),
        field,
        name,
        writing: p.writing,
    }
}

fn is_ready(p: Pen) -> bool
    ensures { result ≡ ready p }
{
    p.k < p.n && p.n <= 256 && p.at < 65536
}

// ---- one station's bytes

fn put_name(out: &mut [u8], at: usize, name: [u8; 16], n: usize)
    requires { (at + n ≤ length out.old) × (n ≤ 16) }
    ensures { out.new ≡ sets out.old at (take n name) }
{
    out[at..at + n].copy_from_slice(&name[..n]);
}

// The first four numbers of a record, and the other three.
fn put_head(out: &mut [u8], at: usize, c: Config)
    requires { at + 14 ≤ length out.old }
    ensures { out.new ≡ sets out.old at (head_bytes c) }
{
    words::store::<u16>(&mut *out, at, c.parent);
    words::store::<u32>(&mut *out, at + 2, c.calm);
    words::store::<u32>(&mut *out, at + 6, c.spring);
    words::store::<u32>(&mut *out, at + 10, c.threshold);
}

fn put_tail(out: &mut [u8], at: usize, c: Config)
    requires { at + 12 ≤ length out.old }
    ensures { out.new ≡ sets out.old at (tail_bytes c) }
{
    words::store::<u32>(&mut *out, at, c.hop);
    words::store::<u32>(&mut *out, at + 4, c.noise);
    words::store::<u32>(&mut *out, at + 8, c.seed);
}

fn put_record(out: &mut [u8], at: usize, s: Station)
    requires { (at + size_of s ≤ length out.old) × (s.len ≤ 16) }
    ensures { out.new ≡ sets out.old at (record_bytes s) }
{
    let c = s.config;
    let name = s.name;
    let len = s.len;
    put_head(&mut *out, at, c);
    put_tail(&mut *out, at + 14, c);
    put_name(&mut *out, at + 26, name, len);
}

fn put_pair(out: &mut [u8], k: usize, at: usize, size: usize)
    requires { (10 + 8 * k ≤ length out.old) × ((at < 65536) × (size < 65536)) }
    ensures { out.new ≡ sets out.old (2 + 8 * k) (bytes_of 4 at ++ bytes_of 4 size) }
{
    words::store::<u32>(&mut *out, 2 + 8 * k, at as u32);
    words::store::<u32>(&mut *out, 6 + 8 * k, size as u32);
}

// The count of stations, before the first of them.
fn put_count(out: &mut [u8], p: Pen)
    requires { (p.n ≤ 256) × (2 ≤ length out.old) }
    ensures { out.new ≡ headed p out.old }
{
    let n = p.n;
    if p.k == 0 {
        words::store::<u16>(&mut *out, 0, n as u16);
    }
}

fn has_room(s: Station, p: Pen, room: usize) -> bool
    requires { (p.k < 256) × (p.at < 65536) }
    ensures { result ≡ roomy s p room }
{
    p.writing && s.len <= 16 && 10 + 8 * p.k <= room && p.at + (26 + s.len) <= room
}

#[tactic(auto, unfolding(crate::specs::Steps::placed))]
fn put_station(out: &mut [u8], s: Station, p: Pen)
    requires { (p.k < p.n) × ((p.n ≤ 256) × (p.at < 65536)) }
    ensures { out.new ≡ cond (roomy s p (length out.old)) (placed s p out.old) out.old }
{
    let at = p.at;
    if has_room(s, p, out.len()) {
        put_count(&mut *out, p);
        put_pair(&mut *out, p.k, at, 26 + s.len);
        put_record(&mut *out, at, s);
    }
}

// One station of a pass.
#[tactic(auto, unfolding(crate::specs::Steps::stepped))]
fn pen_step(out: &mut [u8], s: Station, p: Pen) -> Pen
    ensures { stepped s (record { pen = p; out = out.old }) ≡ record { pen = result; out = out.new } }
{
    if is_ready(p) {
        put_station(&mut *out, s, p);
        return move_on(s, p);
    }
    p
}

// ---- between the passes

fn wanted_of(n: u64, len: usize) -> usize
    ensures { result ≡ wanted n len }
{
    if n < 1 || 256 < n || len < n as usize {
        return 0;
    }
    n as usize
}

// The pen of the first pass, which writes nothing.
fn first_pen(n: u64, len: usize) -> Pen
    ensures { result ≡ pen_of (wanted n len) false }
{
    pen_of(wanted_of(n, len), false)
}

// What the first pass found, with so much room.
#[tactic(auto, unfolding(crate::specs::Steps::answered))]
fn answer(p: Pen, room: usize) -> Result<usize, Refusal>
    requires { p.n ≤ 256 }
    ensures { result ≡ answered p room }
{
    if p.n < 1 {
        return Err(Refusal::Shape);
    }
    if p.field < p.n {
        return Err(Refusal::Field(p.field as u16));
    }
    if p.name < p.n {
        return Err(Refusal::Name(p.name as u16));
    }
    if room < p.at {
        return Err(Refusal::Output);
    }
    Ok(p.at)
}

// ---- the lent list

// Nothing is done: what the type of a list says of each of its records. Proved by a walk of its MIR, by hand.
fn known(list: &[Station])
    ensures { AreSized list.now }
{}

// A pass over the first stations of a list, as many as the pen says.
fn each(list: &[Station], out: &mut [u8], w: Pen) -> Pen
    requires { w.n ≤ length list.now }
    ensures { drafted list.now w.n (record { pen = w; out = out.old }) ≡ record { pen = result; out = out.new } }
{
    let mut p = w;
    for s in &list[..w.n] {
        p = pen_step(&mut *out, *s, p);
    }
    p
}

// Writes the plan of the first n stations into the lent bytes, and answers its length. The bytes after the plan stay, and a refusal changes
// nothing.
// Kept: n stands beside the list, since number 1 is promised where it is more than the list has (`count_out`).
pub fn write(stations: &[Station], n: u64, out: &mut [u8]) -> Result<usize, Refusal>
    ensures { WritesPlan stations.now n out.old result out.new }
{
    known(stations);
    let p = first_pen(n, stations.len());
    let q = each(stations, &mut *out, p);
    let len = answer(q, out.len())?;
    each(stations, &mut *out, pen_of(q.n, true));
    Ok(len)
}
