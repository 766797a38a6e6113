// Post and retract: an event from outside is added, or leaves again.
//
// A call first judges, by reading alone, and then changes: so a refusal leaves the buffer as it was. Each takes any bytes; a buffer that is too short for the
// numbers of its own header, which no opening leaves so, is refused with 7.

#![tactic(auto)]

ghost use Rattle.std.specs.Prelude.{◌≡◌, ◌≤◌};
ghost use Rattle.rules.specs.Engine.Call.{Post, Retract};
ghost use Rattle.engine_promises.specs.Answers.{post_said, retract_said};
ghost use Rattle.engine_promises.specs.Promises.{Answered};
ghost use Rattle.engine_promises.specs.Steps.{Full};
ghost use Rattle.engine_posting.specs.Steps.{is_post_at, FindsPost, JudgesPost, AddsPost, JudgesRetract};

use engine_answers::PostAnswer;
use line::Event;
use refusal::{HORIZON, Refusal};

// ---- post

// Is no place free?
fn full(b: &[u8], n: u16, c: u16) -> bool
    ensures { Full n c b.now result }
{
    engine_ends::first_free(b, n, c) == 0
}

// What judging a post finds: its event, with the line's numbers of stations and slots.
#[derive(Clone, Copy)]
struct NewPost {
    n: u16,
    c: u16,
    event: Event,
}

// The post is judged. The event's source is a post, and its number the next.
fn judge_post(b: &[u8], station: u64, time: u64, kind: u64, value: u64) -> Result<NewPost, Refusal>
    ensures { JudgesPost station time kind value b.now result }
{
    let n = engine_promises::stations(b);
    let c = engine_promises::capacity(b);
    if !engine_events::fits(b, n, c) {
        return Err(Refusal::Space);
    }
    if n as u64 <= station {
        return Err(Refusal::Station);
    }
    let matter = line::matter_of(n, kind, value)?;
    if HORIZON < time {
        return Err(Refusal::Late);
    }
    if time < engine_rows::header(b, engine_rows::COMMIT_TIME) {
        return Err(Refusal::Early);
    }
    let number = engine_rows::header(b, engine_rows::NEXT_POST);
    if 4294967295 < number {
        return Err(Refusal::Count);
    }
    if full(b, n, c) {
        return Err(Refusal::Full);
    }
    let event = Event {
        time,
        target: station as u16,
        source: line::POSTED,
        number: number as u32,
        matter,
    };
    Ok(NewPost { n, c, event })
}

// The event of an accepted post is added, and the next post has the next number. Answers how many events are undone.
fn add_post(b: &mut [u8], n: u16, c: u16, e: Event) -> u64
    ensures { AddsPost n c e b.old result b.new }
{
    let added = engine_rollback::add(b, n, c, e);
    engine_rows::set_header(b, engine_rows::NEXT_POST, e.number as u64 + 1);
    added.undone
}

// An unrun event is added.
pub fn post(
    b: &mut [u8],
    station: u64,
    time: u64,
    kind: u64,
    value: u64,
) -> Result<PostAnswer, Refusal>
    ensures { Answered (Post station time kind value) (post_said result) b.old b.new }
{
    let NewPost { n, c, event } = judge_post(b, station, time, kind, value)?;
    let undone = add_post(b, n, c, event);
    let number = event.number as u64;
    Ok(PostAnswer { number, undone })
}

// ---- retract

// Does the slot hold the post with that number?
fn is_post(b: &[u8], n: u16, i: u16, number: u64) -> bool
    ensures { result ≡ is_post_at b.now n i number }
{
    if engine_rows::number(b, n, i, engine_rows::STATUS) == engine_rows::FREE {
        return false;
    }
    let e = engine_rows::event(b, n, i);
    if e.source == line::POSTED {
        return e.number as u64 == number;
    }
    false
}

// The node of the held post with that number.
fn find_post(b: &[u8], n: u16, c: u16, number: u64) -> Option<u16>
    requires { (n ≤ 256) × (c ≤ 4096) }
    ensures { FindsPost n c number b.now result }
{
    for i in 0..c {
        if is_post(b, n, i, number) {
            return Some(engine_index::node_of(n, i));
        }
    }
    None
}

// What judging a retract finds: the node of the post, with the line's numbers of stations and slots.
#[derive(Clone, Copy)]
struct HeldPost {
    n: u16,
    c: u16,
    node: u16,
}

// The retract is judged.
fn judge_retract(b: &[u8], number: u64) -> Result<HeldPost, Refusal>
    ensures { JudgesRetract number b.now result }
{
    let n = engine_promises::stations(b);
    let c = engine_promises::capacity(b);
    if !engine_events::fits(b, n, c) {
        return Err(Refusal::Space);
    }
    let node = find_post(b, n, c, number).ok_or(Refusal::Post)?;
    Ok(HeldPost { n, c, node })
}

// The held post with that number is removed.
pub fn retract(b: &mut [u8], number: u64) -> Result<u64, Refusal>
    ensures { Answered (Retract number) (retract_said result) b.old b.new }
{
    let HeldPost { n, c, node } = judge_retract(b, number)?;
    Ok(engine_rollback::remove(b, n, c, node))
}
