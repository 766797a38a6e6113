// An event's entry: the 24 bytes that a commit writes of it, at any byte of a lent buffer.

#![tactic(auto)]

ghost use Rattle.std.specs.Prelude.{◌≡◌};
ghost use Rattle.entry.specs.Entry.{event_at, put_event, matter_or};

use line::{Event, Matter};

// The matter of a kind and a value, a frame's of the lower two bytes; a reading where there is no such kind.
fn matter(kind: u32, value: u32) -> Matter
    ensures { result ≡ matter_or kind value }
{
    match kind {
        2 => Matter::Frame((value % 256) as u16, (value / 256 % 256) as u8),
        3 => Matter::Level(value),
        _ => Matter::Read,
    }
}

// The event that stands at a byte; a byte after the last is 0.
pub fn read(b: &[u8], at: u32) -> Event
    ensures { result ≡ event_at at b.now }
{
    let from = at as usize;
    Event {
        time: words::load::<u64>(b, from),
        target: words::load::<u16>(b, from + 16),
        source: words::load::<u16>(b, from + 18),
        number: words::load::<u32>(b, from + 8),
        matter: matter(
            words::load::<u32>(b, from + 20),
            words::load::<u32>(b, from + 12),
        ),
    }
}

// An event is put at a byte, as far as the buffer goes.
pub fn write(b: &mut [u8], at: u32, e: Event)
    ensures { b.new ≡ put_event at e b.old }
{
    let from = at as usize;
    let m = e.matter;
    words::store::<u64>(b, from, e.time);
    words::store::<u32>(b, from + 8, e.number);
    words::store::<u32>(b, from + 12, line::value_of(m));
    words::store::<u16>(b, from + 16, e.target);
    words::store::<u16>(b, from + 18, e.source);
    words::store::<u32>(b, from + 20, line::kind_of(m));
}
