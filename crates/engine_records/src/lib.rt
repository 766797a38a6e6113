// A state and a station's numbers as bytes, at any byte of a lent buffer.
//
// A state takes 32 bytes, little-endian: draw, level, heard, lost and sent of 4 each, from byte 20 on the time of the last frame heard, of 8, and from
// byte 28 on whether there has been one, of 4: 1 for yes, 0 for no. A station's numbers take 28: the parent of 2, two that are free, then calm, spring,
// threshold, hop, noise and seed of 4 each.

#![tactic(auto)]

ghost use Rattle.std.specs.Prelude.{◌≡◌};
ghost use Rattle.engine_records.specs.Records.{state_at, put_state, stored_config, put_config};

use line::{Config, State};

pub fn read_state(b: &[u8], at: u32) -> State
    ensures { result ≡ state_at at b.now }
{
    let from = at as usize;
    State {
        draw: words::load::<u32>(b, from),
        level: words::load::<u32>(b, from + 4),
        heard: words::load::<u32>(b, from + 8),
        lost: words::load::<u32>(b, from + 12),
        sent: words::load::<u32>(b, from + 16),
        last: words::load::<u64>(b, from + 20),
        reached: words::load::<u32>(b, from + 28) != 0,
    }
}

pub fn write_state(b: &mut [u8], at: u32, s: State)
    ensures { b.new ≡ put_state at s b.old }
{
    let from = at as usize;
    words::store::<u32>(b, from, s.draw);
    words::store::<u32>(b, from + 4, s.level);
    words::store::<u32>(b, from + 8, s.heard);
    words::store::<u32>(b, from + 12, s.lost);
    words::store::<u32>(b, from + 16, s.sent);
    words::store::<u64>(b, from + 20, s.last);
    words::store::<u32>(b, from + 28, s.reached as u32);
}

// A station's numbers of the plan.
pub fn read_config(b: &[u8], at: u32) -> Config
    ensures { result ≡ stored_config at b.now }
{
    let from = at as usize;
    Config {
        parent: words::load::<u16>(b, from),
        calm: words::load::<u32>(b, from + 4),
        spring: words::load::<u32>(b, from + 8),
        threshold: words::load::<u32>(b, from + 12),
        hop: words::load::<u32>(b, from + 16),
        noise: words::load::<u32>(b, from + 20),
        seed: words::load::<u32>(b, from + 24),
    }
}

pub fn write_config(b: &mut [u8], at: u32, c: Config)
    ensures { b.new ≡ put_config at c b.old }
{
    let from = at as usize;
    words::store::<u16>(b, from, c.parent);
    words::store::<u32>(b, from + 4, c.calm);
    words::store::<u32>(b, from + 8, c.spring);
    words::store::<u32>(b, from + 12, c.threshold);
    words::store::<u32>(b, from + 16, c.hop);
    words::store::<u32>(b, from + 20, c.noise);
    words::store::<u32>(b, from + 24, c.seed);
}
