// The engine's opening: a plan's line, on one lent buffer.
//
// A call first judges, by reading alone, and then changes: so a refusal leaves the buffer as it was. Each takes any bytes; a buffer that is too short for the
// numbers of its own header, which no opening leaves so, is refused with 7.

#![tactic(auto)]

ghost use Rattle.std.specs.Prelude.{◌≡◌, ◌≤◌, Ok, Err};
ghost use Rattle.refusal.specs.Cases.{first_of};
ghost use Rattle.engine_promises.specs.Promises.{choice_cases, Opens};
ghost use Rattle.engine_opening.specs.Steps.{StationsBegun};

use refusal::Refusal;

// Stations 0 to n - 1 get the plan's numbers and their first states.
fn begin_stations(plan: &[u8], b: &mut [u8], n: u16)
    requires { n ≤ 256 }
    ensures { StationsBegun plan.now n b.old b.new }
{
    for s in 0..n {
        let g = plan::config_at(plan, s);
        engine_rows::set_config(b, n, s, g);
        engine_rows::set_state(b, n, s, line::first_state(g));
    }
}

// Which of 26, 6 and 7 refuses an opening of n stations with these numbers, in a buffer of so many bytes.
fn judge_choice(
    n: usize,
    arity: u64,
    width: u64,
    capacity: u64,
    bytes: usize,
) -> Result<(), Refusal>
    requires { n ≤ 256 }
    ensures { result ≡ first_of Err (choice_cases n arity width capacity bytes) (Ok tt) }
{
    let Some(entry) = calendar_shapes::shape_of(arity) else {
        return Err(Refusal::Arity);
    };
    let shape = entry.shape;
    if width < 1 {
        return Err(Refusal::Width);
    }
    if 1048576 < width {
        return Err(Refusal::Width);
    }
    if capacity < 2 {
        return Err(Refusal::Space);
    }
    if 4096 < capacity {
        return Err(Refusal::Space);
    }
    if bytes < 128 * shape.leaves as usize + 256 * n + 256 * capacity as usize {
        return Err(Refusal::Space);
    }
    Ok(())
}

// The plan's line starts at time 0, with no event held.
pub fn open(plan: &[u8], arity: u64, width: u64, capacity: u64, b: &mut [u8]) -> Result<(), Refusal>
    ensures { Opens plan.now arity width capacity b.old result b.new }
{
    let n = plan::judge(plan)?;
    judge_choice(n, arity, width, capacity, b.len())?;
    let m = n as u16;
    begin_stations(plan, b, m);
    engine_rows::set_header(b, engine_rows::STATIONS, n as u64);
    engine_rows::set_header(b, engine_rows::CAPACITY, capacity);
    engine_rows::set_header(b, engine_rows::COMMIT_TIME, 0);
    engine_rows::set_header(b, engine_rows::NEXT_POST, 0);
    engine_moves::clear(b, m, capacity as u16, arity, width);
    Ok(())
}
