// A quote is set up: the plan is opened with room for 4096 events, and what the scenario's lines ask is posted.

#![tactic(auto)]

ghost use Rattle.std.specs.Prelude.{◌≡◌, ◌≤◌};
ghost use Rattle.quote_setup.specs.Promises.{SetsUp};
ghost use Rattle.quote_setup.specs.declared.SetUpError.TheVariants.{Line};
ghost use Rattle.quote_setup.specs.Steps.{ReadsEach, ReadsUnasked, PostsAll};

use refusal::Refusal;
use scenario_posting::LineRefused;

// Why a quote isn't set up: the opening's refusal; or the line of the scenario that is no order or whose post is refused; or the refusal of a reading at 0,
// where no line asks for one.
#[derive(Clone, Copy)]
pub enum SetUpError {
    Plan(Refusal),
    Line(LineRefused),
    Reading(Refusal),
}

impl From<LineRefused> for SetUpError {
    ghost from_gives = { λ l e. e ≡ Line l };

    fn from(l: LineRefused) -> SetUpError {
        SetUpError::Line(l)
    }
}

// ---- the calendar's leaf width

// The longest period of the first n stations.
fn longest(plan: &[u8], n: u16) -> u32 {
    let mut most: u32 = 1;
    for s in 0..n {
        let c = plan_format::config_at(plan, s);
        most = most.max(c.calm).max(c.spring);
    }
    most
}

// The ring of 4096 leaves reaches over two of the longest periods, as far as a width is accepted. It changes no answer, only how fast they are found.
fn leaf_width(plan: &[u8]) -> u64
    ensures { (1 ≤ result) × (result ≤ 1048576) }
{
    let n = words::load::<u16>(plan, 0);
    let w = longest(plan, n) as u64 / 2048 + 1;
    w.min(1048576)
}

// ---- readings at 0

// A reading at 0 for each station from 1 on that is below n.
fn read_each(b: &mut [u8], n: u64) -> Result<(), Refusal>
    ensures { ReadsEach n b.old result b.new }
{
    for s in 1..n {
        engine::post(b, s, 0, 1, 0)?;
    }
    Ok(())
}

// ---- set up

// Where no line asked for a reading, each station but 0 reads at 0.
fn read_unasked(b: &mut [u8], n: u64, read: bool) -> Result<(), Refusal>
    ensures { ReadsUnasked n read b.old result b.new }
{
    if read {
        return Ok(());
    }
    read_each(b, n)
}

// The scenario is posted to an engine of n stations: for how many days.
fn post_all(b: &mut [u8], text: &[u8], n: u64) -> Result<u64, SetUpError>
    ensures { PostsAll text.now n b.old result b.new }
{
    let asked = scenario_posting::take_lines(b, text)?;
    match read_unasked(b, n, asked.read) {
        Ok(()) => Ok(asked.days),
        Err(e) => Err(SetUpError::Reading(e)),
    }
}

// The plan is opened, and the scenario posted: ready to be run for so many days.
pub fn set_up(plan: &[u8], text: &[u8], b: &mut [u8]) -> Result<u64, SetUpError>
    ensures { SetsUp plan.now text.now b.old result b.new }
{
    match engine::open(plan, 16, leaf_width(plan), 4096, b) {
        Ok(()) => {
            let stations = words::load::<u16>(plan, 0);
            post_all(b, text, stations as u64)
        }
        Err(e) => Err(SetUpError::Plan(e)),
    }
}
