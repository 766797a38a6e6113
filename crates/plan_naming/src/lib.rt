// A station's name: where it stands in the bytes of a plan, and the name itself as a part of them.

#![tactic(auto)]

ghost use Rattle.plan_naming.specs.Promises.{ShowsName};

use refusal::Refusal;

// Where a name stands in a plan, and the name itself, a part of the plan's bytes.
#[derive(Clone, Copy)]
pub struct Named<'a> {
    pub at: usize,
    pub part: &'a [u8],
}

// The name of a station, in the caller's bytes.
pub fn name<'a>(plan: &'a [u8], station: u64) -> Result<Named<'a>, Refusal>
    ensures { ShowsName plan.entry station result }
{
    let n = plan_reading::judge(plan)?;
    if n as u64 <= station {
        return Err(Refusal::Station);
    }
    let k = station as u16;
    let at = plan_format::offset_of(plan, k) + 26;
    let len = plan_format::length_of(plan, k) - 26;
    let part = &plan[at..at + len];
    Ok(Named { at, part })
}
