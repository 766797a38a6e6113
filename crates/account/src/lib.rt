// The battery account: what the readings and frames of a committed log cost each station, on one lent buffer.
//
// A call first judges, by reading alone, and then changes: so a refusal leaves the buffer as it was. Each takes any bytes.

#![tactic(auto)]

ghost use Rattle.std.specs.Prelude.{◌≡◌, ◌≤◌, length, replicate};
ghost use Rattle.refusal.specs.Tests.{account_bytes, account_space_out};
ghost use Rattle.account.specs.Promises.{OpensAccount, ReadsPart, ReadsCharge};
ghost use Rattle.account.specs.Steps.{Costs, CostsFit, CostsAdded, PartJudged, CostsStored, ChargesCleared};

use refusal::Refusal;

// Does 7 refuse n stations in a buffer of so many bytes?
fn space_out(n: u64, bytes: usize) -> bool
    ensures { result ≡ account_space_out n bytes }
{
    n < 1 || 256 < n || bytes < 8 + 8 * n as usize
}

// Adds what a part's entries cost at each of n stations. Gives 20 where a charge would pass 64 bits.
fn add_costs(
    b: &[u8],
    part: &[u8],
    reading: u32,
    frame: u32,
    n: usize,
    costs: &mut [u64; 256],
) -> Result<(), Refusal>
    requires { (n ≤ 256) × (costs.old ≡ replicate 256 0) }
    ensures { CostsAdded reading frame n part.now b.now result costs.new }
{
    for k in 0..part.len() / 24 {
        let s = words::load::<u16>(part, 24 * k + 16) as usize;
        let c = account_parts::cost(words::load::<u32>(part, 24 * k + 20), reading, frame);
        if s < n {
            let cost = costs[s];
            if 18446744073709551615 - c < words::load::<u64>(b, 8 + 8 * s) + cost {
                return Err(Refusal::Charge);
            }
            costs[s] = cost + c;
        }
    }
    Ok(())
}

// Which of 7, 19 and 20 refuses a part; where none does, what it costs at each station.
fn judge_part(b: &[u8], n: u64, part: &[u8], costs: &mut [u64; 256]) -> Result<(), Refusal>
    requires { costs.old ≡ replicate 256 0 }
    ensures { PartJudged n part.now b.now result costs.new }
{
    if space_out(n, b.len()) {
        return Err(Refusal::Space);
    }
    if account_parts::part_out(part, n as u16) {
        return Err(Refusal::Part);
    }
    let reading = words::load::<u32>(b, 0);
    let frame = words::load::<u32>(b, 4);
    add_costs(b, part, reading, frame, n as usize, costs)
}

// Charges the stations that a part's entries name with their costs, each once.
fn store_costs(b: &mut [u8], part: &[u8], n: usize, costs: &mut [u64; 256])
    requires { (account_bytes n ≤ length b.old) × ((n ≤ 256) × (Costs costs.old × CostsFit n costs.old b.old)) }
    ensures { CostsStored n part.now costs.old b.old b.new }
{
    for i in 0..part.len() / 24 {
        let target = words::load::<u16>(part, 24 * i + 16) as usize;
        if target < n {
            let charge = words::load::<u64>(b, 8 + 8 * target) + costs[target];
            words::store::<u64>(b, 8 + 8 * target, charge);
            costs[target] = 0;
        }
    }
}

// The charges of n stations are set to 0.
fn clear_charges(b: &mut [u8], n: usize)
    requires { (account_bytes n ≤ length b.old) × (n ≤ 256) }
    ensures { ChargesCleared n n b.old b.new }
{
    b[8..8 + 8 * n].fill(0);
}

// An account of n stations with nothing charged: what a reading costs, and a frame.
pub fn open(n: u64, reading: u32, frame: u32, b: &mut [u8]) -> Result<(), Refusal>
    ensures { OpensAccount n reading frame b.old result b.new }
{
    if space_out(n, b.len()) {
        return Err(Refusal::Space);
    }
    words::store::<u32>(b, 0, reading);
    words::store::<u32>(b, 4, frame);
    clear_charges(b, n as usize);
    Ok(())
}

// A part of a committed log is charged, whole or not at all.
pub fn read(b: &mut [u8], n: u64, part: &[u8]) -> Result<(), Refusal>
    ensures { ReadsPart n part.now b.old result b.new }
{
    let mut costs = [0u64; 256];
    judge_part(b, n, part, &mut costs)?;
    store_costs(b, part, n as usize, &mut costs);
    Ok(())
}

// The charge of a station.
pub fn charge(b: &[u8], n: u64, station: u64) -> Result<u64, Refusal>
    ensures { ReadsCharge n station b.now result }
{
    if space_out(n, b.len()) {
        return Err(Refusal::Space);
    }
    if n <= station {
        return Err(Refusal::Station);
    }
    Ok(words::load::<u64>(b, 8 + 8 * station as usize))
}
