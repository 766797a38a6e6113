// Every list of up to three of seven calls, for checking loggers against the simulator: four bytes a list.

#![tactic(auto)]

ghost use Rattle.std.specs.Prelude.{◌<◌};
ghost use Rattle.small_lists.specs.Promises.{WritesLists};
ghost use Rattle.small_lists.specs.Steps.{IsList};

use refusal::Refusal;

// What stands in a place that no call uses.
const UNUSED: u8 = 7;

// List i in four bytes: its length, and its calls by their numbers. Before the lists of one call is 1 list, before those of two are 1 + 7, before those of
// three 1 + 7 + 49.
fn list_at(i: usize) -> [u8; 4]
    requires { i < 400 }
    ensures { IsList i result }
{
    if i < 1 {
        return [0, UNUSED, UNUSED, UNUSED];
    }
    if i < 8 {
        return [1, (i - 1) as u8, UNUSED, UNUSED];
    }
    if i < 57 {
        let k = i - 8;
        return [2, (k / 7) as u8, (k % 7) as u8, UNUSED];
    }
    let k = i - 57;
    [3, (k / 49) as u8, (k / 7 % 7) as u8, (k % 7) as u8]
}

// The 400 lists, at the front of an output of 1600 bytes or more.
pub fn write(out: &mut [u8]) -> Result<(), Refusal>
    ensures { WritesLists out.old result out.new }
{
    if out.len() < 1600 {
        return Err(Refusal::Output);
    }
    for i in 0..400 {
        out[4 * i..4 * i + 4].copy_from_slice(&list_at(i));
    }
    Ok(())
}
