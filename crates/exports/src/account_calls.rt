// The account's calls. The charge goes to `at`, which a refusal leaves as it was.

ghost use Rattle.std.specs.Prelude.{◌≡◌, ℕ, Result};
ghost use Rattle.refusal.specs.declared.Refusal.{Refusal};
ghost use Rattle.account.specs.Promises.{OpensAccount, ReadsPart, ReadsCharge};
ghost use Rattle.exports_codes.specs.AnswerCodes.{code_of, number_values};

use exports_codes::answer_codes::{code, tell_number};

#[unsafe(no_mangle)]
pub extern "C" fn account_open(n: u64, reading: u32, frame: u32, b: &mut [u8]) -> u64
    ensures { (a : Result Unit Refusal) × (OpensAccount n reading frame b.old a b.new) × (result ≡ code_of a) }
{
    code(&account::open(n, reading, frame, b))
}

#[unsafe(no_mangle)]
pub extern "C" fn account_read(b: &mut [u8], n: u64, part: &[u8]) -> u64
    ensures { (a : Result Unit Refusal) × (ReadsPart n part.now b.old a b.new) × (result ≡ code_of a) }
{
    code(&account::read(b, n, part))
}

#[unsafe(no_mangle)]
pub extern "C" fn account_charge(b: &[u8], n: u64, station: u64, at: &mut [u64; 1]) -> u64
    ensures { (a : Result ℕ Refusal) × (ReadsCharge n station b.now a) × (result ≡ code_of a) × (at.new ≡ number_values a at.old) }
{
    tell_number(account::charge(b, n, station), at)
}
