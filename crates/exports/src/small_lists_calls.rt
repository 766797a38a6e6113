// The listing of the small lists.

ghost use Rattle.std.specs.Prelude.{◌≡◌, Result};
ghost use Rattle.refusal.specs.declared.Refusal.{Refusal};
ghost use Rattle.small_lists.specs.Promises.{WritesLists};
ghost use Rattle.exports_codes.specs.AnswerCodes.{code_of};

use exports_codes::answer_codes::code;

#[unsafe(no_mangle)]
pub extern "C" fn small_lists_write(out: &mut [u8]) -> u64
    ensures { (a : Result Unit Refusal) × (WritesLists out.old a out.new) × (result ≡ code_of a) }
{
    code(&small_lists::write(out))
}
