// A prefix as one number, so that prefixes are compared, and looked up, as numbers.
ghost use Rattle.std.specs.Prelude.{◌≤◌, length};
ghost use Rattle.word.specs.Ceilings.{PREFIX};
ghost use Rattle.forms.specs.Codes.{IsCode};

// The code of digits. No two lists of at most PREFIX bytes have the same code
// (CodeLaws.code_one_one).
pub fn code_of(digits: &[u8]) -> u64
    requires { length digits.now ≤ PREFIX }
    ensures { IsCode digits.now result }
{
    let mut code: u64 = 1;
    for j in (0..digits.len()).rev() {
        code = code * 256 + u64::from(digits[j]);
    }
    code
}
