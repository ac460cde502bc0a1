// The digits of a run of a text, as their values.
ghost use Rattle.std.specs.Prelude.{◌≡◌, length, drop};
ghost use Rattle.std.proofs.lemmas.List.Edits.{sets};
ghost use Rattle.text_grammar.specs.Tokens.{run};

// Stores the digits of the run that stands from `from` on over the front of an array, as far as the
// array reaches.
pub fn put_digits(digits: &mut [u8], s: &[u8], from: usize, len: usize)
    requires { len ≡ length (run (drop from s.now)) }
    ensures { digits.new ≡ sets digits.old 0 (run (drop from s.now)) }
{
    for i in 0..digits.len() {
        if len <= i {
            return;
        }
        let k = from + i;
        digits[i] = s[k] - b'0';
    }
}
