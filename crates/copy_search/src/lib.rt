// The search for the lexicographically first copy of a pattern in a word.
#![tactic(auto)]

ghost use Rattle.std.specs.Prelude.{◌≡◌, take};
ghost use Rattle.word.specs.Ceilings.{DIGITS};
ghost use Rattle.word.specs.Word.{first_copy};
ghost use Rattle.copy_search.specs.Copy.{shown};

use word::limits::DIGITS;

// The lexicographically first copy, in w, of the pattern's first DIGITS digits, if there is one:
// its positions, counted from 1, and zeros after them. The search tries the positions of w for one
// pattern entry after the other, each position against the pairs with the entries that stand
// already, and goes back one entry where too few positions are left.
pub fn first_copy(pattern: &[u8], w: &[u8]) -> Option<[usize; DIGITS]>
    ensures { result ≡ shown (first_copy (take DIGITS pattern.now) w.now) }
{
    let k = pattern.len().min(DIGITS);
    let mut at = [0usize; DIGITS];
    if k == 0 {
        return Some(at);
    }
    let mut entries = [0u8; DIGITS];
    let mut d: usize = 0;
    let mut i: usize = 0;
    'copy: loop {
        'positions: while k - d <= w.len() - i {
            let x = w[i];
            i += 1;
            let digit = pattern[d];
            'pairs: for j in 0..d {
                let below = pattern[j] < digit;
                let found_below = entries[j] < x;
                if below != found_below {
                    continue 'positions;
                }
            }
            at[d] = i;
            entries[d] = x;
            d += 1;
            if d == k {
                break 'copy;
            }
            continue 'copy;
        }
        if d == 0 {
            return None;
        }
        d -= 1;
        i = at[d];
    }
    Some(at)
}
