// Bytes and numbers written over a lent page. Bytes behind the end of the page are dropped, so that
// a run on an empty page gives the length.
ghost use Rattle.std.specs.Prelude.{◌≡◌, [], ◌∷◌, ◌+◌, ◌≤◌};
ghost use Rattle.text_page.specs.Page.{Writes, Room};
ghost use Rattle.text_page.specs.Decimal.{NUMERAL, decimal};

// Writes one byte.
pub fn put(page: &mut [u8], at: usize, b: u8) -> usize
    requires { Room (b ∷ []) at }
    ensures { Writes (b ∷ []) at page.old page.new result }
{
    if at < page.len() {
        page[at] = b;
        return at + 1;
    }
    at + 1
}

// Writes bytes.
pub fn put_bytes(page: &mut [u8], at: usize, bytes: &[u8]) -> usize
    requires { Room bytes.now at }
    ensures { Writes bytes.now at page.old page.new result }
{
    let mut next = at;
    for b in bytes {
        next = put(page, next, *b);
    }
    next
}

// The byte of a digit.
fn digit(d: u64) -> u8
    requires { d ≤ 9 }
    ensures { result ≡ 48 + d }
{
    48 + d as u8
}

// Writes a number in base ten.
pub fn put_decimal(page: &mut [u8], at: usize, n: u64) -> usize
    requires { Room (decimal n) at }
    ensures { Writes (decimal n) at page.old page.new result × (result ≤ at + NUMERAL) }
{
    if n < 10 {
        return put(page, at, digit(n));
    }
    let next = put_decimal(page, at, n / 10);
    put(page, next, digit(n % 10))
}
