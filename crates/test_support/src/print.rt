// Writes words, numbers, refusals and line ends to standard output.

// The descriptor of standard output.
const STANDARD_OUTPUT: i32 = 1;

// Writes the bytes as they are.
pub fn text(bytes: &[u8]) {
    io::write_all(STANDARD_OUTPUT, bytes);
}

// Writes the number in decimal.
pub fn number(n: u64) {
    io::print_decimal(STANDARD_OUTPUT, n);
}

// Writes a space and then the number in decimal.
pub fn next_number(n: u64) {
    text(b" ");
    number(n);
}

// Writes the number at an index of a list, behind a comma if it is not the first.
pub fn item(i: usize, n: u64) {
    if 0 < i {
        text(b",");
    }
    number(n);
}

// Writes numbers with commas between them.
pub fn list(numbers: &[u8]) {
    for (i, x) in numbers.iter().enumerate() {
        item(i, u64::from(*x));
    }
}

// Writes one of two words.
pub fn either(so: bool, yes: &[u8], no: &[u8]) {
    if so {
        text(yes);
    } else {
        text(no);
    }
}

// Writes a refusal: its number and its index.
pub fn refused(number: u8, index: usize) {
    text(b"refused");
    next_number(u64::from(number));
    next_number(index as u64);
}

// Ends the line.
pub fn end() {
    text(b"\n");
}
