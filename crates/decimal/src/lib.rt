// Numbers as decimal digits in bytes: a field read as a number, a number's digits written. Defined in specs/.
#![tactic(auto)]

ghost use Rattle.std.specs.Prelude.{◌≡◌, suc, ◌+◌, ◌≤◌, [], ◌∷◌, ◌++◌, length};
ghost use Rattle.decimal.specs.Digits.{digits, number_below};
ghost use Rattle.decimal.specs.Fields.{field, starts_number, number_read};
ghost use Rattle.decimal.specs.Written.{written};

// The place of the first byte that ends a field; the length where there is none.
pub fn field_end(s: &[u8], end: u8) -> usize
    ensures { result ≡ length (field end s.now) }
{
    s.iter().position(|&b| b == end).unwrap_or(s.len())
}

// The first field has a byte, and no 0 before another.
fn starts_number(s: &[u8], end: u8) -> bool
    ensures { result ≡ starts_number (field end s.now) }
{
    match s {
        [] => false,
        [only] => *only != end,
        [first, second, ..] => *first != end && (*first != b'0' || *second == end),
    }
}

// A field that is a decimal and at most max, with its length. It is read no further than to the first byte that is no digit or makes too much: of a long
// input that is refused the rest is not looked at. The test comes before the digit is added, so that no sum wraps.
pub fn number_in(s: &[u8], end: u8, max: u64) -> Option<(u64, usize)>
    requires { 9 ≤ max }
    ensures { result ≡ number_read (number_below (suc max) (field end s.now)) (length (field end s.now)) }
{
    if !starts_number(s, end) {
        return None;
    }
    let mut sum = 0;
    for (i, &b) in s.iter().enumerate() {
        if b == end {
            return Some((sum, i));
        }
        if !b.is_ascii_digit() {
            return None;
        }
        let digit = u64::from(b - b'0');
        if sum > (max - digit) / 10 {
            return None;
        }
        sum = sum * 10 + digit;
    }
    Some((sum, s.len()))
}

// How many digits a number has.
fn digit_count(x: u64) -> usize
    ensures { result ≡ length (digits x) }
{
    let mut n = 1;
    let mut left = x;
    while 10 <= left {
        left /= 10;
        n += 1;
    }
    n
}

// A number's digits and one byte after them, from a place on; the place after both. The digits come from the last to the first.
pub fn write_number(out: &mut [u8], start: usize, x: u64, end: u8) -> usize
    requires { start + 21 ≤ length out.old }
    ensures { (result ≡ start + length (digits x) + 1) × (result ≤ start + 21) × (out.new ≡ written out.old start (digits x ++ (end ∷ []))) }
{
    let after = start + digit_count(x);
    let mut at = after;
    let mut rest = x;
    while 10 <= rest {
        at -= 1;
        out[at] = b'0' + (rest % 10) as u8;
        rest /= 10;
    }
    out[start] = b'0' + rest as u8;
    out[after] = end;
    after + 1
}

// Bytes written over others, from a place on; the place after them. Byte by byte: here `copy_from_slice` asked the host of a C archive for memmove.
pub fn write_bytes(out: &mut [u8], start: usize, w: &[u8]) -> usize
    requires { start + length w.now ≤ length out.old }
    ensures { (result ≡ start + length w.now) × (out.new ≡ written out.old start w.now) }
{
    for (i, &b) in w.iter().enumerate() {
        out[start + i] = b;
    }
    start + w.len()
}
