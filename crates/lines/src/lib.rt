// Text in lines: where a line ends, and the bytes of one that begins in one block and ends in another. Defined in specs/.
#![tactic(auto)]

ghost use Rattle.std.specs.Prelude.{◌≡◌, ◌+◌, ◌≤◌, length, take, drop};
ghost use Rattle.model.specs.Lists.{same};
ghost use Rattle.lines.specs.Lines.{first_line};
ghost use Rattle.lines.specs.Kept.{joined_with};

// The bytes that are kept of a line: one more than a line may have, which tells a longer one.
pub const KEPT: usize = 65;

// How many bytes are kept of the line, and where its bytes in the block end.
#[derive(Clone, Copy)]
pub struct Filled {
    pub len: usize,
    pub end: usize,
}

// The same bytes in the same order.
pub fn same_bytes(a: &[u8], b: &[u8]) -> bool
    ensures { result ≡ same a.now b.now }
{
    a == b
}

// The place of the first newline from a place on; the length where there is none.
pub fn line_end(input: &[u8], start: usize) -> usize
    requires { start ≤ length input.now }
    ensures { result ≡ start + length (first_line (drop start input.now)) }
{
    let rest = &input[start..];
    start + rest.iter().position(|&b| b == b'\n').unwrap_or(rest.len())
}

// The bytes of a block from a place up to a newline, or to the block's end, join the line, as far as they are kept.
pub fn fill(part: &mut [u8], len: usize, input: &[u8], start: usize) -> Filled
    requires { (length part.old ≡ 65) × (len ≤ 65) × (start ≤ length input.now) }
    ensures { (result.len ≤ 65) × (result.end ≡ start + length (first_line (drop start input.now))) × (take result.len part.new ≡ joined_with (take len part.old) (first_line (drop start input.now))) }
{
    let end = line_end(input, start);
    let more = (KEPT - len).min(end - start);
    let bytes = &input[start..start + more];
    let n = len + more;
    part[len..n].copy_from_slice(bytes);
    Filled { len: n, end }
}
