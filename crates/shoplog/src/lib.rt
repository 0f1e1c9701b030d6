// Another shop's log: its lines, read from bytes, and the verdict on them. Both are defined in specs/.
#![tactic(auto)]

ghost use Rattle.std.specs.Prelude.{◌≡◌, ◌≤◌, suc, length, take, drop, MatchOption};
ghost use Rattle.std.proofs.Math.Option.{some};
ghost use Rattle.decimal.specs.Digits.{number_below};
ghost use Rattle.shoplog.specs.Lines.{kind_in, line_named, second, line_in};
ghost use Rattle.shoplog.specs.Parts.{kind_of, kind_found, is_named, number_of, parsed_of, IsField, NoField};
ghost use Rattle.shoplog.specs.Printed.{verdict_printed};

use decimal::{field_end, number_in, write_bytes, write_number};
use lines::same_bytes;
use model::Id;

// The bytes of a line, at most.
const LINE: usize = 64;

// The greatest transaction, key and clock, as numbers.
const TXN_MAX: u64 = 4294967295;

const KEY_MAX: u64 = 63;

const CLOCK_MAX: u64 = 18446744073709551615;

// A line that is of the form and in the ranges.
#[derive(Clone, Copy)]
pub enum LogLine {
    Write(u32, u8),
    Commit(u32, u64),
    Read(u32, u8, Id),
}

// A line's first field.
#[derive(Clone, Copy)]
pub enum LineKind {
    Write,
    Commit,
    Read,
}

// The verdict on a log: clean; the first line that is bad; the number of a refusal, and its line.
#[derive(Clone, Copy)]
pub enum Verdict {
    Clean,
    Bad(u64),
    Refused(u8, u64),
}

// What is wrong with one line, by the lines above it: the log is over its limits, or the line is bad.
#[derive(Clone, Copy)]
pub enum Fault {
    Over,
    Bad,
}

// The kind that a line's first field names.
#[tactic(auto, unfolding(crate::specs::Lines::kind_in, crate::specs::Lines::kind_bytes, crate::specs::Parts::kind_found, crate::specs::Parts::kind_of))]
fn kind_in(s: &[u8]) -> Option<LineKind>
    ensures { kind_found result ≡ kind_in s.now }
{
    if same_bytes(s, b"write") {
        Some(LineKind::Write)
    } else if same_bytes(s, b"commit") {
        Some(LineKind::Commit)
    } else if same_bytes(s, b"read") {
        Some(LineKind::Read)
    } else {
        None
    }
}

// A ticket, a clock and an author are not 0 where a line of the kind names them, and what it does not name is 0.
#[tactic(auto, unfolding(crate::specs::Parts::kind_of))]
fn is_named(kind: LineKind, t: u32, k: u8, c: u64, a: u32) -> bool
    ensures { result ≡ is_named (kind_of kind) t k c a }
{
    t != 0
        && match kind {
            LineKind::Write => c == 0 && a == 0,
            LineKind::Commit => k == 0 && c != 0 && a == 0,
            LineKind::Read => c != 0 && a != 0,
        }
}

// The fields of a line put together.
#[tactic(auto, using(crate::proofs::LineLaws::named_if), unfolding(crate::specs::Lines::line_if, crate::specs::Parts::kind_of, crate::specs::Parts::parsed_of))]
fn line_for(kind: LineKind, t: u32, k: u8, c: u64, a: u32) -> Option<LogLine>
    ensures { result ≡ parsed_of (line_named (kind_of kind) t k c a) }
{
    if !is_named(kind, t, k, c, a) {
        return None;
    }
    match kind {
        LineKind::Write => Some(LogLine::Write(t, k)),
        LineKind::Commit => Some(LogLine::Commit(t, c)),
        LineKind::Read => Some(LogLine::Read(t, k, Id { clock: c, txn: a })),
    }
}

// A number's field, and what is after its comma.
fn number_field(s: &[u8], max: u64) -> Option<(u64, &[u8])>
    requires { 9 ≤ max }
    ensures { MatchOption result (NoField (suc max) s.now) (λ field. IsField (suc max) s.now field.0 field.1.now) }
{
    let (n, at) = number_in(s, b',', max)?;
    let rest = s.get(at + 1..)?;
    Some((n, rest))
}

// The last field's number, with no other field after it.
fn last_number(s: &[u8], max: u64) -> Option<u64>
    requires { 9 ≤ max }
    ensures { number_of result ≡ number_below (suc max) s.now }
{
    let (n, at) = number_in(s, b',', max)?;
    (at == s.len()).then_some(n)
}

// The fields after the first.
fn fields_in(kind: LineKind, fields: &[u8]) -> Option<LogLine>
    ensures { result ≡ parsed_of (second (some (kind_of kind)) (some fields.now)) }
{
    let (t, fields) = number_field(fields, TXN_MAX)?;
    let (k, fields) = number_field(fields, KEY_MAX)?;
    let (c, fields) = number_field(fields, CLOCK_MAX)?;
    let a = last_number(fields, TXN_MAX)?;
    line_for(kind, t as u32, k as u8, c, a as u32)
}

// What a line says, whatever its bytes are.
pub fn parse_log_line(line: &[u8]) -> Option<LogLine>
    ensures { result ≡ parsed_of (line_in line.now) }
{
    if line.len() > LINE {
        return None;
    }
    let at = field_end(line, b',');
    let fields = line.get(at + 1..)?;
    let kind = kind_in(&line[..at])?;
    fields_in(kind, fields)
}

// A verdict's line; how many bytes it has.
pub fn print_verdict(out: &mut [u8], verdict: Verdict) -> usize
    requires { 64 ≤ length out.old }
    ensures { (result ≤ 64) × (take result out.new ≡ verdict_printed verdict) × (drop result out.new ≡ drop result out.old) × (length out.new ≡ length out.old) }
{
    match verdict {
        Verdict::Clean => write_bytes(out, 0, b"clean\n"),
        Verdict::Bad(n) => {
            let line = write_bytes(out, 0, b"bad,");
            write_number(out, line, n, b'\n')
        }
        Verdict::Refused(c, n) => {
            let row = write_bytes(out, 0, b"refused,");
            let line = write_number(out, row, u64::from(c), b',');
            write_number(out, line, n, b'\n')
        }
    }
}
