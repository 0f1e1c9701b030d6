// A log checked: as lent bytes, or block by block in the same memory however long it is. The verdict is defined in shoplog's specs/Logs; what is kept
// between two blocks in specs/Checking.
#![tactic(auto)]

ghost use Rattle.std.specs.Prelude.{◌≡◌, ◌+◌, ◌^◌, ◌≤◌, ◌<◌, length, take, drop};
ghost use Rattle.shoplog.specs.declared.Verdict.TheVariants.{Clean};
ghost use Rattle.shoplog.specs.Lines.{line_in};
ghost use Rattle.shoplog.specs.Logs.{finding_at, verdict_of};
ghost use Rattle.logtable.specs.Tables.{table_size};
ghost use Rattle.logcheck.specs.Judged.{verdict_by, table_after};
ghost use Rattle.logcheck.specs.Checking.{after_bytes, verdict_at};
ghost use Rattle.logcheck.specs.Parts.{checking_of};

use lines::{KEPT, fill, line_end};
use logtable::{TABLE, judge_commit, judge_read, judge_write};
use model::Refusal;
use shoplog::{Fault, LogLine, Verdict, parse_log_line};

// The verdict on the lines so far, how many they are, and how many bytes are kept of the line that has begun.
#[derive(Clone, Copy)]
pub struct Checked {
    pub verdict: Verdict,
    pub above: u64,
    pub len: usize,
}

// What a finding says of a line.
#[tactic(auto, unfolding(shoplog::specs::Logs::finding_at))]
fn verdict_at(found: Result<(), Fault>, number: u64) -> Verdict
    ensures { result ≡ finding_at number found }
{
    match found {
        Ok(()) => Verdict::Clean,
        Err(Fault::Over) => Verdict::Refused(Refusal::LogLimits.number(), number),
        Err(Fault::Bad) => Verdict::Bad(number),
    }
}

// A whole line: parsed and judged by the table, which then has it.
fn judge_line(table: &mut [u64], line: &[u8], number: u64) -> Verdict
    requires { length table.old ≡ table_size }
    ensures { (result ≡ verdict_by table.old number (line_in line.now)) × (table.new ≡ table_after table.old (line_in line.now)) }
{
    let Some(parsed) = parse_log_line(line) else {
        return Verdict::Refused(Refusal::Malformed.number(), number);
    };
    let found = match parsed {
        LogLine::Write(txn, key) => judge_write(table, txn, key),
        LogLine::Commit(txn, clock) => judge_commit(table, txn, clock),
        LogLine::Read(txn, key, id) => judge_read(table, txn, key, id),
    };
    verdict_at(found, number)
}

// The lines of a block from a place on, where one begins. Each that a newline ends is judged where it lies; of the last its bytes are kept.
fn check_lines(
    table: &mut [u64],
    part: &mut [u8],
    above: u64,
    input: &[u8],
    start: usize,
) -> Checked
    requires { (length table.old ≡ table_size) × (length part.old ≡ 65) × (start ≤ length input.now) × (above + length input.now < 2 ^ 64 + start) }
    ensures { (checking_of result.verdict table.new result.above part.new result.len ≡ after_bytes (drop start input.now) (checking_of Clean table.old above part.old 0)) × (result.len ≤ 65) × (result.above + result.len + start ≤ above + length input.now) }
{
    let mut n = above;
    let mut from = start;
    let mut end = line_end(input, start);
    while end < input.len() {
        let verdict = judge_line(table, &input[from..end], n + 1);
        let Verdict::Clean = verdict else {
            return Checked {
                verdict,
                above: n,
                len: 0,
            };
        };
        n += 1;
        from = end + 1;
        end = line_end(input, from);
    }
    let last = fill(part, 0, input, from);
    Checked {
        verdict: Verdict::Clean,
        above: n,
        len: last.len,
    }
}

// A block of the log, after lines that are clean: the first bytes end the line that has begun, if any.
pub fn check_block(
    table: &mut [u64],
    part: &mut [u8],
    len: usize,
    above: u64,
    input: &[u8],
) -> Checked
    requires { (length table.old ≡ table_size) × (length part.old ≡ 65) × (len ≤ 65) × (above + length input.now < 2 ^ 64) }
    ensures { (checking_of result.verdict table.new result.above part.new result.len ≡ after_bytes input.now (checking_of Clean table.old above part.old len)) × (result.len ≤ 65) × (result.above + result.len ≤ above + len + length input.now) }
{
    if len == 0 {
        return check_lines(table, part, above, input, 0);
    }
    let first = fill(part, len, input, 0);
    if first.end >= input.len() {
        return Checked {
            verdict: Verdict::Clean,
            above,
            len: first.len,
        };
    }
    let verdict = judge_line(table, &part[..first.len], above + 1);
    let Verdict::Clean = verdict else {
        return Checked {
            verdict,
            above,
            len: 0,
        };
    };
    check_lines(table, part, above + 1, input, first.end + 1)
}

// The end of the log, after lines that are clean: a line that has begun is checked, as if its newline came.
pub fn check_end(table: &mut [u64], part: &[u8], len: usize, above: u64) -> Verdict
    requires { (length table.old ≡ table_size) × (length part.now ≡ 65) × (len ≤ 65) × (above + len < 2 ^ 64) }
    ensures { result ≡ verdict_at (checking_of Clean table.old above part.now len) }
{
    if len == 0 {
        Verdict::Clean
    } else {
        judge_line(table, &part[..len], above + 1)
    }
}

// The verdict on a log, whatever its bytes are.
pub fn check_log(log: &[u8]) -> Verdict
    ensures { result ≡ verdict_of log.now }
{
    let mut table = [0u64; TABLE];
    let mut part = [0u8; KEPT];
    let checked = check_block(&mut table, &mut part, 0, 0, log);
    match checked.verdict {
        Verdict::Clean => check_end(&mut table, &part, checked.len, checked.above),
        verdict => verdict,
    }
}
