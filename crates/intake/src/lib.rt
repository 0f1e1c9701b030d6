// The run sheet as it comes in: blocks of input, cut anywhere, run line by line.
#![tactic(auto)]

ghost use Rattle.std.specs.Prelude.{◌≡◌, ◌+◌, ◌*◌, ◌^◌, ◌≤◌, ◌<◌, length, take, drop};
ghost use Rattle.model.specs.Listed.{listed, listed_outcome};
ghost use Rattle.model.specs.Sound.{sound};
ghost use Rattle.lines.specs.Lines.{first_line};
ghost use Rattle.lines.specs.Kept.{joined, joined_with};
ghost use Rattle.sheet.specs.Sheets.{after_line, line_output};
ghost use Rattle.desk.specs.Acts.{acted, kept};
ghost use Rattle.intake.specs.Intakes.{after_bytes, bytes_output, end_output};
ghost use Rattle.intake.specs.Parts.{desk_of, intake_of};

use calls::{Answer, Outcome, Station};
use desk::{Request, act, tested_after};
use lines::fill;
use sheet::{parse_line, print_line};
use soundness::is_sound;

// The station after a line, what the soundness test says of it, and the bytes of the line's output.
#[derive(Clone, Copy)]
struct Ran {
    station: Station,
    tested: bool,
    used: usize,
}

// The station after a block, the bytes kept of the line that has begun, the next line's number, and the bytes of output.
#[derive(Clone, Copy)]
pub struct Fed {
    pub station: Station,
    pub len: usize,
    pub number: u64,
    pub used: usize,
}

// The one call that is lent the station: it writes the new one over it.
fn act_on(station: &mut Station, store: &mut [u8], request: Request) -> Answer
    requires { request.tested ≡ sound (listed station.old) }
    ensures { (result ≡ (acted (listed station.old) store.old request).answer) × (listed station.new ≡ (acted (listed station.old) store.old request).station) × (store.new ≡ kept (listed station.old) store.old request) }
{
    let o = act(*station, store, request);
    *station = o.station;
    o.answer
}

// Lends a station of its own to act_on, so that whoever calls this needs no reference to one.
fn act_once(station: Station, store: &mut [u8], request: Request) -> Outcome
    requires { request.tested ≡ sound (listed station) }
    ensures { (listed_outcome result ≡ acted (listed station) store.old request) × (store.new ≡ kept (listed station) store.old request) }
{
    let mut s = station;
    let a = act_on(&mut s, store, request);
    Outcome {
        station: s,
        answer: a,
    }
}

// A whole line: parsed, carried out and answered.
fn run_line(
    station: Station,
    tested: bool,
    store: &mut [u8],
    line: &[u8],
    number: u64,
    out: &mut [u8],
) -> Ran
    requires { (96 ≤ length out.old) × (tested ≡ sound (listed station)) }
    ensures { (desk_of result.station store.new (number + 1) ≡ after_line line.now (desk_of station store.old number)) × (result.used ≤ 96) × (take result.used out.new ≡ line_output line.now (desk_of station store.old number)) × (drop result.used out.new ≡ drop result.used out.old) × (result.tested ≡ sound (listed result.station)) }
{
    let command = parse_line(line);
    let request = Request { command, tested };
    let outcome = act_once(station, store, request);
    let used = print_line(out, number, outcome.answer);
    Ran {
        station: outcome.station,
        tested: tested_after(request),
        used,
    }
}

// The lines of a block. Each prints at most 96 bytes, so out is never full.
fn run_lines(
    station: Station,
    tested: bool,
    store: &mut [u8],
    part: &mut [u8],
    len: usize,
    number: u64,
    input: &[u8],
    out: &mut [u8],
) -> Fed
    requires { (length part.old ≡ 65) × (len ≤ 65) × (number + length input.now < 2 ^ 64) × (96 * length input.now ≤ length out.old) × (tested ≡ sound (listed station)) }
    ensures { (intake_of result.station store.new result.number part.new result.len ≡ after_bytes input.now (intake_of station store.old number part.old len)) × (take result.used out.new ≡ bytes_output input.now (intake_of station store.old number part.old len)) × (drop result.used out.new ≡ drop result.used out.old) × (result.used ≤ 96 * length input.now) × (result.len ≤ 65) × (result.number ≤ number + length input.now) }
{
    let mut known = tested;
    let mut s = station;
    let mut next = number;
    let mut used = 0;
    let first = fill(part, len, input, 0);
    let mut n = first.len;
    let mut end = first.end;
    while end < input.len() {
        let ran = run_line(s, known, store, &part[..n], next, &mut out[used..]);
        s = ran.station;
        known = ran.tested;
        used += ran.used;
        next += 1;
        let line = fill(part, 0, input, end + 1);
        n = line.len;
        end = line.end;
    }
    Fed {
        station: s,
        len: n,
        number: next,
        used,
    }
}

// A block of input. No input is so long that the lines' numbers reach 2^64. Soundness is tested once: what the test says after each line is
// known. Measured: that the loop is a function of its own saves copies of the station.
pub fn run_block(
    station: Station,
    store: &mut [u8],
    part: &mut [u8],
    len: usize,
    number: u64,
    input: &[u8],
    out: &mut [u8],
) -> Fed
    requires { (length part.old ≡ 65) × (len ≤ 65) × (number + length input.now < 2 ^ 64) × (96 * length input.now ≤ length out.old) }
    ensures { (intake_of result.station store.new result.number part.new result.len ≡ after_bytes input.now (intake_of station store.old number part.old len)) × (take result.used out.new ≡ bytes_output input.now (intake_of station store.old number part.old len)) × (drop result.used out.new ≡ drop result.used out.old) × (result.used ≤ 96 * length input.now) × (result.len ≤ 65) × (result.number ≤ number + length input.now) }
{
    let tested = is_sound(station);
    run_lines(station, tested, store, part, len, number, input, out)
}

// The end of the input: a line that has begun is run, as if its newline came. The bytes of its output.
pub fn finish(
    station: Station,
    store: &mut [u8],
    part: &mut [u8],
    len: usize,
    number: u64,
    out: &mut [u8],
) -> usize
    requires { (length part.old ≡ 65) × (len ≤ 65) × (number + 1 < 2 ^ 64) × (96 ≤ length out.old) }
    ensures { (result ≤ 96) × (take result out.new ≡ end_output (intake_of station store.old number part.old len)) × (drop result out.new ≡ drop result out.old) }
{
    if len == 0 {
        return 0;
    }
    let tested = is_sound(station);
    run_lines(station, tested, store, part, len, number, b"\n", out).used
}
