// Another shop's log on standard input, checked; the verdict on standard output, one line: clean, bad,N or refused,19,N.
//
// A block that was read is checked before more is read. The memory is the same for a log of any length, and what comes after the first line that is
// not clean is not read.
#![tactic(auto)]

ghost use Rattle.std.specs.Prelude.{◌≡◌, length};

use lines::KEPT;
use logcheck::{check_block, check_end};
use logtable::TABLE;
use shoplog::{Verdict, print_verdict};
use std::io::{Read, Stderr, Stdin, Stdout};

// The bytes of a read and of the verdict's line.
const READ: usize = 65536;

const OUT: usize = 64;

// A proved loop has to end, and nothing says that the input does: 2^46 reads, which no run uses up.
const READS: u64 = 70368744177664;

// Why there is no verdict, or it is not written.
#[derive(Clone, Copy)]
enum Stop {
    Unread,
    Unwritten,
    TooLong,
}

// Reads and checks until the input ends, or a line is not clean.
fn check_input(
    stdin: &mut Stdin,
    table: &mut [u64],
    part: &mut [u8],
    input: &mut [u8],
) -> Result<Verdict, Stop>
    requires { (length table.old ≡ 1280) × (length part.old ≡ 65) × (length input.old ≡ 65536) }
{
    let mut len = 0;
    let mut above = 0;
    for _turn in 0..READS {
        let n = stdin.read(input).map_err(|_| Stop::Unread)?;
        if n == 0 {
            return Ok(check_end(table, part, len, above));
        }
        let checked = check_block(table, part, len, above, &input[..n]);
        let Verdict::Clean = checked.verdict else {
            return Ok(checked.verdict);
        };
        len = checked.len;
        above = checked.above;
    }
    Err(Stop::TooLong)
}

// Prints the verdict.
fn answer(stdout: Stdout, verdict: Verdict) -> Result<(), Stop> {
    let mut out = [0u8; OUT];
    let n = print_verdict(&mut out, verdict);
    stdout.write_all(&out[..n]).map_err(|_| Stop::Unwritten)
}

// Says why there is no verdict. The exit status is 0 all the same.
fn report(stderr: Stderr, stop: Stop) {
    let said = match stop {
        Stop::Unread => stderr.write_all(b"checklog: standard input cannot be read\n"),
        Stop::Unwritten => stderr.write_all(b"checklog: standard output cannot be written\n"),
        Stop::TooLong => stderr.write_all(b"checklog: the input is too long\n"),
    };
    // Where standard error cannot be written either, nothing is left to say.
    let _ = said;
}

// Reads, checks and prints.
fn run(rt: &HostRuntime) -> Result<(), Stop> {
    let mut table = [0u64; TABLE];
    let mut part = [0u8; KEPT];
    let mut input = [0u8; READ];
    let verdict = check_input(&mut rt.stdin(), &mut table, &mut part, &mut input)?;
    answer(rt.stdout(), verdict)
}

fn main(rt: HostRuntime) {
    if let Err(stop) = run(&rt) {
        report(rt.stderr(), stop);
    }
}
