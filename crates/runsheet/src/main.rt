// The run sheet: calls on standard input, a line each; their answers on standard output.
//
// What was read is answered and written before more is read. The memory is the same for an input of any length.
#![tactic(auto)]

ghost use Rattle.std.specs.Prelude.{◌≡◌, ◌+◌, ◌^◌, ◌≤◌, ◌<◌, length, IfOk};

use calls::{Station, scan};
use intake::{finish, run_block};
use lines::KEPT;
use sheet::print_header;
use std::io::{Read, Stderr, Stdin, Stdout};

// The bytes of a read and of the output's buffer.
const READ: usize = 65536;

const OUT: usize = 475136;

// A block's bytes at most, and the output's bytes that leave room for its answers: 96 for each byte.
const BLOCK: usize = 4096;

const FULL: usize = 81920;

// A proved loop has to end, and nothing says that the input does: 2^46 reads, which no run uses up.
const READS: u64 = 70368744177664;

// The station, the bytes kept of a line that has begun, and the next line's number.
#[derive(Clone, Copy)]
struct Progress {
    station: Station,
    len: usize,
    number: u64,
}

// Why the program stops before its input ends.
#[derive(Clone, Copy, PartialEq, Eq, Debug)]
enum Stop {
    Unread,
    Unwritten,
    TooLong,
}

impl Stop {
    fn message(self) -> &'static [u8] {
        match self {
            Stop::Unread => b"runsheet: standard input cannot be read\n",
            Stop::Unwritten => b"runsheet: standard output cannot be written\n",
            Stop::TooLong => b"runsheet: the input is too long\n",
        }
    }
}

fn write(stdout: Stdout, bytes: &[u8]) -> Result<(), Stop> {
    stdout.write_all(bytes).map_err(|_| Stop::Unwritten)
}

// Makes room for the answers of a block: the buffer is written where it is too full for them. Where the answers go.
fn make_room(stdout: Stdout, out: &[u8], used: usize) -> Result<usize, Stop>
    requires { used ≤ length out.now }
    ensures { IfOk result (λ start. start ≤ 81920) }
{
    if used <= FULL {
        return Ok(used);
    }
    write(stdout, &out[..used])?;
    Ok(0)
}

// Runs what was read, block by block, and writes all answers.
fn run_read(
    stdout: Stdout,
    from: Progress,
    store: &mut [u8],
    part: &mut [u8],
    input: &[u8],
    out: &mut [u8],
) -> Result<Progress, Stop>
    requires { (length part.old ≡ 65) × (from.len ≤ 65) × (from.number + length input.now < 2 ^ 64) × (length out.old ≡ 475136) }
    ensures { IfOk result (λ p. (p.len ≤ 65) × (p.number ≤ from.number + length input.now)) }
{
    let mut station = from.station;
    let mut len = from.len;
    let mut number = from.number;
    let mut used = 0;
    for block in input.chunks(BLOCK) {
        let start = make_room(stdout, out, used)?;
        let fed = run_block(station, store, part, len, number, block, &mut out[start..]);
        station = fed.station;
        len = fed.len;
        number = fed.number;
        used = start + fed.used;
    }
    write(stdout, &out[..used])?;
    Ok(Progress {
        station,
        len,
        number,
    })
}

// The input has ended: a last line without a newline is answered.
fn run_end(
    stdout: Stdout,
    from: Progress,
    store: &mut [u8],
    part: &mut [u8],
    out: &mut [u8],
) -> Result<(), Stop>
    requires { (length part.old ≡ 65) × (from.len ≤ 65) × (from.number + 1 < 2 ^ 64) × (length out.old ≡ 475136) }
{
    let used = finish(from.station, store, part, from.len, from.number, out);
    write(stdout, &out[..used])
}

// Reads, answers and writes until the input ends.
fn run_sheet(
    stdin: &mut Stdin,
    stdout: Stdout,
    station: Station,
    store: &mut [u8],
    part: &mut [u8],
    input: &mut [u8],
    out: &mut [u8],
) -> Result<(), Stop>
    requires { (length part.old ≡ 65) × (length input.old ≡ 65536) × (length out.old ≡ 475136) }
{
    let mut progress = Progress {
        station,
        len: 0,
        number: 1,
    };
    for _ in 0..READS {
        let n = stdin.read(input).map_err(|_| Stop::Unread)?;
        if n == 0 {
            return run_end(stdout, progress, store, part, out);
        }
        progress = run_read(stdout, progress, store, part, &input[..n], out)?;
    }
    Err(Stop::TooLong)
}

// Prints the header, then runs the sheet.
fn run_all(
    stdin: &mut Stdin,
    stdout: Stdout,
    station: Station,
    store: &mut [u8],
    part: &mut [u8],
    input: &mut [u8],
    out: &mut [u8],
) -> Result<(), Stop>
    requires { (length part.old ≡ 65) × (length input.old ≡ 65536) × (length out.old ≡ 475136) }
{
    let n = print_header(out);
    write(stdout, &out[..n])?;
    run_sheet(stdin, stdout, station, store, part, input, out)
}

// Says why the sheet was not run to its end. The exit status is 0 all the same.
fn report(stderr: Stderr, stop: Stop) {
    // Where standard error cannot be written either, nothing is left to say.
    let _ = stderr.write_all(stop.message());
}

// The desk starts as it does after a cut: with a scan of its store, here of zeros.
fn main(rt: HostRuntime) {
    let mut store = [0u8; Station::STORE];
    let station = scan(&store).station;
    let mut part = [0u8; KEPT];
    let mut input = [0u8; READ];
    let mut out = [0u8; OUT];
    let mut stdin = rt.stdin();
    let ran = run_all(
        &mut stdin,
        rt.stdout(),
        station,
        &mut store,
        &mut part,
        &mut input,
        &mut out,
    );
    if let Err(stop) = ran {
        report(rt.stderr(), stop);
    }
}
