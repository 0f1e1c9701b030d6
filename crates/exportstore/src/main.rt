// A narrow store on standard input, 13,824 bytes; its committed set as a RESP stream on standard output. Where the store is refused nothing is written
// there, and the refusal stands on standard error: refused,18,5 with the slot.
#![tactic(auto)]

ghost use Rattle.std.specs.Prelude.{◌≤◌, length};

use exporting::export;
use input::{has_ended, read_full};
use resp::Refused;
use std::fmt;
use std::io::{Stdin, Stdout};

// The bytes of a store and one more, which tells a longer input; of the target.
const INPUT: usize = 13825;

const TARGET: usize = 65536;

// Why no stream is written.
#[derive(Clone, Copy)]
enum Stop {
    Refused(Refused),
    Unread,
    Unwritten,
}

impl From<Refused> for Stop {
    fn from(refused: Refused) -> Stop {
        Stop::Refused(refused)
    }
}

impl fmt::Display for Stop {
    fn fmt<W: fmt::Write>(&self, f: &mut fmt::Formatter<W>) -> fmt::Result {
        match self {
            Stop::Refused(Refused { number, slot }) => write!(f, "refused,{number},{slot}"),
            Stop::Unread => write!(f, "standard input cannot be read"),
            Stop::Unwritten => write!(f, "standard output cannot be written"),
        }
    }
}

// The stream of a store, written out.
fn write_stream(stdout: Stdout, store: &[u8]) -> Result<(), Stop> {
    let mut target = [0u8; TARGET];
    let n = export(store, &mut target)?;
    stdout.write_all(&target[..n]).map_err(|_| Stop::Unwritten)
}

fn run(stdin: &mut Stdin, stdout: Stdout) -> Result<(), Stop> {
    let mut input = [0u8; INPUT];
    let n = read_full(stdin, &mut input);
    if n < INPUT && !has_ended(stdin) {
        return Err(Stop::Unread);
    }
    write_stream(stdout, &input[..n])
}

// The exit status is 0 all the same where there is no stream.
fn main(rt: HostRuntime) {
    let mut stdin = rt.stdin();
    if let Err(stop) = run(&mut stdin, rt.stdout()) {
        // Where standard error cannot be written either, nothing is left to say.
        let _ = eprintln!(rt; "exportstore: {stop}");
    }
}
