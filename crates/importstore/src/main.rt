// A RESP stream on standard input; the narrow store that it fills on standard output, 13,824 bytes. Where the stream is refused nothing is written there,
// and the refusal stands on standard error: refused,27.
#![tactic(auto)]

use importing::import;
use input::{has_ended, read_full};
use resp::Refused;
use std::fmt;
use std::io::{Stdin, Stdout};

// The bytes of a stream that are read: more than the greatest that a store takes has, 47,808. A longer one is refused without a number: it has too many
// transactions, or is not of the form.
const INPUT: usize = 65536;

const STORE: usize = 13824;

// Why no store is written.
#[derive(Clone, Copy)]
enum Stop {
    Refused(Refused),
    TooLong,
    Unread,
    Unwritten,
}

impl From<Refused> for Stop {
    fn from(refused: Refused) -> Stop {
        Stop::Refused(refused)
    }
}

impl fmt::Display for Stop {
    fn fmt<W: fmt::Write>(&self, f: &mut fmt::Formatter<W>) -> fmt::Result {
        match self {
            Stop::Refused(Refused { number, .. }) => write!(f, "refused,{number}"),
            Stop::TooLong => write!(
                f,
                "the stream has more than 65536 bytes, and no store takes more than 47808"
            ),
            Stop::Unread => write!(f, "standard input cannot be read"),
            Stop::Unwritten => write!(f, "standard output cannot be written"),
        }
    }
}

// The store of a stream, written out.
fn write_store(stdout: Stdout, stream: &[u8]) -> Result<(), Stop> {
    let mut store = [0u8; STORE];
    import(stream, &mut store)?;
    stdout.write_all(&store).map_err(|_| Stop::Unwritten)
}

fn run(stdin: &mut Stdin, stdout: Stdout) -> Result<(), Stop> {
    let mut input = [0u8; INPUT];
    let n = read_full(stdin, &mut input);
    if !has_ended(stdin) {
        return Err(if n == INPUT {
            Stop::TooLong
        } else {
            Stop::Unread
        });
    }
    write_store(stdout, &input[..n])
}

// The exit status is 0 all the same where there is no store.
fn main(rt: HostRuntime) {
    let mut stdin = rt.stdin();
    if let Err(stop) = run(&mut stdin, rt.stdout()) {
        // Where standard error cannot be written either, nothing is left to say.
        let _ = eprintln!(rt; "importstore: {stop}");
    }
}
