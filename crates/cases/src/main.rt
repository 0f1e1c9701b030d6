// Runs the cases of its input and writes what came of each line: the answer, and whether station and store are as given.
// Lines of the input:
//   # TITLE                              a case, from an empty station and a store of zeros
//   $ TITLE                              the same, wide
//   % TITLE                              a case, from the busy station that the lines before the first such title make
//   verb,txn,key,number                  a line of a run sheet
//   <LENGTH,verb,txn,key,number          the same with LENGTH bytes of store
//   ^LIMIT,LENGTH                        a sweep, which a sheet has no verb for, with LENGTH bytes of store
//   *TXN,KEY,NUMBER                      a whole transaction: NUMBER put under KEY and committed at the clock NUMBER
//   >SOURCE,TARGET                       a move of SOURCE bytes of the store into TARGET bytes, which are the store's own at first; where it is not
//                                        refused, the store is the target from then on, and the station what a scan of it gives
//   !slot SLOT,byte AT,BYTE              a byte of a slot is changed
//   ~FIELD name,place PLACE,POSITION,VALUE   a field of the station is changed; crate edits numbers the fields
// A store is as long as the station's kind has it, where no length is given. Of the last two only the digits are read. A title ends in the answers that 01 gives to its last lines; tests/cases.rs tests that.
#![tactic(auto)]

ghost use Rattle.std.specs.Prelude.{◌≤◌};

use calls::{
    Answer, Kind, Outcome, Station, abort, collect, commit, get, put, scan_of, start, step, sweep,
};
use edits::{low8, low32};
use input::read_full;
use model::{Refusal, empty_of};
use moving::{move_back, move_out};
use sheet::Command;
use std::io::Stdout;

// A store and one byte more, to lend a store that is too long.
const SPACE: usize = Station::STORE + 1;

// A field's number grows no more once it is greater.
const GREAT: u64 = 100000000000000000;

// The digits of a field, counted from 0.
fn number_in(line: &[u8], wanted: usize) -> u64 {
    let mut number = 0;
    if let Some(field) = line.split(|b| *b == b',').nth(wanted) {
        for b in field {
            if b.is_ascii_digit() && number <= GREAT {
                number = number * 10 + u64::from(*b - b'0');
            }
        }
    }
    number
}

// ---- calls
// The public calls themselves, for any station.
fn acted(station: Station, store: &mut [u8], command: Command) -> Outcome {
    match command {
        Command::Start(txn) => start(station, txn),
        Command::Put(txn, key, value) => put(station, txn, key, value),
        Command::Get(txn, key) => get(station, store, txn, key),
        Command::Commit(txn, clock) => commit(station, txn, clock),
        Command::Step(txn) => step(station, store, txn),
        Command::Abort(txn) => abort(station, txn),
        Command::Collect(slot) => collect(station, store, slot),
        Command::Cut => scan_of(station.kind, store),
        Command::Malformed => Outcome {
            station,
            answer: Answer::Refused(Refusal::Malformed.number(), 0),
        },
        Command::Sweep(limit) => sweep(station, store, limit),
    }
}

// Three steps: one key's version record, the commit record, the entry.
fn whole(station: Station, store: &mut [u8], txn: u32, key: u8, number: u64) -> Outcome {
    let begun = start(station, txn).station;
    let written = put(begun, txn, key, number).station;
    let mut closing = commit(written, txn, number).station;
    for _ in 0..2 {
        closing = step(closing, store, txn).station;
    }
    step(closing, store, txn)
}

// What a move comes to: not refused, the station is what a scan of the target gives.
fn moved(station: Station, source: &[u8], target: &mut [u8]) -> Outcome {
    let (kind, answer) = match station.kind {
        Kind::Narrow => (Kind::Wide, move_out(source, target)),
        Kind::Wide => (Kind::Narrow, move_back(source, target)),
    };
    if matches!(answer, Answer::Moved(_)) {
        Outcome {
            station: scan_of(kind, target).station,
            answer,
        }
    } else {
        Outcome { station, answer }
    }
}

// Where a slot begins.
fn slot_place(kind: Kind, slot: u8) -> usize
    ensures { result ≤ 200000 }
{
    match kind {
        Kind::Narrow => usize::from(slot) * Station::SLOT,
        Kind::Wide => usize::from(slot) * Station::WIDE_SLOT,
    }
}

// ---- a case
// What lines act on: a station and a store, beside the store as it was before the line. Of a quiet case nothing is written.
#[derive(Drop)]
struct Case {
    stdout: Stdout,
    is_quiet: bool,
    station: Station,
    store: [u8; SPACE],
    given: [u8; SPACE],
}

impl Case {
    fn begin(&mut self, kind: Kind) {
        self.store.fill(0);
        self.station = empty_of(kind);
    }

    // A write that fails is not told.
    fn say(&self, text: &[u8]) {
        if !self.is_quiet {
            let _ = self.stdout.write_all(text);
        }
    }

    fn say_title(&self, line: &[u8]) {
        self.say(line);
        self.say(b"\n");
    }

    // The answer's line without its number and its newline.
    fn say_answer(&self, answer: Answer) {
        let mut out = [0; 96];
        let n = sheet::print_line(&mut out, 0, answer);
        if 3 < n {
            self.say(&out[2..n - 1]);
        }
    }

    fn say_change(&self, before: &Station, is_kept: bool) {
        let text: &[u8] = match (self.station == *before, is_kept) {
            (true, true) => b"; as given\n",
            (true, false) => b"; new store\n",
            (false, false) => b"; new station and store\n",
            (false, true) if self.station == empty_of(self.station.kind) => b"; empty station\n",
            (false, true) => b"; new station\n",
        };
        self.say(text);
    }

    fn report(&mut self, line: &[u8], outcome: Outcome) {
        let before = self.station;
        self.station = outcome.station;
        if !self.is_quiet {
            self.say(line);
            self.say(b": ");
            self.say_answer(outcome.answer);
            self.say_change(&before, self.store == self.given);
        }
    }

    // A command with this much of the store.
    fn act(&mut self, line: &[u8], command: Command, size: usize) {
        if size <= SPACE {
            self.given.copy_from_slice(&self.store);
            let store = &mut self.store[..];
            let outcome = acted(self.station, &mut store[..size], command);
            self.report(line, outcome);
        }
    }

    // A sheet's line with as much of the store as its first field says.
    fn act_short(&mut self, line: &[u8]) {
        if let Some(at) = line.iter().position(|b| *b == b',') {
            let command = sheet::parse_line(&line[at + 1..]);
            self.act(line, command, number_in(line, 0) as usize);
        }
    }

    // A sweep with its first field's limit and as much of the store as its second says.
    fn act_sweep(&mut self, line: &[u8]) {
        let limit = number_in(line, 0);
        self.act(line, Command::Sweep(limit), number_in(line, 1) as usize);
    }

    // A move of so many bytes into so many.
    fn act_move(&mut self, line: &[u8]) {
        let from = number_in(line, 0) as usize;
        let to = number_in(line, 1) as usize;
        if from <= SPACE && to <= SPACE {
            self.given.copy_from_slice(&self.store);
            let store = &mut self.store[..];
            let outcome = moved(self.station, &self.given[..from], &mut store[..to]);
            self.report(line, outcome);
        }
    }

    fn act_whole(&mut self, line: &[u8]) {
        let txn = low32(number_in(line, 0));
        let key = low8(number_in(line, 1));
        let size = self.station.kind.store_size();
        if size <= SPACE {
            self.given.copy_from_slice(&self.store);
            let store = &mut self.store[..];
            let number = number_in(line, 2);
            let outcome = whole(self.station, &mut store[..size], txn, key, number);
            self.report(line, outcome);
        }
    }

    fn damage(&mut self, line: &[u8]) {
        let slot = slot_place(self.station.kind, low8(number_in(line, 0)));
        let at = slot + usize::from(low8(number_in(line, 1)));
        self.given.copy_from_slice(&self.store);
        if let Some(byte) = self.store.get_mut(at) {
            *byte = low8(number_in(line, 2));
        }
        self.say(line);
        self.say_change(&self.station, self.store == self.given);
    }

    fn edit(&mut self, line: &[u8]) {
        let before = self.station;
        let place = number_in(line, 1) as usize;
        let position = number_in(line, 2) as usize;
        self.station = edits::edited(
            before,
            number_in(line, 0),
            place,
            position,
            number_in(line, 3),
        );
        self.say(line);
        self.say_change(&before, true);
    }

    // Any line but a busy case's title.
    fn carry_out(&mut self, line: &[u8]) {
        match line {
            [b'#', ..] => {
                self.say_title(line);
                self.begin(Kind::Narrow);
            }
            [b'$', ..] => {
                self.say_title(line);
                self.begin(Kind::Wide);
            }
            [b'>', ..] => self.act_move(line),
            [b'!', ..] => self.damage(line),
            [b'~', ..] => self.edit(line),
            [b'*', ..] => self.act_whole(line),
            [b'<', ..] => self.act_short(line),
            [b'^', ..] => self.act_sweep(line),
            _ => self.act(
                line,
                sheet::parse_line(line),
                self.station.kind.store_size(),
            ),
        }
    }

    // The busy station and its store.
    fn make_busy(&mut self, head: &[u8]) {
        self.begin(Kind::Narrow);
        self.is_quiet = true;
        for line in head.split_inclusive(|b| *b == b'\n') {
            self.carry_out(line.strip_suffix(b"\n").unwrap_or(line));
        }
        self.is_quiet = false;
    }

    fn run(&mut self, text: &[u8], head: &[u8]) {
        for ended in text.split_inclusive(|b| *b == b'\n') {
            let line = ended.strip_suffix(b"\n").unwrap_or(ended);
            if let [b'%', ..] = line {
                self.say_title(line);
                self.make_busy(head);
            } else {
                self.carry_out(line);
            }
        }
    }
}

fn main(rt: HostRuntime) {
    let mut input = [0; 65536];
    let n = read_full(&mut rt.stdin(), &mut input);
    let text = &input[..n];
    let cut = text.iter().position(|b| *b == b'%').unwrap_or(n);
    let mut case = Case {
        stdout: rt.stdout(),
        is_quiet: false,
        station: Station::empty(),
        store: [0; SPACE],
        given: [0; SPACE],
    };
    case.run(text, &text[..cut]);
}
