// Work for the benchmarks: a station of a given size, and one call made many times over it. Only numbers and lent bytes cross the
// boundary, by the exports of bench_c; what is timed is on the other side.
#![tactic(auto)]

ghost use Rattle.std.specs.Prelude.{◌<◌};

use calls::{
    Answer, Entry, Id, Live, Outcome, Phase, Read, Station, abort, collect, commit, get, put, scan,
    scan_wide, start, step, sweep,
};
use desk::{Request, act};
use moving::{move_back, move_out};
use sheet::{Command, print_line};
use soundness::is_sound;

// The write set of a slot's entry: even slots wrote keys 0 to 7, odd ones 8 to 15.
fn keys(slot: u8) -> u64 {
    if slot % 2 == 0 { 255 } else { 65280 }
}

// The id of a slot's entry; the slot after the last has one too.
fn id(slot: u16) -> Id {
    Id {
        clock: u64::from(slot) + 1,
        txn: u32::from(slot) + 1,
    }
}

fn entry(slot: u8) -> Entry {
    Entry {
        id: id(u16::from(slot)),
        keys: keys(slot),
    }
}

// A read of a key at the version of the slot `base` for even key sets, of the slot after it for odd ones.
fn read(key: u8, base: u8) -> Read {
    let slot = u16::from(base);
    Read {
        key,
        id: if key < 8 { id(slot) } else { id(slot + 1) },
    }
}

// An open transaction with a number of reads.
fn live(txn: u32, reads: u8, base: u8) -> Live {
    let unread = Read {
        key: 0,
        id: Id::NONE,
    };
    let mut list = [unread; Station::READS];
    for (place, key) in list.iter_mut().zip(0..reads) {
        *place = read(key, base);
    }
    Live {
        txn,
        phase: Phase::Open,
        keys: 0,
        values: [0; Station::WRITE_PLACES],
        read_count: reads,
        reads: list,
    }
}

// Slots below `entries` are held; places below `lives` are open with `reads` reads at the versions of slots `base` and `base + 1`.
fn station(entries: u8, lives: u8, reads: u8, base: u8) -> Station {
    let mut s = Station::empty();
    for (place, slot) in s.entries.iter_mut().zip(0..entries) {
        *place = entry(slot);
    }
    for (place, i) in s.live.iter_mut().zip(0..lives) {
        *place = live(1000 + u32::from(i), reads, base);
    }
    s
}

// A number for each kind of answer, so that the work can be compared.
fn code(a: Answer) -> u64
    ensures { result < 200000 }
{
    match a {
        Answer::Started => 1,
        Answer::Kept => 2,
        Answer::Own(v) => v % 65536 + 16,
        Answer::Version(v, _) => v % 65536 + 17,
        Answer::None => 3,
        Answer::Nofit(k) => u64::from(k) + 22,
        Answer::Closing(d) => u64::from(d) + 18,
        Answer::Empty => 5,
        Answer::Done(_) => 6,
        Answer::Stored(k) => u64::from(k) + 19,
        Answer::Slipped(d) => u64::from(d) + 20,
        Answer::Dropped => 7,
        Answer::Collected(_) => 8,
        Answer::Found(n) => u64::from(n) + 21,
        Answer::Refused(n, _) => u64::from(n) + 100000,
        Answer::Swept(n) => u64::from(n) + 23,
        Answer::Moved(n) => u64::from(n) + 29,
    }
}

pub fn bench_put(rounds: u64, entries: u8, lives: u8, reads: u8, base: u8) -> u64 {
    let mut s = station(entries, lives, reads, base);
    let mut last = 0;
    for i in 0..rounds {
        let o = put(s, 1000, (i % 8) as u8, i);
        s = o.station;
        last = code(o.answer);
    }
    last
}

// Start and abort.
pub fn bench_start(rounds: u64, entries: u8, lives: u8, reads: u8, base: u8) -> u64 {
    let mut s = station(entries, lives, reads, base);
    let mut last = 0;
    for i in 0..rounds {
        let begun = start(s, 77);
        let ended = abort(begun.station, 77);
        s = ended.station;
        last = code(begun.answer) + code(ended.answer);
    }
    last
}

// A commit of a held transaction.
pub fn bench_retry(rounds: u64, entries: u8, lives: u8, reads: u8, base: u8) -> u64 {
    let mut s = station(entries, lives, reads, base);
    let mut last = 0;
    for _ in 0..rounds {
        let o = commit(s, 1, 5);
        s = o.station;
        last = code(o.answer);
    }
    last
}

pub fn bench_get(
    store: &[u8],
    rounds: u64,
    entries: u8,
    lives: u8,
    reads: u8,
    base: u8,
    key: u8,
) -> u64 {
    let mut s = station(entries, lives, reads, base);
    let mut last = 0;
    for _ in 0..rounds {
        let o = get(s, store, 1000, key);
        s = o.station;
        last = code(o.answer);
    }
    last
}

// ---- soundness tested once, before the first call
// A request by its verb's number, as the C interface counts them.
fn asked(verb: u8, i: u64) -> Command {
    match verb {
        1 => Command::Start(77),
        2 => Command::Put(1000, (i % 8) as u8, i),
        3 => Command::Get(1000, 0),
        4 => Command::Commit(1, 5),
        5 => Command::Step(1000),
        6 => Command::Abort(77),
        7 => Command::Collect(64),
        8 => Command::Cut,
        _ => Command::Malformed,
    }
}

pub fn bench_known(
    store: &mut [u8],
    verb: u8,
    rounds: u64,
    entries: u8,
    lives: u8,
    reads: u8,
    base: u8,
) -> u64 {
    let mut s = station(entries, lives, reads, base);
    if !is_sound(s) {
        return 0;
    }
    let mut last = 0;
    for i in 0..rounds {
        let request = Request {
            command: asked(verb, i),
            tested: true,
        };
        let o = act(s, store, request);
        s = o.station;
        last = code(o.answer);
    }
    last
}

// Start, two puts and commit.
fn closing(station: Station, txn: u32, value: u64) -> Outcome {
    let begun = start(station, txn).station;
    let one = put(begun, txn, 40, value).station;
    let two = put(one, txn, 41, value).station;
    commit(two, txn, 1000 + value % 1000000)
}

// Four steps.
fn stored(station: Station, store: &mut [u8], txn: u32) -> Outcome {
    let one = step(station, store, txn).station;
    let two = step(one, store, txn).station;
    let three = step(two, store, txn).station;
    step(three, store, txn)
}

#[derive(Clone, Copy)]
struct Turn {
    station: Station,
    before: u8,
    sum: u64,
}

// A whole transaction, and a collect of the one before it. The slot of a commit that does not begin to close is 64.
fn take_turn(station: Station, store: &mut [u8], before: u8, i: u64) -> Turn {
    let txn = 5000 + (i % 2) as u32;
    let begun = closing(station, txn, i);
    let done = stored(begun.station, store, txn);
    let collected = collect(done.station, store, before);
    Turn {
        station: collected.station,
        before: match begun.answer {
            Answer::Closing(slot) => slot,
            _ => 64,
        },
        sum: code(done.answer) + code(collected.answer),
    }
}

pub fn bench_transaction(
    store: &mut [u8],
    rounds: u64,
    entries: u8,
    lives: u8,
    reads: u8,
    base: u8,
) -> u64 {
    let mut s = station(entries, lives, reads, base);
    let mut sum = 0;
    let mut before = 64;
    for i in 0..rounds {
        let turn = take_turn(s, store, before, i);
        s = turn.station;
        before = turn.before;
        sum = turn.sum;
    }
    sum
}

pub fn bench_scan(store: &[u8], rounds: u64) -> u64 {
    let mut last = 0;
    for _ in 0..rounds {
        last = code(scan(store).answer);
    }
    last
}

// A wide store.
pub fn bench_scan_wide(store: &[u8], rounds: u64) -> u64 {
    let mut last = 0;
    for _ in 0..rounds {
        last = code(scan_wide(store).answer);
    }
    last
}

// ---- clearing: over a store of its own each round, one after the other in what is lent
// A sweep of the station.
pub fn bench_sweep(
    stores: &mut [u8],
    entries: u8,
    lives: u8,
    reads: u8,
    base: u8,
    limit: u64,
) -> u64 {
    let s = station(entries, lives, reads, base);
    let mut last = 0;
    for store in stores.chunks_exact_mut(Station::STORE) {
        last = code(sweep(s, store, limit).answer);
    }
    last
}

// Single collects, from a slot on: the last answer.
fn collects(station: Station, store: &mut [u8], first: u8, limit: u8) -> u64 {
    let mut s = station;
    let mut last = 0;
    for i in 0..limit {
        let o = collect(s, store, first % 64 + i % 64);
        s = o.station;
        last = code(o.answer);
    }
    last
}

pub fn bench_collects(
    stores: &mut [u8],
    entries: u8,
    lives: u8,
    reads: u8,
    base: u8,
    first: u8,
    limit: u8,
) -> u64 {
    let s = station(entries, lives, reads, base);
    let mut last = 0;
    for store in stores.chunks_exact_mut(Station::STORE) {
        last = collects(s, store, first, limit);
    }
    last
}

// ---- printing
// Lines of a version's answer, each over the one before; the length of the last.
pub fn bench_print(out: &mut [u8], rounds: u64, value: u64, clock: u64, txn: u32) -> u64 {
    if out.len() < 96 {
        return 0;
    }
    let id = Id { clock, txn };
    let mut last = 0;
    for i in 0..rounds {
        last = print_line(out, i + 1, Answer::Version(value, id)) as u64;
    }
    last
}

// ---- the moves
pub fn bench_move_out(narrow: &[u8], wide: &mut [u8], rounds: u64) -> u64 {
    let mut last = 0;
    for _ in 0..rounds {
        last = code(move_out(narrow, wide));
    }
    last
}

pub fn bench_move_back(wide: &[u8], narrow: &mut [u8], rounds: u64) -> u64 {
    let mut last = 0;
    for _ in 0..rounds {
        last = code(move_back(wide, narrow));
    }
    last
}
