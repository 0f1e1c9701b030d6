// Whether a station is sound, as model's specs/Sound.antt defines it.
#![tactic(auto)]

ghost use Rattle.std.specs.Prelude.{◌≡◌, ◌+◌, ◌≤◌, eqb, length, drop};
ghost use Rattle.model.specs.Limits.{live_places, entry_places, read_limit};
ghost use Rattle.model.specs.Lists.{all, count, distinct};
ghost use Rattle.model.specs.Listed.{kind_of, listed_live, listed_lives, listed_entry, listed_entries, listed};
ghost use Rattle.model.specs.Sound.{is_no_read, is_no_live, entry_right, sound};
ghost use Rattle.soundness.specs.Parts.{fits, is_zero, writes_right, reads_right, lists_right, counts_right, shape, named_by, place_fits, slot_free, none_past};

use keysets::{has_key, key_count};
use model::{Entry, Kind, Live, Phase, Read, Station, write_count};

// Transactions, live and held, at most.
const TXNS: usize = Station::LIVE + Station::SLOTS;

// ---- entries ----
// 02 §5: "1 to 8 ones for an entry"; of a wide store 16.
fn entry_right(kind: Kind, e: Entry) -> bool
    ensures { result ≡ entry_right (kind_of kind) (listed_entry e) }
{
    let n = key_count(e.keys);
    if n == 0 {
        e.id.clock == 0 && e.id.txn == 0
    } else {
        usize::from(n) <= kind.write_limit() && e.id.txn != 0 && e.id.clock != 0
    }
}

// ---- a live place by itself ----
// All are zero: they are or-ed and tested once.
fn no_values(values: &[u64]) -> bool
    ensures { result ≡ all is_zero values.now }
{
    let mut any = 0;
    for value in values {
        any |= *value;
    }
    any == 0
}

// All reads are zero, tested so.
fn no_reads(reads: &[Read]) -> bool
    ensures { result ≡ all is_no_read reads.now }
{
    let mut keys = 0;
    let mut clocks = 0;
    let mut txns = 0;
    for read in reads {
        keys |= read.key;
        clocks |= read.id.clock;
        txns |= read.id.txn;
    }
    keys == 0 && clocks == 0 && txns == 0
}

fn unused_right(l: &Live) -> bool
    ensures { result ≡ is_no_live (listed_live l.now) }
{
    l.keys == 0 && l.txn == 0 && l.read_count == 0 && no_values(&l.values) && no_reads(&l.reads)
}

// The write set: within its limit, the values past it zero. Its keys are a number's, and ascend.
fn writes_right(kind: Kind, l: &Live) -> bool
    ensures { result ≡ writes_right (kind_of kind) (listed_live l.now) }
{
    let n = usize::from(key_count(l.keys));
    n <= kind.write_limit() && no_values(&l.values[n..])
}

// A place in use but for its phase and its reads.
fn lists_right(kind: Kind, l: &Live) -> bool
    ensures { result ≡ lists_right (kind_of kind) (listed_live l.now) }
{
    l.txn != 0 && l.read_count <= Station::READS_U8 && writes_right(kind, l)
}

// A closing transaction's clock, records stored and keys written.
fn counts_right(clock: u64, stored: u8, writes: u8) -> bool
    ensures { result ≡ counts_right clock stored writes }
{
    writes != 0 && clock != 0 && usize::from(stored) <= usize::from(writes) + 1
}

// A live place but for its reads: these are tested with the entries that they name.
fn shape_right(kind: Kind, l: &Live) -> bool
    ensures { result ≡ shape (kind_of kind) (listed_live l.now) }
{
    match l.phase {
        Phase::Unused => unused_right(l),
        Phase::Open => lists_right(kind, l),
        Phase::Closing(_, clock, stored) => {
            counts_right(clock, stored, write_count(*l)) && lists_right(kind, l)
        }
    }
}

// ---- numbers that nothing else has ----
// How often a number stands in the list. A loop with no other way out, and a count as wide as the numbers, compares several at a time.
fn times(xs: &[u32], x: u32) -> u32
    requires { length xs.now ≤ live_places + entry_places }
    ensures { result ≡ count (eqb x) xs.now }
{
    let mut n = 0;
    for y in xs {
        if *y == x {
            n += 1;
        }
    }
    n
}

// No number but 0 stands twice. Numbers are told apart by their lowest byte first: only where it was seen before is a number counted.
fn differ(xs: &[u32]) -> bool
    requires { length xs.now ≤ live_places + entry_places }
    ensures { result ≡ distinct xs.now }
{
    let mut seen = [false; 256];
    for x in xs {
        if *x != 0 {
            let byte = (*x % 256) as usize;
            if seen[byte] && 1 < times(xs, *x) {
                return false;
            }
            seen[byte] = true;
        }
    }
    true
}

// A closing transaction's slot, counted from 1, is among so many and not held.
fn slot_free(most: usize, txns: &[u32; TXNS], mark: u32) -> bool
    requires { most ≤ entry_places }
    ensures { result ≡ slot_free most txns.now mark }
{
    let slot = mark as usize;
    slot == 0 || slot <= most && txns[slot + Station::LAST_PLACE] == 0
}

fn slots_free(most: usize, txns: &[u32; TXNS], marks: &[u32]) -> bool
    requires { most ≤ entry_places }
    ensures { result ≡ all (slot_free most txns.now) marks.now }
{
    marks.iter().all(|mark| slot_free(most, txns, *mark))
}

// No entry past so many is held: of a kind with fewer slots than there are entries, the rest are unused.
fn none_past(most: usize, txns: &[u32; TXNS]) -> bool
    requires { most ≤ entry_places }
    ensures { result ≡ none_past most txns.now }
{
    txns[Station::LIVE + most..].iter().all(|txn| *txn == 0)
}

// ---- reads ----
fn key_fits(low: u8, key: u8) -> bool
    ensures { result ≡ fits low key }
{
    low <= key && key < Station::KEYS_U8
}

// The entry of a read's transaction, found by the column of transactions, has the read's id and wrote its key.
fn is_named(entries: &[Entry; Station::SLOTS], txns: &[u32; TXNS], read: Read) -> bool
    ensures { result ≡ named_by (listed_entries entries.now) txns.now read }
{
    let held = &txns[Station::LIVE..];
    match held.iter().position(|txn| *txn == read.id.txn) {
        Some(slot) => entries[slot].id == read.id && has_key(entries[slot].keys, read.key),
        None => false,
    }
}

fn reads_right(entries: &[Entry; Station::SLOTS], txns: &[u32; TXNS], l: &Live) -> bool
    requires { l.now.read_count ≤ read_limit }
    ensures { result ≡ reads_right (named_by (listed_entries entries.now) txns.now) (listed_live l.now) }
{
    let n = usize::from(l.read_count);
    let mut low = 0;
    for read in &l.reads[..n] {
        if !key_fits(low, read.key) || !is_named(entries, txns, *read) {
            return false;
        }
        low = read.key + 1;
    }
    no_reads(&l.reads[n..])
}

// ---- the station ----
// Where the reads of a place are tested, the entries and the transactions are right: only the entry found by a read's transaction can then be the one
// that it names.
fn place_right(kind: Kind, entries: &[Entry; Station::SLOTS], txns: &[u32; TXNS], l: &Live) -> bool
    ensures { result ≡ place_fits (kind_of kind) (listed_entries entries.now) txns.now (listed_live l.now) }
{
    shape_right(kind, l) && (matches!(l.phase, Phase::Unused) || reads_right(entries, txns, l))
}

fn places_right(
    kind: Kind,
    entries: &[Entry; Station::SLOTS],
    txns: &[u32; TXNS],
    live: &[Live],
) -> bool
    ensures { result ≡ all (place_fits (kind_of kind) (listed_entries entries.now) txns.now) (listed_lives live.now) }
{
    live.iter().all(|l| place_right(kind, entries, txns, l))
}

pub fn is_sound(station: Station) -> bool
    ensures { result ≡ sound (listed station) }
{
    let kind = station.kind;
    // The transactions of the live places, then of the entries; 0 where unused.
    let mut txns = [0; TXNS];
    for (d, e) in station.entries.iter().enumerate() {
        if !entry_right(kind, *e) {
            return false;
        }
        txns[Station::LIVE + d] = e.id.txn;
    }
    let mut marks = [0; Station::LIVE];
    for (k, l) in station.live.iter().enumerate() {
        txns[k] = l.txn;
        marks[k] = l.phase.slot_mark();
    }
    let most = kind.slots();
    differ(&txns)
        && places_right(kind, &station.entries, &txns, &station.live)
        && differ(&marks)
        && slots_free(most, &txns, &marks)
        && none_past(most, &txns)
}
