// Many collects in one call: the oldest entries that may be collected, as far as a limit. A collect changes no other entry's being superseded or
// read (collect-leaves-others, model), so they are found and put in order once, and then cleared one after the other.
#![tactic(auto)]

ghost use Rattle.std.specs.Prelude.{◌≡◌, true, false, ◌<◌, ◌≤◌, ltb, length, MatchResult};
ghost use Rattle.model.specs.Lists.{◌and◌, any};
ghost use Rattle.model.specs.Limits as Limits;
ghost use Rattle.model.specs.Kinds as Kinds;
ghost use Rattle.model.specs.Ids.{same_id};
ghost use Rattle.model.specs.Listed.{kind_of, listed_live, listed_lives, listed_entries, listed, listed_outcome};
ghost use Rattle.model.specs.Lives.{reads_of};
ghost use Rattle.model.specs.Sound.{sound};
ghost use Rattle.model.specs.Refusals.{number_of};
ghost use Rattle.model.specs.Effects.{outcome_of, stored};
ghost use Rattle.model.specs.Sweep.{sweep};
ghost use Rattle.stations.specs.Found.{first_row};
ghost use Rattle.reading.specs.Columns.{Column, AreRows, id_at, has_id};
ghost use Rattle.sweeping.specs.Marks.{AlsoMarked, Marked};
ghost use Rattle.sweeping.specs.Sifted.{AreSifted};
ghost use Rattle.sweeping.specs.Order.{AreToCollect, AreToCollectOf};
ghost use Rattle.sweeping.specs.Rows.{sweep_rows};

use keysets::is_within;
use model::{Answer, Entry, Id, Kind, Live, Outcome, Refusal, Station, no_entry, read_count};
use reading::{Candidates, clocks_of, held_of, newest_first, txns_of};
use records::carries_entry;
use storing::{record_place, store_zero};

// ---- which entries live transactions have read
// Whether a row has the id. Transactions mostly differ, so they are compared first.
fn has_id(clocks: &[u64; Station::SLOTS], txns: &[u32; Station::SLOTS], d: usize, id: Id) -> bool
    requires { d < Limits.entry_places }
    ensures { result ≡ same_id (id_at clocks.now txns.now d) id }
{
    txns[d] == id.txn && clocks[d] == id.clock
}

// Marks the rows that have the id.
fn mark_id(
    marks: &mut [bool; Station::SLOTS],
    clocks: &[u64; Station::SLOTS],
    txns: &[u32; Station::SLOTS],
    id: Id,
)
    ensures { AlsoMarked (λ d. same_id (id_at clocks.now txns.now d) id) Limits.entry_places marks.old marks.new }
{
    for (d, mark) in marks.iter_mut().enumerate() {
        if has_id(clocks, txns, d, id) {
            *mark = true;
        }
    }
}

// Those that the transaction has read.
fn mark_reads(
    marks: &mut [bool; Station::SLOTS],
    clocks: &[u64; Station::SLOTS],
    txns: &[u32; Station::SLOTS],
    l: &Live,
)
    ensures { AlsoMarked (λ d. has_id (reads_of (listed_live l.now)) (id_at clocks.now txns.now d)) Limits.entry_places marks.old marks.new }
{
    for read in l.reads.iter().take(read_count(*l)) {
        mark_id(marks, clocks, txns, read.id);
    }
}

// Those that any live transaction has read.
fn read_of(
    live: &[Live; Station::LIVE],
    clocks: &[u64; Station::SLOTS],
    txns: &[u32; Station::SLOTS],
) -> [bool; Station::SLOTS]
    ensures { Marked (λ d. any (λ l. has_id (reads_of l) (id_at clocks.now txns.now d)) (listed_lives live.now)) Limits.entry_places result }
{
    let mut marks = [false; Station::SLOTS];
    for l in live {
        mark_reads(&mut marks, clocks, txns, l);
    }
    marks
}

// ---- which are superseded
// Of all entries, newest first, those that are superseded by the ones before them and not read: all their keys are among those that the ones
// before have written.
fn sifted(
    entries: &[Entry; Station::SLOTS],
    order: &Candidates,
    read: &[bool; Station::SLOTS],
) -> Candidates
    requires { (order.now.n ≤ Limits.entry_places) × AreRows order.now.n order.now.slots }
    ensures { AreSifted (listed_entries entries.now) order.now.slots read.now order.now.n result.n result.slots }
{
    let mut seen = 0;
    let mut slots = [0; Station::SLOTS];
    let mut n = 0;
    for &s in order.slots() {
        let d = usize::from(s);
        let keys = entries[d].keys;
        if is_within(keys, seen) && !read[d] {
            slots[n] = s;
            n += 1;
        }
        seen |= keys;
    }
    Candidates { n, slots }
}

// The slots whose entries may be collected, newest first.
fn to_collect(live: &[Live; Station::LIVE], entries: &[Entry; Station::SLOTS]) -> Candidates
    ensures { AreToCollectOf (listed_lives live.now) (listed_entries entries.now) result.n result.slots }
{
    let clocks = clocks_of(*entries);
    let txns = txns_of(*entries);
    let held = held_of(*entries);
    let order = newest_first(&held, &clocks, &txns);
    let read = read_of(live, &clocks, &txns);
    sifted(entries, &order, &read)
}

// ---- the sweep
// Whether there is one more, and the limit is not reached.
fn goes_on(left: usize, count: u8, limit: u64) -> bool
    ensures { result ≡ (ltb 0 left and ltb count limit) }
{
    left != 0 && u64::from(count) < limit
}

// Clears the last of the slots, which has the oldest entry, and so on to the first, as far as the limit. A commit record that is not its
// entry's ends it.
fn collect_all(station: Station, store: &mut [u8], order: &Candidates, limit: u64) -> Outcome
    requires store_len { length store.old ≡ Kinds.store_size (kind_of station.kind) }
    requires station_value { (sound (listed station) ≡ true) × (0 < limit) × (limit ≤ Limits.sweep_limit) }
    requires are_to_collect { AreToCollect (listed station) order.now.n order.now.slots }
    ensures { (listed_outcome result ≡ outcome_of (sweep (listed station) store.old limit)) × (store.new ≡ stored (sweep (listed station) store.old limit).stores store.old) }
{
    let mut next = station;
    let mut left = order.n;
    let mut count = 0u8;
    while goes_on(left, count, limit) {
        let d = usize::from(order.slots[left - 1]);
        let at = record_place(next.kind, d, 0);
        if !carries_entry(next.kind, &store[at..at + Station::RECORD], next.entries[d]) {
            break;
        }
        store_zero(next.kind, store, d);
        next.entries[d] = no_entry();
        left -= 1;
        count += 1;
    }
    Outcome {
        station: next,
        answer: Answer::Swept(count),
    }
}

// The first of rows 1, 2 and 20 that applies.
fn sweep_row(kind: Kind, size: usize, tested: bool, limit: u64) -> Result<(), Refusal>
    ensures { MatchResult result (λ _. first_row (sweep_rows (kind_of kind) size limit tested) ≡ 0) (λ row. number_of row ≡ first_row (sweep_rows (kind_of kind) size limit tested)) }
{
    if size != kind.store_size() {
        Err(Refusal::StoreLength)
    } else if !tested {
        Err(Refusal::Unsound)
    } else if limit == 0 || limit > Station::SWEEP {
        Err(Refusal::LimitRange)
    } else {
        Ok(())
    }
}

// Collects the oldest entries that may be collected, at most so many, and answers how many.
pub fn sweep(station: Station, tested: bool, store: &mut [u8], limit: u64) -> Outcome
    requires { tested ≡ sound (listed station) }
    ensures { (listed_outcome result ≡ outcome_of (sweep (listed station) store.old limit)) × (store.new ≡ stored (sweep (listed station) store.old limit).stores store.old) }
{
    if let Err(row) = sweep_row(station.kind, store.len(), tested, limit) {
        return Outcome {
            station,
            answer: Answer::Refused(row.number(), 0),
        };
    }
    let order = to_collect(&station.live, &station.entries);
    collect_all(station, store, &order, limit)
}
