// The calls over a store: get, step, collect (scan is in crate recovery). Each takes what the soundness test says of the station, and
// decides the change that its definition makes (model's specs/Get, Step, Collect): the tests in the order of the table of refusals, then
// the effect. A refusal changes no byte; a record is written whole, into its own 24 bytes lent to the record writer.
#![tactic(auto)]

ghost use Rattle.std.specs.Prelude.{◌≡◌, true, false, not, ◌+◌, ◌<◌, ◌≤◌, leb, length, IfOk, IfErr, MatchOption};
ghost use Rattle.model.specs.Lists.{◌and◌};
ghost use Rattle.model.specs.Limits.{read_limit, record_size};
ghost use Rattle.model.specs.Kinds.{narrow_kind, width, store_size};
ghost use Rattle.model.specs.Lives.{write_count, has_read};
ghost use Rattle.model.specs.Entries.{wrote, commit_record, record_of};
ghost use Rattle.model.specs.Records.{value_in, version_record, zero_record, carries_version, record_place, record_at, with_record};
ghost use Rattle.model.specs.KeySets.{key_set};
ghost use Rattle.model.specs.Listed.{kind_of, listed_live, listed_entry, listed};
ghost use Rattle.model.specs.Sound.{sound};
ghost use Rattle.model.specs.Effects.{stored, says};
ghost use Rattle.model.specs.Refusals.{number_of};
ghost use Rattle.model.specs.Get.{get};
ghost use Rattle.model.specs.Step.{step};
ghost use Rattle.model.specs.Collect.{collect};
ghost use Rattle.stations.specs.Changes.{IsChange};
ghost use Rattle.storing.specs.Parts.{record_answer, record_stored};

use keysets::nth_key;
use model::{Answer, Entry, Id, Kind, Live, Phase, Refusal, Station, write_count};
use reading::{Chosen, choose_version, is_read, is_superseded};
use records::{carries_entry, carries_version, value_in, write_commit, write_version, write_zero};
use stations::{
    Change, entry_changed, entry_for, has_read, has_written, live_changed, named_at, no_entry,
    no_live, open_at, record_of, refused, unchanged, value_under, with_phase, with_read,
};

// ---- one record of a slot, written whole
// Where record n of a slot begins.
pub fn record_place(kind: Kind, slot: usize, n: usize) -> usize
    requires slot_bound { slot < (kind_of kind).slots }
    requires n_bound { n < width (kind_of kind) }
    ensures { (result ≡ record_place (kind_of kind) slot n) × (result + record_size ≤ store_size (kind_of kind)) × (result + record_size ≤ store_size narrow_kind) }
{
    match kind {
        Kind::Narrow => Station::SLOT * slot + Station::RECORD * n,
        Kind::Wide => Station::WIDE_SLOT * slot + Station::RECORD * n,
    }
}

fn store_version(kind: Kind, store: &mut [u8], slot: usize, n: usize, key: u8, id: Id, value: u64)
    requires store_len { length store.old ≡ store_size (kind_of kind) }
    requires slot_bound { slot < (kind_of kind).slots }
    requires n_bound { n < width (kind_of kind) }
    ensures { store.new ≡ with_record (kind_of kind) store.old slot n (version_record key id value) }
{
    let at = record_place(kind, slot, n);
    write_version(&mut store[at..at + Station::RECORD], key, id, value);
}

fn store_commit(kind: Kind, store: &mut [u8], slot: usize, e: Entry)
    requires store_len { length store.old ≡ store_size (kind_of kind) }
    requires slot_bound { slot < (kind_of kind).slots }
    requires keys_len_bound { length (key_set e.keys) ≤ (kind_of kind).write_limit }
    ensures { store.new ≡ with_record (kind_of kind) store.old slot 0 (commit_record (kind_of kind) (listed_entry e)) }
{
    let at = record_place(kind, slot, 0);
    write_commit(kind, &mut store[at..at + Station::RECORD], e);
}

// Zeros over the commit record: the slot is free.
pub fn store_zero(kind: Kind, store: &mut [u8], slot: usize)
    requires store_len { length store.old ≡ store_size (kind_of kind) }
    requires slot_bound { slot < (kind_of kind).slots }
    ensures { store.new ≡ with_record (kind_of kind) store.old slot 0 zero_record }
{
    let commit = record_place(kind, slot, 0);
    write_zero(&mut store[commit..commit + Station::RECORD]);
}

// ---- get
// No room for a key in a read set.
fn no_read_room(l: Live, key: u8) -> bool
    requires { l.read_count ≤ read_limit }
    ensures { result ≡ (not (has_read key (listed_live l)) and leb read_limit l.read_count) }
{
    !has_read(l, key) && l.read_count >= Station::READS_U8
}

// The value of a key in the slot of an entry that wrote it, if the version record carries its key and id.
fn read_version(kind: Kind, store: &[u8], slot: usize, e: Entry, key: u8) -> Option<u64>
    requires store_len { length store.now ≡ store_size (kind_of kind) }
    requires slot_bound { slot < (kind_of kind).slots }
    requires keys_len_bound { (length (key_set e.keys) ≤ (kind_of kind).write_limit) × (wrote (listed_entry e) key ≡ true) }
    ensures { let r = record_at (kind_of kind) store.now slot (record_of (listed_entry e) key) in MatchOption result (carries_version r key e.id ≡ false) (λ value. (carries_version r key e.id ≡ true) × (value ≡ value_in r)) }
{
    let at = record_place(kind, slot, record_of(e, key));
    let record = &store[at..at + Station::RECORD];
    if carries_version(record, key, e.id) {
        Some(value_in(record))
    } else {
        None
    }
}

// Reads a key: the transaction's own value, or the version that Algorithm 1 chooses.
pub fn get(station: Station, tested: bool, store: &[u8], txn: u32, key: u8) -> Change
    requires { tested ≡ sound (listed station) }
    ensures { IsChange station (get (listed station) store.now txn key) result }
{
    match try_get(station, tested, store, txn, key) {
        Ok(change) => change,
        Err(refusal) => refused(station, refusal),
    }
}

#[inline(always)]
fn try_get(
    station: Station,
    tested: bool,
    store: &[u8],
    txn: u32,
    key: u8,
) -> Result<Change, Refusal>
    requires { tested ≡ sound (listed station) }
    ensures ok { IfOk result (IsChange station (get (listed station) store.now txn key)) }
    ensures err { IfErr result (λ refusal. get (listed station) store.now txn key ≡ says (Answer.Refused (number_of refusal) 0) (listed station)) }
{
    let kind = station.kind;
    if store.len() != kind.store_size() {
        return Err(Refusal::StoreLength);
    }
    let place = open_at(station.live, tested, txn, key)?;
    // Measured: here an index costs less than live_at.
    let l = station.live[place];
    if has_written(l, key) {
        return Ok(unchanged(station, Answer::Own(value_under(l, key))));
    }
    let chosen = choose_version(station.entries, l, key);
    let slot = match chosen {
        Chosen::None => return Ok(unchanged(station, Answer::None)),
        Chosen::Nofit(k) => return Ok(unchanged(station, Answer::Nofit(k))),
        Chosen::Version(slot) => usize::from(slot),
    };
    if no_read_room(l, key) {
        return Err(Refusal::ReadsFull);
    }
    let e = station.entries[slot];
    let Some(value) = read_version(kind, store, slot, e, key) else {
        return Err(Refusal::RecordChanged);
    };
    let joined = with_read(l, key, e.id);
    Ok(live_changed(station, Answer::Version(value, e.id), place, joined))
}

// ---- step
// The next record of a closing transaction with n records stored: a version record, or after all of them the commit record.
fn store_record(kind: Kind, store: &mut [u8], l: Live, e: Entry, slot: u8, n: u8) -> Answer
    requires store_len { length store.old ≡ store_size (kind_of kind) }
    requires slot_bound { slot < (kind_of kind).slots }
    requires n_bound { (n ≤ write_count (listed_live l)) × (write_count (listed_live l) ≤ (kind_of kind).write_limit) × (length (key_set e.keys) ≤ (kind_of kind).write_limit) }
    ensures { (result ≡ record_answer (listed_live l) slot n) × (store.new ≡ record_stored (kind_of kind) (listed_live l) (listed_entry e) slot n store.old) }
{
    let d = usize::from(slot);
    if n == write_count(l) {
        store_commit(kind, store, d, e);
        return Answer::Slipped(slot);
    }
    let j = usize::from(n);
    let key = nth_key(l.keys, j);
    let value = l.values[j];
    store_version(kind, store, d, j + 1, key, e.id, value);
    Answer::Stored(key)
}

// Stores the next record of a closing transaction; after the commit record, acknowledges.
pub fn step(station: Station, tested: bool, store: &mut [u8], txn: u32) -> Change
    requires { tested ≡ sound (listed station) }
    ensures { (IsChange station (step (listed station) store.old txn) result) × (store.new ≡ stored (step (listed station) store.old txn).stores store.old) }
{
    match try_step(station, tested, store, txn) {
        Ok(change) => change,
        Err(refusal) => refused(station, refusal),
    }
}

// Measured: marked `#[inline(always)]`, as try_get is, it copies the station once more.
fn try_step(station: Station, tested: bool, store: &mut [u8], txn: u32) -> Result<Change, Refusal>
    requires { tested ≡ sound (listed station) }
    ensures ok { IfOk result (IsChange station (step (listed station) store.old txn)) }
    ensures err { IfErr result (λ refusal. step (listed station) store.old txn ≡ says (Answer.Refused (number_of refusal) 0) (listed station)) }
    ensures store { store.new ≡ stored (step (listed station) store.old txn).stores store.old }
{
    let kind = station.kind;
    if store.len() != kind.store_size() {
        return Err(Refusal::StoreLength);
    }
    let place = named_at(station.live, tested, txn, 0)?;
    // Measured: here too an index costs less.
    let l = station.live[place];
    let phase = l.phase;
    let Phase::Closing(slot, clock, n) = phase else {
        return Err(Refusal::NotClosing);
    };
    let d = usize::from(slot);
    let e = entry_for(l);
    if n > write_count(l) {
        let unused = no_live();
        return Ok(Change {
            answer: Answer::Done(e.id),
            place,
            live: unused,
            slot: d,
            entry: e,
        });
    }
    let on = with_phase(l, Phase::Closing(slot, clock, n + 1));
    let answer = store_record(kind, store, l, e, slot, n);
    Ok(live_changed(station, answer, place, on))
}

// ---- collect
// Frees the slot of an entry that is superseded on every key it wrote and that no live transaction has read.
pub fn collect(station: Station, tested: bool, store: &mut [u8], slot: u8) -> Change
    requires { tested ≡ sound (listed station) }
    ensures { (IsChange station (collect (listed station) store.old slot) result) × (store.new ≡ stored (collect (listed station) store.old slot).stores store.old) }
{
    match try_collect(station, tested, store, slot) {
        Ok(change) => change,
        Err(refusal) => refused(station, refusal),
    }
}

// Measured: marked so too, a collect zeroes two places more.
fn try_collect(
    station: Station,
    tested: bool,
    store: &mut [u8],
    slot: u8,
) -> Result<Change, Refusal>
    requires { tested ≡ sound (listed station) }
    ensures ok { IfOk result (IsChange station (collect (listed station) store.old slot)) }
    ensures err { IfErr result (λ refusal. collect (listed station) store.old slot ≡ says (Answer.Refused (number_of refusal) 0) (listed station)) }
    ensures store { store.new ≡ stored (collect (listed station) store.old slot).stores store.old }
{
    let kind = station.kind;
    if store.len() != kind.store_size() {
        return Err(Refusal::StoreLength);
    }
    if !tested {
        return Err(Refusal::Unsound);
    }
    let d = usize::from(slot);
    if d >= kind.slots() || station.entries[d].id.txn == 0 {
        return Err(Refusal::NotHeld);
    }
    let e = station.entries[d];
    if !is_superseded(station.entries, d) {
        return Err(Refusal::Newest);
    }
    if is_read(&station.live, e.id) {
        return Err(Refusal::IsRead);
    }
    let at = record_place(kind, d, 0);
    if !carries_entry(kind, &store[at..at + Station::RECORD], e) {
        return Err(Refusal::RecordChanged);
    }
    store_zero(kind, store, d);
    let free = no_entry();
    Ok(entry_changed(station, Answer::Collected(e.id), d, free))
}
