// The store's nine public calls and their types, under one name. Each takes whatever comes: any numbers, any station, any store bytes. All
// but scan (crate recovery; of a wide store scan_wide) test the station's soundness; what they then come to is decided in the crates transactions and storing,
// a sweep in crate sweeping.
#![tactic(auto)]

ghost use Rattle.std.specs.Prelude.{◌≡◌};
ghost use Rattle.model.specs.Listed.{listed, listed_outcome};
ghost use Rattle.model.specs.Effects.{outcome_of, stored};
ghost use Rattle.model.specs.Start.{start};
ghost use Rattle.model.specs.Put.{put};
ghost use Rattle.model.specs.Get.{get};
ghost use Rattle.model.specs.Commit.{commit};
ghost use Rattle.model.specs.Step.{step};
ghost use Rattle.model.specs.Abort.{abort};
ghost use Rattle.model.specs.Collect.{collect};
ghost use Rattle.model.specs.Sweep.{sweep};

pub use model::{Answer, Entry, Id, Kind, Live, Outcome, Phase, Read, Station};
pub use recovery::{scan, scan_of, scan_wide};
use soundness::is_sound;
use stations::changed;

// Makes a transaction live and open, with empty sets, in the lowest unused place.
pub fn start(station: Station, txn: u32) -> Outcome
    ensures { listed_outcome result ≡ outcome_of (start (listed station) txn) }
{
    let tested = is_sound(station);
    let change = transactions::start(station, tested, txn);
    changed(station, change)
}

// Adds a key to the write set, or replaces its value.
pub fn put(station: Station, txn: u32, key: u8, value: u64) -> Outcome
    ensures { listed_outcome result ≡ outcome_of (put (listed station) txn key value) }
{
    let tested = is_sound(station);
    let change = transactions::put(station, tested, txn, key, value);
    changed(station, change)
}

// Reads a key: the transaction's own value, or the version that Algorithm 1 chooses.
pub fn get(station: Station, store: &[u8], txn: u32, key: u8) -> Outcome
    ensures { listed_outcome result ≡ outcome_of (get (listed station) store.now txn key) }
{
    let tested = is_sound(station);
    let change = storing::get(station, tested, store, txn, key);
    changed(station, change)
}

// Begins to close a transaction, in the highest free slot. A read-only one is over at once, and a retry of a held one changes nothing.
pub fn commit(station: Station, txn: u32, clock: u64) -> Outcome
    ensures { listed_outcome result ≡ outcome_of (commit (listed station) txn clock) }
{
    let tested = is_sound(station);
    let change = transactions::commit(station, tested, txn, clock);
    changed(station, change)
}

// Stores the next record of a closing transaction; after the commit record, acknowledges.
pub fn step(station: Station, store: &mut [u8], txn: u32) -> Outcome
    ensures { (listed_outcome result ≡ outcome_of (step (listed station) store.old txn)) × (store.new ≡ stored (step (listed station) store.old txn).stores store.old) }
{
    let tested = is_sound(station);
    let change = storing::step(station, tested, store, txn);
    changed(station, change)
}

// Forgets an open transaction.
pub fn abort(station: Station, txn: u32) -> Outcome
    ensures { listed_outcome result ≡ outcome_of (abort (listed station) txn) }
{
    let tested = is_sound(station);
    let change = transactions::abort(station, tested, txn);
    changed(station, change)
}

// Frees the slot of an entry that is superseded on every key it wrote and that no live transaction has read.
pub fn collect(station: Station, store: &mut [u8], slot: u8) -> Outcome
    ensures { (listed_outcome result ≡ outcome_of (collect (listed station) store.old slot)) × (store.new ≡ stored (collect (listed station) store.old slot).stores store.old) }
{
    let tested = is_sound(station);
    let change = storing::collect(station, tested, store, slot);
    changed(station, change)
}

// Collects the oldest entries that may be collected, at most so many, and answers how many: as that many collects one after the other.
pub fn sweep(station: Station, store: &mut [u8], limit: u64) -> Outcome
    ensures { (listed_outcome result ≡ outcome_of (sweep (listed station) store.old limit)) × (store.new ≡ stored (sweep (listed station) store.old limit).stores store.old) }
{
    let tested = is_sound(station);
    sweeping::sweep(station, tested, store, limit)
}
