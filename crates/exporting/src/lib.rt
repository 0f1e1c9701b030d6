// A narrow store's committed set as a RESP stream (02 §11), in lent bytes. The store is scanned first and never written.
#![tactic(auto)]

ghost use Rattle.std.specs.Prelude.{◌≡◌, ◌+◌, ◌*◌, ◌≤◌, ◌<◌, length, get_or};
ghost use Rattle.model.specs.Limits.{entry_places};
ghost use Rattle.model.specs.Kinds.{narrow_kind, slot_size, store_size};
ghost use Rattle.model.specs.KeySets.{key_set};
ghost use Rattle.model.specs.Listed.{listed_entry, listed_entries};
ghost use Rattle.reading.specs.Columns.{AreRows};
ghost use Rattle.decimal.specs.Written.{written};
ghost use Rattle.resp.specs.Streams.{id_text, versions_text, transaction_text, stream_of};
ghost use Rattle.resp.specs.Exports.{writes_at, transaction_at, export};
ghost use Rattle.exporting.specs.Order.{AreWritten, backwards};

use keysets::Keys;
use model::{Answer, Entry, Kind, Refusal, Station};
use reading::{Candidates, clocks_of, held_of, newest_first, txns_of};
use records::value_in;
use recovery::scan_of;
use resp::{ID_TEXT, Refused, Transfer, write_commit_command, write_id, write_version_command};

// The bytes of the target.
const TARGET: usize = 65536;

// The versions of a slot, keys ascending, the id as text; the place after them.
fn write_versions(out: &mut [u8], start: usize, slot: &[u8], id: &[u8], e: Entry) -> usize
    requires { (length slot.now ≡ slot_size narrow_kind) × (id.now ≡ id_text e.id) × (length (key_set e.keys) ≤ 8) × (start + 1024 ≤ length out.old) }
    ensures { (result ≡ start + length (versions_text e.id (writes_at slot.now 0 1 (key_set e.keys)))) × (result ≤ start + 83 * length (key_set e.keys)) × (out.new ≡ written out.old start (versions_text e.id (writes_at slot.now 0 1 (key_set e.keys)))) }
{
    let mut at = start;
    for (n, key) in Keys(e.keys).enumerate() {
        let place = Station::RECORD * (n + 1);
        let value = value_in(&slot[place..place + Station::RECORD]);
        at = write_version_command(out, at, key, id, value);
    }
    at
}

// A committed slot's transaction: its versions, then its commit; the place after it.
fn write_transaction(out: &mut [u8], start: usize, slot: &[u8], e: Entry) -> usize
    requires { (length slot.now ≡ slot_size narrow_kind) × (1 ≤ length (key_set e.keys)) × (length (key_set e.keys) ≤ 8) × (start + 1024 ≤ length out.old) }
    ensures { (result ≡ start + length (transaction_text (transaction_at slot.now 0 (listed_entry e)))) × (result ≤ start + 747) × (out.new ≡ written out.old start (transaction_text (transaction_at slot.now 0 (listed_entry e)))) }
{
    let mut text = [0u8; ID_TEXT];
    let size = write_id(&mut text, e.id);
    let at = write_versions(out, start, slot, &text[..size], e);
    write_commit_command(out, at, &text[..size], e.keys)
}

// The transactions of the first n slots, from the last to the first; the length of their stream.
fn write_stream(
    out: &mut [u8],
    store: &[u8],
    entries: [Entry; Station::SLOTS],
    order: Candidates,
) -> usize
    requires { (length out.old ≡ 65536) × (length store.now ≡ store_size narrow_kind) × AreWritten (listed_entries entries) order.n order.slots }
    ensures { (result ≡ length (stream_of (backwards store.now (listed_entries entries) order.slots order.n))) × (out.new ≡ written out.old 0 (stream_of (backwards store.now (listed_entries entries) order.slots order.n))) }
{
    let mut at = 0;
    for &slot in order.slots[..order.n].iter().rev() {
        let d = usize::from(slot);
        let place = Station::SLOT * d;
        at = write_transaction(out, at, &store[place..place + Station::SLOT], entries[d]);
    }
    at
}

// The stream of a narrow store's committed set, oldest first, over the front of the target; its length. Refused with 1 where either has another
// length, with 18 and the slot where the store is damaged; then no byte is written.
pub fn export(store: &[u8], target: &mut [u8]) -> Transfer
    ensures { (result ≡ (export store.now target.old).answer) × (target.new ≡ (export store.now target.old).target) }
{
    if store.len() != Station::STORE || target.len() != TARGET {
        return Err(Refusal::StoreLength.into());
    }
    let scanned = scan_of(Kind::Narrow, store);
    if let Answer::Refused(number, slot) = scanned.answer {
        return Err(Refused { number, slot });
    }
    let entries = scanned.station.entries;
    let held = held_of(entries);
    let clocks = clocks_of(entries);
    let txns = txns_of(entries);
    let order = newest_first(&held, &clocks, &txns);
    Ok(write_stream(target, store, entries, order))
}
