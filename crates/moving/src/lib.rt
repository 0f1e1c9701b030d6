// The moves between a narrow store and a wide one (02 §6). The source is scanned and never written; the target is filled from its first byte to its
// last, so that what it held plays no part, and a move that was cut short is begun again.
#![tactic(auto)]

ghost use Rattle.std.specs.Prelude.{◌≡◌, false, ◌++◌, map, ◌+◌, ◌*◌, ◌-◌, ◌<◌, ◌≤◌, length, take, replicate};
ghost use Rattle.model.specs.Lists.{any, count};
ghost use Rattle.model.specs.Limits.{keys, record_size};
ghost use Rattle.model.specs.Kinds.{slot_size, store_size};
ghost use Rattle.model.specs.KeySets.{key_set};
ghost use Rattle.model.specs.Listed.{kind_of, listed_entry, listed_entries};
ghost use Rattle.model.specs.Slots.{committed, seen};
ghost use Rattle.model.specs.Scan.{slots_seen, entries_seen, is_committed};
ghost use Rattle.model.specs.Moves.{too_wide, moved_slot, moved_slots, move, move_out, move_back};

use model::{Answer, Entry, Kind, Refusal, Station};
use records::{clear, copy, write_commit};
use recovery::scan_of;

// How many keys a write set has.
fn key_count(e: &Entry) -> usize
    ensures within { result ≤ keys }
    ensures value { result ≡ length (key_set e.now.keys) }
{
    e.keys.count_ones() as usize
}

// The bytes of a committed slot that are read: its commit record, and the version records of its keys.
fn used_size(e: Entry) -> usize
    ensures { result ≡ record_size * (length (key_set e.keys) + 1) }
{
    Station::RECORD * (key_count(&e) + 1)
}

// The slot of another kind for the committed slot d, over the part lent: its commit record, the version records of its keys, and zeros.
fn move_slot(from: Kind, to: Kind, source: &[u8], d: usize, part: &mut [u8], e: Entry)
    requires source_len { length source.now ≡ store_size (kind_of from) }
    requires d_bound { d < (kind_of from).slots }
    requires part_len { length part.old ≡ slot_size (kind_of to) }
    requires d_value { seen (kind_of from) source.now d ≡ committed (listed_entry e) }
    requires keys_len_bound { length (key_set e.keys) ≤ (kind_of to).write_limit }
    ensures { part.new ≡ moved_slot (kind_of from) (kind_of to) source.now d (listed_entry e) }
{
    let begin = from.slot_size() * d;
    let size = used_size(e);
    copy(part, &source[begin..begin + size]);
    clear(part, size);
    write_commit(to, &mut part[0..Station::RECORD], e);
}

// A write set among the entries has more keys than the kind takes.
fn too_wide(kind: Kind, entries: &[Entry; Station::SLOTS]) -> bool
    ensures { result ≡ any (too_wide (kind_of kind)) (map committed (listed_entries entries.now)) }
{
    let limit = kind.write_limit();
    entries.iter().any(|e| limit < key_count(e))
}

// Committed slots in order into the target's, from its first; where the next would begin.
#[tactic(auto, using(recovery::proofs::ScanSteps::slots_fit))]
fn move_slots(
    from: Kind,
    to: Kind,
    source: &[u8],
    target: &mut [u8],
    entries: &[Entry; Station::SLOTS],
) -> usize
    requires source_len { length source.now ≡ store_size (kind_of from) }
    requires target_len { length target.old ≡ store_size (kind_of to) }
    requires entries_value { listed_entries entries.now ≡ entries_seen (slots_seen (kind_of from) source.now) }
    requires source_bound { count is_committed (slots_seen (kind_of from) source.now) ≤ (kind_of to).slots }
    requires source_value { any (too_wide (kind_of to)) (slots_seen (kind_of from) source.now) ≡ false }
    ensures { (result ≤ length target.new) × (take result target.new ≡ moved_slots (kind_of from) (kind_of to) source.now 0 (slots_seen (kind_of from) source.now)) }
{
    let room = to.slot_size();
    let mut at = 0;
    for d in 0..from.slots() {
        if entries[d].id.txn != 0 {
            move_slot(from, to, source, d, &mut target[at..at + room], entries[d]);
            at += room;
        }
    }
    at
}

// A store into one of another kind. The source is scanned first, and a move that is refused writes nothing.
pub fn move_between(from: Kind, to: Kind, source: &[u8], target: &mut [u8]) -> Answer
    ensures { (result ≡ (move (kind_of from) (kind_of to) source.now target.old).answer) × (target.new ≡ (move (kind_of from) (kind_of to) source.now target.old).target) }
{
    if source.len() != from.store_size() || target.len() != to.store_size() {
        return Answer::Refused(Refusal::StoreLength.number(), 0);
    }
    let scanned = scan_of(from, source);
    let Answer::Found(found) = scanned.answer else {
        return scanned.answer;
    };
    if to.slots() < usize::from(found) {
        return Answer::Refused(Refusal::TooManySlots.number(), 0);
    }
    if too_wide(to, &scanned.station.entries) {
        return Answer::Refused(Refusal::TooManyKeys.number(), 0);
    }
    let end = move_slots(from, to, source, target, &scanned.station.entries);
    clear(target, end);
    Answer::Moved(found)
}

// A narrow store into a wide one: how many committed slots were moved. Refused with 1 where either has another length, 18 with the slot where the
// source is damaged, 22 where more than 32 slots are committed.
#[tactic(auto, unfolding(model::specs::Listed::kind_of))]
pub fn move_out(source: &[u8], target: &mut [u8]) -> Answer
    ensures { (result ≡ (move_out source.now target.old).answer) × (target.new ≡ (move_out source.now target.old).target) }
{
    move_between(Kind::Narrow, Kind::Wide, source, target)
}

// A wide store into a narrow one. Refused with 1 and 18 likewise, and with 23 where a write set has more than 8 keys.
#[tactic(auto, unfolding(model::specs::Listed::kind_of))]
pub fn move_back(source: &[u8], target: &mut [u8]) -> Answer
    ensures { (result ≡ (move_back source.now target.old).answer) × (target.new ≡ (move_back source.now target.old).target) }
{
    move_between(Kind::Wide, Kind::Narrow, source, target)
}
