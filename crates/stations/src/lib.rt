// What is found, set and cleared in a station: the transaction at a place, the entry in a slot, a write set and a read set; and what a
// call comes to, as a change of a station.
#![tactic(auto)]

ghost use Rattle.std.specs.Prelude.{◌≡◌, true, false, not, cond, map, ◌<◌, ◌≤◌, eqb, leb, length, take, IfOk, IfErr};
ghost use Rattle.model.specs.Lists.{◌and◌, first, member, maximum, any_below};
ghost use Rattle.model.specs.Limits.{keys, live_places, entry_places, write_places, read_limit};
ghost use Rattle.model.specs.Lives.{no_live, writes_of, read_key, has_written, has_read, value_under, with_phase};
ghost use Rattle.model.specs.KeySets.{key_set};
ghost use Rattle.model.specs.Listed.{kind_of, listed_live, listed_lives, listed_entry, listed_entries, listed};
ghost use Rattle.model.specs.Entries.{wrote, record_of, entry_for};
ghost use Rattle.model.specs.Clocks.{entry_clock, live_clock};
ghost use Rattle.model.specs.Stations.{is_free, set_live, set_entry};
ghost use Rattle.model.specs.Sound.{zero_past_counts};
ghost use Rattle.model.specs.Ranges.{ReadsFit};
ghost use Rattle.model.specs.Effects.{says};
ghost use Rattle.model.specs.Refusals.{number_of};
ghost use Rattle.model.specs.Start.{opened};
ghost use Rattle.model.specs.Put.{with_write};
ghost use Rattle.model.specs.Get.{with_read};
ghost use Rattle.model.specs.Commit.{highest_free};
ghost use Rattle.stations.specs.Changes.{changed_by, IsChange};
ghost use Rattle.stations.specs.Found.{entry_txn, at_least, live_mark, station_of, live_in, place_in, clocks_in, joined, first_row, named_rows, open_rows};

use keysets::{has_key, keys_below, with_key};
pub use model::no_entry;
use model::{Answer, Entry, Id, Kind, Live, Outcome, Phase, Read, Refusal, Station, blank};

// ---- unused, and just started
pub fn no_live() -> Live
    ensures { listed_live result ≡ no_live }
{
    blank(0, Phase::Unused)
}

#[tactic(auto, unfolding(model::specs::Start::opened))]
pub fn opened(txn: u32) -> Live
    ensures { listed_live result ≡ opened txn }
{
    blank(txn, Phase::Open)
}

// ---- where a transaction is
// The first place with this transaction, 0 for the lowest unused; their number where there is none.
pub fn place_of(live: [Live; Station::LIVE], txn: u32) -> usize
    ensures { result ≡ place_in txn (listed_lives live) }
{
    live.iter()
        .position(|l| txn == l.txn)
        .unwrap_or(Station::LIVE)
}

// The transaction at a place. By a search and not by an index: measured, a put in a batch is then a third cheaper.
pub fn live_at(live: [Live; Station::LIVE], place: usize) -> Live
    requires { place < live_places }
    ensures { listed_live result ≡ live_in (listed_lives live) place }
{
    for i in 0..Station::LAST_PLACE {
        if i == place {
            return live[i];
        }
    }
    live[Station::LAST_PLACE]
}

// Its phase, by such a search: measured, a put in a batch is a fifth dearer where the whole transaction is read for it.
fn phase_at(live: [Live; Station::LIVE], place: usize) -> Phase
    requires { place < live_places }
    ensures { result ≡ (live_in (listed_lives live) place).phase }
{
    for i in 0..Station::LAST_PLACE {
        if i == place {
            return live[i].phase;
        }
    }
    live[Station::LAST_PLACE].phase
}

// The first slot whose entry is this transaction's; their number where there is none.
pub fn slot_of(entries: [Entry; Station::SLOTS], txn: u32) -> usize
    ensures { result ≡ first (eqb txn) (map entry_txn (listed_entries entries)) }
{
    entries
        .iter()
        .position(|e| txn == e.id.txn)
        .unwrap_or(Station::SLOTS)
}

// ---- free slots
// Whether a closing transaction has the slot with this mark, which is its number counted from 1.
fn is_marked(live: &[Live], mark: u32) -> bool
    ensures { result ≡ member mark (map live_mark (listed_lives live.now)) }
{
    live.iter().any(|l| mark == l.phase.slot_mark())
}

// The highest slot of the kind that no entry and no closing transaction has; 64, which is no slot of either kind, where there is none.
pub fn highest_free(
    kind: Kind,
    live: [Live; Station::LIVE],
    entries: [Entry; Station::SLOTS],
) -> usize
    ensures { result ≡ cond (any_below (is_free (station_of (kind_of kind) (listed_lives live) (listed_entries entries))) (kind_of kind).slots) (highest_free (station_of (kind_of kind) (listed_lives live) (listed_entries entries))) entry_places }
{
    for slot in (0..kind.slots()).rev() {
        if entries[slot].id.txn == 0 && !is_marked(&live, slot as u32 + 1) {
            return slot;
        }
    }
    Station::SLOTS
}

// ---- a transaction's sets
pub fn has_written(l: Live, key: u8) -> bool
    ensures { result ≡ has_written key (listed_live l) }
{
    has_key(l.keys, key)
}

// The value under a key of the write set.
pub fn value_under(l: Live, key: u8) -> u64
    requires keys_len_bound { length (key_set l.keys) ≤ write_places }
    requires l_value { has_written key (listed_live l) ≡ true }
    ensures { result ≡ value_under key (writes_of (listed_live l)) }
{
    let at = keys_below(l.keys, key);
    l.values[at]
}

pub fn has_read(l: Live, key: u8) -> bool
    requires { l.read_count ≤ read_limit }
    ensures { result ≡ has_read key (listed_live l) }
{
    let n = usize::from(l.read_count);
    l.reads[..n].iter().any(|r| key == r.key)
}

// ---- a key put into a write set, a read joined to a read set
// One more put at a position: those from there on move up by one, and the last is lost.
fn join<T: Copy>(items: &mut [T], at: usize, item: T)
    requires { at < length items.old }
    ensures { items.new ≡ take (length items.old) (joined at item items.old) }
{
    let last = items.len() - 1;
    items.copy_within(at..last, at + 1);
    items[at] = item;
}

// The key and value put into the write set: in the place of the key, or before the first greater.
pub fn with_write(l: Live, key: u8, value: u64) -> Live
    requires key_lt_keys { key < keys }
    requires keys_len_bound { length (key_set l.keys) ≤ write_places }
    requires l_value { zero_past_counts (listed_live l) ≡ true }
    requires keys_value { (not (has_written key (listed_live l)) and leb write_places (length (key_set l.keys))) ≡ false }
    ensures { listed_live result ≡ with_write key value (listed_live l) }
{
    let at = keys_below(l.keys, key);
    let mut m = l;
    if has_key(l.keys, key) {
        m.values[at] = value;
    } else {
        join(&mut m.values, at, value);
        m.keys = with_key(l.keys, key);
    }
    m
}

// The position of the first read with no lower key; their number where there is none.
fn place_for(reads: &[Read], key: u8) -> usize
    ensures { result ≡ first (at_least read_key key) reads.now }
{
    reads
        .iter()
        .position(|r| key <= r.key)
        .unwrap_or(reads.len())
}

// The key and id put into the read set: in the place of the key, or before the first greater.
pub fn with_read(l: Live, key: u8, id: Id) -> Live
    requires reads_fit { ReadsFit (listed_live l) }
    requires l_value { zero_past_counts (listed_live l) ≡ true }
    requires read_count_value { (not (has_read key (listed_live l)) and leb read_limit l.read_count) ≡ false }
    ensures { listed_live result ≡ with_read key id (listed_live l) }
{
    let n = usize::from(l.read_count);
    let at = place_for(&l.reads[..n], key);
    let read = Read { key, id };
    let mut m = l;
    if at < n && key == l.reads[at].key {
        m.reads[at] = read;
    } else {
        join(&mut m.reads, at, read);
        m.read_count = l.read_count + 1;
    }
    m
}

// ---- clocks
// The greatest clock of the entries and the closing transactions; 0 where there is none.
pub fn greatest_clock(live: [Live; Station::LIVE], entries: [Entry; Station::SLOTS]) -> u64
    ensures { result ≡ maximum (clocks_in (listed_lives live) (listed_entries entries)) }
{
    let held = entries.iter().map(|e| e.id.clock).max().unwrap_or(0);
    let closing = live
        .iter()
        .map(|l| l.phase.closing_clock())
        .max()
        .unwrap_or(0);
    held.max(closing)
}

// ---- a commit
#[tactic(auto, unfolding(model::specs::Lives::with_phase))]
pub fn with_phase(l: Live, p: Phase) -> Live
    ensures { listed_live result ≡ with_phase p (listed_live l) }
{
    Live { phase: p, ..l }
}

// The entry that a closing transaction becomes.
pub fn entry_for(l: Live) -> Entry
    ensures { listed_entry result ≡ entry_for (listed_live l) }
{
    Entry {
        id: Id {
            clock: l.phase.closing_clock(),
            txn: l.txn,
        },
        keys: l.keys,
    }
}

// The number of the version record of a key that the entry wrote: one more than its keys below.
pub fn record_of(e: Entry, key: u8) -> usize
    requires { wrote (listed_entry e) key ≡ true }
    ensures { result ≡ record_of (listed_entry e) key }
{
    keys_below(e.keys, key) + 1
}

// ---- what a call needs
// Why a call goes no further: the refusal that comes first; and the place of its transaction all the same, the number of places where it has none.
#[derive(Clone, Copy)]
pub struct Denied {
    pub refusal: Refusal,
    pub place: usize,
}

impl From<Denied> for Refusal {
    ghost from_gives = { λ d r. r ≡ d.refusal };

    fn from(denied: Denied) -> Refusal {
        denied.refusal
    }
}

// The place of a call's transaction; refused by the first of rows 2, 3, 4 and 8 that applies. A call without a key gives 0.
pub fn named_at(
    live: [Live; Station::LIVE],
    tested: bool,
    txn: u32,
    key: u8,
) -> Result<usize, Denied>
    ensures ok { IfOk result (λ place. (first_row (named_rows (listed_lives live) txn key tested) ≡ 0) × (place ≡ place_in txn (listed_lives live)) × (place < live_places)) }
    ensures err { IfErr result (λ denied. (number_of denied.refusal ≡ first_row (named_rows (listed_lives live) txn key tested)) × (denied.place ≡ place_in txn (listed_lives live))) }
{
    let place = place_of(live, txn);
    let refusal = if !tested {
        Refusal::Unsound
    } else if txn == 0 {
        Refusal::TransactionZero
    } else if key >= Station::KEYS_U8 {
        Refusal::KeyRange
    } else if place >= Station::LIVE {
        Refusal::NotLive
    } else {
        return Ok(place);
    };
    Err(Denied { refusal, place })
}

// The same of an open transaction, with row 9 after the others.
pub fn open_at(
    live: [Live; Station::LIVE],
    tested: bool,
    txn: u32,
    key: u8,
) -> Result<usize, Denied>
    ensures ok { IfOk result (λ place. (first_row (open_rows (listed_lives live) txn key tested) ≡ 0) × (place ≡ place_in txn (listed_lives live)) × (place < live_places)) }
    ensures err { IfErr result (λ denied. (number_of denied.refusal ≡ first_row (open_rows (listed_lives live) txn key tested)) × (denied.place ≡ place_in txn (listed_lives live))) }
{
    let place = named_at(live, tested, txn, key)?;
    if phase_at(live, place).is_closing() {
        let refusal = Refusal::IsClosing;
        return Err(Denied { refusal, place });
    }
    Ok(place)
}

// ---- what a call comes to
// The answer, and what one place and one slot hold afterwards: where nothing changes, what they hold already. Every call but a scan is
// such a change.
#[derive(Clone, Copy)]
pub struct Change {
    pub answer: Answer,
    pub place: usize,
    pub live: Live,
    pub slot: usize,
    pub entry: Entry,
}

// An answer that changes nothing.
pub fn unchanged(station: Station, answer: Answer) -> Change
    ensures { IsChange station (says answer (listed station)) result }
{
    Change {
        answer,
        place: 0,
        live: station.live[0],
        slot: 0,
        entry: station.entries[0],
    }
}

// A refusal hands the station back as given.
pub fn refused(station: Station, refusal: Refusal) -> Change
    ensures { IsChange station (says (Answer.Refused (number_of refusal) 0) (listed station)) result }
{
    unchanged(station, Answer::Refused(refusal.number(), 0))
}

// Another transaction, or another state of one, at a place.
pub fn live_changed(station: Station, answer: Answer, place: usize, live: Live) -> Change
    requires { place < live_places }
    ensures { IsChange station (says answer (set_live (listed station) place (listed_live live))) result }
{
    Change {
        answer,
        place,
        live,
        slot: 0,
        entry: station.entries[0],
    }
}

// Another entry in a slot.
pub fn entry_changed(station: Station, answer: Answer, slot: usize, entry: Entry) -> Change
    requires { slot < entry_places }
    ensures { IsChange station (says answer (set_entry (listed station) slot (listed_entry entry))) result }
{
    Change {
        answer,
        place: 0,
        live: station.live[0],
        slot,
        entry,
    }
}

// The station with the change made, and the answer.
#[tactic(auto, unfolding(crate::specs::Changes::changed_by))]
pub fn changed(station: Station, change: Change) -> Outcome
    requires { (change.place < live_places) × (change.slot < entry_places) }
    ensures { result ≡ changed_by station change }
{
    let mut next = station;
    next.live[change.place] = change.live;
    next.entries[change.slot] = change.entry;
    Outcome {
        station: next,
        answer: change.answer,
    }
}
