// The scan: from a store alone, the station with no live transaction and an entry for each committed slot.
#![tactic(auto)]

ghost use Rattle.std.specs.Prelude.{◌≡◌, ◌≤◌, length, take, MatchResult};
ghost use Rattle.model.specs.Limits.{entry_places};
ghost use Rattle.model.specs.Kinds.{narrow_kind, wide_kind};
ghost use Rattle.model.specs.Lists.{member};
ghost use Rattle.model.specs.Listed.{kind_of, listed_entries, listed_outcome};
ghost use Rattle.model.specs.Stations.{empty_station, idle_station};
ghost use Rattle.model.specs.Effects.{says, outcome_of};
ghost use Rattle.model.specs.declared.Answer.TheVariants.{Found};
ghost use Rattle.model.specs.Scan.{scan};
ghost use Rattle.recovery.specs.Marks.{Marked};

use model::{Answer, Entry, Kind, Outcome, Refusal, Station, empty_of};
use records::{Slot, read_slot};

// One of the first `below` numbers is the transaction's.
pub fn has_txn(txns: &[u32; Station::SLOTS], below: usize, txn: u32) -> bool
    requires below_le_entry_places { below ≤ entry_places }
    requires txns_len { length txns.now ≡ entry_places }
    ensures { result ≡ member txn (take below txns.now) }
{
    txns[..below].contains(&txn)
}

// The same. Numbers are told apart by their lowest byte first: only where it is marked are they compared.
#[tactic(auto, using(crate::proofs::MarkLaws::unmarked))]
fn is_repeated(marks: &[bool; 256], txns: &[u32; Station::SLOTS], below: usize, txn: u32) -> bool
    requires below_le_entry_places { below ≤ entry_places }
    requires txns_len { length txns.now ≡ entry_places }
    requires marked { Marked marks.now txns.now }
    ensures { result ≡ member txn (take below txns.now) }
{
    marks[(txn % 256) as usize] && has_txn(txns, below, txn)
}

// The entries of the committed slots, each at its slot's place, and how many they are. From the lowest slot up: the first that breaks the rules is
// refused. The numbers found stand in a column of their own.
#[tactic(auto, using(crate::proofs::ScanSteps::slots_fit))]
fn read_entries(
    kind: Kind,
    store: &[u8],
    entries: &mut [Entry; Station::SLOTS],
) -> Result<u8, Answer>
    requires { listed_entries entries.old ≡ (empty_station (kind_of kind)).entries }
    ensures { MatchResult result (λ found. scan (kind_of kind) store.now ≡ says (Found found) (idle_station (kind_of kind) (listed_entries entries.new))) (λ answer. scan (kind_of kind) store.now ≡ says answer (empty_station (kind_of kind))) }
{
    if store.len() != kind.store_size() {
        return Err(Answer::Refused(Refusal::StoreLength.number(), 0));
    }
    let size = kind.slot_size();
    let mut txns = [0u32; Station::SLOTS];
    // The lowest bytes of those, of the unused 0 too.
    let mut marks = [false; 256];
    marks[0] = true;
    let mut found: u8 = 0;
    for d in 0..kind.slots() {
        let at = size * d;
        let refused = Err(Answer::Refused(Refusal::Damaged.number(), d as u8));
        match read_slot(kind, &store[at..at + size]) {
            Slot::Free => {}
            Slot::Damaged => return refused,
            Slot::Committed(entry) if is_repeated(&marks, &txns, d, entry.id.txn) => return refused,
            Slot::Committed(entry) => {
                entries[d] = entry;
                txns[d] = entry.id.txn;
                marks[(entry.id.txn % 256) as usize] = true;
                found += 1;
            }
        }
    }
    Ok(found)
}

// A refused scan hands back the empty station. Measured: where each arm hands a station back, two more are zeroed.
pub fn scan_of(kind: Kind, store: &[u8]) -> Outcome
    ensures { listed_outcome result ≡ outcome_of (scan (kind_of kind) store.now) }
{
    let mut station = empty_of(kind);
    let mut entries = station.entries;
    let answer = match read_entries(kind, store, &mut entries) {
        Ok(found) => {
            station.entries = entries;
            Answer::Found(found)
        }
        Err(answer) => answer,
    };
    Outcome { station, answer }
}

// A narrow store's scan, and a wide one's.
#[tactic(auto, unfolding(model::specs::Listed::kind_of))]
pub fn scan(store: &[u8]) -> Outcome
    ensures { listed_outcome result ≡ outcome_of (scan narrow_kind store.now) }
{
    scan_of(Kind::Narrow, store)
}

#[tactic(auto, unfolding(model::specs::Listed::kind_of))]
pub fn scan_wide(store: &[u8]) -> Outcome
    ensures { listed_outcome result ≡ outcome_of (scan wide_kind store.now) }
{
    scan_of(Kind::Wide, store)
}
