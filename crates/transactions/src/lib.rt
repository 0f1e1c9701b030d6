// The calls that touch no store: start, put, commit, abort. Each takes what the soundness test says of the station, and decides the
// change that its definition makes (model's specs/Start, Put, Commit, Abort): the tests in the order of the table of refusals, then the
// effect. Whoever makes many calls tests once: a call leaves a sound station sound (model's proofs/SoundKept).
#![tactic(auto)]

ghost use Rattle.std.specs.Prelude.{◌≡◌, ◌≤◌, ◌<◌, IfOk, IfErr, OnOk, MatchOption};
ghost use Rattle.model.specs.Listed.{kind_of, listed_live, listed_lives, listed_entries, listed};
ghost use Rattle.model.specs.Sound.{sound};
ghost use Rattle.model.specs.Limits.{entry_places};
ghost use Rattle.model.specs.Refusals.{number_of};
ghost use Rattle.model.specs.Effects.{says};
ghost use Rattle.model.specs.Start.{start};
ghost use Rattle.model.specs.Put.{put};
ghost use Rattle.model.specs.Commit.{commit};
ghost use Rattle.model.specs.Abort.{abort};
ghost use Rattle.stations.specs.Found.{station_of, clocks_in, first_row};
ghost use Rattle.stations.specs.Changes.{IsChange};
ghost use Rattle.transactions.specs.Committing.{unknown_rows, slot_for, clock_for, after_commit, commit_answer};

use model::{Answer, Entry, Kind, Live, Phase, Refusal, Station, write_count};
use stations::{
    Change, greatest_clock, has_written, highest_free, live_at, live_changed, no_live, open_at,
    opened, place_of, refused, slot_of, unchanged, with_phase, with_write,
};

// ---- start
// Makes a transaction live and open, with empty sets, in the lowest unused place.
pub fn start(station: Station, tested: bool, txn: u32) -> Change
    requires { tested ≡ sound (listed station) }
    ensures { IsChange station (start (listed station) txn) result }
{
    match try_start(station, tested, txn) {
        Ok(change) => change,
        Err(refusal) => refused(station, refusal),
    }
}

#[inline(always)]
fn try_start(station: Station, tested: bool, txn: u32) -> Result<Change, Refusal>
    requires { tested ≡ sound (listed station) }
    ensures ok { IfOk result (IsChange station (start (listed station) txn)) }
    ensures err { IfErr result (λ refusal. start (listed station) txn ≡ says (Answer.Refused (number_of refusal) 0) (listed station)) }
{
    if !tested {
        return Err(Refusal::Unsound);
    }
    if txn == 0 {
        return Err(Refusal::TransactionZero);
    }
    if place_of(station.live, txn) < Station::LIVE
        || slot_of(station.entries, txn) < Station::SLOTS
    {
        return Err(Refusal::Taken);
    }
    let place = place_of(station.live, 0);
    if place >= Station::LIVE {
        return Err(Refusal::LiveFull);
    }
    let begun = opened(txn);
    Ok(live_changed(station, Answer::Started, place, begun))
}

// ---- put
// Adds a key to the write set, or replaces its value.
pub fn put(station: Station, tested: bool, txn: u32, key: u8, value: u64) -> Change
    requires { tested ≡ sound (listed station) }
    ensures { IsChange station (put (listed station) txn key value) result }
{
    match try_put(station, tested, txn, key, value) {
        Ok(change) => change,
        Err(refusal) => refused(station, refusal),
    }
}

#[inline(always)]
fn try_put(station: Station, tested: bool, txn: u32, key: u8, value: u64) -> Result<Change, Refusal>
    requires { tested ≡ sound (listed station) }
    ensures ok { IfOk result (IsChange station (put (listed station) txn key value)) }
    ensures err { IfErr result (λ refusal. put (listed station) txn key value ≡ says (Answer.Refused (number_of refusal) 0) (listed station)) }
{
    let place = open_at(station.live, tested, txn, key)?;
    let l = live_at(station.live, place);
    if usize::from(write_count(l)) >= station.kind.write_limit() && !has_written(l, key) {
        return Err(Refusal::WritesFull);
    }
    let kept = with_write(l, key, value);
    Ok(live_changed(station, Answer::Kept, place, kept))
}

// ---- commit
// Rows 2, 3, 5 and 8, where the transaction is held in a slot or live at a place, or is not.
#[tactic(auto, unfolding(stations::specs::Found::first_row, crate::specs::Committing::unknown_rows))]
fn known(tested: bool, txn: u32, clock: u64, held: usize, place: usize) -> Result<(), Refusal>
    ensures ok { OnOk result (first_row (unknown_rows txn clock held place tested) ≡ 0) }
    ensures err { IfErr result (λ refusal. number_of refusal ≡ first_row (unknown_rows txn clock held place tested)) }
{
    if !tested {
        return Err(Refusal::Unsound);
    }
    if txn == 0 {
        return Err(Refusal::TransactionZero);
    }
    if clock == 0 {
        return Err(Refusal::ClockZero);
    }
    if held >= Station::SLOTS && place >= Station::LIVE {
        return Err(Refusal::NotLive);
    }
    Ok(())
}

// The slot for this many writes: the highest free one of the kind, if there is one. Nothing written needs no slot: 0.
#[tactic(auto, unfolding(crate::specs::Committing::slot_for))]
fn slot_for(
    kind: Kind,
    live: [Live; Station::LIVE],
    entries: [Entry; Station::SLOTS],
    writes: u8,
) -> Option<u8>
    ensures { let slot = slot_for writes (station_of (kind_of kind) (listed_lives live) (listed_entries entries)) in MatchOption result (entry_places ≤ slot) (λ d. (d ≡ slot) × (d < entry_places)) }
{
    if writes == 0 {
        return Some(0);
    }
    let slot = highest_free(kind, live, entries);
    if slot < Station::SLOTS {
        Some(slot as u8)
    } else {
        None
    }
}

// The clock for this many writes: the greater of the one given and the next after all that are taken, if there is a next. Nothing
// written takes no clock: the one given is handed back.
#[tactic(auto, unfolding(crate::specs::Committing::clock_for))]
fn clock_for(
    live: [Live; Station::LIVE],
    entries: [Entry; Station::SLOTS],
    writes: u8,
    given: u64,
) -> Option<u64>
    ensures { let clock = clock_for writes given (clocks_in (listed_lives live) (listed_entries entries)) in MatchOption result (clock ≡ 0) (λ c. (c ≡ clock) × (given ≤ c)) }
{
    if writes == 0 {
        return Some(given);
    }
    let next = greatest_clock(live, entries).checked_add(1)?;
    Some(given.max(next))
}

// What stands in the place afterwards.
#[tactic(auto, unfolding(crate::specs::Committing::after_commit))]
fn after_commit(l: Live, slot: u8, clock: u64) -> Live
    ensures { listed_live result ≡ after_commit slot clock (listed_live l) }
{
    if write_count(l) == 0 {
        no_live()
    } else {
        with_phase(l, Phase::Closing(slot, clock, 0))
    }
}

#[tactic(auto, unfolding(crate::specs::Committing::commit_answer))]
fn commit_answer(writes: u8, slot: u8) -> Answer
    ensures { result ≡ commit_answer writes slot }
{
    if writes == 0 {
        Answer::Empty
    } else {
        Answer::Closing(slot)
    }
}

// Begins to close a transaction, in the highest free slot and with a clock above all that are taken. A read-only one is over at once, and
// a retry of a held one changes nothing.
pub fn commit(station: Station, tested: bool, txn: u32, clock: u64) -> Change
    requires { tested ≡ sound (listed station) }
    ensures { IsChange station (commit (listed station) txn clock) result }
{
    match try_commit(station, tested, txn, clock) {
        Ok(change) => change,
        Err(refusal) => refused(station, refusal),
    }
}

// Measured: marked `#[inline(always)]`, or with the columns taken out of the station, a commit again zeroes and copies a whole station more.
fn try_commit(station: Station, tested: bool, txn: u32, clock: u64) -> Result<Change, Refusal>
    requires { tested ≡ sound (listed station) }
    ensures ok { IfOk result (IsChange station (commit (listed station) txn clock)) }
    ensures err { IfErr result (λ refusal. commit (listed station) txn clock ≡ says (Answer.Refused (number_of refusal) 0) (listed station)) }
{
    let held = slot_of(station.entries, txn);
    let place = place_of(station.live, txn);
    known(tested, txn, clock, held, place)?;
    // A held transaction is not live, so rows 9, 13 and 21 are for the others.
    if held < Station::SLOTS {
        return Ok(unchanged(station, Answer::Done(station.entries[held].id)));
    }
    let l = live_at(station.live, place);
    if l.phase.is_closing() {
        return Err(Refusal::IsClosing);
    }
    let writes = write_count(l);
    let Some(slot) = slot_for(station.kind, station.live, station.entries, writes) else {
        return Err(Refusal::SlotsFull);
    };
    let Some(taken) = clock_for(station.live, station.entries, writes, clock) else {
        return Err(Refusal::NoClock);
    };
    let after = after_commit(l, slot, taken);
    Ok(live_changed(station, commit_answer(writes, slot), place, after))
}

// ---- abort
// Forgets an open transaction.
pub fn abort(station: Station, tested: bool, txn: u32) -> Change
    requires { tested ≡ sound (listed station) }
    ensures { IsChange station (abort (listed station) txn) result }
{
    match try_abort(station, tested, txn) {
        Ok(change) => change,
        Err(refusal) => refused(station, refusal),
    }
}

#[inline(always)]
fn try_abort(station: Station, tested: bool, txn: u32) -> Result<Change, Refusal>
    requires { tested ≡ sound (listed station) }
    ensures ok { IfOk result (IsChange station (abort (listed station) txn)) }
    ensures err { IfErr result (λ refusal. abort (listed station) txn ≡ says (Answer.Refused (number_of refusal) 0) (listed station)) }
{
    let place = open_at(station.live, tested, txn, 0)?;
    Ok(live_changed(station, Answer::Dropped, place, no_live()))
}
