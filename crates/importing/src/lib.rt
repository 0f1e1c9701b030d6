// A narrow store from a RESP stream (02 §11). The whole stream is checked before the first byte of the store is written: what it says goes first into
// bytes of the function's own.
#![tactic(auto)]

ghost use Rattle.std.specs.Prelude.{◌≡◌, ◌≤◌, length, MatchOption};
ghost use Rattle.std.proofs.Math.Option.{some, none};
ghost use Rattle.model.specs.Kinds.{narrow_kind, slot_size};
ghost use Rattle.model.specs.KeySets.{key_set};
ghost use Rattle.resp.specs.Streams.{commit_command};
ghost use Rattle.resp.specs.Inverse.{after, transaction_in, transactions_in};
ghost use Rattle.resp.specs.Imports.{import};
ghost use Rattle.importing.specs.Passes.{VersionsFound, TakenFound, PassFound, BadSays, room_size};

use keysets::with_key;
use model::{Entry, Id, Kind, Refusal, Station};
use reading::is_older;
use records::{write_commit, write_version};
use recovery::has_txn;
use resp::{COMMAND, ID_TEXT, Transfer, version_in, write_commit_command, write_id};

// The slots of a store, and below them one more: for a transaction after the 64th, which no store has.
const ROOM: usize = Station::STORE + Station::SLOT;

// A stream read once: how many transactions it has, and what comes after the first 64.
#[derive(Clone, Copy)]
struct Pass<'a> {
    count: usize,
    rest: &'a [u8],
}

// The versions that the stream begins with, up to 8, as version records of a slot: their entry, and what comes after them.
fn versions_in<'a>(s: &'a [u8], slot: &mut [u8]) -> Option<(Entry, &'a [u8])>
    requires { length slot.old ≡ slot_size narrow_kind }
    ensures { MatchOption result (transaction_in s.now ≡ none) (λ p. VersionsFound p.0.id p.0.keys p.1.now s.now slot.new) }
{
    let first = version_in(s)?;
    let id = first.id;
    write_version(
        &mut slot[Station::RECORD..2 * Station::RECORD],
        first.key,
        id,
        first.value,
    );
    let mut keys = with_key(0, first.key);
    let mut last = first.key;
    let mut rest = first.rest;
    for n in 1..Station::WRITES {
        let Some(next) = version_in(rest) else {
            break;
        };
        if next.id != id || next.key <= last {
            return None;
        }
        let place = Station::RECORD * (n + 1);
        write_version(
            &mut slot[place..place + Station::RECORD],
            next.key,
            id,
            next.value,
        );
        keys = with_key(keys, next.key);
        last = next.key;
        rest = next.rest;
    }
    Some((Entry { id, keys }, rest))
}

// What comes after the entry's commit, where the bytes begin with it.
fn after_commit(s: &[u8], e: Entry) -> Option<&[u8]>
    requires { (1 ≤ length (key_set e.keys)) × (length (key_set e.keys) ≤ 8) }
    ensures { MatchOption result (after (commit_command e.id (key_set e.keys)) s.now ≡ none) (λ r. after (commit_command e.id (key_set e.keys)) s.now ≡ some r.now) }
{
    let mut text = [0u8; ID_TEXT];
    let size = write_id(&mut text, e.id);
    let mut command = [0u8; COMMAND];
    let end = write_commit_command(&mut command, 0, &text[..size], e.keys);
    s.strip_prefix(&command[..end])
}

// The transaction that the stream begins with, as a slot: its id, and what comes after it.
fn transaction_in<'a>(s: &'a [u8], slot: &mut [u8]) -> Option<(Id, &'a [u8])>
    requires { length slot.old ≡ slot_size narrow_kind }
    ensures { MatchOption result (transaction_in s.now ≡ none) (λ p. TakenFound p.0 p.1.now s.now slot.new) }
{
    let (e, left) = versions_in(s, slot)?;
    let rest = after_commit(left, e)?;
    write_commit(Kind::Narrow, &mut slot[..Station::RECORD], e);
    slot[Station::RECORD * (e.keys.count_ones() as usize + 1)..].fill(0);
    Some((e.id, rest))
}

// A stream read from its first byte to its last: each transaction newer than the one before, and its number none of the first 64's. These fill the
// room from the top; each one more goes into the lowest slot.
fn read_stream<'a>(s: &'a [u8], room: &mut [u8]) -> Option<Pass<'a>>
    requires { length room.old ≡ room_size }
    ensures { MatchOption result (transactions_in s.now ≡ none) (λ p. PassFound p.count p.rest.now s.now room.old room.new) }
{
    let mut txns = [0u32; Station::SLOTS];
    let mut kept = 0;
    let mut last = Id::NONE;
    let mut count = 0;
    let mut left = s;
    let mut rest = s;
    while !left.is_empty() {
        let place = Station::SLOT * (Station::SLOTS - kept);
        let (id, more) = transaction_in(left, &mut room[place..place + Station::SLOT])?;
        if !is_older(last, id) || has_txn(&txns, kept, id.txn) {
            return None;
        }
        last = id;
        count += 1;
        left = more;
        if kept < Station::SLOTS {
            txns[kept] = id.txn;
            kept += 1;
            rest = more;
        }
    }
    Some(Pass { count, rest })
}

// A stream is not of the form, or has a number twice: read again and again, each time without the first 64 transactions.
fn is_bad(s: &[u8], room: &mut [u8]) -> bool
    requires { length room.old ≡ room_size }
    ensures { BadSays result s.now }
{
    let mut left = s;
    while !left.is_empty() {
        let Some(pass) = read_stream(left, room) else {
            return true;
        };
        if pass.count <= Station::SLOTS {
            return false;
        }
        left = pass.rest;
    }
    false
}

// A narrow store filled from a stream, its slots from the top, the oldest transaction in the last; how many there are. Refused with 1 where the store has
// another length, with 27 where the bytes are no such stream, then with 13 where it has more than 64 transactions; then no byte is written.
pub fn import(stream: &[u8], store: &mut [u8]) -> Transfer
    ensures { (result ≡ (import stream.now store.old).answer) × (store.new ≡ (import stream.now store.old).store) }
{
    if store.len() != Station::STORE {
        return Err(Refusal::StoreLength.into());
    }
    let mut room = [0u8; ROOM];
    let pass = read_stream(stream, &mut room).ok_or(Refusal::NotAStream)?;
    if pass.count > Station::SLOTS {
        let why = if is_bad(pass.rest, &mut room) {
            Refusal::NotAStream
        } else {
            Refusal::SlotsFull
        };
        return Err(why.into());
    }
    store.copy_from_slice(&room[Station::SLOT..]);
    Ok(pass.count)
}
