// What is kept of a log's lines, 64 transactions with the keys that they wrote and read, and what is found of the next line by it. The table is
// defined in specs/Tables; that it says what the lines say is in specs/Holds.
#![tactic(auto)]

ghost use Rattle.std.specs.Prelude.{◌≡◌, ◌<◌, ◌&&◌, length, not, eqb, cond, Some, None};
ghost use Rattle.model.specs.Limits.{keys};
ghost use Rattle.model.specs.Lists.{◌and◌, ◌or◌, member};
ghost use Rattle.model.specs.KeySets.{key_set};
ghost use Rattle.logtable.specs.Tables.{table_size, places, place_of, seat_of, clock_at, written_at, reads_at, read_word, key_of, author_of, after_write, after_commit, after_read};
ghost use Rattle.logtable.specs.Findings.{full_for, older_at, clash, clashes, is_another, unfit, is_unknown, write_found, commit_found, read_found};
ghost use Rattle.logtable.specs.Parts.{if_fine, place_in, author_if};

use keysets::{has_key, key_count, with_key};
use model::Id;
use shoplog::Fault;

// The numbers of a table.
pub const TABLE: usize = 1280;

// Its places, and where its columns begin: clocks, keys written, keys read; the reads of all places, 16 a place.
const PLACES: usize = 64;

const CLOCKS: usize = 64;

const WRITTEN: usize = 128;

const READ: usize = 192;

const READS: usize = 256;

const READS_OF_ONE: usize = 16;

// The keys that one transaction writes and reads, at most.
const WRITE_LIMIT: u8 = 8;

const READ_LIMIT: u8 = 16;

// The place of a number among the transactions.
fn place_of(table: &[u64], txn: u64) -> Option<usize>
    requires { length table.now ≡ table_size }
    ensures { result ≡ place_in (place_of table.now txn) }
{
    table[..PLACES].iter().position(|held| txn == *held)
}

// Where a transaction is, or would be: the first unused place.
fn seat_of(table: &[u64], txn: u32) -> Option<usize>
    requires { length table.now ≡ table_size }
    ensures { result ≡ place_in (seat_of table.now txn) }
{
    place_of(table, u64::from(txn)).or_else(|| place_of(table, 0))
}

// A key is new to a set that is full.
fn full_for(most: u8, set: u64, key: u8) -> bool
    ensures { result ≡ full_for most set key }
{
    !has_key(set, key) && key_count(set) >= most
}

// What is found of a write at a place.
fn write_found(table: &[u64], place: usize, key: u8) -> Result<(), Fault>
    requires { (length table.now ≡ table_size) × (place < places) }
    ensures { result ≡ write_found table.now place key }
{
    if full_for(WRITE_LIMIT, table[WRITTEN + place], key) {
        Err(Fault::Over)
    } else if table[CLOCKS + place] != 0 {
        Err(Fault::Bad)
    } else {
        Ok(())
    }
}

// A transaction writes a key.
pub fn judge_write(table: &mut [u64], txn: u32, key: u8) -> Result<(), Fault>
    requires { (length table.old ≡ table_size) × (key < keys) }
    ensures { (result ≡ write_found table.old (seat_of table.old txn) key) × (table.new ≡ if_fine result (after_write table.old (seat_of table.old txn) txn key) table.old) }
{
    let Some(place) = seat_of(table, txn) else {
        return Err(Fault::Over);
    };
    write_found(table, place, key)?;
    let more = with_key(table[WRITTEN + place], key);
    table[place] = u64::from(txn);
    table[WRITTEN + place] = more;
    Ok(())
}

// A transaction that has not committed, and wrote.
fn may_commit(table: &[u64], place: usize) -> bool
    requires { (length table.now ≡ table_size) × (place < places) }
    ensures { result ≡ (eqb (clock_at table.now place) 0 && not (eqb (written_at table.now place) 0)) }
{
    table[CLOCKS + place] == 0 && table[WRITTEN + place] != 0
}

// A transaction commits with a clock.
pub fn judge_commit(table: &mut [u64], txn: u32, clock: u64) -> Result<(), Fault>
    requires { length table.old ≡ table_size }
    ensures { (result ≡ commit_found table.old (seat_of table.old txn)) × (table.new ≡ if_fine result (after_commit table.old (seat_of table.old txn) clock) table.old) }
{
    match seat_of(table, txn) {
        Some(place) if may_commit(table, place) => {
            table[CLOCKS + place] = clock;
            Ok(())
        }
        _ => Err(Fault::Bad),
    }
}

// The id of the first place is older than that of the second.
fn older_at(table: &[u64], a: usize, b: usize) -> bool
    requires { (length table.now ≡ table_size) × (a < places) × (b < places) }
    ensures { result ≡ older_at table.now a b }
{
    (table[CLOCKS + a], table[a]) < (table[CLOCKS + b], table[b])
}

// The first place wrote the key, and the id of the second is older.
fn overwrites(table: &[u64], place: usize, key: u8, other: usize) -> bool
    requires { (length table.now ≡ table_size) × (place < places) × (other < places) }
    ensures { result ≡ (member key (key_set (written_at table.now place)) and older_at table.now other place) }
{
    has_key(table[WRITTEN + place], key) && older_at(table, other, place)
}

// An earlier read, of the key and the author that the word says, and one of this key and author are no Atomic Readset.
fn clash(table: &[u64], key: u8, author: usize, word: u64) -> bool
    requires { (length table.now ≡ table_size) × (key < keys) × (author < places) }
    ensures { result ≡ clash table.now key author (key_of word) (author_of word) }
{
    let other_key = (word % 64) as u8;
    let other = (word / 64 % 64) as usize;
    overwrites(table, author, other_key, other) || overwrites(table, other, key, author)
}

// The reads of a place, 16 at most.
#[tactic(auto, unfolding(crate::specs::Tables::reads_at, crate::specs::Tables::read_count))]
fn reads_of(table: &[u64], place: usize) -> &[u64]
    requires { (length table.now ≡ table_size) × (place < places) }
    ensures { result.now ≡ reads_at table.now place }
{
    let start = READS + READS_OF_ONE * place;
    let count = usize::from(key_count(table[READ + place])).min(READS_OF_ONE);
    &table[start..start + count]
}

// A read as a word of the table.
fn read_word(key: u8, author: usize) -> u64
    requires { author < places }
    ensures { result ≡ read_word key author }
{
    u64::from(key) + 64 * author as u64
}

// Some read of the place is no Atomic Readset with one of this key and author.
fn clashes(table: &[u64], place: usize, key: u8, author: usize) -> bool
    requires { (length table.now ≡ table_size) × (place < places) × (key < keys) × (author < places) }
    ensures { result ≡ clashes table.now place key author }
{
    reads_of(table, place)
        .iter()
        .any(|word| clash(table, key, author, *word))
}

// No read of the place is of this key and author. One word is compared with each, and no pair is tested.
fn is_another(table: &[u64], place: usize, key: u8, author: usize) -> bool
    requires { (length table.now ≡ table_size) × (place < places) × (key < keys) × (author < places) }
    ensures { result ≡ is_another table.now place key author }
{
    !reads_of(table, place).contains(&read_word(key, author))
}

// A read of this key and author does not stand together with those of the place.
#[tactic(auto, unfolding(crate::specs::Findings::unfit))]
fn unfit(table: &[u64], place: usize, key: u8, author: usize) -> bool
    requires { (length table.now ≡ table_size) × (place < places) × (key < keys) × (author < places) }
    ensures { result ≡ unfit table.now place key author }
{
    if has_key(table[READ + place], key) {
        is_another(table, place, key, author)
    } else {
        clashes(table, place, key, author)
    }
}

// The author committed with that clock, and wrote the key.
fn has_version(table: &[u64], author: usize, key: u8, clock: u64) -> bool
    requires { (length table.now ≡ table_size) × (author < places) }
    ensures { result ≡ (eqb (clock_at table.now author) clock && member key (key_set (written_at table.now author))) }
{
    table[CLOCKS + author] == clock && has_key(table[WRITTEN + author], key)
}

// The place of a version's author.
fn author_of(table: &[u64], key: u8, id: Id) -> Option<usize>
    requires { length table.now ≡ table_size }
    ensures { result ≡ cond (is_unknown table.now (seat_of table.now id.txn) key id.clock) None (Some (seat_of table.now id.txn)) }
{
    let author = seat_of(table, id.txn)?;
    has_version(table, author, key, id.clock).then_some(author)
}

// A transaction that has not committed, and did not write the key.
fn may_read(table: &[u64], place: usize, key: u8) -> bool
    requires { (length table.now ≡ table_size) × (place < places) }
    ensures { result ≡ (eqb (clock_at table.now place) 0 && not (member key (key_set (written_at table.now place)))) }
{
    table[CLOCKS + place] == 0 && !has_key(table[WRITTEN + place], key)
}

// Where a read is fine, the place of its author.
fn read_found(table: &[u64], place: usize, key: u8, id: Id) -> Result<usize, Fault>
    requires { (length table.now ≡ table_size) × (place < places) × (key < keys) }
    ensures { result ≡ author_if (read_found table.now place (seat_of table.now id.txn) key id.clock) (seat_of table.now id.txn) }
{
    if full_for(READ_LIMIT, table[READ + place], key) {
        return Err(Fault::Over);
    }
    if !may_read(table, place, key) {
        return Err(Fault::Bad);
    }
    match author_of(table, key, id) {
        Some(author) if !unfit(table, place, key, author) => Ok(author),
        _ => Err(Fault::Bad),
    }
}

// A transaction reads a key, in the version of that id.
pub fn judge_read(table: &mut [u64], txn: u32, key: u8, id: Id) -> Result<(), Fault>
    requires { (length table.old ≡ table_size) × (key < keys) }
    ensures { (result ≡ read_found table.old (seat_of table.old txn) (seat_of table.old id.txn) key id.clock) × (table.new ≡ if_fine result (after_read table.old (seat_of table.old txn) (seat_of table.old id.txn) txn key) table.old) }
{
    let Some(place) = seat_of(table, txn) else {
        return Err(Fault::Over);
    };
    let author = read_found(table, place, key, id)?;
    let set = table[READ + place];
    if !has_key(set, key) {
        let at = READS + READS_OF_ONE * place + usize::from(key_count(set));
        table[place] = u64::from(txn);
        table[READ + place] = with_key(set, key);
        table[at] = read_word(key, author);
    }
    Ok(())
}
