// The bytes of a record and of a slot, read and written. Their meaning is defined in model's specs/Bytes, Entries, Records and Slots.
#![tactic(auto)]

ghost use Rattle.std.specs.Prelude.{◌≡◌, true, false, ◌≤◌, ◌<◌, ◌+◌, ◌-◌, ◌*◌, ◌^◌, ◌++◌, eqb, length, take, drop, replicate};
ghost use Rattle.model.specs.Lists.{all, ascending};
ghost use Rattle.model.specs.Limits.{keys, keys_size, record_size, byte_range};
ghost use Rattle.model.specs.Kinds.{Kind as Layout, narrow_kind, wide_kind, slot_size};
ghost use Rattle.model.specs.Bytes.{bytes, number, id_in, head_bytes};
ghost use Rattle.model.specs.KeySets.{key_set};
ghost use Rattle.model.specs.Listed.{kind_of, listed_entry};
ghost use Rattle.model.specs.Entries.{commit_record, carries_entry};
ghost use Rattle.model.specs.Records.{value_in, version_record, zero_record, carries_version, record_at};
ghost use Rattle.model.specs.Slots.{versions_carry, seen};
ghost use Rattle.records.specs.Fields.{fields_in, first_keys, field_rules, is_commit, number_rules, IsWritten};
ghost use Rattle.records.specs.SlotView.{seen_as};

use keysets::{Keys, key_bytes, key_count, set_of};
use model::{Entry, Id, Kind, Station};

// A free slot's first byte, 01's mark.
const FREE_MARK: u8 = 0;

// What a slot, 01's drawer, is read as.
#[derive(Clone, Copy)]
pub enum Slot {
    Free,
    Committed(Entry),
    Damaged,
}

// What a commit record's bytes say: its id, its count, and its eight key bytes.
#[derive(Clone, Copy)]
struct Fields {
    id: Id,
    count: u8,
    keys: [u8; Station::WRITES],
}

// The number that bytes make, least byte first: from the last byte down, so that no power of 256 is kept.
pub fn number_in(part: &[u8]) -> u64
    requires { length part.now ≤ 8 }
    ensures { (result ≡ number part.now) × (result < byte_range ^ length part.now) }
{
    let mut sum: u64 = 0;
    for byte in part.iter().rev() {
        sum = sum * 256 + u64::from(*byte);
    }
    sum
}

// The value of a version record.
pub fn value_in(r: &[u8]) -> u64
    requires { length r.now ≡ record_size }
    ensures { result ≡ value_in r.now }
{
    number_in(&r[16..24])
}

// The id in the first 16 bytes of a record of either kind (and of a request, or an item of an image): transaction, then clock.
pub fn id_in(r: &[u8]) -> Id
    requires { 16 ≤ length r.now }
    ensures { result ≡ id_in r.now }
{
    let txn = number_in(&r[4..8]) as u32;
    let clock = number_in(&r[8..16]);
    Id { clock, txn }
}

// The eight key bytes of a write set: the keys themselves, zeros after the last; of a wide store the number, least byte first.
fn field_bytes(kind: Kind, set: u64) -> [u8; Station::WRITES]
    requires { length (key_set set) ≤ (kind_of kind).write_limit }
    ensures { result ≡ (kind_of kind).encode (key_set set) }
{
    match kind {
        Kind::Narrow => key_bytes(set),
        Kind::Wide => {
            let mut out = [0u8; Station::WRITES];
            write_number(&mut out, set);
            out
        }
    }
}

// A commit record has its kind's mark and its two zeros.
fn is_commit(kind: Kind, r: &[u8]) -> bool
    requires { length r.now ≡ record_size }
    ensures { result ≡ is_commit (kind_of kind) r.now }
{
    r[0] == kind.mark() && r[2] == 0 && r[3] == 0
}

// A commit record carries an entry.
pub fn carries_entry(kind: Kind, r: &[u8], e: Entry) -> bool
    requires r_len { length r.now ≡ record_size }
    requires keys_len_bound { length (key_set e.keys) ≤ (kind_of kind).write_limit }
    ensures { result ≡ carries_entry (kind_of kind) r.now (listed_entry e) }
{
    is_commit(kind, r)
        && id_in(r) == e.id
        && r[1] == key_count(e.keys)
        && r[16..24] == field_bytes(kind, e.keys)[..]
}

// A version record carries a key and an id; its value may be any.
pub fn carries_version(r: &[u8], key: u8, id: Id) -> bool
    requires { length r.now ≡ record_size }
    ensures { result ≡ carries_version r.now key id }
{
    r[0] == key && r[1] == 0 && r[2] == 0 && r[3] == 0 && id_in(r) == id
}

// The fields of a commit record.
#[inline(always)]
fn fields_in(r: &[u8]) -> Fields
    requires { length r.now ≡ record_size }
    ensures { result ≡ fields_in r.now }
{
    let mut keys = [0u8; Station::WRITES];
    keys.copy_from_slice(&r[16..24]);
    Fields {
        id: id_in(r),
        count: r[1],
        keys,
    }
}

// The keys rise strictly and are keys.
fn keys_ascend(ks: &[u8]) -> bool
    ensures { result ≡ ascending 0 keys ks.now }
{
    let mut low = 0;
    for k in ks {
        if *k < low || *k >= Station::KEYS_U8 {
            return false;
        }
        low = *k + 1;
    }
    true
}

// The bytes are zero.
fn all_zero(bytes: &[u8]) -> bool
    ensures { result ≡ all (eqb 0) bytes.now }
{
    bytes.iter().all(|b| *b == 0)
}

// The ones of a wide commit record's number are its count and within the limit, and its transaction and clock are not 0.
fn number_right(count: u8, set: u64, id: Id) -> bool
    ensures { result ≡ number_rules count (key_set set) id }
{
    let n = key_count(set);
    count == n && n != 0 && n <= Station::WIDE_WRITES_U8 && id.txn != 0 && id.clock != 0
}

impl Fields {
    // The keys of a narrow record: as many key bytes as it counts.
    fn first_keys(&self) -> &[u8]
        requires { self.now.count ≤ keys_size }
        ensures { result.now ≡ first_keys self.now }
    {
        &self.keys[..usize::from(self.count)]
    }

    // The rules of a narrow commit record: its keys ascend, and the key bytes after them are zero.
    #[inline(always)]
    fn keeps_rules(&self) -> bool
        ensures { result ≡ field_rules self.now }
    {
        let count = usize::from(self.count);
        1 <= count
            && count <= Station::WRITES
            && self.id.txn != 0
            && self.id.clock != 0
            && keys_ascend(self.first_keys())
            && all_zero(&self.keys[count..])
    }

    // The entry of a narrow slot that has its mark, if its other rules are kept.
    // Measured: the version records are compared with the key bytes, and not with the keys of the set.
    #[inline(always)]
    fn narrow_entry(&self, w: &[u8]) -> Option<Entry>
        requires w_len { length w.now ≡ slot_size narrow_kind }
        requires f_value { self.now ≡ fields_in (take record_size w.now) }
        ensures { IsWritten narrow_kind w.now result }
    {
        if self.keeps_rules() && carries_keys(w, self.id, self.first_keys()) {
            Some(Entry {
                id: self.id,
                keys: set_of(self.first_keys()),
            })
        } else {
            None
        }
    }

    // The entry of a wide slot that has its mark, if its other rules are kept.
    #[inline(always)]
    fn wide_entry(&self, w: &[u8]) -> Option<Entry>
        requires w_len { length w.now ≡ slot_size wide_kind }
        requires f_value { self.now ≡ fields_in (take record_size w.now) }
        ensures { IsWritten wide_kind w.now result }
    {
        let keys = number_in(&self.keys);
        if number_right(self.count, keys, self.id) && carries_set(w, self.id, keys) {
            Some(Entry { id: self.id, keys })
        } else {
            None
        }
    }
}

// Each version record of a slot carries its key, and the id. Records above the count are leftovers and are not read.
#[inline(always)]
fn carries_keys(w: &[u8], id: Id, ks: &[u8]) -> bool
    requires { record_size * (length ks.now + 1) ≤ length w.now }
    ensures { (κ : Layout) → result ≡ versions_carry (record_at κ w.now 0) id 1 ks.now }
{
    for (n, key) in ks.iter().enumerate() {
        let at = Station::RECORD * (n + 1);
        if !carries_version(&w[at..at + Station::RECORD], *key, id) {
            return false;
        }
    }
    true
}

// The same, by the keys of a set.
#[inline(always)]
fn carries_set(w: &[u8], id: Id, set: u64) -> bool
    requires { record_size * (length (key_set set) + 1) ≤ length w.now }
    ensures { (κ : Layout) → result ≡ versions_carry (record_at κ w.now 0) id 1 (key_set set) }
{
    for (n, key) in Keys(set).enumerate() {
        let at = Station::RECORD * (n + 1);
        if !carries_version(&w[at..at + Station::RECORD], key, id) {
            return false;
        }
    }
    true
}

// The entry of a slot that has its mark, if its other rules are kept.
#[inline(always)]
fn written_entry(kind: Kind, w: &[u8], f: &Fields) -> Option<Entry>
    requires w_len { length w.now ≡ slot_size (kind_of kind) }
    requires f_value { f.now ≡ fields_in (take record_size w.now) }
    ensures { IsWritten (kind_of kind) w.now result }
{
    match kind {
        Kind::Narrow => f.narrow_entry(w),
        Kind::Wide => f.wide_entry(w),
    }
}

// What a slot's bytes are read as; a free slot's are not read on.
pub fn read_slot(kind: Kind, w: &[u8]) -> Slot
    requires { length w.now ≡ slot_size (kind_of kind) }
    ensures { seen_as result ≡ seen (kind_of kind) w.now 0 }
{
    if w[0] == FREE_MARK {
        return Slot::Free;
    }
    let r = &w[..Station::RECORD];
    if !is_commit(kind, r) {
        return Slot::Damaged;
    }
    // Measured: the fields are read here, and not once more for the id.
    match written_entry(kind, w, &fields_in(r)) {
        Some(e) => Slot::Committed(e),
        None => Slot::Damaged,
    }
}

// A number's bytes, least byte first, over the part lent.
pub fn write_number(part: &mut [u8], x: u64)
    ensures { part.new ≡ bytes (length part.old) x }
{
    let mut rest = x;
    for byte in part.iter_mut() {
        *byte = (rest % 256) as u8;
        rest /= 256;
    }
}

// The first 16 bytes of a record, of either kind.
fn write_head(part: &mut [u8], first: u8, second: u8, id: Id)
    requires { length part.old ≡ record_size }
    ensures { part.new ≡ head_bytes first second id ++ drop 16 part.old }
{
    part[0] = first;
    part[1] = second;
    part[2] = 0;
    part[3] = 0;
    write_number(&mut part[4..8], u64::from(id.txn));
    write_number(&mut part[8..16], id.clock);
}

// A version record over the part lent.
pub fn write_version(part: &mut [u8], key: u8, id: Id, value: u64)
    requires { length part.old ≡ record_size }
    ensures { part.new ≡ version_record key id value }
{
    write_head(part, key, 0, id);
    write_number(&mut part[16..24], value);
}

// A commit record over the part lent.
pub fn write_commit(kind: Kind, part: &mut [u8], e: Entry)
    requires part_len { length part.old ≡ record_size }
    requires keys_len_bound { length (key_set e.keys) ≤ (kind_of kind).write_limit }
    ensures { part.new ≡ commit_record (kind_of kind) (listed_entry e) }
{
    write_head(part, kind.mark(), key_count(e.keys), e.id);
    part[16..24].copy_from_slice(&field_bytes(kind, e.keys));
}

// Zeros over the part lent: as a commit record they free a slot.
pub fn write_zero(part: &mut [u8])
    requires { length part.old ≡ record_size }
    ensures { part.new ≡ zero_record }
{
    part.fill(0);
}

// Bytes over the front of the part lent. One by one: here `copy_from_slice` asked the host of a C archive for memmove.
pub fn copy(part: &mut [u8], bytes: &[u8])
    requires { length bytes.now ≤ length part.old }
    ensures { take (length bytes.now) part.new ≡ bytes.now }
{
    for (i, &byte) in bytes.iter().enumerate() {
        part[i] = byte;
    }
}

// Zeros from a place on.
pub fn clear(part: &mut [u8], from: usize)
    requires { from ≤ length part.old }
    ensures { part.new ≡ take from part.old ++ replicate (length part.old - from) 0 }
{
    part[from..].fill(0);
}
