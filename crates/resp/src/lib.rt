// The RESP stream of a committed set (02 §11): its commands written into lent bytes, and read off them. Defined in specs/.
#![tactic(auto)]

ghost use Rattle.std.specs.Prelude.{◌≡◌, suc, ◌+◌, ◌<◌, ◌≤◌, ◌∷◌, ◌++◌, length, take, IfSome, MatchOption};
ghost use Rattle.std.proofs.Math.Option.{some, none};
ghost use Rattle.model.specs.Refusals.{number_of};
ghost use Rattle.model.specs.KeySets.{key_set};
ghost use Rattle.decimal.specs.Digits.{digits, number_below};
ghost use Rattle.decimal.specs.Written.{written};
ghost use Rattle.resp.specs.Streams.{slash, bulk, set_command, id_text, keys_text};
ghost use Rattle.resp.specs.Inverse.{bulk_in, id_text_in, name_in, version_in};
ghost use Rattle.resp.specs.Parts.{number_ended};

use decimal::{number_in, write_bytes, write_number};
use keysets::Keys;
use model::{Id, Refusal};

// The greatest transaction, key and clock (or value, or length), as numbers.
const TXN_MAX: u64 = u32::MAX as u64;

const KEY_MAX: u64 = 63;

const NUMBER_MAX: u64 = u64::MAX;

// The bytes of an id's text, and of a name or a value, with room to write them; of a command.
pub const ID_TEXT: usize = 48;

const TEXT: usize = 64;

pub const COMMAND: usize = 256;

// A refusal: its number, and the slot where it has one.
#[derive(Clone, Copy, PartialEq, Eq)]
pub struct Refused {
    pub number: u8,
    pub slot: u8,
}

impl From<Refusal> for Refused {
    ghost from_gives = { λ r e. e ≡ record { number = number_of r; slot = 0 } };

    fn from(refusal: Refusal) -> Refused {
        Refused {
            number: refusal.number(),
            slot: 0,
        }
    }
}

// What an export or an import comes to: the stream's length, or the number of transactions.
pub type Transfer = Result<usize, Refused>;

// A bulk string: its bytes, and those after it.
#[derive(Clone, Copy)]
struct Bulk<'a> {
    content: &'a [u8],
    rest: &'a [u8],
}

// A version's name.
#[derive(Clone, Copy)]
struct Name {
    key: u8,
    id: Id,
}

// A version's command, and the bytes after it.
#[derive(Clone, Copy)]
pub struct Version<'a> {
    pub key: u8,
    pub id: Id,
    pub value: u64,
    pub rest: &'a [u8],
}

// ---- written
// An id as text; how many bytes it has.
pub fn write_id(out: &mut [u8], id: Id) -> usize
    requires { 48 ≤ length out.old }
    ensures { (result ≡ length (id_text id)) × (result ≤ 31) × (take result out.new ≡ id_text id) × (length out.new ≡ length out.old) }
{
    let txn = write_number(out, 0, id.clock, b'/');
    let end = write_number(out, txn, u64::from(id.txn), b'\r');
    end - 1
}

// A bulk string; the place after it.
fn write_bulk(out: &mut [u8], start: usize, w: &[u8]) -> usize
    requires { (length w.now ≤ 64) × (start + 90 ≤ length out.old) }
    ensures { (result ≡ start + length (bulk w.now)) × (out.new ≡ written out.old start (bulk w.now)) }
{
    out[start] = b'$';
    let feed = write_number(out, start + 1, w.len() as u64, b'\r');
    out[feed] = b'\n';
    let end = write_bytes(out, feed + 1, w);
    write_bytes(out, end, b"\r\n")
}

// A command; the place after it.
fn write_set(out: &mut [u8], start: usize, name: &[u8], value: &[u8]) -> usize
    requires { (length name.now ≤ 64) × (length value.now ≤ 64) × (start + 256 ≤ length out.old) }
    ensures { (result ≡ start + length (set_command name.now value.now)) × (out.new ≡ written out.old start (set_command name.now value.now)) }
{
    let at = write_bytes(out, start, b"*3\r\n$3\r\nSET\r\n");
    let next = write_bulk(out, at, name);
    write_bulk(out, next, value)
}

// A version's command, its id as text; the place after it.
pub fn write_version_command(out: &mut [u8], start: usize, key: u8, id: &[u8], value: u64) -> usize
    requires { (length id.now ≤ 31) × (start + 256 ≤ length out.old) }
    ensures { (result ≡ start + length (set_command (118 ∷ slash ∷ digits key ++ (slash ∷ id.now)) (digits value))) × (out.new ≡ written out.old start (set_command (118 ∷ slash ∷ digits key ++ (slash ∷ id.now)) (digits value))) }
{
    let mut name = [0u8; TEXT];
    name[0] = b'v';
    name[1] = b'/';
    let at = write_number(&mut name, 2, u64::from(key), b'/');
    let end = write_bytes(&mut name, at, id);
    let mut text = [0u8; TEXT];
    let after = write_number(&mut text, 0, value, b'\r');
    write_set(out, start, &name[..end], &text[..after - 1])
}

// Keys parted by commas; how many bytes they have.
fn write_keys(out: &mut [u8], set: u64) -> usize
    requires { (64 ≤ length out.old) × (1 ≤ length (key_set set)) × (length (key_set set) ≤ 8) }
    ensures { (result ≡ length (keys_text (key_set set))) × (result ≤ 31) × (take result out.new ≡ keys_text (key_set set)) × (length out.new ≡ length out.old) }
{
    let mut at = 0;
    for key in Keys(set) {
        at = write_number(out, at, u64::from(key), b',');
    }
    at - 1
}

// A commit's command, its id as text; the place after it.
pub fn write_commit_command(out: &mut [u8], start: usize, id: &[u8], set: u64) -> usize
    requires { (length id.now ≤ 31) × (1 ≤ length (key_set set)) × (length (key_set set) ≤ 8) × (start + 256 ≤ length out.old) }
    ensures { (result ≡ start + length (set_command (99 ∷ slash ∷ id.now) (keys_text (key_set set)))) × (out.new ≡ written out.old start (set_command (99 ∷ slash ∷ id.now) (keys_text (key_set set)))) }
{
    let mut name = [0u8; TEXT];
    name[0] = b'c';
    name[1] = b'/';
    let end = write_bytes(&mut name, 2, id);
    let mut text = [0u8; TEXT];
    let size = write_keys(&mut text, set);
    write_set(out, start, &name[..end], &text[..size])
}

// ---- read
// A number, and what comes after the byte that ends it.
fn number_before(s: &[u8], end: u8, max: u64) -> Option<(u64, &[u8])>
    requires { 9 ≤ max }
    ensures { MatchOption result (number_ended (suc max) end s.now ≡ none) (λ p. number_ended (suc max) end s.now ≡ some (record { number = p.0; rest = p.1.now })) }
{
    let (n, at) = number_in(s, end, max)?;
    let rest = s.get(at + 1..)?;
    Some((n, rest))
}

// The bytes as one number.
fn whole_number(s: &[u8], max: u64) -> Option<u64>
    requires { 9 ≤ max }
    ensures { MatchOption result (number_below (suc max) s.now ≡ none) (λ n. number_below (suc max) s.now ≡ some n) }
{
    let (n, at) = number_in(s, b'/', max)?;
    if at == s.len() { Some(n) } else { None }
}

// The bulk string that the bytes begin with.
fn bulk_in(s: &[u8]) -> Option<Bulk<'_>>
    ensures { MatchOption result (bulk_in s.now ≡ none) (λ b. bulk_in s.now ≡ some (record { content = b.content.now; rest = b.rest.now })) }
{
    let sized = s.strip_prefix(b"$")?;
    let (size, line) = number_before(sized, b'\r', NUMBER_MAX)?;
    let bytes = line.strip_prefix(b"\n")?;
    if size > bytes.len() as u64 {
        return None;
    }
    let (content, ended) = bytes.split_at(size as usize);
    let rest = ended.strip_prefix(b"\r\n")?;
    Some(Bulk { content, rest })
}

// An id, as it stands at the end of a name.
fn id_text_in(s: &[u8]) -> Option<Id>
    ensures { MatchOption result (id_text_in s.now ≡ none) (λ i. id_text_in s.now ≡ some i) }
{
    let (clock, rest) = number_before(s, b'/', NUMBER_MAX)?;
    let txn = whole_number(rest, TXN_MAX)?;
    if clock == 0 || txn == 0 {
        None
    } else {
        Some(Id {
            clock,
            txn: txn as u32,
        })
    }
}

// A version's name.
fn name_in(s: &[u8]) -> Option<Name>
    ensures { MatchOption result (name_in s.now ≡ none) (λ n. name_in s.now ≡ some (record { key = n.key; id = n.id })) }
{
    let named = s.strip_prefix(b"v/")?;
    let (key, rest) = number_before(named, b'/', KEY_MAX)?;
    let id = id_text_in(rest)?;
    Some(Name { key: key as u8, id })
}

// The version's command that the bytes begin with.
pub fn version_in(s: &[u8]) -> Option<Version<'_>>
    ensures read { MatchOption result (version_in s.now ≡ none) (λ v. version_in s.now ≡ some (record { id = v.id; write = record { key = v.key; value = v.value }; rest = v.rest.now })) }
    ensures shorter { IfSome result (λ v. length v.rest.now < length s.now) }
{
    let set = s.strip_prefix(b"*3\r\n$3\r\nSET\r\n")?;
    let first = bulk_in(set)?;
    let Name { key, id } = name_in(first.content)?;
    let second = bulk_in(first.rest)?;
    let value = whole_number(second.content, NUMBER_MAX)?;
    Some(Version {
        key,
        id,
        value,
        rest: second.rest,
    })
}
