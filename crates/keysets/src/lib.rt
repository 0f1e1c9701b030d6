// A write set as one number of 64 bits, bit k standing for key k (02 §5; model's specs/KeySets).
#![tactic(auto)]

ghost use Rattle.std.specs.Prelude.{◌≡◌, true, ◌^◌, ◌≤◌, ◌<◌, leb, length, get_or};
ghost use Rattle.model.specs.Lists.{all, ascending, first, member, padded};
ghost use Rattle.model.specs.Limits.{keys, keys_size};
ghost use Rattle.model.specs.KeySets.{key_set};
ghost use Rattle.keysets.specs.Parts.{IsLowest, IsRest, AlsoHas, keys_left};

use model::Station;

// The keys of a set, lowest first.
#[derive(Clone, Copy)]
pub struct Keys(pub u64);

impl Iterator for Keys {
    ghost use Rattle.std.specs.Iterator.{YieldsFirst, item_count};

    type Item = u8;

    ghost next_gives = { YieldsFirst keys_left };

    ghost remaining = { item_count keys_left };

    fn next(&mut self) -> Option<u8> {
        if self.0 == 0 {
            return None;
        }
        let key = lowest_key(self.0);
        self.0 = without_lowest(self.0);
        Some(key)
    }
}

// The number that has this key alone.
fn bit(key: u8) -> u64
    requires { key < keys }
    ensures { result ≡ 2 ^ key }
{
    1u64 << key
}

pub fn has_key(set: u64, key: u8) -> bool
    ensures { result ≡ member key (key_set set) }
{
    key < Station::KEYS_U8 && set & bit(key) != 0
}

// How many keys: the count of ones.
pub fn key_count(set: u64) -> u8
    ensures { result ≡ length (key_set set) }
{
    set.count_ones() as u8
}

// How many keys of the set are lower than a key: the ones below it.
pub fn keys_below(set: u64, key: u8) -> usize
    requires { key < keys }
    ensures { result ≡ first (leb key) (key_set set) }
{
    (set & (bit(key) - 1)).count_ones() as usize
}

// The set with one key more.
pub fn with_key(set: u64, key: u8) -> u64
    requires { key < keys }
    ensures { AlsoHas set key result }
{
    set | bit(key)
}

// The set of ascending keys.
pub fn set_of(ks: &[u8]) -> u64
    requires { ascending 0 keys ks.now ≡ true }
    ensures { key_set result ≡ ks.now }
{
    let mut set = 0;
    for k in ks {
        set = with_key(set, *k);
    }
    set
}

// The lowest key: the trailing zeros.
pub fn lowest_key(set: u64) -> u8
    requires { 0 < set }
    ensures { IsLowest set result }
{
    set.trailing_zeros() as u8
}

// The set without its lowest key.
pub fn without_lowest(set: u64) -> u64
    requires { 0 < set }
    ensures { IsRest set result }
{
    set - bit(lowest_key(set))
}

// The key with n lower ones.
pub fn nth_key(set: u64, n: usize) -> u8
    requires { n < length (key_set set) }
    ensures { result ≡ get_or (key_set set) n 0 }
{
    let mut rest = set;
    for _ in 0..n {
        rest = without_lowest(rest);
    }
    lowest_key(rest)
}

// Whether the other set has every key of the set.
pub fn is_within(set: u64, other: u64) -> bool
    ensures { result ≡ all (λ k. member k (key_set other)) (key_set set) }
{
    set & other == set
}

// The keys ascending, as a commit record has them: zeros after the last.
pub fn key_bytes(set: u64) -> [u8; Station::WRITES]
    requires { length (key_set set) ≤ keys_size }
    ensures { result ≡ padded 0 keys_size (key_set set) }
{
    let mut out = [0u8; Station::WRITES];
    for (n, key) in Keys(set).enumerate() {
        out[n] = key;
    }
    out
}
