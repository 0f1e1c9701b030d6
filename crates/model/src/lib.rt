// The types of the store: a station's live transactions and its commit set, and what a call answers.
// What each call does to them is defined in specs/.
#![tactic(auto)]

ghost use Rattle.std.specs.Prelude.{◌≡◌, ◌≤◌, length};
ghost use Rattle.model.specs.Limits.{read_limit};
ghost use Rattle.model.specs.Kinds.{narrow_kind, wide_kind, slot_size, store_size};
ghost use Rattle.model.specs.Ids.{same_id};
ghost use Rattle.model.specs.Listed.{kind_of, listed_entry, listed_live, listed};
ghost use Rattle.model.specs.Lives.{blank, reads_of, write_count, slot_mark, closing_clock, is_closing};
ghost use Rattle.model.specs.Entries.{no_entry};
ghost use Rattle.model.specs.Stations.{empty_station};

mod refusal;

pub use refusal::Refusal;

// 01's id: the pair (clock, ticket) of a committed transaction.
#[derive(Clone, Copy, PartialEq, Eq, PartialOrd, Ord)]
pub struct Id {
    pub clock: u64,
    pub txn: u32,
}

impl Id {
    // No transaction's, and older than each.
    pub const NONE: Id = Id { clock: 0, txn: 0 };
}

// How far a live transaction is: 01's open, or closing with its slot (drawer), clock and records (slips) stored so far.
#[derive(Clone, Copy, PartialEq, Eq)]
pub enum Phase {
    Unused,
    Open,
    Closing(u8, u64, u8),
}

// A key of the read set (01's read list) with the id of the version read.
#[derive(Clone, Copy, PartialEq, Eq)]
pub struct Read {
    pub key: u8,
    pub id: Id,
}

impl Read {
    // What stands past the reads that are counted.
    pub const NONE: Read = Read {
        key: 0,
        id: Id::NONE,
    };
}

// A place for a live transaction (01's live ticket). Its write set (01's write list) is a number in which bit k stands for key k (02 §5), and the
// values of its keys in their order; room for 16, a wide store's limit (02 §6).
#[derive(Clone, Copy, PartialEq, Eq)]
pub struct Live {
    pub txn: u32,
    pub phase: Phase,
    pub keys: u64,
    pub values: [u64; Station::WRITE_PLACES],
    pub read_count: u8,
    pub reads: [Read; Station::READS],
}

// A committed transaction of the commit set (01's entry, a held drawer): its id and write set, in which bit k stands for key k (02 §5).
#[derive(Clone, Copy, PartialEq, Eq)]
pub struct Entry {
    pub id: Id,
    pub keys: u64,
}

// The kind of a store (02 §6): 64 slots of 8 keys, or 32 slots of 16.
#[derive(Clone, Copy, PartialEq, Eq)]
pub enum Kind {
    Narrow,
    Wide,
}

// 01's station, the paper's node: all that is lost when power goes. It is made for a store of its kind; of the wide kind only the first 32 entries are
// used.
#[derive(Clone, Copy, PartialEq, Eq)]
pub struct Station {
    pub live: [Live; Station::LIVE],
    pub entries: [Entry; Station::SLOTS],
    pub kind: Kind,
}

// What a call answers; the variants are 01's output words, and Swept and Moved, with how many entries a sweep has collected and how many slots a
// move has filled. Nofit holds the key in the way; Refused the number and, with 18, the slot.
#[derive(Clone, Copy, PartialEq, Eq)]
pub enum Answer {
    Started,
    Kept,
    Own(u64),
    Version(u64, Id),
    None,
    Nofit(u8),
    Closing(u8),
    Empty,
    Done(Id),
    Stored(u8),
    Slipped(u8),
    Dropped,
    Collected(Id),
    Found(u8),
    Refused(u8, u8),
    Swept(u8),
    Moved(u8),
}

// What a call hands back beside the store: its answer, and the station.
#[derive(Clone, Copy, PartialEq, Eq)]
pub struct Outcome {
    pub station: Station,
    pub answer: Answer,
}

impl Station {
    // Live transactions, slots, keys in a write set and keys in a read set, each at most; keys are below KEYS.
    pub const LIVE: usize = 8;

    pub const SLOTS: usize = 64;

    pub const WRITES: usize = 8;

    // The room for a write set, of either kind.
    pub const WRITE_PLACES: usize = 16;

    pub const READS: usize = 16;

    pub const KEYS: usize = 64;

    // The entries that one sweep collects, at most.
    pub const SWEEP: u64 = 64;

    // The last place and slot; the limits of a write set, a read set and a key as the bytes that these are counted in.
    pub const LAST_PLACE: usize = Station::LIVE - 1;

    pub const LAST_SLOT: usize = Station::SLOTS - 1;

    pub const WRITES_U8: u8 = Station::WRITES as u8;

    pub const WIDE_WRITES_U8: u8 = 16;

    pub const READS_U8: u8 = Station::READS as u8;

    pub const KEYS_U8: u8 = Station::KEYS as u8;

    pub const LAST_KEY: u8 = Station::KEYS_U8 - 1;

    // After it there is no clock.
    pub const LAST_CLOCK: u64 = 18446744073709551615;

    // The bytes of a record; of a slot, which has a commit record and one for each key of a write set; of a store.
    pub const RECORD: usize = 24;

    pub const SLOT: usize = Station::RECORD * (Station::WRITES + 1);

    pub const STORE: usize = Station::SLOT * Station::SLOTS;

    // The same of the wide kind: slots, keys in a write set, the bytes of a slot and of a store.
    pub const WIDE_SLOTS: usize = 32;

    pub const WIDE_WRITES: usize = 16;

    pub const WIDE_SLOT: usize = Station::RECORD * (Station::WIDE_WRITES + 1);

    pub const WIDE_STORE: usize = Station::WIDE_SLOT * Station::WIDE_SLOTS;

    // The station made from nothing.
    #[tactic(auto, unfolding(crate::specs::Listed::kind_of))]
    pub fn empty() -> Station
        ensures { listed result ≡ empty_station narrow_kind }
    {
        empty_of(Kind::Narrow)
    }

    // And of the wide kind.
    #[tactic(auto, unfolding(crate::specs::Listed::kind_of))]
    pub fn empty_wide() -> Station
        ensures { listed result ≡ empty_station wide_kind }
    {
        empty_of(Kind::Wide)
    }
}

#[tactic(auto, unfolding(crate::specs::Lives::slot_mark, crate::specs::Lives::closing_clock, crate::specs::Lives::is_closing))]
impl Phase {
    // The slot of a closing transaction, counted from 1; 0 of any other.
    pub fn slot_mark(self) -> u32
        ensures { result ≡ slot_mark self }
    {
        match self {
            Phase::Closing(slot, _, _) => u32::from(slot) + 1,
            _ => 0,
        }
    }

    // The clock of a closing transaction; 0 of any other.
    pub fn closing_clock(self) -> u64
        ensures { result ≡ closing_clock self }
    {
        match self {
            Phase::Closing(_, clock, _) => clock,
            _ => 0,
        }
    }

    pub fn is_closing(self) -> bool
        ensures { result ≡ is_closing self }
    {
        matches!(self, Phase::Closing(_, _, _))
    }
}

#[tactic(auto, unfolding(crate::specs::Listed::kind_of))]
impl Kind {
    // The mark of a commit record; slots; keys in a write set, at most.
    pub fn mark(self) -> u8
        ensures { result ≡ (kind_of self).mark }
    {
        match self {
            Kind::Narrow => 1,
            Kind::Wide => 2,
        }
    }

    pub fn slots(self) -> usize
        ensures { result ≡ (kind_of self).slots }
    {
        match self {
            Kind::Narrow => Station::SLOTS,
            Kind::Wide => Station::WIDE_SLOTS,
        }
    }

    pub fn write_limit(self) -> usize
        ensures { result ≡ (kind_of self).write_limit }
    {
        match self {
            Kind::Narrow => Station::WRITES,
            Kind::Wide => Station::WIDE_WRITES,
        }
    }

    // The bytes of a slot and of a store.
    pub fn slot_size(self) -> usize
        ensures { result ≡ slot_size (kind_of self) }
    {
        match self {
            Kind::Narrow => Station::SLOT,
            Kind::Wide => Station::WIDE_SLOT,
        }
    }

    pub fn store_size(self) -> usize
        ensures { result ≡ store_size (kind_of self) }
    {
        match self {
            Kind::Narrow => Station::STORE,
            Kind::Wide => Station::WIDE_STORE,
        }
    }
}

// The station with nothing in it, of a kind. Measured: made of blank and no_entry it is not inlined, and a scan costs a copy more.
pub fn empty_of(kind: Kind) -> Station
    ensures { listed result ≡ empty_station (kind_of kind) }
{
    let live = Live {
        txn: 0,
        phase: Phase::Unused,
        keys: 0,
        values: [0; Station::WRITE_PLACES],
        read_count: 0,
        reads: [Read::NONE; Station::READS],
    };
    let entry = Entry {
        id: Id::NONE,
        keys: 0,
    };
    Station {
        live: [live; Station::LIVE],
        entries: [entry; Station::SLOTS],
        kind,
    }
}

// ---- one value
// A live transaction with empty sets.
pub fn blank(txn: u32, phase: Phase) -> Live
    ensures { listed_live result ≡ blank txn phase }
{
    Live {
        txn,
        phase,
        keys: 0,
        values: [0; Station::WRITE_PLACES],
        read_count: 0,
        reads: [Read::NONE; Station::READS],
    }
}

// The unused entry.
pub fn no_entry() -> Entry
    ensures { listed_entry result ≡ no_entry }
{
    Entry {
        id: Id::NONE,
        keys: 0,
    }
}

// How many keys the transaction writes.
pub fn write_count(l: Live) -> u8
    ensures { result ≡ write_count (listed_live l) }
{
    u64::count_ones(l.keys) as u8
}

// How many reads the transaction has.
pub fn read_count(l: Live) -> usize
    ensures upper_bound { result ≤ read_limit }
    ensures value { result ≡ length (reads_of (listed_live l)) }
{
    usize::from(l.read_count).min(Station::READS)
}
