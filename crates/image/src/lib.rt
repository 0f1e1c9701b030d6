// The station as an image of fixed length in lent bytes, for hosts in other languages. Its layout is defined in specs/.
#![tactic(auto)]

ghost use Rattle.std.specs.Prelude.{ℕ, List, ◌≡◌, ◌*◌, ◌≤◌, true, false, map, length, MatchOption};
ghost use Rattle.model.specs.Lists.{all};
ghost use Rattle.model.specs.Limits.{live_places, read_limit};
ghost use Rattle.model.specs.Bytes.{id_in};
ghost use Rattle.model.specs.Listed.{kind_of, listed, numbered};
ghost use Rattle.model.specs.Lives.{closing_slot, closing_clock, records_stored};
ghost use Rattle.image.specs.Layout.{kind_size, head_size, value_size, values_size, read_size, reads_size, place_size, places_size, entry_size, entries_size, image_size, flat, parts, kind_bytes, kind_from, value_bytes, value_from, start_bytes, read_bytes, read_from, entry_bytes, entry_from, phase_number, place_head, phase_from};
ghost use Rattle.image.specs.Images.{place_bytes, place_from, station_bytes, station_in, is_alone, is_kind, is_head, is_place, is_image};

use model::{Entry, Id, Kind, Live, Phase, Read, Station, blank, no_entry};
use records::{id_in, number_in, write_number};

// The bytes of what stands before a place's values, of a value and of a read, and where a place's reads begin.
const HEAD: usize = 24;

const VALUE: usize = 8;

const READ: usize = 16;

const READS_AT: usize = HEAD + VALUE * Station::WRITE_PLACES;

// The bytes of the kind, of a place and of an entry, where the entries begin, and the bytes of the image.
const KIND: usize = 8;

const PLACE: usize = READS_AT + READ * Station::READS;

const ENTRY: usize = 20;

const ENTRIES_AT: usize = KIND + PLACE * Station::LIVE;

pub const IMAGE: usize = ENTRIES_AT + ENTRY * Station::SLOTS;

// The mark of a wide store.
const WIDE: u8 = 2;

// A phase's number.
const UNUSED: u8 = 0;

const OPEN: u8 = 1;

const CLOSING: u8 = 2;

// A phase as it stands in a place's bytes.
#[derive(Clone, Copy)]
struct Marked {
    mark: u8,
    slot: u8,
    stored: u8,
    clock: u64,
}

// A part of the image that stands in it several times, one after the other: so many bytes, and the value that they are.
trait Part: Copy {
    ghost SIZE: { ℕ };

    const SIZE: usize;

    ghost bytes_of: { Self → List ℕ };

    ghost value_of: { List ℕ → Self };

    fn read(b: &[u8]) -> Self
        requires { length b.now ≡ SIZE }
        ensures { result ≡ value_of b.now };

    fn write(self, part: &mut [u8])
        requires { length part.old ≡ SIZE }
        ensures { part.new ≡ bytes_of self };
}

// ---- whether bytes are those of a part
// A row's first byte stands alone in a field of so many bytes.
fn is_alone(row: &[u8], width: usize) -> bool
    requires { (width ≤ length row.now) × (1 ≤ width) × (width ≤ 8) }
    ensures { result ≡ is_alone width row.now }
{
    number_in(&row[1..width]) == 0
}

// The bytes that say the kind of the station's store: the kind that is read, written again, has the same mark.
fn is_kind(b: &[u8]) -> bool
    requires { length b.now ≡ kind_size }
    ensures { result ≡ is_kind b.now }
{
    kind_in(b).mark() == b[0] && is_alone(b, KIND)
}

// Each read's key stands alone before its transaction.
fn are_reads(b: &[u8]) -> bool
    requires { length b.now ≡ reads_size }
    ensures { result ≡ all (is_alone 4) (parts read_size read_limit b.now) }
{
    b.chunks_exact(READ).all(|read| is_alone(read, 4))
}

// What stands before a place's values: the phase that is read, written again, is the same.
fn is_head(b: &[u8]) -> bool
    requires { head_size ≤ length b.now }
    ensures { result ≡ is_head b.now }
{
    let id = id_in(b);
    let m = phase_marks(phase_in(b, id.clock));
    m.mark == b[0] && m.slot == b[1] && m.stored == b[2] && m.clock == id.clock
}

fn is_place(b: &[u8]) -> bool
    requires { length b.now ≡ place_size }
    ensures { result ≡ is_place b.now }
{
    is_head(b) && are_reads(&b[READS_AT..PLACE])
}

fn are_places(b: &[u8]) -> bool
    requires { length b.now ≡ places_size }
    ensures { result ≡ all is_place (parts place_size live_places b.now) }
{
    b.chunks_exact(PLACE).all(is_place)
}

// Bytes of any length are an image.
pub fn is_image(bytes: &[u8]) -> bool
    ensures { result ≡ is_image bytes.now }
{
    bytes.len() == IMAGE && is_kind(&bytes[..KIND]) && are_places(&bytes[KIND..ENTRIES_AT])
}

// ---- parts read off
// The kind of the station's store, by its mark; any other mark than the wide kind's is taken as the narrow kind's.
fn kind_in(b: &[u8]) -> Kind
    requires { kind_size ≤ length b.now }
    ensures { result ≡ kind_from b.now }
{
    if b[0] == WIDE {
        Kind::Wide
    } else {
        Kind::Narrow
    }
}

// The phase of a place, by its first bytes and the clock among them.
fn phase_in(b: &[u8], clock: u64) -> Phase
    requires head_size_in_bounds { head_size ≤ length b.now }
    requires clock_value { clock ≡ (id_in b.now).clock }
    ensures { result ≡ phase_from b.now }
{
    match b[0] {
        UNUSED => Phase::Unused,
        OPEN => Phase::Open,
        _ => Phase::Closing(b[1], clock, b[2]),
    }
}

// Parts one after the other, into as many places.
fn read_parts<P: Part>(b: &[u8], values: &mut [P])
    requires { length b.now ≡ P.SIZE * length values.old }
    ensures { values.new ≡ map P.value_of (parts P.SIZE (length values.old) b.now) }
{
    let size = P::SIZE;
    for (i, value) in values.iter_mut().enumerate() {
        let at = size * i;
        *value = P::read(&b[at..at + size]);
    }
}

// Bytes of any length, read: the station that they are the image of, or none.
pub fn read_image(bytes: &[u8]) -> Option<Station>
    ensures { MatchOption result (is_image bytes.now ≡ false) (λ station. (is_image bytes.now ≡ true) × (station ≡ station_in bytes.now)) }
{
    if !is_image(bytes) {
        return None;
    }
    let mut live = [blank(0, Phase::Unused); Station::LIVE];
    read_parts(&bytes[KIND..ENTRIES_AT], &mut live);
    let mut entries = [no_entry(); Station::SLOTS];
    read_parts(&bytes[ENTRIES_AT..IMAGE], &mut entries);
    Some(Station {
        live,
        entries,
        kind: kind_in(bytes),
    })
}

// ---- parts written
fn write_kind(part: &mut [u8], kind: Kind)
    requires { length part.old ≡ kind_size }
    ensures { part.new ≡ kind_bytes (kind_of kind).mark }
{
    write_number(part, u64::from(kind.mark()));
}

// Four bytes and an id: a read, and what begins a place.
fn write_start(part: &mut [u8], a: u8, b: u8, c: u8, d: u8, id: Id)
    requires { length part.old ≡ read_size }
    ensures { part.new ≡ start_bytes a b c d id }
{
    write_number(&mut part[4..8], u64::from(id.txn));
    write_number(&mut part[8..16], id.clock);
    part[0] = a;
    part[1] = b;
    part[2] = c;
    part[3] = d;
}

fn phase_marks(p: Phase) -> Marked
    ensures { (result.mark ≡ phase_number p) × (result.slot ≡ closing_slot p) × (result.stored ≡ records_stored p) × (result.clock ≡ closing_clock p) }
{
    match p {
        Phase::Unused => Marked {
            mark: UNUSED,
            slot: 0,
            stored: 0,
            clock: 0,
        },
        Phase::Open => Marked {
            mark: OPEN,
            slot: 0,
            stored: 0,
            clock: 0,
        },
        Phase::Closing(d, c, n) => Marked {
            mark: CLOSING,
            slot: d,
            stored: n,
            clock: c,
        },
    }
}

fn write_head(part: &mut [u8], p: Phase, txn: u32, reads: u8, keys: u64)
    requires { length part.old ≡ head_size }
    ensures { part.new ≡ place_head p txn reads keys }
{
    let m = phase_marks(p);
    let id = Id {
        clock: m.clock,
        txn,
    };
    write_start(&mut part[..16], m.mark, m.slot, m.stored, reads, id);
    write_number(&mut part[16..24], keys);
}

// Values one after the other, over as many parts.
fn write_parts<P: Part>(part: &mut [u8], values: &[P])
    requires { length part.old ≡ P.SIZE * length values.now }
    ensures { part.new ≡ flat P.bytes_of values.now }
{
    let size = P::SIZE;
    for (i, value) in values.iter().enumerate() {
        let at = size * i;
        value.write(&mut part[at..at + size]);
    }
}

// ---- the parts that there are several of
impl Part for u64 {
    ghost SIZE = { value_size };

    const SIZE: usize = VALUE;

    ghost bytes_of = { value_bytes };

    ghost value_of = { value_from };

    fn read(b: &[u8]) -> u64 {
        number_in(b)
    }

    fn write(self, part: &mut [u8]) {
        write_number(part, self);
    }
}

impl Part for Read {
    ghost SIZE = { read_size };

    const SIZE: usize = READ;

    ghost bytes_of = { read_bytes };

    ghost value_of = { read_from };

    fn read(b: &[u8]) -> Read {
        Read {
            key: b[0],
            id: id_in(b),
        }
    }

    fn write(self, part: &mut [u8]) {
        write_start(part, self.key, 0, 0, 0, self.id);
    }
}

impl Part for Entry {
    ghost SIZE = { entry_size };

    const SIZE: usize = ENTRY;

    ghost bytes_of = { entry_bytes };

    ghost value_of = { entry_from };

    fn read(b: &[u8]) -> Entry {
        Entry {
            id: Id {
                clock: number_in(&b[4..12]),
                txn: number_in(&b[0..4]) as u32,
            },
            keys: number_in(&b[12..20]),
        }
    }

    fn write(self, part: &mut [u8]) {
        write_number(&mut part[0..4], u64::from(self.id.txn));
        write_number(&mut part[4..12], self.id.clock);
        write_number(&mut part[12..20], self.keys);
    }
}

impl Part for Live {
    ghost SIZE = { place_size };

    const SIZE: usize = PLACE;

    ghost bytes_of = { place_bytes };

    ghost value_of = { place_from };

    fn read(b: &[u8]) -> Live {
        let id = id_in(b);
        let mut values = [0; Station::WRITE_PLACES];
        read_parts(&b[HEAD..READS_AT], &mut values);
        let mut reads = [Read { key: 0, id }; Station::READS];
        read_parts(&b[READS_AT..PLACE], &mut reads);
        Live {
            txn: id.txn,
            phase: phase_in(b, id.clock),
            keys: number_in(&b[16..24]),
            values,
            read_count: b[3],
            reads,
        }
    }

    fn write(self, part: &mut [u8]) {
        write_head(
            &mut part[..HEAD],
            self.phase,
            self.txn,
            self.read_count,
            self.keys,
        );
        write_parts(&mut part[HEAD..READS_AT], &self.values);
        write_parts(&mut part[READS_AT..PLACE], &self.reads);
    }
}

// The station's image over the bytes lent: they are then an image, and the station is read off them.
pub fn write_image(bytes: &mut [u8], station: Station)
    requires { length bytes.old ≡ image_size }
    ensures bytes_after { bytes.new ≡ station_bytes station }
    ensures bytes_after_2 { (is_image bytes.new ≡ true) × (station_in bytes.new ≡ station) }
    ensures station_value { numbered (listed station) ≡ station }
{
    write_kind(&mut bytes[..KIND], station.kind);
    write_parts(&mut bytes[KIND..ENTRIES_AT], &station.live);
    write_parts(&mut bytes[ENTRIES_AT..IMAGE], &station.entries);
}
