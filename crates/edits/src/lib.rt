// Stations changed field by field, whatever is in them: what the cases need to make stations that are not sound.
#![tactic(auto)]

use model::{Entry, Live, Phase, Read, Station};

// The low bytes of a number.
pub fn low8(x: u64) -> u8 {
    (x % 256) as u8
}

pub fn low32(x: u64) -> u32 {
    (x % 4294967296) as u32
}

// 1: unused. 2: open. 3: closing with the slot, the clock 80 and nothing stored. 4, 5, 6: slot, clock and records stored of a
// closing one.
fn edited_phase(phase: Phase, field: u64, x: u64) -> Phase {
    match (field, phase) {
        (1, _) => Phase::Unused,
        (2, _) => Phase::Open,
        (3, _) => Phase::Closing(low8(x), 80, 0),
        (4, Phase::Closing(_, clock, stored)) => Phase::Closing(low8(x), clock, stored),
        (5, Phase::Closing(slot, _, stored)) => Phase::Closing(slot, x, stored),
        (_, Phase::Closing(slot, clock, _)) => Phase::Closing(slot, clock, low8(x)),
        (_, other) => other,
    }
}

// 11: key. 12: clock. 13: number.
fn edit_read(read: &mut Read, field: u64, x: u64) {
    match field {
        11 => read.key = low8(x),
        12 => read.id.clock = x,
        _ => read.id.txn = low32(x),
    }
}

// 0: number. 1 to 6: phase. 7: keys written, bit k of the value standing for key k. 8: how many keys are read. 10: a value. 11 to 13: a read.
fn edit_live(l: &mut Live, field: u64, i: usize, x: u64) {
    match field {
        0 => l.txn = low32(x),
        1..=6 => l.phase = edited_phase(l.phase, field, x),
        7 => l.keys = x,
        8 => l.read_count = low8(x),
        9 | 10 => {
            if let Some(value) = l.values.get_mut(i) {
                *value = x;
            }
        }
        _ => {
            if let Some(read) = l.reads.get_mut(i) {
                edit_read(read, field, x);
            }
        }
    }
}

// 20: number. 21: clock. 22: keys written, bit k of the value standing for key k.
fn edit_entry(e: &mut Entry, field: u64, x: u64) {
    match field {
        20 => e.id.txn = low32(x),
        21 => e.id.clock = x,
        _ => e.keys = x,
    }
}

// The station with one field changed: 0 to 13 of a live transaction's place, 20 to 22 of an entry's, which has no positions.
pub fn edited(mut station: Station, field: u64, place: usize, i: usize, x: u64) -> Station {
    if field < 20 {
        if let Some(l) = station.live.get_mut(place) {
            edit_live(l, field, i, x);
        }
    } else if let Some(e) = station.entries.get_mut(place) {
        edit_entry(e, field, x);
    }
    station
}
