// A command of a sheet's line or of a host's request, carried out: as a change, and by value. Who calls these knows what the soundness test
// says of the station; the public calls (crate calls) are for who does not.
#![tactic(auto)]

ghost use Rattle.std.specs.Prelude.{◌≡◌, false};
ghost use Rattle.model.specs.Lists.{◌or◌};
ghost use Rattle.model.specs.Listed.{listed, listed_outcome};
ghost use Rattle.model.specs.Sound.{sound};
ghost use Rattle.stations.specs.Changes.{IsChange};
ghost use Rattle.desk.specs.Acts.{call_of, asks_scan, asks_sweep, effect_of, acted, kept};

use calls::{Outcome, Station, scan_of};
use model::Refusal;
use sheet::Command;
use stations::{Change, changed, refused};
use storing::{collect, get, step};
use sweeping::sweep;
use transactions::{abort, commit, put, start};

// A command as it was read, and what the soundness test says of the station.
#[derive(Clone, Copy)]
pub struct Request {
    pub command: Command,
    pub tested: bool,
}

// A cut is a scan, which reads the station anew.
#[tactic(auto, using(crate::proofs::ActLaws::not_scan), unfolding(crate::specs::Acts::call_of, crate::specs::Acts::asks_scan, model::specs::Calls::is_scan))]
pub fn asks_scan(command: Command) -> bool
    ensures { result ≡ asks_scan (call_of command) }
{
    matches!(command, Command::Cut)
}

// The change that a request comes to: its call's, or 19 where the line was malformed. A cut is no change but a station read anew, and a sweep many.
pub fn decide(station: Station, store: &mut [u8], request: Request) -> Change
    requires { (request.tested ≡ sound (listed station)) × (asks_scan (call_of request.command) ≡ false) × (asks_sweep (call_of request.command) ≡ false) }
    ensures { (IsChange station (effect_of (listed station) store.old request) result) × (store.new ≡ kept (listed station) store.old request) }
{
    let tested = request.tested;
    match request.command {
        Command::Start(txn) => start(station, tested, txn),
        Command::Put(txn, key, value) => put(station, tested, txn, key, value),
        Command::Get(txn, key) => get(station, tested, store, txn, key),
        Command::Commit(txn, clock) => commit(station, tested, txn, clock),
        Command::Step(txn) => step(station, tested, store, txn),
        Command::Abort(txn) => abort(station, tested, txn),
        Command::Collect(slot) => collect(station, tested, store, slot),
        Command::Malformed => refused(station, Refusal::Malformed),
        // Not asked.
        Command::Cut | Command::Sweep(_) => refused(station, Refusal::Malformed),
    }
}

// What the soundness test says afterwards: a scan's station is sound, and no other call alters what was said.
pub fn tested_after(request: Request) -> bool
    ensures { result ≡ (asks_scan (call_of request.command) or request.tested) }
{
    asks_scan(request.command) || request.tested
}

// Carries out a request.
pub fn act(station: Station, store: &mut [u8], request: Request) -> Outcome
    requires { request.tested ≡ sound (listed station) }
    ensures { (listed_outcome result ≡ acted (listed station) store.old request) × (store.new ≡ kept (listed station) store.old request) }
{
    match request.command {
        Command::Cut => scan_of(station.kind, store),
        Command::Sweep(limit) => sweep(station, request.tested, store, limit),
        _ => {
            let change = decide(station, store, request);
            changed(station, change)
        }
    }
}
