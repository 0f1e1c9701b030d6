// The store for hosts in other languages: requests, answers, the station and the store are lent bytes, and nothing is kept between two
// calls. What the bytes mean is defined in specs/. The crate interface_c exports it to C.
#![tactic(auto)]

ghost use Rattle.std.specs.Prelude.{◌≡◌, true, cond, ◌*◌, ◌/◌, ◌%◌, eqb, length};
ghost use Rattle.model.specs.Kinds.{narrow_kind, wide_kind};
ghost use Rattle.model.specs.Lists.{◌and◌};
ghost use Rattle.model.specs.Effects.{stored};
ghost use Rattle.model.specs.Sweep.{sweep};
ghost use Rattle.model.specs.Calls.{Sweep};
ghost use Rattle.sheet.specs.Lines.{if_unused};
ghost use Rattle.model.specs.Stations.{empty_station};
ghost use Rattle.model.specs.Listed.{kind_of, listed};
ghost use Rattle.model.specs.Sound.{sound};
ghost use Rattle.model.specs.Scan.{scan};
ghost use Rattle.model.specs.Moves.{move, move_out, move_back};
ghost use Rattle.sheet.specs.Commands.{command_of};
ghost use Rattle.sheet.specs.Parts.{verb_of};
ghost use Rattle.shoplog.specs.Logs.{verdict_of};
ghost use Rattle.resp.specs.Exports.{export};
ghost use Rattle.resp.specs.Imports.{import};
ghost use Rattle.image.specs.Layout.{image_size};
ghost use Rattle.image.specs.Images.{station_in, is_image};
ghost use Rattle.interface.specs.Exchange.{request_size, answer_size, verb_numbered, request_call, answer_kind, four_bytes, answer_bytes, unsound_station, held_in, request_effect, after_request, after_requests, answers_to, image_of, image_after, requests_in, after_run, answers_in, fits, fits_one};
ghost use Rattle.interface.specs.Verdicts.{verdict_bytes};
ghost use Rattle.interface.specs.Transfers.{transfer_bytes, exported_kind, imported_kind};
ghost use Rattle.interface.specs.Parts.{held_of};

use calls::{Answer, Kind, Station, scan_of};
use desk::{Request, asks_scan, decide};
use exporting::export;
use image::{IMAGE, read_image, write_image};
use importing::import;
use logcheck::check_log;
use model::empty_of;
use moving::move_between;
use records::{id_in, write_number};
use resp::Transfer;
use sheet::{Command, Word, command_for, values_in};
use shoplog::Verdict;
use soundness::is_sound;
use sweeping::sweep;

// The bytes of a request and of an answer.
const REQUEST: usize = 16;

const ANSWER: usize = 32;

// The kinds of a log's answers, of an export's and of an import's.
const REFUSED: u64 = 15;

const CLEAN: u64 = 18;

const BAD: u64 = 19;

const EXPORTED: u64 = 20;

const IMPORTED: u64 = 21;

// The verb that a sheet has not.
const SWEEP: u8 = 9;

// The station between two requests, what the soundness test says of it, and whether the image is to be its own.
#[derive(Clone, Copy)]
struct Current {
    whole: bool,
    tested: bool,
    station: Station,
}

// The verb of a request, where it is one of a sheet's.
fn word_for(verb: u8) -> Word
    ensures { verb_of result ≡ verb_numbered verb }
{
    match verb {
        1 => Word::Start,
        2 => Word::Put,
        3 => Word::Get,
        4 => Word::Commit,
        5 => Word::Step,
        6 => Word::Abort,
        7 => Word::Collect,
        8 => Word::Cut,
        _ => Word::Unknown,
    }
}

// A sweep with this limit; its transaction and key are 0.
fn sweep_for(t: u32, k: u8, n: u64) -> Command
    ensures { result ≡ command_of (if_unused (eqb t 0 and eqb k 0) (Sweep n)) }
{
    if t == 0 && k == 0 {
        Command::Sweep(n)
    } else {
        Command::Malformed
    }
}

// What a request asks, whatever its bytes are.
pub fn command_in(request: &[u8]) -> Command
    requires { length request.now ≡ request_size }
    ensures { result ≡ command_of (request_call request.now) }
{
    if request[2] != 0 || request[3] != 0 {
        return Command::Malformed;
    }
    let id = id_in(request);
    let verb = request[0];
    if verb == SWEEP {
        return sweep_for(id.txn, request[1], id.clock);
    }
    command_for(word_for(verb), id.txn, request[1], id.clock)
}

// The kind of an answer.
fn answer_kind(answer: Answer) -> u64
    ensures { result ≡ answer_kind answer }
{
    match answer {
        Answer::Started => 1,
        Answer::Kept => 2,
        Answer::Own(_) => 3,
        Answer::Version(_, _) => 4,
        Answer::None => 5,
        Answer::Nofit(_) => 6,
        Answer::Closing(_) => 7,
        Answer::Empty => 8,
        Answer::Done(_) => 9,
        Answer::Stored(_) => 10,
        Answer::Slipped(_) => 11,
        Answer::Dropped => 12,
        Answer::Collected(_) => 13,
        Answer::Found(_) => 14,
        Answer::Refused(_, _) => 15,
        Answer::Swept(_) => 16,
        Answer::Moved(_) => 17,
    }
}

// An answer's four numbers over the part lent.
fn write_four(out: &mut [u8], kind: u64, a: u64, b: u64, c: u64)
    requires { length out.old ≡ answer_size }
    ensures { out.new ≡ four_bytes kind a b c }
{
    write_number(&mut out[0..8], kind);
    write_number(&mut out[8..16], a);
    write_number(&mut out[16..24], b);
    write_number(&mut out[24..32], c);
}

// An answer's bytes over the part lent.
pub fn write_answer(out: &mut [u8], answer: Answer)
    requires { length out.old ≡ answer_size }
    ensures { out.new ≡ answer_bytes answer }
{
    let v = values_in(answer);
    write_four(out, answer_kind(answer), v.a, v.b, v.c);
}

// A scan answered: the station is sound, and the image is to be its own.
fn run_scan(kind: Kind, store: &[u8], out: &mut [u8]) -> Current
    requires { length out.old ≡ answer_size }
    ensures { (result.whole ≡ true) × (result.tested ≡ true) × (listed result.station ≡ (scan (kind_of kind) store.now).station) × (out.new ≡ answer_bytes (scan (kind_of kind) store.now).answer) }
{
    let scanned = scan_of(kind, store);
    write_answer(out, scanned.answer);
    Current {
        whole: true,
        tested: true,
        station: scanned.station,
    }
}

// A sweep answered: the station afterwards.
fn run_sweep(
    station: Station,
    tested: bool,
    store: &mut [u8],
    limit: u64,
    out: &mut [u8],
) -> Station
    requires { (tested ≡ sound (listed station)) × (length out.old ≡ answer_size) }
    ensures { (listed result ≡ (sweep (listed station) store.old limit).station) × (store.new ≡ stored (sweep (listed station) store.old limit).stores store.old) × (out.new ≡ answer_bytes (sweep (listed station) store.old limit).answer) }
{
    let swept = sweep(station, tested, store, limit);
    write_answer(out, swept.answer);
    swept.station
}

// Requests one after the other. The station is changed in place. Its soundness was tested once: no call but a scan alters what the test says.
fn run_requests(first: Current, store: &mut [u8], requests: &[u8], answers: &mut [u8]) -> Current
    requires request_size_len { (length requests.now % request_size ≡ 0) × (length answers.old ≡ answer_size * (length requests.now / request_size)) }
    requires tested_value { first.tested ≡ sound (listed first.station) }
    ensures { (held_of result store.new ≡ after_requests (requests_in requests.now) (held_of first store.old)) × (answers.new ≡ answers_to (requests_in requests.now) (held_of first store.old)) }
{
    let count = requests.len() / REQUEST;
    let mut whole = first.whole;
    let mut tested = first.tested;
    let mut station = first.station;
    for i in 0..count {
        let from = REQUEST * i;
        let to = ANSWER * i;
        let command = command_in(&requests[from..from + REQUEST]);
        if asks_scan(command) {
            let found = run_scan(station.kind, store, &mut answers[to..to + ANSWER]);
            whole = found.whole;
            tested = found.tested;
            station = found.station;
            continue;
        }
        if let Command::Sweep(limit) = command {
            station = run_sweep(station, tested, store, limit, &mut answers[to..to + ANSWER]);
            continue;
        }
        let change = decide(station, store, Request { command, tested });
        station.live[change.place] = change.live;
        station.entries[change.slot] = change.entry;
        write_answer(&mut answers[to..to + ANSWER], change.answer);
    }
    Current {
        whole,
        tested,
        station,
    }
}

// A station that is not sound: an entry with a key and no id.
fn unsound_station() -> Station
    ensures { listed result ≡ unsound_station }
{
    let mut station = Station::empty();
    station.entries[0].keys = 1;
    station
}

// What is held at first: the image's station, or where it has none one that every call but a scan refuses.
fn current_in(image: &[u8]) -> Current
    ensures { (result.whole ≡ is_image image.now) × (listed result.station ≡ cond (is_image image.now) (listed (station_in image.now)) unsound_station) × (result.tested ≡ sound (listed result.station)) }
{
    match read_image(image) {
        Some(station) => Current {
            whole: true,
            tested: is_sound(station),
            station,
        },
        None => Current {
            whole: false,
            tested: false,
            station: unsound_station(),
        },
    }
}

// The image afterwards: the station's own, or as it was.
fn keep(image: &mut [u8], last: Current)
    requires { length image.old ≡ image_size }
    ensures image_after { image.new ≡ cond last.whole (image_of (listed last.station)) image.old }
    ensures image_after_2 { last.whole ≡ true → (is_image image.new ≡ true) × (listed (station_in image.new) ≡ listed last.station) }
{
    if last.whole {
        write_image(image, last.station);
    }
}

// The lengths of image, requests and answers fit. Numbers are divided, since a product might wrap.
fn lengths_fit(image: usize, requests: usize, answers: usize) -> bool
    ensures { result ≡ fits image requests answers }
{
    image == IMAGE
        && requests % REQUEST == 0
        && answers % ANSWER == 0
        && answers / ANSWER == requests / REQUEST
}

// Carries out requests over a station's image and a store, and answers each: 0. Where a length is wrong: 1, and nothing is written.
// What is held afterwards is all in the image and the store, so that requests may come in one call or in several.
pub fn gorehimu_run(image: &mut [u8], store: &mut [u8], requests: &[u8], answers: &mut [u8]) -> u32
    ensures value { result ≡ cond (fits (length image.old) (length requests.now) (length answers.old)) 0 1 }
    ensures image_after { image.new ≡ cond (fits (length image.old) (length requests.now) (length answers.old)) (image_after image.old (after_run image.old store.old requests.now)) image.old }
    ensures store_after { store.new ≡ cond (fits (length image.old) (length requests.now) (length answers.old)) (after_run image.old store.old requests.now).store store.old }
    ensures answers_after { answers.new ≡ cond (fits (length image.old) (length requests.now) (length answers.old)) (answers_in image.old store.old requests.now) answers.old }
    ensures store_after_2 { fits (length image.old) (length requests.now) (length answers.old) ≡ true → held_in image.new store.new ≡ after_run image.old store.old requests.now }
{
    if !lengths_fit(image.len(), requests.len(), answers.len()) {
        return 1;
    }
    let first = current_in(image);
    let last = run_requests(first, store, requests, answers);
    keep(image, last);
    0
}

// Writes the image of the empty station of a kind: 0. Where the length is wrong: 1, and nothing is written.
fn write_empty(kind: Kind, image: &mut [u8]) -> u32
    ensures value { result ≡ cond (eqb (length image.old) image_size) 0 1 }
    ensures image_after { image.new ≡ cond (eqb (length image.old) image_size) (image_of (empty_station (kind_of kind))) image.old }
{
    if image.len() != IMAGE {
        return 1;
    }
    write_image(image, empty_of(kind));
    0
}

// That of a narrow store's station, and of a wide one's.
pub fn gorehimu_empty(image: &mut [u8]) -> u32
    ensures value { result ≡ cond (eqb (length image.old) image_size) 0 1 }
    ensures image_after { image.new ≡ cond (eqb (length image.old) image_size) (image_of (empty_station narrow_kind)) image.old }
{
    write_empty(Kind::Narrow, image)
}

pub fn gorehimu_empty_wide(image: &mut [u8]) -> u32
    ensures value { result ≡ cond (eqb (length image.old) image_size) 0 1 }
    ensures image_after { image.new ≡ cond (eqb (length image.old) image_size) (image_of (empty_station wide_kind)) image.old }
{
    write_empty(Kind::Wide, image)
}

fn one_fits(image: usize, request: usize, answer: usize) -> bool
    ensures { result ≡ fits_one image request answer }
{
    image == IMAGE && request == REQUEST && answer == ANSWER
}

// One request over a station's image and a store, answered: 0. Where a length is wrong: 1, and nothing is written.
pub fn gorehimu_call(image: &mut [u8], store: &mut [u8], request: &[u8], answer: &mut [u8]) -> u32
    ensures value { result ≡ cond (fits_one (length image.old) (length request.now) (length answer.old)) 0 1 }
    ensures image_after { image.new ≡ cond (fits_one (length image.old) (length request.now) (length answer.old)) (image_after image.old (after_request request.now (held_in image.old store.old))) image.old }
    ensures store_after { store.new ≡ cond (fits_one (length image.old) (length request.now) (length answer.old)) (after_request request.now (held_in image.old store.old)).store store.old }
    ensures answer_after { answer.new ≡ cond (fits_one (length image.old) (length request.now) (length answer.old)) (answer_bytes (request_effect request.now (held_in image.old store.old)).answer) answer.old }
{
    if !one_fits(image.len(), request.len(), answer.len()) {
        return 1;
    }
    let first = current_in(image);
    let last = run_requests(first, store, request, answer);
    keep(image, last);
    0
}

// The station read off a store of a kind, as after a cut: its image and the scan's answer, 0. Where a length is wrong: 1, and nothing is
// written.
fn recover_of(kind: Kind, image: &mut [u8], store: &[u8], answer: &mut [u8]) -> u32
    ensures value { result ≡ cond (fits_one (length image.old) request_size (length answer.old)) 0 1 }
    ensures image_after { image.new ≡ cond (fits_one (length image.old) request_size (length answer.old)) (image_of (scan (kind_of kind) store.now).station) image.old }
    ensures answer_after { answer.new ≡ cond (fits_one (length image.old) request_size (length answer.old)) (answer_bytes (scan (kind_of kind) store.now).answer) answer.old }
{
    if !one_fits(image.len(), REQUEST, answer.len()) {
        return 1;
    }
    let found = run_scan(kind, store, answer);
    write_image(image, found.station);
    0
}

// Off a narrow store, and off a wide one.
pub fn gorehimu_recover(image: &mut [u8], store: &[u8], answer: &mut [u8]) -> u32
    ensures value { result ≡ cond (fits_one (length image.old) request_size (length answer.old)) 0 1 }
    ensures image_after { image.new ≡ cond (fits_one (length image.old) request_size (length answer.old)) (image_of (scan narrow_kind store.now).station) image.old }
    ensures answer_after { answer.new ≡ cond (fits_one (length image.old) request_size (length answer.old)) (answer_bytes (scan narrow_kind store.now).answer) answer.old }
{
    recover_of(Kind::Narrow, image, store, answer)
}

pub fn gorehimu_recover_wide(image: &mut [u8], store: &[u8], answer: &mut [u8]) -> u32
    ensures value { result ≡ cond (fits_one (length image.old) request_size (length answer.old)) 0 1 }
    ensures image_after { image.new ≡ cond (fits_one (length image.old) request_size (length answer.old)) (image_of (scan wide_kind store.now).station) image.old }
    ensures answer_after { answer.new ≡ cond (fits_one (length image.old) request_size (length answer.old)) (answer_bytes (scan wide_kind store.now).answer) answer.old }
{
    recover_of(Kind::Wide, image, store, answer)
}

// A move, answered: 0. Where the answer's length is wrong: 1, and nothing is written. A store of another length is the move's refusal.
fn answer_move(from: Kind, to: Kind, source: &[u8], target: &mut [u8], answer: &mut [u8]) -> u32
    ensures value { result ≡ cond (eqb (length answer.old) answer_size) 0 1 }
    ensures target_after { target.new ≡ cond (eqb (length answer.old) answer_size) (move (kind_of from) (kind_of to) source.now target.old).target target.old }
    ensures answer_after { answer.new ≡ cond (eqb (length answer.old) answer_size) (answer_bytes (move (kind_of from) (kind_of to) source.now target.old).answer) answer.old }
{
    if answer.len() != ANSWER {
        return 1;
    }
    let said = move_between(from, to, source, target);
    write_answer(answer, said);
    0
}

// A narrow store into a wide one, and a wide one into a narrow one.
pub fn gorehimu_move_out(narrow: &[u8], wide: &mut [u8], answer: &mut [u8]) -> u32
    ensures value { result ≡ cond (eqb (length answer.old) answer_size) 0 1 }
    ensures wide_after { wide.new ≡ cond (eqb (length answer.old) answer_size) (move_out narrow.now wide.old).target wide.old }
    ensures answer_after { answer.new ≡ cond (eqb (length answer.old) answer_size) (answer_bytes (move_out narrow.now wide.old).answer) answer.old }
{
    answer_move(Kind::Narrow, Kind::Wide, narrow, wide, answer)
}

pub fn gorehimu_move_back(wide: &[u8], narrow: &mut [u8], answer: &mut [u8]) -> u32
    ensures value { result ≡ cond (eqb (length answer.old) answer_size) 0 1 }
    ensures narrow_after { narrow.new ≡ cond (eqb (length answer.old) answer_size) (move_back wide.now narrow.old).target narrow.old }
    ensures answer_after { answer.new ≡ cond (eqb (length answer.old) answer_size) (answer_bytes (move_back wide.now narrow.old).answer) answer.old }
{
    answer_move(Kind::Wide, Kind::Narrow, wide, narrow, answer)
}

// A verdict's bytes over the part lent.
#[tactic(auto, unfolding(crate::specs::Verdicts::verdict_bytes))]
fn write_verdict(out: &mut [u8], verdict: Verdict)
    requires { length out.old ≡ answer_size }
    ensures { out.new ≡ verdict_bytes verdict }
{
    match verdict {
        Verdict::Clean => write_four(out, CLEAN, 0, 0, 0),
        Verdict::Bad(n) => write_four(out, BAD, n, 0, 0),
        Verdict::Refused(c, n) => write_four(out, REFUSED, u64::from(c), n, 0),
    }
}

// The verdict on another shop's log: 0. Where the answer's length is wrong: 1, and nothing is written.
pub fn gorehimu_check_log(log: &[u8], answer: &mut [u8]) -> u32
    ensures value { result ≡ cond (eqb (length answer.old) answer_size) 0 1 }
    ensures answer_after { answer.new ≡ cond (eqb (length answer.old) answer_size) (verdict_bytes (verdict_of log.now)) answer.old }
{
    if answer.len() != ANSWER {
        return 1;
    }
    let verdict = check_log(log);
    write_verdict(answer, verdict);
    0
}

// What an export or an import came to, over the part lent.
#[tactic(auto, unfolding(crate::specs::Transfers::transfer_bytes))]
fn write_transfer(out: &mut [u8], kind: u64, transfer: Transfer)
    requires { length out.old ≡ answer_size }
    ensures { out.new ≡ transfer_bytes kind transfer }
{
    match transfer {
        Ok(n) => write_four(out, kind, n as u64, 0, 0),
        Err(r) => write_four(out, REFUSED, u64::from(r.number), u64::from(r.slot), 0),
    }
}

// A narrow store's committed set as a stream over the target: 0. Where the answer's length is wrong: 1, and nothing is written.
pub fn gorehimu_export(store: &[u8], target: &mut [u8], answer: &mut [u8]) -> u32
    ensures value { result ≡ cond (eqb (length answer.old) answer_size) 0 1 }
    ensures target_after { target.new ≡ cond (eqb (length answer.old) answer_size) (export store.now target.old).target target.old }
    ensures answer_after { answer.new ≡ cond (eqb (length answer.old) answer_size) (transfer_bytes exported_kind (export store.now target.old).answer) answer.old }
{
    if answer.len() != ANSWER {
        return 1;
    }
    let said = export(store, target);
    write_transfer(answer, EXPORTED, said);
    0
}

// A stream into a narrow store, likewise.
pub fn gorehimu_import(stream: &[u8], store: &mut [u8], answer: &mut [u8]) -> u32
    ensures value { result ≡ cond (eqb (length answer.old) answer_size) 0 1 }
    ensures store_after { store.new ≡ cond (eqb (length answer.old) answer_size) (import stream.now store.old).store store.old }
    ensures answer_after { answer.new ≡ cond (eqb (length answer.old) answer_size) (transfer_bytes imported_kind (import stream.now store.old).answer) answer.old }
{
    if answer.len() != ANSWER {
        return 1;
    }
    let said = import(stream, store);
    write_transfer(answer, IMPORTED, said);
    0
}
