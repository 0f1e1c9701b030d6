// The store for hosts in other languages, called from C: each export is the function of the same name in `interface`, under the same clauses.
// include/gorehimu.h declares them; a slice is a pointer and a length there.
#![tactic(auto)]

ghost use Rattle.std.specs.Prelude.{◌≡◌, true, cond, eqb, length};
ghost use Rattle.model.specs.Kinds.{narrow_kind, wide_kind};
ghost use Rattle.model.specs.Stations.{empty_station};
ghost use Rattle.model.specs.Scan.{scan};
ghost use Rattle.model.specs.Moves.{move_out, move_back};
ghost use Rattle.shoplog.specs.Logs.{verdict_of};
ghost use Rattle.resp.specs.Exports.{export};
ghost use Rattle.resp.specs.Imports.{import};
ghost use Rattle.image.specs.Layout.{image_size};
ghost use Rattle.interface.specs.Exchange.{request_size, answer_size, answer_bytes, held_in, request_effect, after_request, image_of, image_after, after_run, answers_in, fits, fits_one};
ghost use Rattle.interface.specs.Verdicts.{verdict_bytes};
ghost use Rattle.interface.specs.Transfers.{transfer_bytes, exported_kind, imported_kind};

// Carries out requests over a station's image and a store, and answers each: 0. Where a length is wrong: 1, and nothing is written.
// What is held afterwards is all in the image and the store, so that requests may come in one call or in several.
#[unsafe(no_mangle)]
pub extern "C" fn gorehimu_run(
    image: &mut [u8],
    store: &mut [u8],
    requests: &[u8],
    answers: &mut [u8],
) -> u32
    ensures value { result ≡ cond (fits (length image.old) (length requests.now) (length answers.old)) 0 1 }
    ensures image_after { image.new ≡ cond (fits (length image.old) (length requests.now) (length answers.old)) (image_after image.old (after_run image.old store.old requests.now)) image.old }
    ensures store_after { store.new ≡ cond (fits (length image.old) (length requests.now) (length answers.old)) (after_run image.old store.old requests.now).store store.old }
    ensures answers_after { answers.new ≡ cond (fits (length image.old) (length requests.now) (length answers.old)) (answers_in image.old store.old requests.now) answers.old }
    ensures store_after_2 { fits (length image.old) (length requests.now) (length answers.old) ≡ true → held_in image.new store.new ≡ after_run image.old store.old requests.now }
{
    interface::gorehimu_run(image, store, requests, answers)
}

// Writes the image of the empty station of a narrow store, and of a wide one: 0. Where the length is wrong: 1, and nothing is written.
#[unsafe(no_mangle)]
pub extern "C" fn gorehimu_empty(image: &mut [u8]) -> u32
    ensures value { result ≡ cond (eqb (length image.old) image_size) 0 1 }
    ensures image_after { image.new ≡ cond (eqb (length image.old) image_size) (image_of (empty_station narrow_kind)) image.old }
{
    interface::gorehimu_empty(image)
}

#[unsafe(no_mangle)]
pub extern "C" fn gorehimu_empty_wide(image: &mut [u8]) -> u32
    ensures value { result ≡ cond (eqb (length image.old) image_size) 0 1 }
    ensures image_after { image.new ≡ cond (eqb (length image.old) image_size) (image_of (empty_station wide_kind)) image.old }
{
    interface::gorehimu_empty_wide(image)
}

// One request over a station's image and a store, answered: 0. Where a length is wrong: 1, and nothing is written.
#[unsafe(no_mangle)]
pub extern "C" fn gorehimu_call(
    image: &mut [u8],
    store: &mut [u8],
    request: &[u8],
    answer: &mut [u8],
) -> u32
    ensures value { result ≡ cond (fits_one (length image.old) (length request.now) (length answer.old)) 0 1 }
    ensures image_after { image.new ≡ cond (fits_one (length image.old) (length request.now) (length answer.old)) (image_after image.old (after_request request.now (held_in image.old store.old))) image.old }
    ensures store_after { store.new ≡ cond (fits_one (length image.old) (length request.now) (length answer.old)) (after_request request.now (held_in image.old store.old)).store store.old }
    ensures answer_after { answer.new ≡ cond (fits_one (length image.old) (length request.now) (length answer.old)) (answer_bytes (request_effect request.now (held_in image.old store.old)).answer) answer.old }
{
    interface::gorehimu_call(image, store, request, answer)
}

// The station read off a narrow store, and off a wide one, as after a cut: its image and the scan's answer, 0. Where a length is wrong: 1, and
// nothing is written.
#[unsafe(no_mangle)]
pub extern "C" fn gorehimu_recover(image: &mut [u8], store: &[u8], answer: &mut [u8]) -> u32
    ensures value { result ≡ cond (fits_one (length image.old) request_size (length answer.old)) 0 1 }
    ensures image_after { image.new ≡ cond (fits_one (length image.old) request_size (length answer.old)) (image_of (scan narrow_kind store.now).station) image.old }
    ensures answer_after { answer.new ≡ cond (fits_one (length image.old) request_size (length answer.old)) (answer_bytes (scan narrow_kind store.now).answer) answer.old }
{
    interface::gorehimu_recover(image, store, answer)
}

#[unsafe(no_mangle)]
pub extern "C" fn gorehimu_recover_wide(image: &mut [u8], store: &[u8], answer: &mut [u8]) -> u32
    ensures value { result ≡ cond (fits_one (length image.old) request_size (length answer.old)) 0 1 }
    ensures image_after { image.new ≡ cond (fits_one (length image.old) request_size (length answer.old)) (image_of (scan wide_kind store.now).station) image.old }
    ensures answer_after { answer.new ≡ cond (fits_one (length image.old) request_size (length answer.old)) (answer_bytes (scan wide_kind store.now).answer) answer.old }
{
    interface::gorehimu_recover_wide(image, store, answer)
}

// A move of a narrow store into a wide one, and of a wide one into a narrow one, answered: 0. Where the answer's length is wrong: 1, and nothing is
// written. A store of another length is the move's refusal.
#[unsafe(no_mangle)]
pub extern "C" fn gorehimu_move_out(narrow: &[u8], wide: &mut [u8], answer: &mut [u8]) -> u32
    ensures value { result ≡ cond (eqb (length answer.old) answer_size) 0 1 }
    ensures wide_after { wide.new ≡ cond (eqb (length answer.old) answer_size) (move_out narrow.now wide.old).target wide.old }
    ensures answer_after { answer.new ≡ cond (eqb (length answer.old) answer_size) (answer_bytes (move_out narrow.now wide.old).answer) answer.old }
{
    interface::gorehimu_move_out(narrow, wide, answer)
}

#[unsafe(no_mangle)]
pub extern "C" fn gorehimu_move_back(wide: &[u8], narrow: &mut [u8], answer: &mut [u8]) -> u32
    ensures value { result ≡ cond (eqb (length answer.old) answer_size) 0 1 }
    ensures narrow_after { narrow.new ≡ cond (eqb (length answer.old) answer_size) (move_back wide.now narrow.old).target narrow.old }
    ensures answer_after { answer.new ≡ cond (eqb (length answer.old) answer_size) (answer_bytes (move_back wide.now narrow.old).answer) answer.old }
{
    interface::gorehimu_move_back(wide, narrow, answer)
}

// The verdict on another shop's log: 0. Where the answer's length is wrong: 1, and nothing is written.
#[unsafe(no_mangle)]
pub extern "C" fn gorehimu_check_log(log: &[u8], answer: &mut [u8]) -> u32
    ensures value { result ≡ cond (eqb (length answer.old) answer_size) 0 1 }
    ensures answer_after { answer.new ≡ cond (eqb (length answer.old) answer_size) (verdict_bytes (verdict_of log.now)) answer.old }
{
    interface::gorehimu_check_log(log, answer)
}

// A narrow store's committed set as a stream over the target: 0. Where the answer's length is wrong: 1, and nothing is written.
#[unsafe(no_mangle)]
pub extern "C" fn gorehimu_export(store: &[u8], target: &mut [u8], answer: &mut [u8]) -> u32
    ensures value { result ≡ cond (eqb (length answer.old) answer_size) 0 1 }
    ensures target_after { target.new ≡ cond (eqb (length answer.old) answer_size) (export store.now target.old).target target.old }
    ensures answer_after { answer.new ≡ cond (eqb (length answer.old) answer_size) (transfer_bytes exported_kind (export store.now target.old).answer) answer.old }
{
    interface::gorehimu_export(store, target, answer)
}

// A stream into a narrow store, likewise.
#[unsafe(no_mangle)]
pub extern "C" fn gorehimu_import(stream: &[u8], store: &mut [u8], answer: &mut [u8]) -> u32
    ensures value { result ≡ cond (eqb (length answer.old) answer_size) 0 1 }
    ensures store_after { store.new ≡ cond (eqb (length answer.old) answer_size) (import stream.now store.old).store store.old }
    ensures answer_after { answer.new ≡ cond (eqb (length answer.old) answer_size) (transfer_bytes imported_kind (import stream.now store.old).answer) answer.old }
{
    interface::gorehimu_import(stream, store, answer)
}
