// Work for the benchmarks, called from Rust: each export is the function of the same name in `bench`.
#![tactic(auto)]

#[unsafe(no_mangle)]
pub extern "C" fn bench_put(rounds: u64, entries: u8, lives: u8, reads: u8, base: u8) -> u64 {
    bench::bench_put(rounds, entries, lives, reads, base)
}

#[unsafe(no_mangle)]
pub extern "C" fn bench_start(rounds: u64, entries: u8, lives: u8, reads: u8, base: u8) -> u64 {
    bench::bench_start(rounds, entries, lives, reads, base)
}

#[unsafe(no_mangle)]
pub extern "C" fn bench_retry(rounds: u64, entries: u8, lives: u8, reads: u8, base: u8) -> u64 {
    bench::bench_retry(rounds, entries, lives, reads, base)
}

#[unsafe(no_mangle)]
pub extern "C" fn bench_get(
    store: &[u8],
    rounds: u64,
    entries: u8,
    lives: u8,
    reads: u8,
    base: u8,
    key: u8,
) -> u64 {
    bench::bench_get(store, rounds, entries, lives, reads, base, key)
}

#[unsafe(no_mangle)]
pub extern "C" fn bench_known(
    store: &mut [u8],
    verb: u8,
    rounds: u64,
    entries: u8,
    lives: u8,
    reads: u8,
    base: u8,
) -> u64 {
    bench::bench_known(store, verb, rounds, entries, lives, reads, base)
}

#[unsafe(no_mangle)]
pub extern "C" fn bench_transaction(
    store: &mut [u8],
    rounds: u64,
    entries: u8,
    lives: u8,
    reads: u8,
    base: u8,
) -> u64 {
    bench::bench_transaction(store, rounds, entries, lives, reads, base)
}

#[unsafe(no_mangle)]
pub extern "C" fn bench_scan(store: &[u8], rounds: u64) -> u64 {
    bench::bench_scan(store, rounds)
}

#[unsafe(no_mangle)]
pub extern "C" fn bench_scan_wide(store: &[u8], rounds: u64) -> u64 {
    bench::bench_scan_wide(store, rounds)
}

#[unsafe(no_mangle)]
pub extern "C" fn bench_sweep(
    stores: &mut [u8],
    entries: u8,
    lives: u8,
    reads: u8,
    base: u8,
    limit: u64,
) -> u64 {
    bench::bench_sweep(stores, entries, lives, reads, base, limit)
}

#[unsafe(no_mangle)]
pub extern "C" fn bench_collects(
    stores: &mut [u8],
    entries: u8,
    lives: u8,
    reads: u8,
    base: u8,
    first: u8,
    limit: u8,
) -> u64 {
    bench::bench_collects(stores, entries, lives, reads, base, first, limit)
}

#[unsafe(no_mangle)]
pub extern "C" fn bench_print(
    out: &mut [u8],
    rounds: u64,
    value: u64,
    clock: u64,
    txn: u32,
) -> u64 {
    bench::bench_print(out, rounds, value, clock, txn)
}

#[unsafe(no_mangle)]
pub extern "C" fn bench_move_out(narrow: &[u8], wide: &mut [u8], rounds: u64) -> u64 {
    bench::bench_move_out(narrow, wide, rounds)
}

#[unsafe(no_mangle)]
pub extern "C" fn bench_move_back(wide: &[u8], narrow: &mut [u8], rounds: u64) -> u64 {
    bench::bench_move_back(wide, narrow, rounds)
}
