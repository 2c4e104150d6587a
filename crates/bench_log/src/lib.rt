// What bench/log.c calls: the search in a log over parallel slices, with its test of the range.
#![tactic(auto)]

#[unsafe(no_mangle)]
pub extern "C" fn log_find(slots: &[u64], hashes: &[u64], count: usize, slot: u64) -> usize {
    match slices::find(slots, hashes, count, slot) {
        Ok(found) => found.upto,
        Err(_) => 0,
    }
}
