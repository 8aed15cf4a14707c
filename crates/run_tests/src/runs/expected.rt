//! Reports that are expected.

use onvm_base::NoMemory;
use std::alloc::Global;

/// The report of a run whose frames were all sent, with these lines behind its summary.
pub fn all_sent(alloc: Global, frames: u64, lines: &str) -> Result<String, NoMemory> {
    Ok(format!(in alloc;
        "frames {frames}\nsent {frames}\nasked 0\nchain-end 0\nno-service 0\nno-port 0\nhops 0\nthrottled 0\nring-full 0\npool-empty 0\nposts 0\nticks 1\nlost 0\nyields 0\n{lines}"
    )?)
}
