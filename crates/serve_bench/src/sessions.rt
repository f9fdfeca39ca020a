// Sessions over memory.
use history::Keeper;
use sector_core::{Config, ConfigDraft, OutOfMemory};
use session_proto::serve;
use session_solo::Solo;
use std::alloc::{AllocError, Global};

// An Attach in the root, of priority 4, and a Reap of session 0, which never sits anywhere.
const ATTACH: [u8; 7] = [0, 0, 0, 3, 1, 0, 4];

const REAP: [u8; 13] = [0, 0, 0, 9, 4, 0, 0, 0, 0, 0, 0, 0, 0];

/// What all sessions came to.
#[derive(Clone, Copy, Debug, PartialEq, Eq)]
pub struct Served {
    /// How many calls were asked.
    pub calls: u64,
    /// How many bytes were written.
    pub written: u64,
}

/// Serves one session of so many Reap frames, so many times, each from its Attach to its Leave.
pub fn serve_rounds(alloc: Global, frames: u64, rounds: u64) -> Result<Served, AllocError> {
    let stream = stream(alloc, frames)?;
    let mut solo = solo(alloc)?;
    let mut output = Vec::new(alloc);
    let mut served = Served {
        calls: 0,
        written: 0,
    };
    for _ in 0..rounds {
        output.clear();
        let end = serve(
            alloc,
            &mut stream.as_slice(),
            &mut output,
            &mut solo,
            u32::MAX,
        );
        served.calls = served.calls.wrapping_add(u64::from(end.calls));
        served.written = served.written.wrapping_add(end.written);
    }
    Ok(served)
}

fn stream(alloc: Global, frames: u64) -> Result<Vec<u8>, AllocError> {
    let mut stream = Vec::new(alloc);
    stream.extend_from_slice(&ATTACH)?;
    for _ in 0..frames {
        stream.extend_from_slice(&REAP)?;
    }
    Ok(stream)
}

// The usual configuration, which is within its limits. This has no clauses, so that nothing carries the limits of its numbers.
fn usual() -> Result<Config, AllocError> {
    match Config::check(ConfigDraft::default()) {
        Ok(config) => Ok(config),
        Err(_) => Err(AllocError),
    }
}

// A keeper of 1,024 sectors.
fn solo(alloc: Global) -> Result<Solo, AllocError> {
    match Keeper::new(alloc, usual()?, 1024) {
        Ok(keeper) => Ok(Solo(keeper)),
        Err(OutOfMemory) => Err(AllocError),
    }
}
