// What stands before the calls of a row are made.
use crate::digest::Digest;
use crate::recorder::Recorder;
use crate::seen::{Seen, look_at};
use crate::told::answer_number;
use crate::verdict::Verdict;
use base_image::ZeroImage;
use history::Keeper;
use host_console::{Teller, run_keeper};
use plain::{Answer, Call, Code};
use script_host::Host;
use script_line::ScriptEnd;
use sector_core::{Config, OutOfMemory};
use std::alloc::{AllocError, Global};
use std::io::Read;

/// The calls of a script, what each is answered with ample memory, and keepers to which none was made.
#[derive(Drop)]
pub struct Prepared {
    /// The calls.
    pub calls: Vec<Call>,
    /// The answer of each.
    pub answers: Vec<Digest>,
    /// What is seen before the first, and after each.
    pub looks: Vec<Seen>,
    /// What the script prints.
    pub text: Vec<u8>,
    /// A new keeper, and another one to compare it with.
    pub keeper: Keeper,
    pub other: Keeper,
}

/// Whether a call found no memory.
pub fn is_lacking(answer: &Answer) -> bool {
    match answer {
        Answer::Refused(code) => *code == Code::OutOfMemory,
        Answer::Accepted(_) | Answer::NotYet(_) => false,
    }
}

/// Whether a call was accepted.
pub fn is_accepted(answer: &Answer) -> bool {
    match answer {
        Answer::Accepted(_) => true,
        Answer::Refused(_) | Answer::NotYet(_) => false,
    }
}

/// Reads a script and makes its calls of two keepers: of the first by its lines, as these ask what is in flight, and of the second by the
/// calls alone.
pub fn prepare<R: Read>(
    alloc: Global,
    reader: &mut R,
    config: Config,
    sectors: u64,
) -> Result<Prepared, Verdict> {
    let (calls, text) = calls_of(alloc, reader, config, sectors)?;
    let (answers, looks) = match answered(alloc, config, sectors, &calls) {
        Ok(Some(both)) => both,
        Ok(None) => return Err(Verdict::Unprepared),
        Err(_) => return Err(Verdict::Unprepared),
    };
    match (
        opened(alloc, config, sectors),
        opened(alloc, config, sectors),
    ) {
        (Ok(keeper), Ok(other)) => Ok(Prepared {
            calls,
            answers,
            looks,
            text,
            keeper,
            other,
        }),
        _ => Err(Verdict::Unprepared),
    }
}

// A new keeper, over a device of no more sectors than 2^32.
fn opened(alloc: Global, config: Config, sectors: u64) -> Result<Keeper, AllocError> {
    if sectors > 1 << 32 {
        return Err(AllocError);
    }
    match Keeper::new(alloc, config, sectors) {
        Ok(keeper) => Ok(keeper),
        Err(OutOfMemory) => Err(AllocError),
    }
}

// The calls of a script, and what it prints.
fn calls_of<R: Read>(
    alloc: Global,
    reader: &mut R,
    config: Config,
    sectors: u64,
) -> Result<(Vec<Call>, Vec<u8>), Verdict> {
    let Ok(keeper) = opened(alloc, config, sectors) else {
        return Err(Verdict::Unprepared);
    };
    if sectors > 1 << 32 {
        return Err(Verdict::BadWords);
    }
    let mut teller = Teller {
        keeper: Recorder {
            host: Host { keeper },
            calls: Vec::new(alloc),
            is_lacking: false,
        },
        image: ZeroImage::new(sectors),
        payload: None,
    };
    let mut text = Vec::new(alloc);
    let end = run_keeper(alloc, reader, &mut text, &mut teller);
    let Teller {
        keeper,
        image: _,
        payload: _,
    } = teller;
    let Recorder {
        host: _,
        calls,
        is_lacking,
    } = keeper;
    match end {
        ScriptEnd::Done if !is_lacking => Ok((calls, text)),
        ScriptEnd::BadLine(_) => Err(Verdict::BadWords),
        _ => Err(Verdict::Unprepared),
    }
}

// The answer of each call, and what is seen before the first and after each; or none if memory was wanting.
fn answered(
    alloc: Global,
    config: Config,
    sectors: u64,
    calls: &Vec<Call>,
) -> Result<Option<(Vec<Digest>, Vec<Seen>)>, AllocError> {
    let mut keeper = opened(alloc, config, sectors)?;
    let mut answers = Vec::new(alloc);
    let mut looks = Vec::new(alloc);
    looks.push(look_at(&keeper.view()))?;
    for call in calls {
        let answer = keeper.call(alloc, call);
        if is_lacking(&answer) {
            return Ok(None);
        }
        answers.push(answer_number(&answer))?;
        looks.push(look_at(&keeper.view()))?;
    }
    Ok(Some((answers, looks)))
}
