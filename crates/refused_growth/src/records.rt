// A host that is recorded.
use crate::hosts::{
    Act, Host, Ready, SECTORS, Wanted, acts, get_ready, opened, play, play_one, usual,
};
use crate::sessions::{is_front, is_whole};
use crate::verdict::{Broken, Met, Mode, Verdict, breaks, ended};
use host_rings::{Core, view};
use run_record::Header;
use run_recording::Recorder;
use std::alloc::{AllocError, Global};

// A record with ample memory: its bytes, and how many of them are its first line.
#[derive(Drop)]
struct Record {
    bytes: Vec<u8>,
    first_line: usize,
}

// A record that begins. So many bytes are written to it and take no memory.
fn begun(alloc: Global, room: usize) -> Result<Recorder<Vec<u8>>, AllocError> {
    let header = Header {
        config: usual()?,
        sectors: SECTORS,
    };
    match Recorder::new(alloc, Vec::with_capacity(alloc, room)?, &header) {
        Some(recorder) => Ok(recorder),
        None => Err(AllocError),
    }
}

// The record of all turns.
fn record_of(alloc: Global) -> Result<Record, AllocError> {
    let mut host = opened(alloc)?;
    let mut recorder = begun(alloc, 0)?;
    let first_line = recorder.writer.len();
    for act in acts(alloc)? {
        if !play(alloc, &mut host, act).is_accepted {
            return Err(AllocError);
        }
        if recorder.look(alloc, host.core.book(), true) {
            return Err(AllocError);
        }
    }
    let Recorder { writer, .. } = recorder;
    Ok(Record {
        bytes: writer,
        first_line,
    })
}

// All that stands before the turns.
#[derive(Drop)]
struct Recorded {
    ready: Ready,
    record: Record,
    recorder: Recorder<Vec<u8>>,
}

fn get_recorded(alloc: Global) -> Result<Recorded, AllocError> {
    let record = record_of(alloc)?;
    Ok(Recorded {
        ready: get_ready(alloc)?,
        recorder: begun(alloc, record.bytes.len())?,
        record,
    })
}

// A host that plays, its record, and what they have met.
#[derive(Drop)]
struct Playing {
    host: Host,
    recorder: Recorder<Vec<u8>>,
    met: Met,
}

/// Plays turns, and records each. A record whose frame finds no memory ends, and the turns go on.
pub fn record_row(alloc: Global, mode: Mode) -> Verdict {
    let Ok(recorded) = get_recorded(alloc) else {
        return Verdict::Unprepared;
    };
    let Recorded {
        ready,
        record,
        recorder,
    } = recorded;
    let Ready {
        host,
        acts,
        mut spares,
        wanted,
    } = ready;
    let mut playing = Playing {
        host,
        recorder,
        met: Met::new(),
    };
    for (at, (act, turn)) in acts.into_iter().zip(wanted.iter()).enumerate() {
        let spare = spares.pop();
        match turn_recorded(alloc, mode, &mut playing, act, spare, *turn, &record) {
            Ok(()) => {}
            Err(fault) => return Verdict::Broken(fault, at.saturating_add(1)),
        }
    }
    ended(at_last(mode, &playing, &record))
}

// A turn, and what is recorded behind it.
fn turn_recorded(
    alloc: Global,
    mode: Mode,
    playing: &mut Playing,
    act: Act,
    spare: Option<Act>,
    wanted: Wanted,
    record: &Record,
) -> Result<(), Broken> {
    let Playing {
        host,
        recorder,
        met,
    } = playing;
    play_one(alloc, mode, host, act, spare, wanted, met)?;
    if recorder.has_ended {
        return stays_ended(alloc, &host.core, recorder);
    }
    if recorder.look(alloc, host.core.book(), true) {
        met.note(mode)?;
    } else if recorder.next != view(&host.core).journal_len() {
        return breaks("a record that has not ended has each entry", "");
    }
    if has_whole_frames(recorder.writer.as_slice(), record) {
        Ok(())
    } else {
        breaks("a record has whole frames of a run without a refusal", "")
    }
}

// A record that has not ended has all that one has with ample memory, if one request alone was refused.
fn at_last(mode: Mode, playing: &Playing, record: &Record) -> Result<Met, Broken> {
    let is_whole = playing.recorder.writer == record.bytes;
    if mode == Mode::Once && !playing.recorder.has_ended && !is_whole {
        return breaks(
            "a record that has not ended is that of a run without a refusal",
            "",
        );
    }
    Ok(playing.met)
}

// Whether a record that has ended says nothing more, and gets nothing more.
fn stays_ended(alloc: Global, core: &Core, recorder: &mut Recorder<Vec<u8>>) -> Result<(), Broken> {
    let length = recorder.writer.len();
    if recorder.look(alloc, core.book(), true) || recorder.writer.len() != length {
        return breaks("a record that has ended says nothing, and gets nothing", "");
    }
    Ok(())
}

// Whether bytes are the first line of a record and whole frames of it.
fn has_whole_frames(bytes: &[u8], record: &Record) -> bool {
    match bytes.get(record.first_line..) {
        Some(frames) => is_whole(frames) && is_front(bytes, record.bytes.as_slice()),
        None => false,
    }
}
