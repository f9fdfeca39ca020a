// Looks at a host, and a script of looks.
use crate::calls::unchanged;
use crate::hosts::{Host as Served, SECTORS, acts, opened, play, usual};
use crate::seen::look_at;
use crate::sessions::is_front;
use crate::verdict::{Broken, Met, Mode, Verdict, breaks, ended};
use base_image::ZeroImage;
use history::Keeper;
use host_console::{Teller, run_keeper};
use host_looks::reply_to;
use host_rings::view;
use script_host::Host;
use script_line::{Line, Look, ScriptEnd, is_query};
use sector_core::Class;
use std::alloc::{AllocError, Global};

// One of each kind: what is stored, a queue, a group, an entity, a whole step, and lists.
const QUERIES: [Line; 13] = [
    Line::Cursor,
    Line::Sector { number: 5 },
    Line::Queue { seat: 0 },
    Line::ClassVtime {
        group: 0,
        class: Class::BestEffort,
    },
    Line::Entity { number: 0 },
    Line::Class { number: 0 },
    Line::Show {
        look: Look::Seat { seat: 0 },
    },
    Line::Show {
        look: Look::Outbox { seat: 0 },
    },
    Line::Show {
        look: Look::Tree { group: 0 },
    },
    Line::Show { look: Look::Host },
    Line::Show { look: Look::State },
    Line::Show {
        look: Look::Stored { from: 0 },
    },
    Line::Show {
        look: Look::Step { k: 2 },
    },
];

// What the keeper of a script has done when its looks begin, and the looks.
const CALLS: &[u8] =
    b"attach 0 0 4\nwrite 0 1 5 1 65\nread 0 1 9 2\ndispatch\nfinish 0 4 stored\ndispatch\n";

const LOOKS: &[u8] =
    b"line\nsector 5\nqueue 0\nentity 0\nshow seat 0\nshow outbox 0\nshow flight\nshow tree 0\nshow state\nshow step 2\n";

// A text that was told.
fn told(alloc: Global, served: &Served, line: Line) -> Option<Vec<u8>> {
    // Each line of this file is one.
    if !is_query(&line) {
        return None;
    }
    let keeper = Host {
        keeper: served.core.book(),
    };
    match reply_to(alloc, &keeper, line) {
        Some(told) => Some(told.text),
        None => None,
    }
}

// A host that serves, and a keeper with a script's console; and what each look tells with ample memory.
#[derive(Drop)]
struct Ready {
    served: Served,
    texts: Vec<Vec<u8>>,
    teller: Teller<Host<Keeper>, ZeroImage>,
    printed: Vec<u8>,
    room: Vec<u8>,
    other: Vec<u8>,
}

fn get_ready(alloc: Global) -> Result<Ready, AllocError> {
    let mut served = opened(alloc)?;
    for act in acts(alloc)? {
        play(alloc, &mut served, act);
    }
    let mut texts = Vec::new(alloc);
    for line in QUERIES {
        let Some(text) = told(alloc, &served, line) else {
            return Err(AllocError);
        };
        texts.push(text)?;
    }
    let mut teller = teller_of(alloc)?;
    let mut printed = Vec::new(alloc);
    if run_keeper(alloc, &mut { LOOKS }, &mut printed, &mut teller) != ScriptEnd::Done {
        return Err(AllocError);
    }
    let most = printed.len();
    Ok(Ready {
        served,
        texts,
        teller,
        printed,
        room: Vec::with_capacity(alloc, most)?,
        other: Vec::with_capacity(alloc, most)?,
    })
}

// A keeper whose script has made its calls.
fn teller_of(alloc: Global) -> Result<Teller<Host<Keeper>, ZeroImage>, AllocError> {
    let Ok(keeper) = Keeper::new(alloc, usual()?, SECTORS) else {
        return Err(AllocError);
    };
    let mut teller = Teller {
        keeper: Host { keeper },
        image: ZeroImage::new(SECTORS),
        payload: None,
    };
    let mut answers = Vec::new(alloc);
    match run_keeper(alloc, &mut { CALLS }, &mut answers, &mut teller) {
        ScriptEnd::Done => Ok(teller),
        _ => Err(AllocError),
    }
}

/// Asks for looks; one that finds no memory is asked for again. Then a script does.
pub fn look_row(alloc: Global, mode: Mode) -> Verdict {
    match get_ready(alloc) {
        Ok(mut ready) => ended(look_all(alloc, mode, &mut ready)),
        Err(_) => Verdict::Unprepared,
    }
}

fn look_all(alloc: Global, mode: Mode, ready: &mut Ready) -> Result<Met, Broken> {
    let mut met = Met::new();
    for (line, text) in QUERIES.iter().zip(ready.texts.iter()) {
        look_once(alloc, mode, &ready.served, *line, text, &mut met)?;
    }
    let room = &mut ready.room;
    if print_once(alloc, &mut ready.teller, room, &ready.printed)? {
        return Ok(met);
    }
    met.note(mode)?;
    let other = &mut ready.other;
    if !print_once(alloc, &mut ready.teller, other, &ready.printed)? {
        met.note(mode)?;
    }
    Ok(met)
}

// One look at a host that serves, whose keeper stays as it is.
fn look_once(
    alloc: Global,
    mode: Mode,
    served: &Served,
    line: Line,
    text: &Vec<u8>,
    met: &mut Met,
) -> Result<(), Broken> {
    let before = look_at(&view(&served.core));
    let mut came = told(alloc, served, line);
    if came.is_none() {
        met.note(mode)?;
        unchanged(before, &view(&served.core))?;
        came = told(alloc, served, line);
    }
    unchanged(before, &view(&served.core))?;
    match came {
        Some(came) if came == *text => Ok(()),
        None if mode == Mode::Always => Ok(()),
        _ => breaks("a look tells what it tells with ample memory", ""),
    }
}

// A script of looks. Gives whether it came to its end. If it finds no memory, whole lines were printed, and the keeper is as it was.
fn print_once(
    alloc: Global,
    teller: &mut Teller<Host<Keeper>, ZeroImage>,
    printed: &mut Vec<u8>,
    wanted: &Vec<u8>,
) -> Result<bool, Broken> {
    let before = look_at(&teller.keeper.keeper.view());
    let end = run_keeper(alloc, &mut { LOOKS }, printed, teller);
    unchanged(before, &teller.keeper.keeper.view())?;
    match end {
        ScriptEnd::Done if *printed == *wanted => Ok(true),
        ScriptEnd::OutOfMemory if is_front(printed.as_slice(), wanted.as_slice()) => {
            match printed.last() {
                Some(b'\n') | None => Ok(false),
                Some(_) => breaks("whole lines are printed, and no more", ""),
            }
        }
        _ => breaks(
            "a script of looks prints what it prints with ample memory",
            "",
        ),
    }
}
