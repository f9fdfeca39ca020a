// A keeper that notes each call that a script makes of it.
use crate::prepared::is_lacking;
use history::Keeper;
use host_console::{Keeps, Shows};
use plain::{Answer, Call, EntityView, RequestView, SectorView, Work};
use script_host::Host;
use script_line::Look;
use sector_core::Class;
use std::alloc::{AllocError, Global};
use std::io;

/// A keeper, and the calls that were made of it.
#[derive(Drop)]
pub struct Recorder {
    pub host: Host<Keeper>,
    pub calls: Vec<Call>,
    /// Whether memory was wanting for a call, or for a copy of one.
    pub is_lacking: bool,
}

// A copy of a call.
fn copy_of(call: &Call) -> Result<Call, AllocError> {
    Ok(match call {
        Call::Do(step) => Call::Do(step.clone()?),
        Call::Hold => Call::Hold,
        Call::Release => Call::Release,
        Call::Undo { k } => Call::Undo { k: *k },
        Call::Redo { k } => Call::Redo { k: *k },
    })
}

// Adds a copy of a call. Gives whether there was memory for it.
fn noted(calls: &mut Vec<Call>, call: &Call) -> bool {
    match copy_of(call) {
        Ok(copy) => calls.push(copy).is_ok(),
        Err(_) => false,
    }
}

impl Shows for Recorder {
    ghost state = { λ recorder. recorder.host.keeper.state };

    fn work(&self, tag: u8, issue: u64) -> Option<Work> {
        self.host.work(tag, issue)
    }

    fn sector(&self, number: u64) -> SectorView<'_> {
        self.host.sector(number)
    }

    fn request(&self, seat: u8, place: usize) -> RequestView {
        self.host.request(seat, place)
    }

    fn vtime(&self, group: u8, class: Class) -> Option<u64> {
        self.host.vtime(group, class)
    }

    fn entity(&self, number: u8) -> Option<EntityView> {
        self.host.entity(number)
    }

    fn cursor(&self) -> u32 {
        self.host.cursor()
    }

    fn length(&self) -> u32 {
        self.host.length()
    }

    fn put_look(&self, look: Look, out: &mut Vec<u8>) -> io::Result<()> {
        self.host.put_look(look, out)
    }

    fn last_serial(&self) -> u64 {
        self.host.last_serial()
    }
}

impl Keeps for Recorder {
    fn call(&mut self, alloc: Global, call: &Call) -> Answer {
        let answer = self.host.call(alloc, call);
        if !noted(&mut self.calls, call) || is_lacking(&answer) {
            self.is_lacking = true;
        }
        answer
    }
}
