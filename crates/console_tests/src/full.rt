// A keeper that never changes.
ghost use Rattle.std.specs.Prelude.{true};
ghost use Rattle.sector_core.specs.declared.config.Scheduler.TheVariants.{Plain};
ghost use Rattle.plain.specs.Keeper.{opened};

use host_console::{Keeps, Shows};
use plain::{Answer, Call, Cause, Code, EntityView, RequestView, SectorView, Work};
use script_line::Look;
use sector_core::Class;
use std::alloc::Global;
use std::io::{self, ErrorKind};

// It is held and its history is full, so that it accepts nothing. It counts its calls.
#[derive(Drop)]
pub struct Full {
    pub sectors: u64,
    pub calls: u64,
}

impl Shows for Full {
    ghost state = { λ full. record (opened (record { sectors = full.sectors; requests = 1; tags = 1; scheduler = Plain; first_budget = 256; max_budget = 256; timeout = 8; first_vtime = 7 }) 0) { held = true } };

    fn work(&self, _tag: u8, _issue: u64) -> Option<Work> {
        None
    }

    fn sector(&self, number: u64) -> SectorView<'_> {
        if number < self.sectors {
            SectorView::Base
        } else {
            SectorView::Outside
        }
    }

    fn request(&self, _seat: u8, _place: usize) -> RequestView {
        RequestView::Free
    }

    fn vtime(&self, group: u8, _class: Class) -> Option<u64> {
        if group == 0 { Some(7) } else { None }
    }

    fn entity(&self, _number: u8) -> Option<EntityView> {
        None
    }

    fn cursor(&self) -> u32 {
        0
    }

    fn length(&self) -> u32 {
        0
    }

    // It has no memory for a text.
    fn put_look(&self, _look: Look, _out: &mut Vec<u8>) -> io::Result<()> {
        Err(ErrorKind::OutOfMemory.into())
    }

    fn last_serial(&self) -> u64 {
        0
    }
}

impl Keeps for Full {
    fn call(&mut self, _alloc: Global, call: &Call) -> Answer {
        self.calls = self.calls.wrapping_add(1);
        match call {
            Call::Do(_) => Answer::NotYet(Cause::Held),
            Call::Hold => Answer::Refused(Code::AlreadyHeld),
            Call::Release => Answer::Refused(Code::HistoryFull),
            Call::Undo { k: 0 } | Call::Redo { k: 0 } => Answer::Refused(Code::ZeroCount),
            Call::Undo { .. } => Answer::Refused(Code::NothingToUndo),
            Call::Redo { .. } => Answer::Refused(Code::NothingToRedo),
        }
    }
}
