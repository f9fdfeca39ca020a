// A keeper whose steps the tests make, and turn back and forth.
use dispatch_core::{Answer, Reply, RequestView, SectorView, Step, View};
use history::{Call, Keeper};
use sector_core::{Config, ConfigDraft, Range};
use std::alloc::Global;
use std::test::Fail;

// The configuration of a draft. This has no clauses, so that nothing carries the limits of its numbers.
// A match costs a proof less than `?`, which makes a text of the fault.
pub fn checked(draft: ConfigDraft) -> Result<Config, Fail> {
    match Config::check(draft) {
        Ok(config) => Ok(config),
        Err(_) => Err(Fail::from("a configuration within its limits")),
    }
}

// A keeper over an image of so many sectors.
fn opened(alloc: Global, sectors: u32) -> Result<Keeper, Fail> {
    let config = checked(ConfigDraft::default())?;
    Ok(Keeper::new(alloc, config, u64::from(sectors))?)
}

// What stands at a place of a seat's queue, as a `RequestView` tells it. That one cannot be compared, since only tests would do so.
#[derive(Clone, Copy, Debug, PartialEq, Eq)]
pub enum Place {
    Free,
    Past,
    Queued { range: Range, bios: u32 },
}

#[derive(Drop)]
pub struct Host {
    keeper: Keeper,
}

impl Host {
    // Before its first step, with the default configuration, over an image of so many sectors.
    pub fn new(alloc: Global, sectors: u32) -> Result<Host, Fail> {
        Ok(Host {
            keeper: opened(alloc, sectors)?,
        })
    }

    // Makes a step, and tells the number of what was accepted, or of a refusal after 100, or of a wait after 200.
    pub fn applied(&mut self, alloc: Global, step: Step) -> u64 {
        match self.keeper.call(alloc, &Call::Do(step)) {
            Answer::Accepted(Reply::Attached { session }) => session,
            Answer::Accepted(Reply::Queued { bio }) => bio,
            Answer::Accepted(Reply::Completed { bio, .. }) => bio,
            Answer::Accepted(Reply::Issued { issue, .. }) => issue,
            Answer::Accepted(Reply::Finished { bios }) => u64::from(bios),
            Answer::Accepted(_) => 0,
            Answer::Refused(code) => 100 + u64::from(code.number()),
            Answer::NotYet(cause) => 200 + u64::from(cause.number()),
        }
    }

    // Makes a step that is accepted, and turns its list back and then forth. Tells its reply, how many exchanges each of the
    // three made, and whether nothing was stored at this sector while the step was turned back.
    pub fn turned(
        &mut self,
        alloc: Global,
        step: Step,
        sector: u64,
    ) -> Result<(Reply, [u64; 3], bool), Fail> {
        let before = self.turns();
        let Answer::Accepted(reply) = self.keeper.call(alloc, &Call::Do(step)) else {
            return Err(Fail::from("the step is not accepted"));
        };
        let made = self.turns();
        self.accepts(alloc, &Call::Hold)?;
        self.accepts(alloc, &Call::Undo { k: 1 })?;
        let undone = self.turns();
        let is_base = self.is_base(sector);
        self.accepts(alloc, &Call::Redo { k: 1 })?;
        let redone = self.turns();
        self.accepts(alloc, &Call::Release)?;
        let exchanges = [
            made.wrapping_sub(before),
            undone.wrapping_sub(made),
            redone.wrapping_sub(undone),
        ];
        Ok((reply, exchanges, is_base))
    }

    fn accepts(&mut self, alloc: Global, call: &Call) -> Result<(), Fail> {
        match self.keeper.call(alloc, call) {
            Answer::Accepted(_) => Ok(()),
            _ => Err(Fail::from("the operator's call is not accepted")),
        }
    }

    // The machine.
    pub fn view(&self) -> View<'_> {
        self.keeper.view().machine()
    }

    // What stands at a place of a seat's queue.
    pub fn place(&self, seat: u8, place: usize) -> Place {
        match self.view().request(seat, place) {
            RequestView::Free => Place::Free,
            RequestView::Past => Place::Past,
            RequestView::Queued { range, bios } => Place::Queued { range, bios },
        }
    }

    // How many exchanges were made.
    pub fn turns(&self) -> u64 {
        self.keeper.view().machine().turns()
    }

    // How many steps the line has, and so how many lists the tape.
    pub fn steps(&self) -> u32 {
        self.keeper.view().length()
    }

    // Nothing is stored at the sector.
    fn is_base(&self, sector: u64) -> bool {
        match self.view().sector(sector) {
            SectorView::Outside => false,
            SectorView::Base => true,
            SectorView::Stored(_) => false,
        }
    }
}
