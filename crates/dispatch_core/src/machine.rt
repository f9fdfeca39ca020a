// The machine, and its view.
ghost use Rattle.std.specs.Prelude.{◌≡◌, ◌+◌, ◌<◌, ◌≤◌, ◌^◌, ◌%◌, ℕ, [], IfOk, IsOk, OnOk, OnErr, length, slice_set};
ghost use Rattle.std.specs.Option.{option_map};
ghost use Rattle.change_record.specs.Exchange.{FitBack, FitForth, ArePuts, back_tables, back_left, forth_tables, forth_left};
ghost use Rattle.change_record.specs.Trail.{KeepsTrail};
ghost use Rattle.change_record.specs.Machine.{meaning};
ghost use Rattle.change_record.specs.Tape.{step_at, TakesBack};
ghost use Rattle.plain.specs.Step.{step as plain_step, Applies, of_sizes};
ghost use Rattle.plain.specs.Opening.{opening};
ghost use Rattle.plain.specs.Looks.{vtime_view, entity_view, request_view};
ghost use Rattle.plain_laws.specs.Whole.{AreWhole};
ghost use Rattle.dispatch_core.specs.WellFormed.{WellFormed};
ghost use Rattle.dispatch_core.specs.Counts.{exchanges_of, rule_exchanges, IsCount};
ghost use Rattle.dispatch_core.specs.Relation.{Answers, Leaves};
ghost use Rattle.dispatch_core.specs.Running.{plain_of, sizes_of, making_of, IsFor, Records};
ghost use Rattle.plain.specs.Device.{work_of};

use crate::attach::run_attach;
use crate::dispatch::{range_of_request, run_dispatch};
use crate::entering::{service_of, stands};
use crate::finish::run_finish;
use crate::groups::{run_group_drop, run_group_make, run_set_weight};
use crate::leave::run_leave;
use crate::mode::{run_freeze, run_thaw, run_tick};
use crate::reap::run_reap;
use crate::requeue::run_requeue;
use crate::slots::outbox_slots;
use crate::submit::run_submit;
use crate::switch::run_switch;
use crate::{Answer, Code, EntityView, RequestView, SectorView, Sizes, Step, Work};
use bfq_select::{member_in, vtime_of};
use change_record::{Making, Parts, Tape};
use plain_laws::requests_stay_whole;
use sector_core::{Class, Config, OutOfMemory, Scheduler};
use std::alloc::Global;
use std::marker::Model;

/// The tables of a host, and what they were made for.
#[derive(Drop)]
pub struct Machine {
    pub(crate) sizes: Sizes,
    pub(crate) parts: Parts,
}

impl Model for Machine {
    ghost use Rattle.std.specs.Coded.{codes};
    ghost use Rattle.overlay.specs.Blocks.{blocks_code};
    ghost use Rattle.dispatch_core.specs.Running.{Running};

    ghost Value = { Running };

    ghost coded = { Prim.hlevel (codes, blocks_code) };

    ghost view = { λ m. record { sizes = m.sizes; tables = m.parts.tables; turns = m.parts.turns } };
}

impl Machine {
    /// A machine before its first step, over an image of `sectors` sectors.
    pub fn new(alloc: Global, config: Config, sectors: u64) -> Result<Machine, OutOfMemory>
        requires { sectors < 2 ^ 55 }
        ensures sizes { IfOk result (λ m. m.sizes ≡ sizes_of config sectors) }
        ensures turns { IfOk result (λ m. m.turns ≡ 0) }
        ensures opening { IfOk result (λ m. plain_of m ≡ opening (of_sizes (sizes_of config sectors))) }
        ensures well { IfOk result (λ m. IsFor 1 m) }
    {
        Ok(Machine {
            sizes: Sizes {
                sectors,
                requests: config.nr_requests,
                tags: config.tags,
                scheduler: config.scheduler,
                first_budget: config.first_budget,
                max_budget: config.max_budget,
                timeout: config.timeout,
                first_vtime: config.first_vtime,
            },
            parts: Parts::new(alloc, making_of(config))?,
        })
    }

    /// Applies a step under its serial, with or without room in the history.
    pub fn apply(
        &mut self,
        alloc: Global,
        serial: u64,
        room: bool,
        step: &Step,
        tape: &mut Tape,
    ) -> Answer
        requires well { IsFor serial self.old }
        requires idle { tape.old.current ≡ [] }
        ensures applies { Applies (of_sizes self.old.sizes) (plain_of self.old) serial room step.now (plain_of self.new) result }
        ensures records { Records result (IsCount (plain_of self.old) step.now) tape.old.steps self.old.tables tape.new.steps self.new.tables }
        ensures well { IsFor (serial + 1) self.new }
        ensures idle { tape.new.current ≡ [] }
        ensures sizes { self.new.sizes ≡ self.old.sizes }
    {
        requests_stay_whole();
        match perform(alloc, self.sizes, &mut self.parts, tape, serial, room, step) {
            Ok(Answer::Accepted(reply)) => {
                tape.close();
                return Answer::Accepted(reply);
            }
            Ok(Answer::Refused(code)) => return Answer::Refused(code),
            Ok(Answer::NotYet(cause)) => return Answer::NotYet(cause),
            Err(_) => {
                tape.abandon(&mut self.parts);
                return Answer::Refused(Code::OutOfMemory);
            }
        }
    }

    /// Turns a step of the tape back. It takes no memory.
    pub fn back(&mut self, tape: &mut Tape, at: usize)
        requires there { at < length tape.old.steps }
        requires fits { FitBack (step_at tape.old.steps at) self.old.tables }
        ensures tables { self.new.tables ≡ back_tables (step_at tape.old.steps at) self.old.tables }
        ensures turns { self.new.turns % 2 ^ 64 ≡ (self.old.turns + length (step_at tape.old.steps at)) % 2 ^ 64 }
        ensures steps { tape.new.steps ≡ slice_set tape.old.steps at (back_left (step_at tape.old.steps at) self.old.tables) }
        ensures current { tape.new.current ≡ tape.old.current }
        ensures sizes { self.new.sizes ≡ self.old.sizes }
    {
        tape.back(&mut self.parts, at);
    }

    /// Turns a step of the tape forth again.
    ///
    /// # Errors
    ///
    /// Where there is no memory for a block nothing has changed.
    pub fn forth(&mut self, tape: &mut Tape, at: usize) -> Result<(), OutOfMemory>
        requires there { at < length tape.old.steps }
        requires puts { ArePuts (step_at tape.old.steps at) }
        ensures tables { OnOk result (self.new.tables ≡ forth_tables (step_at tape.old.steps at) self.old.tables) }
        ensures turns { OnOk result (self.new.turns % 2 ^ 64 ≡ (self.old.turns + length (step_at tape.old.steps at)) % 2 ^ 64) }
        ensures steps { OnOk result (tape.new.steps ≡ slice_set tape.old.steps at (forth_left (step_at tape.old.steps at) self.old.tables)) }
        ensures current { tape.new.current ≡ tape.old.current }
        ensures err { OnErr result (self.new.tables ≡ self.old.tables) }
        ensures turned_back { OnErr result (TakesBack self.old.turns (length (step_at tape.old.steps at)) self.new.turns) }
        ensures kept { OnErr result (tape.new.steps ≡ tape.old.steps) }
        ensures fits { FitForth (step_at tape.old.steps at) self.old.tables → IsOk result }
        ensures sizes { self.new.sizes ≡ self.old.sizes }
    {
        match tape.forth(&mut self.parts, at) {
            Ok(()) => return Ok(()),
            Err(refused) => return Err(refused),
        }
    }

    /// How many exchanges were made, modulo 2^64.
    pub fn turns(&self) -> u64
        ensures { result ≡ self.now.turns }
    {
        self.parts.turns()
    }

    /// What can be seen of it.
    pub fn view(&self) -> View<'_>
        ensures { result ≡ self.now }
    {
        View { machine: self }
    }
}

// What the tables of a machine are made for.
fn making_of(config: Config) -> Making
    ensures { result ≡ making_of config }
{
    Making {
        requests: config.nr_requests,
        tags: config.tags,
        scheduler: config.scheduler,
        first_budget: config.first_budget,
        max_budget: config.max_budget,
        first_vtime: config.first_vtime,
    }
}

// The step's own list of refusals, its exchanges and its reply.
fn perform(
    alloc: Global,
    sizes: Sizes,
    parts: &mut Parts,
    tape: &mut Tape,
    serial: u64,
    room: bool,
    step: &Step,
) -> Result<Answer, OutOfMemory>
    requires well { WellFormed (of_sizes sizes) serial parts.old.tables }
    requires whole { AreWhole (meaning parts.old.tables) }
    requires idle { tape.old.current ≡ [] }
    ensures answers { Answers (λ m. plain_step (of_sizes sizes) m serial room step.now) parts.old.tables result parts.new.tables }
    ensures leaves { IfOk result (λ answer. Leaves (of_sizes sizes) serial (exchanges_of (meaning parts.old.tables) step.now) (rule_exchanges (meaning parts.old.tables) step.now) answer parts.old.tables tape.old.current parts.new.tables tape.new.current tape.new.spare) }
    ensures trail { KeepsTrail tape.old.current parts.old.tables tape.new.current parts.new.tables }
    ensures steps { tape.new.steps ≡ tape.old.steps }
{
    match step {
        Step::Attach {
            seat,
            group,
            prio,
            class,
        } => return run_attach(
            sizes, parts, tape, serial, room, *seat, *group, *prio, *class,
        ),
        Step::Submit {
            seat,
            session,
            op,
            range,
            payload,
        } => return run_submit(
            sizes, parts, tape, serial, room, *seat, *session, *op, *range, payload,
        ),
        Step::Reap { seat, session } => return run_reap(
            sizes, parts, tape, serial, room, *seat, *session,
        ),
        Step::Leave { seat, why: _ } => return run_leave(sizes, parts, tape, serial, room, *seat),
        Step::Dispatch => return run_dispatch(sizes, parts, tape, serial, room),
        Step::Finish {
            tag,
            issue,
            outcome,
        } => return run_finish(
            alloc, sizes, parts, tape, serial, room, *tag, *issue, outcome,
        ),
        Step::Requeue { tag, issue } => return run_requeue(
            sizes, parts, tape, serial, room, *tag, *issue,
        ),
        Step::GroupMake { parent, weight } => return run_group_make(
            sizes, parts, tape, serial, room, *parent, *weight,
        ),
        Step::GroupDrop { group } => return run_group_drop(
            sizes, parts, tape, serial, room, *group,
        ),
        Step::SetWeight { group, weight } => return run_set_weight(
            sizes, parts, tape, serial, room, *group, *weight,
        ),
        Step::Freeze => return run_freeze(sizes, parts, tape, serial, room),
        Step::Thaw => return run_thaw(sizes, parts, tape, serial, room),
        Step::Switch { scheduler } => return run_switch(
            sizes, parts, tape, serial, room, *scheduler,
        ),
        Step::Tick => return run_tick(sizes, parts, tape, serial, room),
    }
}

/// A look at a machine.
#[derive(Drop)]
pub struct View<'a> {
    pub(crate) machine: &'a Machine,
}

impl<'a> Model for View<'a> {
    ghost use Rattle.std.specs.Coded.{codes};
    ghost use Rattle.overlay.specs.Blocks.{blocks_code};
    ghost use Rattle.dispatch_core.specs.Running.{Running};

    ghost Value = { Running };

    ghost coded = { Prim.hlevel (codes, blocks_code) };

    ghost view = { λ v. v.machine.now };
}

impl<'a> View<'a> {
    ghost use Rattle.dispatch_core.specs.Shown.{ShowsSector};

    /// The content of a sector.
    pub fn sector(&self, number: u64) -> SectorView<'a>
        ensures { ShowsSector result self.now number }
    {
        let machine = self.machine;
        if number >= machine.sizes.sectors {
            return SectorView::Outside;
        }
        match machine.parts.overlay().get(number) {
            Some(block) => SectorView::Stored(block),
            None => SectorView::Base,
        }
    }

    /// How many tags there are.
    pub fn tags(&self) -> u8
        ensures { result ≡ self.now.sizes.tags }
    {
        let machine = self.machine;
        machine.sizes.tags
    }

    /// The request in flight under a tag.
    pub fn in_flight(&self, tag: u8) -> Option<Work>
        ensures { (n : ℕ) → IsFor n self.now → result ≡ option_map (work_of tag) ((plain_of self.now).flight tag) }
    {
        let machine = self.machine;
        let Some(issue) = machine.parts.tags().get(tag) else {
            return None;
        };
        let Some(request) = machine.parts.pool().request(issue.slot) else {
            return None;
        };
        Some(Work {
            tag,
            issue: issue.issue,
            op: request.op,
            range: range_of_request(machine.parts.pool(), request),
        })
    }

    /// What stands at a place of a seat's queue, in order of insertion.
    pub fn request(&self, seat: u8, place: usize) -> RequestView
        ensures shown { (n : ℕ) → IsFor n self.now → result ≡ request_view (plain_of self.now) seat place }
        ensures few { (n : ℕ) → IsFor n self.now → length ((plain_of self.now).queue seat) < 2 ^ 16 }
    {
        let machine = self.machine;
        if machine.parts.seat(seat).is_none() {
            return RequestView::Free;
        }
        let Some(slot) = machine.parts.queues().nth(seat, place) else {
            return RequestView::Past;
        };
        let Some(request) = machine.parts.pool().request(slot) else {
            return RequestView::Past;
        };
        RequestView::Queued {
            range: range_of_request(machine.parts.pool(), request),
            bios: request.bios.len() as u32,
        }
    }

    /// The scheduler.
    pub fn scheduler(&self) -> Scheduler
        ensures { result ≡ (plain_of self.now).scheduler }
    {
        let machine = self.machine;
        machine.parts.scheduler()
    }

    /// Whether submits wait.
    pub fn frozen(&self) -> bool
        ensures { result ≡ (plain_of self.now).frozen }
    {
        let machine = self.machine;
        machine.parts.frozen()
    }

    /// The virtual time of a class of a group; none if there is no such group.
    pub fn vtime(&self, group: u8, class: Class) -> Option<u64>
        ensures { result ≡ vtime_view (plain_of self.now) group class }
    {
        let machine = self.machine;
        if !stands(&machine.parts, group) {
            return None;
        }
        Some(vtime_of(&machine.parts, group, class))
    }

    /// What is known of an entity; none where it is in no group.
    pub fn entity(&self, number: u8) -> Option<EntityView>
        ensures { result ≡ entity_view (plain_of self.now) number }
    {
        let machine = self.machine;
        let Some(group) = machine.parts.groups().parent(number) else {
            return None;
        };
        let member = member_in(&machine.parts, group, number);
        Some(EntityView {
            class: member.class,
            state: member.state,
            start: member.start,
            finish: member.finish,
            weight: member.weight,
            budget: machine.parts.budget(number),
            service: service_of(&machine.parts, member.state),
        })
    }

    /// How many exchanges were made on it, modulo 2^64.
    pub fn turns(&self) -> u64
        ensures { result ≡ self.now.turns }
    {
        let machine = self.machine;
        machine.turns()
    }

    /// How many completed bios of a seat are not yet reaped.
    pub fn outbox_len(&self, seat: u8) -> usize
        ensures { (n : ℕ) → IsFor n self.now → result ≡ length ((plain_of self.now).outbox seat) }
    {
        let machine = self.machine;
        outbox_slots(&machine.parts, seat).len()
    }
}
