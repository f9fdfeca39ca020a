// Switch: a frozen host without any request gets another scheduler.
ghost use Rattle.std.specs.Prelude.{◌≡◌, ℕ, ◌+◌, ◌≤◌, ◌<◌, ◌^◌, nat_lt, IfOk, length, is_some, count_by, slice_index_or, if◌then◌else◌};
ghost use Rattle.change_record.specs.Machine.{meaning, bfq_of};
ghost use Rattle.plain.specs.Machine.{put};
ghost use Rattle.change_record.specs.Trail.{KeepsTrail};
ghost use Rattle.bfq_select.specs.Service.{IsSized, IsBounded};
ghost use Rattle.sector_core.specs.declared.config.Scheduler.TheVariants.{Bfq as BfqScheduler};
ghost use Rattle.plain.specs.Lists.{numbers};
ghost use Rattle.plain.specs.Steps.Switch.{switch, is_same, begun_again, with_first_budgets, with_first_times, with_first_vtime, for_each};
ghost use Rattle.plain.specs.Step.{of_sizes};
ghost use Rattle.dispatch_core.specs.Counts.{switch_exchanges};
ghost use Rattle.dispatch_core.specs.Relation.{Answers, Leaves};
ghost use Rattle.dispatch_core.specs.WellFormed.{WellFormed, taken};

use crate::{Answer, Code, Reply, Sizes};
use bfq_select::member_in;
use change_record::{Change, MemberPlace, Parts, Tape};
use plain::{Member, Vtimes};
use sector_core::{Entity, OutOfMemory, Scheduler};

// The exchanges of a Switch at most: the mode, 16 heads, and under bfq the times of 32 groups and 48 entities and 16 budgets.
const MOST_EXCHANGES: usize = 113;

/// The round robin and the heads begin again, and under bfq the times and the budgets of sessions.
pub fn run_switch(
    sizes: Sizes,
    parts: &mut Parts,
    tape: &mut Tape,
    serial: u64,
    room: bool,
    scheduler: Scheduler,
) -> Result<Answer, OutOfMemory>
    requires { WellFormed (of_sizes sizes) serial parts.old.tables }
    ensures answers { Answers (λ m. switch (of_sizes sizes) m room scheduler) parts.old.tables result parts.new.tables }
    ensures leaves { IfOk result (λ answer. Leaves (of_sizes sizes) serial (switch_exchanges (meaning parts.old.tables) scheduler) 0 answer parts.old.tables tape.old.current parts.new.tables tape.new.current tape.new.spare) }
    ensures trail { KeepsTrail tape.old.current parts.old.tables tape.new.current parts.new.tables }
    ensures steps { tape.new.steps ≡ tape.old.steps }
{
    if !parts.frozen() {
        return Ok(Answer::Refused(Code::NotFrozen));
    }
    if has_request(sizes, parts) {
        return Ok(Answer::Refused(Code::NotDrained));
    }
    if is_same(scheduler, parts.scheduler()) {
        return Ok(Answer::Refused(Code::SameScheduler));
    }
    if !room {
        return Ok(Answer::Refused(Code::HistoryFull));
    }
    tape.reserve(MOST_EXCHANGES)?;
    let mode = Change::Mode {
        scheduler,
        frozen: true,
        served: 15,
    };
    tape.exchange(parts, mode);
    begin_heads(parts, tape);
    match scheduler {
        Scheduler::Plain => return Ok(Answer::Accepted(Reply::Done)),
        Scheduler::Bfq => {
            begin_again(sizes, parts, tape);
            return Ok(Answer::Accepted(Reply::Done));
        }
    }
}

// Whether there is a request, be it queued, in the dispatch list or in flight.
fn has_request(sizes: Sizes, parts: &Parts) -> bool
    requires { length parts.now.tables.requests ≡ sizes.requests }
    ensures { result ≡ nat_lt 0 (taken parts.now.tables.requests) }
{
    for slot in 0..sizes.requests {
        if parts.pool().request(slot).is_some() {
            return true;
        }
    }
    false
}

// Whether two schedulers are the same.
fn is_same(one: Scheduler, other: Scheduler) -> bool
    ensures { result ≡ is_same one other }
{
    match (one, other) {
        (Scheduler::Plain, Scheduler::Plain) => true,
        (Scheduler::Plain, Scheduler::Bfq) => false,
        (Scheduler::Bfq, Scheduler::Plain) => false,
        (Scheduler::Bfq, Scheduler::Bfq) => true,
    }
}

// Every head is at the first sector.
fn begin_heads(parts: &mut Parts, tape: &mut Tape)
    requires room { 16 ≤ tape.old.room }
    requires heads { length parts.old.tables.heads ≡ 16 }
    ensures others { parts.new.tables ≡ record parts.old.tables { heads = parts.new.tables.heads } }
    ensures heads { length parts.new.tables.heads ≡ 16 }
    ensures made { (seat : ℕ) → slice_index_or parts.new.tables.heads seat 0 ≡ 0 }
    ensures trail { KeepsTrail tape.old.current parts.old.tables tape.new.current parts.new.tables }
    ensures steps { tape.new.steps ≡ tape.old.steps }
    ensures count { length tape.new.current ≡ length tape.old.current + 16 }
    ensures room { tape.old.room ≤ tape.new.room + 16 }
    ensures spare { tape.new.spare ≡ tape.old.spare }
{
    for seat in 0..16u8 {
        tape.exchange(parts, Change::Head { seat, head: 0 });
    }
}

// Every virtual time, the times of every entity in a group, and the budget of every session are the first ones.
fn begin_again(sizes: Sizes, parts: &mut Parts, tape: &mut Tape)
    requires room { 96 ≤ tape.old.room }
    requires sized { IsSized parts.old.tables }
    requires bounded { IsBounded (bfq_of parts.old.tables) }
    requires vtime { sizes.first_vtime ≤ 2 ^ 62 }
    requires least { 256 ≤ sizes.first_budget }
    requires most { sizes.first_budget ≤ 65536 }
    ensures made { bfq_of parts.new.tables ≡ begun_again (of_sizes sizes) BfqScheduler (bfq_of parts.old.tables) }
    ensures others { parts.new.tables ≡ record parts.old.tables { trees = parts.new.tables.trees; budgets = parts.new.tables.budgets } }
    ensures sized { IsSized parts.new.tables }
    ensures bounded { IsBounded (bfq_of parts.new.tables) }
    ensures trail { KeepsTrail tape.old.current parts.old.tables tape.new.current parts.new.tables }
    ensures steps { tape.new.steps ≡ tape.old.steps }
    ensures count { length tape.new.current ≡ length tape.old.current + (48 + count_by (λ entity. is_some ((bfq_of parts.old.tables).parent entity)) (numbers 0 48)) }
    ensures room { tape.old.room ≤ tape.new.room + 96 }
    ensures spare { tape.new.spare ≡ tape.old.spare }
{
    begin_vtimes(sizes, parts, tape);
    begin_times(sizes, parts, tape);
    begin_budgets(sizes, parts, tape);
}

// Every virtual time is the first one.
fn begin_vtimes(sizes: Sizes, parts: &mut Parts, tape: &mut Tape)
    requires room { 32 ≤ tape.old.room }
    requires sized { IsSized parts.old.tables }
    requires bounded { IsBounded (bfq_of parts.old.tables) }
    requires vtime { sizes.first_vtime ≤ 2 ^ 62 }
    ensures made { bfq_of parts.new.tables ≡ for_each (with_first_vtime (of_sizes sizes)) (bfq_of parts.old.tables) (numbers 0 32) }
    ensures others { parts.new.tables ≡ record parts.old.tables { trees = parts.new.tables.trees } }
    ensures sized { IsSized parts.new.tables }
    ensures bounded { IsBounded (bfq_of parts.new.tables) }
    ensures trail { KeepsTrail tape.old.current parts.old.tables tape.new.current parts.new.tables }
    ensures steps { tape.new.steps ≡ tape.old.steps }
    ensures count { length tape.new.current ≡ length tape.old.current + 32 }
    ensures room { tape.old.room ≤ tape.new.room + 32 }
    ensures spare { tape.new.spare ≡ tape.old.spare }
{
    for group in 0..32u8 {
        begin_vtime(sizes, parts, tape, group);
    }
}

// The virtual times of a group are the first one.
fn begin_vtime(sizes: Sizes, parts: &mut Parts, tape: &mut Tape, group: u8)
    requires room { 1 ≤ tape.old.room }
    requires group { group < 32 }
    requires sized { IsSized parts.old.tables }
    requires bounded { IsBounded (bfq_of parts.old.tables) }
    requires vtime { sizes.first_vtime ≤ 2 ^ 62 }
    ensures made { bfq_of parts.new.tables ≡ with_first_vtime (of_sizes sizes) (bfq_of parts.old.tables) group }
    ensures others { parts.new.tables ≡ record parts.old.tables { trees = parts.new.tables.trees } }
    ensures sized { IsSized parts.new.tables }
    ensures bounded { IsBounded (bfq_of parts.new.tables) }
    ensures trail { KeepsTrail tape.old.current parts.old.tables tape.new.current parts.new.tables }
    ensures steps { tape.new.steps ≡ tape.old.steps }
    ensures count { length tape.new.current ≡ length tape.old.current + 1 }
    ensures room { tape.old.room ≤ tape.new.room + 1 }
    ensures spare { tape.new.spare ≡ tape.old.spare }
{
    tape.exchange(
        parts,
        Change::Vtime {
            group,
            vtimes: Vtimes::same(sizes.first_vtime),
        },
    );
}

// The times of every entity in a group are the first ones.
fn begin_times(sizes: Sizes, parts: &mut Parts, tape: &mut Tape)
    requires room { 48 ≤ tape.old.room }
    requires sized { IsSized parts.old.tables }
    requires bounded { IsBounded (bfq_of parts.old.tables) }
    requires vtime { sizes.first_vtime ≤ 2 ^ 62 }
    ensures made { bfq_of parts.new.tables ≡ for_each (with_first_times (of_sizes sizes)) (bfq_of parts.old.tables) (numbers 0 48) }
    ensures others { parts.new.tables ≡ record parts.old.tables { trees = parts.new.tables.trees } }
    ensures sized { IsSized parts.new.tables }
    ensures bounded { IsBounded (bfq_of parts.new.tables) }
    ensures trail { KeepsTrail tape.old.current parts.old.tables tape.new.current parts.new.tables }
    ensures steps { tape.new.steps ≡ tape.old.steps }
    ensures count { length tape.new.current ≡ length tape.old.current + count_by (λ entity. is_some ((bfq_of parts.old.tables).parent entity)) (numbers 0 48) }
    ensures room { tape.old.room ≤ tape.new.room + 48 }
    ensures spare { tape.new.spare ≡ tape.old.spare }
{
    for entity in 0..48u8 {
        begin_entity(sizes, parts, tape, entity);
    }
}

// The times of an entity are the first ones, where it is in a group.
fn begin_entity(sizes: Sizes, parts: &mut Parts, tape: &mut Tape, entity: Entity)
    requires room { 1 ≤ tape.old.room }
    requires sized { IsSized parts.old.tables }
    requires bounded { IsBounded (bfq_of parts.old.tables) }
    requires vtime { sizes.first_vtime ≤ 2 ^ 62 }
    ensures made { bfq_of parts.new.tables ≡ with_first_times (of_sizes sizes) (bfq_of parts.old.tables) entity }
    ensures others { parts.new.tables ≡ record parts.old.tables { trees = parts.new.tables.trees } }
    ensures sized { IsSized parts.new.tables }
    ensures bounded { IsBounded (bfq_of parts.new.tables) }
    ensures trail { KeepsTrail tape.old.current parts.old.tables tape.new.current parts.new.tables }
    ensures steps { tape.new.steps ≡ tape.old.steps }
    ensures count { length tape.new.current ≡ length tape.old.current + (if is_some ((bfq_of parts.old.tables).parent entity) then 1 else 0) }
    ensures room { tape.old.room ≤ tape.new.room + 1 }
    ensures spare { tape.new.spare ≡ tape.old.spare }
{
    let Some(group) = parts.groups().parent(entity) else {
        return;
    };
    let member = Member {
        start: sizes.first_vtime,
        finish: sizes.first_vtime,
        ..member_in(parts, group, entity)
    };
    tape.exchange(
        parts,
        Change::TreeMember {
            group,
            entity,
            member: MemberPlace::of(Some(member)),
        },
    );
}

// The budget of every session is the first one.
fn begin_budgets(sizes: Sizes, parts: &mut Parts, tape: &mut Tape)
    requires room { 16 ≤ tape.old.room }
    requires sized { IsSized parts.old.tables }
    requires bounded { IsBounded (bfq_of parts.old.tables) }
    requires least { 256 ≤ sizes.first_budget }
    requires most { sizes.first_budget ≤ 65536 }
    ensures made { bfq_of parts.new.tables ≡ with_first_budgets (of_sizes sizes) (bfq_of parts.old.tables) }
    ensures others { parts.new.tables ≡ record parts.old.tables { budgets = parts.new.tables.budgets } }
    ensures sized { IsSized parts.new.tables }
    ensures bounded { IsBounded (bfq_of parts.new.tables) }
    ensures trail { KeepsTrail tape.old.current parts.old.tables tape.new.current parts.new.tables }
    ensures steps { tape.new.steps ≡ tape.old.steps }
    ensures count { length tape.new.current ≡ length tape.old.current + 16 }
    ensures room { tape.old.room ≤ tape.new.room + 16 }
    ensures spare { tape.new.spare ≡ tape.old.spare }
{
    for seat in 0..16u8 {
        begin_budget(sizes, parts, tape, seat);
    }
}

// The budget of a session is the first one.
fn begin_budget(sizes: Sizes, parts: &mut Parts, tape: &mut Tape, seat: u8)
    requires room { 1 ≤ tape.old.room }
    requires seat { seat < 16 }
    requires sized { IsSized parts.old.tables }
    requires bounded { IsBounded (bfq_of parts.old.tables) }
    requires least { 256 ≤ sizes.first_budget }
    requires most { sizes.first_budget ≤ 65536 }
    ensures made { bfq_of parts.new.tables ≡ record (bfq_of parts.old.tables) { budget = put (bfq_of parts.old.tables).budget seat sizes.first_budget } }
    ensures others { parts.new.tables ≡ record parts.old.tables { budgets = parts.new.tables.budgets } }
    ensures sized { IsSized parts.new.tables }
    ensures bounded { IsBounded (bfq_of parts.new.tables) }
    ensures trail { KeepsTrail tape.old.current parts.old.tables tape.new.current parts.new.tables }
    ensures steps { tape.new.steps ≡ tape.old.steps }
    ensures count { length tape.new.current ≡ length tape.old.current + 1 }
    ensures room { tape.old.room ≤ tape.new.room + 1 }
    ensures spare { tape.new.spare ≡ tape.old.spare }
{
    tape.exchange(
        parts,
        Change::Budget {
            entity: seat,
            budget: sizes.first_budget,
        },
    );
}
