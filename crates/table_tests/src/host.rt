// Tables and a tape on which the examples call the rules, with room for each call.
ghost use Rattle.std.specs.Prelude.{◌<◌, ◌≤◌, ◌^◌};
ghost use Rattle.change_record.specs.Machine.{bfq_of};
ghost use Rattle.bfq_select.specs.Service.{IsSized, IsBounded};

use bfq_select::{Expiry, VtimeFull, activate, charge, expire, member_in, select};
use change_record::{Change, Making, Parts, Tape};
use plain::{State, Vtimes};
use sector_core::{Class, Entity, Scheduler};
use std::alloc::Global;
use std::process::Abort;
use std::test::Fail;

// A first budget of 1024 sectors, and a greatest one of 4096.
const MAKING: Making = Making {
    requests: 4,
    tags: 2,
    scheduler: Scheduler::Bfq,
    first_budget: 1024,
    max_budget: 4096,
    first_vtime: 0,
};

// No time is greater.
const TOP: u64 = 1 << 62;

// What an example does.
#[derive(Clone, Copy)]
pub enum Act {
    // The entity comes into the group, and gets this weight when it is stamped next.
    Join(Entity, u8, u32),
    Weigh(Entity, u32),
    Budget(Entity, u32),
    Vtime(u64),
    Activate(u8),
    Select,
    Charge(u32),
    // The queue in service has used up its budget, and has more to send.
    Exhaust,
    // The queue in service has been there for too long, and has more to send.
    TimeOut,
    // The queue in service has no request left.
    Empty,
    // These are refused.
    ActivateInVain(u8),
    EmptyInVain,
    // Nothing is done, and this is so.
    See(Fact),
}

// What is seen of the tables.
#[derive(Clone, Copy, Debug, PartialEq, Eq)]
pub enum Fact {
    // In a group an entity has this state, start, finish and weight in effect.
    Member(u8, Entity, State, u64, u64, u32),
    Start(u8, Entity, u64),
    Finish(u8, Entity, u64),
    // The virtual time of the best-effort class of a group.
    Vtime(u8, Option<u64>),
    Budget(Entity, u32),
    // The queue of a seat is in service, this much was sent, and so many ticks have passed.
    Serves(u8, u32, u64),
    Nobody,
}

#[derive(Drop)]
pub struct Host {
    parts: Parts,
    tape: Tape,
    ghost sized: { IsSized parts.tables },
    ghost bounded: { IsBounded (bfq_of parts.tables) },
}

impl Host {
    // Nobody is in a group.
    pub fn new(alloc: Global) -> Result<Host, Fail> {
        let parts = Parts::new(alloc, MAKING)?;
        Ok(Host {
            parts,
            tape: Tape::new(alloc),
        })
    }

    // Does all of that, and compares what is to be seen.
    pub fn run(&mut self, rt: &(impl Abort + AllocGlobal), acts: &[Act]) -> Result<(), Fail> {
        for act in acts {
            if let Act::See(fact) = *act {
                assert_eq!(rt; self.seen(fact), fact);
            } else {
                self.act(*act)?;
            }
        }
        Ok(())
    }

    fn act(&mut self, act: Act) -> Result<(), Fail> {
        match act {
            Act::Join(entity, group, weight) if group < 32 => {
                self.join(entity, group)?;
                self.weigh(entity, weight)
            }
            Act::Weigh(entity, weight) => self.weigh(entity, weight),
            Act::Budget(entity, budget) if entity < 48 && budget >= 256 && budget <= 65536 => {
                self.set_budget(entity, budget)
            }
            Act::Vtime(vtime) if vtime <= TOP => self.set_vtime(0, vtime),
            Act::Activate(seat) if seat < 16 => self.activate(seat),
            Act::Select => self.select(),
            Act::Charge(sectors) => self.charge(sectors),
            Act::Exhaust => self.expire(Expiry::Exhaustion, true),
            Act::TimeOut => self.expire(Expiry::Timeout, true),
            Act::Empty => self.expire(Expiry::Emptying, false),
            Act::ActivateInVain(seat) if seat < 16 => refused(self.activate_is_refused(seat)?),
            Act::EmptyInVain => refused(self.expire_is_refused()?),
            _ => Err(Fail::from("no such place")),
        }
    }

    // The entity is in a group.
    fn join(&mut self, entity: Entity, group: u8) -> Result<(), Fail>
        requires { group < 32 }
    {
        self.tape.reserve(1)?;
        let entry = Change::GroupEntry {
            entity,
            group: Some(group),
        };
        self.tape.exchange(&mut self.parts, entry);
        Ok(())
    }

    // The entity gets this weight when it is stamped next.
    fn weigh(&mut self, entity: Entity, weight: u32) -> Result<(), Fail> {
        self.tape.reserve(1)?;
        self.tape
            .exchange(&mut self.parts, Change::Pending { entity, weight });
        Ok(())
    }

    fn set_budget(&mut self, entity: Entity, budget: u32) -> Result<(), Fail>
        requires entity { entity < 48 }
        requires least { 256 ≤ budget }
        requires most { budget ≤ 65536 }
    {
        self.tape.reserve(1)?;
        self.tape
            .exchange(&mut self.parts, Change::Budget { entity, budget });
        Ok(())
    }

    // Each class of the group is at this virtual time.
    fn set_vtime(&mut self, group: u8, vtime: u64) -> Result<(), Fail>
        requires group { group < 32 }
        requires vtime { vtime ≤ 2 ^ 62 }
    {
        self.tape.reserve(1)?;
        let vtimes = Vtimes::same(vtime);
        self.tape
            .exchange(&mut self.parts, Change::Vtime { group, vtimes });
        Ok(())
    }

    fn activate(&mut self, seat: u8) -> Result<(), Fail>
        requires { seat < 16 }
    {
        self.tape.reserve(5)?;
        activate(&mut self.parts, &mut self.tape, seat)?;
        Ok(())
    }

    // Activates, and tells whether that would make a time that is too great.
    fn activate_is_refused(&mut self, seat: u8) -> Result<bool, Fail>
        requires { seat < 16 }
    {
        self.tape.reserve(5)?;
        let answer = activate(&mut self.parts, &mut self.tape, seat);
        Ok(answer == Err(VtimeFull))
    }

    fn select(&mut self) -> Result<(), Fail> {
        self.tape.reserve(11)?;
        select(&mut self.parts, &mut self.tape);
        Ok(())
    }

    fn charge(&mut self, sectors: u32) -> Result<(), Fail> {
        let Some(slot) = self.parts.slot() else {
            return Err(Fail::from("a queue is in service"));
        };
        let budget = self.parts.budget(slot.seat);
        if sectors > budget || slot.service > budget - sectors {
            return Err(Fail::from("the budget has so many sectors left"));
        }
        self.tape.reserve(6)?;
        charge(&mut self.parts, &mut self.tape, sectors)?;
        Ok(())
    }

    fn expire(&mut self, cause: Expiry, queued: bool) -> Result<(), Fail> {
        self.tape.reserve(7)?;
        expire(
            &mut self.parts,
            &mut self.tape,
            cause,
            MAKING.max_budget,
            queued,
        )?;
        Ok(())
    }

    // Expires an emptied queue, and tells whether that is refused.
    fn expire_is_refused(&mut self) -> Result<bool, Fail> {
        self.tape.reserve(7)?;
        let answer = expire(
            &mut self.parts,
            &mut self.tape,
            Expiry::Emptying,
            MAKING.max_budget,
            false,
        );
        Ok(answer == Err(VtimeFull))
    }

    // What stands where the fact says.
    fn seen(&self, fact: Fact) -> Fact {
        match fact {
            Fact::Member(group, entity, ..) => {
                let member = member_in(&self.parts, group, entity);
                Fact::Member(
                    group,
                    entity,
                    member.state,
                    member.start,
                    member.finish,
                    member.weight,
                )
            }
            Fact::Start(group, entity, _) => {
                Fact::Start(group, entity, member_in(&self.parts, group, entity).start)
            }
            Fact::Finish(group, entity, _) => {
                Fact::Finish(group, entity, member_in(&self.parts, group, entity).finish)
            }
            Fact::Vtime(group, _) => Fact::Vtime(group, self.vtime(group)),
            Fact::Budget(entity, _) => Fact::Budget(entity, self.parts.budget(entity)),
            Fact::Serves(..) | Fact::Nobody => match self.parts.slot() {
                Some(slot) => Fact::Serves(slot.seat, slot.service, slot.age),
                None => Fact::Nobody,
            },
        }
    }

    fn vtime(&self, group: u8) -> Option<u64> {
        match self.parts.tree(group) {
            Some(tree) => Some(tree.vtime(Class::BestEffort)),
            None => None,
        }
    }
}

fn refused(is_refused: bool) -> Result<(), Fail> {
    if is_refused {
        Ok(())
    } else {
        Err(Fail::from("the rule is refused"))
    }
}
