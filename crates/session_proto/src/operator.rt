// What the operator sends.
ghost use Rattle.std.specs.Prelude.{◌≡◌, ◌∷◌, ◌++◌, OnOk};
ghost use Rattle.std.specs.Int.{w8, w16, w32};
ghost use Rattle.std.proofs.Common.{rules};
ghost use Rattle.session_proto.specs.Reading.{Gives};
ghost use Rattle.session_proto.specs.Fields.{big_endian};
ghost use Rattle.session_proto.specs.Kinds.{read_by};
ghost use Rattle.session_proto.specs.Operator.{operator_body, OperatorFits, operator_kinds, operator_at, scheduler_number, scheduler_of_number, group_make_at, group_drop_at, set_weight_at, switch_at, undo_at, redo_at};
ghost use Rattle.session_proto.specs.OperatorLaws.{operator_in_limits, operator_again, operator_spelled};

use super::fault::{Fault, ReadError};
use super::fields::{ended, named, put_u8, put_u16, put_u32, u8_of, u16_of, u32_of};
use super::side::Side;
use super::version::Version;
use host_calls::OperatorCall;
use sector_core::Scheduler;
use std::alloc::{AllocError, Global};

/// The side of the operator: a call that it sends. Each has a frame, the same in each version.
#[derive(Clone, Copy, Debug, PartialEq, Eq)]
pub struct Operator(pub OperatorCall);

impl Side for Operator {
    ghost MOST = { 32787 };

    ghost body = { λ c. operator_body c.0 };

    ghost fits = { λ _ c. OperatorFits c.0 };

    ghost body_at = { λ _. operator_at };

    ghost few = { Prim.search rules };

    ghost in_limits = { λ _. operator_in_limits };

    ghost again = { λ _. operator_again };

    ghost spelled = { λ _. operator_spelled };

    // That of all sides, though no kind of the operator's is longer than 5 bytes: a longer body is the wrong one for its kind.
    const MOST: u32 = 32_787;

    fn put_body(&self, _version: Version, out: &mut Vec<u8>) -> Result<(), AllocError> {
        put_call(out, self.0)
    }

    #[tactic(auto, unfolding(crate::specs::Operator::operator_at))]
    fn read_body(_alloc: Global, _version: Version, bytes: &[u8]) -> Result<Operator, ReadError> {
        Ok(Operator(call_of(bytes)?))
    }
}

// Appends the body of a call.
fn put_call(out: &mut Vec<u8>, call: OperatorCall) -> Result<(), AllocError>
    requires { OperatorFits call }
    ensures { OnOk result (out.new.items ≡ out.old.items ++ operator_body call) }
{
    match call {
        OperatorCall::GroupMake { parent, weight } => put_weight(out, 0x11, parent, weight)?,
        OperatorCall::GroupDrop { group } => {
            out.push(0x12)?;
            put_u8(out, group)?;
        }
        OperatorCall::SetWeight { group, weight } => put_weight(out, 0x13, group, weight)?,
        OperatorCall::Freeze => out.push(0x14)?,
        OperatorCall::Thaw => out.push(0x15)?,
        OperatorCall::Switch { scheduler } => {
            out.push(0x16)?;
            put_u8(out, number_of(scheduler))?;
        }
        OperatorCall::Tick => out.push(0x17)?,
        OperatorCall::Hold => out.push(0x18)?,
        OperatorCall::Release => out.push(0x19)?,
        OperatorCall::Undo { k } => put_steps(out, 0x1a, k)?,
        OperatorCall::Redo { k } => put_steps(out, 0x1b, k)?,
        OperatorCall::Stop => out.push(0x1c)?,
    }
    Ok(())
}

// The call that a body says, by its kind.
fn call_of(bytes: &[u8]) -> Result<OperatorCall, ReadError>
    ensures { Gives result (read_by operator_kinds bytes.now) }
{
    let Some((kind, fields)) = bytes.split_first() else {
        return Err(ReadError::Fault(Fault::BadKind));
    };
    match *kind {
        0x11 => group_make_of(fields),
        0x12 => group_drop_of(fields),
        0x13 => set_weight_of(fields),
        0x14 => ended(OperatorCall::Freeze, fields),
        0x15 => ended(OperatorCall::Thaw, fields),
        0x16 => switch_of(fields),
        0x17 => ended(OperatorCall::Tick, fields),
        0x18 => ended(OperatorCall::Hold, fields),
        0x19 => ended(OperatorCall::Release, fields),
        0x1a => undo_of(fields),
        0x1b => redo_of(fields),
        0x1c => ended(OperatorCall::Stop, fields),
        _ => Err(ReadError::Fault(Fault::BadKind)),
    }
}

// Appends a kind, a group and a weight.
fn put_weight(out: &mut Vec<u8>, kind: u8, group: u8, weight: u16) -> Result<(), AllocError>
    ensures { OnOk result (out.new.items ≡ out.old.items ++ (kind ∷ big_endian w8 group ++ big_endian w16 weight)) }
{
    out.push(kind)?;
    put_u8(out, group)?;
    put_u16(out, weight)
}

// Appends a kind and a count of steps.
fn put_steps(out: &mut Vec<u8>, kind: u8, k: u32) -> Result<(), AllocError>
    ensures { OnOk result (out.new.items ≡ out.old.items ++ kind ∷ big_endian w32 k) }
{
    out.push(kind)?;
    put_u32(out, k)
}

fn number_of(scheduler: Scheduler) -> u8
    ensures { result ≡ scheduler_number scheduler }
{
    match scheduler {
        Scheduler::Plain => 0,
        Scheduler::Bfq => 1,
    }
}

#[tactic(auto, unfolding(crate::specs::Operator::scheduler_of_number))]
fn scheduler_of(number: u8) -> Option<Scheduler>
    ensures { result ≡ scheduler_of_number number }
{
    match number {
        0 => Some(Scheduler::Plain),
        1 => Some(Scheduler::Bfq),
        _ => None,
    }
}

// The readers of kinds: each reads its kind's fields, to the end of the body.

#[tactic(auto, unfolding(crate::specs::Operator::group_make_at))]
fn group_make_of(fields: &[u8]) -> Result<OperatorCall, ReadError>
    ensures { Gives result (group_make_at fields.now) }
{
    let (parent, fields) = u8_of(fields)?;
    let (weight, fields) = u16_of(fields)?;
    ended(OperatorCall::GroupMake { parent, weight }, fields)
}

#[tactic(auto, unfolding(crate::specs::Operator::group_drop_at))]
fn group_drop_of(fields: &[u8]) -> Result<OperatorCall, ReadError>
    ensures { Gives result (group_drop_at fields.now) }
{
    let (group, fields) = u8_of(fields)?;
    ended(OperatorCall::GroupDrop { group }, fields)
}

#[tactic(auto, unfolding(crate::specs::Operator::set_weight_at))]
fn set_weight_of(fields: &[u8]) -> Result<OperatorCall, ReadError>
    ensures { Gives result (set_weight_at fields.now) }
{
    let (group, fields) = u8_of(fields)?;
    let (weight, fields) = u16_of(fields)?;
    ended(OperatorCall::SetWeight { group, weight }, fields)
}

#[tactic(auto, unfolding(crate::specs::Operator::switch_at))]
fn switch_of(fields: &[u8]) -> Result<OperatorCall, ReadError>
    ensures { Gives result (switch_at fields.now) }
{
    let (number, fields) = u8_of(fields)?;
    let scheduler = named(scheduler_of(number))?;
    ended(OperatorCall::Switch { scheduler }, fields)
}

#[tactic(auto, unfolding(crate::specs::Operator::undo_at))]
fn undo_of(fields: &[u8]) -> Result<OperatorCall, ReadError>
    ensures { Gives result (undo_at fields.now) }
{
    let (k, fields) = u32_of(fields)?;
    ended(OperatorCall::Undo { k }, fields)
}

#[tactic(auto, unfolding(crate::specs::Operator::redo_at))]
fn redo_of(fields: &[u8]) -> Result<OperatorCall, ReadError>
    ensures { Gives result (redo_at fields.now) }
{
    let (k, fields) = u32_of(fields)?;
    ended(OperatorCall::Redo { k }, fields)
}
