// Lines from numbers, where each number is within its type.
ghost use Rattle.script_line.specs.Plain.{FitsOrNone};

use super::line::Line;
use sector_core::Class;

/// `attach SEAT GROUP PRIO`
pub fn attach(seat: u64, group: u64, prio: u64) -> Option<Line>
    ensures { FitsOrNone (Line.Attach seat group prio) result }
{
    match (u8::try_from(seat), u8::try_from(group), u8::try_from(prio)) {
        (Ok(seat), Ok(group), Ok(prio)) => Some(Line::Attach { seat, group, prio }),
        _ => None,
    }
}

/// `attach SEAT GROUP PRIO CLASS`
pub fn class_attach(seat: u64, group: u64, prio: u64, class: Class) -> Option<Line>
    ensures { FitsOrNone (Line.ClassAttach seat group prio class) result }
{
    match (u8::try_from(seat), u8::try_from(group), u8::try_from(prio)) {
        (Ok(seat), Ok(group), Ok(prio)) => Some(Line::ClassAttach {
            seat,
            group,
            prio,
            class,
        }),
        _ => None,
    }
}

/// `read SEAT SESSION START COUNT`
pub fn read(seat: u64, session: u64, start: u64, count: u64) -> Option<Line>
    ensures { FitsOrNone (Line.Read seat session start count) result }
{
    match (u8::try_from(seat), u16::try_from(count)) {
        (Ok(seat), Ok(count)) => Some(Line::Read {
            seat,
            session,
            start,
            count,
        }),
        _ => None,
    }
}

/// `write SEAT SESSION START COUNT BYTE`
pub fn write(seat: u64, session: u64, start: u64, count: u64, byte: u64) -> Option<Line>
    ensures { FitsOrNone (Line.Write seat session start count byte) result }
{
    match (u8::try_from(seat), u16::try_from(count), u8::try_from(byte)) {
        (Ok(seat), Ok(count), Ok(byte)) => Some(Line::Write {
            seat,
            session,
            start,
            count,
            byte,
        }),
        _ => None,
    }
}

/// `write SEAT SESSION START COUNT @SECTOR`
pub fn write_from(seat: u64, session: u64, start: u64, count: u64, from: u64) -> Option<Line>
    ensures { FitsOrNone (Line.WriteFrom seat session start count from) result }
{
    match (u8::try_from(seat), u16::try_from(count)) {
        (Ok(seat), Ok(count)) => Some(Line::WriteFrom {
            seat,
            session,
            start,
            count,
            from,
        }),
        _ => None,
    }
}

/// `discard SEAT SESSION START COUNT`
pub fn discard(seat: u64, session: u64, start: u64, count: u64) -> Option<Line>
    ensures { FitsOrNone (Line.Discard seat session start count) result }
{
    match (u8::try_from(seat), u16::try_from(count)) {
        (Ok(seat), Ok(count)) => Some(Line::Discard {
            seat,
            session,
            start,
            count,
        }),
        _ => None,
    }
}

/// `reap SEAT SESSION`
pub fn reap(seat: u64, session: u64) -> Option<Line>
    ensures { FitsOrNone (Line.Reap seat session) result }
{
    match u8::try_from(seat) {
        Ok(seat) => Some(Line::Reap { seat, session }),
        Err(_) => None,
    }
}

/// `leave SEAT`
pub fn leave(seat: u64) -> Option<Line>
    ensures { FitsOrNone (Line.Leave seat) result }
{
    match u8::try_from(seat) {
        Ok(seat) => Some(Line::Leave { seat }),
        Err(_) => None,
    }
}

/// `work TAG ISSUE`
pub fn work(tag: u64, issue: u64) -> Option<Line>
    ensures { FitsOrNone (Line.Work tag issue) result }
{
    match u8::try_from(tag) {
        Ok(tag) => Some(Line::Work { tag, issue }),
        Err(_) => None,
    }
}

/// `requeue TAG ISSUE`
pub fn requeue(tag: u64, issue: u64) -> Option<Line>
    ensures { FitsOrNone (Line.Requeue tag issue) result }
{
    match u8::try_from(tag) {
        Ok(tag) => Some(Line::Requeue { tag, issue }),
        Err(_) => None,
    }
}

/// `undo K`
pub fn undo(k: u64) -> Option<Line>
    ensures { FitsOrNone (Line.Undo k) result }
{
    match u32::try_from(k) {
        Ok(k) => Some(Line::Undo { k }),
        Err(_) => None,
    }
}

/// `redo K`
pub fn redo(k: u64) -> Option<Line>
    ensures { FitsOrNone (Line.Redo k) result }
{
    match u32::try_from(k) {
        Ok(k) => Some(Line::Redo { k }),
        Err(_) => None,
    }
}

/// `queue SEAT`
pub fn queue(seat: u64) -> Option<Line>
    ensures { FitsOrNone (Line.Queue seat) result }
{
    match u8::try_from(seat) {
        Ok(seat) => Some(Line::Queue { seat }),
        Err(_) => None,
    }
}

/// `group PARENT WEIGHT`
pub fn group(parent: u64, weight: u64) -> Option<Line>
    ensures { FitsOrNone (Line.Group parent weight) result }
{
    match (u8::try_from(parent), u16::try_from(weight)) {
        (Ok(parent), Ok(weight)) => Some(Line::Group { parent, weight }),
        _ => None,
    }
}

/// `drop GROUP`
pub fn drop_group(group: u64) -> Option<Line>
    ensures { FitsOrNone (Line.Drop group) result }
{
    match u8::try_from(group) {
        Ok(group) => Some(Line::Drop { group }),
        Err(_) => None,
    }
}

/// `weight GROUP WEIGHT`
pub fn weight(group: u64, weight: u64) -> Option<Line>
    ensures { FitsOrNone (Line.Weight group weight) result }
{
    match (u8::try_from(group), u16::try_from(weight)) {
        (Ok(group), Ok(weight)) => Some(Line::Weight { group, weight }),
        _ => None,
    }
}

/// `vtime GROUP`
pub fn vtime(group: u64) -> Option<Line>
    ensures { FitsOrNone (Line.Vtime group) result }
{
    match u8::try_from(group) {
        Ok(group) => Some(Line::Vtime { group }),
        Err(_) => None,
    }
}

/// `vtime GROUP CLASS`
pub fn class_vtime(group: u64, class: Class) -> Option<Line>
    ensures { FitsOrNone (Line.ClassVtime group class) result }
{
    match u8::try_from(group) {
        Ok(group) => Some(Line::ClassVtime { group, class }),
        Err(_) => None,
    }
}

/// `entity N`
pub fn entity(number: u64) -> Option<Line>
    ensures { FitsOrNone (Line.Entity number) result }
{
    match u8::try_from(number) {
        Ok(number) => Some(Line::Entity { number }),
        Err(_) => None,
    }
}

/// `class N`
pub fn class_of(number: u64) -> Option<Line>
    ensures { FitsOrNone (Line.Class number) result }
{
    match u8::try_from(number) {
        Ok(number) => Some(Line::Class { number }),
        Err(_) => None,
    }
}
