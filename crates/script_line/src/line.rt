// The lines of a script.
use super::look::Look;
use sector_core::{Class, Scheduler};

/// A line of a script that is not empty and no comment.
#[derive(Clone, Copy, PartialEq, Eq)]
pub enum Line {
    /// `attach SEAT GROUP PRIO`, of best effort
    Attach {
        seat: u8,
        group: u8,
        prio: u8,
    },
    /// `attach SEAT GROUP PRIO CLASS`
    ClassAttach {
        seat: u8,
        group: u8,
        prio: u8,
        class: Class,
    },
    /// `read SEAT SESSION START COUNT`
    Read {
        seat: u8,
        session: u64,
        start: u64,
        count: u16,
    },
    /// `write SEAT SESSION START COUNT BYTE`
    Write {
        seat: u8,
        session: u64,
        start: u64,
        count: u16,
        byte: u8,
    },
    /// `write SEAT SESSION START COUNT @SECTOR`, with the bytes of the payload from that sector on
    WriteFrom {
        seat: u8,
        session: u64,
        start: u64,
        count: u16,
        from: u64,
    },
    /// `discard SEAT SESSION START COUNT`
    Discard {
        seat: u8,
        session: u64,
        start: u64,
        count: u16,
    },
    /// `reap SEAT SESSION`
    Reap {
        seat: u8,
        session: u64,
    },
    /// `leave SEAT`
    Leave {
        seat: u8,
    },
    /// `dispatch`
    Dispatch,
    /// `finish TAG ISSUE` and how it ended
    Finish {
        tag: u8,
        issue: u64,
        ending: Ending,
    },
    /// `work TAG ISSUE`
    Work {
        tag: u8,
        issue: u64,
    },
    /// `requeue TAG ISSUE`
    Requeue {
        tag: u8,
        issue: u64,
    },
    /// `hold`
    Hold,
    /// `release`
    Release,
    /// `undo K`
    Undo {
        k: u32,
    },
    /// `redo K`
    Redo {
        k: u32,
    },
    /// `group PARENT WEIGHT`
    Group {
        parent: u8,
        weight: u16,
    },
    /// `drop GROUP`
    Drop {
        group: u8,
    },
    /// `weight GROUP WEIGHT`
    Weight {
        group: u8,
        weight: u16,
    },
    /// `freeze`
    Freeze,
    /// `thaw`
    Thaw,
    /// `switch` and the name of a scheduler
    Switch {
        scheduler: Scheduler,
    },
    /// `tick`
    Tick,
    /// `sector N`, a query
    Sector {
        number: u64,
    },
    /// `queue SEAT`, a query
    Queue {
        seat: u8,
    },
    /// `line`, a query
    Cursor,
    /// `vtime GROUP`, a query, of best effort
    Vtime {
        group: u8,
    },
    /// `vtime GROUP CLASS`, a query
    ClassVtime {
        group: u8,
        class: Class,
    },
    /// `entity N`, a query
    Entity {
        number: u8,
    },
    /// `class N`, a query
    Class {
        number: u8,
    },
    /// `show` and what is to be shown, a query
    Show {
        look: Look,
    },
}

/// How a request of a `finish` line ended.
#[derive(Clone, Copy, PartialEq, Eq)]
pub enum Ending {
    /// `stored`
    Stored,
    /// `fill BYTE`
    Fill(u8),
    /// `short`
    Short,
    /// `fault`
    Fault,
}
