// Each form of a line, the silent lines, and numbers.
use script_line::{Ending, Line, Look, line_of, number};
use sector_core::{Class, Scheduler};

// A line, as it is spelled and as it is.
const FORMS: [(&[u8], Line); 64] = [
    (
        b"attach 0 1 4",
        Line::Attach {
            seat: 0,
            group: 1,
            prio: 4,
        },
    ),
    (
        b"attach 255 255 255",
        Line::Attach {
            seat: 255,
            group: 255,
            prio: 255,
        },
    ),
    (
        b"attach 2 0 7 rt",
        Line::ClassAttach {
            seat: 2,
            group: 0,
            prio: 7,
            class: Class::RealTime,
        },
    ),
    (
        b"attach 0 0 4 be",
        Line::ClassAttach {
            seat: 0,
            group: 0,
            prio: 4,
            class: Class::BestEffort,
        },
    ),
    (
        b"attach 255 254 253 idle",
        Line::ClassAttach {
            seat: 255,
            group: 254,
            prio: 253,
            class: Class::Idle,
        },
    ),
    (
        b"read 3 18446744073709551615 0 65535",
        Line::Read {
            seat: 3,
            session: 18446744073709551615,
            start: 0,
            count: 65535,
        },
    ),
    (
        b"write 3 1 100 8 171",
        Line::Write {
            seat: 3,
            session: 1,
            start: 100,
            count: 8,
            byte: 171,
        },
    ),
    (
        b"write 3 1 100 8 @0",
        Line::WriteFrom {
            seat: 3,
            session: 1,
            start: 100,
            count: 8,
            from: 0,
        },
    ),
    (
        b"write 255 18446744073709551615 7 65535 @18446744073709551615",
        Line::WriteFrom {
            seat: 255,
            session: 18446744073709551615,
            start: 7,
            count: 65535,
            from: 18446744073709551615,
        },
    ),
    (
        b"discard 3 18446744073709551615 7 65535",
        Line::Discard {
            seat: 3,
            session: 18446744073709551615,
            start: 7,
            count: 65535,
        },
    ),
    (
        b"reap 15 2",
        Line::Reap {
            seat: 15,
            session: 2,
        },
    ),
    (b"leave 0", Line::Leave { seat: 0 }),
    (b"leave 255", Line::Leave { seat: 255 }),
    (b"dispatch", Line::Dispatch),
    (
        b"finish 0 1 stored",
        Line::Finish {
            tag: 0,
            issue: 1,
            ending: Ending::Stored,
        },
    ),
    (
        b"finish 7 10 fill 0",
        Line::Finish {
            tag: 7,
            issue: 10,
            ending: Ending::Fill(0),
        },
    ),
    (
        b"finish 7 10 short",
        Line::Finish {
            tag: 7,
            issue: 10,
            ending: Ending::Short,
        },
    ),
    (
        b"finish 255 10 fault",
        Line::Finish {
            tag: 255,
            issue: 10,
            ending: Ending::Fault,
        },
    ),
    (b"work 0 3", Line::Work { tag: 0, issue: 3 }),
    (
        b"work 255 18446744073709551615",
        Line::Work {
            tag: 255,
            issue: u64::MAX,
        },
    ),
    (b"requeue 0 4", Line::Requeue { tag: 0, issue: 4 }),
    (
        b"requeue 255 18446744073709551615",
        Line::Requeue {
            tag: 255,
            issue: 18446744073709551615,
        },
    ),
    (b"hold", Line::Hold),
    (b"release", Line::Release),
    (b"undo 4294967295", Line::Undo { k: 4294967295 }),
    (b"redo 0", Line::Redo { k: 0 }),
    (
        b"group 0 100",
        Line::Group {
            parent: 0,
            weight: 100,
        },
    ),
    (
        b"group 255 65535",
        Line::Group {
            parent: 255,
            weight: 65535,
        },
    ),
    (b"drop 0", Line::Drop { group: 0 }),
    (b"drop 255", Line::Drop { group: 255 }),
    (
        b"weight 1 1000",
        Line::Weight {
            group: 1,
            weight: 1000,
        },
    ),
    (
        b"weight 255 65535",
        Line::Weight {
            group: 255,
            weight: 65535,
        },
    ),
    (b"freeze", Line::Freeze),
    (b"thaw", Line::Thaw),
    (
        b"switch none",
        Line::Switch {
            scheduler: Scheduler::Plain,
        },
    ),
    (
        b"switch bfq",
        Line::Switch {
            scheduler: Scheduler::Bfq,
        },
    ),
    (b"tick", Line::Tick),
    (b"sector 1024", Line::Sector { number: 1024 }),
    (b"queue 0", Line::Queue { seat: 0 }),
    (b"queue 255", Line::Queue { seat: 255 }),
    (b"line", Line::Cursor),
    (b"vtime 0", Line::Vtime { group: 0 }),
    (b"vtime 255", Line::Vtime { group: 255 }),
    (
        b"vtime 0 rt",
        Line::ClassVtime {
            group: 0,
            class: Class::RealTime,
        },
    ),
    (
        b"vtime 31 be",
        Line::ClassVtime {
            group: 31,
            class: Class::BestEffort,
        },
    ),
    (
        b"vtime 255 idle",
        Line::ClassVtime {
            group: 255,
            class: Class::Idle,
        },
    ),
    (b"entity 47", Line::Entity { number: 47 }),
    (b"entity 255", Line::Entity { number: 255 }),
    (b"class 0", Line::Class { number: 0 }),
    (b"class 16", Line::Class { number: 16 }),
    (b"class 47", Line::Class { number: 47 }),
    (b"class 255", Line::Class { number: 255 }),
    (
        b"show seat 0",
        Line::Show {
            look: Look::Seat { seat: 0 },
        },
    ),
    (
        b"show seat 255",
        Line::Show {
            look: Look::Seat { seat: 255 },
        },
    ),
    (
        b"show outbox 255",
        Line::Show {
            look: Look::Outbox { seat: 255 },
        },
    ),
    (
        b"show queue 15",
        Line::Show {
            look: Look::Queue { seat: 15 },
        },
    ),
    (
        b"show requeued",
        Line::Show {
            look: Look::Requeued,
        },
    ),
    (b"show flight", Line::Show { look: Look::Flight }),
    (
        b"show service",
        Line::Show {
            look: Look::Service,
        },
    ),
    (
        b"show tree 255",
        Line::Show {
            look: Look::Tree { group: 255 },
        },
    ),
    (b"show host", Line::Show { look: Look::Host }),
    (b"show state", Line::Show { look: Look::State }),
    (
        b"show stored 18446744073709551615",
        Line::Show {
            look: Look::Stored { from: u64::MAX },
        },
    ),
    (
        b"show step 4294967295",
        Line::Show {
            look: Look::Step { k: u32::MAX },
        },
    ),
];

#[test]
fn each_form_is_read(rt: HostRuntime) {
    for (text, want) in FORMS {
        assert!(rt; line_of(text) == Some(want), "{text:?}");
    }
}

// A script passes over these two, so no run of the program shows that they are no lines; tests/bad_input.py has all others.
#[test]
fn silent_lines_are_none(rt: HostRuntime) {
    for text in ["", "#"] {
        assert!(rt; line_of(text.as_bytes()).is_none(), "{text}");
    }
}

// Lines with a class that are none; each is one number, letter, space or word away from a line.
const CLASSLESS: &str = "\
attach 0 0 4 real
attach 0 0 4 RT
attach 0 0 4 r
attach 0 0 4 rtt
attach 0 0 4 xrt
attach 0 0 4rt
attach 0 0 4  rt
attach 0 0 4 rt\x20
attach 0 0 4 rt x
attach 0 0 4 rt rt
attach 0 0 4 rt be
attach 0 0 rt 4
attach 0 0 4 idl
attach 0 0 4 1
attach 0 0 rt
attach 0 0 4 4 rt
attach 0 0 256 rt
attach 256 0 4 be
attach 0 256 4 idle
attach 0 0 04 be
attach rt
attach rt 0 0 4
attachrt
vtime rt
vtime 0 xx
vtime 0 Idle
vtime 256 be
vtime 00 be
vtime 0 rt 1
vtime 0 0 rt
vtime 0 be idle
class
class rt
class 0 rt
class 256
class 01
class -1
class 0 0
classes 0
entity 0 rt
drop 0 be
read 0 1 0 8 rt
leave 0 idle
dispatch rt
hold be
finish 0 1 rt
switch rt
show tree 0 rt";

// Lines with a sector of the payload that are none; each is one number, sign, space or word away from a line.
const SOURCELESS: &str = "\
write 0 1 9 1 @
write 0 1 9 1 @01
write 0 1 9 1 @00
write 0 1 9 1 @+1
write 0 1 9 1 @-1
write 0 1 9 1 @0x1
write 0 1 9 1 @18446744073709551616
write 0 1 9 1 @@1
write 0 1 9 1 @ 1
write 0 1 9 1 1@
write 0 1 9 1 #1
write 0 1 9 1 @1\x20
write 0 1 9 1  @1
write 0 1 9 1 @1 @1
write 0 1 9 1 @1 17
write 0 1 9 1 17 @1
write 0 1 9 1@1
write 0 1 9 @1
write @1
write@1
write 0 1 9 @1 1
write 0 @1 9 1 1
write 256 1 9 1 @1
write 0 18446744073709551616 9 1 @1
write 0 1 18446744073709551616 1 @1
write 0 1 9 65536 @1
write 0 1 9 01 @1
writes 0 1 9 1 @1
Write 0 1 9 1 @1
read 0 1 9 1 @1
read 0 1 9 @1
discard 0 1 9 1 @1
attach 0 0 4 @1
finish 0 3 fill @1
sector @1
show stored @1
undo @1
dispatch @1
switch @1";

#[test]
fn no_line_ends_in_another_word(rt: HostRuntime) {
    for text in CLASSLESS.lines() {
        assert!(rt; line_of(text.as_bytes()).is_none(), "{text}");
    }
    for text in SOURCELESS.lines() {
        assert!(rt; line_of(text.as_bytes()).is_none(), "{text}");
    }
}

#[test]
fn numbers_are_read(rt: HostRuntime) {
    let words = [
        (b"0".as_slice(), Some(0)),
        (b"10".as_slice(), Some(10)),
        (
            b"18446744073709551615".as_slice(),
            Some(18446744073709551615),
        ),
        (b"18446744073709551616".as_slice(), None),
        (b"".as_slice(), None),
        (b"05".as_slice(), None),
        (b"+5".as_slice(), None),
        (b"-5".as_slice(), None),
        (b"5 ".as_slice(), None),
        (b"5a".as_slice(), None),
    ];
    for (word, want) in words {
        assert_eq!(rt; number(word), want);
    }
}
