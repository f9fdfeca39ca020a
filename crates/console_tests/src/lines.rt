// The ends of a run of lines, at a console that counts its calls.
use crate::fakes::{Counter, Narrow, Pieces};
use script_line::{ScriptEnd, run_lines};
use std::alloc::Global;
use std::io::ErrorKind;
use std::process::Abort;
use std::test::Fail;

const SCRIPT: &[u8] = b"# a comment \x00\xff\n\nhold\n\nattach 0 0 4\n#\nundo 1";

const TEXT: &[u8] = b"call 1\ncall 2\ncall 3\n";

const FOUR_HOLDS: &[u8] = b"hold\nhold\nhold\nhold\n";

// What a run is given: how many bytes a call the reader gives and the writer takes, and where they and the console fail.
#[derive(Clone, Copy)]
struct Given<'a> {
    script: &'a [u8],
    gives: usize,
    takes: usize,
    fails_at: u64,
    kind: ErrorKind,
    room: usize,
    is_silent: bool,
    refused: u64,
    flush_fails_at: u64,
}

// What became of it.
#[derive(Drop)]
struct Ran {
    end: ScriptEnd,
    written: Vec<u8>,
    reads: u64,
    calls: u64,
    flushes: u64,
    flushed: usize,
}

// Nothing fails.
fn nothing_fails(script: &[u8], step: usize) -> Given<'_> {
    Given {
        script,
        gives: step,
        takes: step,
        fails_at: 0,
        kind: ErrorKind::Other,
        room: 1_000_000,
        is_silent: false,
        refused: 0,
        flush_fails_at: 0,
    }
}

fn run(alloc: Global, given: &Given<'_>) -> Ran {
    let mut reader = Pieces {
        bytes: given.script,
        step: given.gives,
        calls: 0,
        fails_at: given.fails_at,
        kind: given.kind,
    };
    let mut writer = Narrow {
        taken: Vec::new(alloc),
        step: given.takes,
        room: given.room,
        is_silent: given.is_silent,
        flushes: 0,
        flush_fails_at: given.flush_fails_at,
        flushed: 0,
    };
    let mut console = Counter {
        calls: 0,
        refused: given.refused,
    };
    let end = run_lines(alloc, &mut reader, &mut writer, &mut console);
    Ran {
        end,
        flushes: writer.flushes,
        flushed: writer.flushed,
        written: writer.taken,
        reads: reader.calls,
        calls: console.calls,
    }
}

// What is told of a run.
#[derive(Clone, Copy, Debug, PartialEq, Eq)]
enum Told {
    End(ScriptEnd),
    // So many bytes of a text were written, from its start on, and nothing else.
    Wrote(usize),
    // Something else, and so many bytes of it.
    WroteOther(usize),
    Reads(u64),
    Calls(u64),
    Flushes(u64),
    // All that was written was flushed.
    AllFlushed(bool),
}

// Tells that again, where the run may write this text.
fn again(ran: &Ran, text: &[u8], told: Told) -> Told {
    let length = ran.written.len();
    match told {
        Told::End(_) => Told::End(ran.end),
        Told::Wrote(_) if text.starts_with(ran.written.as_slice()) => Told::Wrote(length),
        Told::Wrote(_) | Told::WroteOther(_) => Told::WroteOther(length),
        Told::Reads(_) => Told::Reads(ran.reads),
        Told::Calls(_) => Told::Calls(ran.calls),
        Told::Flushes(_) => Told::Flushes(ran.flushes),
        Told::AllFlushed(_) => Told::AllFlushed(ran.flushed == length),
    }
}

// All of that is told of a run again. The number is that of a row.
fn expect(
    rt: &(impl Abort + AllocGlobal),
    given: &Given<'_>,
    text: &[u8],
    all: &[Told],
    row: usize,
) {
    let ran = run(rt.alloc(), given);
    for told in all {
        assert_eq!(rt; again(&ran, text, *told), *told, "in row {row}");
    }
}

// The run of these bytes ends so, and writes this.
fn expect_run(
    rt: &(impl Abort + AllocGlobal),
    script: &[u8],
    end: ScriptEnd,
    text: &[u8],
    row: usize,
) {
    let all = [Told::End(end), Told::Wrote(text.len())];
    expect(rt, &nothing_fails(script, 4096), text, &all, row);
}

#[test]
fn pieces_of_every_length(rt: HostRuntime) {
    for step in 1..60 {
        let all = [Told::End(ScriptEnd::Done), Told::Wrote(TEXT.len())];
        expect(&rt, &nothing_fails(SCRIPT, step), TEXT, &all, step);
    }
}

#[test]
fn last_lines_and_bad_lines(rt: HostRuntime) {
    let rows = [
        ("", ScriptEnd::Done, ""),
        ("\n", ScriptEnd::Done, ""),
        ("hold", ScriptEnd::Done, "call 1\n"),
        ("hold\n", ScriptEnd::Done, "call 1\n"),
        ("hold\n\n", ScriptEnd::Done, "call 1\n"),
        ("#", ScriptEnd::Done, ""),
        (
            "hold\n#\n\nholds\nhold\n",
            ScriptEnd::BadLine(4),
            "call 1\nbad line 4\n",
        ),
        ("hold \n", ScriptEnd::BadLine(1), "bad line 1\n"),
        (" #\n", ScriptEnd::BadLine(1), "bad line 1\n"),
        ("hold\r\n", ScriptEnd::BadLine(1), "bad line 1\n"),
        (
            "hold\nundo 01",
            ScriptEnd::BadLine(2),
            "call 1\nbad line 2\n",
        ),
        ("hold\n\x00", ScriptEnd::BadLine(2), "call 1\nbad line 2\n"),
    ];
    for (row, (script, end, text)) in rows.iter().enumerate() {
        expect_run(&rt, script.as_bytes(), *end, text.as_bytes(), row);
    }
}

// A line of so many bytes, with its end or without, runs so.
#[test]
fn long_lines(rt: HostRuntime) -> Result<(), Fail> {
    let bad = ScriptEnd::BadLine(1);
    let rows = [
        (256, ScriptEnd::Done, false, ""),
        (256, ScriptEnd::Done, true, ""),
        (257, bad, false, "bad line 1\n"),
        (257, bad, true, "bad line 1\n"),
    ];
    for (row, (count, end, is_ended, text)) in rows.iter().enumerate() {
        let mut line = vec![in rt.alloc(); b'#'; *count]?;
        if *is_ended {
            line.push(b'\n')?;
        }
        expect_run(&rt, line.as_slice(), *end, text.as_bytes(), row);
    }
    Ok(())
}

// A line is too long as soon as its 257th byte is there.
#[test]
fn long_line_is_found_early(rt: HostRuntime) -> Result<(), Fail> {
    let line = vec![in rt.alloc(); b'#'; 300]?;
    let mut given = nothing_fails(line.as_slice(), 1);
    given.takes = 100;
    given.room = 100;
    given.fails_at = 258;
    let all = [Told::End(ScriptEnd::BadLine(1)), Told::Reads(257)];
    expect(&rt, &given, &[], &all, 0);
    Ok(())
}

// A last line, the same with its end, and then one byte more.
#[test]
fn line_past_the_last(rt: HostRuntime) -> Result<(), Fail> {
    let mut script = vec![in rt.alloc(); b'\n'; 1_048_575]?;
    let rows = [
        ("hold", ScriptEnd::Done, "call 1\n"),
        ("\n", ScriptEnd::Done, "call 1\n"),
        (
            "\n",
            ScriptEnd::BadLine(1_048_577),
            "call 1\nbad line 1048577\n",
        ),
    ];
    for (row, (more, end, text)) in rows.iter().enumerate() {
        script.extend_from_slice(more.as_bytes())?;
        expect_run(&rt, script.as_slice(), *end, text.as_bytes(), row);
    }
    Ok(())
}

// A read fails at each call in turn: the lines that were whole by then have run, and no other.
#[test]
fn reads_fail(rt: HostRuntime) {
    let rows = [(1, 0), (5, 0), (6, 7), (7, 7), (11, 7), (12, 14), (16, 14)];
    for (row, (fails_at, length)) in rows.iter().enumerate() {
        for kind in [ErrorKind::Other, ErrorKind::Interrupted] {
            let mut given = nothing_fails(b"hold\n\nhold\nhold", 1);
            given.takes = 100;
            given.fails_at = *fails_at;
            given.kind = kind;
            let all = [
                Told::End(ScriptEnd::ReadFault),
                Told::Wrote(*length),
                Told::Reads(*fails_at),
            ];
            expect(&rt, &given, TEXT, &all, row);
        }
    }
}

// A write fails after each number of bytes: those are written, and no line runs after it.
#[test]
fn writes_fail(rt: HostRuntime) {
    let text = b"call 1\nbad line 2\n".as_slice();
    for room in 0..18 {
        for is_silent in [false, true] {
            let mut given = nothing_fails(b"hold\nholds\nhold\n", 3);
            given.takes = 2;
            given.room = room;
            given.is_silent = is_silent;
            let all = [
                Told::End(ScriptEnd::WriteFault),
                Told::Wrote(room),
                Told::Calls(1),
            ];
            expect(&rt, &given, text, &all, room);
        }
    }
}

// Each end: what the run is given besides its script, how it ends, and how many reads it makes.
fn ends<'a>(script: &'a [u8]) -> [(Given<'a>, ScriptEnd, u64); 5] {
    let given = nothing_fails(script, 7);
    let mut read_fails = given;
    read_fails.fails_at = 2;
    let mut write_fails = given;
    write_fails.room = 3;
    let mut memory_ends = given;
    memory_ends.refused = 2;
    let mut is_bad = given;
    is_bad.script = b"hold\nhold 1\nhold\n";
    [
        (given, ScriptEnd::Done, 4),
        (is_bad, ScriptEnd::BadLine(2), 2),
        (read_fails, ScriptEnd::ReadFault, 2),
        (write_fails, ScriptEnd::WriteFault, 1),
        (memory_ends, ScriptEnd::OutOfMemory, 2),
    ]
}

// Before each read and at each end there is a flush, and at the end nothing is left that was not flushed.
#[test]
fn flushed_before_each_read_and_at_each_end(rt: HostRuntime) {
    for (row, (given, end, reads)) in ends(FOUR_HOLDS).iter().enumerate() {
        let all = [
            Told::End(*end),
            Told::Reads(*reads),
            Told::Flushes(reads.wrapping_add(1)),
            Told::AllFlushed(true),
        ];
        expect(&rt, given, &[], &all, row);
    }
}

// The flush at the end fails: a write fault, whatever else ended the run, and what was written stays.
#[test]
fn last_flush_fails(rt: HostRuntime) {
    for (row, (given, _, reads)) in ends(FOUR_HOLDS).iter().enumerate() {
        let whole = run(rt.alloc(), given);
        let mut fails = *given;
        fails.flush_fails_at = reads.wrapping_add(1);
        let all = [
            Told::End(ScriptEnd::WriteFault),
            Told::Wrote(whole.written.len()),
            Told::Reads(*reads),
        ];
        expect(&rt, &fails, whole.written.as_slice(), &all, row);
    }
}

// The flush before the read of this number fails: the lines that were whole by then have run, nothing more is read, and no
// line runs after it.
#[test]
fn flushes_fail(rt: HostRuntime) {
    let rows = [(1, 0), (2, 0), (6, 1), (7, 1), (12, 2), (16, 2), (17, 3)];
    for (row, (fails_at, calls)) in rows.iter().enumerate() {
        let mut given = nothing_fails(b"hold\n\nhold\nhold", 1);
        given.flush_fails_at = *fails_at;
        let all = [
            Told::End(ScriptEnd::WriteFault),
            Told::Reads(fails_at.wrapping_sub(1)),
            Told::Calls(*calls),
            // A call prints seven bytes.
            Told::Wrote(calls.wrapping_mul(7) as usize),
        ];
        expect(&rt, &given, TEXT, &all, row);
    }
}

#[test]
fn memory_ends(rt: HostRuntime) {
    let mut given = nothing_fails(SCRIPT, 4);
    given.takes = 2;
    given.refused = 2;
    let text = b"call 1\n".as_slice();
    let all = [
        Told::End(ScriptEnd::OutOfMemory),
        Told::Wrote(text.len()),
        Told::Calls(1),
    ];
    expect(&rt, &given, text, &all, 0);
}
