// Writes that take their bytes from a payload: each line, and what it prints.
use crate::host::usual;
use base_image::ZeroImage;
use bytes::Bytes;
use script_host::run_script_over;
use script_line::ScriptEnd;
use std::alloc::Global;
use std::test::Fail;

// Two sectors and a byte: each byte 0x41, each byte 0x42, and one of 0x43.
fn two_and_a_byte(alloc: Global) -> Result<Bytes, Fail> {
    let mut bytes = vec![in alloc; 0x41; 512]?;
    let second = vec![in alloc; 0x42; 512]?;
    bytes.extend_from_slice(second.as_slice())?;
    bytes.push(0x43)?;
    Ok(Bytes::from_vec(bytes)?)
}

// How a script ends over a payload, and what it prints.
fn run(alloc: Global, script: &str, payload: Option<Bytes>) -> Result<(ScriptEnd, Vec<u8>), Fail> {
    let mut reader = script.as_bytes();
    let mut written = Vec::new(alloc);
    let image = ZeroImage::new(1024);
    let end = run_script_over(alloc, usual()?, &mut reader, &mut written, image, payload);
    Ok((end, written))
}

// What a session is told of a write, behind `attached 1`; or nothing, if the line is a bad one, which is the second of the script.
fn told(alloc: Global, line: &str, payload: Option<Bytes>) -> Result<Option<Vec<u8>>, Fail> {
    let script = format!(in alloc; "attach 0 0 4\n{line}\n")?;
    let (end, written) = run(alloc, script.as_str(), payload)?;
    let rest = written
        .as_slice()
        .strip_prefix(b"attached 1\n")
        .ok_or("the answer to an attach")?;
    match end {
        ScriptEnd::Done => Ok(Some(Vec::from_slice(alloc, rest)?)),
        ScriptEnd::BadLine(2) if rest == b"bad line 2\n".as_slice() => Ok(None),
        _ => Err(Fail::from("another end")),
    }
}

// Of these each sector that a write asks for is there. A write of no sector, or of more than 64, asks for none, at the end too.
const THERE: &str = "\
write 0 1 9 1 @0 -> queued 2
write 0 1 9 1 @1 -> queued 2
write 0 1 9 2 @0 -> queued 2
write 0 1 9 0 @0 -> refused 12
write 0 1 9 0 @2 -> refused 12
write 0 1 9 65 @0 -> refused 12
write 0 1 9 65 @2 -> refused 12
write 0 1 9 65535 @2 -> refused 12
write 0 1 9 1 66 -> queued 2";

// Of these not, by a byte, by a sector or by far. Numbers that do not fit are no lines at all.
const PAST: &str = "\
write 0 1 9 3 @0
write 0 1 9 2 @1
write 0 1 9 1 @2
write 0 1 9 64 @0
write 0 1 9 0 @3
write 0 1 9 65 @3
write 0 1 9 65535 @3
write 0 1 9 1 @36028797018963968
write 0 1 9 0 @18446744073709551615
write 0 1 9 1 @18446744073709551615";

#[test]
fn the_length_decides(rt: HostRuntime) -> Result<(), Fail> {
    let alloc = rt.alloc();
    let payload = two_and_a_byte(alloc)?;
    for row in THERE.lines() {
        let (line, text) = row.split_once(" -> ").ok_or("a line and its text")?;
        let wanted = format!(in alloc; "{text}\n")?;
        let found = told(alloc, line, Some(payload.clone()?))?.ok_or("a good line")?;
        assert_eq!(rt; found.as_slice(), wanted.as_bytes(), "{line}");
    }
    for line in PAST.lines() {
        assert!(rt;
            told(alloc, line, Some(payload.clone()?))?.is_none(),
            "{line}"
        );
    }
    Ok(())
}

#[test]
fn no_payload_and_an_empty_one(rt: HostRuntime) -> Result<(), Fail> {
    let alloc = rt.alloc();
    for line in [
        "write 0 1 9 1 @0",
        "write 0 1 9 0 @0",
        "write 0 1 9 65 @0",
        "write 0 1 9 64 @18446744073709551615",
    ] {
        assert!(rt; told(alloc, line, None)?.is_none(), "{line}");
    }
    assert!(rt; told(alloc, "write 0 1 9 1 @0", Some(Bytes::new()))?.is_none());
    let refused = told(alloc, "write 0 1 9 0 @0", Some(Bytes::new()))?.ok_or("a good line")?;
    assert_eq!(rt; refused.as_slice(), b"refused 12\n".as_slice());
    Ok(())
}

// What is stored is undone and redone as other writes are, and read back.
const STORED: &str = "\
attach 0 0 4 -> attached 1
write 0 1 7 2 @0 -> queued 2
dispatch -> issued 0 3 store 7 2
finish 0 3 stored -> finished 1
sector 7 -> sector 7 overlay 41
sector 8 -> sector 8 overlay 42
sector 9 -> sector 9 base
show step 2 -> step 2 2 write 0 1 7 2 ..
hold -> moved 4 4
undo 1 -> moved 3 4
sector 8 -> sector 8 base
undo 2 -> moved 1 4
redo 3 -> moved 4 4
sector 7 -> sector 7 overlay 41
sector 8 -> sector 8 overlay 42
release -> done
reap 0 1 -> completed 2 written
write 0 1 9 1 @1 -> queued 6
read 0 1 8 1 -> queued 7
dispatch -> issued 0 8 store 9 1
work 0 8 -> finished 1
dispatch -> issued 0 10 fetch 8 1
work 0 10 -> finished 1
sector 9 -> sector 9 overlay 42
reap 0 1 -> completed 6 written
reap 0 1 -> completed 7 read 42
";

#[test]
fn stored_undone_and_redone(rt: HostRuntime) -> Result<(), Fail> {
    let alloc = rt.alloc();
    let mut script = String::new(alloc);
    let mut wanted = Vec::new(alloc);
    for row in STORED.lines() {
        let (line, text) = row.split_once(" -> ").ok_or("a line and its text")?;
        script.push_str(line)?;
        script.push_str("\n")?;
        wanted.extend_from_slice(text.as_bytes())?;
        wanted.push(b'\n')?;
    }
    let ran = run(alloc, script.as_str(), Some(two_and_a_byte(alloc)?))?;
    assert_eq!(rt; ran, (ScriptEnd::Done, wanted));
    Ok(())
}
