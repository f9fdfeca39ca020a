// Device work over images that no file is: each line, and what it prints.
ghost use Rattle.std.specs.Prelude.{◌<◌, ◌^◌};

use crate::host::usual;
use base_image::{FailingImage, Image, ImageFault, MemoryImage, ZeroImage};
use bytes::Bytes;
use script_host::run_script;
use script_line::ScriptEnd;
use std::alloc::Global;
use std::process::Abort;
use std::test::Fail;

// The lines of the rows, or their texts, each with its end.
fn part_of(alloc: Global, rows: &str, is_text: bool) -> Result<Vec<u8>, Fail> {
    let mut part = Vec::new(alloc);
    for row in rows.lines() {
        let (line, text) = row.split_once(" -> ").ok_or("a line and its text")?;
        let words = if is_text { text } else { line };
        part.extend_from_slice(words.as_bytes())?;
        part.push(b'\n')?;
    }
    Ok(part)
}

// How the lines of the rows end on a new host over the image, and what they print.
fn run<I: Image + Drop>(alloc: Global, image: I, rows: &str) -> Result<(ScriptEnd, Vec<u8>), Fail>
    requires { (I.disk image).faults < 2 ^ 63 }
{
    let script = part_of(alloc, rows, false)?;
    let mut reader = script.as_slice();
    let mut written = Vec::new(alloc);
    let end = run_script(alloc, usual()?, &mut reader, &mut written, image);
    Ok((end, written))
}

// Each line of the rows prints its text on a new host over the image.
fn expect_rows<I: Image + Drop>(
    rt: &(impl Abort + AllocGlobal),
    image: I,
    rows: &str,
) -> Result<(), Fail>
    requires { (I.disk image).faults < 2 ^ 63 }
{
    let wanted = (ScriptEnd::Done, part_of(rt.alloc(), rows, true)?);
    assert_eq!(rt; run(rt.alloc(), image, rows)?, wanted, "{rows}");
    Ok(())
}

// One read of zeros fails, counted from 1.
#[test]
fn images_of_which_a_read_fails(rt: HostRuntime) -> Result<(), Fail> {
    for (read, fault, rows) in [
        (1, ImageFault::Busy, GIVEN_BACK),
        (2, ImageFault::Busy, SECOND_READ_IS_BUSY),
        (2, ImageFault::Device, SECOND_READ_FAILS),
        (2, ImageFault::Device, UNDONE_AND_REDONE),
        (1, ImageFault::Busy, HELD),
    ] {
        let image = FailingImage::new(ZeroImage::new(1024), read, fault);
        expect_rows(&rt, image, rows)?;
    }
    Ok(())
}

#[test]
fn image_that_tells_more_than_it_has(rt: HostRuntime) -> Result<(), Fail> {
    let bytes = Bytes::from_vec(vec![in rt.alloc(); 0x37; 512]?)?;
    expect_rows(&rt, MemoryImage::new(bytes, 2), ONE_SECTOR_OF_TWO)
}

// A busy device gives the request back, and the work of its next issue is done.
const GIVEN_BACK: &str = "\
attach 0 0 4 -> attached 1
read 0 1 0 1 -> queued 2
dispatch -> issued 0 3 fetch 0 1
work 0 3 -> requeued
dispatch -> issued 0 5 fetch 0 1
work 0 3 -> refused 20
work 0 5 -> finished 1
reap 0 1 -> completed 2 read 00
";

// The second read is given back whole and then done; the one before keeps what it read.
const SECOND_READ_IS_BUSY: &str = "\
attach 0 0 4 -> attached 1
read 0 1 0 1 -> queued 2
dispatch -> issued 0 3 fetch 0 1
work 0 3 -> finished 1
read 0 1 8 2 -> queued 5
dispatch -> issued 0 6 fetch 8 2
work 0 6 -> requeued
work 0 6 -> refused 20
reap 0 1 -> completed 2 read 00
dispatch -> issued 0 9 fetch 8 2
work 0 9 -> finished 1
reap 0 1 -> completed 5 read 00 00
";

// The read that fails fails its own bio; the one before and the one after are read.
const SECOND_READ_FAILS: &str = "\
attach 0 0 4 -> attached 1
read 0 1 0 1 -> queued 2
dispatch -> issued 0 3 fetch 0 1
work 0 3 -> finished 1
reap 0 1 -> completed 2 read 00
read 0 1 8 2 -> queued 6
dispatch -> issued 0 7 fetch 8 2
work 0 7 -> finished 1
reap 0 1 -> completed 6 error fault
read 0 1 8 2 -> queued 10
dispatch -> issued 0 11 fetch 8 2
work 0 11 -> finished 1
reap 0 1 -> completed 10 read 00 00
";

// The image has its first sector alone. A store is done without it, and is read from the overlay.
const ONE_SECTOR_OF_TWO: &str = "\
attach 0 0 4 -> attached 1
read 0 1 0 1 -> queued 2
dispatch -> issued 0 3 fetch 0 1
work 0 3 -> finished 1
reap 0 1 -> completed 2 read 37
read 0 1 1 1 -> queued 6
dispatch -> issued 0 7 fetch 1 1
work 0 7 -> finished 1
reap 0 1 -> completed 6 error short
read 0 1 0 2 -> queued 10
dispatch -> issued 0 11 fetch 0 2
work 0 11 -> finished 1
reap 0 1 -> completed 10 error short
write 0 1 1 1 65 -> queued 14
dispatch -> issued 0 15 store 1 1
work 0 15 -> finished 1
reap 0 1 -> completed 14 written
work 0 15 -> refused 20
sector 1 -> sector 1 overlay 41
read 0 1 2 1 -> refused 14
";

// What the device answered stands in the line: it is undone and redone with no further read, though that would fail.
const UNDONE_AND_REDONE: &str = "\
attach 0 0 4 -> attached 1
read 0 1 0 1 -> queued 2
dispatch -> issued 0 3 fetch 0 1
work 0 3 -> finished 1
hold -> moved 4 4
undo 2 -> moved 2 4
redo 2 -> moved 4 4
release -> done
reap 0 1 -> completed 2 read 00
read 0 1 0 1 -> queued 6
dispatch -> issued 0 7 fetch 0 1
work 0 7 -> finished 1
reap 0 1 -> completed 6 error fault
";

// While the host is held the device reads, and its call is not yet answered; so its next read is the second.
const HELD: &str = "\
attach 0 0 4 -> attached 1
read 0 1 0 1 -> queued 2
dispatch -> issued 0 3 fetch 0 1
hold -> moved 3 3
work 0 3 -> notyet 41
work 5 3 -> notyet 41
release -> done
work 0 3 -> finished 1
reap 0 1 -> completed 2 read 00
";
