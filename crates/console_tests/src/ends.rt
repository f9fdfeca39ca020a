// How a script's run at a host's keeper ends where its input or its output fails.
use crate::fakes::{Narrow, Pieces};
use crate::host::usual;
use base_image::ZeroImage;
use script_host::run_script;
use script_line::ScriptEnd;
use std::alloc::Global;
use std::io::ErrorKind;
use std::test::Fail;

// How the run of these bytes ends, of which a read fails after the first, and what it wrote into so much room.
fn run(alloc: Global, script: &[u8], room: usize) -> Result<(ScriptEnd, Vec<u8>), Fail> {
    let mut reader = Pieces {
        bytes: script,
        step: 4096,
        calls: 0,
        fails_at: 2,
        kind: ErrorKind::Other,
    };
    let mut writer = Narrow {
        taken: Vec::new(alloc),
        step: 4096,
        room,
        is_silent: false,
        flushes: 0,
        flush_fails_at: 0,
        flushed: 0,
    };
    let image = ZeroImage::new(1024);
    let end = run_script(alloc, usual()?, &mut reader, &mut writer, image);
    Ok((end, writer.taken))
}

// How the run ends, and how many bytes of this text it wrote, or None where it wrote others.
fn told(
    alloc: Global,
    script: &[u8],
    room: usize,
    text: &[u8],
) -> Result<(ScriptEnd, Option<usize>), Fail> {
    let (end, written) = run(alloc, script, room)?;
    if text.starts_with(written.as_slice()) {
        Ok((end, Some(written.len())))
    } else {
        Ok((end, None))
    }
}

const TEXT: &[u8] = b"attached 1\nmoved 1 1\n";

// The last line has no end when the read fails, so it has not run.
#[test]
fn read_fails_in_mid_stream(rt: HostRuntime) -> Result<(), Fail> {
    let script = b"attach 0 0 4\nhold\nundo 1".as_slice();
    let seen = told(rt.alloc(), script, 4096, TEXT)?;
    assert_eq!(rt; seen, (ScriptEnd::ReadFault, Some(TEXT.len())));
    Ok(())
}

#[test]
fn write_fails_in_mid_stream(rt: HostRuntime) -> Result<(), Fail> {
    let script = b"attach 0 0 4\nhold\n".as_slice();
    for room in 0..21usize {
        let seen = told(rt.alloc(), script, room, TEXT)?;
        assert_eq!(rt; seen, (ScriptEnd::WriteFault, Some(room)));
    }
    Ok(())
}
