// Scripts of sessions of each class, run at a host. A request of 8 sectors moves the time of its class by 8 * 2^22 over the sum of the
// weights there. These are 80, 40 and 10 at priority 0, 4 and 7. A budget of 1024 sectors takes 2^32 over a weight.
use crate::host::usual;
use base_image::ZeroImage;
use script_host::run_script;
use script_line::ScriptEnd;
use std::alloc::Global;
use std::process::Abort;
use std::test::Fail;

// The real time session goes first and the idle one last, though they came the other way round; going back sets each time back.
const ORDER: [(&str, &str); 24] = [
    ("attach 0 0 0 idle", "attached 1"),
    ("attach 1 0 4", "attached 2"),
    ("attach 2 0 7 rt", "attached 3"),
    (
        "show tree 0",
        "tree 0 - 0 0:idle:0:0:80:80:idle 1:idle:0:0:40:40 2:idle:0:0:10:10:rt",
    ),
    ("read 0 1 0 8", "queued 4"),
    ("read 1 2 100 8", "queued 5"),
    ("read 2 3 200 8", "queued 6"),
    (
        "show tree 0",
        "tree 0 - 0 0:active:0:53687091:80:80:idle 1:active:0:107374182:40:40 2:active:0:429496729:10:10:rt",
    ),
    ("dispatch", "issued 0 7 fetch 200 8"),
    ("dispatch", "issued 1 8 fetch 100 8"),
    ("dispatch", "issued 2 9 fetch 0 8"),
    ("vtime 0 rt", "vtime 0 rt 3355443"),
    ("vtime 0", "vtime 0 838860"),
    ("vtime 0 be", "vtime 0 be 838860"),
    ("vtime 0 idle", "vtime 0 idle 419430"),
    ("class 2", "class 2 rt"),
    ("show step 1", "step 1 1 attach 0 0 0 idle"),
    ("show step 2", "step 2 2 attach 1 0 4"),
    ("show step 3", "step 3 3 attach 2 0 7 rt"),
    ("hold", "moved 9 9"),
    ("undo 2", "moved 7 9"),
    ("vtime 0", "vtime 0 0"),
    ("vtime 0 idle", "vtime 0 idle 0"),
    ("vtime 0 rt", "vtime 0 rt 3355443"),
];

// A queue in service keeps the device though a session of a higher class has begun to wait.
const NO_PREEMPTION: [(&str, &str); 8] = [
    ("attach 0 0 4", "attached 1"),
    ("attach 1 0 4 rt", "attached 2"),
    ("read 0 1 0 8", "queued 3"),
    ("read 0 1 100 8", "queued 4"),
    ("dispatch", "issued 0 5 fetch 0 8"),
    ("read 1 2 200 8", "queued 6"),
    ("dispatch", "issued 1 7 fetch 100 8"),
    ("dispatch", "issued 2 8 fetch 200 8"),
];

// An attach that names best effort is one that names no class; a group is best effort, and the root is in no group.
const NAMED: [(&str, &str); 12] = [
    ("attach 0 0 4 be", "attached 1"),
    ("show step 1", "step 1 1 attach 0 0 4"),
    ("class 0", "class 0 be"),
    ("class 1", "class 1 none"),
    ("group 0 100", "group 1"),
    ("class 17", "class 17 be"),
    ("class 16", "class 16 none"),
    ("class 47", "class 47 none"),
    ("class 48", "class 48 none"),
    ("vtime 1 idle", "vtime 1 idle 0"),
    ("vtime 2 rt", "vtime 2 rt none"),
    ("vtime 32 be", "vtime 32 be none"),
];

// Lines joined, each with its end.
fn joined(alloc: Global, lines: &[(&str, &str)], printed: bool) -> Result<Vec<u8>, Fail> {
    let mut text = Vec::new(alloc);
    for (line, answer) in lines {
        if printed {
            text.extend_from_slice(answer.as_bytes())?;
        } else {
            text.extend_from_slice(line.as_bytes())?;
        }
        text.push(b'\n')?;
    }
    Ok(text)
}

// Each line prints what stands beside it.
fn expect(rt: &(impl Abort + AllocGlobal), rows: &[(&str, &str)]) -> Result<(), Fail> {
    let script = joined(rt.alloc(), rows, false)?;
    let want = joined(rt.alloc(), rows, true)?;
    let mut reader = script.as_slice();
    let mut written = Vec::new(rt.alloc());
    let image = ZeroImage::new(1024);
    let end = run_script(rt.alloc(), usual()?, &mut reader, &mut written, image);
    assert_eq!(rt; end, ScriptEnd::Done);
    assert_eq!(rt; written.as_slice(), want.as_slice());
    Ok(())
}

#[test]
fn higher_classes_go_first(rt: HostRuntime) -> Result<(), Fail> {
    expect(&rt, &ORDER)
}

#[test]
fn no_class_takes_the_device_from_another(rt: HostRuntime) -> Result<(), Fail> {
    expect(&rt, &NO_PREEMPTION)
}

#[test]
fn classes_by_name(rt: HostRuntime) -> Result<(), Fail> {
    expect(&rt, &NAMED)
}
