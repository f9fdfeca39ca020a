// What the words mean, which no clause says.
use host_options::{Request, WordFault, meaning_of, reason_of, request_of, version_line};
use sector_core::{ConfigDraft, Scheduler};
use std::alloc::{AllocError, Global};
use std::process::Abort;
use std::test::Fail;

// The words of a line, joined by single spaces; two spaces have the empty word between them.
fn words_of(alloc: Global, line: &str) -> Result<Vec<String>, AllocError> {
    let mut words = Vec::new(alloc);
    for word in line.split(' ') {
        words.push(String::from_str(alloc, word)?)?;
    }
    Ok(words)
}

// A run of a scheduler with these numbers, in the order of the help.
fn sim(scheduler: Scheduler, numbers: [u64; 8]) -> Request {
    let [
        nr_requests,
        tags,
        first_budget,
        max_budget,
        timeout,
        history_max,
        first_vtime,
        sectors,
    ] = numbers;
    let draft = ConfigDraft {
        scheduler,
        nr_requests,
        tags,
        first_budget,
        max_budget,
        timeout,
        history_max,
        first_vtime,
    };
    Request::Sim {
        draft,
        sectors,
        image: None,
        payload: None,
    }
}

// Lines that ask for a run, and its scheduler and numbers.
const RUNS: [(&str, Scheduler, [u64; 8]); 7] = [
    (
        "bfqhost sim
bfqhost sim --scheduler bfq
bfqhost sim --scheduler=bfq",
        Scheduler::Bfq,
        USUAL,
    ),
    (
        "bfqhost sim --tags 5
bfqhost sim --tags=5 --scheduler bfq",
        Scheduler::Bfq,
        FIVE_TAGS,
    ),
    (
        "bfqhost sim --scheduler none
bfqhost sim --scheduler=none
other sim --scheduler none",
        Scheduler::Plain,
        USUAL,
    ),
    (
        "bfqhost sim --scheduler none --tags=5
bfqhost sim --tags 5 --scheduler none",
        Scheduler::Plain,
        FIVE_TAGS,
    ),
    (
        "bfqhost sim --scheduler none --nr-requests 1 --tags 2 --first-budget 3 --max-budget 4 --timeout 5 --history 6 --first-vtime 7 --sectors 8
bfqhost sim --sectors=8 --first-vtime=7 --history=6 --timeout=5 --max-budget=4 --first-budget=3 --tags=2 --nr-requests=1 --scheduler=none",
        Scheduler::Plain,
        EACH,
    ),
    (
        "bfqhost sim --sectors 8 --first-vtime 7 --history 6 --timeout 5 --max-budget 4 --first-budget 3 --tags 2 --nr-requests 1",
        Scheduler::Bfq,
        EACH,
    ),
    (
        "bfqhost sim --scheduler none --nr-requests 0 --tags 18446744073709551615 --first-vtime 18446744073709551615 --sectors 18446744073709551615",
        Scheduler::Plain,
        [0, u64::MAX, 1024, 4096, 8, 65_536, u64::MAX, u64::MAX],
    ),
];

const USUAL: [u64; 8] = [64, 4, 1024, 4096, 8, 65_536, 0, 1024];

const FIVE_TAGS: [u64; 8] = [64, 5, 1024, 4096, 8, 65_536, 0, 1024];

const EACH: [u64; 8] = [1, 2, 3, 4, 5, 6, 7, 8];

// What a line asks for.
fn asked(alloc: Global, line: &str) -> Result<Result<Request, WordFault>, Fail> {
    let words = words_of(alloc, line)?;
    Ok(request_of(alloc, words.as_slice()))
}

// Each of these lines asks for that.
fn expect(rt: &(impl Abort + AllocGlobal), lines: &str, request: Request) -> Result<(), Fail> {
    let wanted = Ok(request);
    for line in lines.lines() {
        assert_eq!(rt; asked(rt.alloc(), line)?, wanted, "{line}");
    }
    Ok(())
}

#[test]
fn words_that_ask_for_a_run(rt: HostRuntime) -> Result<(), Fail> {
    for (lines, scheduler, numbers) in RUNS {
        expect(&rt, lines, sim(scheduler, numbers))?;
    }
    Ok(())
}

const HELP: &str = "\
bfqhost --help
bfqhost -h
bfqhost --help sim
bfqhost sim --help
bfqhost sim -h
bfqhost sim --scheduler none --help
bfqhost sim --tags 5 -h";

#[test]
fn words_that_ask_for_help(rt: HostRuntime) -> Result<(), Fail> {
    expect(&rt, HELP, Request::Help)
}

#[test]
fn words_that_ask_for_the_version(rt: HostRuntime) -> Result<(), Fail> {
    expect(&rt, "bfqhost --version", Request::Version)?;
    assert_eq!(rt; version_line(), "bfqhost 0.1.0\n");
    Ok(())
}

// Lines that ask for nothing, and what a person is told of each.
const FAULTS: [(&str, &str); 15] = [
    ("bfqhost", "neither sim, serve nor replay is named"),
    ("bfqhost --version sim", "unexpected --version"),
    ("bfqhost --version --version", "unexpected --version"),
    ("bfqhost sim --version", "unexpected --version"),
    ("bfqhost simulate", "unexpected simulate"),
    ("bfqhost sim --client 4", "unexpected --client"),
    ("bfqhost sim now", "unexpected now"),
    ("bfqhost sim --", "unexpected --"),
    (
        "bfqhost sim --tags four",
        "--tags takes a whole number below 2^64, and not four",
    ),
    (
        "bfqhost sim --tags 04",
        "--tags takes a whole number below 2^64, and not 04",
    ),
    (
        "bfqhost sim --sectors=18446744073709551616",
        "--sectors takes a whole number below 2^64, and not 18446744073709551616",
    ),
    (
        "bfqhost sim --scheduler kyber",
        "--scheduler is bfq or none, and not kyber",
    ),
    ("bfqhost serve --dir sockets", "serve needs --image"),
    ("bfqhost serve --image disk.img", "serve needs --dir"),
    (
        "bfqhost sim --tags 1 --tags 2",
        "the argument '--tags <tags>' cannot be used multiple times",
    ),
];

#[test]
fn why_words_ask_for_nothing(rt: HostRuntime) -> Result<(), Fail> {
    for (line, told) in FAULTS {
        let words = words_of(rt.alloc(), line)?;
        assert_eq!(rt;
            request_of(rt.alloc(), words.as_slice()),
            Err(WordFault::Usage),
            "{line}"
        );
        let why = reason_of(rt.alloc(), words.as_slice())?;
        assert_eq!(rt; why.as_str(), told, "{line}");
    }
    Ok(())
}

#[test]
fn meanings_of_numbers(rt: HostRuntime) {
    assert_eq!(rt;
        meaning_of("1"),
        Some("1 BadSeat: seats are numbered 0 to 15")
    );
    assert_eq!(rt;
        meaning_of("6"),
        Some("6 RootGroup: group 0 is the root, which is neither dropped nor given a weight")
    );
    assert_eq!(rt;
        meaning_of("34"),
        Some("34 OutOfMemory: there was no memory for this call")
    );
    assert_eq!(rt;
        meaning_of("43"),
        Some(
            "43 RequestsFull: there are as many requests as --nr-requests allows, and this read, write or discard joins none of them"
        )
    );
    for number in ["0", "7x", "35", "40", "", "attach"] {
        assert_eq!(rt; meaning_of(number), None, "{number}");
    }
}

#[test]
fn words_that_name_an_image(rt: HostRuntime) -> Result<(), Fail> {
    for (line, named, sectors) in [
        ("bfqhost sim --image disk.img", "disk.img", 1024),
        (
            "bfqhost sim --image=/srv/disks/a=b.img",
            "/srv/disks/a=b.img",
            1024,
        ),
        ("bfqhost sim --image=-x", "-x", 1024),
        (
            "bfqhost sim --sectors 70000 --image disk.img",
            "disk.img",
            70_000,
        ),
    ] {
        let wanted = Request::Sim {
            draft: ConfigDraft::default(),
            sectors,
            image: Some(String::from_str(rt.alloc(), named)?),
            payload: None,
        };
        expect(&rt, line, wanted)?;
    }
    Ok(())
}

#[test]
fn words_that_name_a_payload(rt: HostRuntime) -> Result<(), Fail> {
    for (line, named, image) in [
        ("bfqhost sim --payload bytes.bin", "bytes.bin", None),
        ("bfqhost sim --payload=/srv/a=b", "/srv/a=b", None),
        ("bfqhost sim --payload=", "", None),
        (
            "bfqhost sim --payload bytes.bin --image disk.img",
            "bytes.bin",
            Some("disk.img"),
        ),
    ] {
        let image = match image {
            Some(named) => Some(String::from_str(rt.alloc(), named)?),
            None => None,
        };
        let wanted = Request::Sim {
            draft: ConfigDraft::default(),
            sectors: 1024,
            image,
            payload: Some(String::from_str(rt.alloc(), named)?),
        };
        expect(&rt, line, wanted)?;
    }
    let wanted = Request::Replay {
        file: String::from_str(rt.alloc(), "run.rec")?,
        image: None,
        payload: Some(String::from_str(rt.alloc(), "bytes.bin")?),
        history: None,
        to: None,
        list: false,
    };
    expect(&rt, "bfqhost replay run.rec --payload bytes.bin", wanted)
}

// A program always has its own name, so no run of it has no words.
#[test]
fn no_words(rt: HostRuntime) {
    assert_eq!(rt; request_of(rt.alloc(), &[]), Err(WordFault::Usage));
}
