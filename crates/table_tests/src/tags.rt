// What no clause says: that a set can be made while memory is left.
use std::test::Fail;
use tag_set::{Issue, TagSet};

// What is done with a set of tags, together with what comes of it.
#[derive(Clone, Copy, Debug, PartialEq, Eq)]
enum Told {
    LowestFree(Option<u8>),
    // The tag bears the issue then, or none: what came back, what the tag bears, and the lowest tag that is free.
    Put(u8, Option<Issue>, Option<Issue>, Option<Issue>, Option<u8>),
}

// Does that again, and tells what came of it.
fn again(tags: &mut TagSet, told: Told) -> Told {
    match told {
        Told::LowestFree(_) => Told::LowestFree(tags.lowest_free()),
        Told::Put(tag, issue, ..) => {
            let old = tags.exchange(tag, issue);
            Told::Put(tag, issue, old, tags.get(tag), tags.lowest_free())
        }
    }
}

#[test]
fn tags(rt: HostRuntime) -> Result<(), Fail> {
    let mut tags = TagSet::new(rt.alloc(), 2)?;
    let first = Some(Issue { issue: 3, slot: 9 });
    let second = Some(Issue { issue: 4, slot: 8 });
    for told in [
        Told::LowestFree(Some(0)),
        Told::Put(0, first, None, first, Some(1)),
        Told::Put(1, second, None, second, None),
        // Tag 2 is not there.
        Told::Put(2, first, first, None, None),
        Told::Put(0, None, first, None, Some(0)),
    ] {
        assert_eq!(rt; again(&mut tags, told), told);
    }
    Ok(())
}
