// What the tags of the device bear.
ghost use Rattle.std.specs.Prelude.{◌≡◌, ◌++◌, OnOk};
ghost use Rattle.std.specs.List.{flat_map};
ghost use Rattle.plain.specs.Lists.{numbers};
ghost use Rattle.dispatch_core.specs.Running.{plain_of};
ghost use Rattle.host_console.specs.Views.{tag_text, flight_look};

use crate::requests::put_owned;
use dispatch_core::View;
use std::io::{self, Write};

/// Appends the requests in flight, by their tags. It fails only for want of memory.
pub fn put_flight(view: &View<'_>, out: &mut Vec<u8>) -> io::Result<()>
    ensures { OnOk result (out.new.items ≡ out.old.items ++ flight_look (plain_of view.now) view.now.sizes.tags) }
{
    write!(out, "flight")?;
    put_tags(view, out)
}

// Appends what each tag bears.
fn put_tags(view: &View<'_>, out: &mut Vec<u8>) -> io::Result<()>
    ensures { OnOk result (out.new.items ≡ out.old.items ++ flat_map (tag_text (plain_of view.now)) (numbers 0 view.now.sizes.tags)) }
{
    for tag in 0..view.tags() {
        put_tag(view, tag, out)?;
    }
    Ok(())
}

// Appends what a tag bears, if it bears anything.
fn put_tag(view: &View<'_>, tag: u8, out: &mut Vec<u8>) -> io::Result<()>
    ensures { OnOk result (out.new.items ≡ out.old.items ++ tag_text (plain_of view.now) tag) }
{
    match view.flight(tag) {
        Some(flying) => {
            let issue = flying.issue();
            write!(out, " {tag}:{issue}:")?;
            put_owned(view, flying.request(), out)
        }
        None => Ok(()),
    }
}
