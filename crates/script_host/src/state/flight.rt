// What is in flight, in the order of the texts: by no tag.
ghost use Rattle.std.specs.Prelude.{◌≡◌, ◌++◌, ◌≤◌, OnOk, IfOk, List, ℕ, length, map};
ghost use Rattle.std.specs.List.{flat_map, insert};
ghost use Rattle.std.specs.Ordering.{is_lt, nat_cmp};
ghost use Rattle.std.specs.Cmp.Lexicographic.{slice_cmp};
ghost use Rattle.dispatch_core.specs.Running.{plain_of};
ghost use Rattle.host_console.specs.State.{borne, flight_text, under_tags, in_order, owned_text, placed, spaced};
ghost use Rattle.script_host.specs.Texts.{texts_of};

use super::requests::put_owned;
use dispatch_core::{Flying, View};
use std::alloc::Global;
use std::cmp::Ordering;
use std::io::{self, Write};

/// Appends each request in flight after one space, in the order of their texts. It fails only for want of memory.
pub fn put_flying(view: &View<'_>, out: &mut Vec<u8>) -> io::Result<()>
    ensures { OnOk result (out.new.items ≡ out.old.items ++ flight_text view.now.sizes.tags (plain_of view.now)) }
{
    let texts = texts_in_order(view, *out.allocator())?;
    put_texts(&texts, out)
}

// Appends each text after one space.
fn put_texts(texts: &Vec<Vec<u8>>, out: &mut Vec<u8>) -> io::Result<()>
    ensures { OnOk result (out.new.items ≡ out.old.items ++ flat_map spaced (texts_of texts.now.items)) }
{
    for text in texts {
        put_text(text.as_slice(), out)?;
    }
    Ok(())
}

// Appends a text after one space.
fn put_text(text: &[u8], out: &mut Vec<u8>) -> io::Result<()>
    ensures { OnOk result (out.new.items ≡ out.old.items ++ spaced text.now) }
{
    write!(out, " ")?;
    out.write_all(text)
}

// The texts of the requests in flight, in their order.
fn texts_in_order(view: &View<'_>, alloc: Global) -> io::Result<Vec<Vec<u8>>>
    ensures { IfOk result (λ texts. texts_of texts.items ≡ in_order (map (owned_text (plain_of view.now)) (under_tags view.now.sizes.tags (plain_of view.now)))) }
{
    let mut texts = Vec::new(alloc);
    for tag in (0..view.tags()).rev() {
        place_tag(view, tag, alloc, &mut texts)?;
    }
    Ok(texts)
}

// Places what a tag bears, if it bears anything.
fn place_tag(view: &View<'_>, tag: u8, alloc: Global, texts: &mut Vec<Vec<u8>>) -> io::Result<()>
    ensures { OnOk result ((told : List (List ℕ)) → texts_of texts.old.items ≡ in_order told
        → texts_of texts.new.items ≡ in_order (map (owned_text (plain_of view.now)) (borne ((plain_of view.now).flight tag)) ++ told)) }
{
    match view.flight(tag) {
        Some(flying) => place(text_of(view, &flying, alloc)?, texts),
        None => Ok(()),
    }
}

// The text of a request in flight.
fn text_of(view: &View<'_>, flying: &Flying<'_>, alloc: Global) -> io::Result<Vec<u8>>
    ensures { IfOk result (λ text. text.items ≡ owned_text (plain_of view.now) flying.now.request) }
{
    let mut text = Vec::new(alloc);
    put_owned(view, flying.request(), &mut text)?;
    Ok(text)
}

// Places a text among others.
fn place(text: Vec<u8>, texts: &mut Vec<Vec<u8>>) -> io::Result<()>
    ensures { OnOk result (texts_of texts.new.items ≡ placed text.items (texts_of texts.old.items)) }
{
    let place = place_of(texts, text.as_slice());
    texts.insert(place, text)?;
    Ok(())
}

// Where a text belongs among others: before the first that is greater.
fn place_of(texts: &Vec<Vec<u8>>, text: &[u8]) -> usize
    ensures within { result ≤ length texts.now.items }
    ensures place { insert (texts_of texts.now.items) result text.now ≡ placed text.now (texts_of texts.now.items) }
{
    for place in 0..texts.len() {
        if is_before(text, texts[place].as_slice()) {
            return place;
        }
    }
    texts.len()
}

// Whether a text comes before another one.
fn is_before(one: &[u8], other: &[u8]) -> bool
    ensures { result ≡ is_lt (slice_cmp nat_cmp one.now other.now) }
{
    matches!(one.cmp(other), Ordering::Less)
}
