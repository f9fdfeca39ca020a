// The links of slots in their queues: a slot is put where its serial belongs, and taken out.
ghost use Rattle.std.specs.Prelude.{◌≡◌, length, slice_index_or, slice_set, None, Some};
ghost use Rattle.process_queue.specs.Links.{
  fewer,
  linked_ends,
  linked_sides,
  serial_at,
  unlinked_ends,
  unlinked_sides,
  walk_back,
};

use crate::Link;
use crate::place::is_after;
use linked_rows::{Ends, Sides, ends_at, put_behind, side_at, take_out};
use sector_core::Slot;

// Where a slot is linked, if it is.
fn link_at(links: &[Option<Link>], slot: Slot) -> Option<Link>
    ensures { result ≡ slice_index_or links.now slot None }
{
    match links.get(usize::from(slot)) {
        Some(link) => *link,
        None => None,
    }
}

// The serial of a slot; 0 of one that is not linked.
fn serial_at(links: &[Option<Link>], slot: Slot) -> u64
    ensures { result ≡ serial_at links.now slot }
{
    match link_at(links, slot) {
        Some(link) => link.serial,
        None => 0,
    }
}

fn set_link(links: &mut [Option<Link>], slot: Slot, link: Option<Link>)
    ensures { links.new ≡ slice_set links.old slot link }
{
    let at = slot as usize;
    if at < links.len() {
        links[at] = link;
    }
}

/// Takes a slot out of its queue, and hands back where it was linked.
pub(crate) fn unlink_at(
    links: &mut [Option<Link>],
    sides: &mut [Sides],
    ends: &mut [Ends],
    slot: Slot,
) -> Option<Link>
    ensures links { links.new ≡ slice_set links.old slot None }
    ensures sides { sides.new ≡ unlinked_sides links.old sides.old slot }
    ensures ends { ends.new ≡ unlinked_ends links.old sides.old ends.old slot }
    ensures old { result ≡ slice_index_or links.old slot None }
{
    let old = link_at(links, slot);
    set_link(links, slot, None);
    if let Some(link) = old {
        take_out(sides, ends, link.seat, slot);
    }
    old
}

// The slot that an entry is put behind, if there is one: from the end of a queue back to the first that does not come after
// the entry. Serials rise, so this is mostly the last one.
fn place_before(
    links: &[Option<Link>],
    sides: &[Sides],
    last: Option<Slot>,
    entry: (u64, Slot),
) -> Option<Slot>
    ensures { result ≡ walk_back links.now sides.now entry (length links.now) last }
{
    let mut at = last;
    // A queue has no more slots than there are.
    for _passed in 0..links.len() {
        let Some(slot) = at else {
            return None;
        };
        if !is_after(Some(entry), (serial_at(links, slot), slot)) {
            return Some(slot);
        }
        at = side_at(sides, slot).before;
    }
    at
}

/// Puts a slot that is in no queue into a seat's queue under a serial.
pub(crate) fn link_free(
    links: &mut [Option<Link>],
    sides: &mut [Sides],
    ends: &mut [Ends],
    slot: Slot,
    link: Link,
)
    ensures links { links.new ≡ slice_set links.old slot (Some link) }
    ensures sides { sides.new ≡ linked_sides links.old sides.old ends.old slot link }
    ensures ends { ends.new ≡ linked_ends links.old sides.old ends.old slot link }
{
    let last = ends_at(ends, link.seat).last;
    let before = place_before(links, sides, last, (link.serial, slot));
    put_behind(sides, ends, link.seat, before, slot);
    set_link(links, slot, Some(link));
}

/// How many slots are in queues once one was taken out, if it was in one.
pub(crate) fn fewer(queued: usize, old: Option<Link>) -> usize
    ensures { result ≡ fewer queued old }
{
    match old {
        Some(_link) => queued.saturating_sub(1),
        None => queued,
    }
}
