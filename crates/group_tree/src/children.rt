// The children of a group: the entities that are in it, linked both ways.
ghost use Rattle.std.specs.Prelude.{◌≡◌};
ghost use Rattle.group_tree.specs.Children.{entered_ends, entered_sides, left_ends, left_sides, linked};

use crate::GROUPS;
use linked_rows::{Ends, Row, Sides, put_behind, take_out};

// The group, if its children are linked. One of another number never stands, and nobody asks for its children.
pub(crate) fn linked(group: Option<u8>) -> Option<u8>
    ensures { result ≡ linked group }
{
    match group {
        Some(group) => { if group < GROUPS { Some(group) } else { None } }
        None => None,
    }
}

// An entity goes out of the children of a group.
pub(crate) fn leave(sides: &mut [Sides], ends: &mut [Ends], group: Option<u8>, entity: Row)
    ensures sides { sides.new ≡ left_sides sides.old group entity }
    ensures ends { ends.new ≡ left_ends sides.old ends.old group entity }
{
    if let Some(group) = group {
        take_out(sides, ends, group, entity);
    }
}

// An entity comes before the children of a group. Their order means nothing.
pub(crate) fn enter(sides: &mut [Sides], ends: &mut [Ends], group: Option<u8>, entity: Row)
    ensures sides { sides.new ≡ entered_sides sides.old ends.old group entity }
    ensures ends { ends.new ≡ entered_ends sides.old ends.old group entity }
{
    if let Some(group) = group {
        put_behind(sides, ends, group, None, entity);
    }
}
