#![tactic(auto)]
//! Rows of a table that are linked into lists, both ways, as the kernel's lists are.
//!
//! | call | rule that it meets |
//! |---|---|
//! | [`side_at`] | the neighbours of a row in its list |
//! | [`ends_at`] | the first and the last row of a list |
//! | [`row_behind`] | the row behind another one, or the first of a list |
//! | [`take_out`] | takes a row out of its list |
//! | [`put_behind`] | puts a row into a list, behind another one or to its front |
//!
//! A row is in one list at most, so one table of neighbours serves all lists. Its owner knows which list a row is in.
//! No call takes memory, and none walks.

ghost use Rattle.std.specs.Prelude.{◌≡◌, ◌<◌, ◌++◌, ◌∷◌, List, None, length, slice_set, ℕ};
ghost use Rattle.linked_rows.specs.Chains.{
  IsList,
  IsOnce,
  after_set,
  before_set,
  cut_ends,
  cut_sides,
  ends_at,
  followed,
  joined_at,
  joined_ends,
  joined_sides,
  last_or,
  led,
  row_behind,
  side_at,
  spliced_ends,
  spliced_sides,
};

/// The number of a row, from 0 on.
pub type Row = u16;

/// A row's neighbours in its list.
#[derive(Clone, Copy, Debug, PartialEq, Eq)]
pub struct Sides {
    /// The row before it; none before the first one.
    pub before: Option<Row>,
    /// The row after it; none after the last one.
    pub after: Option<Row>,
}

/// The ends of a list.
#[derive(Clone, Copy, Debug, PartialEq, Eq)]
pub struct Ends {
    /// Its first row; none in a list of no row.
    pub first: Option<Row>,
    /// Its last row.
    pub last: Option<Row>,
}

/// No neighbours.
pub const ALONE: Sides = Sides {
    before: None,
    after: None,
};

/// A list of no row.
pub const NOBODY: Ends = Ends {
    first: None,
    last: None,
};

/// The neighbours of a row; past the end of the table none.
pub fn side_at(sides: &[Sides], row: Row) -> Sides
    ensures { result ≡ side_at sides.now row }
{
    match sides.get(usize::from(row)) {
        Some(side) => *side,
        None => ALONE,
    }
}

/// The ends of a list; past the last list none.
pub fn ends_at(ends: &[Ends], list: u8) -> Ends
    ensures { result ≡ ends_at ends.now list }
{
    match ends.get(usize::from(list)) {
        Some(ends) => *ends,
        None => NOBODY,
    }
}

/// The row behind another one, or the first of a list.
pub fn row_behind(sides: &[Sides], ends: &[Ends], list: u8, before: Option<Row>) -> Option<Row>
    ensures { result ≡ row_behind sides.now ends.now list before }
{
    match before {
        Some(row) => side_at(sides, row).after,
        None => ends_at(ends, list).first,
    }
}

fn set_after(sides: &mut [Sides], row: Row, after: Option<Row>)
    ensures { sides.new ≡ after_set sides.old row after }
{
    let side = Sides {
        before: side_at(sides, row).before,
        after,
    };
    let at = row as usize;
    if at < sides.len() {
        sides[at] = side;
    }
}

fn set_before(sides: &mut [Sides], row: Row, before: Option<Row>)
    ensures { sides.new ≡ before_set sides.old row before }
{
    let side = Sides {
        before,
        after: side_at(sides, row).after,
    };
    let at = row as usize;
    if at < sides.len() {
        sides[at] = side;
    }
}

// What may stand before leads to what may stand after.
fn lead(sides: &mut [Sides], before: Option<Row>, after: Option<Row>)
    ensures { sides.new ≡ led sides.old before after }
{
    if let Some(row) = before {
        set_after(sides, row, after);
    }
}

// What may stand after leads back to what may stand before.
fn follow(sides: &mut [Sides], before: Option<Row>, after: Option<Row>)
    ensures { sides.new ≡ followed sides.old before after }
{
    if let Some(row) = after {
        set_before(sides, row, before);
    }
}

// The ends of a list once two of its rows, or one and an end, are neighbours.
fn joined_ends(ends: Ends, before: Option<Row>, after: Option<Row>) -> Ends
    ensures { result ≡ joined_ends ends before after }
{
    let first = match before {
        Some(_row) => ends.first,
        None => after,
    };
    let last = match after {
        Some(_row) => ends.last,
        None => before,
    };
    Ends { first, last }
}

// Makes two rows of a list neighbours, or one of them an end.
fn join(sides: &mut [Sides], ends: &mut [Ends], list: u8, before: Option<Row>, after: Option<Row>)
    ensures sides { sides.new ≡ joined_sides sides.old before after }
    ensures ends { ends.new ≡ joined_at ends.old list before after }
{
    lead(sides, before, after);
    follow(sides, before, after);
    let joined = joined_ends(ends_at(ends, list), before, after);
    let at = list as usize;
    if at < ends.len() {
        ends[at] = joined;
    }
}

/// Takes a row out of its list: its neighbours are each other's.
pub fn take_out(sides: &mut [Sides], ends: &mut [Ends], list: u8, row: Row)
    ensures sides { sides.new ≡ cut_sides sides.old row }
    ensures ends { ends.new ≡ cut_ends sides.old ends.old list row }
    ensures list { (xs ys : List ℕ) → IsOnce (xs ++ row ∷ ys) → list < length ends.old → IsList sides.old ends.old list (xs ++ row ∷ ys) → IsList sides.new ends.new list (xs ++ ys) }
{
    let side = side_at(sides, row);
    join(sides, ends, list, side.before, side.after);
}

/// Puts a row that is in no list into one, behind another row, or to its front.
pub fn put_behind(sides: &mut [Sides], ends: &mut [Ends], list: u8, before: Option<Row>, row: Row)
    ensures sides { sides.new ≡ spliced_sides sides.old before row (row_behind sides.old ends.old list before) }
    ensures ends { ends.new ≡ spliced_ends ends.old list before row (row_behind sides.old ends.old list before) }
    ensures list { (xs ys : List ℕ) → IsOnce (xs ++ row ∷ ys) → list < length ends.old → row < length sides.old → before ≡ last_or None xs → IsList sides.old ends.old list (xs ++ ys) → IsList sides.new ends.new list (xs ++ row ∷ ys) }
{
    let after = row_behind(sides, ends, list, before);
    join(sides, ends, list, before, Some(row));
    join(sides, ends, list, Some(row), after);
}
