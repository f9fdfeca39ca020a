// Rows, and what is read of them and written to them.
ghost use Rattle.std.specs.Prelude.{◌≡◌, slice_set, nat_lt, ◌*◌, ◌+◌};
ghost use Rattle.augmented_tree.specs.Rows.{row_at, height_at, sum_at, least_at, before, lesser, made, goes_left};

/// What a tree knows of a member.
#[derive(Clone, Copy, Debug, PartialEq, Eq)]
pub struct Figures {
    /// The members stand from left to right by this, and of equal keys by their numbers.
    pub key: u64,
    /// The member with the least finish is first, and of equal finishes the one with the lower number.
    pub finish: u64,
    /// What is added up.
    pub weight: u32,
}

/// When a member's turn is: its finish, and its number.
#[derive(Clone, Copy, Debug, PartialEq, Eq)]
pub struct Turn {
    /// The lesser one is first.
    pub finish: u64,
    /// Of equal finishes the lower number is first.
    pub number: u8,
}

/// A node: a member, its links, and what is true of its subtree. A row's number is that of its member.
#[derive(Clone, Copy, Debug, PartialEq, Eq)]
pub struct Row {
    /// Its member.
    pub figures: Figures,
    /// The top of the members before it.
    pub left: Option<u8>,
    /// The top of the members after it.
    pub right: Option<u8>,
    /// How many levels its subtree has.
    pub height: u8,
    /// The first turn of its subtree.
    pub least: Turn,
    /// The sum of the weights of its subtree.
    pub sum: u64,
}

/// A row that nothing was written to.
pub const BLANK: Row = Row {
    figures: Figures {
        key: 0,
        finish: 0,
        weight: 0,
    },
    left: None,
    right: None,
    height: 0,
    least: Turn {
        finish: 0,
        number: 0,
    },
    sum: 0,
};

// The row with a number.
pub fn row_at(rows: &[Row], n: u8) -> Row
    ensures { result ≡ row_at rows.now n }
{
    match rows.get(usize::from(n)) {
        Some(row) => *row,
        None => BLANK,
    }
}

/// The height of the tree at a link: how many levels it has.
pub fn height_at(rows: &[Row], link: Option<u8>) -> u8
    ensures { result ≡ height_at rows.now link }
{
    match link {
        Some(n) => row_at(rows, n).height,
        None => 0,
    }
}

/// The sum of the weights of the tree at a link.
pub fn sum_at(rows: &[Row], link: Option<u8>) -> u64
    ensures { result ≡ sum_at rows.now link }
{
    match link {
        Some(n) => row_at(rows, n).sum,
        None => 0,
    }
}

// The first turn of the tree at a link.
pub fn least_at(rows: &[Row], link: Option<u8>) -> Option<Turn>
    ensures { result ≡ least_at rows.now link }
{
    match link {
        Some(n) => Some(row_at(rows, n).least),
        None => None,
    }
}

// Whether the first turn comes before the second.
pub fn before(a: Turn, b: Turn) -> bool
    ensures { result ≡ before a b }
{
    a.finish < b.finish || (a.finish == b.finish && a.number < b.number)
}

// The sooner of a turn and what may be another one.
pub fn lesser(turn: Turn, found: Option<Turn>) -> Turn
    ensures { result ≡ lesser turn found }
{
    match found {
        Some(other) => { if before(other, turn) { other } else { turn } }
        None => turn,
    }
}

// Whether a member stands before another one.
pub fn goes_left(n: u8, key: u64, m: u8, other: u64) -> bool
    ensures { result ≡ goes_left n key m other }
{
    key < other || (key == other && n < m)
}

// Writes the row of a member over two trees. Sums that do not fit stay at the greatest number: the members' owner sees to it
// that there are none.
pub fn fork(rows: &mut [Row], left: Option<u8>, n: u8, figures: Figures, right: Option<u8>)
    ensures { rows.new ≡ slice_set rows.old n (made rows.old left n figures right) }
{
    let higher = height_at(rows, left).max(height_at(rows, right));
    let own = Turn {
        finish: figures.finish,
        number: n,
    };
    let sum = u64::from(figures.weight).saturating_add(sum_at(rows, left));
    let row = Row {
        figures,
        left,
        right,
        height: higher.saturating_add(1),
        least: lesser(lesser(own, least_at(rows, left)), least_at(rows, right)),
        sum: sum.saturating_add(sum_at(rows, right)),
    };
    let at = n as usize;
    if at < rows.len() {
        rows[at] = row;
    }
}
