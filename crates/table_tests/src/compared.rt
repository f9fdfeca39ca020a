// The tree's own answers beside the plain ones, after each of a list of changes that is the same each time.
ghost use Rattle.std.specs.Prelude.{◌<◌};

use augmented_tree::{BLANK, Figures, Row, height_at, insert_at, remove_at};
use plain::{Member, State};
use sector_core::{Class, Entity};
use service_tree::{ServiceTree, plain_least_start, plain_pick, plain_weight_sum};

// How many entities there are: 16 sessions and 32 groups.
pub const ENTITIES: Entity = 48;

// The virtual times that are asked at: before each start, amid the starts and finishes, and after each of them.
pub const VTIMES: [u64; 6] = [0, 3, 6, 9, 15, u64::MAX];

// A list of numbers, each made from the one before.
#[derive(Drop)]
pub struct Numbers {
    last: u64,
}

impl Numbers {
    // Before the first number.
    pub fn new() -> Numbers {
        Numbers { last: 1 }
    }

    pub fn below(&mut self, bound: u64) -> u64
        requires { 0 < bound }
        ensures { result < bound }
    {
        self.last = self
            .last
            .wrapping_mul(6_364_136_223_846_793_005)
            .wrapping_add(1_442_695_040_888_963_407);
        (self.last >> 33) % bound
    }
}

// What has been met at least once.
#[derive(Clone, Copy, Debug, PartialEq, Eq)]
struct Met {
    // All 48 places have a member, and after that none has.
    full: bool,
    empty: bool,
    // How the tree of the active members was balanced.
    single_right: bool,
    double_right: bool,
    single_left: bool,
    double_left: bool,
    none_eligible: bool,
    tie_of_finishes: bool,
    tie_of_starts: bool,
    idle_that_counts: bool,
    idle_that_does_not: bool,
}

const NOTHING_MET: Met = Met {
    full: false,
    empty: false,
    single_right: false,
    double_right: false,
    single_left: false,
    double_left: false,
    none_eligible: false,
    tie_of_finishes: false,
    tie_of_starts: false,
    idle_that_counts: false,
    idle_that_does_not: false,
};

const ALL_MET: Met = Met {
    full: true,
    empty: true,
    single_right: true,
    double_right: true,
    single_left: true,
    double_left: true,
    none_eligible: true,
    tie_of_finishes: true,
    tie_of_starts: true,
    idle_that_counts: true,
    idle_that_does_not: true,
};

// The active members in rows of the test's own, changed as the tree changes its own, which nobody sees: so it is known
// which rotations were made.
#[derive(Drop)]
struct Twin {
    rows: [Row; 48],
    root: Option<u8>,
}

fn row_of(rows: &[Row; 48], n: u8) -> Row {
    match rows.get(usize::from(n)) {
        Some(row) => *row,
        None => BLANK,
    }
}

fn active_figures(member: Option<Member>) -> Option<Figures> {
    let Some(member) = member else {
        return None;
    };
    if member.state != State::Active {
        return None;
    }
    Some(Figures {
        key: member.start,
        finish: member.finish,
        weight: member.weight,
    })
}

// A rotation was made where another member stands below the same link. In a single one that is a child of the one before.
fn meet_rotation(met: &mut Met, before: &Twin, after: &Twin, n: u8, key: u64) {
    let mut was = before.root;
    let mut is = after.root;
    for _level in 0..8u8 {
        let Some(old) = was else {
            return;
        };
        let Some(new) = is else {
            return;
        };
        let old_row = row_of(&before.rows, old);
        let goes_left = key < old_row.figures.key || (key == old_row.figures.key && n < old);
        if old != new {
            let is_single = old_row.left == Some(new) || old_row.right == Some(new);
            met.single_right = met.single_right || (goes_left && is_single);
            met.double_right = met.double_right || (goes_left && !is_single);
            met.single_left = met.single_left || (!goes_left && is_single);
            met.double_left = met.double_left || (!goes_left && !is_single);
            return;
        }
        let new_row = row_of(&after.rows, new);
        was = if goes_left {
            old_row.left
        } else {
            old_row.right
        };
        is = if goes_left {
            new_row.left
        } else {
            new_row.right
        };
    }
}

// The twin follows a change of what stands under a number.
fn follow(twin: Twin, met: &mut Met, n: u8, old: Option<Member>, new: Option<Member>) -> Twin {
    let mut rows = twin.rows;
    let mut root = twin.root;
    if let Some(figures) = active_figures(old) {
        let levels = height_at(&rows, root);
        root = remove_at(&mut rows, levels, root, n, figures.key);
    }
    let Some(figures) = active_figures(new) else {
        return Twin { rows, root };
    };
    let before = Twin { rows, root };
    let levels = height_at(&rows, root);
    root = Some(insert_at(&mut rows, levels, root, n, figures));
    let after = Twin { rows, root };
    meet_rotation(met, &before, &after, n, figures.key);
    after
}

fn state_of(number: u64) -> State {
    match number {
        0 => State::Idle,
        1 => State::Serving,
        _ => State::Active,
    }
}

// A start among 1 to 12, and a finish that is soon after it, so that many are equal. It is of best effort.
pub fn next_member(numbers: &mut Numbers) -> Member {
    let start = numbers.below(12) + 1;
    Member {
        class: Class::BestEffort,
        state: state_of(numbers.below(4)),
        start,
        finish: start + numbers.below(4),
        weight: numbers.below(1000) as u32 + 1,
    }
}

// The next entity from a number on that is a member, or that is none.
fn next_entity(tree: &ServiceTree, first: Entity, is_member: bool) -> Entity {
    for step in 0..ENTITIES {
        let entity = first.wrapping_add(step) % ENTITIES;
        if tree.get(entity).is_some() == is_member {
            return entity;
        }
    }
    first
}

// A listed change.
#[derive(Clone, Copy)]
enum Act {
    Insert(Entity),
    Remove(Entity),
    ChangeState(Entity),
}

fn entity_of(act: Act) -> Entity {
    match act {
        Act::Insert(entity) => entity,
        Act::Remove(entity) => entity,
        Act::ChangeState(entity) => entity,
    }
}

// One insert, removal or change of a state: mostly inserts while the tree grows, and removals while it shrinks.
fn next_act(tree: &ServiceTree, numbers: &mut Numbers, grows: bool) -> Act {
    let first = numbers.below(48) as Entity;
    let kind = numbers.below(8);
    if kind < 2 {
        return Act::ChangeState(next_entity(tree, first, true));
    }
    // One in eight goes the other way, and may meet a place of either kind.
    match (kind == 2, grows) {
        (true, true) => Act::Remove(first),
        (true, false) => Act::Insert(first),
        (false, true) => Act::Insert(next_entity(tree, first, false)),
        (false, false) => Act::Remove(next_entity(tree, first, true)),
    }
}

// Does an act.
fn change(tree: &mut ServiceTree, numbers: &mut Numbers, act: Act) {
    match act {
        Act::Insert(entity) => {
            let _ = tree.insert(entity, next_member(numbers));
        },
        Act::Remove(entity) => {
            let _ = tree.remove(entity);
        },
        Act::ChangeState(entity) => {
            if let Some(member) = tree.get(entity) {
                let state = state_of(numbers.below(4));
                let _ = tree.exchange(entity, Some(Member { state, ..member }));
            }
        },
    }
}

fn count_members(tree: &ServiceTree) -> u8 {
    let mut count: u8 = 0;
    for entity in 0..ENTITIES {
        if tree.get(entity).is_some() {
            count = count.wrapping_add(1);
        }
    }
    count
}

// What of a member is to be met at a virtual time, beside the entity that is picked.
fn meet_member(
    met: &mut Met,
    entity: Entity,
    member: Member,
    vtime: u64,
    picked: Option<(Entity, Member)>,
) {
    let is_idle = member.state == State::Idle;
    met.idle_that_counts = met.idle_that_counts || (is_idle && member.finish > vtime);
    met.idle_that_does_not = met.idle_that_does_not || (is_idle && member.finish <= vtime);
    let Some((other, first)) = picked else {
        return;
    };
    let is_eligible = member.state == State::Active && member.start <= vtime;
    if is_eligible && entity != other {
        met.tie_of_finishes = met.tie_of_finishes || member.finish == first.finish;
        met.tie_of_starts = met.tie_of_starts || member.start == first.start;
    }
}

// What of this tree is to be met, at a virtual time.
fn meet(met: &mut Met, tree: &ServiceTree, vtime: u64) {
    let picked = match plain_pick(tree, vtime) {
        Some(entity) => match tree.get(entity) {
            Some(member) => Some((entity, member)),
            None => None,
        },
        None => None,
    };
    met.none_eligible = met.none_eligible || picked.is_none();
    for entity in 0..ENTITIES {
        if let Some(member) = tree.get(entity) {
            meet_member(met, entity, member, vtime, picked);
        }
    }
}

// What a tree answers at a virtual time: the least start, the pick and the sum of weights.
type Answers = (Option<u64>, Option<Entity>, u64);

// A difference: after which change, at which virtual time, and the tree's own answers beside the plain ones.
type Difference = (u32, u64, Answers, Answers);

fn own_answers(tree: &ServiceTree, vtime: u64) -> Answers {
    (tree.least_start(), tree.pick(vtime), tree.weight_sum(vtime))
}

fn plain_answers(tree: &ServiceTree, vtime: u64) -> Answers {
    let least_start = plain_least_start(tree);
    (
        least_start,
        plain_pick(tree, vtime),
        plain_weight_sum(tree, vtime),
    )
}

// The first difference after a change, if there is one.
fn difference(tree: &ServiceTree, round: u32, met: &mut Met) -> Option<Difference> {
    for vtime in VTIMES {
        let own = own_answers(tree, vtime);
        let plain = plain_answers(tree, vtime);
        if own != plain {
            return Some((round, vtime, own, plain));
        }
        meet(met, tree, vtime);
    }
    None
}

// The first difference after any of 2,000 changes, if there is one, and what was met. The tree grows until it has all 48
// members, then shrinks until it has none, and so on.
fn compared() -> (Option<Difference>, Met) {
    let mut numbers = Numbers::new();
    let mut tree = ServiceTree::new(0);
    let mut twin = Twin {
        rows: [BLANK; 48],
        root: None,
    };
    let mut met = NOTHING_MET;
    let mut grows = true;
    for round in 0..2000 {
        let act = next_act(&tree, &mut numbers, grows);
        let entity = entity_of(act);
        let old = tree.get(entity);
        change(&mut tree, &mut numbers, act);
        twin = follow(twin, &mut met, entity, old, tree.get(entity));
        let count = count_members(&tree);
        grows = (grows && count < ENTITIES) || count == 0;
        met.empty = met.empty || (met.full && count == 0);
        met.full = met.full || count == ENTITIES;
        let found = difference(&tree, round, &mut met);
        if found.is_some() {
            return (found, met);
        }
    }
    (None, met)
}

#[test]
fn answers_are_the_plain_ones(rt: HostRuntime) {
    assert_eq!(rt; compared(), (None, ALL_MET));
}
