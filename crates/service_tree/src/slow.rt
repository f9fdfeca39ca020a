// The questions about a tree's members, asked slowly and in another way than the tree answers them: the definitions run
// as they stand, with the members read off by `get` alone.
ghost use Rattle.std.specs.Prelude.{◌≡◌, ◌<◌, ◌^◌, Some, None, MatchOption, min, true, false, if◌then◌else◌, slice_index_or};
ghost use Rattle.plain.specs.Members.{IsActiveAt, IsEligibleAt, does_count, is_sooner, least_start, pick, weight_sum};
ghost use Rattle.plain.specs.declared.member.Member.{Member};

use crate::ServiceTree;
use plain::{Member, State};
use sector_core::Entity;

/// [`ServiceTree::pick`] by the definition run as it stands, to compare with: the entity that is eligible and that no
/// other eligible one goes before.
pub fn plain_pick(tree: &ServiceTree, vtime: u64) -> Option<Entity>
    ensures { result ≡ pick vtime tree.now.members }
{
    for entity in 0..tree.places() {
        if is_picked(tree, vtime, entity) {
            return Some(entity);
        }
    }
    None
}

// Whether an entity is eligible, and no eligible one has a lesser finish, or the same and a lower number.
fn is_picked(tree: &ServiceTree, vtime: u64, entity: Entity) -> bool
    ensures yes { result ≡ true → pick vtime tree.now.members ≡ Some entity }
    ensures no { result ≡ false → pick vtime tree.now.members ≡ Some entity → ⊥ }
{
    let places = tree.places();
    let Some(member) = get_eligible(tree, vtime, entity) else {
        return false;
    };
    for other in 0..places {
        if let Some(rival) = get_eligible(tree, vtime, other) {
            if is_sooner((other, rival), (entity, member)) {
                return false;
            }
        }
    }
    true
}

// Whether the first goes before the second: by finish, and of equal finishes by number.
fn is_sooner(first: (Entity, Member), second: (Entity, Member)) -> bool
    ensures { result ≡ is_sooner first second }
{
    let finish = second.1.finish;
    first.1.finish < finish || (first.1.finish == finish && first.0 < second.0)
}

// What is known of an entity, if it is an eligible member.
fn get_eligible(tree: &ServiceTree, vtime: u64, entity: Entity) -> Option<Member>
    ensures { MatchOption result ((m : Member) → IsEligibleAt vtime tree.now.members entity m → ⊥) (IsEligibleAt vtime tree.now.members entity) }
{
    match get_active(tree, entity) {
        Some(member) => {
            if member.start <= vtime {
                Some(member)
            } else {
                None
            }
        },
        None => None,
    }
}

// What is known of an entity, if it is an active member.
fn get_active(tree: &ServiceTree, entity: Entity) -> Option<Member>
    ensures { MatchOption result ((m : Member) → IsActiveAt tree.now.members entity m → ⊥) (IsActiveAt tree.now.members entity) }
{
    match tree.get(entity) {
        Some(member) => {
            if member.state == State::Active {
                Some(member)
            } else {
                None
            }
        },
        None => None,
    }
}

/// [`ServiceTree::least_start`] by the definition run as it stands, to compare with: upwards over the entities, the
/// least start of the active members so far.
pub fn plain_least_start(tree: &ServiceTree) -> Option<u64>
    ensures { result ≡ least_start tree.now.members }
{
    let mut least: Option<u64> = None;
    for entity in 0..tree.places() {
        if let Some(member) = get_active(tree, entity) {
            least = Some(least_of(member.start, least));
        }
    }
    least
}

// The least of a start and the least one so far.
fn least_of(start: u64, least: Option<u64>) -> u64
    ensures { MatchOption least (result ≡ start) (λ other. result ≡ min start other) }
{
    match least {
        Some(other) => start.min(other),
        None => start,
    }
}

/// [`ServiceTree::weight_sum`] by the definition run as it stands, to compare with: upwards over the entities, the sum
/// of the weights so far that count.
pub fn plain_weight_sum(tree: &ServiceTree, vtime: u64) -> u64
    ensures { result ≡ weight_sum vtime tree.now.members }
{
    let mut sum: u64 = 0;
    for entity in 0..tree.places() {
        sum += get_weight(tree, vtime, entity);
    }
    sum
}

// What an entity adds to the sum of weights at a virtual time.
fn get_weight(tree: &ServiceTree, vtime: u64, entity: Entity) -> u64
    ensures value { MatchOption (slice_index_or tree.now.members entity None) (result ≡ 0) (λ m. result ≡ (if does_count vtime m then m.weight else 0)) }
    ensures small { result < 2 ^ 32 }
{
    let Some(member) = tree.get(entity) else {
        return 0;
    };
    if member.state == State::Idle && member.finish <= vtime {
        0
    } else {
        u64::from(member.weight)
    }
}
