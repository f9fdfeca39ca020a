// The rules in examples that were computed by hand: 2^22 = 4194304 is the virtual time of one sector at weight 1.
use crate::host::{Act, Fact, Host};
use plain::State;
use std::process::Abort;
use std::test::Fail;

// A session of weight 40 alone in the root, and one of its services of 8 sectors.
const ALONE: [Act; 4] = [
    Act::Join(3, 0, 40),
    Act::Activate(3),
    Act::Select,
    Act::Charge(8),
];

// Seat 0 in group 1 of weight 100, and seat 1 in group 2 of weight 200.
const GROUPS: [Act; 6] = [
    Act::Join(17, 0, 100),
    Act::Join(18, 0, 200),
    Act::Join(0, 1, 40),
    Act::Join(1, 2, 40),
    Act::Activate(0),
    Act::Activate(1),
];

// Seats 0 and 1 of weight 40 in the root, where seat 0 has used up its budget.
const PAIR: [Act; 7] = [
    Act::Join(0, 0, 40),
    Act::Join(1, 0, 40),
    Act::Activate(0),
    Act::Activate(1),
    Act::Select,
    Act::Charge(8),
    Act::Exhaust,
];

// Seat 0 in group 4, that one in group 3, and so on up to group 1 in the root: five levels.
const LEVELS: [Act; 8] = [
    Act::Join(17, 0, 100),
    Act::Join(18, 1, 100),
    Act::Join(19, 2, 100),
    Act::Join(20, 3, 100),
    Act::Join(0, 4, 40),
    Act::Activate(0),
    Act::Select,
    Act::Charge(8),
];

// A new host does what was done before, and then these acts.
fn example(rt: &(impl Abort + AllocGlobal), before: &[Act], acts: &[Act]) -> Result<(), Fail> {
    let mut host = Host::new(rt.alloc())?;
    host.run(rt, before)?;
    host.run(rt, acts)
}

// 1024 * 2^22 / 40 = 107374182.4. The second time it waits already.
#[test]
fn activated_twice(rt: HostRuntime) -> Result<(), Fail> {
    example(
        &rt,
        &[],
        &[
            Act::Join(3, 0, 40),
            Act::Activate(3),
            Act::Activate(3),
            Act::See(Fact::Member(0, 3, State::Active, 0, 107374182, 40)),
        ],
    )
}

// 8 * 2^22 / 40 = 838860.8
#[test]
fn charged_alone(rt: HostRuntime) -> Result<(), Fail> {
    example(
        &rt,
        &ALONE,
        &[
            Act::See(Fact::Member(0, 3, State::Serving, 0, 107374182, 40)),
            Act::See(Fact::Serves(3, 8, 0)),
            Act::See(Fact::Vtime(0, Some(838860))),
        ],
    )
}

// 8 sectors are fewer than 256, the least budget.
#[test]
fn emptied_alone(rt: HostRuntime) -> Result<(), Fail> {
    example(
        &rt,
        &ALONE,
        &[
            Act::Empty,
            Act::See(Fact::Member(0, 3, State::Idle, 838860, 838860, 40)),
            Act::See(Fact::Budget(3, 256)),
            Act::See(Fact::Nobody),
        ],
    )
}

// 256 * 2^22 / 40 = 26843545.6, and 838860 + 26843545 = 27682405
#[test]
fn activated_again(rt: HostRuntime) -> Result<(), Fail> {
    example(
        &rt,
        &ALONE,
        &[
            Act::Empty,
            Act::Activate(3),
            Act::See(Fact::Member(0, 3, State::Active, 838860, 27682405, 40)),
        ],
    )
}

// 4096 * 2^22 / 100 = 171798691.84, and at weight 200 it is 85899345.92
#[test]
fn activated_groups(rt: HostRuntime) -> Result<(), Fail> {
    example(
        &rt,
        &GROUPS,
        &[
            Act::See(Fact::Member(0, 17, State::Active, 0, 171798691, 100)),
            Act::See(Fact::Member(0, 18, State::Active, 0, 85899345, 200)),
        ],
    )
}

// Group 2 has the lesser finish. 8 * 2^22 / 40 = 838860.8 in the group, and 8 * 2^22 / 300 = 111848.1 in the root
#[test]
fn charged_groups(rt: HostRuntime) -> Result<(), Fail> {
    example(
        &rt,
        &GROUPS,
        &[
            Act::Select,
            Act::Charge(8),
            Act::See(Fact::Serves(1, 8, 0)),
            Act::See(Fact::Vtime(2, Some(838860))),
            Act::See(Fact::Vtime(0, Some(111848))),
        ],
    )
}

// 8 * 2^22 / 200 = 167772.16: the group rests too, as it has no other child.
#[test]
fn emptied_group(rt: HostRuntime) -> Result<(), Fail> {
    example(
        &rt,
        &GROUPS,
        &[
            Act::Select,
            Act::Charge(8),
            Act::Empty,
            Act::See(Fact::Member(2, 1, State::Idle, 838860, 838860, 40)),
            Act::See(Fact::Member(0, 18, State::Idle, 167772, 167772, 200)),
        ],
    )
}

// The service counts at weight 40, and the next one at 80: 4096 * 2^22 / 80 = 214748364.8, and 838860 + 214748364 = 215587224
#[test]
fn exhausted(rt: HostRuntime) -> Result<(), Fail> {
    example(
        &rt,
        &ALONE,
        &[
            Act::Weigh(3, 80),
            Act::Exhaust,
            Act::See(Fact::Member(0, 3, State::Active, 838860, 215587224, 80)),
            Act::See(Fact::Budget(3, 4096)),
        ],
    )
}

// Four times as much each time: 256, 1024, and 4096, which is the greatest.
#[test]
fn exhausted_budgets(rt: HostRuntime) -> Result<(), Fail> {
    example(
        &rt,
        &ALONE,
        &[
            Act::Budget(3, 256),
            Act::Exhaust,
            Act::See(Fact::Budget(3, 1024)),
            Act::Select,
            Act::Exhaust,
            Act::Select,
            Act::Exhaust,
            Act::See(Fact::Budget(3, 4096)),
        ],
    )
}

// 8 * 2^22 / 40 = 838860.8 as ever, and the next service is of twice the budget: 2048 * 2^22 / 40 = 214748364.8, and
// 838860 + 214748364 = 215587224
#[test]
fn timed_out(rt: HostRuntime) -> Result<(), Fail> {
    example(
        &rt,
        &ALONE,
        &[
            Act::TimeOut,
            Act::See(Fact::Member(0, 3, State::Active, 838860, 215587224, 40)),
            Act::See(Fact::Budget(3, 2048)),
            Act::See(Fact::Nobody),
        ],
    )
}

// Twice as much each time: 1536, 3072, and 4096, which is the greatest.
#[test]
fn timed_out_budgets(rt: HostRuntime) -> Result<(), Fail> {
    example(
        &rt,
        &ALONE,
        &[
            Act::Budget(3, 1536),
            Act::TimeOut,
            Act::See(Fact::Budget(3, 3072)),
            Act::Select,
            Act::TimeOut,
            Act::See(Fact::Budget(3, 4096)),
            Act::Select,
            Act::TimeOut,
            Act::See(Fact::Budget(3, 4096)),
        ],
    )
}

// On a tie the lower number was picked. 8 * 2^22 / 80 = 419430.4, and 8 * 2^22 / 40 = 838860.8: seat 0 is not eligible now.
#[test]
fn tie(rt: HostRuntime) -> Result<(), Fail> {
    example(
        &rt,
        &PAIR,
        &[
            Act::See(Fact::Vtime(0, Some(419430))),
            Act::See(Fact::Start(0, 0, 838860)),
            Act::Select,
            Act::See(Fact::Serves(1, 0, 0)),
        ],
    )
}

// 4 * 2^22 / 80 = 209715.2, and 419430 + 209715 = 629145. Nobody is eligible then, and the virtual time becomes the start of seat 0.
#[test]
fn jump(rt: HostRuntime) -> Result<(), Fail> {
    example(
        &rt,
        &PAIR,
        &[
            Act::Select,
            Act::Charge(4),
            Act::Empty,
            Act::See(Fact::Vtime(0, Some(629145))),
            Act::Select,
            Act::See(Fact::Vtime(0, Some(838860))),
            Act::See(Fact::Serves(0, 0, 0)),
        ],
    )
}

#[test]
fn nobody(rt: HostRuntime) -> Result<(), Fail> {
    example(
        &rt,
        &[],
        &[Act::Select, Act::EmptyInVain, Act::See(Fact::Nobody)],
    )
}

// 2^62 = 4611686018427387904 is the greatest time, and 4611686018427387904 - 107374182 = 4611686018320013722: a finish of
// 2^62 is allowed, and one more is not.
#[test]
fn greatest_time(rt: HostRuntime) -> Result<(), Fail> {
    example(
        &rt,
        &[],
        &[
            Act::Join(3, 0, 40),
            Act::Vtime(4611686018320013723),
            Act::ActivateInVain(3),
            Act::Vtime(4611686018320013722),
            Act::Activate(3),
            Act::See(Fact::Finish(0, 3, 4611686018427387904)),
        ],
    )
}

// 8 * 2^22 / 40 = 838860.8 in group 4, and 8 * 2^22 / 100 = 335544.32 above it
#[test]
fn five_levels(rt: HostRuntime) -> Result<(), Fail> {
    example(
        &rt,
        &LEVELS,
        &[
            Act::See(Fact::Serves(0, 8, 0)),
            Act::See(Fact::Vtime(4, Some(838860))),
            Act::See(Fact::Vtime(1, Some(335544))),
            Act::See(Fact::Vtime(0, Some(335544))),
        ],
    )
}
