// The tree in examples.
use group_tree::GroupTree;
use std::test::Fail;

// What is done with a tree, and what comes of it.
#[derive(Clone, Copy, Debug, PartialEq, Eq)]
enum Told {
    Path(u8, [u8; 5]),
    Depth(u8, u8),
    Parent(u8, Option<u8>),
    // The entity comes into a group, or into none: the group that it was in.
    Put(u8, Option<u8>, Option<u8>),
}

// Does that again, and tells what came of it.
fn again(tree: &mut GroupTree, told: Told) -> Told {
    match told {
        Told::Path(entity, _) => {
            let mut path = [255; 5];
            for (place, it) in path.iter_mut().zip(tree.path(entity).as_slice().iter()) {
                *place = *it;
            }
            Told::Path(entity, path)
        },
        Told::Depth(group, _) => Told::Depth(group, tree.depth(group) as u8),
        Told::Parent(entity, _) => Told::Parent(entity, tree.parent(entity)),
        Told::Put(entity, group, _) => {
            Told::Put(entity, group, tree.exchange_group(entity, group))
        },
    }
}

// Five levels of entities: seat 3 in group 4, that one in 3, and so on up to group 1 in the root.
#[test]
fn path_of_five(rt: HostRuntime) -> Result<(), Fail> {
    let mut tree = GroupTree::new();
    for told in [
        Told::Path(3, [3, 255, 255, 255, 255]),
        Told::Put(17, Some(0), None),
        Told::Put(18, Some(1), None),
        Told::Put(19, Some(2), None),
        Told::Put(20, Some(3), None),
        Told::Put(3, Some(4), None),
        Told::Path(3, [3, 20, 19, 18, 17]),
        Told::Path(18, [18, 17, 255, 255, 255]),
        Told::Depth(0, 0),
        Told::Depth(1, 1),
        Told::Depth(4, 4),
        // Seat 3 comes into the root. Entity 48 is not there.
        Told::Put(3, Some(0), Some(4)),
        Told::Parent(3, Some(0)),
        Told::Put(48, Some(1), Some(1)),
        Told::Parent(48, None),
        Told::Path(3, [3, 255, 255, 255, 255]),
    ] {
        assert_eq!(rt; again(&mut tree, told), told);
    }
    Ok(())
}
