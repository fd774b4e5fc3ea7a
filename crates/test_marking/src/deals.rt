//! What is left over is dealt to two helpers one by one: waiting entries, the one that is being read, and dirty pages wherever
//! they lie.
use crate::scene::Scene;
use crate::shares::{OBJECTS, close_by_two};
use std::process::Abort;
use std::sync::Wait;
use std::test::Fail;
use std::thread::Threads;
use words::Kind;

// The objects of two pages with even numbers are read, and four others wait.
fn lay(rt: &impl Abort, scene: &mut Scene) -> Result<(), Fail> {
    let blocks = [
        (0, 4, Kind::Normal, 4),
        (2, 4, Kind::Normal, 1),
        (4, 4, Kind::Normal, 1),
        (5, 2, Kind::PointerFree, 6),
    ];
    scene.lay(rt, &blocks)?;
    scene.link(rt, &[(0, 1, 6), (1, 1, 7), (2, 1, 8), (3, 1, 9)])?;
    let mut bases = [0; 6];
    for number in 0..6 {
        bases[number] = scene.object(number)?.base;
    }
    scene.heap.begin();
    scene.heap.scan_roots(&bases[4..]);
    assert_eq!(rt; scene.heap.step(8).read, 8);
    scene.heap.scan_roots(&bases[..4]);
    Ok(())
}

// The last of the four is begun, and the two pages become dirty. Each of the six leads to one object that leads nowhere, so that a
// helper claims what two entries and one page lead to.
fn deals(rt: &(impl Abort + Threads + Wait + Sync), scene: &mut Scene) -> Result<(), Fail> {
    lay(rt, scene)?;
    assert_eq!(rt; scene.heap.step(1).read, 1);
    scene.link(rt, &[(4, 0, 10), (5, 0, 11)])?;
    close_by_two(rt, scene, [false; OBJECTS], 3, 3)?;
    assert_eq!(rt; scene.marks(), 12);
    Ok(())
}

#[test]
fn entries_and_dirty_pages_are_dealt_in_turn(rt: HostRuntime) -> Result<(), Fail> {
    let mut scene = Scene::open(rt.alloc(), 6)?;
    deals(&rt, &mut scene)
}
