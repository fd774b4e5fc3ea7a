//! An object that leads to more objects than the mark stack has entries.
use crate::scene::Scene;
use block_map::Found;
use std::process::Abort;
use std::test::Fail;
use words::Kind;

/// An object of so many pages, one or two, points to 300 others, from all of these pages, and each seventh of them to a child that nothing
/// else points into. The objects after them are pointed into by nothing.
pub(crate) fn widen(rt: &impl Abort, scene: &mut Scene, pages: u32) -> Result<(), Fail> {
    let top = scene.allocate_large(0, pages, Kind::Normal)?;
    let blocks = [
        (pages, 2, Kind::Normal, 256),
        (pages.wrapping_add(1), 2, Kind::Normal, 44),
        (pages.wrapping_add(2), 2, Kind::Normal, 43),
        (pages.wrapping_add(3), 4, Kind::Normal, 9),
    ];
    scene.lay(rt, &blocks)?;
    for k in 0..300 {
        let index = pages.wrapping_mul(k);
        point(rt, scene, top, index, k)?;
    }
    Ok(())
}

// The top's word `index` points to the object 1 + k, and that one to its child.
fn point(rt: &impl Abort, scene: &mut Scene, top: Found, index: u32, k: u32) -> Result<(), Fail> {
    let child = scene.object(1 + k as usize)?;
    scene.store(rt, top, index, child.base)?;
    if k % 7 == 0 {
        let grandchild = scene.object(301 + k as usize / 7)?;
        scene.store(rt, child, 1, grandchild.base)?;
    }
    Ok(())
}
