//! Which object a word points into: near the ends of the last cell of a page, behind which two words belong to none, near those of a large
//! object, and far from both.

use block_map::{BlockMap, Found};
use fixtures::BlockSpace;
use std::process::Abort;
use std::test::Fail;
use words::Kind;

const PAGES: u32 = 4;

// The last of the 85 cells of six words on a page.
const LAST_CELL: u16 = 84;

const CELL: Found = Found {
    base: 268_439_488,
    len: 6,
    kind: Kind::Normal,
    page: 0,
    cell: LAST_CELL,
};

const LARGE: Found = Found {
    base: 268_439_552,
    len: 1_024,
    kind: Kind::PointerFree,
    page: 1,
    cell: 0,
};

// The table for a map in which page 0 is cut for six words, and its last cell is allocated.
const IN_THE_CELL: [(u64, Option<Found>); 4] = [
    (268_439_488, Some(CELL)),
    (268_439_535, Some(CELL)),
    (268_439_487, None),
    (268_439_536, None),
];

// The table for a map with a large object on the pages 1 and 2.
const IN_THE_LARGE_OBJECT: [(u64, Option<Found>); 5] = [
    (268_439_552, Some(LARGE)),
    (268_443_648, Some(LARGE)),
    (268_447_743, Some(LARGE)),
    (268_439_551, None),
    (268_447_744, None),
];

// The table for any map.
const FAR_AWAY: [(u64, Option<Found>); 3] = [(0, None), (268_435_455, None), (u64::MAX, None)];

fn check(rt: &impl Abort, map: &BlockMap, table: &[(u64, Option<Found>)]) {
    for (word, found) in table {
        assert_eq!(rt; map.find(*word), *found, "the word {word}");
    }
}

// Cuts page 0, and allocates its last cell and no other one.
fn allocate_last_cell(rt: &impl Abort, space: &mut BlockSpace) {
    assert!(rt; space.cut(0, 6, Kind::Normal));
    space.fill(0);
    for cell in 0..LAST_CELL {
        assert!(rt; space.put(0, cell), "cell {cell}");
    }
}

fn check_cell(rt: &impl Abort, space: &mut BlockSpace) {
    allocate_last_cell(rt, space);
    check(rt, space.map(), &IN_THE_CELL);
    check(rt, space.map(), &FAR_AWAY);
}

fn check_large(rt: &impl Abort, space: &mut BlockSpace) {
    assert!(rt; space.cut_large(1, 2, Kind::PointerFree));
    check(rt, space.map(), &IN_THE_LARGE_OBJECT);
    check(rt, space.map(), &FAR_AWAY);
}

#[test]
fn the_last_cell_of_a_page(rt: HostRuntime) -> Result<(), Fail> {
    let mut space = BlockSpace::open(rt.alloc(), PAGES).ok_or("a map")?;
    check_cell(&rt, &mut space);
    Ok(())
}

#[test]
fn a_large_object(rt: HostRuntime) -> Result<(), Fail> {
    let mut space = BlockSpace::open(rt.alloc(), PAGES).ok_or("a map")?;
    check_large(&rt, &mut space);
    Ok(())
}

#[test]
fn no_object(rt: HostRuntime) -> Result<(), Fail> {
    let space = BlockSpace::open(rt.alloc(), PAGES).ok_or("a map")?;
    check(&rt, space.map(), &FAR_AWAY);
    Ok(())
}
