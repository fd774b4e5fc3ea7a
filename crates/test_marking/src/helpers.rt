//! Pauses with helpers: they are at work at the same time, and leave the marks that a pause without them leaves.
use crate::scene::Scene;
use crate::wide::widen;
use final_pause::{FIRST_HELPER, Gate, Helpers, Open};
use std::process::Abort;
use std::sync::Wait;
use std::sync::atomic::{AtomicU64, Ordering};
use std::test::Fail;
use std::thread;
use std::thread::Threads;
use words::Kind;
use words::limits::MAX_HELPERS;

// How often a helper looks for the others before it gives up.
const TURNS: u64 = 100_000_000;

// Helpers meet before their first claims, and claims are counted.
#[derive(Drop)]
struct Meeting {
    helpers: u64,
    there: AtomicU64,
    missed: AtomicU64,
    claims: AtomicU64,
}

impl Meeting {
    fn new(helpers: u8) -> Meeting {
        Meeting {
            helpers: u64::from(helpers),
            there: AtomicU64::new(0),
            missed: AtomicU64::new(0),
            claims: AtomicU64::new(0),
        }
    }

    // Waits until as many are there as there are helpers, or gives up.
    fn meet(&self) {
        self.there.fetch_add(1, Ordering::SeqCst);
        for _ in 0..TURNS {
            if self.there.load(Ordering::SeqCst) >= self.helpers {
                return;
            }
            thread::yield_now();
        }
        self.missed.fetch_add(1, Ordering::SeqCst);
    }
}

impl Gate for Meeting {
    fn before(&self, actor: u8, call: u32) {
        if actor < FIRST_HELPER {
            self.missed.fetch_add(1, Ordering::SeqCst);
        }
        if call == 0 {
            self.meet();
        }
    }

    fn after(&self, _actor: u8, _call: u32) {
        self.claims.fetch_add(1, Ordering::SeqCst);
    }
}

// An object of 200 words that points to 199 others, and beside them one object for each helper but the first.
fn fan_out(rt: &impl Abort, scene: &mut Scene) -> Result<(), Fail> {
    scene.lay(rt, &[(0, 200, Kind::Normal, 1), (1, 2, Kind::Normal, 206)])?;
    let top = scene.object(0)?;
    for k in 0..199 {
        let child = scene.object(1 + k as usize)?;
        scene.store(rt, top, k, child.base)?;
    }
    Ok(())
}

// So many helpers meet before their first claims. Each object is claimed once at least.
fn meets(
    rt: &(impl Abort + Threads + Wait + Sync),
    scene: &mut Scene,
    number: u8,
) -> Result<(), Fail> {
    let mut roots = [0; MAX_HELPERS as usize];
    roots[0] = scene.object(0)?.base;
    for helper in 1..roots.len() {
        roots[helper] = scene.object(199 + helper)?.base;
    }
    let helpers = Helpers::new(number).ok_or("a number of helpers")?;
    let gate = Meeting::new(number);
    scene.heap.begin();
    scene.heap.close_with(rt, &roots, helpers, &gate);
    assert_eq!(rt; gate.missed.load(Ordering::SeqCst), 0, "{number} helpers");
    assert!(rt; gate.claims.load(Ordering::SeqCst) >= 207);
    assert_eq!(rt; scene.marks(), 207);
    Ok(())
}

// By each number of helpers.
fn each_meets(rt: &(impl Abort + Threads + Wait + Sync), scene: &mut Scene) -> Result<(), Fail> {
    fan_out(rt, scene)?;
    for number in 1..MAX_HELPERS + 1 {
        meets(rt, scene, number)?;
    }
    Ok(())
}

#[test]
fn helpers_meet_and_mark_all(rt: HostRuntime) -> Result<(), Fail> {
    let mut scene = Scene::open(rt.alloc(), 2)?;
    each_meets(&rt, &mut scene)
}

// The marks after a pause with so many helpers are the closure of those before and the roots, and nothing is left to read.
fn closes(
    rt: &(impl Abort + Threads + Wait + Sync),
    scene: &mut Scene,
    roots: &[u64],
    number: u8,
) -> Result<(), Fail> {
    let before = scene.marked()?;
    let wanted = scene.graph.closure(scene.alloc, before.as_slice(), roots)?;
    let helpers = Helpers::new(number).ok_or("a number of helpers")?;
    scene.heap.close_with(rt, roots, helpers, &Open);
    scene.assert_marked(rt, wanted.as_slice());
    scene.assert_no_other_mark(rt);
    assert_eq!(rt; scene.heap.retrace(), None);
    let left = scene.heap.step(1);
    assert!(rt; left.read == 0 && left.empty);
    Ok(())
}

// The pause comes after so many steps of one word, with entries and dirty pages left over, and after a store.
fn closes_after(
    rt: &(impl Abort + Threads + Wait + Sync),
    scene: &mut Scene,
    number: u8,
    steps: u64,
) -> Result<(), Fail> {
    let (top, last) = (scene.object(0)?, scene.object(300)?);
    scene.heap.begin();
    scene.heap.scan_roots(&[top.base]);
    let _ = scene.heap.step(steps);
    scene.store(rt, last, 0, top.base)?;
    closes(rt, scene, &[top.base, last.base], number)
}

// More objects than the mark stack has entries, behind one of so many pages, by each number of helpers, from the start and in the middle of a
// cycle.
fn agrees(
    rt: &(impl Abort + Threads + Wait + Sync),
    scene: &mut Scene,
    pages: u32,
) -> Result<(), Fail> {
    widen(rt, scene, pages)?;
    for number in 1..MAX_HELPERS + 1 {
        for steps in [0, 7, 290, 512, 600] {
            closes_after(rt, scene, number, steps)?;
        }
    }
    Ok(())
}

#[test]
fn helpers_leave_the_marks_of_a_pause_alone(rt: HostRuntime) -> Result<(), Fail> {
    let mut scene = Scene::open(rt.alloc(), 5)?;
    agrees(&rt, &mut scene, 1)
}

#[test]
fn helpers_read_a_long_object_by_where_its_words_point(rt: HostRuntime) -> Result<(), Fail> {
    let mut scene = Scene::open(rt.alloc(), 6)?;
    agrees(&rt, &mut scene, 2)
}
