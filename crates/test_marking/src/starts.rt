//! Which pauses start helpers: those over many words that can be shared, and no others.
use crate::scene::Scene;
use final_pause::{FIRST_HELPER, Gate, Helpers, Open};
use std::process::Abort;
use std::sync::Wait;
use std::sync::atomic::{AtomicU64, Ordering};
use std::test::Fail;
use std::thread::Threads;
use words::Kind;

// An open gate that counts the claims of two helpers.
#[derive(Drop)]
struct Counting {
    first: AtomicU64,
    second: AtomicU64,
}

impl Gate for Counting {
    fn before(&self, actor: u8, _call: u32) {
        let claims = if actor == FIRST_HELPER {
            &self.first
        } else {
            &self.second
        };
        claims.fetch_add(1, Ordering::SeqCst);
    }

    fn after(&self, _actor: u8, _call: u32) {}
}

// So many objects of a page each, and as many small ones, of which each of the large ones points to one.
fn lay_pairs(rt: &impl Abort, scene: &mut Scene, number: u16) -> Result<(), Fail> {
    for page in 0..number {
        let _large = scene.allocate_large(u32::from(page), 1, Kind::Normal)?;
    }
    scene.lay(rt, &[(u32::from(number), 2, Kind::PointerFree, number)])?;
    for k in 0..usize::from(number) {
        scene.link(rt, &[(k, 0, k + usize::from(number))])?;
    }
    Ok(())
}

// One more object points to all of the large ones. Answers its base.
fn fan_out(rt: &impl Abort, scene: &mut Scene, number: u16) -> Result<u64, Fail> {
    lay_pairs(rt, scene, number)?;
    let top = scene.allocate_large(u32::from(number) + 1, 1, Kind::Normal)?;
    for k in 0..number {
        let large = scene.object(usize::from(k))?;
        scene.store(rt, top, u32::from(k), large.base)?;
    }
    Ok(top.base)
}

// Each of the large ones points to the next. Answers the base of the first.
fn chain(rt: &impl Abort, scene: &mut Scene, number: u16) -> Result<u64, Fail> {
    lay_pairs(rt, scene, number)?;
    for k in 1..usize::from(number) {
        scene.link(rt, &[(k - 1, 1, k)])?;
    }
    Ok(scene.object(0)?.base)
}

// A pause with two helpers marks so many objects. Answers how many each helper claimed.
fn close_by_two(
    rt: &(impl Abort + Threads + Wait + Sync),
    scene: &mut Scene,
    root: u64,
    marks: usize,
) -> Result<(u64, u64), Fail> {
    let helpers = Helpers::new(2).ok_or("two helpers")?.where_it_pays();
    let gate = Counting {
        first: AtomicU64::new(0),
        second: AtomicU64::new(0),
    };
    scene.heap.begin();
    scene.heap.close_with(rt, &[root], helpers, &gate);
    assert_eq!(rt; scene.marks(), marks);
    Ok((
        gate.first.load(Ordering::SeqCst),
        gate.second.load(Ordering::SeqCst),
    ))
}

// 126 pages of words are too few.
fn stays_alone(rt: &(impl Abort + Threads + Wait + Sync), scene: &mut Scene) -> Result<(), Fail> {
    let top = fan_out(rt, scene, 124)?;
    assert_eq!(rt; close_by_two(rt, scene, top, 249)?, (0, 0));
    Ok(())
}

#[test]
fn over_few_words_no_helper_starts(rt: HostRuntime) -> Result<(), Fail> {
    let mut scene = Scene::open(rt.alloc(), 200)?;
    stays_alone(&rt, &mut scene)
}

// 200 pages of them, of which never more than one object waits, can't be shared.
fn stays_on_a_chain(
    rt: &(impl Abort + Threads + Wait + Sync),
    scene: &mut Scene,
) -> Result<(), Fail> {
    let first = chain(rt, scene, 199)?;
    assert_eq!(rt; close_by_two(rt, scene, first, 398)?, (0, 0));
    Ok(())
}

#[test]
fn over_one_list_no_helper_starts(rt: HostRuntime) -> Result<(), Fail> {
    let mut scene = Scene::open(rt.alloc(), 200)?;
    stays_on_a_chain(&rt, &mut scene)
}

// Over 130 pages the second thread reads what waits in its share, which leads to objects that nobody else claims.
fn shares(rt: &(impl Abort + Threads + Wait + Sync), scene: &mut Scene) -> Result<(), Fail> {
    let top = fan_out(rt, scene, 128)?;
    let (first, second) = close_by_two(rt, scene, top, 257)?;
    assert!(rt; first > 0 && second > 0, "{first} and {second} claims");
    Ok(())
}

#[test]
fn over_many_words_that_can_be_shared_helpers_start(rt: HostRuntime) -> Result<(), Fail> {
    let mut scene = Scene::open(rt.alloc(), 200)?;
    shares(&rt, &mut scene)
}
