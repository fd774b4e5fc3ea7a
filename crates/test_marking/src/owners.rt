//! Which of 1 to 8 helpers claims what a root word points into: the one that the word's place says.
use crate::scene::Scene;
use final_pause::{FIRST_HELPER, Gate, Helpers};
use std::process::Abort;
use std::sync::Wait;
use std::sync::atomic::{AtomicU64, Ordering};
use std::test::Fail;
use std::thread::Threads;
use words::Kind;

// Root words, of which each of eight helpers has some.
const PLACES: usize = 20;

// How many claims were made, eight bits of each helper, and how many calls were no helper's.
#[derive(Drop)]
struct Owners {
    claims: AtomicU64,
    others: AtomicU64,
}

impl Gate for Owners {
    fn before(&self, actor: u8, _call: u32) {
        let helper = actor.wrapping_sub(FIRST_HELPER);
        if helper < 8 {
            self.claims.fetch_add(1 << (8 * helper), Ordering::SeqCst);
        } else {
            self.others.fetch_add(1, Ordering::SeqCst);
        }
    }

    fn after(&self, _actor: u8, _call: u32) {}
}

// Of so many helpers one makes a claim, and the one, where all root words are 0 but that at this place.
fn claim_at(
    rt: &(impl Abort + Threads + Wait + Sync),
    scene: &mut Scene,
    number: u8,
    place: usize,
) -> Result<(), Fail> {
    let mut roots = [0; PLACES];
    roots[place % PLACES] = scene.object(0)?.base;
    let helpers = Helpers::new(number).ok_or("helpers")?;
    let owners = Owners {
        claims: AtomicU64::new(0),
        others: AtomicU64::new(0),
    };
    scene.heap.begin();
    scene.heap.close_with(rt, &roots, helpers, &owners);
    let owner = (place % PLACES) as u64 % u64::from(helpers.number());
    assert_eq!(rt;
        owners.claims.load(Ordering::SeqCst),
        1 << (8 * owner),
        "place {place}, {number} helpers"
    );
    assert_eq!(rt; owners.others.load(Ordering::SeqCst), 0);
    Ok(())
}

// Each place with each number of helpers.
fn claim_at_all(rt: &(impl Abort + Threads + Wait + Sync), scene: &mut Scene) -> Result<(), Fail> {
    scene.lay(rt, &[(0, 2, Kind::PointerFree, 1)])?;
    for turn in 0..8 * PLACES {
        claim_at(rt, scene, (turn / PLACES) as u8 + 1, turn % PLACES)?;
    }
    Ok(())
}

#[test]
fn each_helper_claims_at_its_own_places(rt: HostRuntime) -> Result<(), Fail> {
    let mut scene = Scene::open(rt.alloc(), 1)?;
    claim_at_all(&rt, &mut scene)
}
