//! What each of two helpers claims of a pause: what its own root words point into before anything else, by calls numbered from 0.
use crate::scene::Scene;
use final_pause::{FIRST_HELPER, Gate, Helpers};
use std::process::Abort;
use std::sync::Wait;
use std::sync::atomic::{AtomicU64, Ordering};
use std::test::Fail;
use std::thread;
use std::thread::Threads;
use words::Kind;
use words::limits::FIRST_ADDRESS;

// How often the first helper looks for the claims of the second before it gives up.
const TURNS: u64 = 10_000_000;

const SECOND_HELPER: u8 = FIRST_HELPER + 1;

/// Pointer-free objects, and the places of root words that point into them.
pub(crate) const OBJECTS: usize = 6;

const ALL: [bool; OBJECTS] = [true; OBJECTS];

// How many claims of a helper began, and how many ended.
#[derive(Drop)]
struct Claims {
    began: AtomicU64,
    ended: AtomicU64,
}

impl Claims {
    fn new() -> Claims {
        Claims {
            began: AtomicU64::new(0),
            ended: AtomicU64::new(0),
        }
    }

    fn began(&self) -> u64 {
        self.began.load(Ordering::SeqCst)
    }

    fn ended(&self) -> u64 {
        self.ended.load(Ordering::SeqCst)
    }

    // A claim begins. Answers whether each one before has ended, and its number is how many these are.
    fn begin(&self, call: u32) -> bool {
        let before = self.began.fetch_add(1, Ordering::SeqCst);
        before == u64::from(call) && self.ended() == before
    }

    // A claim ends. Answers whether it is the one that began last, by its number.
    fn end(&self, call: u32) -> bool {
        let before = self.ended.fetch_add(1, Ordering::SeqCst);
        before == u64::from(call) && self.began() == before.saturating_add(1)
    }
}

// The claims of each helper, and how many calls were none of theirs or out of order.
#[derive(Drop)]
struct Record {
    first: Claims,
    second: Claims,
    wrong: AtomicU64,
}

impl Record {
    fn new() -> Record {
        Record {
            first: Claims::new(),
            second: Claims::new(),
            wrong: AtomicU64::new(0),
        }
    }

    fn claims_of(&self, actor: u8) -> Option<&Claims> {
        match actor {
            FIRST_HELPER => Some(&self.first),
            SECOND_HELPER => Some(&self.second),
            _ => None,
        }
    }

    fn note(&self, is_right: bool) {
        if !is_right {
            self.wrong.fetch_add(1, Ordering::SeqCst);
        }
    }

    // Each helper made so many claims.
    fn assert_made(&self, rt: &impl Abort, first: u64, second: u64) {
        assert_eq!(rt; (self.first.began(), self.first.ended()), (first, first));
        assert_eq!(rt;
            (self.second.began(), self.second.ended()),
            (second, second)
        );
        assert_eq!(rt; self.wrong.load(Ordering::SeqCst), 0);
    }
}

impl Gate for Record {
    fn before(&self, actor: u8, call: u32) {
        let Some(claims) = self.claims_of(actor) else {
            return self.note(false);
        };
        self.note(claims.begin(call));
    }

    fn after(&self, actor: u8, call: u32) {
        let Some(claims) = self.claims_of(actor) else {
            return self.note(false);
        };
        self.note(claims.end(call));
    }
}

// Object k's base at place k of the root words, and 0 at the places that are left out.
fn roots_at(scene: &Scene, places: [bool; OBJECTS]) -> Result<[u64; OBJECTS], Fail> {
    let mut roots = [0; OBJECTS];
    for place in 0..OBJECTS {
        if places[place] {
            roots[place] = scene.object(place)?.base;
        }
    }
    Ok(roots)
}

/// In a pause over these root words the two helpers make so many claims.
pub(crate) fn close_by_two(
    rt: &(impl Abort + Threads + Wait + Sync),
    scene: &mut Scene,
    places: [bool; OBJECTS],
    first: u64,
    second: u64,
) -> Result<(), Fail> {
    let roots = roots_at(scene, places)?;
    let helpers = Helpers::new(2).ok_or("two helpers")?;
    let gate = Record::new();
    scene.heap.close_with(rt, &roots, helpers, &gate);
    gate.assert_made(rt, first, second);
    Ok(())
}

// Pauses of one cycle, in which the later finds what the earlier marked, and one of the next.
fn begin_afresh(rt: &(impl Abort + Threads + Wait + Sync), scene: &mut Scene) -> Result<(), Fail> {
    scene.lay(rt, &[(0, 2, Kind::PointerFree, OBJECTS as u16)])?;
    scene.heap.begin();
    close_by_two(rt, scene, [true, true, false, false, false, false], 1, 1)?;
    close_by_two(rt, scene, ALL, 2, 2)?;
    scene.heap.begin();
    close_by_two(rt, scene, ALL, 3, 3)
}

#[test]
fn claims_are_numbered_afresh_in_each_pause(rt: HostRuntime) -> Result<(), Fail> {
    let mut scene = Scene::open(rt.alloc(), 1)?;
    begin_afresh(&rt, &mut scene)
}

// Holds the first helper after its first claim until the second has made four, which follow that one.
#[derive(Drop)]
struct Held {
    record: Record,
}

impl Held {
    // Waits until so many claims have ended, or gives up.
    fn wait(&self, claims: &Claims, number: u64) {
        for _ in 0..TURNS {
            if claims.ended() >= number {
                return;
            }
            thread::yield_now();
        }
        self.record.note(false);
    }
}

impl Gate for Held {
    fn before(&self, actor: u8, call: u32) {
        if (actor, call) == (SECOND_HELPER, 0) {
            self.wait(&self.record.first, 1);
        }
        self.record.before(actor, call);
    }

    fn after(&self, actor: u8, call: u32) {
        self.record.after(actor, call);
        if (actor, call) == (FIRST_HELPER, 0) {
            self.wait(&self.record.second, 4);
        }
    }
}

// The waiting entry, that of the first object, and a page lead to two objects, and are dealt to the first helper; the entry that is being
// read, that of the second object, leads to a third, and is dealt to the second.
fn leave_work(rt: &impl Abort, scene: &mut Scene) -> Result<(), Fail> {
    let blocks = [(0, 4, Kind::Normal, 2), (1, 2, Kind::PointerFree, 5)];
    scene.lay(rt, &blocks)?;
    scene.link(rt, &[(0, 2, 2), (1, 2, 3)])?;
    scene.heap.begin();
    scene.heap.scan_roots(&[FIRST_ADDRESS, FIRST_ADDRESS + 32]);
    assert_eq!(rt; scene.heap.step(1).read, 1);
    scene.link(rt, &[(1, 0, 4)])
}

// The first helper's one root word comes before all that. The second helper's root words point into those three objects too,
// and then it has claimed none of them yet, so that the second claims all three.
fn claim_roots_first(
    rt: &(impl Abort + Threads + Wait + Sync),
    scene: &mut Scene,
) -> Result<(), Fail> {
    leave_work(rt, scene)?;
    let mut roots = [0; 8];
    for (place, number) in [(0, 5), (1, 6), (3, 2), (5, 3), (7, 4)] {
        roots[place] = scene.object(number)?.base;
    }
    let helpers = Helpers::new(2).ok_or("two helpers")?;
    let gate = Held {
        record: Record::new(),
    };
    scene.heap.close_with(rt, &roots, helpers, &gate);
    gate.record.assert_made(rt, 1, 4);
    assert_eq!(rt; scene.marks(), 7);
    Ok(())
}

#[test]
fn root_words_come_before_anything_else(rt: HostRuntime) -> Result<(), Fail> {
    let mut scene = Scene::open(rt.alloc(), 2)?;
    claim_roots_first(&rt, &mut scene)
}
