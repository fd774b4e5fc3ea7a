//! Two mutators, each of which keeps a word in an object of its own through a cycle.
ghost use Rattle.std.specs.Prelude.{◌≡◌, ◌≢◌, ◌<◌, IfOk, IfSome};
ghost use mathlib.Core.List.{IsPrefix};
ghost use Rattle.words.specs.declared.limits.TheConstants.{SLOTS};
ghost use Rattle.history.specs.Histories.{counted_up};
ghost use Rattle.heap_history.specs.Alone.{attaches};
ghost use Rattle.heap_history.specs.Headline.{Begun};
ghost use Rattle.heap_history.specs.Passes.{HeapPass, IsLegalPass};
ghost use Rattle.uses_shared.specs.Keeping.{HasKept, IsSettled, Puts, PutsAndLoads};

use heap_core::Core;
use heap_history::laws::{nobody_else_came, own_words_as_known};
use history::{Naming, Opened};
use shared::{Collector, Mutator, SharedHeap, open};
use std::alloc::Global;
use std::marker::{Brand, Model};
use std::sync::{Barrier, Wait};
use std::thread::{Threads, join};
use words::{Kind, OpenError, Refusal, Reg};

/// Why there are no words.
#[derive(Debug, Drop)]
pub enum KeptError {
    /// The heap could not be opened.
    Open(OpenError),
    /// A call was refused.
    Refused,
    /// Another mutator came.
    Stranger,
}

// A mutator that is detached where it is dropped. Contracts see its pass.
struct Attached<'a, J: Naming, R: Wait> {
    rt: &'a R,
    heap: &'a SharedHeap<J>,
    me: Mutator<J>,
}

impl<'a, J: Naming, R: Wait> Model for Attached<'a, J, R> {
    ghost use Rattle.heap_history.specs.Passes.{HeapPass};

    ghost Value = { HeapPass };

    ghost view = { λ a. a.me };
}

impl<'a, J: Naming, R: Wait> Drop for Attached<'a, J, R> {
    fn drop(self) {
        let Self { rt, heap, me } = self;
        heap.detach(rt, me);
    }
}

// The register of the object, and that of words.
pub(crate) fn registers() -> (Reg, Reg)
    ensures { (result.0 ≡ 1) × (result.1 ≡ 2) }
{
    let (Some(object), Some(word)) = (Reg::new(1), Reg::new(2)) else {
        unreachable!();
    };
    (object, word)
}

// Puts the word into a new object.
pub(crate) fn put<J: Naming>(
    rt: &impl Wait,
    heap: &SharedHeap<J>,
    me: &mut Mutator<J>,
    word: u64,
) -> Result<(), Refusal>
    ensures { IfOk result (λ done. Puts J.origin word me.old me.new) }
{
    let (object, scratch) = registers();
    heap.alloc(rt, me, object, 2, Kind::Normal)?;
    heap.set(rt, me, scratch, word)?;
    heap.store(rt, me, object, 0, scratch)
}

// Puts the word into a new object, waits for a cycle to begin and end, and loads it.
fn put_and_load<'a, J: Naming, R: Wait>(
    turns: &Barrier,
    me: Attached<'a, J, R>,
    word: u64,
) -> (Attached<'a, J, R>, Option<u64>)
    ensures { IfSome result.1 (λ loaded. PutsAndLoads J.origin word loaded me.entry result.0) }
{
    let mut me = me;
    let (object, scratch) = registers();
    let put = put(me.rt, me.heap, &mut me.me, word);
    turns.wait(me.rt);
    turns.wait(me.rt);
    if put.is_err() {
        return (me, None);
    }
    let Ok(loaded) = me.heap.load(me.rt, &mut me.me, scratch, object, 0) else {
        return (me, None);
    };
    (me, Some(loaded))
}

// A cycle, between two turns.
fn cycle<J: Naming>(
    rt: &impl Wait,
    heap: &SharedHeap<J>,
    turns: &Barrier,
    collector: Collector<J>,
) -> Collector<J> {
    let mut collector = collector;
    turns.wait(rt);
    let _begun = heap.begin(rt, &mut collector);
    let _ended = heap.finish(rt, &mut collector);
    turns.wait(rt);
    collector
}

// One mutator and the collector, each in a thread of its own.
fn run_two<'a, J: Naming + Send + Sync, R: Threads + Wait + Sync>(
    turns: &Barrier,
    me: Attached<'a, J, R>,
    word: u64,
    collector: Collector<J>,
) -> ((Attached<'a, J, R>, Option<u64>), Collector<J>)
    ensures { IfSome result.0.1 (λ loaded. PutsAndLoads J.origin word loaded me.entry result.0.0) }
{
    let (rt, heap) = (me.rt, me.heap);
    join(
        rt,
        move || put_and_load(turns, me, word),
        move || cycle(rt, heap, turns, collector),
    )
}

// The three, each in a thread of its own.
fn run_three<'a, J: Naming + Send + Sync, R: Threads + Wait + Sync>(
    turns: &Barrier,
    one: Attached<'a, J, R>,
    other: Attached<'a, J, R>,
    words: (u64, u64),
    collector: Collector<J>,
) -> (
    (Attached<'a, J, R>, Option<u64>),
    ((Attached<'a, J, R>, Option<u64>), Collector<J>),
)
    ensures one { IfSome result.0.1 (λ loaded. PutsAndLoads J.origin words.0 loaded one.entry result.0.0) }
    ensures other { IfSome result.1.0.1 (λ loaded. PutsAndLoads J.origin words.1 loaded other.entry result.1.0.0) }
{
    let rt = one.rt;
    let (first, second) = words;
    join(
        rt,
        move || put_and_load(turns, one, first),
        move || run_two(turns, other, second, collector),
    )
}

// Both have then seen what one of them had.
fn tell<'a, J: Naming, R: Wait>(me: &mut Attached<'a, J, R>, collector: &mut Collector<J>)
    ensures keeps { (me.new.slot ≡ me.old.slot) × (me.new.mine ≡ me.old.mine) }
    ensures both { me.new.seen ≡ collector.new.seen }
    ensures grows { IsPrefix collector.old.seen collector.new.seen }
    ensures mine { IsPrefix me.old.seen collector.new.seen }
    ensures stays { IsPrefix me.old.seen collector.old.seen → collector.new.seen ≡ collector.old.seen }
    ensures fine { IsLegalPass J.origin me.new }
    ensures collector_fine { IsLegalPass J.origin collector.new }
{
    me.heap.meet_collector(&mut me.me, collector);
}

// Two mutators have two slots.
fn apart<'a, J: Naming, R: Wait>(me: &mut Attached<'a, J, R>, other: &mut Attached<'a, J, R>)
    ensures apart { me.old.slot ≢ other.old.slot }
    ensures me { (me.new.slot ≡ me.old.slot) × (me.new.mine ≡ me.old.mine) }
    ensures seen { IsPrefix me.old.seen me.new.seen }
    ensures other { (other.new.slot ≡ other.old.slot) × (other.new.mine ≡ other.old.mine) }
{
    me.heap.meet(&mut me.me, &mut other.me);
}

// The number of the slot.
fn slot<'a, J: Naming, R: Wait>(me: &Attached<'a, J, R>) -> u8
    ensures slot { result ≡ me.now.slot }
    ensures range { result < SLOTS }
{
    me.me.slot().number()
}

// All have then seen one history. The answer is how many mutators came in it.
fn settle<'a, J: Naming, R: Wait>(
    one: &mut Attached<'a, J, R>,
    other: &mut Attached<'a, J, R>,
    collector: &mut Collector<J>,
) -> u64
    ensures apart { one.new.slot ≢ other.new.slot }
    ensures one { IsSettled J.origin one.old collector.new.seen one.new }
    ensures other { IsSettled J.origin other.old collector.new.seen other.new }
    ensures fine { IsLegalPass J.origin collector.new }
    ensures came { result ≡ counted_up (attaches collector.new.seen) }
{
    apart(one, other);
    tell(one, collector);
    tell(other, collector);
    // By now the collector has seen all that the two did, and each learns the rest from it.
    let came = one.heap.attaches_of(one.rt, collector);
    tell(one, collector);
    tell(other, collector);
    let (_one, _other) = (slot(one), slot(other));
    came
}

// What was loaded after the three have run, where nobody else came.
fn judge<'a, J: Naming, R: Wait>(
    one: &mut Attached<'a, J, R>,
    other: &mut Attached<'a, J, R>,
    collector: &mut Collector<J>,
    words: (u64, u64),
    loaded: (u64, u64),
) -> Result<(u64, u64), KeptError>
    requires one { HasKept J.origin words.0 loaded.0 one.old }
    requires other { HasKept J.origin words.1 loaded.1 other.old }
    ensures { IfOk result (λ loaded. loaded ≡ words) }
{
    if settle(one, other, collector) != 2 {
        return Err(KeptError::Stranger);
    }
    nobody_else_came();
    own_words_as_known();
    Ok(loaded)
}

// A mutator comes.
fn attach<'a, J: Naming, R: Wait>(
    rt: &'a R,
    heap: &'a SharedHeap<J>,
) -> Result<Attached<'a, J, R>, Refusal>
    ensures { IfOk result (λ me. Begun J.origin me) }
{
    let me = heap.attach(rt)?;
    Ok(Attached { rt, heap, me })
}

// The example in a heap that has a name.
fn keep_named<J: Naming + Send + Sync, R: Threads + Wait + Sync>(
    rt: &R,
    opened: Opened<Core>,
    words: (u64, u64),
) -> Result<(u64, u64), KeptError>
    requires table { opened.table ≡ J.table }
    requires pages { opened.origin ≡ J.origin }
    ensures { IfOk result (λ loaded. loaded ≡ words) }
{
    let (heap, collector) = SharedHeap::<J>::named(opened);
    let (Ok(one), Ok(other)) = (attach(rt, &heap), attach(rt, &heap)) else {
        return Err(KeptError::Refused);
    };
    let turns = Barrier::new(3);
    let ((mut one, first), ((mut other, second), mut collector)) = run_three(
        &turns, one, other, words, collector,
    );
    let (Some(first), Some(second)) = (first, second) else {
        return Err(KeptError::Refused);
    };
    let loaded = (first, second);
    judge(&mut one, &mut other, &mut collector, words, loaded)
}

/// Two mutators each put a word into an object of their own and load it after a cycle, which the collector runs beside
/// them, each of the three in a thread of its own. What each loads is what it put, though both store.
///
/// # Errors
/// [`KeptError::Open`]: the heap could not be opened; [`KeptError::Refused`]: a call was refused; [`KeptError::Stranger`]:
/// another mutator came.
pub fn keep_words<R: Threads + Wait + Sync>(
    rt: &R,
    alloc: Global,
    pages: u32,
    words: (u64, u64),
) -> Result<(u64, u64), KeptError>
    ensures { IfOk result (λ loaded. loaded ≡ words) }
{
    match open(alloc, pages) {
        Ok(opened) => keep_named::<Brand, _>(rt, opened, words),
        Err(error) => Err(KeptError::Open(error)),
    }
}
