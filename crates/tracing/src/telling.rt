//! What is said of a line: how what was asked before it became what was asked after it.
ghost use Rattle.std.specs.Prelude.{IfOk};
ghost use Rattle.tracing.specs.Sets.{SaysChange};
ghost use Rattle.tracing.specs.Telling.{SaysCycle, SaysLine, SaysObjects, SaysSets, SaysWords};

use crate::changes::{
    current_change, entries_change, flag_change, link_changes, links_gone, number_change,
};
use crate::comings::{attached, born, detached};
use crate::heap_words::wrote;
use crate::looked::reads_of;
use crate::places::places_of;
use crate::roots_changed::{global_change, register_change, words_put};
use crate::seen::Seen;
use crate::sets::{listed, set_change};
use crate::stacks::{stack_change, stack_step};
use crate::told::{After, Before, Told};
use crate::words_read::words_read;
use std::alloc::{AllocError, Global};
use trace_lines::{CycleChanges, ObjectChanges, Record, SetChange, SetChanges, WordChanges};

// Which mutators and objects come and go.
fn object_changes(
    alloc: Global,
    told: &Told<'_>,
    before: &Before<'_>,
    after: &After<'_>,
) -> Result<ObjectChanges, AllocError>
    ensures { IfOk result (SaysObjects told.now.event.now told.now.reply.now before.now.seen.now.truth after.now.seen.now.truth after.now.leaving.now after.now.replayer.now.births) }
{
    let (old, new) = (&before.seen.truth, &after.seen.truth);
    let births = after.replayer.births();
    Ok(ObjectChanges {
        attached: listed(alloc, attached(told.reply))?,
        detached: listed(alloc, detached(told.event, told.reply))?,
        forgotten: places_of(alloc, after.leaving.forgotten.as_slice())?,
        freed: places_of(alloc, after.leaving.freed.as_slice())?,
        born: born(
            alloc,
            old.objects.as_slice(),
            new.objects.as_slice(),
            births,
        )?,
    })
}

// How sets change.
fn set_changes(alloc: Global, old: &Seen, new: &Seen) -> Result<SetChanges, AllocError>
    ensures { IfOk result (SaysSets old.now.truth new.now.truth old.now.knowledge new.now.knowledge) }
{
    let (was, is) = (&old.truth, &new.truth);
    let (known, now) = (&old.knowledge, &new.knowledge);
    Ok(SetChanges {
        marked: set_change(alloc, known.marked.as_slice(), now.marked.as_slice())?,
        reached: set_change(alloc, was.reached.as_slice(), is.reached.as_slice())?,
        touched: set_change(alloc, was.touched.as_slice(), is.touched.as_slice())?,
        dirty: set_change(alloc, known.dirty.as_slice(), now.dirty.as_slice())?,
        carried: set_change(alloc, known.carried.as_slice(), now.carried.as_slice())?,
        pending: set_change(alloc, known.pending.as_slice(), now.pending.as_slice())?,
    })
}

// Which words change in the heap, and how links do.
fn word_changes(
    alloc: Global,
    told: &Told<'_>,
    before: &Before<'_>,
    after: &After<'_>,
) -> Result<WordChanges, AllocError>
    ensures { IfOk result (SaysWords after.now.replayer.now.heap told.now.event.now told.now.reply.now before.now.put.now
        before.now.seen.now.truth.links.items after.now.seen.now.truth.links.items) }
{
    let (heap, event, reply) = (after.replayer.heap(), told.event, told.reply);
    let (old, new) = (before.put, words_put(heap, event));
    let links = before.seen.truth.links.as_slice();
    let now = after.seen.truth.links.as_slice();
    let gone = links_gone(alloc, links, now)?;
    let stack = stack_change(alloc, heap, stack_step(event, reply))?;
    Ok(WordChanges {
        wrote: wrote(alloc, heap, event, reply, gone.as_slice())?,
        registers: listed(alloc, register_change(old.register, new.register))?,
        stacks: listed(alloc, stack)?,
        globals: listed(alloc, global_change(old.global, new.global))?,
        links: link_changes(alloc, links, now)?,
    })
}

// How far the collector is, and what the line looked at: how the marked objects became those of now is told.
fn cycle_changes(
    alloc: Global,
    told: &Told<'_>,
    before: &Before<'_>,
    after: &After<'_>,
    marked: &Option<SetChange>,
) -> Result<CycleChanges, AllocError>
    requires { SaysChange before.now.seen.now.knowledge.marked.items after.now.seen.now.knowledge.marked.items marked.now }
    ensures { IfOk result (SaysCycle told.now.core after.now.replayer.now.heap.roots told.now.event.now told.now.reply.now before.now.seen.now after.now.seen.now) }
{
    let (old, new) = (before.seen, after.seen);
    let (known, now) = (&old.knowledge, &new.knowledge);
    let heap = after.replayer.heap();
    Ok(CycleChanges {
        entries: entries_change(alloc, known.entries.as_slice(), now.entries.as_slice())?,
        current: current_change(known.current, now.current),
        is_marking: flag_change(old.truth.is_marking, new.truth.is_marking),
        count: number_change(old.truth.count, new.truth.count),
        read: reads_of(alloc, heap, told.event, told.reply)?,
        looked: words_read(alloc, told, known, now, marked)?,
    })
}

/// What is said of a line: how what there was before it became what there is after it.
pub(crate) fn changes(
    alloc: Global,
    told: &Told<'_>,
    before: &Before<'_>,
    after: &After<'_>,
) -> Result<Record, AllocError>
    ensures { IfOk result (SaysLine told.now.core told.now.event.now told.now.reply.now after.now.replayer.now before.now.put.now
        before.now.seen.now after.now.seen.now after.now.leaving.now) }
{
    let objects = object_changes(alloc, told, before, after)?;
    let sets = set_changes(alloc, before.seen, after.seen)?;
    let words = word_changes(alloc, told, before, after)?;
    let cycle = cycle_changes(alloc, told, before, after, &sets.marked)?;
    Ok(Record {
        objects,
        sets,
        words,
        cycle,
    })
}
