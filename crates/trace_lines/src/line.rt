//! The lines of a trace.
ghost use Rattle.std.specs.Prelude.{◌≡◌, ◌++◌, IfOk, OnOk, string_bytes};
ghost use Rattle.trace_lines.specs.Records.{changes_text, collector_text, cycle_text, head_text, objection_text, objects_text, record_text, refused_text, sets_text, words_text};

use crate::keys::{put_any, put_key, put_some};
use crate::record::{CycleChanges, ObjectChanges, Objection, Record, SetChanges, WordChanges};
use crate::shown::Shown;
use std::alloc::{AllocError, Global};

// Puts behind a text which mutators and objects come and go.
fn put_objects(
    behind: &mut String,
    alloc: Global,
    changes: &ObjectChanges,
) -> Result<(), AllocError>
    ensures { OnOk result (string_bytes behind.new ≡ string_bytes behind.old ++ objects_text changes.now) }
{
    put_any(behind, alloc, "attach", changes.attached.as_slice())?;
    put_any(behind, alloc, "detach", changes.detached.as_slice())?;
    put_any(behind, alloc, "forget", changes.forgotten.as_slice())?;
    put_any(behind, alloc, "free", changes.freed.as_slice())?;
    put_any(behind, alloc, "new", changes.born.as_slice())
}

// Puts behind a text how sets change.
fn put_sets(behind: &mut String, alloc: Global, changes: &SetChanges) -> Result<(), AllocError>
    ensures { OnOk result (string_bytes behind.new ≡ string_bytes behind.old ++ sets_text changes.now) }
{
    put_some(behind, alloc, "marked", &changes.marked)?;
    put_some(behind, alloc, "reached", &changes.reached)?;
    put_some(behind, alloc, "touched", &changes.touched)?;
    put_some(behind, alloc, "dirty", &changes.dirty)?;
    put_some(behind, alloc, "carried", &changes.carried)?;
    put_some(behind, alloc, "pending", &changes.pending)
}

// Puts behind a text which words change.
fn put_words(behind: &mut String, alloc: Global, changes: &WordChanges) -> Result<(), AllocError>
    ensures { OnOk result (string_bytes behind.new ≡ string_bytes behind.old ++ words_text changes.now) }
{
    put_any(behind, alloc, "wrote", changes.wrote.as_slice())?;
    put_any(behind, alloc, "regs", changes.registers.as_slice())?;
    put_any(behind, alloc, "stacks", changes.stacks.as_slice())?;
    put_any(behind, alloc, "globals", changes.globals.as_slice())?;
    put_any(behind, alloc, "links", changes.links.as_slice())
}

// Puts behind a text what the collector has to read, and where it is.
fn put_cycle(behind: &mut String, alloc: Global, changes: &CycleChanges) -> Result<(), AllocError>
    ensures { OnOk result (string_bytes behind.new ≡ string_bytes behind.old ++ cycle_text changes.now) }
{
    put_some(behind, alloc, "entries", &changes.entries)?;
    put_some(behind, alloc, "current", &changes.current)?;
    put_some(behind, alloc, "phase", &changes.is_marking)?;
    put_some(behind, alloc, "count", &changes.count)?;
    put_some(behind, alloc, "read", &changes.read)?;
    put_any(behind, alloc, "looked", changes.looked.as_slice())
}

// Puts behind a text what is different.
fn put_changes(behind: &mut String, alloc: Global, changes: &Record) -> Result<(), AllocError>
    ensures { OnOk result (string_bytes behind.new ≡ string_bytes behind.old ++ changes_text changes.now) }
{
    put_objects(behind, alloc, &changes.objects)?;
    put_sets(behind, alloc, &changes.sets)?;
    put_words(behind, alloc, &changes.words)?;
    put_cycle(behind, alloc, &changes.cycle)
}

/// The line of a command, its reply, and what is different after it, without a newline. Neither text may have a
/// character that JSON would write otherwise.
///
/// # Errors
/// If memory is refused.
pub fn record_line(
    alloc: Global,
    command: &str,
    reply: &str,
    changes: &Record,
) -> Result<String, AllocError>
    ensures { IfOk result (λ line. string_bytes line ≡ record_text command.now reply.now changes.now) }
{
    let mut line = format!(in alloc; "{{\"c\":\"{command}\",\"r\":\"{reply}\"")?;
    put_changes(&mut line, alloc, changes)?;
    line.push_str("}")?;
    Ok(line)
}

// Puts behind a text what is said against a line.
fn put_objection(
    behind: &mut String,
    alloc: Global,
    objection: &Objection,
) -> Result<(), AllocError>
    ensures { OnOk result (string_bytes behind.new ≡ string_bytes behind.old ++ objection_text objection.now) }
{
    put_key(behind, "no")?;
    objection.line.put(behind, alloc)?;
    put_any(behind, alloc, "says", objection.says.as_slice())?;
    put_some(behind, alloc, "about", &objection.about)
}

/// The line of a command that is refused with its answer, and of what is said against it, without a newline. No text
/// may have a character that JSON would write otherwise.
///
/// # Errors
/// If memory is refused.
pub fn refused_line(
    alloc: Global,
    command: &str,
    answer: &str,
    objection: &Objection,
) -> Result<String, AllocError>
    ensures { IfOk result (λ line. string_bytes line ≡ refused_text command.now answer.now objection.now) }
{
    let mut line = format!(in alloc; "{{\"c\":\"{command}\",\"r\":\"{answer}\"")?;
    put_objection(&mut line, alloc, objection)?;
    line.push_str("}")?;
    Ok(line)
}

// Puts behind a text that nothing is said of what a collector knows, where it is so.
fn put_collector(behind: &mut String, has_collector: bool) -> Result<(), AllocError>
    ensures { OnOk result (string_bytes behind.new ≡ string_bytes behind.old ++ collector_text has_collector) }
{
    if has_collector {
        return Ok(());
    }
    behind.push_str(",\"collector\":0")
}

/// The first line of a trace, without a newline: what it is of, how many pages the heap has, how many records follow,
/// and whether they say what a collector knows. The title may have no character that JSON would write otherwise.
///
/// # Errors
/// If memory is refused.
pub fn head_line(
    alloc: Global,
    title: &str,
    pages: u32,
    lines: u64,
    has_collector: bool,
) -> Result<String, AllocError>
    ensures { IfOk result (λ line. string_bytes line ≡ head_text title.now pages lines has_collector) }
{
    let mut line = format!(in alloc; "{{\"mpheap\":\"trace\",\"version\":1,\"title\":\"{title}\"")?;
    put_key(&mut line, "pages")?;
    u64::from(pages).put(&mut line, alloc)?;
    put_key(&mut line, "lines")?;
    lines.put(&mut line, alloc)?;
    put_collector(&mut line, has_collector)?;
    line.push_str("}")?;
    Ok(line)
}
