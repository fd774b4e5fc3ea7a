//! The replies to a workload's lines, and how they are printed.
ghost use Rattle.std.specs.Prelude.{◌≡◌, ℕ, ◌+◌, ◌≤◌, length, take, Err, OnOk, OnErr};
ghost use Rattle.std.specs.Io.KnownBytes.{Appends};
ghost use Rattle.words.specs.declared.limits.TheConstants.{MAX_PAGES, SLOTS};
ghost use Rattle.scripts.specs.declared.errors.ScriptError.TheVariants.{Write};
ghost use Rattle.scripts.specs.Ends.{write_faults};
ghost use Rattle.workloads.specs.Printing.{replies_text, mutators_text, all_text};

use crate::lines::Lines;
use heap_spec::Reply;
use scripts::{Failed, ScriptError, Sink, print_reply, write_all};
use std::marker::Model;
use words::Slot;

/// What each actor of a workload was answered.
#[derive(Drop)]
pub struct Replies {
    mutators: Vec<Lines<Reply>>,
    collector: Lines<Reply>,
}

impl Model for Replies {
    ghost use Rattle.std.specs.Prelude.{◌≤◌, length};
    ghost use Rattle.words.specs.declared.limits.TheConstants.{SLOTS};
    ghost use Rattle.workloads.specs.Printing.{ActorReplies};

    ghost Value = { ActorReplies };

    ghost view = { λ r. record { mutators = r.mutators.items; collector = r.collector } };

    ghost invariant = { λ r. length r.mutators.items ≤ SLOTS };
}

impl Replies {
    /// The replies to each mutator's lines, from slot 0 on, and to the collector's.
    pub fn new(mutators: Vec<Lines<Reply>>, collector: Lines<Reply>) -> Replies
        requires { length mutators.items ≤ SLOTS }
        ensures mutators { result.mutators ≡ mutators.items }
        ensures collector { result.collector ≡ collector }
    {
        Replies {
            mutators,
            collector,
        }
    }
}

// Prints replies, a line each.
fn print_lines<W: Sink>(replies: &Lines<Reply>, pages: u32, writer: &mut W) -> Result<(), Failed>
    requires { pages ≤ MAX_PAGES }
    ensures ok { OnOk result (Appends (W.written writer.old) (W.written writer.new) (replies_text pages replies.now)) }
    ensures err { OnErr result ((n : ℕ) × Appends (W.written writer.old) (W.written writer.new) (take n (replies_text pages replies.now))) }
    ensures none { OnOk result (W.faults writer.new ≡ W.faults writer.old) }
    ensures fault { OnErr result (W.faults writer.new ≡ W.faults writer.old + 1) }
{
    for reply in replies.as_slice() {
        print_reply(writer, pages, *reply)?;
    }
    Ok(())
}

// Prints each mutator's line, and its replies below.
fn print_mutators<W: Sink>(
    mutators: &[Lines<Reply>],
    pages: u32,
    writer: &mut W,
) -> Result<(), Failed>
    requires pages { pages ≤ MAX_PAGES }
    requires slots { length mutators.now ≤ SLOTS }
    ensures ok { OnOk result (Appends (W.written writer.old) (W.written writer.new) (mutators_text pages 0 mutators.now)) }
    ensures err { OnErr result ((n : ℕ) × Appends (W.written writer.old) (W.written writer.new) (take n (mutators_text pages 0 mutators.now))) }
    ensures none { OnOk result (W.faults writer.new ≡ W.faults writer.old) }
    ensures fault { OnErr result (W.faults writer.new ≡ W.faults writer.old + 1) }
{
    for i in 0..mutators.len() {
        let Some(slot) = Slot::new(i as u8) else {
            unreachable!()
        };
        print_reply(writer, pages, Reply::Slot(slot))?;
        print_lines(&mutators[i], pages, writer)?;
    }
    Ok(())
}

// Prints the replies of all actors.
fn print_all<W: Sink>(replies: &Replies, pages: u32, writer: &mut W) -> Result<(), Failed>
    requires { pages ≤ MAX_PAGES }
    ensures ok { OnOk result (Appends (W.written writer.old) (W.written writer.new) (all_text pages replies.now)) }
    ensures err { OnErr result ((n : ℕ) × Appends (W.written writer.old) (W.written writer.new) (take n (all_text pages replies.now))) }
    ensures none { OnOk result (W.faults writer.new ≡ W.faults writer.old) }
    ensures fault { OnErr result (W.faults writer.new ≡ W.faults writer.old + 1) }
{
    print_mutators(replies.mutators.as_slice(), pages, writer)?;
    write_all(writer, b"collector\n")?;
    print_lines(&replies.collector, pages, writer)
}

/// Prints the replies of a run on a heap of so many pages: each mutator's below the line `mutator K`, and the collector's below `collector`.
/// Takes no memory.
pub fn print_replies<W: Sink>(
    replies: &Replies,
    pages: u32,
    writer: &mut W,
) -> Result<(), ScriptError>
    requires { pages ≤ MAX_PAGES }
    ensures ok { OnOk result (Appends (W.written writer.old) (W.written writer.new) (all_text pages replies.now)) }
    ensures err { OnErr result ((n : ℕ) × Appends (W.written writer.old) (W.written writer.new) (take n (all_text pages replies.now))) }
    ensures write { OnErr result (result ≡ Err Write) }
    ensures faults { W.faults writer.new ≡ W.faults writer.old + write_faults result }
{
    match print_all(replies, pages, writer) {
        Ok(()) => Ok(()),
        Err(_) => Err(ScriptError::Write),
    }
}
