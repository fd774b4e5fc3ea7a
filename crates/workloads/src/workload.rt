//! Workloads, as they are read line by line.
ghost use Rattle.std.specs.Prelude.{◌≡◌, ℕ, List, ◌+◌, ◌<◌, ◌≤◌, true, [], ◌∷◌, ◌++◌, Some, All, length, slice_set, slice_index_or, OnOk, OnErr, MatchBool};
ghost use Rattle.shared.specs.WhileAttached.{IsNoDetach};
ghost use Rattle.scripts.specs.declared.limits.TheConstants.{LINE_BYTES};
ghost use Rattle.scripts.specs.Ends.{read_faults, write_faults};
ghost use Rattle.workloads.specs.Workloads.{MayFollow, is_collectors};
ghost use Rattle.workloads.specs.Reading.{ReadsWorkload};
ghost use Rattle.workloads.specs.Taking.{with_command, no_lines, IsLineTaken};

use crate::lines::Lines;
use crate::reading::read_lines;
use heap_spec::{Call, Event};
use scripts::{InputBuffer, ScriptError, Source, command};
use std::alloc::{AllocError, Global};
use std::marker::Model;
use words::limits::SLOTS;

/// A list of lines for each actor: its calls for each mutator, and the collector's commands. Contracts see both as lists.
#[derive(Drop)]
pub struct Workload {
    mutators: Vec<Lines<Call>>,
    collector: Lines<Event>,
}

impl Model for Workload {
    ghost use Rattle.workloads.specs.Workloads.{ActorLines, CanBeRun};

    ghost Value = { ActorLines };

    ghost view = { λ w. record { mutators = w.mutators.items; collector = w.collector } };

    ghost invariant = { λ w. CanBeRun (record { mutators = w.mutators.items; collector = w.collector }) };
}

// Puts a call behind those of a mutator.
fn put(lists: &mut Vec<Lines<Call>>, slot: usize, call: Call) -> Result<(), AllocError>
    requires { slot < length lists.old.items }
    ensures count { length lists.new.items ≡ length lists.old.items }
    ensures put { OnOk result (lists.new.items ≡ slice_set lists.old.items slot (slice_index_or lists.old.items slot [] ++ call ∷ [])) }
    ensures same { OnErr result (lists.new.items ≡ lists.old.items) }
{
    lists[slot].push(call)
}

// Whether a call is one that no workload has.
fn is_detach(call: Call) -> bool
    ensures { MatchBool result (call ≡ Call.Detach) (call ≡ Call.Detach → ⊥) }
{
    matches!(call, Call::Detach)
}

impl Workload {
    // No line yet.
    fn new(alloc: Global) -> Workload
        ensures { result ≡ no_lines }
    {
        Workload {
            mutators: Vec::new(alloc),
            collector: Lines::new(alloc),
        }
    }

    /// The number of mutators.
    pub fn mutators(&self) -> usize
        ensures value { result ≡ length self.now.mutators }
        ensures slots { result ≤ SLOTS }
    {
        self.mutators.len()
    }

    /// The calls of the mutator of this number, which are no detach.
    pub fn calls(&self, mutator: usize) -> &[Call]
        requires { mutator < length self.now.mutators }
        ensures value { result.now ≡ slice_index_or self.now.mutators mutator [] }
        ensures plain { All IsNoDetach result.now }
    {
        self.mutators[mutator].as_slice()
    }

    /// The collector's commands.
    pub fn commands(&self) -> &[Event]
        ensures value { result.now ≡ self.now.collector }
        ensures own { All (λ command. is_collectors command ≡ true) result.now }
    {
        self.collector.as_slice()
    }

    // Whether a command breaks no rule behind so many lines.
    fn may_follow(&self, lines: u64, command: &Event) -> bool
        ensures { MatchBool result (MayFollow lines (length self.now.mutators) command.now) (MayFollow lines (length self.now.mutators) command.now → ⊥) }
    {
        let mutators = self.mutators.len();
        match command {
            Event::Attach => lines == mutators as u64 && mutators < usize::from(SLOTS),
            Event::Mutator(slot, call) => slot.index() < mutators && !is_detach(*call),
            Event::Begin
            | Event::BeginPartial
            | Event::Roots
            | Event::Mark(_)
            | Event::Retrace
            | Event::Finish
            | Event::Sweep
            | Event::Collect
            | Event::Number => true,
        }
    }

    // Takes a command that breaks no rule.
    fn take(&mut self, alloc: Global, lines: u64, command: Event) -> Result<(), AllocError>
        requires { MayFollow lines (length self.old.mutators) command }
        ensures { OnOk result (self.new ≡ with_command command self.old) }
    {
        match command {
            Event::Attach => self.mutators.push(Lines::new(alloc))?,
            Event::Mutator(slot, call) => put(&mut self.mutators, slot.index(), call)?,
            Event::Begin
            | Event::BeginPartial
            | Event::Roots
            | Event::Mark(_)
            | Event::Retrace
            | Event::Finish
            | Event::Sweep
            | Event::Collect
            | Event::Number => self.collector.push(command)?,
        }
        Ok(())
    }

    /// Takes the line of this number, counted from 1.
    pub(crate) fn take_line(
        &mut self,
        alloc: Global,
        number: u64,
        line: &[u8],
    ) -> Result<(), ScriptError>
        requires number { 1 ≤ number }
        requires short { length line.now ≤ LINE_BYTES }
        ensures turn { IsLineTaken number line.now self.old self.new result }
        ensures writes_nothing { write_faults result ≡ 0 }
    {
        let Some(command) = command(line) else {
            return Err(ScriptError::BadLine(number));
        };
        if !self.may_follow(number - 1, &command) {
            return Err(ScriptError::BadLine(number));
        }
        match self.take(alloc, number - 1, command) {
            Ok(()) => Ok(()),
            Err(_) => Err(ScriptError::Memory),
        }
    }

    /// Reads a workload. The first fault ends it: a line that breaks a rule, the reader's, or memory's.
    pub fn read<R: Source>(alloc: Global, reader: &mut R) -> Result<Workload, ScriptError>
        ensures reads { (input : List ℕ) → R.remaining reader.old ≡ Some input → ReadsWorkload input (R.remaining reader.new) result }
        ensures faults { R.faults reader.new ≡ R.faults reader.old + read_faults result }
        ensures writes_nothing { write_faults result ≡ 0 }
    {
        let Ok(mut buffer) = InputBuffer::new(alloc) else {
            return Err(ScriptError::Memory);
        };
        let mut workload = Workload::new(alloc);
        match read_lines(alloc, &mut workload, &mut buffer, reader) {
            Ok(()) => Ok(workload),
            Err(fault) => Err(fault),
        }
    }
}
