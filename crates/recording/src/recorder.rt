//! A heap that is asked, and what its replies leave open.
ghost use Rattle.std.specs.Prelude.{◌≡◌, [], IfOk, IfErr};
ghost use Rattle.heap_core.specs.Acts.{IsAct};
ghost use Rattle.heap_core.specs.Following.{IsLine};
ghost use Rattle.recording.specs.RecorderContents.{names_nothing};
ghost use Rattle.recording.specs.Noting.{IsHint, IsNoted, KeepsSome, NotesGone, NotesWord, NotesCall, NotesEvent};

use heap_core::Core;
use heap_spec::{Call, Event, Reply};
use kept_bases::sort_out;
use replayer::Hint;
use std::alloc::{AllocError, Global};
use std::marker::Model;
use words::{Reg, Slot};

/// A heap, the bases of its objects, and what the last event made of them.
#[derive(Drop)]
pub struct Recorder {
    alloc: Global,
    core: Core,
    bases: Vec<u64>,
    gone: Vec<u64>,
    place: Option<u64>,
    has_collected: bool,
}

impl Model for Recorder {
    ghost use Rattle.recording.specs.RecorderContents.{RecorderContents, note_of};

    ghost Value = { RecorderContents };

    ghost view = { λ r. record { core = r.core; bases = r.bases.items; note = note_of r.place r.has_collected r.gone.items } };
}

impl Recorder {
    /// A recorder that knows of no object: of a new heap it knows all.
    pub fn new(alloc: Global, core: Core) -> Recorder
        ensures core { result.core ≡ core }
        ensures bases { result.bases ≡ [] }
        ensures note { result.note ≡ names_nothing }
    {
        Recorder {
            alloc,
            core,
            bases: Vec::new(alloc),
            gone: Vec::new(alloc),
            place: None,
            has_collected: false,
        }
    }

    /// The heap.
    pub fn core(&self) -> &Core
        ensures { result.now ≡ self.now.core }
    {
        &self.core
    }

    // Looks which objects the heap still keeps.
    fn sort_out(&mut self) -> Result<(), AllocError>
        ensures core { self.new.core ≡ self.old.core }
        ensures sorted { IfOk result (λ done. KeepsSome self.old.core self.old self.new) }
    {
        sort_out(self.alloc, &self.core, &mut self.bases, &mut self.gone)
    }

    // Notes which objects are gone.
    fn note_gone(&mut self) -> Result<(), AllocError>
        ensures core { self.new.core ≡ self.old.core }
        ensures gone { IfOk result (λ done. NotesGone self.old.core self.old self.new) }
    {
        self.place = None;
        self.has_collected = true;
        sort_out(self.alloc, &self.core, &mut self.bases, &mut self.gone)
    }

    // Notes the object that a request was granted.
    fn note_place(&mut self, slot: Slot, into: Reg) -> Result<(), AllocError>
        ensures core { self.new.core ≡ self.old.core }
        ensures word { IfOk result (λ done. NotesWord self.old.core slot into self.old self.new) }
    {
        let Ok(base) = self.core.get(slot, into) else {
            return Ok(());
        };
        self.place = Some(base);
        self.bases.push(base)?;
        Ok(())
    }

    // Notes what a call of a mutator left.
    fn note_call(&mut self, slot: Slot, call: &Call) -> Result<(), AllocError>
        ensures core { self.new.core ≡ self.old.core }
        ensures notes { IfOk result (λ done. NotesCall self.old.core slot call.now self.old self.new) }
    {
        match call {
            Call::Alloc(into, _, _) => self.note_place(slot, *into),
            Call::Free(_) => self.sort_out(),
            _ => Ok(()),
        }
    }

    // Notes what an event left that was not refused.
    fn note(&mut self, event: &Event) -> Result<(), AllocError>
        ensures core { self.new.core ≡ self.old.core }
        ensures notes { IfOk result (λ done. NotesEvent self.old.core event.now self.old self.new) }
    {
        match event {
            Event::Mutator(slot, call) => self.note_call(*slot, call),
            Event::Finish | Event::Collect => self.note_gone(),
            Event::Attach
            | Event::Begin
            | Event::BeginPartial
            | Event::Roots
            | Event::Mark(_)
            | Event::Retrace
            | Event::Sweep
            | Event::Number => Ok(()),
        }
    }

    /// Makes the call that an event is, and notes what its reply leaves open: with the hint it is what a yes of the checker
    /// means, as long as all objects were known before, and they are known afterwards.
    ///
    /// # Errors
    /// If memory is refused, in which to note objects; the call was made, and what is known from then on may lack some.
    pub fn act(&mut self, event: &Event) -> Result<Reply, AllocError>
        ensures acts { IfOk result (λ reply. IsAct self.old.core event.now reply self.new.core) }
        ensures line { IfOk result (λ reply. IsNoted self.old event.now reply self.new) }
        ensures made { IfErr result (λ error. (reply : Reply) × IsAct self.old.core event.now reply self.new.core × IsLine self.old.core event.now reply self.new.core) }
    {
        let reply = self.core.act(*event);
        self.place = None;
        self.has_collected = false;
        let Reply::Refused(_) = reply else {
            self.note(event)?;
            return Ok(reply);
        };
        Ok(reply)
    }

    /// What the reply to the last event leaves open: where the object of a granted request went, or which objects are gone.
    pub fn hint(&self) -> Hint<'_>
        ensures { IsHint self.now.note result }
    {
        if let Some(base) = self.place {
            return Hint::Place(base);
        }
        if self.has_collected {
            return Hint::Forgot(self.gone.as_slice());
        }
        Hint::Nothing
    }
}
