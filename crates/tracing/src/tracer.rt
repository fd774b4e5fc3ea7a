//! The tracer: told a line, it says what is different after it.
ghost use Rattle.std.specs.Prelude.{◌≡◌, ◌≤◌, ◌*◌, IfOk, length};
ghost use Rattle.std.specs.List.{range_with_len};
ghost use Rattle.words.specs.declared.limits.TheConstants.{MAX_PAGES, PAGE_WORDS};
ghost use Rattle.tracing.specs.Leaving.{IsParted};
ghost use Rattle.tracing.specs.Sets.{bases_of, objects_without as gone_from};
ghost use Rattle.tracing.specs.Telling.{IsNewTracer, Tells};

use crate::leaving::{Leaving, leaving_now};
use crate::roots_changed::words_put;
use crate::seen::{Seen, seen_now};
use crate::sets::{bases, objects_without};
use crate::telling::changes;
use crate::told::{After, Before, Told};
use heap_core::Core;
use heap_spec::{Event, Reply};
use replayer::{Hint, Replayer};
use std::alloc::{AllocError, Global};
use std::marker::Model;
use std::mem::replace;
use trace_lines::Record;
use words::RunError;
use words::limits::PAGE_WORDS;

/// A run so far, and what was seen after its last line.
#[derive(Drop)]
pub struct Tracer {
    alloc: Global,
    pages: Vec<u64>,
    replayer: Replayer,
    flags: Vec<bool>,
    seen: Seen,
    waiting: Vec<u64>,
}

impl Model for Tracer {
    ghost use Rattle.std.specs.Prelude.{◌≡◌, length};
    ghost use Rattle.words.specs.declared.limits.TheConstants.{FIRST_ADDRESS};
    ghost use Rattle.tracing.specs.Telling.{TracerContents};

    ghost Value = { TracerContents };

    ghost view = { λ t. record { replayer = t.replayer; room = length t.flags.items; pages = t.pages.items; seen = t.seen; waiting = t.waiting.items } };

    ghost invariant = { λ t. t.replayer.heap.origin ≡ FIRST_ADDRESS };
}

// The numbers of so many pages.
fn page_numbers(alloc: Global, pages: u32) -> Result<Vec<u64>, AllocError>
    ensures { IfOk result (λ numbers. numbers.items ≡ range_with_len 0 pages) }
{
    (0..u64::from(pages)).collect::<Vec<u64>>(alloc)
}

// Room for a flag of each word of so many pages.
fn flags_for(alloc: Global, pages: u32) -> Result<Vec<bool>, AllocError>
    requires { pages ≤ MAX_PAGES }
    ensures { IfOk result (λ flags. length flags.items ≡ PAGE_WORDS * pages) }
{
    vec![in alloc; false; PAGE_WORDS as usize * pages as usize]
}

// Where the objects went that were there, and the cells that waited.
fn leaving_from(
    alloc: Global,
    told: &Told<'_>,
    waited: &[u64],
    old: &Seen,
    new: &Seen,
) -> Result<Leaving, AllocError>
    ensures { IfOk result (IsParted told.now.core told.now.event.now waited.now (bases_of (gone_from old.now.truth.objects.items new.now.truth.objects.items))) }
{
    let gone = objects_without(
        alloc,
        old.truth.objects.as_slice(),
        new.truth.objects.as_slice(),
    )?;
    let gone = bases(alloc, gone.as_slice())?;
    leaving_now(alloc, told.core, told.event, waited, gone.as_slice())
}

impl Tracer {
    /// A tracer of a new heap of so many pages.
    ///
    /// # Errors
    /// [`RunError::Memory`] where a growth of memory was refused.
    pub fn new(alloc: Global, pages: u32) -> Result<Tracer, RunError>
        requires { (1 ≤ pages) × (pages ≤ MAX_PAGES) }
        ensures { IfOk result (IsNewTracer pages) }
    {
        let replayer = Replayer::new(alloc, pages)?;
        Ok(Tracer {
            alloc,
            pages: page_numbers(alloc, pages)?,
            replayer,
            flags: flags_for(alloc, pages)?,
            seen: Seen::nothing(alloc),
            waiting: Vec::new(alloc),
        })
    }

    /// Goes on by an event with its reply and what that leaves open, after which the core, if there is one, is this,
    /// and says what is different; `None` if the checker says no, and then the run stays where it was.
    ///
    /// # Errors
    /// If memory is refused, after which the tracer is of no use.
    pub fn tell(
        &mut self,
        core: Option<&Core>,
        event: &Event,
        reply: &Reply,
        hint: Hint,
    ) -> Result<Option<Record>, AllocError>
        ensures { IfOk result (λ told. Tells self.old core.entry event.now reply.now hint.entry told self.new) }
    {
        let alloc = self.alloc;
        let put = words_put(self.replayer.heap(), event);
        if !self.replayer.step(event, reply, hint) {
            return Ok(None);
        }
        let pages = self.pages.as_slice();
        let seen = seen_now(alloc, core, &mut self.replayer, &mut self.flags, pages)?;
        let waited = self.waiting.as_slice();
        let told = Told { core, event, reply };
        let mut left = leaving_from(alloc, &told, waited, &self.seen, &seen)?;
        let before = Before {
            put: &put,
            seen: &self.seen,
        };
        let after = After {
            replayer: &self.replayer,
            seen: &seen,
            leaving: &left,
        };
        let record = changes(alloc, &told, &before, &after)?;
        self.seen = seen;
        self.waiting = replace(&mut left.waiting, Vec::new(alloc));
        Ok(Some(record))
    }
}
