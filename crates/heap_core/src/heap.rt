//! The core, and how it is made.
ghost use Rattle.pages.specs.Opening.{IsOpened, IsOpenedWithin};
ghost use Rattle.std.specs.Prelude.{◌≤◌};
ghost use Rattle.words.specs.declared.limits.TheConstants.{MOST_PAGES, MOST_REQUEST_WORDS};
ghost use Rattle.heap_spec.specs.Heap.{Heap};
ghost use Rattle.heap_spec.specs.Sound.{IsSound};
ghost use Rattle.heap_core.specs.CoreContents.{IsCore};
ghost use Rattle.heap_core.specs.DirectWrites.{IsWholeCore};
ghost use Rattle.heap_core.specs.Opening.{IsNew, IsNewWith};
ghost use Rattle.heap_core.specs.Standing.{StandsFor};

mod beside;
mod close_with;
mod counts;
mod cycle;
mod events;
mod kept;
mod lent;
mod linked;
mod looking;
pub(crate) mod many;
mod objects;
mod partial;
mod registers;
pub(crate) mod shares;
mod written;

use links::Links;
use marker::Marker;
use object_space::ObjectSpace;
use pages::{ReadCount, Uncounted};
use roots::{RootWords, Roots};
use std::alloc::Global;
use std::marker::Model;
use words::OpenError;
use words::limits::{MAX_PAGES, MAX_REQUEST_WORDS};

/// What a heap is opened with.
#[derive(Clone, Copy, Debug, PartialEq, Eq)]
pub struct Limits {
    /// Its pages.
    pub pages: u32,

    /// The most words of a request.
    pub request_words: u64,
}

/// A heap on one thread.
#[derive(Drop)]
pub struct Core {
    roots: Roots,
    objects: ObjectSpace,
    marker: Marker,
    is_marking: bool,
    needs_full: bool,
    count: u64,
    links: Links,
    root_words: RootWords,
    // How many heap words the marker read for collections, which only contracts see.
    reads: ReadCount,
    // By which the marker's readers end that read for steps.
    leave: Uncounted,
}

impl Model for Core {
    ghost use Rattle.heap_core.specs.CoreContents.{CoreContents};
    ghost use Rattle.heap_core.specs.Legal.{IsLegalCore};

    ghost Value = { CoreContents };

    ghost view = { λ c. record { roots = c.roots; store = c.objects; cycle = record { marker = c.marker; is_marking = c.is_marking; needs_full = c.needs_full; count = c.count; reads = c.reads }; links = c.links } };

    ghost invariant = { λ c. IsLegalCore (record { roots = c.roots; store = c.objects; cycle = record { marker = c.marker; is_marking = c.is_marking; needs_full = c.needs_full; count = c.count; reads = c.reads }; links = c.links }) };
}

impl Core {
    /// A heap of so many pages with no mutator, no object, globals of 0, and nothing to sweep. All memory that it ever takes
    /// is taken here, but for the helpers of `close_with`.
    ///
    /// # Errors
    /// [`OpenError::BadPages`] exactly for no page or more than the limit, and else [`OpenError::Memory`] where a growth
    /// of memory was refused.
    pub fn new(alloc: Global, pages: u32) -> Result<Core, OpenError>
        ensures { IsOpened pages result (λ core. IsNew pages core) }
    {
        if pages > MAX_PAGES {
            return Err(OpenError::BadPages);
        }
        Core::open(
            alloc,
            Limits {
                pages,
                request_words: MAX_REQUEST_WORDS,
            },
        )
    }

    /// The same, with limits of its own: as many pages as a heap may have, and requests as large as the heap.
    ///
    /// # Errors
    /// As [`Core::new`], with [`OpenError::BadPages`] exactly for no page or more than a heap may have.
    pub fn open(alloc: Global, limits: Limits) -> Result<Core, OpenError>
        requires { limits.request_words ≤ MOST_REQUEST_WORDS }
        ensures { IsOpenedWithin MOST_PAGES limits.pages result (λ core. IsNewWith limits.pages limits.request_words core) }
    {
        let pages = limits.pages;
        let objects = ObjectSpace::new(alloc, pages)?;
        objects.laws();
        let marker = Marker::new(alloc, pages)?;
        let roots = Roots::new(alloc, limits.request_words)?;
        let root_words = RootWords::new(alloc)?;
        Ok(Core {
            roots,
            objects,
            marker,
            is_marking: false,
            needs_full: true,
            count: 0,
            links: Links::new(),
            root_words,
            reads: ReadCount::new(alloc),
            leave: Uncounted::new(alloc),
        })
    }

    /// What is true of every core, whatever calls made it. Of its pages: free are exactly those on which no allocated
    /// object lies, and the pending ones are cut. Of its collector: each mark is that of an allocated object, and while a
    /// cycle is marking no page is pending and the dirty-page invariant holds. Where no full cycle is needed the invariant of
    /// carried pages holds.
    #[inline]
    pub fn laws(&self)
        ensures { IsCore self.now }
    {
        self.objects.laws();
        let _marker = &self.marker;
    }

    /// A heap is there, and it is sound: the core stands for one, whatever calls made it. Which one that is its births alone leave
    /// open.
    #[inline]
    pub fn stands(&self)
        ensures stands { (s : Heap) × StandsFor self.now s × IsSound s }
    {
        let _roots = &self.roots;
    }

    /// The same, and what the core's parts keep to themselves beside it: the premise of the laws of words that are written past
    /// the calls.
    #[inline]
    pub fn whole(&self)
        ensures { IsWholeCore self.now }
    {
        self.laws();
        self.stands();
        self.objects.whole();
        self.marker.laws();
    }
}
