//! How a heap is opened.
ghost use Rattle.std.specs.Prelude.{◌≡◌};
ghost use Rattle.pages.specs.Opening.{IsOpened};

use heap_core::Core;
use history::Opened;
use std::alloc::Global;
use words::OpenError;

/// A heap of so many pages, which has no name yet: [`crate::SharedHeap::named`] gives it one.
///
/// # Errors
/// [`OpenError::BadPages`] exactly for no page or more than the limit, and else [`OpenError::Memory`] where a growth of memory was
/// refused.
pub fn open(alloc: Global, pages: u32) -> Result<Opened<Core>, OpenError>
    ensures { IsOpened pages result (λ opened. opened.origin ≡ pages) }
{
    let core = Core::new(alloc, pages)?;
    history::open(alloc, u64::from(pages), core)
}
