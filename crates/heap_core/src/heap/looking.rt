//! What a collector knows, for a caller that shows it: marks, dirty and pending pages, and what is left to read. These are no
//! events: nothing changes.
ghost use Rattle.std.specs.Prelude.{◌≡◌, slice_index_or, false};
ghost use Rattle.heap_core.specs.Looks.{marks_at};

use super::Core;
use marker::Entry;
use words::PageNo;

impl Core {
    /// Whether an object that begins at a base is kept, and marked.
    pub fn is_marked(&self, base: u64) -> bool
        ensures { result ≡ marks_at self.now base }
    {
        self.laws();
        let Some(found) = self.kept_at(base) else {
            return false;
        };
        if found.base != base {
            return false;
        }
        self.marker.laws();
        self.marker.is_marked(base)
    }

    /// Whether a page is dirty. One that the heap hasn't is not.
    pub fn is_dirty(&self, page: u64) -> bool
        ensures { result ≡ slice_index_or self.now.cycle.marker.dirty page false }
    {
        self.laws();
        if page >= u64::from(self.objects.pages()) {
            return false;
        }
        self.marker.dirty_pages().is_dirty(page as PageNo)
    }

    /// Whether a page is carried: a partial cycle will read it. One that the heap hasn't is not.
    pub fn is_carried(&self, page: u64) -> bool
        ensures { result ≡ slice_index_or self.now.cycle.marker.carried page false }
    {
        self.laws();
        self.marker.laws();
        if page >= u64::from(self.objects.pages()) {
            return false;
        }
        self.marker.carried_pages().is_dirty(page as PageNo)
    }

    /// Whether a page is pending. One that the heap hasn't is not.
    pub fn is_pending(&self, page: u64) -> bool
        ensures { result ≡ slice_index_or self.now.store.pending page false }
    {
        self.laws();
        if page >= u64::from(self.objects.pages()) {
            return false;
        }
        self.objects.is_pending(page as PageNo)
    }

    /// The entry that is begun and no longer on the mark stack.
    pub fn current(&self) -> Option<Entry>
        ensures { result ≡ self.now.cycle.marker.current }
    {
        self.marker.current()
    }

    /// The entries of the mark stack, the next one last.
    pub fn entries(&self) -> &[Entry]
        ensures { result.now ≡ self.now.cycle.marker.stack }
    {
        self.marker.waiting()
    }
}
