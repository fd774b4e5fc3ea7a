//! What calls of mutators tell the marker.
ghost use Rattle.std.specs.Prelude.{◌*◌, ◌<◌, ◌≤◌, length};
ghost use Rattle.words.specs.declared.limits.TheConstants.{FIRST_ADDRESS, PAGE_GRANULES};
ghost use Rattle.words.specs.Layout.{granule, page_of};
ghost use Rattle.heap_core.specs.Beside.{NotesFree, NotesWrite, NotesObject};

use marker::Marker;

// A word was written at the address.
#[inline]
pub(crate) fn note_write(marker: &mut Marker, address: u64)
    requires low { FIRST_ADDRESS ≤ address }
    requires inside { page_of address < length marker.old.dirty }
    ensures { NotesWrite address marker.old marker.new }
{
    marker.written(address);
}

// An object of zero words was allocated at the base.
#[inline]
pub(crate) fn note_object(marker: &mut Marker, is_marking: bool, base: u64)
    requires low { FIRST_ADDRESS ≤ base }
    requires inside { granule base < PAGE_GRANULES * length marker.old.dirty }
    ensures { NotesObject is_marking base marker.old marker.new }
{
    // Its clauses tell how many marks there are.
    marker.laws();
    if is_marking {
        marker.allocated(base);
    }
}

// The object with this base was freed.
#[inline]
pub(crate) fn note_free(marker: &mut Marker, needs_full: &mut bool, base: u64)
    requires low { FIRST_ADDRESS ≤ base }
    requires inside { granule base < length marker.old.marks }
    ensures { NotesFree base marker.old marker.new needs_full.new }
{
    marker.freed(base);
    *needs_full = true;
}
