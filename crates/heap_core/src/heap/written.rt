//! Words that a caller writes past the calls of the core.
ghost use Rattle.heap_core.specs.DirectWrites.{TellsWritten};

use super::Core;
use super::beside::note_write;
use words::limits::FIRST_ADDRESS;
use words::page_of;

impl Core {
    /// Tells that the word at an address is written past the calls: the page of the address becomes dirty, if the heap has it.
    /// This is no event, and nothing else changes.
    #[inline]
    pub fn written(&mut self, address: u64)
        ensures { TellsWritten address self.old self.new }
    {
        if address < FIRST_ADDRESS {
            return;
        }
        if page_of(address) < u64::from(self.objects.pages()) {
            note_write(&mut self.marker, address);
        }
    }
}
