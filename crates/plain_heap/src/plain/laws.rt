//! Laws of plain heaps and of births: functions that do nothing, and their contracts are the laws.
ghost use Rattle.std.specs.Prelude.{◌≡◌};
ghost use Rattle.words.specs.declared.limits.TheConstants.{FIRST_ADDRESS};
ghost use Rattle.heap_spec.specs.Heap.{Heap};
ghost use Rattle.heap_spec.specs.Sound.{IsSound};
ghost use Rattle.heap_spec.specs.Touching.{HasApartObjects};
ghost use Rattle.plain_heap.specs.Answering.{BirthsAreAlone};
ghost use Rattle.plain_heap.specs.PlainContents.{ArePlaced};
ghost use Rattle.plain_heap.specs.Standing.{StandsFor};

use super::PlainHeap;

/// An object that a granted request brings into a sound heap shares no byte with another.
pub fn births_are_alone()
    ensures { BirthsAreAlone }
{}

impl PlainHeap {
    /// What is true of the objects of every plain heap.
    pub fn objects_are_apart(&self)
        ensures { (s : Heap) → StandsFor self.now s → HasApartObjects s }
    {
        self.laws();
    }

    /// The objects of a plain heap that begins where heaps with size classes do and stands for a sound heap lie where these place them.
    pub fn objects_are_placed(&self)
        ensures { self.now.origin ≡ FIRST_ADDRESS → (s : Heap) → StandsFor self.now s → IsSound s → ArePlaced self.now }
    {
        self.laws();
    }
}
