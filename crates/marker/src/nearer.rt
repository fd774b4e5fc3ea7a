//! Which of two objects is read first. Where an object led to several, the second from the top of the stack comes before the one on
//! top if it lies nearer to that object. So a tree is read in the order of memory, whether it was made from its top or from its
//! leaves.
ghost use Rattle.std.specs.Prelude.{ℕ, ◌+◌, ◌<◌, ◌≤◌, Option, length};
ghost use Rattle.block_map.specs.declared.found.Found.{Found};
ghost use Rattle.marker.specs.Entries.{AreUnreadFrom, IsTurned};

use crate::marker::Marker;

// Within so many bytes of the object that was read last a processor fetches by itself.
const NEAR: u64 = 2_048;

impl Marker {
    // Whether the object on top of the stack lies near the one that was read last.
    #[inline]
    pub(crate) fn is_near(&self) -> bool {
        let waiting = self.waiting();
        match waiting.last() {
            Some(top) => top.base.abs_diff(self.last) < NEAR,
            None => false,
        }
    }

    // Brings the second entry from the top onto the top.
    #[inline]
    fn bring_second(&mut self)
        requires { 2 ≤ length self.old.stack }
        ensures turned { IsTurned self.old self.new }
        ensures known { (found : ℕ → Option Found) (n : ℕ) → n + 1 < length self.old.stack → AreUnreadFrom found self.old n self.old.stack → AreUnreadFrom found self.new n self.new.stack }
    {
        self.stack.swap_two();
    }

    // The object with this base was read, and so many entries waited before, its own among them. Of those to which it led the second
    // from the top is brought onto the top if it lies nearer.
    #[inline]
    pub(crate) fn bring_nearer(&mut self, depth: usize, base: u64)
        requires some { 0 < depth }
        ensures turned { IsTurned self.old self.new }
        ensures known { (found : ℕ → Option Found) (n : ℕ) → n < depth → AreUnreadFrom found self.old n self.old.stack → AreUnreadFrom found self.new n self.new.stack }
    {
        self.last = base;
        let waiting = self.waiting();
        let count = waiting.len();
        if count <= depth {
            return;
        }
        let (second, top) = (waiting[count - 2].base, waiting[count - 1].base);
        if second.abs_diff(base) < top.abs_diff(base) {
            self.bring_second();
        }
    }
}
