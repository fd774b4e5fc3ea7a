//! Objects go, and the others stay.
ghost use Rattle.std.specs.Prelude.{◌≡◌, ◌≤◌, List, length};
ghost use Rattle.std.specs.Vec.{vec_capacity};
ghost use Rattle.plain_heap.specs.declared.extent.Extent.{Extent as ExtentValue};
ghost use Rattle.plain_heap.specs.Parting.{Parts};
ghost use Rattle.plain_heap.specs.Reached.{AreApart};

use crate::directory::Directory;
use crate::extent::Extent;

// Keeps the objects whose flag is set, in their order, and answers how many others there were.
pub(crate) fn keep_flagged(objects: &mut Vec<Extent>, flags: &[bool]) -> usize
    requires { length objects.old.items ≤ length flags.now }
    ensures parts { Parts objects.old.items flags.now objects.new.items result }
    ensures apart { AreApart objects.old.items → AreApart objects.new.items }
    ensures capacity { vec_capacity objects.new ≡ vec_capacity objects.old }
{
    let count = objects.len();
    let mut stay = 0;
    for index in 0..count {
        if flags[index] {
            objects[stay] = objects[index];
            stay += 1;
        }
    }
    objects.truncate(stay);
    count - stay
}

impl Directory {
    // How many objects there are whose flag isn't set.
    pub(crate) fn count_unflagged(&self, flags: &[bool]) -> usize
        requires { length self.now.objects.items ≤ length flags.now }
        ensures { (stay : List ExtentValue) × Parts self.now.objects.items flags.now stay result }
    {
        let count = self.len();
        let mut stay = 0;
        for index in 0..count {
            if flags[index] {
                stay += 1;
            }
        }
        count - stay
    }
}
