//! Objects are named by their bases, to be taken out.
ghost use Rattle.std.specs.Prelude.{◌≡◌, ◌≤◌, ℕ, List, ◌++◌, ◌∷◌, [], length};
ghost use Rattle.plain_heap.specs.Claims.{AreUnset};

use crate::directory::Directory;

impl Directory {
    // Unsets the flag of the object that has this base, if there is one.
    pub(crate) fn unset_one(&self, base: u64, flags: &mut Vec<bool>)
        requires { length self.now.objects.items ≤ length flags.old.items }
        ensures unset { (bases : List ℕ) → AreUnset self.now.objects.items bases flags.old.items → AreUnset self.now.objects.items (bases ++ base ∷ []) flags.new.items }
        ensures size { length flags.new.items ≡ length flags.old.items }
    {
        let Some(index) = self.index_of(base) else {
            return;
        };
        flags[index] = false;
    }

    // Unsets the flags of the objects that have one of these bases.
    pub(crate) fn unset_named(&self, bases: &[u64], flags: &mut Vec<bool>)
        requires { AreUnset self.now.objects.items [] flags.old.items }
        ensures unset { AreUnset self.now.objects.items bases.now flags.new.items }
        ensures size { length flags.new.items ≡ length flags.old.items }
    {
        for base in bases {
            self.unset_one(*base, flags);
        }
    }
}
