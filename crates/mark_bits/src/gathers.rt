//! What it means that the marks are gathered from those at the start and the won lists, in the words of sets.
ghost use Rattle.std.specs.Prelude.{◌≡◌, ℕ, ◌⊎◌, true, false, Contains, nat_eq};
ghost use Rattle.std.specs.List.{IsDistinct};
ghost use Rattle.mark_bits.specs.Claims.{has, Gathers};

/// A law: what is marked was there at the start or was won, both are marked, and no bit was won that was there
/// at the start, or won twice.
pub fn gathered_marks(start: &[bool], won: &[u64], marks: &[bool])
    requires { Gathers start.now won.now marks.now }
    ensures each { (k : ℕ) → has marks.now k ≡ true → (has start.now k ≡ true) ⊎ Contains won.now k }
    ensures start { (k : ℕ) → has start.now k ≡ true → has marks.now k ≡ true }
    ensures won { (k : ℕ) → Contains won.now k → (has marks.now k ≡ true) × (has start.now k ≡ false) }
    ensures once { IsDistinct nat_eq won.now }
{}
