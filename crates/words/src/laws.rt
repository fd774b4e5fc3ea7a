//! The laws that make a row of bits a set. Each is a function that does nothing, and its contract is the law.
ghost use Rattle.words.specs.Sets.{MembersAreInside, SetAddsOne, ClearTakesOne, ClearHasNone, FirstIsLeast};

/// Members are places of the row.
pub fn members_are_inside()
    ensures { MembersAreInside }
{}

/// A bit that is set joins the members.
pub fn set_adds_one()
    ensures { SetAddsOne }
{}

/// A bit that is cleared leaves them.
pub fn clear_takes_one()
    ensures { ClearTakesOne }
{}

/// A clear row has no member.
pub fn clear_has_none()
    ensures { ClearHasNone }
{}

/// The first member from a place on is the least one there.
pub fn first_is_least()
    ensures { FirstIsLeast }
{}
