//! What a line that isn't legal breaks, in words.
ghost use Rattle.std.specs.Prelude.{◌≡◌};
ghost use Rattle.written_runs.specs.Rules.{call_rule, alloc_rule, finish_rule, place_rule, rule_of};

use crate::places::Places;
use heap_spec::{Call, Event, Reply};
use replayer::Hint;

/// A rule of runs, by the kind of the line that breaks it.
#[derive(Clone, Copy, Debug, PartialEq, Eq)]
pub enum Rule {
    /// A mutator comes.
    Attach,

    /// A request was granted at a place.
    GivenPlace,

    /// A request was granted, and no place is given.
    NoPlace,

    /// A request wasn't granted.
    Refusal,

    /// A request was granted at a place, where objects may lie anywhere.
    GivenObject,

    /// A request wasn't granted, where objects may lie anywhere.
    RefusalAnywhere,

    /// A word is loaded.
    Load,

    /// A word is stored.
    Store,

    /// An object is freed.
    Free,

    /// The base of an object is asked for.
    Base,

    /// The size of an object is asked for.
    Size,

    /// A word of an object becomes a link to an object.
    Link,

    /// A link is taken away.
    Unlink,

    /// A register, a stack or a global is read or written, or a mutator goes.
    Roots,

    /// A cycle begins.
    Begin,

    /// A cycle begins with the marks of the last one.
    BeginPartial,

    /// A small step of a cycle.
    SmallStep,

    /// A collection, and what it forgot.
    Forgotten,

    /// The end of a cycle, and nothing of what it forgot.
    NoBases,

    /// A page is swept.
    Sweep,

    /// Collections are counted.
    Number,
}

impl Rule {
    /// The rule, in words.
    pub fn text(self) -> &'static str {
        match self {
            Rule::Attach => "a mutator gets the lowest free slot, and is refused if there is none",
            Rule::GivenPlace =>
                "no object of this size and kind may be placed there, or the slot has no mutator",
            Rule::NoPlace => "a granted request needs the place of its object",
            Rule::Refusal =>
                "a request is refused exactly for its slot, its size, or if no place has room",
            Rule::GivenObject =>
                "no object of so many words may be placed there, it has fewer words than were asked for, or the slot has no mutator",
            Rule::RefusalAnywhere =>
                "a request is refused for its slot or its size, or at any time with Full",
            Rule::Load => "a load answers the word that was stored last, or why there is none",
            Rule::Store => "a store is refused exactly if its address is no word of an object",
            Rule::Free => "only the base of an object can be freed",
            Rule::Base => "the base is that of the object that the word points into",
            Rule::Size => "the size is that of the object that the word points into",
            Rule::Link => {
                "a link stands in a word of a pointer-free object and names an object, where there is room for it, or is refused for what it lacks"
            }
            Rule::Unlink => "an unlink answers how many links stood at the address",
            Rule::Roots => "registers, stacks and globals have what was put there last",
            Rule::Begin => "a cycle begins exactly while none is marking",
            Rule::BeginPartial => {
                "a cycle begins with the marks of the last one exactly while none is marking and no full cycle is needed first"
            }
            Rule::SmallStep => {
                "the small steps of a cycle are granted exactly while one is marking, and answer within their range"
            }
            Rule::Forgotten => {
                "a collection forgets so many distinct objects that nothing reaches, by their bases: the end of a cycle at least all that the cycle did not touch, a full collection all of them, whether they are named or not"
            }
            Rule::NoBases => {
                "the end of a cycle needs the bases of what it forgot, or the phase forbids it"
            }
            Rule::Sweep => "a sweep answers 0 or 1",
            Rule::Number => "the number is that of the collections so far",
        }
    }
}

// The rule of a request that was granted.
fn of_place(places: Places, hint: Hint) -> Rule
    ensures { result ≡ place_rule places hint.entry }
{
    let Hint::Place(_) = hint else {
        return Rule::NoPlace;
    };
    match places {
        Places::Classes => Rule::GivenPlace,
        Places::Any(_) => Rule::GivenObject,
    }
}

// The rule of a request for an object.
fn of_alloc(places: Places, reply: &Reply, hint: Hint) -> Rule
    ensures { result ≡ alloc_rule places reply.now hint.entry }
{
    if *reply == Reply::Done {
        return of_place(places, hint);
    }
    match places {
        Places::Classes => Rule::Refusal,
        Places::Any(_) => Rule::RefusalAnywhere,
    }
}

// The rule of a mutator's call.
fn of_call(places: Places, call: &Call, reply: &Reply, hint: Hint) -> Rule
    ensures { result ≡ call_rule places call.now reply.now hint.entry }
{
    match call {
        Call::Alloc(_, _, _) => of_alloc(places, reply, hint),
        Call::Load(_, _, _) => Rule::Load,
        Call::Store(_, _, _) => Rule::Store,
        Call::Free(_) => Rule::Free,
        Call::Base(_, _) => Rule::Base,
        Call::Size(_) => Rule::Size,
        Call::Link(_, _, _) => Rule::Link,
        Call::Unlink(_, _) => Rule::Unlink,
        Call::Detach
        | Call::Set(_, _)
        | Call::Copy(_, _)
        | Call::Add(_, _, _)
        | Call::Sub(_, _, _)
        | Call::Get(_)
        | Call::Push(_)
        | Call::Pop(_)
        | Call::GlobalGet(_, _)
        | Call::GlobalPut(_, _) => Rule::Roots,
    }
}

// The rule of a cycle's end.
fn of_finish(hint: Hint) -> Rule
    ensures { result ≡ finish_rule hint.entry }
{
    let Hint::Forgot(_) = hint else {
        return Rule::NoBases;
    };
    Rule::Forgotten
}

/// The rule that a line breaks which the checker has said no to.
pub(crate) fn rule_of(places: Places, event: &Event, reply: &Reply, hint: Hint) -> Rule
    ensures { result ≡ rule_of places event.now reply.now hint.entry }
{
    match event {
        Event::Attach => Rule::Attach,
        Event::Mutator(_, call) => of_call(places, call, reply, hint),
        Event::Begin => Rule::Begin,
        Event::BeginPartial => Rule::BeginPartial,
        Event::Roots | Event::Mark(_) | Event::Retrace => Rule::SmallStep,
        Event::Finish => of_finish(hint),
        Event::Collect => Rule::Forgotten,
        Event::Sweep => Rule::Sweep,
        Event::Number => Rule::Number,
    }
}
