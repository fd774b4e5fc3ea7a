//! Lines as commands.
ghost use Rattle.std.specs.Prelude.{◌≤◌, ◌∷◌, length, codes, MatchOption};
ghost use Rattle.scripts.specs.declared.limits.TheConstants.{LINE_BYTES};
ghost use Rattle.scripts.specs.Grammar.{IsLineOf, IsBad};
ghost use Rattle.scripts.specs.CommandWords.{ReadsCall, ReadsCommand};

use crate::field::Field;
use crate::numbers::is_text;
use crate::words_of_line::Words;
use heap_spec::{Call, Event};
use words::Slot;

// The call that stands after a slot.
fn call(rest: &mut Words<'_>) -> Option<Call>
    ensures { ReadsCall rest.old result }
{
    let verb = rest.word()?;
    match verb {
        _ if is_text(verb, "detach") => rest.is_done().then_some(Call::Detach),
        _ if is_text(verb, "set") => rest.two().map(|(into, word)| Call::Set(into, word)),
        _ if is_text(verb, "copy") => rest.two().map(|(into, from)| Call::Copy(into, from)),
        _ if is_text(verb, "add") => rest.three().map(|(into, from, n)| Call::Add(into, from, n)),
        _ if is_text(verb, "sub") => rest.three().map(|(into, a, b)| Call::Sub(into, a, b)),
        _ if is_text(verb, "get") => rest.one().map(Call::Get),
        _ if is_text(verb, "push") => rest.one().map(Call::Push),
        _ if is_text(verb, "pop") => rest.one().map(Call::Pop),
        _ if is_text(verb, "load") => rest.three().map(|(into, at, n)| Call::Load(into, at, n)),
        _ if is_text(verb, "store") => rest.three().map(|(at, n, from)| Call::Store(at, n, from)),
        _ if is_text(verb, "alloc") => rest.three().map(|(to, n, kind)| Call::Alloc(to, n, kind)),
        _ if is_text(verb, "free") => rest.one().map(Call::Free),
        _ if is_text(verb, "base") => rest.two().map(|(into, from)| Call::Base(into, from)),
        _ if is_text(verb, "size") => rest.one().map(Call::Size),
        _ if is_text(verb, "gget") => rest.two().map(|(into, g)| Call::GlobalGet(into, g)),
        _ if is_text(verb, "gput") => rest.two().map(|(g, from)| Call::GlobalPut(g, from)),
        _ if is_text(verb, "link") => rest.three().map(|(at, n, to)| Call::Link(at, n, to)),
        _ if is_text(verb, "unlink") => rest.two().map(|(at, n)| Call::Unlink(at, n)),
        _ => None,
    }
}

// The collector's command that stands after `gc`.
fn collector_command(rest: &mut Words<'_>) -> Option<Event>
    ensures { ReadsCommand (codes "gc" ∷ rest.old) result }
{
    let verb = rest.word()?;
    match verb {
        _ if is_text(verb, "begin") => rest.is_done().then_some(Event::Begin),
        _ if is_text(verb, "partial") => rest.is_done().then_some(Event::BeginPartial),
        _ if is_text(verb, "roots") => rest.is_done().then_some(Event::Roots),
        _ if is_text(verb, "mark") => match rest.one() {
            Some(n) => Some(Event::Mark(n)),
            None => None,
        },
        _ if is_text(verb, "retrace") => rest.is_done().then_some(Event::Retrace),
        _ if is_text(verb, "finish") => rest.is_done().then_some(Event::Finish),
        _ if is_text(verb, "sweep") => rest.is_done().then_some(Event::Sweep),
        _ if is_text(verb, "collect") => rest.is_done().then_some(Event::Collect),
        _ if is_text(verb, "no") => rest.is_done().then_some(Event::Number),
        _ => None,
    }
}

// The command that these words are.
fn command_of(words: &mut Words<'_>) -> Option<Event>
    ensures { ReadsCommand words.old result }
{
    let first = words.word()?;
    if is_text(first, "attach") {
        return words.is_done().then_some(Event::Attach);
    }
    if is_text(first, "gc") {
        return collector_command(words);
    }
    let slot = Slot::read(first)?;
    let call = call(words)?;
    Some(Event::Mutator(slot, call))
}

/// The command that a line is, and `None` exactly for a bad line.
pub fn command(line: &[u8]) -> Option<Event>
    requires { length line.now ≤ LINE_BYTES }
    ensures { MatchOption result (IsBad line.now) (λ command. IsLineOf line.now command) }
{
    command_of(&mut Words::of(line))
}
