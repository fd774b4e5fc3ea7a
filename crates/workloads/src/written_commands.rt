//! Commands as lines, as the grammar reads them.
ghost use Rattle.std.specs.Prelude.{◌≡◌, ◌≤◌, ◌∷◌, ◌++◌, length, map, decimal};
ghost use Rattle.std.specs.List.{join_with_byte};
ghost use Rattle.scripts.specs.Grammar.{call_words, kind_word};
ghost use Rattle.workloads.specs.Stress.{line_of_command};

use arrayvec::ArrayString;
use heap_spec::{Call, Event};
use itoa::Buffer;
use scripts::limits::LINE_BYTES;
use words::{Global, Kind, Reg};

// Puts a word behind what was there, and then these numbers, each behind a space.
fn put_words(line: &mut ArrayString<LINE_BYTES>, word: &str, numbers: &[u64])
    requires front { length line.old.bytes ≤ 8 }
    requires word { length word.now ≤ 8 }
    requires few { length numbers.now ≤ 3 }
    ensures text { line.new.bytes ≡ line.old.bytes ++ join_with_byte 32 (word.now ∷ map decimal numbers.now) }
    ensures room { length line.new.bytes ≤ 80 }
{
    let mut digits = Buffer::new();
    line.push_str(word);
    for number in numbers {
        line.push(' ');
        line.push_str(digits.format(*number));
    }
}

// The word of a kind.
fn kind_name(kind: Kind) -> &'static str
    ensures text { result.now ≡ kind_word kind }
    ensures short { length result.now ≤ 8 }
{
    match kind {
        Kind::Normal => "normal",
        Kind::PointerFree => "atomic",
    }
}

// The number of a register.
fn register(register: Reg) -> u64
    ensures { result ≡ register }
{
    u64::from(register.number())
}

// The number of a global.
fn global(global: Global) -> u64
    ensures { result ≡ global }
{
    u64::from(global.number())
}

// Puts a call behind what was there.
fn put_call(line: &mut ArrayString<LINE_BYTES>, call: Call)
    requires { length line.old.bytes ≤ 8 }
    ensures { line.new.bytes ≡ line.old.bytes ++ join_with_byte 32 (call_words call) }
{
    match call {
        Call::Detach => put_words(line, "detach", &[]),
        Call::Set(into, word) => put_words(line, "set", &[register(into), word]),
        Call::Copy(into, from) => put_words(line, "copy", &[register(into), register(from)]),
        Call::Add(into, from, n) => put_words(line, "add", &[register(into), register(from), n]),
        Call::Sub(into, a, b) => {
            put_words(line, "sub", &[register(into), register(a), register(b)])
        }
        Call::Get(from) => put_words(line, "get", &[register(from)]),
        Call::Push(from) => put_words(line, "push", &[register(from)]),
        Call::Pop(into) => put_words(line, "pop", &[register(into)]),
        Call::Load(into, at, n) => put_words(line, "load", &[register(into), register(at), n]),
        Call::Store(at, n, from) => put_words(line, "store", &[register(at), n, register(from)]),
        Call::Alloc(into, words, kind) => {
            put_words(line, "alloc", &[register(into), words]);
            line.push(' ');
            line.push_str(kind_name(kind));
        }
        Call::Free(at) => put_words(line, "free", &[register(at)]),
        Call::Base(into, from) => put_words(line, "base", &[register(into), register(from)]),
        Call::Size(at) => put_words(line, "size", &[register(at)]),
        Call::GlobalGet(into, g) => put_words(line, "gget", &[register(into), global(g)]),
        Call::GlobalPut(g, from) => put_words(line, "gput", &[global(g), register(from)]),
        Call::Link(at, n, to) => put_words(line, "link", &[register(at), n, register(to)]),
        Call::Unlink(at, n) => put_words(line, "unlink", &[register(at), n]),
    }
}

/// Puts a command, as a line without its newline, in place of what was there.
pub fn put_command(line: &mut ArrayString<LINE_BYTES>, command: Event)
    ensures { line.new.bytes ≡ line_of_command command }
{
    line.clear();
    match command {
        Event::Attach => line.push_str("attach"),
        Event::Mutator(slot, call) => {
            let mut digits = Buffer::new();
            line.push_str(digits.format(slot.number()));
            line.push(' ');
            put_call(line, call);
        }
        Event::Begin => line.push_str("gc begin"),
        Event::BeginPartial => line.push_str("gc partial"),
        Event::Roots => line.push_str("gc roots"),
        Event::Mark(words) => put_words(line, "gc mark", &[words]),
        Event::Retrace => line.push_str("gc retrace"),
        Event::Finish => line.push_str("gc finish"),
        Event::Sweep => line.push_str("gc sweep"),
        Event::Collect => line.push_str("gc collect"),
        Event::Number => line.push_str("gc no"),
    }
}
