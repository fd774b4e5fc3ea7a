//! Events: each call of the core as one event with its reply, and lists of them.
ghost use Rattle.std.specs.Prelude.{◌≡◌, length};
ghost use Rattle.heap_core.specs.Acts.{IsAct, AreActs};
ghost use Rattle.heap_core.specs.MutatorCalls.{IsCall};
ghost use Rattle.heap_core.specs.Following.{IsLine, AreLines, told_of};

use super::Core;
use heap_spec::answers::{count, done, slot_of, word};
use heap_spec::{Call, Event, Reply};
use words::Slot;

impl Core {
    // Makes a call of a slot.
    #[inline(always)]
    fn serve_call(&mut self, slot: Slot, call: Call) -> Reply
        ensures { IsCall self.old (Event.Mutator slot call) result self.new }
    {
        match call {
            Call::Detach => done(self.detach(slot)),
            Call::Set(register, word) => done(self.set(slot, register, word)),
            Call::Copy(into, from) => done(self.copy(slot, into, from)),
            Call::Add(into, from, number) => done(self.add(slot, into, from, number)),
            Call::Sub(into, from, less) => done(self.sub(slot, into, from, less)),
            Call::Get(register) => word(self.get(slot, register)),
            Call::Push(from) => done(self.push(slot, from)),
            Call::Pop(into) => word(self.pop(slot, into)),
            Call::Load(into, at, offset) => word(self.load(slot, into, at, offset)),
            Call::Store(at, offset, from) => done(self.store(slot, at, offset, from)),
            Call::Alloc(into, words, kind) => done(self.alloc(slot, into, words, kind)),
            Call::Free(register) => done(self.free(slot, register)),
            Call::Base(into, from) => word(self.base(slot, into, from)),
            Call::Size(register) => count(self.size(slot, register)),
            Call::GlobalGet(into, global) => word(self.gget(slot, into, global)),
            Call::GlobalPut(global, from) => done(self.gput(slot, global, from)),
            Call::Link(at, offset, to) => done(self.link(slot, at, offset, to)),
            Call::Unlink(at, offset) => count(self.unlink(slot, at, offset)),
        }
    }

    // Apart from `act`, so that its one clause is proved by arms and `act`'s line follows from it.
    #[inline(always)]
    fn serve(&mut self, event: Event) -> Reply
        ensures { IsAct self.old event result self.new }
    {
        match event {
            Event::Attach => slot_of(self.attach()),
            Event::Mutator(slot, call) => self.serve_call(slot, call),
            Event::Begin => done(self.begin()),
            Event::BeginPartial => done(self.begin_partial()),
            Event::Roots => done(self.roots()),
            Event::Mark(most) => count(self.mark(most)),
            Event::Retrace => count(self.retrace()),
            Event::Finish => count(self.finish()),
            Event::Sweep => count(self.sweep()),
            Event::Collect => count(self.collect()),
            Event::Number => Reply::Count(self.gc_no()),
        }
    }

    /// Makes the call that an event is. Inlined where the event is known, only the arm of its call is left.
    #[inline(always)]
    pub fn act(&mut self, event: Event) -> Reply
        ensures acts { IsAct self.old event result self.new }
        ensures line { IsLine self.old event result self.new }
    {
        // Its clauses tell that each object has words.
        self.laws();
        self.serve(event)
    }

    /// Makes the calls that these events are, and writes their replies.
    pub fn run(&mut self, events: &[Event], out: &mut [Reply])
        requires { length events.now ≡ length out.old }
        ensures acts { AreActs self.old (told_of events.now out.new) self.new }
        ensures lines { AreLines self.old (told_of events.now out.new) self.new }
    {
        self.laws();
        for i in 0..events.len() {
            out[i] = self.act(events[i]);
            self.laws();
        }
    }
}
