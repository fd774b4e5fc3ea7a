//! The collector's events. Its small steps leave the heap as it is, and their replies are open within their ranges.
ghost use Rattle.std.specs.Prelude.{◌≡◌, ◌<◌, IsTrue, false};
ghost use Rattle.heap_spec.specs.Layout.{word_end};
ghost use Rattle.replayer.specs.declared.hint.Hint.{Hint as HintValue};
ghost use Rattle.replayer.specs.Replays.{IsReplayed, IsNoReplay};

use crate::flags::{age_all, flag_begin, flag_partial, forget};
use crate::hint::Hint;
use crate::replayer::Replayer;
use crate::said::{count_in, forgotten, is_done, is_needs_full, is_wrong_phase};
use heap_spec::{Event, Reply};

impl Replayer {
    // What is true of every replayer: its counts are words.
    pub(crate) fn limits(&self)
        ensures number { self.now.number < word_end }
        ensures births { self.now.births < word_end }
    {
        let _number = self.number;
        let _births = self.births;
    }

    /// Whether a cycle is marking.
    pub fn is_marking(&self) -> bool
        ensures { result ≡ self.now.marking }
    {
        self.marking
    }

    /// Whether a full cycle is needed.
    pub fn needs_full(&self) -> bool
        ensures { result ≡ self.now.needs_full }
    {
        self.needs_full
    }

    /// The count of collections.
    pub fn collections(&self) -> u64
        ensures { result ≡ self.now.number }
    {
        self.number
    }

    // A cycle begins.
    pub(crate) fn begin(&mut self, reply: &Reply) -> bool
        ensures yes { IsTrue result → (hint : HintValue) → IsReplayed self.old Event.Begin reply.now hint self.new }
        ensures no { result ≡ false → (hint : HintValue) → IsNoReplay self.old Event.Begin reply.now hint }
        ensures same { result ≡ false → self.new ≡ self.old }
        ensures origin { self.new.heap.origin ≡ self.old.heap.origin }
    {
        self.limits();
        if self.is_marking() {
            return is_wrong_phase(reply);
        }
        if !is_done(reply) {
            return false;
        }
        self.heap.objects_are_apart();
        flag_begin(&mut self.heap, &mut self.touched);
        self.marking = true;
        self.needs_full = false;
        true
    }

    // A cycle begins with the marks of the last one.
    pub(crate) fn begin_partial(&mut self, reply: &Reply) -> bool
        ensures yes { IsTrue result → (hint : HintValue) → IsReplayed self.old Event.BeginPartial reply.now hint self.new }
        ensures no { result ≡ false → (hint : HintValue) → IsNoReplay self.old Event.BeginPartial reply.now hint }
        ensures same { result ≡ false → self.new ≡ self.old }
        ensures origin { self.new.heap.origin ≡ self.old.heap.origin }
    {
        self.limits();
        if self.is_marking() {
            return is_wrong_phase(reply);
        }
        if self.needs_full() {
            return is_needs_full(reply);
        }
        if !is_done(reply) {
            return false;
        }
        self.heap.objects_are_apart();
        flag_partial(&mut self.heap, &self.aged, &mut self.touched);
        self.marking = true;
        true
    }

    // What root words point into is marked.
    pub(crate) fn roots(&self, reply: &Reply) -> bool
        ensures yes { IsTrue result → (hint : HintValue) → IsReplayed self.now Event.Roots reply.now hint self.now }
        ensures no { result ≡ false → (hint : HintValue) → IsNoReplay self.now Event.Roots reply.now hint }
    {
        self.limits();
        if !self.is_marking() {
            return is_wrong_phase(reply);
        }
        is_done(reply)
    }

    // At most so many words are read.
    pub(crate) fn mark(&self, most: u64, reply: &Reply) -> bool
        ensures yes { IsTrue result → (hint : HintValue) → IsReplayed self.now (Event.Mark most) reply.now hint self.now }
        ensures no { result ≡ false → (hint : HintValue) → IsNoReplay self.now (Event.Mark most) reply.now hint }
    {
        self.limits();
        if !self.is_marking() {
            return is_wrong_phase(reply);
        }
        let Some(n) = count_in(reply) else {
            return false;
        };
        n <= most
    }

    // A page is read again.
    pub(crate) fn retrace(&self, reply: &Reply) -> bool
        ensures yes { IsTrue result → (hint : HintValue) → IsReplayed self.now Event.Retrace reply.now hint self.now }
        ensures no { result ≡ false → (hint : HintValue) → IsNoReplay self.now Event.Retrace reply.now hint }
    {
        self.limits();
        if !self.is_marking() {
            return is_wrong_phase(reply);
        }
        let Some(n) = count_in(reply) else {
            return false;
        };
        n <= 1
    }

    // A page is swept.
    pub(crate) fn sweep(&self, reply: &Reply) -> bool
        ensures yes { IsTrue result → (hint : HintValue) → IsReplayed self.now Event.Sweep reply.now hint self.now }
        ensures no { result ≡ false → (hint : HintValue) → IsNoReplay self.now Event.Sweep reply.now hint }
    {
        self.limits();
        let Some(n) = count_in(reply) else {
            return false;
        };
        n <= 1
    }

    // The count of collections.
    pub(crate) fn count(&self, reply: &Reply) -> bool
        ensures yes { IsTrue result → (hint : HintValue) → IsReplayed self.now Event.Number reply.now hint self.now }
        ensures no { result ≡ false → (hint : HintValue) → IsNoReplay self.now Event.Number reply.now hint }
    {
        self.limits();
        let Some(n) = count_in(reply) else {
            return false;
        };
        n == self.collections()
    }

    // A cycle ends, and forgets the objects of the hint, among them each that isn't touched.
    pub(crate) fn finish(&mut self, reply: &Reply, hint: Hint) -> bool
        ensures yes { IsTrue result → IsReplayed self.old Event.Finish reply.now hint.entry self.new }
        ensures no { result ≡ false → IsNoReplay self.old Event.Finish reply.now hint.entry }
        ensures same { result ≡ false → self.new ≡ self.old }
        ensures origin { self.new.heap.origin ≡ self.old.heap.origin }
    {
        self.limits();
        if !self.is_marking() {
            return is_wrong_phase(reply);
        }
        let Some(bases) = forgotten(reply, hint) else {
            return false;
        };
        if !forget(&mut self.heap, bases, &self.touched) {
            return false;
        }
        age_all(&self.heap, &mut self.aged);
        self.marking = false;
        self.number = self.number.wrapping_add(1);
        true
    }

    // All that isn't reached is forgotten: so many objects as the reply says.
    fn collect_counted(&mut self, reply: &Reply) -> bool
        ensures yes { IsTrue result → IsReplayed self.old Event.Collect reply.now HintValue.Nothing self.new }
        ensures no { result ≡ false → IsNoReplay self.old Event.Collect reply.now HintValue.Nothing }
        ensures same { result ≡ false → self.new ≡ self.old }
        ensures origin { self.new.heap.origin ≡ self.old.heap.origin }
    {
        self.limits();
        let Some(n) = count_in(reply) else {
            return false;
        };
        if !self.heap.collect_counted(n) {
            return false;
        }
        age_all(&self.heap, &mut self.aged);
        self.marking = false;
        self.needs_full = false;
        self.number = self.number.wrapping_add(1);
        true
    }

    // All that isn't reached is forgotten: the objects of the hint, which says something.
    fn collect_named(&mut self, reply: &Reply, hint: Hint) -> bool
        requires { hint ≡ HintValue.Nothing → ⊥ }
        ensures yes { IsTrue result → IsReplayed self.old Event.Collect reply.now hint.entry self.new }
        ensures no { result ≡ false → IsNoReplay self.old Event.Collect reply.now hint.entry }
        ensures same { result ≡ false → self.new ≡ self.old }
        ensures origin { self.new.heap.origin ≡ self.old.heap.origin }
    {
        self.limits();
        let Some(bases) = forgotten(reply, hint) else {
            return false;
        };
        if !self.heap.collect_as(bases) {
            return false;
        }
        age_all(&self.heap, &mut self.aged);
        self.marking = false;
        self.needs_full = false;
        self.number = self.number.wrapping_add(1);
        true
    }

    // All that isn't reached is forgotten, whether the hint names it or says nothing.
    pub(crate) fn collect(&mut self, reply: &Reply, hint: Hint) -> bool
        ensures yes { IsTrue result → IsReplayed self.old Event.Collect reply.now hint.entry self.new }
        ensures no { result ≡ false → IsNoReplay self.old Event.Collect reply.now hint.entry }
        ensures same { result ≡ false → self.new ≡ self.old }
        ensures origin { self.new.heap.origin ≡ self.old.heap.origin }
    {
        let Hint::Nothing = hint else {
            return self.collect_named(reply, hint);
        };
        self.collect_counted(reply)
    }
}
