//! The register behind a lock, and the passes of those who call it.
ghost use Rattle.std.specs.Prelude.{◌≡◌, ◌≢◌, ◌<◌, ◌%◌, ◌^◌, ◌⊎◌, [], not, true, false, IfOk, IfSome, slice_index_or};
ghost use Rattle.history.specs.declared.object.TheConstants.{COLLECTOR as collector};
ghost use Rattle.history.specs.Histories.{count, GrowsByOthers};
ghost use Rattle.history.specs.Passes.{longer};
ghost use Rattle.shared_register.specs.Steps.{rank_of};
ghost use Rattle.shared_register.specs.LockedCalls.{Extends, Looks, Begun, IsPlainCall, IsLegalPass, is_running};
ghost use Rattle.shared_register.specs.declared.register.Call.TheVariants.{Attach, Begin, Finish, Collect};
ghost use Rattle.shared_register.specs.declared.register.Reply.TheVariants.{Slot, Done};
ghost use Rattle.shared_register.specs.declared.register.Register.{Register as RegisterValue};

use crate::register::{Call, Register, Reply};
use history::{COLLECTOR, Log, Logged, Naming, Opened, Pass, Quiet};
use std::alloc::Global;
use std::marker::Model;
use std::sync::{Mutex, Wait};
use words::OpenError;

/// The history's word, and the register under its lock.
#[derive(Drop)]
pub struct SharedRegister<J: Naming> {
    log: Log<Register, J>,
    lock: Mutex<Logged<Register, J>>,
}

/// A mutator's pass. It has to be spent by `detach`.
pub struct Mutator<J: Naming> {
    pass: Pass<Register, J>,
}

impl<J: Naming> Model for Mutator<J> {
    ghost use Rattle.std.specs.Prelude.{◌<◌};
    ghost use Rattle.history.specs.declared.object.TheConstants.{COLLECTOR};
    ghost use Rattle.history.specs.declared.view.Known.{Known};
    ghost use Rattle.shared_register.specs.declared.register.Call.{Call};
    ghost use Rattle.shared_register.specs.declared.register.Reply.{Reply};

    ghost Value = { Known Call Reply };

    ghost view = { λ m. m.pass };

    ghost invariant = { λ m. m.pass.slot < COLLECTOR };
}

/// The collector's pass.
#[derive(Drop)]
pub struct Collector<J: Naming> {
    pass: Pass<Register, J>,
}

impl<J: Naming> Model for Collector<J> {
    ghost use Rattle.std.specs.Prelude.{◌≡◌};
    ghost use Rattle.history.specs.declared.object.TheConstants.{COLLECTOR};
    ghost use Rattle.history.specs.declared.view.Known.{Known};
    ghost use Rattle.shared_register.specs.declared.register.Call.{Call};
    ghost use Rattle.shared_register.specs.declared.register.Reply.{Reply};

    ghost Value = { Known Call Reply };

    ghost view = { λ m. m.pass };

    ghost invariant = { λ m. m.pass.slot ≡ COLLECTOR };
}

/// Work that is no event: it reads the number.
#[derive(Drop)]
pub struct ReadValue;

impl Quiet<Register> for ReadValue {
    type Answer = u64;

    ghost use Rattle.std.specs.Prelude.{◌≡◌};

    ghost gives = { λ work register answer after_work after. (answer ≡ register.value) × (after ≡ register) };

    fn run(&mut self, object: &mut Register) -> u64 {
        object.value
    }
}

/// A register with this number, which has no name yet.
pub fn open(alloc: Global, value: u64) -> Result<Opened<Register>, OpenError>
    ensures { IfOk result (λ opened. opened.origin ≡ value) }
{
    history::open(alloc, value, Register::new(value))
}

// The lowest slot that isn't attached.
fn free_slot(register: &Register) -> Option<u8>
    ensures { IfSome result (λ k. (k < collector) × (slice_index_or register.now.attached k false ≡ false)) }
{
    for k in 0..COLLECTOR {
        if !register.attached[k as usize] {
            return Some(k);
        }
    }
    None
}

impl<J: Naming> SharedRegister<J> {
    /// The collector has seen nothing.
    pub fn new(opened: Opened<Register>) -> (SharedRegister<J>, Collector<J>)
        requires table { opened.table ≡ J.table }
        requires start { opened.origin ≡ J.origin }
        ensures { result.1 ≡ record { slot = collector; seen = []; mine = [] } }
    {
        let (log, logged, pass) = opened.named::<J>();
        let lock = Mutex::new(logged);
        (SharedRegister { log, lock }, Collector { pass })
    }

    /// A new mutator, or none where all slots are attached.
    pub fn attach(&self, rt: &impl Wait) -> Option<Mutator<J>>
        ensures { IfSome result (λ m. Begun J.origin m Attach (Slot m.slot)) }
    {
        let mut guard = self.lock.lock(rt);
        let logged = &mut *guard;
        let who = free_slot(logged.object())?;
        let (pass, _reply) = self.log.first(logged, who, &Call::Attach);
        Some(Mutator { pass })
    }

    /// Any call of a mutator between its first and its last.
    pub fn call(&self, rt: &impl Wait, me: &mut Mutator<J>, call: &Call) -> Reply
        requires { IsPlainCall call.now }
        ensures { Extends J.origin me.old call.now result me.new }
    {
        let mut guard = self.lock.lock(rt);
        let logged = &mut *guard;
        self.log.learn(logged, &mut me.pass);
        let _object = logged.object();
        self.log.act(logged, &mut me.pass, call)
    }

    /// The mutator's last call.
    pub fn detach(&self, rt: &impl Wait, me: Mutator<J>) {
        let Mutator { mut pass } = me;
        let mut guard = self.lock.lock(rt);
        let logged = &mut *guard;
        self.log.learn(logged, &mut pass);
        let _object = logged.object();
        self.log.last(logged, pass, &Call::Detach);
    }

    /// Begins a cycle, unless one runs, which the collector's own calls tell.
    pub fn begin(&self, rt: &impl Wait, me: &mut Collector<J>) -> bool
        ensures granted { result ≡ not (is_running me.old.mine) }
        ensures call { (result ≡ true → Extends J.origin me.old Begin Done me.new) × (result ≡ false → Looks J.origin me.old me.new) }
    {
        let mut guard = self.lock.lock(rt);
        let logged = &mut *guard;
        self.log.learn(logged, &mut me.pass);
        if logged.object().running {
            return false;
        }
        self.log.act(logged, &mut me.pass, &Call::Begin);
        true
    }

    /// Ends a cycle, if one runs.
    pub fn finish(&self, rt: &impl Wait, me: &mut Collector<J>) -> bool
        ensures granted { result ≡ is_running me.old.mine }
        ensures call { (result ≡ true → Extends J.origin me.old Finish Done me.new) × (result ≡ false → Looks J.origin me.old me.new) }
    {
        let mut guard = self.lock.lock(rt);
        let logged = &mut *guard;
        self.log.learn(logged, &mut me.pass);
        if !logged.object().running {
            return false;
        }
        self.log.act(logged, &mut me.pass, &Call::Finish);
        true
    }

    /// A whole cycle in one call.
    pub fn collect(&self, rt: &impl Wait, me: &mut Collector<J>)
        ensures { Extends J.origin me.old Collect Done me.new }
    {
        let mut guard = self.lock.lock(rt);
        let logged = &mut *guard;
        self.log.learn(logged, &mut me.pass);
        let _object = logged.object();
        self.log.act(logged, &mut me.pass, &Call::Collect);
    }

    /// Runs work under the lock that is no event, on some register of this phase.
    pub fn quiet<Q: Quiet<Register>>(
        &self,
        rt: &impl Wait,
        me: &mut Collector<J>,
        work: &mut Q,
    ) -> Q::Answer
        ensures gives { (before : RegisterValue) × (after : RegisterValue) × Q.gives work.old before result work.new after × (before.running ≡ is_running me.old.mine) }
        ensures looks { Looks J.origin me.old me.new }
    {
        let mut guard = self.lock.lock(rt);
        let logged = &mut *guard;
        self.log.learn(logged, &mut me.pass);
        let _object = logged.object();
        logged.quiet(work)
    }

    /// How many cycles ended, in the history that the mutator has then seen.
    pub fn cycles(&self, me: &mut Mutator<J>) -> u64
        ensures looks { Looks J.origin me.old me.new }
        ensures count { result ≡ count rank_of me.new.seen % 2 ^ 64 }
    {
        self.log.count(&mut me.pass)
    }

    /// How many cycles ended, which the collector's own calls tell.
    pub fn cycles_of(&self, me: &mut Collector<J>) -> u64
        ensures looks { Looks J.origin me.old me.new }
        ensures count { result ≡ count rank_of me.new.mine % 2 ^ 64 }
    {
        self.log.count(&mut me.pass)
    }

    /// Both have then seen what one of them had.
    pub fn meet(&self, a: &mut Mutator<J>, b: &mut Mutator<J>)
        ensures apart { a.old.slot ≢ b.old.slot }
        ensures one { GrowsByOthers a.old.slot a.old.seen b.old.seen ⊎ GrowsByOthers b.old.slot b.old.seen a.old.seen }
        ensures a { a.new ≡ record { slot = a.old.slot; seen = longer a.old.seen b.old.seen; mine = a.old.mine } }
        ensures b { b.new ≡ record { slot = b.old.slot; seen = longer a.old.seen b.old.seen; mine = b.old.mine } }
        ensures a_legal { IsLegalPass J.origin a.new }
        ensures b_legal { IsLegalPass J.origin b.new }
    {
        self.log.meet(&mut a.pass, &mut b.pass);
    }

    /// Both have then seen what one of them had.
    pub fn meet_collector(&self, me: &mut Mutator<J>, other: &mut Collector<J>)
        ensures one { GrowsByOthers me.old.slot me.old.seen other.old.seen ⊎ GrowsByOthers other.old.slot other.old.seen me.old.seen }
        ensures me { me.new ≡ record { slot = me.old.slot; seen = longer me.old.seen other.old.seen; mine = me.old.mine } }
        ensures other { other.new ≡ record { slot = other.old.slot; seen = longer me.old.seen other.old.seen; mine = other.old.mine } }
        ensures me_fine { IsLegalPass J.origin me.new }
        ensures other_fine { IsLegalPass J.origin other.new }
    {
        self.log.meet(&mut me.pass, &mut other.pass);
    }
}
