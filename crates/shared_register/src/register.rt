//! A small object to keep a history of.

use history::{Object, Rank};

/// A number, with mutators that come and go, and a collector whose cycles do nothing but run.
#[derive(Drop)]
pub struct Register {
    pub attached: [bool; 16],
    pub value: u64,
    pub running: bool,
}

/// A mutator's calls, and after them the collector's.
#[derive(Clone, Copy)]
pub enum Call {
    Attach,
    Set(u64),
    Add(u64),
    Get,
    Detach,
    Begin,
    Finish,
    Collect,
}

/// What a call is answered: the slot that came, that it is done, or the number before it.
#[derive(Clone, Copy)]
pub enum Reply {
    Slot(u8),
    Done,
    Value(u64),
}

impl Register {
    ghost use Rattle.shared_register.specs.Steps.{State, IsOpening, Stands};

    /// Nobody is attached, and this is the number.
    pub fn new(value: u64) -> Register
        ensures { (s : State) × IsOpening value s × Stands result s }
    {
        Register {
            attached: [false; 16],
            value,
            running: false,
        }
    }
}

impl Object for Register {
    type Call = Call;

    type Reply = Reply;

    ghost use Rattle.shared_register.specs.Steps.{State, IsOpening, Stands, Steps, Can, rank_of};

    ghost State = { State };

    ghost opens = { IsOpening };

    ghost stands = { Stands };

    ghost step = { Steps };

    ghost can = { Can };

    ghost rank_of = { rank_of };

    fn rank(call: &Call) -> Rank {
        match call {
            Call::Attach => Rank::First,
            Call::Detach => Rank::Last,
            Call::Finish => Rank::Counted,
            Call::Collect => Rank::Counted,
            _ => Rank::Plain,
        }
    }

    fn act(&mut self, who: u8, call: &Call) -> Reply {
        match call {
            Call::Attach => {
                self.attached[who as usize] = true;
                Reply::Slot(who)
            }
            Call::Set(n) => {
                self.value = *n;
                Reply::Done
            }
            Call::Add(n) => {
                let old = self.value;
                self.value = old.wrapping_add(*n);
                Reply::Value(old)
            }
            Call::Get => Reply::Value(self.value),
            Call::Detach => {
                self.attached[who as usize] = false;
                Reply::Done
            }
            Call::Begin => {
                self.running = true;
                Reply::Done
            }
            Call::Finish => {
                self.running = false;
                Reply::Done
            }
            Call::Collect => {
                self.running = false;
                Reply::Done
            }
        }
    }
}
