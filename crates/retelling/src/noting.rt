//! What is noted of a line: what it brought, took and put where, if it was granted.
use crate::journal::{Journal, placed};
use crate::objects::{Birth, Leave, Place, Put};
use heap_spec::{Call, Event, Reply};
use roots::Root;
use std::alloc::AllocError;
use words::limits::REGISTERS;
use words::{Reg, Slot};
use written_runs::{Behind, Line};

impl Journal {
    fn put(&mut self, line: u64, place: Place, word: u64) -> Result<(), AllocError> {
        self.puts.push(Put { place, word, line })?;
        Ok(())
    }

    // A line put a word into a register.
    fn put_register(
        &mut self,
        line: u64,
        slot: Slot,
        reg: Reg,
        word: u64,
    ) -> Result<(), AllocError> {
        self.set_register(slot, reg, word);
        self.put(
            line,
            Place::InRoot(Root::Register(slot.index(), reg.index())),
            word,
        )
    }

    // The word that a line answers came into a register.
    fn put_answer(
        &mut self,
        line: u64,
        slot: Slot,
        reg: Reg,
        reply: &Reply,
    ) -> Result<(), AllocError> {
        let Reply::Word(word) = *reply else {
            return Ok(());
        };
        self.put_register(line, slot, reg, word)
    }

    // A request was granted by an object at this base of so many words, if its line tells it.
    fn be_born(
        &mut self,
        line: u64,
        slot: Slot,
        into: Reg,
        object: Option<(u64, u64)>,
    ) -> Result<(), AllocError> {
        let Some((base, words)) = object else {
            return Ok(());
        };
        self.births.push(Birth { base, words, line })?;
        self.put_register(line, slot, into, base)
    }

    // A register's word came onto the stack.
    fn push(&mut self, line: u64, slot: Slot, from: Reg) -> Result<(), AllocError> {
        let depth = self.depth(slot).unwrap_or(0);
        self.set_depth(slot, Some(depth.wrapping_add(1)));
        self.put(
            line,
            Place::InRoot(Root::Stack(slot.index(), depth)),
            self.register(slot, from),
        )
    }

    // The top of the stack came into a register.
    fn pop(&mut self, line: u64, slot: Slot, into: Reg, reply: &Reply) -> Result<(), AllocError> {
        let depth = self.depth(slot).unwrap_or(0);
        self.set_depth(slot, Some(depth.wrapping_sub(1)));
        self.put_answer(line, slot, into, reply)
    }

    // A register's word was stored at an address.
    fn store(&mut self, line: u64, slot: Slot, address: u64, from: Reg) -> Result<(), AllocError> {
        self.put(line, Place::InObject(address), self.register(slot, from))
    }

    // A call that was done.
    fn call(&mut self, line: u64, slot: Slot, call: &Call, told: &Line) -> Result<(), AllocError> {
        match *call {
            Call::Set(r, word) => self.put_register(line, slot, r, word),
            Call::Copy(to, from) => self.put_register(line, slot, to, self.register(slot, from)),
            Call::Add(to, from, n) => self.put_register(
                line,
                slot,
                to,
                self.register(slot, from).wrapping_add(n),
            ),
            Call::Sub(to, from, minus) => {
                self.put_register(
                    line,
                    slot,
                    to,
                    self.register(slot, from)
                        .wrapping_sub(self.register(slot, minus)),
                )
            }
            Call::Load(to, _, _) | Call::Base(to, _) | Call::GlobalGet(to, _) => {
                self.put_answer(line, slot, to, &told.reply)
            }
            Call::Push(from) => self.push(line, slot, from),
            Call::Pop(to) => self.pop(line, slot, to, &told.reply),
            Call::Store(at, offset, from) => {
                self.store(line, slot, self.address(slot, at, offset), from)
            }
            Call::Alloc(into, asked, _) => {
                self.be_born(line, slot, into, placed(&told.behind, asked))
            }
            Call::GlobalPut(global, from) => {
                self.put(
                    line,
                    Place::InRoot(Root::Global(global.index())),
                    self.register(slot, from),
                )
            }
            Call::Free(at) => self.leave(line, self.register(slot, at)),
            Call::Detach => self.go(slot),
            Call::Get(_) | Call::Size(_) | Call::Link(_, _, _) | Call::Unlink(_, _) => Ok(()),
        }
    }

    // A mutator went.
    fn go(&mut self, slot: Slot) -> Result<(), AllocError> {
        self.set_depth(slot, None);
        Ok(())
    }

    // An object is gone.
    fn leave(&mut self, line: u64, base: u64) -> Result<(), AllocError> {
        self.leaves.push(Leave { base, line })?;
        Ok(())
    }

    // Objects were forgotten.
    fn forget(&mut self, line: u64, behind: &Behind) -> Result<(), AllocError> {
        let Behind::Bases(bases) = behind else {
            self.unnamed = line;
            return Ok(());
        };
        for base in bases {
            self.leave(line, *base)?;
        }
        Ok(())
    }

    // A mutator came: its registers are 0, and its stack is empty.
    fn come(&mut self, line: u64, reply: &Reply) -> Result<(), AllocError> {
        let Reply::Slot(slot) = *reply else {
            return Ok(());
        };
        self.set_depth(slot, Some(0));
        for at in 0..REGISTERS {
            if let Some(reg) = Reg::new(at) {
                self.put_register(line, slot, reg, 0)?;
            }
        }
        Ok(())
    }

    /// What a line tells happened, if it was granted.
    pub(crate) fn happen(&mut self, line: u64, told: &Line) -> Result<(), AllocError> {
        if let Reply::Refused(_) = told.reply {
            return Ok(());
        }
        match &told.event {
            Event::Attach => self.come(line, &told.reply),
            Event::Mutator(slot, call) => self.call(line, *slot, call, told),
            Event::Finish | Event::Collect => self.forget(line, &told.behind),
            _ => Ok(()),
        }
    }
}
