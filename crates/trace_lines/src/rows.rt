//! The texts of what a line of a run changed.
ghost use Rattle.std.specs.Prelude.{◌≡◌, ◌++◌, OnOk, string_bytes};
ghost use Rattle.trace_lines.specs.Rows.{change_text};

use crate::record::{
    Current, EntriesChange, EntryAt, LinkChange, NewObject, Numbered, Reads, RegisterWord,
    SetChange, StackChange, WordRun,
};
use crate::shown::{Shown, put_list, put_more};
use std::alloc::{AllocError, Global};

impl Shown for bool {
    ghost use Rattle.trace_lines.specs.Rows.{flag_text};

    ghost text = { flag_text };

    fn put(&self, behind: &mut String, alloc: Global) -> Result<(), AllocError> {
        u64::from(*self).put(behind, alloc)
    }
}

impl Shown for String {
    ghost use Rattle.trace_lines.specs.Rows.{sentence_text};

    ghost text = { sentence_text };

    fn put(&self, behind: &mut String, alloc: Global) -> Result<(), AllocError> {
        let _ = alloc;
        behind.push_str("\"")?;
        behind.push_str(self.as_str())?;
        behind.push_str("\"")
    }
}

impl Shown for NewObject {
    ghost use Rattle.trace_lines.specs.Rows.{new_object_text};

    ghost text = { new_object_text };

    fn put(&self, behind: &mut String, alloc: Global) -> Result<(), AllocError> {
        let kind = u64::from(self.is_atomic);
        put_list(behind, alloc, &[self.place, self.birth, self.words, kind])
    }
}

impl Shown for Numbered {
    ghost use Rattle.trace_lines.specs.Rows.{numbered_text};

    ghost text = { numbered_text };

    fn put(&self, behind: &mut String, alloc: Global) -> Result<(), AllocError> {
        put_list(behind, alloc, &[self.number, self.word])
    }
}

impl Shown for RegisterWord {
    ghost use Rattle.trace_lines.specs.Rows.{register_text};

    ghost text = { register_text };

    fn put(&self, behind: &mut String, alloc: Global) -> Result<(), AllocError> {
        put_list(behind, alloc, &[self.slot, self.register, self.word])
    }
}

impl Shown for StackChange {
    ghost use Rattle.trace_lines.specs.Rows.{stack_text};

    ghost text = { stack_text };

    fn put(&self, behind: &mut String, alloc: Global) -> Result<(), AllocError> {
        behind.push_str("[")?;
        self.slot.put(behind, alloc)?;
        behind.push_str(",")?;
        self.keep.put(behind, alloc)?;
        put_more(behind, alloc, self.pushed.as_slice())?;
        behind.push_str("]")
    }
}

impl Shown for LinkChange {
    ghost use Rattle.trace_lines.specs.Rows.{link_text};

    ghost text = { link_text };

    fn put(&self, behind: &mut String, alloc: Global) -> Result<(), AllocError> {
        let Some(base) = self.base else {
            behind.push_str("[")?;
            self.place.put(behind, alloc)?;
            return behind.push_str(",null]");
        };
        put_list(behind, alloc, &[self.place, base])
    }
}

impl Shown for EntryAt {
    ghost use Rattle.trace_lines.specs.Rows.{entry_text};

    ghost text = { entry_text };

    fn put(&self, behind: &mut String, alloc: Global) -> Result<(), AllocError> {
        put_list(behind, alloc, &[self.place, self.next])
    }
}

impl Shown for EntriesChange {
    ghost use Rattle.trace_lines.specs.Rows.{entries_text};

    ghost text = { entries_text };

    fn put(&self, behind: &mut String, alloc: Global) -> Result<(), AllocError> {
        behind.push_str("[")?;
        self.keep.put(behind, alloc)?;
        put_more(behind, alloc, self.pushed.as_slice())?;
        behind.push_str("]")
    }
}

impl Shown for Current {
    ghost use Rattle.trace_lines.specs.Rows.{current_text};

    ghost text = { current_text };

    fn put(&self, behind: &mut String, alloc: Global) -> Result<(), AllocError> {
        match self {
            Current::Begun(entry) => entry.put(behind, alloc),
            Current::Nothing => behind.push_str("null"),
        }
    }
}

impl Shown for Reads {
    ghost use Rattle.trace_lines.specs.Rows.{reads_text};

    ghost text = { reads_text };

    fn put(&self, behind: &mut String, alloc: Global) -> Result<(), AllocError> {
        put_list(behind, alloc, &[self.roots, self.words, self.pages])
    }
}

impl Shown for WordRun {
    ghost use Rattle.trace_lines.specs.Rows.{run_text};

    ghost text = { run_text };

    fn put(&self, behind: &mut String, alloc: Global) -> Result<(), AllocError> {
        put_list(behind, alloc, &[self.place, self.words])
    }
}

// Puts the change of a set, as it is named, behind a text.
fn put_change(
    behind: &mut String,
    alloc: Global,
    name: &str,
    members: &[u64],
) -> Result<(), AllocError>
    ensures { OnOk result (string_bytes behind.new ≡ string_bytes behind.old ++ change_text name.now members.now) }
{
    behind.push_str(name)?;
    put_list(behind, alloc, members)?;
    behind.push_str("}")
}

impl Shown for SetChange {
    ghost use Rattle.trace_lines.specs.Rows.{set_text};

    ghost text = { set_text };

    fn put(&self, behind: &mut String, alloc: Global) -> Result<(), AllocError> {
        match self {
            SetChange::Comes(came) => put_change(behind, alloc, "{\"+\":", came.as_slice()),
            SetChange::Goes(went) => put_change(behind, alloc, "{\"-\":", went.as_slice()),
            SetChange::Differs(came, went) => {
                behind.push_str("{\"+\":")?;
                put_list(behind, alloc, came.as_slice())?;
                put_change(behind, alloc, ",\"-\":", went.as_slice())
            }
            SetChange::Whole(now) => put_change(behind, alloc, "{\"=\":", now.as_slice()),
        }
    }
}
