//! Why a script ends before its end.

/// Why a script ends before its end.
#[derive(Clone, Copy, Debug, PartialEq, Eq)]
pub enum ScriptError {
    /// The line of this number is bad. Lines are counted from 1.
    BadLine(u64),

    /// The reader failed.
    Read,

    /// The writer failed.
    Write,

    /// Memory was refused. `run_script` takes all that it needs before the first line.
    Memory,
}
