//! What has a text in a trace, and lists of it.
ghost use Rattle.std.specs.Prelude.{◌≡◌, ◌++◌, ℕ, List, OnOk, string_bytes};
ghost use Rattle.trace_lines.specs.Texts.{number_text, more_text, list_text};

use std::alloc::{AllocError, Global};

/// From here on a number is written as text, since a JavaScript number couldn't hold it.
pub(crate) const TEXT_FROM: u64 = 9_007_199_254_740_992;

/// What has a text in a trace.
pub(crate) trait Shown {
    /// The text.
    ghost text: { Self → List ℕ };

    /// Puts it behind a text.
    fn put(&self, behind: &mut String, alloc: Global) -> Result<(), AllocError>
        ensures { OnOk result (string_bytes behind.new ≡ string_bytes behind.old ++ text self.now) };
}

impl Shown for u64 {
    ghost text = { number_text };

    fn put(&self, behind: &mut String, alloc: Global) -> Result<(), AllocError> {
        let number = *self;
        let digits = if number < TEXT_FROM {
            format!(in alloc; "{number}")?
        } else {
            format!(in alloc; "\"{number}\"")?
        };
        behind.push_str(digits.as_str())
    }
}

/// Puts each item behind a text, each behind a comma.
pub(crate) fn put_more<T: Shown>(
    behind: &mut String,
    alloc: Global,
    items: &[T],
) -> Result<(), AllocError>
    ensures { OnOk result (string_bytes behind.new ≡ string_bytes behind.old ++ more_text T.text items.now) }
{
    for item in items {
        behind.push_str(",")?;
        item.put(behind, alloc)?;
    }
    Ok(())
}

/// Puts a list behind a text.
pub(crate) fn put_list<T: Shown>(
    behind: &mut String,
    alloc: Global,
    items: &[T],
) -> Result<(), AllocError>
    ensures { OnOk result (string_bytes behind.new ≡ string_bytes behind.old ++ list_text T.text items.now) }
{
    behind.push_str("[")?;
    if let Some((first, rest)) = items.split_first() {
        first.put(behind, alloc)?;
        put_more(behind, alloc, rest)?;
    }
    behind.push_str("]")
}
