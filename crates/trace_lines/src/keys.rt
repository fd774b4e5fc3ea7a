//! Keys of a record: each stands only where something changed.
ghost use Rattle.std.specs.Prelude.{◌≡◌, ◌++◌, OnOk, string_bytes};
ghost use Rattle.trace_lines.specs.Records.{any_text, key_text, some_text};

use crate::shown::{Shown, put_list};
use std::alloc::{AllocError, Global};

/// Puts a key behind a text.
pub(crate) fn put_key(behind: &mut String, key: &str) -> Result<(), AllocError>
    ensures { OnOk result (string_bytes behind.new ≡ string_bytes behind.old ++ key_text key.now) }
{
    behind.push_str(",\"")?;
    behind.push_str(key)?;
    behind.push_str("\":")
}

/// Puts a key with its list behind a text, if the list has any item.
pub(crate) fn put_any<T: Shown>(
    behind: &mut String,
    alloc: Global,
    key: &str,
    items: &[T],
) -> Result<(), AllocError>
    ensures { OnOk result (string_bytes behind.new ≡ string_bytes behind.old ++ any_text T.text key.now items.now) }
{
    if items.is_empty() {
        return Ok(());
    }
    put_key(behind, key)?;
    put_list(behind, alloc, items)
}

/// Puts a key with its value behind a text, if there is a value.
pub(crate) fn put_some<T: Shown>(
    behind: &mut String,
    alloc: Global,
    key: &str,
    value: &Option<T>,
) -> Result<(), AllocError>
    ensures { OnOk result (string_bytes behind.new ≡ string_bytes behind.old ++ some_text T.text key.now value.now) }
{
    let Some(value) = value else {
        return Ok(());
    };
    put_key(behind, key)?;
    value.put(behind, alloc)
}
