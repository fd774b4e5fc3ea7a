//! Lines as one text.
ghost use Rattle.std.specs.Prelude.{◌≡◌, IfOk, map, string_bytes};
ghost use Rattle.scripts.specs.Turns.{text_of as lines_text};

use std::alloc::{AllocError, Global};

/// The lines, each with a newline behind it.
///
/// # Errors
/// If memory is refused.
pub fn text_of(alloc: Global, lines: &[String]) -> Result<String, AllocError>
    ensures { IfOk result (λ text. string_bytes text ≡ lines_text (map string_bytes lines.now)) }
{
    let mut text = String::new(alloc);
    for line in lines {
        text.push_str(line.as_str())?;
        text.push('\n')?;
    }
    Ok(text)
}
