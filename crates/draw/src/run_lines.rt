//! The lines of a run that was written down, one after another.
ghost use Rattle.std.specs.Prelude.{◌≡◌, ◌≤◌, length, take};
ghost use Rattle.scripts.specs.Lines.{lines_of};
ghost use Rattle.written_runs.specs.Told.{told_lines};

use written_runs::{first_line, told_by};

/// How many of a text's first lines are told, of so many.
pub(crate) fn told_among(text: &str, most: u64) -> u64
    ensures told { result ≡ length (told_lines (take most (lines_of text.now))) }
    ensures most { result ≤ most }
{
    let mut rest = text;
    let mut number = 0u64;
    let mut told = 0u64;
    while !rest.is_empty() {
        if number == most {
            return told;
        }
        let (line, behind) = first_line(rest);
        number += 1;
        told += told_by(line);
        rest = behind;
    }
    told
}

/// How many lines a text has.
pub(crate) fn line_count(text: &str) -> u64
    ensures { result ≡ length (lines_of text.now) }
{
    let mut rest = text;
    let mut count = 0u64;
    while !rest.is_empty() {
        let (_, behind) = first_line(rest);
        count += 1;
        rest = behind;
    }
    count
}
