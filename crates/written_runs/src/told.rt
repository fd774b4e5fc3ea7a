//! The lines of a text, one after another, and what they tell.
ghost use Rattle.std.specs.Prelude.{◌≡◌, ◌<◌, ◌≤◌, [], ◌∷◌, length};
ghost use Rattle.scripts.specs.Lines.{lines_of};
ghost use Rattle.written_runs.specs.Told.{is_comment, told_lines};

/// The first line of a text, without its newline, and the text behind it.
pub fn first_line(text: &str) -> (&str, &str)
    requires { 0 < length text.now }
    ensures lines { lines_of text.now ≡ result.0.now ∷ lines_of result.1.now }
    ensures shorter { length result.1.now < length text.now }
{
    match text.split_once('\n') {
        Some((line, behind)) => (line, behind),
        None => (text, ""),
    }
}

/// Whether a line is a comment.
pub fn is_comment(line: &str) -> bool
    ensures { result ≡ is_comment line.now }
{
    let Some((first, _)) = line.as_bytes().split_first() else {
        return false;
    };
    *first == b'#'
}

/// How many lines a line tells.
pub fn told_by(line: &str) -> u64
    ensures told { result ≡ length (told_lines (line.now ∷ [])) }
    ensures few { result ≤ 1 }
{
    if is_comment(line) { 0 } else { 1 }
}
