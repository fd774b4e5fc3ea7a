//! Input by lines.
ghost use Rattle.std.specs.Prelude.{◌≡◌, ◌+◌, [], IfOk, OnOk, OnErr};
ghost use Rattle.std.specs.Io.KnownBytes.{Consumes};
ghost use Rattle.scripts.specs.Lines.{IsShort};
ghost use Rattle.scripts.specs.Reading.{left_of, IsPlainLine, IsLineRead};

use crate::input_buffer::InputBuffer;
use crate::limits::LINE_BYTES;
use crate::source::{Failed, Source};
use arrayvec::ArrayVec;

/// What was read in the place of a line.
#[derive(Clone, Copy, Debug, PartialEq, Eq)]
pub enum LineRead {
    /// A line with its newline.
    Line,

    /// The last line, which lacks its newline.
    Last,

    /// The end, with no further line.
    End,

    /// The front of a line that is too long.
    TooLong,
}

/// Reads the next line, without its newline. Of a line that is too long nothing is read past the byte that makes it so.
pub fn next_line<R: Source>(
    buffer: &mut InputBuffer,
    source: &mut R,
    line: &mut ArrayVec<u8, LINE_BYTES>,
) -> Result<LineRead, Failed>
    ensures ok { IfOk result (λ found. IsLineRead found line.new.items (left_of buffer.old (R.remaining source.old)) (left_of buffer.new (R.remaining source.new))) }
    ensures plain { IsPlainLine line.new.items }
    ensures short { IsShort line.new.items }
    ensures none { OnOk result (R.faults source.new ≡ R.faults source.old) }
    ensures err { OnErr result ((buffer.new ≡ []) × Consumes (left_of buffer.old (R.remaining source.old)) (left_of buffer.new (R.remaining source.new)) line.new.items) }
    ensures fault { OnErr result (R.faults source.new ≡ R.faults source.old + 1) }
{
    line.clear();
    loop {
        let Some(byte) = buffer.next_from(source)? else {
            return Ok(if line.is_empty() {
                LineRead::End
            } else {
                LineRead::Last
            });
        };
        if byte == b'\n' {
            return Ok(LineRead::Line);
        }
        if line.is_full() {
            return Ok(LineRead::TooLong);
        }
        line.push(byte);
    }
}
