//! Replies as lines.
ghost use Rattle.std.specs.Prelude.{◌≡◌, ℕ, ◌+◌, ◌<◌, ◌≤◌, length, take, OnOk, OnErr};
ghost use Rattle.std.specs.Io.KnownBytes.{Appends};
ghost use Rattle.words.specs.declared.limits.TheConstants.{MAX_PAGES};
ghost use Rattle.scripts.specs.declared.limits.TheConstants.{REPLY_BYTES};
ghost use Rattle.scripts.specs.Printing.{reply_text, reply_line};

use crate::limits::REPLY_BYTES;
use crate::source::{Failed, Sink, write_all};
use arrayvec::ArrayString;
use heap_spec::Reply;
use itoa::Buffer;
use words::limits::{FIRST_ADDRESS, PAGE_BYTES};

// Puts a reply's text, without its newline, in the place of what was there.
fn put_reply(text: &mut ArrayString<REPLY_BYTES>, pages: u32, reply: Reply)
    requires { pages ≤ MAX_PAGES }
    ensures text { text.new.bytes ≡ reply_text pages reply }
    ensures room { length text.new.bytes < REPLY_BYTES }
{
    let mut number = Buffer::new();
    text.clear();
    match reply {
        Reply::Slot(slot) => {
            text.push_str("mutator ");
            text.push_str(number.format(slot.number()));
        }
        Reply::Done => text.push_str("ok"),
        Reply::Word(word) => {
            if FIRST_ADDRESS <= word && word < FIRST_ADDRESS + PAGE_BYTES * u64::from(pages) {
                text.push_str("ptr");
            } else {
                text.push_str(number.format(word));
            }
        }
        Reply::Count(count) => text.push_str(number.format(count)),
        Reply::Refused(refusal) => {
            text.push_str("refused ");
            text.push_str(number.format(refusal.code()));
            text.push_str(" ");
            text.push_str(refusal.name());
        }
    }
}

/// Writes a reply as a line, in as few writes as the sink allows.
pub fn print_reply<W: Sink>(sink: &mut W, pages: u32, reply: Reply) -> Result<(), Failed>
    requires { pages ≤ MAX_PAGES }
    ensures ok { OnOk result (Appends (W.written sink.old) (W.written sink.new) (reply_line pages reply)) }
    ensures err { OnErr result ((n : ℕ) × Appends (W.written sink.old) (W.written sink.new) (take n (reply_line pages reply))) }
    ensures none { OnOk result (W.faults sink.new ≡ W.faults sink.old) }
    ensures fault { OnErr result (W.faults sink.new ≡ W.faults sink.old + 1) }
{
    let mut text = ArrayString::<REPLY_BYTES>::new();
    put_reply(&mut text, pages, reply);
    text.push('\n');
    write_all(sink, text.as_str().as_bytes())
}
