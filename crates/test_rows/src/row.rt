//! Scripts with their replies, as data, and how they are run.

use scripts::ScriptError;
use std::alloc::{AllocError, Global};
use std::process::Abort;
use std::test::Fail;
use test_io::{Scene, Script};

/// Lines of a script, and the replies to them, that come so many times. There `#` stands for the number of the time, from 0 on.
#[derive(Clone, Copy)]
pub(crate) struct Piece<'a> {
    pub(crate) times: u32,
    pub(crate) script: &'a str,
    pub(crate) replies: &'a str,
}

/// A script on so many pages, with its replies.
#[derive(Clone, Copy)]
pub(crate) struct Row<'a> {
    pub(crate) name: &'a str,
    pub(crate) pages: u32,
    pub(crate) pieces: &'a [Piece<'a>],
}

/// What rows are run with.
#[derive(Drop)]
pub(crate) struct Rows {
    scene: Scene,
    script: String,
    replies: String,
}

// Puts lines behind a text, with a number in place of each `#`.
fn put(text: &mut String, lines: &str, number: u32) -> Result<(), AllocError> {
    for (place, part) in lines.split('#').enumerate() {
        if place > 0 {
            write!(text, "{number}")?;
        }
        text.push_str(part)?;
    }
    Ok(())
}

impl Rows {
    pub(crate) fn new(alloc: Global) -> Result<Rows, AllocError> {
        Ok(Rows {
            scene: Scene::new(alloc)?,
            script: String::new(alloc),
            replies: String::new(alloc),
        })
    }

    fn put_piece(&mut self, piece: &Piece<'_>) -> Result<(), AllocError> {
        for number in 0..piece.times {
            put(&mut self.script, piece.script, number)?;
            put(&mut self.replies, piece.replies, number)?;
        }
        Ok(())
    }

    // The row's script and its replies, each written out.
    fn write_out(&mut self, row: &Row<'_>) -> Result<(), AllocError> {
        self.script.clear();
        self.replies.clear();
        for piece in row.pieces {
            self.put_piece(piece)?;
        }
        Ok(())
    }

    fn is_answered(&mut self, pages: u32) -> bool {
        let mut input = Script::new(self.script.as_bytes());
        let wanted = (self.replies.as_str(), Ok(()));
        self.scene.gives(pages, &mut input, wanted)
    }

    /// Runs each row on a heap of its own, and compares what is written.
    pub(crate) fn are_answered(&mut self, rt: &impl Abort, rows: &[Row<'_>]) -> Result<(), Fail> {
        for row in rows {
            self.write_out(row)?;
            assert!(rt; self.is_answered(row.pages), "row {}", row.name);
        }
        Ok(())
    }
}
