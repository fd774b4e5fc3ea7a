//! A run of a script, and what can be seen of it.

use crate::fakes::{Script, Taken};
use scripts::{ScriptError, run_script};
use std::alloc::{AllocError, Global};
use words::limits::MAX_PAGES;

/// What the scripts of a test are run with.
#[derive(Drop)]
pub struct Scene {
    pub alloc: Global,
    pub output: Taken,
}

impl Scene {
    /// A scene of which nothing was run yet.
    pub fn new(alloc: Global) -> Result<Scene, AllocError> {
        Ok(Scene {
            alloc,
            output: Taken::new(alloc)?,
        })
    }

    // Runs a script on so many pages. There is no answer where no heap has as many.
    fn answer(&mut self, pages: u32, input: &mut Script<'_>) -> Option<Result<(), ScriptError>> {
        if pages < 1 || MAX_PAGES < pages {
            return None;
        }
        self.output.clear();
        Some(run_script(self.alloc, input, &mut self.output, pages))
    }

    /// Runs a script on so many pages. Whether so much was written, and this is what it answers.
    pub fn gives(
        &mut self,
        pages: u32,
        input: &mut Script<'_>,
        wanted: (&str, Result<(), ScriptError>),
    ) -> bool {
        let answer = self.answer(pages, input);
        self.output.bytes.as_slice() == wanted.0.as_bytes() && answer == Some(wanted.1)
    }
}
