//! Lines that are none, each as the first line of a script and as the second.

use scripts::ScriptError;
use std::alloc::{AllocError, Global};
use std::process::Abort;
use std::test::Fail;
use test_io::{Scene, Script};

/// A line that is none.
#[derive(Clone, Copy)]
pub(crate) struct BadLine<'a> {
    pub(crate) name: &'a str,
    pub(crate) line: &'a str,
}

/// What bad lines are run with.
#[derive(Drop)]
pub(crate) struct BadLines {
    scene: Scene,
    script: String,
}

impl BadLines {
    pub(crate) fn new(alloc: Global) -> Result<BadLines, AllocError> {
        Ok(BadLines {
            scene: Scene::new(alloc)?,
            script: String::new(alloc),
        })
    }

    // A script of lines that are good, the bad one, and one behind it.
    fn write_out(&mut self, good: &str, line: &str) -> Result<(), AllocError> {
        self.script.clear();
        self.script.push_str(good)?;
        self.script.push_str(line)?;
        self.script.push_str("\nattach\n")
    }

    fn is_bad(&mut self, replies: &str, number: u64) -> bool {
        let mut input = Script::new(self.script.as_bytes());
        let wanted = (replies, Err(ScriptError::BadLine(number)));
        self.scene.gives(4, &mut input, wanted)
    }

    /// Each line is bad, what stands before it is answered, and nothing behind it.
    pub(crate) fn are_bad(&mut self, rt: &impl Abort, lines: &[BadLine<'_>]) -> Result<(), Fail> {
        for bad in lines {
            self.write_out("", bad.line)?;
            assert!(rt; self.is_bad("", 1), "{} as the first line", bad.name);
            self.write_out("attach\n", bad.line)?;
            assert!(rt;
                self.is_bad("mutator 0\n", 2),
                "{} as the second line",
                bad.name
            );
        }
        Ok(())
    }
}

// A byte above 127 makes its line bad.
#[test]
fn byte_255(rt: HostRuntime) -> Result<(), Fail> {
    let mut scene = Scene::new(rt.alloc())?;
    let mut input = Script::new(b"attach\n\xff");
    let wanted = ("mutator 0\n", Err(ScriptError::BadLine(2)));
    assert!(rt; scene.gives(4, &mut input, wanted));
    Ok(())
}
