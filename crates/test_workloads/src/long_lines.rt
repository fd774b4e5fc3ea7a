//! Lines of 255 bytes and more.

use scripts::ScriptError;
use std::process::Abort;
use std::test::Fail;
use test_io::{Scene, Script};

// A line is bad once its 256th byte was read, and the reader isn't asked again, which would fail.
#[test]
fn line_too_long(rt: HostRuntime) -> Result<(), Fail> {
    let mut scene = Scene::new(rt.alloc())?;
    let line = [b'a'; 256];
    for (most, calls) in [(1usize, 256usize), (255, 2), (256, 1)] {
        let mut input = Script::failing_at(&line, most, calls);
        let wanted = ("", Err(ScriptError::BadLine(1)));
        assert!(rt; scene.gives(4, &mut input, wanted), "line_too_long");
        assert_eq!(rt; input.calls, calls);
    }
    Ok(())
}

// A line of 255 bytes is read to its end before it is judged.
#[test]
fn longest_line(rt: HostRuntime) -> Result<(), Fail> {
    let mut scene = Scene::new(rt.alloc())?;
    let mut input = Script::new(&[b'a'; 255]);
    let wanted = ("", Err(ScriptError::BadLine(1)));
    assert!(rt; scene.gives(4, &mut input, wanted));
    assert_eq!(rt; input.calls, 2);
    Ok(())
}
