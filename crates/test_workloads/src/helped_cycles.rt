//! Cycles that helpers end, between the calls of one mutator: a full row of links is cleared in that event, and a page that helpers carried is
//! read by the next cycle.

use crate::gates::InTurn;
use crate::runs::{run, setting};
use final_pause::COLLECTOR_ACTOR;
use std::alloc::{AllocError, Global};
use std::process::Abort;
use std::sync::Wait;
use std::sync::atomic::Ordering;
use std::test::Fail;
use std::thread::Threads;
use test_io::Taken;
use words::limits::MAX_HELPERS;

const C: u8 = COLLECTOR_ACTOR;

// Lines on so many pages, who makes their calls, in their order, and what is printed.
#[derive(Clone, Copy)]
struct Worked<'a> {
    pages: u32,
    lines: &'a str,
    order: &'a [u8],
    printed: &'a str,
}

fn check<R: Threads + Wait + Abort + Sync>(
    rt: &R,
    alloc: Global,
    row: Worked<'_>,
    helpers: u8,
    output: &mut Taken,
) {
    let gate = InTurn::new(row.order);
    let setting = setting(rt, alloc, &gate, row.pages, helpers);
    let answer = run(&setting, row.lines, output);
    assert_eq!(rt; answer, Ok(()));
    assert_eq!(rt; gate.missed.load(Ordering::SeqCst), 0);
    assert_eq!(rt; output.text(), Some(row.printed), "{helpers} helpers");
}

// By each number of helpers.
fn check_all<R: Threads + Wait + Abort + Sync>(
    rt: &R,
    alloc: Global,
    row: Worked<'_>,
    output: &mut Taken,
) {
    for helpers in 1..=MAX_HELPERS {
        check(rt, alloc, row, helpers, output);
    }
}

// Two words of an old object have the addresses of the page's two cells, one of which is free. The cycle that its helpers end reads both; a
// new object comes to lie in that cell, and the partial cycle after it finds it.
const STRAY_WORD: Worked<'static> = Worked {
    pages: 1,
    lines: "attach\n0 alloc 1 256 normal\n0 set 2 268435456\n0 store 1 0 2\n0 set 2 268437504\n0 store 1 1 2\n0 set 2 0\n0 alloc 2 256 normal\n0 set 2 0\ngc begin\ngc finish\ngc partial\ngc finish\ngc partial\ngc finish\ngc collect\n",
    order: &[0, 0, 0, 0, 0, 0, C, C, C, C, 0, 0, C, C, C],
    printed: "mutator 0\nok\nok\nok\nok\nok\nok\nok\nok\ncollector\nok\n0\nok\n0\nok\n0\n0\n",
};

#[test]
fn what_helpers_carried_is_read(rt: HostRuntime) -> Result<(), Fail> {
    let mut output = Taken::new(rt.alloc())?;
    check_all(&rt, rt.alloc(), STRAY_WORD, &mut output);
    Ok(())
}

// Sixty-four links to one object.
fn put_links(lines: &mut String, printed: &mut String) -> Result<(), AllocError> {
    lines.push_str("attach\n0 alloc 1 64 atomic\n0 alloc 2 2 normal\n")?;
    printed.push_str("mutator 0\nok\nok\n")?;
    for i in 0..64u32 {
        write!(lines, "0 store 1 {i} 2\n0 link 1 {i} 2\n")?;
        printed.push_str("ok\nok\n")?;
    }
    lines.push_str("0 set 2 0\n0 load 3 1 0\n0 load 3 1 63\n0 unlink 1 0\ngc begin\ngc finish\n")?;
    printed.push_str("ok\n0\n0\n0\ncollector\nok\n1\n")?;
    Ok(())
}

// The object's last pointers are its links' words when a cycle begins, and then the words are loaded.
fn put_order(order: &mut Vec<u8>) -> Result<(), AllocError> {
    for _ in 0..131u32 {
        order.push(0)?;
    }
    order.extend_from_slice(&[C, C, 0, 0, 0])
}

#[test]
fn helpers_clear_a_full_row_of_links(rt: HostRuntime) -> Result<(), Fail> {
    let mut lines = String::new(rt.alloc());
    let mut printed = String::new(rt.alloc());
    let mut order = Vec::new(rt.alloc());
    put_links(&mut lines, &mut printed)?;
    put_order(&mut order)?;
    let mut output = Taken::new(rt.alloc())?;
    let row = Worked {
        pages: 4,
        lines: lines.as_str(),
        order: order.as_slice(),
        printed: printed.as_str(),
    };
    check_all(&rt, rt.alloc(), row, &mut output);
    Ok(())
}
