//! Words and inputs, each with how the program ends.

use crate::called::{Called, End};
use std::process::Abort;
use std::rt::Files;
use std::sync::Wait;
use std::test::Fail;
use std::thread::Threads;
use test_io::Script;

// Words and an input, and how the program ends.
#[derive(Clone, Copy)]
struct Case<'a> {
    name: &'a str,
    words: &'a [&'a str],
    input: &'a [u8],
    end: End<'a>,
}

const CASES: &[Case<'static>] = &[
    Case {
        name: "store_and_load",
        words: &["run", "--pages", "4"],
        input: b"attach\n0 alloc 1 3 normal\n0 size 1\n0 set 2 77\n0 store 1 0 2\n0 load 3 1 0\n",
        end: (0, "mutator 0\nok\n4\nok\nok\n77\n", ""),
    },
    Case {
        name: "empty_input",
        words: &["run", "--pages", "4"],
        input: b"",
        end: (0, "", ""),
    },
    Case {
        name: "heap_ends_with_larger_limits",
        words: &["run", "--pages", "4096"],
        input: b"attach\n0 set 1 285212671\n0 get 1\n0 set 1 285212672\n0 get 1\n",
        end: (0, "mutator 0\nok\nptr\nok\n285212672\n", ""),
    },
    Case {
        name: "bad_line_two",
        words: &["run", "--pages", "4"],
        input: b"attach\n0 load 1\n",
        end: (2, "mutator 0\n", "bad line 2\n"),
    },
    Case {
        name: "byte_255",
        words: &["run", "--pages", "4"],
        input: b"attach\n\xff",
        end: (2, "mutator 0\n", "bad line 2\n"),
    },
    Case {
        name: "line_too_long",
        words: &["run", "--pages", "4"],
        input: &[b'a'; 256],
        end: (2, "", "bad line 1\n"),
    },
    Case {
        name: "stress_no_steps",
        words: &["stress", "--seed", "1", "--mutators", "2", "--steps", "0"],
        input: b"",
        end: (0, "attach\nattach\n", ""),
    },
];

fn check<'a, R: Files + Threads + Wait + Abort + Sync>(
    rt: &R,
    called: &mut Called<'a>,
    case: &Case<'a>,
) {
    called.streams.input = Script::new(case.input);
    called.ends(rt, case.name, case.words, case.end);
}

#[test]
fn each_case_ends_as_it_should(rt: HostRuntime) -> Result<(), Fail> {
    let mut called = Called::new(rt.alloc())?;
    for case in CASES {
        check(&rt, &mut called, case);
    }
    Ok(())
}

// Words that are of no command. The input isn't read.
const BAD_WORDS: &[&[&str]] = &[
    &[],
    &["run"],
    &["walk", "--pages", "4"],
    &["help"],
    &["--version"],
    &["run", "--help"],
    &["run", "--pages"],
    &["run", "--pages", "0"],
    &["run", "--pages", "4097"],
    &["run", "--pages", "04"],
    &["run", "--pages", "four"],
    &["run", "--pages", "18446744073709551616"],
    &["run", "--pages", "0", "no.script"],
    &["run", "--pages", "4", "one.script", "two.script"],
    &["run", "--pages", "4", "--pages", "4"],
    &["threads", "--pages", "4"],
    &["threads", "--pages", "4", "--helpers", "0", "no.workload"],
    &["threads", "--pages", "4", "--helpers", "9", "no.workload"],
    &["stress", "--seed", "1", "--mutators", "2"],
    &["stress", "--seed", "1", "--mutators", "0", "--steps", "1"],
    &["stress", "--seed", "1", "--mutators", "17", "--steps", "1"],
];

// Words that name a file which isn't there. The input isn't read.
const NO_FILE: &[&[&str]] = &[
    &["run", "--pages", "4", "no/such.script"],
    &["threads", "--pages", "4", "no/such.workload"],
    &[
        "threads",
        "--pages",
        "4",
        "--helpers",
        "8",
        "no/such.workload",
    ],
];

// With each of these words the program ends so, and reads nothing of its input.
fn check_unread<R: Files + Threads + Wait + Abort + Sync>(
    rt: &R,
    called: &mut Called<'_>,
    all: &[&[&str]],
    end: End<'_>,
) {
    for words in all {
        called.streams.input = Script::new(b"attach\n");
        called.ends(rt, words.last().unwrap_or(&""), words, end);
        assert_eq!(rt; called.streams.input.calls, 0);
    }
}

#[test]
fn bad_words_touch_no_input(rt: HostRuntime) -> Result<(), Fail> {
    let mut called = Called::new(rt.alloc())?;
    check_unread(&rt, &mut called, BAD_WORDS, (2, "", "bad command\n"));
    check_unread(&rt, &mut called, NO_FILE, (1, "", "read fault\n"));
    Ok(())
}
