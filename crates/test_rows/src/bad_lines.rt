//! `tests/rows/bad_lines`, as `tests/rows/as_tests` writes it: a change belongs there.

use crate::bad_line::{BadLine, BadLines};
use std::test::Fail;

const LINES: &[BadLine<'static>] = &[
    BadLine {
        name: "bad_line_empty_line",
        line: "",
    },
    BadLine {
        name: "bad_line_trailing_space",
        line: "attach ",
    },
    BadLine {
        name: "bad_line_two_spaces",
        line: "0  get 1",
    },
    BadLine {
        name: "bad_line_leading_zero",
        line: "00 get 1",
    },
    BadLine {
        name: "bad_line_no_such_slot",
        line: "16 get 1",
    },
    BadLine {
        name: "bad_line_no_such_register",
        line: "0 get 16",
    },
    BadLine {
        name: "bad_line_no_such_global",
        line: "0 gget 1 64",
    },
    BadLine {
        name: "bad_line_past_u64",
        line: "0 set 1 18446744073709551616",
    },
    BadLine {
        name: "bad_line_sign",
        line: "0 set 1 -1",
    },
    BadLine {
        name: "bad_line_no_such_kind",
        line: "0 alloc 1 2 Normal",
    },
    BadLine {
        name: "bad_line_number_missing",
        line: "gc mark",
    },
    BadLine {
        name: "bad_line_word_too_many",
        line: "gc collect 1",
    },
    BadLine {
        name: "bad_line_two",
        line: "0 load 1",
    },
    BadLine {
        name: "space_before",
        line: " attach",
    },
    BadLine {
        name: "carriage_return",
        line: "attach\r",
    },
    BadLine {
        name: "comment",
        line: "# nothing",
    },
    BadLine {
        name: "verb_alone",
        line: "get",
    },
    BadLine {
        name: "slot_alone",
        line: "0",
    },
    BadLine {
        name: "slot_with_a_space",
        line: "0 ",
    },
    BadLine {
        name: "no_such_verb",
        line: "0 put 1 2",
    },
    BadLine {
        name: "capital_verb",
        line: "0 Get 1",
    },
    BadLine {
        name: "front_of_a_verb",
        line: "0 ge 1",
    },
    BadLine {
        name: "verb_and_more",
        line: "0 gets 1",
    },
    BadLine {
        name: "attach_of_a_slot",
        line: "0 attach",
    },
    BadLine {
        name: "attach_and_more",
        line: "attach 0",
    },
    BadLine {
        name: "gc_alone",
        line: "gc",
    },
    BadLine {
        name: "gc_of_a_slot",
        line: "0 gc no",
    },
    BadLine {
        name: "gc_no_such_verb",
        line: "gc step",
    },
    BadLine {
        name: "gc_begin_and_more",
        line: "gc begin 0",
    },
    BadLine {
        name: "gc_roots_and_more",
        line: "gc roots 0",
    },
    BadLine {
        name: "gc_mark_of_two",
        line: "gc mark 1 2",
    },
    BadLine {
        name: "gc_mark_past_u64",
        line: "gc mark 18446744073709551616",
    },
    BadLine {
        name: "gc_mark_with_leading_zero",
        line: "gc mark 01",
    },
    BadLine {
        name: "gc_retrace_and_more",
        line: "gc retrace 0",
    },
    BadLine {
        name: "gc_finish_and_more",
        line: "gc finish 0",
    },
    BadLine {
        name: "gc_sweep_and_more",
        line: "gc sweep 0",
    },
    BadLine {
        name: "gc_no_and_more",
        line: "gc no 0",
    },
    BadLine {
        name: "register_with_leading_zero",
        line: "0 get 01",
    },
    BadLine {
        name: "zero_twice",
        line: "0 set 1 00",
    },
    BadLine {
        name: "plus_sign",
        line: "0 set 1 +5",
    },
    BadLine {
        name: "detach_and_more",
        line: "0 detach 1",
    },
    BadLine {
        name: "set_without_a_word",
        line: "0 set 1",
    },
    BadLine {
        name: "set_and_more",
        line: "0 set 1 2 3",
    },
    BadLine {
        name: "copy_of_a_word",
        line: "0 copy 1 16",
    },
    BadLine {
        name: "copy_into_no_register",
        line: "0 copy 16 1",
    },
    BadLine {
        name: "add_of_two",
        line: "0 add 1 2",
    },
    BadLine {
        name: "add_past_u64",
        line: "0 add 1 2 18446744073709551616",
    },
    BadLine {
        name: "sub_of_a_number",
        line: "0 sub 1 2 16",
    },
    BadLine {
        name: "sub_of_two",
        line: "0 sub 1 2",
    },
    BadLine {
        name: "get_of_two",
        line: "0 get 1 2",
    },
    BadLine {
        name: "push_of_a_word",
        line: "0 push 16",
    },
    BadLine {
        name: "push_alone",
        line: "0 push",
    },
    BadLine {
        name: "pop_into_a_word",
        line: "0 pop 16",
    },
    BadLine {
        name: "pop_alone",
        line: "0 pop",
    },
    BadLine {
        name: "load_without_an_offset",
        line: "0 load 1 2",
    },
    BadLine {
        name: "store_of_a_word",
        line: "0 store 1 0 16",
    },
    BadLine {
        name: "alloc_without_a_kind",
        line: "0 alloc 1 2",
    },
    BadLine {
        name: "alloc_of_a_kind_first",
        line: "0 alloc 1 normal 2",
    },
    BadLine {
        name: "free_alone",
        line: "0 free",
    },
    BadLine {
        name: "free_of_two",
        line: "0 free 1 2",
    },
    BadLine {
        name: "base_of_one",
        line: "0 base 1",
    },
    BadLine {
        name: "base_of_a_word",
        line: "0 base 1 268435456",
    },
    BadLine {
        name: "size_alone",
        line: "0 size",
    },
    BadLine {
        name: "size_of_two",
        line: "0 size 1 2",
    },
    BadLine {
        name: "gget_from_no_register",
        line: "0 gget 16 1",
    },
    BadLine {
        name: "gput_of_no_register",
        line: "0 gput 1 16",
    },
    BadLine {
        name: "gput_into_no_global",
        line: "0 gput 64 1",
    },
    BadLine {
        name: "gput_of_one",
        line: "0 gput 1",
    },
    BadLine {
        name: "link_alone",
        line: "0 link",
    },
    BadLine {
        name: "link_without_an_offset",
        line: "0 link 1 2",
    },
    BadLine {
        name: "link_and_more",
        line: "0 link 1 0 2 3",
    },
    BadLine {
        name: "link_in_no_register",
        line: "0 link 16 0 2",
    },
    BadLine {
        name: "link_to_no_register",
        line: "0 link 1 0 16",
    },
    BadLine {
        name: "link_of_a_word",
        line: "0 link 1 0 268435456",
    },
    BadLine {
        name: "link_past_u64",
        line: "0 link 1 18446744073709551616 2",
    },
    BadLine {
        name: "link_of_no_slot",
        line: "link 1 0 2",
    },
    BadLine {
        name: "link_of_a_slot_past_15",
        line: "16 link 1 0 2",
    },
    BadLine {
        name: "link_of_the_collector",
        line: "gc link 1 0 2",
    },
    BadLine {
        name: "unlink_alone",
        line: "0 unlink",
    },
    BadLine {
        name: "unlink_without_an_offset",
        line: "0 unlink 1",
    },
    BadLine {
        name: "unlink_and_more",
        line: "0 unlink 1 0 2",
    },
    BadLine {
        name: "unlink_in_no_register",
        line: "0 unlink 16 0",
    },
    BadLine {
        name: "unlink_past_u64",
        line: "0 unlink 1 18446744073709551616",
    },
    BadLine {
        name: "unlink_with_leading_zero",
        line: "0 unlink 1 00",
    },
    BadLine {
        name: "unlink_of_no_slot",
        line: "unlink 1 0",
    },
    BadLine {
        name: "unlink_of_the_collector",
        line: "gc unlink 1 0",
    },
    BadLine {
        name: "gc_partial_and_more",
        line: "gc partial 1",
    },
    BadLine {
        name: "gc_partial_of_a_slot",
        line: "0 gc partial",
    },
    BadLine {
        name: "partial_of_a_slot",
        line: "0 partial",
    },
    BadLine {
        name: "partial_alone",
        line: "partial",
    },
    BadLine {
        name: "capital_partial",
        line: "gc Partial",
    },
    BadLine {
        name: "front_of_partial",
        line: "gc part",
    },
    BadLine {
        name: "gc_begin_partial",
        line: "gc begin partial",
    },
];

#[test]
fn each_line_is_bad(rt: HostRuntime) -> Result<(), Fail> {
    let mut lines = BadLines::new(rt.alloc())?;
    lines.are_bad(&rt, LINES)
}
