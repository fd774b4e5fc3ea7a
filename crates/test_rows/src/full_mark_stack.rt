//! `tests/rows/full_mark_stack.rows`, as `tests/rows/as_tests` writes it: a change belongs there.

use crate::row::{Piece, Row, Rows};
use std::test::Fail;

const ROWS: &[Row<'static>] = &[
    Row {
        name: "mark_stack_overflow",
        pages: 4,
        pieces: &[
            Piece {
                times: 1,
                script: "attach\n0 alloc 1 300 normal\n",
                replies: "mutator 0\nok\n",
            },
            Piece {
                times: 300,
                script: "0 alloc 2 2 normal\n0 set 3 #\n0 store 2 0 3\n0 store 1 # 2\n",
                replies: "ok\nok\nok\nok\n",
            },
            Piece {
                times: 1,
                script: "0 set 2 0\ngc begin\ngc roots\ngc finish\n0 load 4 1 299\n0 load 5 4 0\n",
                replies: "ok\nok\nok\n0\nptr\n299\n",
            },
        ],
    },
    Row {
        name: "mark_stack_overflow_in_collect",
        pages: 4,
        pieces: &[
            Piece {
                times: 1,
                script: "attach\n0 alloc 1 300 normal\n",
                replies: "mutator 0\nok\n",
            },
            Piece {
                times: 300,
                script: "0 alloc 2 2 normal\n0 set 3 #\n0 store 2 0 3\n0 store 1 # 2\n",
                replies: "ok\nok\nok\nok\n",
            },
            Piece {
                times: 1,
                script: "0 set 2 0\ngc collect\n0 load 4 1 299\n0 load 5 4 0\n",
                replies: "ok\n0\nptr\n299\n",
            },
        ],
    },
    Row {
        name: "targets_past_a_full_mark_stack",
        pages: 4,
        pieces: &[
            Piece {
                times: 1,
                script: "attach\n0 alloc 1 512 normal\n",
                replies: "mutator 0\nok\n",
            },
            Piece {
                times: 300,
                script: "0 alloc 2 2 normal\n0 store 1 # 2\n0 alloc 3 2 normal\n0 store 2 1 3\n0 set 4 #\n0 store 3 1 4\n",
                replies: "ok\nok\nok\nok\nok\nok\n",
            },
            Piece {
                times: 1,
                script: "0 set 2 0\n0 set 3 0\ngc begin\ngc roots\ngc finish\n",
                replies: "ok\nok\nok\nok\n0\n",
            },
            Piece {
                times: 300,
                script: "0 load 2 1 #\n0 load 3 2 1\n0 load 4 3 1\n",
                replies: "ptr\nptr\n#\n",
            },
        ],
    },
    Row {
        name: "targets_past_a_full_mark_stack_in_collect",
        pages: 4,
        pieces: &[
            Piece {
                times: 1,
                script: "attach\n0 alloc 1 512 normal\n",
                replies: "mutator 0\nok\n",
            },
            Piece {
                times: 300,
                script: "0 alloc 2 2 normal\n0 store 1 # 2\n0 alloc 3 2 normal\n0 store 2 1 3\n0 set 4 #\n0 store 3 1 4\n",
                replies: "ok\nok\nok\nok\nok\nok\n",
            },
            Piece {
                times: 1,
                script: "0 set 2 0\n0 set 3 0\ngc collect\n",
                replies: "ok\nok\n0\n",
            },
            Piece {
                times: 300,
                script: "0 load 2 1 #\n0 load 3 2 1\n0 load 4 3 1\n",
                replies: "ptr\nptr\n#\n",
            },
        ],
    },
    Row {
        name: "overflow_in_a_partial_cycle",
        pages: 4,
        pieces: &[
            Piece {
                times: 1,
                script: "attach\n0 alloc 1 300 normal\ngc collect\n",
                replies: "mutator 0\nok\n0\n",
            },
            Piece {
                times: 300,
                script: "0 alloc 2 2 normal\n0 set 3 #\n0 store 2 0 3\n0 store 1 # 2\n",
                replies: "ok\nok\nok\nok\n",
            },
            Piece {
                times: 1,
                script: "0 set 2 0\ngc partial\ngc finish\n0 load 4 1 299\n0 load 5 4 0\n0 set 4 0\n0 set 1 0\ngc partial\ngc finish\ngc begin\n\
                    gc finish\n",
                replies: "ok\nok\n0\nptr\n299\nok\nok\nok\n0\nok\n301\n",
            },
        ],
    },
    Row {
        name: "overflow_while_carrying",
        pages: 6,
        pieces: &[
            Piece {
                times: 1,
                script: "attach\n0 alloc 1 300 normal\ngc collect\n",
                replies: "mutator 0\nok\n0\n",
            },
            Piece {
                times: 300,
                script: "0 alloc 2 6 normal\n0 store 1 # 2\n",
                replies: "ok\nok\n",
            },
            Piece {
                times: 1,
                script: "0 set 3 268435456\n0 store 2 0 3\n0 set 3 268439552\n0 store 2 1 3\n0 set 3 268443648\n0 store 2 2 3\n\
                    0 set 3 268447744\n0 store 2 3 3\n0 set 3 268451840\n0 store 2 4 3\n0 set 3 268455936\n0 store 2 5 3\n0 set 2 0\n\
                    0 set 3 0\ngc partial\ngc finish\n0 alloc 2 512 normal\n0 set 2 0\ngc partial\ngc finish\n0 set 1 0\ngc begin\n\
                    gc finish\n",
                replies: "ok\nok\nok\nok\nok\nok\nok\nok\nok\nok\nok\nok\nok\nok\nok\n0\nok\nok\nok\n0\nok\nok\n302\n",
            },
        ],
    },
    Row {
        name: "roots_past_a_full_mark_stack",
        pages: 5,
        pieces: &[
            Piece {
                times: 1,
                script: "attach\n",
                replies: "mutator 0\n",
            },
            Piece {
                times: 256,
                script: "0 alloc 1 2 normal\n0 push 1\n0 alloc 2 4 normal\n0 store 1 1 2\n",
                replies: "ok\nok\nok\nok\n",
            },
            Piece {
                times: 44,
                script: "0 alloc 1 2 normal\n0 gput # 1\n0 alloc 2 4 normal\n0 store 1 1 2\n",
                replies: "ok\nok\nok\nok\n",
            },
            Piece {
                times: 1,
                script: "0 set 1 0\n0 set 2 0\ngc begin\ngc roots\ngc mark 100000\ngc retrace\ngc mark 100000\ngc retrace\ngc finish\n\
                    0 gget 1 43\n0 load 2 1 1\n0 size 2\n0 set 1 0\n0 set 2 0\ngc collect\n",
                replies: "ok\nok\nok\nok\n1536\n1\n176\n0\n0\nptr\nptr\n4\nok\nok\n0\n",
            },
        ],
    },
];

#[test]
fn each_row_is_answered(rt: HostRuntime) -> Result<(), Fail> {
    let mut rows = Rows::new(rt.alloc())?;
    rows.are_answered(&rt, ROWS)
}
