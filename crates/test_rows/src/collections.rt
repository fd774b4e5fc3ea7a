//! `tests/rows/collections.rows`, as `tests/rows/as_tests` writes it: a change belongs there.

use crate::row::{Piece, Row, Rows};
use std::test::Fail;

const ROWS: &[Row<'static>] = &[
    Row {
        name: "pointer_free_holder",
        pages: 4,
        pieces: &[Piece {
            times: 1,
            script: "attach\n0 alloc 1 2 atomic\n0 alloc 2 2 normal\n0 store 1 0 2\n0 set 2 0\ngc collect\n",
            replies: "mutator 0\nok\nok\nok\nok\n1\n",
        }],
    },
    Row {
        name: "last_byte",
        pages: 4,
        pieces: &[Piece {
            times: 1,
            script: "attach\n0 alloc 1 2 normal\n0 add 1 1 15\ngc collect\n0 load 3 1 0\n",
            replies: "mutator 0\nok\nok\n0\nrefused 2 Misaligned\n",
        }],
    },
    Row {
        name: "one_past_the_end",
        pages: 4,
        pieces: &[Piece {
            times: 1,
            script: "attach\n0 alloc 1 2 normal\n0 add 1 1 16\ngc collect\n0 load 3 1 0\n",
            replies: "mutator 0\nok\nok\n1\nrefused 3 NoObject\n",
        }],
    },
    Row {
        name: "ring_of_two",
        pages: 4,
        pieces: &[Piece {
            times: 1,
            script: "attach\n0 alloc 1 2 normal\n0 alloc 2 2 normal\n0 store 1 0 2\n0 store 2 0 1\n0 set 1 0\n0 set 2 0\ngc collect\n",
            replies: "mutator 0\nok\nok\nok\nok\nok\nok\n2\n",
        }],
    },
    Row {
        name: "integer_is_pointer",
        pages: 1,
        pieces: &[Piece {
            times: 1,
            script: "attach\n0 alloc 1 256 normal\n0 alloc 2 256 normal\n0 set 1 268437000\n0 set 2 0\ngc collect\n",
            replies: "mutator 0\nok\nok\nok\nok\n1\n",
        }],
    },
    Row {
        name: "detach_and_attach",
        pages: 4,
        pieces: &[Piece {
            times: 1,
            script: "attach\n0 alloc 1 2 normal\n0 detach\n0 get 1\ngc collect\nattach\n",
            replies: "mutator 0\nok\nok\nrefused 1 NoSlot\n1\nmutator 0\n",
        }],
    },
    Row {
        name: "collections_counted_twice",
        pages: 4,
        pieces: &[Piece {
            times: 1,
            script: "gc no\ngc collect\ngc collect\ngc no\n",
            replies: "0\n0\n0\n2\n",
        }],
    },
    Row {
        name: "hidden_pointer",
        pages: 4,
        pieces: &[Piece {
            times: 1,
            script: "attach\n0 alloc 1 2 normal\n0 alloc 4 2 normal\n0 alloc 2 2 normal\n0 set 5 77\n0 store 2 0 5\n0 store 1 0 2\n0 set 2 0\n\
                gc begin\ngc roots\ngc mark 2\n0 load 6 1 0\n0 store 4 0 6\n0 store 1 0 2\n0 set 6 0\ngc finish\n0 load 6 4 0\n\
                0 load 7 6 0\n",
            replies: "mutator 0\nok\nok\nok\nok\nok\nok\nok\nok\nok\n2\nptr\nok\nok\nok\n0\nptr\n77\n",
        }],
    },
    Row {
        name: "quiet_cycle",
        pages: 4,
        pieces: &[Piece {
            times: 1,
            script: "attach\n0 alloc 1 2 normal\n0 alloc 2 2 normal\n0 set 2 0\ngc begin\ngc finish\n",
            replies: "mutator 0\nok\nok\nok\nok\n1\n",
        }],
    },
    Row {
        name: "dead_but_unswept",
        pages: 4,
        pieces: &[Piece {
            times: 1,
            script: "attach\n0 alloc 1 2 normal\n0 sub 2 0 1\n0 set 1 0\ngc begin\ngc finish\n0 sub 1 0 2\n0 load 3 1 0\n",
            replies: "mutator 0\nok\nok\nok\nok\n1\nok\nrefused 3 NoObject\n",
        }],
    },
    Row {
        name: "reached_again_in_time",
        pages: 4,
        pieces: &[Piece {
            times: 1,
            script: "attach\n0 alloc 1 2 normal\n0 sub 2 0 1\n0 set 1 0\ngc begin\n0 sub 1 0 2\ngc finish\n0 load 3 1 0\n",
            replies: "mutator 0\nok\nok\nok\nok\nok\n0\n0\n",
        }],
    },
    Row {
        name: "wrong_phase",
        pages: 4,
        pieces: &[Piece {
            times: 1,
            script: "gc mark 4\nattach\n0 pop 1\n",
            replies: "refused 9 WrongPhase\nmutator 0\nrefused 8 StackEmpty\n",
        }],
    },
    Row {
        name: "freed_and_cut_again",
        pages: 1,
        pieces: &[Piece {
            times: 1,
            script: "attach\n0 alloc 1 256 normal\n0 alloc 2 256 normal\ngc begin\ngc roots\n0 free 1\n0 free 2\n0 alloc 1 2 normal\ngc finish\n\
                0 load 3 1 0\n",
            replies: "mutator 0\nok\nok\nok\nok\nok\nok\nok\n0\n0\n",
        }],
    },
    Row {
        name: "collections_counted",
        pages: 4,
        pieces: &[Piece {
            times: 1,
            script: "gc no\ngc collect\ngc begin\ngc finish\ngc no\n",
            replies: "0\n0\nok\n0\n2\n",
        }],
    },
    Row {
        name: "mark_by_three_words",
        pages: 4,
        pieces: &[Piece {
            times: 1,
            script: "attach\n0 alloc 1 4 normal\ngc begin\ngc roots\ngc mark 3\ngc mark 3\ngc mark 3\ngc finish\n",
            replies: "mutator 0\nok\nok\nok\n3\n1\n0\n0\n",
        }],
    },
    Row {
        name: "atomic_is_not_read",
        pages: 4,
        pieces: &[Piece {
            times: 1,
            script: "attach\n0 alloc 1 4 atomic\ngc begin\ngc roots\ngc mark 9\n",
            replies: "mutator 0\nok\nok\nok\n0\n",
        }],
    },
    Row {
        name: "retrace_after_store",
        pages: 4,
        pieces: &[Piece {
            times: 1,
            script: "attach\n0 alloc 1 2 normal\ngc begin\ngc retrace\n0 store 1 0 1\ngc retrace\ngc retrace\ngc finish\n",
            replies: "mutator 0\nok\nok\n0\nok\n1\n0\n0\n",
        }],
    },
    Row {
        name: "stored_word_points_nowhere",
        pages: 4,
        pieces: &[Piece {
            times: 1,
            script: "attach\n0 alloc 1 2 normal\ngc begin\n0 set 2 7\n0 store 1 0 2\ngc retrace\ngc retrace\n",
            replies: "mutator 0\nok\nok\nok\nok\n1\n0\n",
        }],
    },
    Row {
        name: "cut_again_under_the_marker",
        pages: 1,
        pieces: &[Piece {
            times: 1,
            script: "attach\n0 alloc 1 256 normal\n0 alloc 2 256 normal\n0 store 1 0 2\ngc begin\ngc roots\ngc mark 1\n0 free 1\n0 free 2\n\
                0 alloc 1 4 normal\n0 store 1 0 1\ngc retrace\ngc finish\n0 size 1\ngc collect\n0 set 1 0\n0 set 2 0\ngc collect\n",
            replies: "mutator 0\nok\nok\nok\nok\nok\n1\nok\nok\nok\nok\n1\n0\n4\n0\nok\nok\n1\n",
        }],
    },
    Row {
        name: "thousand_long_list",
        pages: 4,
        pieces: &[
            Piece {
                times: 1,
                script: "attach\n0 set 1 0\n",
                replies: "mutator 0\nok\n",
            },
            Piece {
                times: 1000,
                script: "0 alloc 2 2 normal\n0 store 2 0 1\n0 copy 1 2\n",
                replies: "ok\nok\nok\n",
            },
            Piece {
                times: 1,
                script: "0 set 2 0\ngc begin\ngc roots\ngc mark 2000\ngc finish\ngc collect\n",
                replies: "ok\nok\nok\n2000\n0\n0\n",
            },
        ],
    },
    Row {
        name: "entry_is_read_over_calls",
        pages: 4,
        pieces: &[Piece {
            times: 1,
            script: "attach\ngc mark 4\n0 alloc 1 4 normal\ngc begin\ngc begin\ngc roots\ngc mark 3\ngc mark 3\ngc mark 3\ngc finish\ngc finish\n\
                gc no\n",
            replies: "mutator 0\nrefused 9 WrongPhase\nok\nok\nrefused 9 WrongPhase\nok\n3\n1\n0\n0\nrefused 9 WrongPhase\n1\n",
        }],
    },
    Row {
        name: "ring_stays_while_one_is_reached",
        pages: 4,
        pieces: &[Piece {
            times: 1,
            script: "attach\n0 alloc 1 2 normal\n0 alloc 2 2 normal\n0 store 1 0 2\n0 store 2 0 1\n0 set 2 0\ngc collect\n0 copy 3 1\n0 set 1 0\n\
                gc collect\n0 set 3 0\ngc begin\ngc finish\n0 alloc 1 65536 atomic\n0 alloc 1 2048 atomic\n",
            replies: "mutator 0\nok\nok\nok\nok\nok\n0\nok\nok\n0\nok\nok\n2\nrefused 6 Full\nok\n",
        }],
    },
    Row {
        name: "ring_goes_beside_a_third",
        pages: 1,
        pieces: &[Piece {
            times: 1,
            script: "attach\n0 alloc 1 2 normal\n0 alloc 2 2 normal\n0 alloc 3 2 normal\n0 store 1 0 2\n0 store 2 1 1\n0 set 1 0\ngc collect\n\
                0 set 2 0\ngc collect\n0 size 3\ngc collect\n",
            replies: "mutator 0\nok\nok\nok\nok\nok\nok\n0\nok\n2\n2\n0\n",
        }],
    },
];

#[test]
fn each_row_is_answered(rt: HostRuntime) -> Result<(), Fail> {
    let mut rows = Rows::new(rt.alloc())?;
    rows.are_answered(&rt, ROWS)
}
