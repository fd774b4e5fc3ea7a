//! `tests/rows/partial_cycles.rows`, as `tests/rows/as_tests` writes it: a change belongs there.

use crate::row::{Piece, Row, Rows};
use std::test::Fail;

const ROWS: &[Row<'static>] = &[
    Row {
        name: "partial_needs_full",
        pages: 4,
        pieces: &[Piece {
            times: 1,
            script: "attach\ngc partial\n",
            replies: "mutator 0\nrefused 12 NeedsFull\n",
        }],
    },
    Row {
        name: "partial_keeps_old",
        pages: 4,
        pieces: &[Piece {
            times: 1,
            script: "attach\n0 alloc 1 2 normal\ngc collect\n0 alloc 2 2 normal\n0 set 1 0\n0 set 2 0\ngc partial\ngc finish\ngc collect\n",
            replies: "mutator 0\nok\n0\nok\nok\nok\nok\n1\n1\n",
        }],
    },
    Row {
        name: "partial_sees_old_to_young",
        pages: 4,
        pieces: &[Piece {
            times: 1,
            script: "attach\n0 alloc 1 2 normal\ngc collect\n0 alloc 2 2 normal\n0 store 1 0 2\n0 set 2 0\ngc partial\ngc finish\n0 load 2 1 0\n\
                0 size 2\n",
            replies: "mutator 0\nok\n0\nok\nok\nok\nok\n0\nptr\n2\n",
        }],
    },
    Row {
        name: "carried_page",
        pages: 1,
        pieces: &[Piece {
            times: 1,
            script: "attach\n0 alloc 1 256 normal\n0 set 2 268435456\n0 store 1 0 2\n0 set 2 268437504\n0 store 1 1 2\n0 set 2 0\ngc collect\n\
                0 alloc 2 256 normal\n0 set 2 0\ngc partial\ngc finish\ngc collect\n",
            replies: "mutator 0\nok\nok\nok\nok\nok\nok\n0\nok\nok\nok\n0\n0\n",
        }],
    },
    Row {
        name: "partial_after_free",
        pages: 4,
        pieces: &[Piece {
            times: 1,
            script: "attach\n0 alloc 1 2 normal\ngc collect\n0 free 1\ngc partial\ngc begin\ngc finish\ngc partial\ngc partial\n",
            replies: "mutator 0\nok\n0\nok\nrefused 12 NeedsFull\nok\n0\nok\nrefused 9 WrongPhase\n",
        }],
    },
    Row {
        name: "partial_after_free_while_marking",
        pages: 4,
        pieces: &[Piece {
            times: 1,
            script: "attach\n0 alloc 1 2 normal\ngc begin\n0 free 1\ngc finish\ngc partial\n",
            replies: "mutator 0\nok\nok\nok\n0\nrefused 12 NeedsFull\n",
        }],
    },
    Row {
        name: "partial_after_a_free_before_the_last_cycle",
        pages: 4,
        pieces: &[Piece {
            times: 1,
            script: "attach\n0 alloc 1 2 normal\n0 free 1\ngc begin\ngc finish\ngc partial\ngc finish\n",
            replies: "mutator 0\nok\nok\nok\n0\nok\n0\n",
        }],
    },
    Row {
        name: "partial_leaves_old_garbage",
        pages: 4,
        pieces: &[Piece {
            times: 1,
            script: "attach\n0 alloc 1 2 normal\ngc collect\n0 set 1 0\ngc partial\ngc finish\ngc partial\ngc finish\ngc partial\ngc finish\n\
                gc begin\ngc finish\ngc no\n",
            replies: "mutator 0\nok\n0\nok\nok\n0\nok\n0\nok\n0\nok\n1\n5\n",
        }],
    },
    Row {
        name: "partial_goes_from_old_to_new_to_old",
        pages: 4,
        pieces: &[Piece {
            times: 1,
            script: "attach\n0 alloc 1 2 normal\n0 alloc 2 2 normal\n0 store 1 0 2\ngc collect\n0 alloc 3 2 normal\n0 store 1 1 3\n\
                0 store 3 0 2\n0 set 4 0\n0 store 1 0 4\n0 set 2 0\n0 set 3 0\ngc partial\ngc finish\n0 load 5 1 1\n0 load 5 5 0\n0 size 5\n",
            replies: "mutator 0\nok\nok\nok\n0\nok\nok\nok\nok\nok\nok\nok\nok\n0\nptr\nptr\n2\n",
        }],
    },
    Row {
        name: "word_carried_by_a_cycle_in_small_steps",
        pages: 1,
        pieces: &[Piece {
            times: 1,
            script: "attach\n0 alloc 1 256 normal\n0 set 2 268435456\n0 store 1 0 2\n0 set 2 268437504\n0 store 1 1 2\n0 set 2 0\ngc begin\n\
                gc roots\ngc mark 1000\ngc finish\n0 alloc 2 256 normal\n0 set 2 0\ngc partial\ngc finish\ngc partial\ngc finish\n\
                0 store 1 0 2\n0 store 1 1 2\ngc begin\ngc finish\n",
            replies: "mutator 0\nok\nok\nok\nok\nok\nok\nok\nok\n256\n0\nok\nok\nok\n0\nok\n0\nok\nok\nok\n1\n",
        }],
    },
    Row {
        name: "word_carried_by_a_partial_cycle",
        pages: 1,
        pieces: &[Piece {
            times: 1,
            script: "attach\ngc collect\n0 alloc 1 256 normal\n0 set 2 268435456\n0 store 1 0 2\n0 set 2 268437504\n0 store 1 1 2\n0 set 2 0\n\
                gc partial\ngc finish\n0 alloc 2 256 normal\n0 set 2 0\ngc partial\ngc finish\ngc collect\n",
            replies: "mutator 0\n0\nok\nok\nok\nok\nok\nok\nok\n0\nok\nok\nok\n0\n0\n",
        }],
    },
    Row {
        name: "nothing_carried_in_vain",
        pages: 4,
        pieces: &[Piece {
            times: 1,
            script: "attach\n0 alloc 1 2 normal\n0 store 1 0 1\ngc collect\ngc partial\ngc retrace\ngc finish\ngc partial\ngc retrace\n\
                gc finish\n",
            replies: "mutator 0\nok\nok\n0\nok\n0\n0\nok\n0\n0\n",
        }],
    },
    Row {
        name: "stray_word_carried_again",
        pages: 1,
        pieces: &[Piece {
            times: 1,
            script: "attach\n0 alloc 1 256 normal\n0 set 2 268435456\n0 store 1 0 2\n0 set 2 268437504\n0 store 1 1 2\n0 set 2 0\ngc collect\n\
                gc partial\ngc retrace\ngc retrace\ngc finish\ngc partial\ngc retrace\ngc finish\n",
            replies: "mutator 0\nok\nok\nok\nok\nok\nok\n0\nok\n1\n0\n0\nok\n1\n0\n",
        }],
    },
    Row {
        name: "chain_through_a_carried_page",
        pages: 3,
        pieces: &[Piece {
            times: 1,
            script: "attach\n0 alloc 1 512 normal\n0 alloc 2 2 normal\n0 set 3 268435456\n0 store 1 0 3\n0 set 3 268439552\n0 store 1 1 3\n\
                0 set 3 268443648\n0 store 1 2 3\n0 set 3 0\ngc collect\n0 alloc 3 512 normal\n0 store 3 0 2\n0 set 2 0\n0 set 3 0\n\
                gc partial\ngc finish\ngc collect\n0 set 1 0\ngc collect\n",
            replies: "mutator 0\nok\nok\nok\nok\nok\nok\nok\nok\nok\n0\nok\nok\nok\nok\nok\n0\n0\nok\n3\n",
        }],
    },
    Row {
        name: "free_in_a_partial_cycle",
        pages: 4,
        pieces: &[Piece {
            times: 1,
            script: "attach\n0 alloc 1 2 normal\ngc collect\n0 alloc 2 2 normal\ngc partial\n0 free 2\ngc finish\ngc partial\ngc collect\n\
                gc partial\ngc finish\n",
            replies: "mutator 0\nok\n0\nok\nok\nok\n0\nrefused 12 NeedsFull\n0\nok\n0\n",
        }],
    },
    Row {
        name: "collect_in_a_partial_cycle",
        pages: 4,
        pieces: &[Piece {
            times: 1,
            script: "attach\n0 alloc 1 2 normal\ngc collect\n0 set 1 0\ngc partial\ngc collect\ngc finish\ngc partial\ngc finish\n",
            replies: "mutator 0\nok\n0\nok\nok\n1\nrefused 9 WrongPhase\nok\n0\n",
        }],
    },
    Row {
        name: "born_in_a_partial_cycle",
        pages: 4,
        pieces: &[Piece {
            times: 1,
            script: "attach\n0 alloc 1 2 normal\ngc collect\ngc partial\n0 alloc 2 2 normal\n0 set 2 0\ngc finish\ngc partial\ngc finish\n\
                gc collect\n",
            replies: "mutator 0\nok\n0\nok\nok\nok\n0\nok\n0\n1\n",
        }],
    },
    Row {
        name: "links_through_partial_cycles",
        pages: 4,
        pieces: &[Piece {
            times: 1,
            script: "attach\n0 alloc 1 2 atomic\n0 alloc 2 2 normal\ngc collect\n0 alloc 3 2 normal\n0 store 1 0 2\n0 link 1 0 2\n0 store 1 1 3\n\
                0 link 1 1 3\n0 set 2 0\n0 set 3 0\ngc partial\ngc finish\n0 load 4 1 1\n0 load 4 1 0\n0 set 4 0\ngc begin\ngc finish\n\
                0 load 4 1 0\n",
            replies: "mutator 0\nok\nok\n0\nok\nok\nok\nok\nok\nok\nok\nok\n1\n0\nptr\nok\nok\n1\n0\n",
        }],
    },
];

#[test]
fn each_row_is_answered(rt: HostRuntime) -> Result<(), Fail> {
    let mut rows = Rows::new(rt.alloc())?;
    rows.are_answered(&rt, ROWS)
}
