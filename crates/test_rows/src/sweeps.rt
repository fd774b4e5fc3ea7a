//! `tests/rows/sweeps.rows`, as `tests/rows/as_tests` writes it: a change belongs there.

use crate::row::{Piece, Row, Rows};
use std::test::Fail;

const ROWS: &[Row<'static>] = &[
    Row {
        name: "full_must_sweep",
        pages: 1,
        pieces: &[Piece {
            times: 1,
            script: "attach\n0 alloc 1 256 normal\n0 alloc 2 256 normal\n0 set 1 0\n0 set 2 0\ngc begin\ngc finish\n0 alloc 3 2 atomic\n",
            replies: "mutator 0\nok\nok\nok\nok\nok\n2\nok\n",
        }],
    },
    Row {
        name: "dead_on_a_live_page",
        pages: 1,
        pieces: &[Piece {
            times: 1,
            script: "attach\n0 alloc 1 256 normal\n0 alloc 2 256 normal\n0 sub 2 2 1\ngc begin\ngc finish\n0 add 2 1 2048\n0 load 3 2 0\n\
                0 free 2\n0 load 3 1 0\n0 alloc 3 2 atomic\n0 alloc 3 256 normal\n0 sub 3 3 1\n0 get 3\n",
            replies: "mutator 0\nok\nok\nok\nok\n1\nok\nrefused 3 NoObject\nrefused 3 NoObject\n0\nrefused 6 Full\nok\nok\n2048\n",
        }],
    },
    Row {
        name: "allocation_sweeps_as_it_needs",
        pages: 4,
        pieces: &[Piece {
            times: 1,
            script: "attach\n0 alloc 1 2 normal\n0 alloc 2 4 normal\n0 set 1 0\n0 set 2 0\ngc begin\ngc finish\n0 alloc 1 2 normal\ngc sweep\n\
                gc sweep\n",
            replies: "mutator 0\nok\nok\nok\nok\nok\n2\nok\n1\n0\n",
        }],
    },
    Row {
        name: "swept_page_comes_first",
        pages: 4,
        pieces: &[Piece {
            times: 1,
            script: "attach\n0 alloc 1 256 normal\n0 alloc 2 256 normal\n0 alloc 3 256 normal\n0 alloc 4 256 normal\n0 free 4\n0 set 4 0\n\
                0 set 2 0\ngc begin\ngc finish\n0 alloc 5 256 normal\ngc sweep\ngc sweep\n",
            replies: "mutator 0\nok\nok\nok\nok\nok\nok\nok\nok\n1\nok\n1\n0\n",
        }],
    },
    Row {
        name: "free_page_comes_before_sweeps",
        pages: 4,
        pieces: &[Piece {
            times: 1,
            script: "attach\n0 alloc 1 2 normal\n0 set 1 0\ngc begin\ngc finish\n0 alloc 1 4 normal\ngc sweep\ngc sweep\n",
            replies: "mutator 0\nok\nok\nok\n1\nok\n1\n0\n",
        }],
    },
    Row {
        name: "free_pages_in_a_row_come_before_sweeps",
        pages: 4,
        pieces: &[Piece {
            times: 1,
            script: "attach\n0 alloc 1 2 normal\n0 set 1 0\ngc begin\ngc finish\n0 alloc 1 1024 normal\n0 size 1\ngc sweep\ngc sweep\n",
            replies: "mutator 0\nok\nok\nok\n1\nok\n1024\n1\n0\n",
        }],
    },
    Row {
        name: "sweep_two_blocks",
        pages: 4,
        pieces: &[Piece {
            times: 1,
            script: "attach\n0 alloc 1 2 normal\n0 alloc 1 4 normal\n0 set 1 0\ngc begin\ngc finish\ngc sweep\ngc sweep\ngc sweep\n",
            replies: "mutator 0\nok\nok\nok\nok\n2\n1\n1\n0\n",
        }],
    },
];

#[test]
fn each_row_is_answered(rt: HostRuntime) -> Result<(), Fail> {
    let mut rows = Rows::new(rt.alloc())?;
    rows.are_answered(&rt, ROWS)
}
