//! `tests/rows/rooms.rows`, as `tests/rows/as_tests` writes it: a change belongs there.

use crate::row::{Piece, Row, Rows};
use std::test::Fail;

const ROWS: &[Row<'static>] = &[
    Row {
        name: "cells_of_64_words",
        pages: 3,
        pieces: &[
            Piece {
                times: 1,
                script: "attach\n0 set 1 268435456\n",
                replies: "mutator 0\nok\n",
            },
            Piece {
                times: 24,
                script: "0 alloc 2 64 normal\n0 store 2 0 1\n0 copy 1 2\n",
                replies: "ok\nok\nok\n",
            },
            Piece {
                times: 1,
                script: "0 alloc 2 64 normal\n",
                replies: "refused 6 Full\n",
            },
            Piece {
                times: 24,
                script: "0 load 2 1 0\n0 free 1\n0 free 1\n0 copy 1 2\n",
                replies: "ptr\nok\nrefused 3 NoObject\nok\n",
            },
            Piece {
                times: 1,
                script: "0 alloc 0 1536 normal\n0 size 0\n0 alloc 2 64 normal\n0 free 0\n0 set 1 268435456\n",
                replies: "ok\n1536\nrefused 6 Full\nok\nok\n",
            },
            Piece {
                times: 24,
                script: "0 alloc 2 64 atomic\n0 store 2 0 1\n0 copy 1 2\n",
                replies: "ok\nok\nok\n",
            },
            Piece {
                times: 1,
                script: "0 alloc 2 64 atomic\n",
                replies: "refused 6 Full\n",
            },
            Piece {
                times: 24,
                script: "0 load 2 1 0\n0 free 1\n0 free 1\n0 copy 1 2\n",
                replies: "ptr\nok\nrefused 3 NoObject\nok\n",
            },
            Piece {
                times: 1,
                script: "0 alloc 0 1536 atomic\n0 size 0\n0 alloc 2 64 atomic\n0 free 0\n",
                replies: "ok\n1536\nrefused 6 Full\nok\n",
            },
        ],
    },
    Row {
        name: "cells_of_96_words",
        pages: 3,
        pieces: &[
            Piece {
                times: 1,
                script: "attach\n0 set 1 268435456\n",
                replies: "mutator 0\nok\n",
            },
            Piece {
                times: 15,
                script: "0 alloc 2 96 normal\n0 store 2 0 1\n0 copy 1 2\n",
                replies: "ok\nok\nok\n",
            },
            Piece {
                times: 1,
                script: "0 alloc 2 96 normal\n",
                replies: "refused 6 Full\n",
            },
            Piece {
                times: 15,
                script: "0 load 2 1 0\n0 free 1\n0 free 1\n0 copy 1 2\n",
                replies: "ptr\nok\nrefused 3 NoObject\nok\n",
            },
            Piece {
                times: 1,
                script: "0 alloc 0 1536 normal\n0 size 0\n0 alloc 2 96 normal\n0 free 0\n0 set 1 268435456\n",
                replies: "ok\n1536\nrefused 6 Full\nok\nok\n",
            },
            Piece {
                times: 15,
                script: "0 alloc 2 96 atomic\n0 store 2 0 1\n0 copy 1 2\n",
                replies: "ok\nok\nok\n",
            },
            Piece {
                times: 1,
                script: "0 alloc 2 96 atomic\n",
                replies: "refused 6 Full\n",
            },
            Piece {
                times: 15,
                script: "0 load 2 1 0\n0 free 1\n0 free 1\n0 copy 1 2\n",
                replies: "ptr\nok\nrefused 3 NoObject\nok\n",
            },
            Piece {
                times: 1,
                script: "0 alloc 0 1536 atomic\n0 size 0\n0 alloc 2 96 atomic\n0 free 0\n",
                replies: "ok\n1536\nrefused 6 Full\nok\n",
            },
        ],
    },
    Row {
        name: "cells_of_128_words",
        pages: 3,
        pieces: &[
            Piece {
                times: 1,
                script: "attach\n0 set 1 268435456\n",
                replies: "mutator 0\nok\n",
            },
            Piece {
                times: 12,
                script: "0 alloc 2 128 normal\n0 store 2 0 1\n0 copy 1 2\n",
                replies: "ok\nok\nok\n",
            },
            Piece {
                times: 1,
                script: "0 alloc 2 128 normal\n",
                replies: "refused 6 Full\n",
            },
            Piece {
                times: 12,
                script: "0 load 2 1 0\n0 free 1\n0 free 1\n0 copy 1 2\n",
                replies: "ptr\nok\nrefused 3 NoObject\nok\n",
            },
            Piece {
                times: 1,
                script: "0 alloc 0 1536 normal\n0 size 0\n0 alloc 2 128 normal\n0 free 0\n0 set 1 268435456\n",
                replies: "ok\n1536\nrefused 6 Full\nok\nok\n",
            },
            Piece {
                times: 12,
                script: "0 alloc 2 128 atomic\n0 store 2 0 1\n0 copy 1 2\n",
                replies: "ok\nok\nok\n",
            },
            Piece {
                times: 1,
                script: "0 alloc 2 128 atomic\n",
                replies: "refused 6 Full\n",
            },
            Piece {
                times: 12,
                script: "0 load 2 1 0\n0 free 1\n0 free 1\n0 copy 1 2\n",
                replies: "ptr\nok\nrefused 3 NoObject\nok\n",
            },
            Piece {
                times: 1,
                script: "0 alloc 0 1536 atomic\n0 size 0\n0 alloc 2 128 atomic\n0 free 0\n",
                replies: "ok\n1536\nrefused 6 Full\nok\n",
            },
        ],
    },
    Row {
        name: "cells_of_256_words",
        pages: 3,
        pieces: &[
            Piece {
                times: 1,
                script: "attach\n0 set 1 268435456\n",
                replies: "mutator 0\nok\n",
            },
            Piece {
                times: 6,
                script: "0 alloc 2 256 normal\n0 store 2 0 1\n0 copy 1 2\n",
                replies: "ok\nok\nok\n",
            },
            Piece {
                times: 1,
                script: "0 alloc 2 256 normal\n",
                replies: "refused 6 Full\n",
            },
            Piece {
                times: 6,
                script: "0 load 2 1 0\n0 free 1\n0 free 1\n0 copy 1 2\n",
                replies: "ptr\nok\nrefused 3 NoObject\nok\n",
            },
            Piece {
                times: 1,
                script: "0 alloc 0 1536 normal\n0 size 0\n0 alloc 2 256 normal\n0 free 0\n0 set 1 268435456\n",
                replies: "ok\n1536\nrefused 6 Full\nok\nok\n",
            },
            Piece {
                times: 6,
                script: "0 alloc 2 256 atomic\n0 store 2 0 1\n0 copy 1 2\n",
                replies: "ok\nok\nok\n",
            },
            Piece {
                times: 1,
                script: "0 alloc 2 256 atomic\n",
                replies: "refused 6 Full\n",
            },
            Piece {
                times: 6,
                script: "0 load 2 1 0\n0 free 1\n0 free 1\n0 copy 1 2\n",
                replies: "ptr\nok\nrefused 3 NoObject\nok\n",
            },
            Piece {
                times: 1,
                script: "0 alloc 0 1536 atomic\n0 size 0\n0 alloc 2 256 atomic\n0 free 0\n",
                replies: "ok\n1536\nrefused 6 Full\nok\n",
            },
        ],
    },
    Row {
        name: "1_page_filled",
        pages: 1,
        pieces: &[Piece {
            times: 1,
            script: "attach\n0 alloc 0 512 normal\n0 alloc 0 512 normal\n",
            replies: "mutator 0\nok\nrefused 6 Full\n",
        }],
    },
    Row {
        name: "2_pages_filled",
        pages: 2,
        pieces: &[Piece {
            times: 1,
            script: "attach\n0 alloc 0 512 normal\n0 alloc 0 512 normal\n0 alloc 0 512 normal\n",
            replies: "mutator 0\nok\nok\nrefused 6 Full\n",
        }],
    },
    Row {
        name: "31_pages_filled",
        pages: 31,
        pieces: &[
            Piece {
                times: 1,
                script: "attach\n",
                replies: "mutator 0\n",
            },
            Piece {
                times: 31,
                script: "0 alloc 0 512 normal\n",
                replies: "ok\n",
            },
            Piece {
                times: 1,
                script: "0 alloc 0 512 normal\n",
                replies: "refused 6 Full\n",
            },
        ],
    },
    Row {
        name: "4096_pages_filled",
        pages: 4096,
        pieces: &[
            Piece {
                times: 1,
                script: "attach\n",
                replies: "mutator 0\n",
            },
            Piece {
                times: 4096,
                script: "0 alloc 0 512 normal\n",
                replies: "ok\n",
            },
            Piece {
                times: 1,
                script: "0 alloc 0 512 normal\n",
                replies: "refused 6 Full\n",
            },
        ],
    },
];

#[test]
fn each_row_is_answered(rt: HostRuntime) -> Result<(), Fail> {
    let mut rows = Rows::new(rt.alloc())?;
    rows.are_answered(&rt, ROWS)
}
