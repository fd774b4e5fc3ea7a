//! `tests/rows/rooms.rows`, as `tests/rows/as_tests` writes it: a change belongs there.

use crate::row::{Piece, Row, Rows};
use std::test::Fail;

const ROWS: &[Row<'static>] = &[
    Row {
        name: "cells_of_2_words",
        pages: 3,
        pieces: &[
            Piece {
                times: 1,
                script: "attach\n0 set 1 268435456\n",
                replies: "mutator 0\nok\n",
            },
            Piece {
                times: 768,
                script: "0 alloc 2 2 normal\n0 store 2 0 1\n0 copy 1 2\n",
                replies: "ok\nok\nok\n",
            },
            Piece {
                times: 1,
                script: "0 alloc 2 2 normal\n",
                replies: "refused 6 Full\n",
            },
            Piece {
                times: 768,
                script: "0 load 2 1 0\n0 free 1\n0 free 1\n0 copy 1 2\n",
                replies: "ptr\nok\nrefused 3 NoObject\nok\n",
            },
            Piece {
                times: 1,
                script: "0 alloc 0 1536 normal\n0 size 0\n0 alloc 2 2 normal\n0 free 0\n0 set 1 268435456\n",
                replies: "ok\n1536\nrefused 6 Full\nok\nok\n",
            },
            Piece {
                times: 768,
                script: "0 alloc 2 2 atomic\n0 store 2 0 1\n0 copy 1 2\n",
                replies: "ok\nok\nok\n",
            },
            Piece {
                times: 1,
                script: "0 alloc 2 2 atomic\n",
                replies: "refused 6 Full\n",
            },
            Piece {
                times: 768,
                script: "0 load 2 1 0\n0 free 1\n0 free 1\n0 copy 1 2\n",
                replies: "ptr\nok\nrefused 3 NoObject\nok\n",
            },
            Piece {
                times: 1,
                script: "0 alloc 0 1536 atomic\n0 size 0\n0 alloc 2 2 atomic\n0 free 0\n",
                replies: "ok\n1536\nrefused 6 Full\nok\n",
            },
        ],
    },
    Row {
        name: "cells_of_4_words",
        pages: 3,
        pieces: &[
            Piece {
                times: 1,
                script: "attach\n0 set 1 268435456\n",
                replies: "mutator 0\nok\n",
            },
            Piece {
                times: 384,
                script: "0 alloc 2 4 normal\n0 store 2 0 1\n0 copy 1 2\n",
                replies: "ok\nok\nok\n",
            },
            Piece {
                times: 1,
                script: "0 alloc 2 4 normal\n",
                replies: "refused 6 Full\n",
            },
            Piece {
                times: 384,
                script: "0 load 2 1 0\n0 free 1\n0 free 1\n0 copy 1 2\n",
                replies: "ptr\nok\nrefused 3 NoObject\nok\n",
            },
            Piece {
                times: 1,
                script: "0 alloc 0 1536 normal\n0 size 0\n0 alloc 2 4 normal\n0 free 0\n0 set 1 268435456\n",
                replies: "ok\n1536\nrefused 6 Full\nok\nok\n",
            },
            Piece {
                times: 384,
                script: "0 alloc 2 4 atomic\n0 store 2 0 1\n0 copy 1 2\n",
                replies: "ok\nok\nok\n",
            },
            Piece {
                times: 1,
                script: "0 alloc 2 4 atomic\n",
                replies: "refused 6 Full\n",
            },
            Piece {
                times: 384,
                script: "0 load 2 1 0\n0 free 1\n0 free 1\n0 copy 1 2\n",
                replies: "ptr\nok\nrefused 3 NoObject\nok\n",
            },
            Piece {
                times: 1,
                script: "0 alloc 0 1536 atomic\n0 size 0\n0 alloc 2 4 atomic\n0 free 0\n",
                replies: "ok\n1536\nrefused 6 Full\nok\n",
            },
        ],
    },
    Row {
        name: "cells_of_6_words",
        pages: 3,
        pieces: &[
            Piece {
                times: 1,
                script: "attach\n0 set 1 268435456\n",
                replies: "mutator 0\nok\n",
            },
            Piece {
                times: 255,
                script: "0 alloc 2 6 normal\n0 store 2 0 1\n0 copy 1 2\n",
                replies: "ok\nok\nok\n",
            },
            Piece {
                times: 1,
                script: "0 alloc 2 6 normal\n",
                replies: "refused 6 Full\n",
            },
            Piece {
                times: 255,
                script: "0 load 2 1 0\n0 free 1\n0 free 1\n0 copy 1 2\n",
                replies: "ptr\nok\nrefused 3 NoObject\nok\n",
            },
            Piece {
                times: 1,
                script: "0 alloc 0 1536 normal\n0 size 0\n0 alloc 2 6 normal\n0 free 0\n0 set 1 268435456\n",
                replies: "ok\n1536\nrefused 6 Full\nok\nok\n",
            },
            Piece {
                times: 255,
                script: "0 alloc 2 6 atomic\n0 store 2 0 1\n0 copy 1 2\n",
                replies: "ok\nok\nok\n",
            },
            Piece {
                times: 1,
                script: "0 alloc 2 6 atomic\n",
                replies: "refused 6 Full\n",
            },
            Piece {
                times: 255,
                script: "0 load 2 1 0\n0 free 1\n0 free 1\n0 copy 1 2\n",
                replies: "ptr\nok\nrefused 3 NoObject\nok\n",
            },
            Piece {
                times: 1,
                script: "0 alloc 0 1536 atomic\n0 size 0\n0 alloc 2 6 atomic\n0 free 0\n",
                replies: "ok\n1536\nrefused 6 Full\nok\n",
            },
        ],
    },
    Row {
        name: "cells_of_8_words",
        pages: 3,
        pieces: &[
            Piece {
                times: 1,
                script: "attach\n0 set 1 268435456\n",
                replies: "mutator 0\nok\n",
            },
            Piece {
                times: 192,
                script: "0 alloc 2 8 normal\n0 store 2 0 1\n0 copy 1 2\n",
                replies: "ok\nok\nok\n",
            },
            Piece {
                times: 1,
                script: "0 alloc 2 8 normal\n",
                replies: "refused 6 Full\n",
            },
            Piece {
                times: 192,
                script: "0 load 2 1 0\n0 free 1\n0 free 1\n0 copy 1 2\n",
                replies: "ptr\nok\nrefused 3 NoObject\nok\n",
            },
            Piece {
                times: 1,
                script: "0 alloc 0 1536 normal\n0 size 0\n0 alloc 2 8 normal\n0 free 0\n0 set 1 268435456\n",
                replies: "ok\n1536\nrefused 6 Full\nok\nok\n",
            },
            Piece {
                times: 192,
                script: "0 alloc 2 8 atomic\n0 store 2 0 1\n0 copy 1 2\n",
                replies: "ok\nok\nok\n",
            },
            Piece {
                times: 1,
                script: "0 alloc 2 8 atomic\n",
                replies: "refused 6 Full\n",
            },
            Piece {
                times: 192,
                script: "0 load 2 1 0\n0 free 1\n0 free 1\n0 copy 1 2\n",
                replies: "ptr\nok\nrefused 3 NoObject\nok\n",
            },
            Piece {
                times: 1,
                script: "0 alloc 0 1536 atomic\n0 size 0\n0 alloc 2 8 atomic\n0 free 0\n",
                replies: "ok\n1536\nrefused 6 Full\nok\n",
            },
        ],
    },
    Row {
        name: "cells_of_12_words",
        pages: 3,
        pieces: &[
            Piece {
                times: 1,
                script: "attach\n0 set 1 268435456\n",
                replies: "mutator 0\nok\n",
            },
            Piece {
                times: 126,
                script: "0 alloc 2 12 normal\n0 store 2 0 1\n0 copy 1 2\n",
                replies: "ok\nok\nok\n",
            },
            Piece {
                times: 1,
                script: "0 alloc 2 12 normal\n",
                replies: "refused 6 Full\n",
            },
            Piece {
                times: 126,
                script: "0 load 2 1 0\n0 free 1\n0 free 1\n0 copy 1 2\n",
                replies: "ptr\nok\nrefused 3 NoObject\nok\n",
            },
            Piece {
                times: 1,
                script: "0 alloc 0 1536 normal\n0 size 0\n0 alloc 2 12 normal\n0 free 0\n0 set 1 268435456\n",
                replies: "ok\n1536\nrefused 6 Full\nok\nok\n",
            },
            Piece {
                times: 126,
                script: "0 alloc 2 12 atomic\n0 store 2 0 1\n0 copy 1 2\n",
                replies: "ok\nok\nok\n",
            },
            Piece {
                times: 1,
                script: "0 alloc 2 12 atomic\n",
                replies: "refused 6 Full\n",
            },
            Piece {
                times: 126,
                script: "0 load 2 1 0\n0 free 1\n0 free 1\n0 copy 1 2\n",
                replies: "ptr\nok\nrefused 3 NoObject\nok\n",
            },
            Piece {
                times: 1,
                script: "0 alloc 0 1536 atomic\n0 size 0\n0 alloc 2 12 atomic\n0 free 0\n",
                replies: "ok\n1536\nrefused 6 Full\nok\n",
            },
        ],
    },
    Row {
        name: "cells_of_16_words",
        pages: 3,
        pieces: &[
            Piece {
                times: 1,
                script: "attach\n0 set 1 268435456\n",
                replies: "mutator 0\nok\n",
            },
            Piece {
                times: 96,
                script: "0 alloc 2 16 normal\n0 store 2 0 1\n0 copy 1 2\n",
                replies: "ok\nok\nok\n",
            },
            Piece {
                times: 1,
                script: "0 alloc 2 16 normal\n",
                replies: "refused 6 Full\n",
            },
            Piece {
                times: 96,
                script: "0 load 2 1 0\n0 free 1\n0 free 1\n0 copy 1 2\n",
                replies: "ptr\nok\nrefused 3 NoObject\nok\n",
            },
            Piece {
                times: 1,
                script: "0 alloc 0 1536 normal\n0 size 0\n0 alloc 2 16 normal\n0 free 0\n0 set 1 268435456\n",
                replies: "ok\n1536\nrefused 6 Full\nok\nok\n",
            },
            Piece {
                times: 96,
                script: "0 alloc 2 16 atomic\n0 store 2 0 1\n0 copy 1 2\n",
                replies: "ok\nok\nok\n",
            },
            Piece {
                times: 1,
                script: "0 alloc 2 16 atomic\n",
                replies: "refused 6 Full\n",
            },
            Piece {
                times: 96,
                script: "0 load 2 1 0\n0 free 1\n0 free 1\n0 copy 1 2\n",
                replies: "ptr\nok\nrefused 3 NoObject\nok\n",
            },
            Piece {
                times: 1,
                script: "0 alloc 0 1536 atomic\n0 size 0\n0 alloc 2 16 atomic\n0 free 0\n",
                replies: "ok\n1536\nrefused 6 Full\nok\n",
            },
        ],
    },
    Row {
        name: "cells_of_24_words",
        pages: 3,
        pieces: &[
            Piece {
                times: 1,
                script: "attach\n0 set 1 268435456\n",
                replies: "mutator 0\nok\n",
            },
            Piece {
                times: 63,
                script: "0 alloc 2 24 normal\n0 store 2 0 1\n0 copy 1 2\n",
                replies: "ok\nok\nok\n",
            },
            Piece {
                times: 1,
                script: "0 alloc 2 24 normal\n",
                replies: "refused 6 Full\n",
            },
            Piece {
                times: 63,
                script: "0 load 2 1 0\n0 free 1\n0 free 1\n0 copy 1 2\n",
                replies: "ptr\nok\nrefused 3 NoObject\nok\n",
            },
            Piece {
                times: 1,
                script: "0 alloc 0 1536 normal\n0 size 0\n0 alloc 2 24 normal\n0 free 0\n0 set 1 268435456\n",
                replies: "ok\n1536\nrefused 6 Full\nok\nok\n",
            },
            Piece {
                times: 63,
                script: "0 alloc 2 24 atomic\n0 store 2 0 1\n0 copy 1 2\n",
                replies: "ok\nok\nok\n",
            },
            Piece {
                times: 1,
                script: "0 alloc 2 24 atomic\n",
                replies: "refused 6 Full\n",
            },
            Piece {
                times: 63,
                script: "0 load 2 1 0\n0 free 1\n0 free 1\n0 copy 1 2\n",
                replies: "ptr\nok\nrefused 3 NoObject\nok\n",
            },
            Piece {
                times: 1,
                script: "0 alloc 0 1536 atomic\n0 size 0\n0 alloc 2 24 atomic\n0 free 0\n",
                replies: "ok\n1536\nrefused 6 Full\nok\n",
            },
        ],
    },
    Row {
        name: "cells_of_32_words",
        pages: 3,
        pieces: &[
            Piece {
                times: 1,
                script: "attach\n0 set 1 268435456\n",
                replies: "mutator 0\nok\n",
            },
            Piece {
                times: 48,
                script: "0 alloc 2 32 normal\n0 store 2 0 1\n0 copy 1 2\n",
                replies: "ok\nok\nok\n",
            },
            Piece {
                times: 1,
                script: "0 alloc 2 32 normal\n",
                replies: "refused 6 Full\n",
            },
            Piece {
                times: 48,
                script: "0 load 2 1 0\n0 free 1\n0 free 1\n0 copy 1 2\n",
                replies: "ptr\nok\nrefused 3 NoObject\nok\n",
            },
            Piece {
                times: 1,
                script: "0 alloc 0 1536 normal\n0 size 0\n0 alloc 2 32 normal\n0 free 0\n0 set 1 268435456\n",
                replies: "ok\n1536\nrefused 6 Full\nok\nok\n",
            },
            Piece {
                times: 48,
                script: "0 alloc 2 32 atomic\n0 store 2 0 1\n0 copy 1 2\n",
                replies: "ok\nok\nok\n",
            },
            Piece {
                times: 1,
                script: "0 alloc 2 32 atomic\n",
                replies: "refused 6 Full\n",
            },
            Piece {
                times: 48,
                script: "0 load 2 1 0\n0 free 1\n0 free 1\n0 copy 1 2\n",
                replies: "ptr\nok\nrefused 3 NoObject\nok\n",
            },
            Piece {
                times: 1,
                script: "0 alloc 0 1536 atomic\n0 size 0\n0 alloc 2 32 atomic\n0 free 0\n",
                replies: "ok\n1536\nrefused 6 Full\nok\n",
            },
        ],
    },
    Row {
        name: "cells_of_48_words",
        pages: 3,
        pieces: &[
            Piece {
                times: 1,
                script: "attach\n0 set 1 268435456\n",
                replies: "mutator 0\nok\n",
            },
            Piece {
                times: 30,
                script: "0 alloc 2 48 normal\n0 store 2 0 1\n0 copy 1 2\n",
                replies: "ok\nok\nok\n",
            },
            Piece {
                times: 1,
                script: "0 alloc 2 48 normal\n",
                replies: "refused 6 Full\n",
            },
            Piece {
                times: 30,
                script: "0 load 2 1 0\n0 free 1\n0 free 1\n0 copy 1 2\n",
                replies: "ptr\nok\nrefused 3 NoObject\nok\n",
            },
            Piece {
                times: 1,
                script: "0 alloc 0 1536 normal\n0 size 0\n0 alloc 2 48 normal\n0 free 0\n0 set 1 268435456\n",
                replies: "ok\n1536\nrefused 6 Full\nok\nok\n",
            },
            Piece {
                times: 30,
                script: "0 alloc 2 48 atomic\n0 store 2 0 1\n0 copy 1 2\n",
                replies: "ok\nok\nok\n",
            },
            Piece {
                times: 1,
                script: "0 alloc 2 48 atomic\n",
                replies: "refused 6 Full\n",
            },
            Piece {
                times: 30,
                script: "0 load 2 1 0\n0 free 1\n0 free 1\n0 copy 1 2\n",
                replies: "ptr\nok\nrefused 3 NoObject\nok\n",
            },
            Piece {
                times: 1,
                script: "0 alloc 0 1536 atomic\n0 size 0\n0 alloc 2 48 atomic\n0 free 0\n",
                replies: "ok\n1536\nrefused 6 Full\nok\n",
            },
        ],
    },
];

#[test]
fn each_row_is_answered(rt: HostRuntime) -> Result<(), Fail> {
    let mut rows = Rows::new(rt.alloc())?;
    rows.are_answered(&rt, ROWS)
}
