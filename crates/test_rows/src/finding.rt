//! `tests/rows/finding.rows`, as `tests/rows/as_tests` writes it: a change belongs there.

use crate::row::{Piece, Row, Rows};
use std::test::Fail;

const ROWS: &[Row<'static>] = &[Row {
    name: "found_in_small_cells",
    pages: 3,
    pieces: &[
        Piece {
            times: 1,
            script: "attach\n0 alloc 5 6 normal\n0 alloc 6 6 normal\n",
            replies: "mutator 0\nok\nok\n",
        },
        Piece {
            times: 38,
            script: "0 alloc 2 6 normal\n0 push 2\n",
            replies: "ok\nok\n",
        },
        Piece {
            times: 1,
            script: "0 alloc 7 6 normal\n",
            replies: "ok\n",
        },
        Piece {
            times: 43,
            script: "0 alloc 2 6 normal\n0 push 2\n",
            replies: "ok\nok\n",
        },
        Piece {
            times: 1,
            script: "0 alloc 8 6 normal\n",
            replies: "ok\n",
        },
        Piece {
            times: 81,
            script: "0 pop 2\n0 free 2\n",
            replies: "ptr\nok\n",
        },
        Piece {
            times: 1,
            script: "0 alloc 9 2 atomic\n",
            replies: "ok\n",
        },
        Piece {
            times: 62,
            script: "0 alloc 2 2 atomic\n0 push 2\n",
            replies: "ok\nok\n",
        },
        Piece {
            times: 1,
            script: "0 alloc 10 2 atomic\n0 alloc 11 2 atomic\n",
            replies: "ok\nok\n",
        },
        Piece {
            times: 190,
            script: "0 alloc 2 2 atomic\n0 push 2\n",
            replies: "ok\nok\n",
        },
        Piece {
            times: 1,
            script: "0 alloc 12 2 atomic\n",
            replies: "ok\n",
        },
        Piece {
            times: 252,
            script: "0 pop 2\n0 free 2\n",
            replies: "ptr\nok\n",
        },
        Piece {
            times: 1,
            script: "0 alloc 2 256 normal\n0 alloc 13 256 normal\n0 free 2\n0 set 2 268435456\n0 sub 2 5 2\n0 get 2\n0 set 2 268435504\n\
                    0 sub 2 6 2\n0 get 2\n0 set 2 268437376\n0 sub 2 7 2\n0 get 2\n0 set 2 268439488\n0 sub 2 8 2\n0 get 2\n\
                    0 set 2 268439552\n0 sub 2 9 2\n0 get 2\n0 set 2 268440560\n0 sub 2 10 2\n0 get 2\n0 set 2 268440576\n0 sub 2 11 2\n\
                    0 get 2\n0 set 2 268443632\n0 sub 2 12 2\n0 get 2\n0 set 2 268445696\n0 sub 2 13 2\n0 get 2\n\
                    0 add 4 5 18446744073709551608\n",
            replies: "ok\nok\nok\nok\nok\n0\nok\nok\n0\nok\nok\n0\nok\nok\n0\nok\nok\n0\nok\nok\n0\nok\nok\n0\nok\nok\n0\nok\nok\n0\nok\n",
        },
        Piece {
            times: 8,
            script: "0 add 2 4 #\n0 base 3 2\n0 size 2\n",
            replies: "ok\nrefused 3 NoObject\nrefused 3 NoObject\n",
        },
        Piece {
            times: 1,
            script: "0 add 4 5 0\n",
            replies: "ok\n",
        },
        Piece {
            times: 8,
            script: "0 add 2 4 #\n0 base 3 2\n0 sub 3 3 5\n0 get 3\n",
            replies: "ok\nptr\nok\n0\n",
        },
        Piece {
            times: 1,
            script: "0 add 4 5 40\n",
            replies: "ok\n",
        },
        Piece {
            times: 8,
            script: "0 add 2 4 #\n0 base 3 2\n0 sub 3 3 5\n0 get 3\n",
            replies: "ok\nptr\nok\n0\n",
        },
        Piece {
            times: 1,
            script: "0 add 4 6 0\n",
            replies: "ok\n",
        },
        Piece {
            times: 8,
            script: "0 add 2 4 #\n0 base 3 2\n0 sub 3 3 6\n0 get 3\n",
            replies: "ok\nptr\nok\n0\n",
        },
        Piece {
            times: 1,
            script: "0 add 4 6 40\n",
            replies: "ok\n",
        },
        Piece {
            times: 8,
            script: "0 add 2 4 #\n0 base 3 2\n0 sub 3 3 6\n0 get 3\n",
            replies: "ok\nptr\nok\n0\n",
        },
        Piece {
            times: 1,
            script: "0 add 4 6 48\n",
            replies: "ok\n",
        },
        Piece {
            times: 8,
            script: "0 add 2 4 #\n0 base 3 2\n0 size 2\n",
            replies: "ok\nrefused 3 NoObject\nrefused 3 NoObject\n",
        },
        Piece {
            times: 1,
            script: "0 add 4 7 18446744073709551608\n",
            replies: "ok\n",
        },
        Piece {
            times: 8,
            script: "0 add 2 4 #\n0 base 3 2\n0 size 2\n",
            replies: "ok\nrefused 3 NoObject\nrefused 3 NoObject\n",
        },
        Piece {
            times: 1,
            script: "0 add 4 7 0\n",
            replies: "ok\n",
        },
        Piece {
            times: 8,
            script: "0 add 2 4 #\n0 base 3 2\n0 sub 3 3 7\n0 get 3\n",
            replies: "ok\nptr\nok\n0\n",
        },
        Piece {
            times: 1,
            script: "0 add 4 7 40\n",
            replies: "ok\n",
        },
        Piece {
            times: 8,
            script: "0 add 2 4 #\n0 base 3 2\n0 sub 3 3 7\n0 get 3\n",
            replies: "ok\nptr\nok\n0\n",
        },
        Piece {
            times: 1,
            script: "0 add 4 7 48\n",
            replies: "ok\n",
        },
        Piece {
            times: 8,
            script: "0 add 2 4 #\n0 base 3 2\n0 size 2\n",
            replies: "ok\nrefused 3 NoObject\nrefused 3 NoObject\n",
        },
        Piece {
            times: 1,
            script: "0 add 4 8 18446744073709551608\n",
            replies: "ok\n",
        },
        Piece {
            times: 8,
            script: "0 add 2 4 #\n0 base 3 2\n0 size 2\n",
            replies: "ok\nrefused 3 NoObject\nrefused 3 NoObject\n",
        },
        Piece {
            times: 1,
            script: "0 add 4 8 0\n",
            replies: "ok\n",
        },
        Piece {
            times: 8,
            script: "0 add 2 4 #\n0 base 3 2\n0 sub 3 3 8\n0 get 3\n",
            replies: "ok\nptr\nok\n0\n",
        },
        Piece {
            times: 1,
            script: "0 add 4 8 40\n",
            replies: "ok\n",
        },
        Piece {
            times: 8,
            script: "0 add 2 4 #\n0 base 3 2\n0 sub 3 3 8\n0 get 3\n",
            replies: "ok\nptr\nok\n0\n",
        },
        Piece {
            times: 1,
            script: "0 add 4 8 48\n",
            replies: "ok\n",
        },
        Piece {
            times: 8,
            script: "0 add 2 4 #\n0 base 3 2\n0 size 2\n",
            replies: "ok\nrefused 3 NoObject\nrefused 3 NoObject\n",
        },
        Piece {
            times: 1,
            script: "0 add 4 8 56\n",
            replies: "ok\n",
        },
        Piece {
            times: 8,
            script: "0 add 2 4 #\n0 base 3 2\n0 size 2\n",
            replies: "ok\nrefused 3 NoObject\nrefused 3 NoObject\n",
        },
        Piece {
            times: 1,
            script: "0 add 4 9 18446744073709551608\n",
            replies: "ok\n",
        },
        Piece {
            times: 8,
            script: "0 add 2 4 #\n0 base 3 2\n0 size 2\n",
            replies: "ok\nrefused 3 NoObject\nrefused 3 NoObject\n",
        },
        Piece {
            times: 1,
            script: "0 add 4 9 0\n",
            replies: "ok\n",
        },
        Piece {
            times: 8,
            script: "0 add 2 4 #\n0 base 3 2\n0 sub 3 3 9\n0 get 3\n",
            replies: "ok\nptr\nok\n0\n",
        },
        Piece {
            times: 1,
            script: "0 add 4 9 8\n",
            replies: "ok\n",
        },
        Piece {
            times: 8,
            script: "0 add 2 4 #\n0 base 3 2\n0 sub 3 3 9\n0 get 3\n",
            replies: "ok\nptr\nok\n0\n",
        },
        Piece {
            times: 1,
            script: "0 add 4 9 16\n",
            replies: "ok\n",
        },
        Piece {
            times: 8,
            script: "0 add 2 4 #\n0 base 3 2\n0 size 2\n",
            replies: "ok\nrefused 3 NoObject\nrefused 3 NoObject\n",
        },
        Piece {
            times: 1,
            script: "0 add 4 10 18446744073709551608\n",
            replies: "ok\n",
        },
        Piece {
            times: 8,
            script: "0 add 2 4 #\n0 base 3 2\n0 size 2\n",
            replies: "ok\nrefused 3 NoObject\nrefused 3 NoObject\n",
        },
        Piece {
            times: 1,
            script: "0 add 4 10 0\n",
            replies: "ok\n",
        },
        Piece {
            times: 8,
            script: "0 add 2 4 #\n0 base 3 2\n0 sub 3 3 10\n0 get 3\n",
            replies: "ok\nptr\nok\n0\n",
        },
        Piece {
            times: 1,
            script: "0 add 4 10 8\n",
            replies: "ok\n",
        },
        Piece {
            times: 8,
            script: "0 add 2 4 #\n0 base 3 2\n0 sub 3 3 10\n0 get 3\n",
            replies: "ok\nptr\nok\n0\n",
        },
        Piece {
            times: 1,
            script: "0 add 4 11 0\n",
            replies: "ok\n",
        },
        Piece {
            times: 8,
            script: "0 add 2 4 #\n0 base 3 2\n0 sub 3 3 11\n0 get 3\n",
            replies: "ok\nptr\nok\n0\n",
        },
        Piece {
            times: 1,
            script: "0 add 4 11 8\n",
            replies: "ok\n",
        },
        Piece {
            times: 8,
            script: "0 add 2 4 #\n0 base 3 2\n0 sub 3 3 11\n0 get 3\n",
            replies: "ok\nptr\nok\n0\n",
        },
        Piece {
            times: 1,
            script: "0 add 4 11 16\n",
            replies: "ok\n",
        },
        Piece {
            times: 8,
            script: "0 add 2 4 #\n0 base 3 2\n0 size 2\n",
            replies: "ok\nrefused 3 NoObject\nrefused 3 NoObject\n",
        },
        Piece {
            times: 1,
            script: "0 add 4 12 18446744073709551608\n",
            replies: "ok\n",
        },
        Piece {
            times: 8,
            script: "0 add 2 4 #\n0 base 3 2\n0 size 2\n",
            replies: "ok\nrefused 3 NoObject\nrefused 3 NoObject\n",
        },
        Piece {
            times: 1,
            script: "0 add 4 12 0\n",
            replies: "ok\n",
        },
        Piece {
            times: 8,
            script: "0 add 2 4 #\n0 base 3 2\n0 sub 3 3 12\n0 get 3\n",
            replies: "ok\nptr\nok\n0\n",
        },
        Piece {
            times: 1,
            script: "0 add 4 12 8\n",
            replies: "ok\n",
        },
        Piece {
            times: 8,
            script: "0 add 2 4 #\n0 base 3 2\n0 sub 3 3 12\n0 get 3\n",
            replies: "ok\nptr\nok\n0\n",
        },
        Piece {
            times: 1,
            script: "0 add 4 12 16\n",
            replies: "ok\n",
        },
        Piece {
            times: 8,
            script: "0 add 2 4 #\n0 base 3 2\n0 size 2\n",
            replies: "ok\nrefused 3 NoObject\nrefused 3 NoObject\n",
        },
        Piece {
            times: 1,
            script: "0 add 4 13 18446744073709551608\n",
            replies: "ok\n",
        },
        Piece {
            times: 8,
            script: "0 add 2 4 #\n0 base 3 2\n0 size 2\n",
            replies: "ok\nrefused 3 NoObject\nrefused 3 NoObject\n",
        },
        Piece {
            times: 1,
            script: "0 add 4 13 0\n",
            replies: "ok\n",
        },
        Piece {
            times: 8,
            script: "0 add 2 4 #\n0 base 3 2\n0 sub 3 3 13\n0 get 3\n",
            replies: "ok\nptr\nok\n0\n",
        },
        Piece {
            times: 1,
            script: "0 add 4 13 2040\n",
            replies: "ok\n",
        },
        Piece {
            times: 8,
            script: "0 add 2 4 #\n0 base 3 2\n0 sub 3 3 13\n0 get 3\n",
            replies: "ok\nptr\nok\n0\n",
        },
        Piece {
            times: 1,
            script: "0 add 4 13 2048\n",
            replies: "ok\n",
        },
        Piece {
            times: 8,
            script: "0 add 2 4 #\n0 base 3 2\n0 size 2\n",
            replies: "ok\nrefused 3 NoObject\nrefused 3 NoObject\n",
        },
        Piece {
            times: 1,
            script: "0 set 2 0\n0 base 3 2\n0 size 2\n0 load 3 2 0\n0 set 2 134217728\n0 base 3 2\n0 size 2\n0 load 3 2 0\n\
                    0 set 2 536870912\n0 base 3 2\n0 size 2\n0 load 3 2 0\n0 set 2 9223372036854775808\n0 base 3 2\n0 size 2\n0 load 3 2 0\n\
                    0 set 2 18446744073709551608\n0 base 3 2\n0 size 2\n0 load 3 2 0\n",
            replies: "ok\nrefused 3 NoObject\nrefused 3 NoObject\nrefused 3 NoObject\nok\nrefused 3 NoObject\nrefused 3 NoObject\n\
                    refused 3 NoObject\nok\nrefused 3 NoObject\nrefused 3 NoObject\nrefused 3 NoObject\nok\nrefused 3 NoObject\n\
                    refused 3 NoObject\nrefused 3 NoObject\nok\nrefused 3 NoObject\nrefused 3 NoObject\nrefused 3 NoObject\n",
        },
    ],
}];

#[test]
fn each_row_is_answered(rt: HostRuntime) -> Result<(), Fail> {
    let mut rows = Rows::new(rt.alloc())?;
    rows.are_answered(&rt, ROWS)
}
