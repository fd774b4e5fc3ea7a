//! `tests/rows/finding.rows`, as `tests/rows/as_tests` writes it: a change belongs there.

use crate::row::{Piece, Row, Rows};
use std::test::Fail;

const ROWS: &[Row<'static>] = &[Row {
    name: "found_on_large_pages",
    pages: 40,
    pieces: &[
        Piece {
            times: 1,
            script: "attach\n0 alloc 5 512 atomic\n0 alloc 14 512 normal\n0 alloc 6 48 normal\n0 alloc 2 48 normal\n0 push 2\n\
                    0 alloc 2 48 normal\n0 push 2\n0 alloc 2 48 normal\n0 push 2\n0 alloc 7 48 normal\n0 alloc 2 48 normal\n0 push 2\n\
                    0 alloc 2 48 normal\n0 push 2\n0 alloc 2 48 normal\n0 push 2\n0 alloc 2 48 normal\n0 push 2\n0 alloc 8 48 normal\n\
                    0 alloc 9 16384 normal\n0 alloc 15 2048 atomic\n0 alloc 10 96 atomic\n0 alloc 2 96 atomic\n0 push 2\n\
                    0 alloc 2 96 atomic\n0 push 2\n0 alloc 2 96 atomic\n0 push 2\n0 alloc 11 96 atomic\n",
            replies: "mutator 0\nok\nok\nok\nok\nok\nok\nok\nok\nok\nok\nok\nok\nok\nok\nok\nok\nok\nok\nok\nok\nok\nok\nok\nok\nok\nok\nok\n\
                    ok\nok\n",
        },
        Piece {
            times: 10,
            script: "0 pop 2\n0 free 2\n",
            replies: "ptr\nok\n",
        },
        Piece {
            times: 1,
            script: "0 free 14\n0 free 15\n0 set 2 268435456\n0 sub 2 5 2\n0 get 2\n0 set 2 268443648\n0 sub 2 6 2\n0 get 2\n\
                    0 set 2 268445184\n0 sub 2 7 2\n0 get 2\n0 set 2 268447104\n0 sub 2 8 2\n0 get 2\n0 set 2 268447744\n0 sub 2 9 2\n\
                    0 get 2\n0 set 2 268595200\n0 sub 2 10 2\n0 get 2\n0 set 2 268598272\n0 sub 2 11 2\n0 get 2\n\
                    0 add 4 5 18446744073709551608\n",
            replies: "ok\nok\nok\nok\n0\nok\nok\n0\nok\nok\n0\nok\nok\n0\nok\nok\n0\nok\nok\n0\nok\nok\n0\nok\n",
        },
        Piece {
            times: 8,
            script: "0 add 2 4 #\n0 base 3 2\n0 size 2\n",
            replies: "ok\nrefused 3 NoObject\nrefused 3 NoObject\n",
        },
        Piece {
            times: 1,
            script: "0 add 4 5 0\n",
            replies: "ok\n",
        },
        Piece {
            times: 8,
            script: "0 add 2 4 #\n0 base 3 2\n0 sub 3 3 5\n0 get 3\n",
            replies: "ok\nptr\nok\n0\n",
        },
        Piece {
            times: 1,
            script: "0 add 4 5 4088\n",
            replies: "ok\n",
        },
        Piece {
            times: 8,
            script: "0 add 2 4 #\n0 base 3 2\n0 sub 3 3 5\n0 get 3\n",
            replies: "ok\nptr\nok\n0\n",
        },
        Piece {
            times: 1,
            script: "0 add 4 5 4096\n",
            replies: "ok\n",
        },
        Piece {
            times: 8,
            script: "0 add 2 4 #\n0 base 3 2\n0 size 2\n",
            replies: "ok\nrefused 3 NoObject\nrefused 3 NoObject\n",
        },
        Piece {
            times: 1,
            script: "0 add 4 6 18446744073709551608\n",
            replies: "ok\n",
        },
        Piece {
            times: 8,
            script: "0 add 2 4 #\n0 base 3 2\n0 size 2\n",
            replies: "ok\nrefused 3 NoObject\nrefused 3 NoObject\n",
        },
        Piece {
            times: 1,
            script: "0 add 4 6 0\n",
            replies: "ok\n",
        },
        Piece {
            times: 8,
            script: "0 add 2 4 #\n0 base 3 2\n0 sub 3 3 6\n0 get 3\n",
            replies: "ok\nptr\nok\n0\n",
        },
        Piece {
            times: 1,
            script: "0 add 4 6 376\n",
            replies: "ok\n",
        },
        Piece {
            times: 8,
            script: "0 add 2 4 #\n0 base 3 2\n0 sub 3 3 6\n0 get 3\n",
            replies: "ok\nptr\nok\n0\n",
        },
        Piece {
            times: 1,
            script: "0 add 4 6 384\n",
            replies: "ok\n",
        },
        Piece {
            times: 8,
            script: "0 add 2 4 #\n0 base 3 2\n0 size 2\n",
            replies: "ok\nrefused 3 NoObject\nrefused 3 NoObject\n",
        },
        Piece {
            times: 1,
            script: "0 add 4 7 18446744073709551608\n",
            replies: "ok\n",
        },
        Piece {
            times: 8,
            script: "0 add 2 4 #\n0 base 3 2\n0 size 2\n",
            replies: "ok\nrefused 3 NoObject\nrefused 3 NoObject\n",
        },
        Piece {
            times: 1,
            script: "0 add 4 7 0\n",
            replies: "ok\n",
        },
        Piece {
            times: 8,
            script: "0 add 2 4 #\n0 base 3 2\n0 sub 3 3 7\n0 get 3\n",
            replies: "ok\nptr\nok\n0\n",
        },
        Piece {
            times: 1,
            script: "0 add 4 7 376\n",
            replies: "ok\n",
        },
        Piece {
            times: 8,
            script: "0 add 2 4 #\n0 base 3 2\n0 sub 3 3 7\n0 get 3\n",
            replies: "ok\nptr\nok\n0\n",
        },
        Piece {
            times: 1,
            script: "0 add 4 7 384\n",
            replies: "ok\n",
        },
        Piece {
            times: 8,
            script: "0 add 2 4 #\n0 base 3 2\n0 size 2\n",
            replies: "ok\nrefused 3 NoObject\nrefused 3 NoObject\n",
        },
        Piece {
            times: 1,
            script: "0 add 4 8 18446744073709551608\n",
            replies: "ok\n",
        },
        Piece {
            times: 8,
            script: "0 add 2 4 #\n0 base 3 2\n0 size 2\n",
            replies: "ok\nrefused 3 NoObject\nrefused 3 NoObject\n",
        },
        Piece {
            times: 1,
            script: "0 add 4 8 0\n",
            replies: "ok\n",
        },
        Piece {
            times: 8,
            script: "0 add 2 4 #\n0 base 3 2\n0 sub 3 3 8\n0 get 3\n",
            replies: "ok\nptr\nok\n0\n",
        },
        Piece {
            times: 1,
            script: "0 add 4 8 376\n",
            replies: "ok\n",
        },
        Piece {
            times: 8,
            script: "0 add 2 4 #\n0 base 3 2\n0 sub 3 3 8\n0 get 3\n",
            replies: "ok\nptr\nok\n0\n",
        },
        Piece {
            times: 1,
            script: "0 add 4 8 384\n",
            replies: "ok\n",
        },
        Piece {
            times: 8,
            script: "0 add 2 4 #\n0 base 3 2\n0 size 2\n",
            replies: "ok\nrefused 3 NoObject\nrefused 3 NoObject\n",
        },
        Piece {
            times: 1,
            script: "0 add 4 9 18446744073709551608\n",
            replies: "ok\n",
        },
        Piece {
            times: 8,
            script: "0 add 2 4 #\n0 base 3 2\n0 size 2\n",
            replies: "ok\nrefused 3 NoObject\nrefused 3 NoObject\n",
        },
        Piece {
            times: 1,
            script: "0 add 4 9 0\n",
            replies: "ok\n",
        },
        Piece {
            times: 8,
            script: "0 add 2 4 #\n0 base 3 2\n0 sub 3 3 9\n0 get 3\n",
            replies: "ok\nptr\nok\n0\n",
        },
        Piece {
            times: 1,
            script: "0 add 4 9 131064\n",
            replies: "ok\n",
        },
        Piece {
            times: 8,
            script: "0 add 2 4 #\n0 base 3 2\n0 sub 3 3 9\n0 get 3\n",
            replies: "ok\nptr\nok\n0\n",
        },
        Piece {
            times: 1,
            script: "0 add 4 9 131072\n",
            replies: "ok\n",
        },
        Piece {
            times: 8,
            script: "0 add 2 4 #\n0 base 3 2\n0 size 2\n",
            replies: "ok\nrefused 3 NoObject\nrefused 3 NoObject\n",
        },
        Piece {
            times: 1,
            script: "0 add 4 9 4088\n",
            replies: "ok\n",
        },
        Piece {
            times: 8,
            script: "0 add 2 4 #\n0 base 3 2\n0 sub 3 3 9\n0 get 3\n",
            replies: "ok\nptr\nok\n0\n",
        },
        Piece {
            times: 1,
            script: "0 add 4 9 4096\n",
            replies: "ok\n",
        },
        Piece {
            times: 8,
            script: "0 add 2 4 #\n0 base 3 2\n0 sub 3 3 9\n0 get 3\n",
            replies: "ok\nptr\nok\n0\n",
        },
        Piece {
            times: 1,
            script: "0 add 4 9 126976\n",
            replies: "ok\n",
        },
        Piece {
            times: 8,
            script: "0 add 2 4 #\n0 base 3 2\n0 sub 3 3 9\n0 get 3\n",
            replies: "ok\nptr\nok\n0\n",
        },
        Piece {
            times: 1,
            script: "0 add 4 10 18446744073709551608\n",
            replies: "ok\n",
        },
        Piece {
            times: 8,
            script: "0 add 2 4 #\n0 base 3 2\n0 size 2\n",
            replies: "ok\nrefused 3 NoObject\nrefused 3 NoObject\n",
        },
        Piece {
            times: 1,
            script: "0 add 4 10 0\n",
            replies: "ok\n",
        },
        Piece {
            times: 8,
            script: "0 add 2 4 #\n0 base 3 2\n0 sub 3 3 10\n0 get 3\n",
            replies: "ok\nptr\nok\n0\n",
        },
        Piece {
            times: 1,
            script: "0 add 4 10 760\n",
            replies: "ok\n",
        },
        Piece {
            times: 8,
            script: "0 add 2 4 #\n0 base 3 2\n0 sub 3 3 10\n0 get 3\n",
            replies: "ok\nptr\nok\n0\n",
        },
        Piece {
            times: 1,
            script: "0 add 4 10 768\n",
            replies: "ok\n",
        },
        Piece {
            times: 8,
            script: "0 add 2 4 #\n0 base 3 2\n0 size 2\n",
            replies: "ok\nrefused 3 NoObject\nrefused 3 NoObject\n",
        },
        Piece {
            times: 1,
            script: "0 add 4 11 18446744073709551608\n",
            replies: "ok\n",
        },
        Piece {
            times: 8,
            script: "0 add 2 4 #\n0 base 3 2\n0 size 2\n",
            replies: "ok\nrefused 3 NoObject\nrefused 3 NoObject\n",
        },
        Piece {
            times: 1,
            script: "0 add 4 11 0\n",
            replies: "ok\n",
        },
        Piece {
            times: 8,
            script: "0 add 2 4 #\n0 base 3 2\n0 sub 3 3 11\n0 get 3\n",
            replies: "ok\nptr\nok\n0\n",
        },
        Piece {
            times: 1,
            script: "0 add 4 11 760\n",
            replies: "ok\n",
        },
        Piece {
            times: 8,
            script: "0 add 2 4 #\n0 base 3 2\n0 sub 3 3 11\n0 get 3\n",
            replies: "ok\nptr\nok\n0\n",
        },
        Piece {
            times: 1,
            script: "0 add 4 11 768\n",
            replies: "ok\n",
        },
        Piece {
            times: 8,
            script: "0 add 2 4 #\n0 base 3 2\n0 size 2\n",
            replies: "ok\nrefused 3 NoObject\nrefused 3 NoObject\n",
        },
        Piece {
            times: 1,
            script: "0 add 4 14 0\n",
            replies: "ok\n",
        },
        Piece {
            times: 8,
            script: "0 add 2 4 #\n0 base 3 2\n0 size 2\n",
            replies: "ok\nrefused 3 NoObject\nrefused 3 NoObject\n",
        },
        Piece {
            times: 1,
            script: "0 add 4 15 16376\n",
            replies: "ok\n",
        },
        Piece {
            times: 8,
            script: "0 add 2 4 #\n0 base 3 2\n0 size 2\n",
            replies: "ok\nrefused 3 NoObject\nrefused 3 NoObject\n",
        },
        Piece {
            times: 1,
            script: "0 set 2 0\n0 base 3 2\n0 size 2\n0 load 3 2 0\n0 set 2 134217728\n0 base 3 2\n0 size 2\n0 load 3 2 0\n\
                    0 set 2 536870912\n0 base 3 2\n0 size 2\n0 load 3 2 0\n0 set 2 9223372036854775808\n0 base 3 2\n0 size 2\n0 load 3 2 0\n\
                    0 set 2 18446744073709551608\n0 base 3 2\n0 size 2\n0 load 3 2 0\n0 free 9\n0 add 4 9 0\n",
            replies: "ok\nrefused 3 NoObject\nrefused 3 NoObject\nrefused 3 NoObject\nok\nrefused 3 NoObject\nrefused 3 NoObject\n\
                    refused 3 NoObject\nok\nrefused 3 NoObject\nrefused 3 NoObject\nrefused 3 NoObject\nok\nrefused 3 NoObject\n\
                    refused 3 NoObject\nrefused 3 NoObject\nok\nrefused 3 NoObject\nrefused 3 NoObject\nrefused 3 NoObject\nok\nok\n",
        },
        Piece {
            times: 8,
            script: "0 add 2 4 #\n0 base 3 2\n0 size 2\n",
            replies: "ok\nrefused 3 NoObject\nrefused 3 NoObject\n",
        },
        Piece {
            times: 1,
            script: "0 add 4 9 4096\n",
            replies: "ok\n",
        },
        Piece {
            times: 8,
            script: "0 add 2 4 #\n0 base 3 2\n0 size 2\n",
            replies: "ok\nrefused 3 NoObject\nrefused 3 NoObject\n",
        },
        Piece {
            times: 1,
            script: "0 add 4 9 131064\n",
            replies: "ok\n",
        },
        Piece {
            times: 8,
            script: "0 add 2 4 #\n0 base 3 2\n0 size 2\n",
            replies: "ok\nrefused 3 NoObject\nrefused 3 NoObject\n",
        },
        Piece {
            times: 1,
            script: "0 add 4 8 376\n",
            replies: "ok\n",
        },
        Piece {
            times: 8,
            script: "0 add 2 4 #\n0 base 3 2\n0 sub 3 3 8\n0 get 3\n",
            replies: "ok\nptr\nok\n0\n",
        },
        Piece {
            times: 1,
            script: "0 free 8\n0 add 4 8 0\n",
            replies: "ok\nok\n",
        },
        Piece {
            times: 8,
            script: "0 add 2 4 #\n0 base 3 2\n0 size 2\n",
            replies: "ok\nrefused 3 NoObject\nrefused 3 NoObject\n",
        },
        Piece {
            times: 1,
            script: "0 add 4 7 0\n",
            replies: "ok\n",
        },
        Piece {
            times: 8,
            script: "0 add 2 4 #\n0 base 3 2\n0 sub 3 3 7\n0 get 3\n",
            replies: "ok\nptr\nok\n0\n",
        },
    ],
}];

#[test]
fn each_row_is_answered(rt: HostRuntime) -> Result<(), Fail> {
    let mut rows = Rows::new(rt.alloc())?;
    rows.are_answered(&rt, ROWS)
}
