//! `tests/rows/finding.rows`, as `tests/rows/as_tests` writes it: a change belongs there.

use crate::row::{Piece, Row, Rows};
use std::test::Fail;

const ROWS: &[Row<'static>] = &[Row {
    name: "found_in_a_full_heap",
    pages: 4,
    pieces: &[
        Piece {
            times: 1,
            script: "attach\n0 alloc 5 256 normal\n0 alloc 6 256 normal\n0 alloc 7 2 normal\n0 alloc 8 2 normal\n",
            replies: "mutator 0\nok\nok\nok\nok\n",
        },
        Piece {
            times: 253,
            script: "0 alloc 2 2 normal\n0 push 2\n",
            replies: "ok\nok\n",
        },
        Piece {
            times: 1,
            script: "0 alloc 9 2 normal\n0 alloc 10 1024 normal\n0 alloc 2 2 normal\n0 set 2 268435456\n0 sub 2 5 2\n0 get 2\n\
                    0 set 2 268437504\n0 sub 2 6 2\n0 get 2\n0 set 2 268439552\n0 sub 2 7 2\n0 get 2\n0 set 2 268439568\n0 sub 2 8 2\n\
                    0 get 2\n0 set 2 268443632\n0 sub 2 9 2\n0 get 2\n0 set 2 268443648\n0 sub 2 10 2\n0 get 2\n\
                    0 add 4 5 18446744073709551608\n",
            replies: "ok\nok\nrefused 6 Full\nok\nok\n0\nok\nok\n0\nok\nok\n0\nok\nok\n0\nok\nok\n0\nok\nok\n0\nok\n",
        },
        Piece {
            times: 8,
            script: "0 add 2 4 #\n0 base 3 2\n0 size 2\n",
            replies: "ok\nrefused 3 NoObject\nrefused 3 NoObject\n",
        },
        Piece {
            times: 1,
            script: "0 add 4 5 0\n",
            replies: "ok\n",
        },
        Piece {
            times: 8,
            script: "0 add 2 4 #\n0 base 3 2\n0 sub 3 3 5\n0 get 3\n",
            replies: "ok\nptr\nok\n0\n",
        },
        Piece {
            times: 1,
            script: "0 add 4 5 2040\n",
            replies: "ok\n",
        },
        Piece {
            times: 8,
            script: "0 add 2 4 #\n0 base 3 2\n0 sub 3 3 5\n0 get 3\n",
            replies: "ok\nptr\nok\n0\n",
        },
        Piece {
            times: 1,
            script: "0 add 4 6 0\n",
            replies: "ok\n",
        },
        Piece {
            times: 8,
            script: "0 add 2 4 #\n0 base 3 2\n0 sub 3 3 6\n0 get 3\n",
            replies: "ok\nptr\nok\n0\n",
        },
        Piece {
            times: 1,
            script: "0 add 4 6 2040\n",
            replies: "ok\n",
        },
        Piece {
            times: 8,
            script: "0 add 2 4 #\n0 base 3 2\n0 sub 3 3 6\n0 get 3\n",
            replies: "ok\nptr\nok\n0\n",
        },
        Piece {
            times: 1,
            script: "0 add 4 7 0\n",
            replies: "ok\n",
        },
        Piece {
            times: 8,
            script: "0 add 2 4 #\n0 base 3 2\n0 sub 3 3 7\n0 get 3\n",
            replies: "ok\nptr\nok\n0\n",
        },
        Piece {
            times: 1,
            script: "0 add 4 7 8\n",
            replies: "ok\n",
        },
        Piece {
            times: 8,
            script: "0 add 2 4 #\n0 base 3 2\n0 sub 3 3 7\n0 get 3\n",
            replies: "ok\nptr\nok\n0\n",
        },
        Piece {
            times: 1,
            script: "0 add 4 8 0\n",
            replies: "ok\n",
        },
        Piece {
            times: 8,
            script: "0 add 2 4 #\n0 base 3 2\n0 sub 3 3 8\n0 get 3\n",
            replies: "ok\nptr\nok\n0\n",
        },
        Piece {
            times: 1,
            script: "0 add 4 8 8\n",
            replies: "ok\n",
        },
        Piece {
            times: 8,
            script: "0 add 2 4 #\n0 base 3 2\n0 sub 3 3 8\n0 get 3\n",
            replies: "ok\nptr\nok\n0\n",
        },
        Piece {
            times: 1,
            script: "0 add 4 9 0\n",
            replies: "ok\n",
        },
        Piece {
            times: 8,
            script: "0 add 2 4 #\n0 base 3 2\n0 sub 3 3 9\n0 get 3\n",
            replies: "ok\nptr\nok\n0\n",
        },
        Piece {
            times: 1,
            script: "0 add 4 9 8\n",
            replies: "ok\n",
        },
        Piece {
            times: 8,
            script: "0 add 2 4 #\n0 base 3 2\n0 sub 3 3 9\n0 get 3\n",
            replies: "ok\nptr\nok\n0\n",
        },
        Piece {
            times: 1,
            script: "0 add 4 10 0\n",
            replies: "ok\n",
        },
        Piece {
            times: 8,
            script: "0 add 2 4 #\n0 base 3 2\n0 sub 3 3 10\n0 get 3\n",
            replies: "ok\nptr\nok\n0\n",
        },
        Piece {
            times: 1,
            script: "0 add 4 10 4088\n",
            replies: "ok\n",
        },
        Piece {
            times: 8,
            script: "0 add 2 4 #\n0 base 3 2\n0 sub 3 3 10\n0 get 3\n",
            replies: "ok\nptr\nok\n0\n",
        },
        Piece {
            times: 1,
            script: "0 add 4 10 4096\n",
            replies: "ok\n",
        },
        Piece {
            times: 8,
            script: "0 add 2 4 #\n0 base 3 2\n0 sub 3 3 10\n0 get 3\n",
            replies: "ok\nptr\nok\n0\n",
        },
        Piece {
            times: 1,
            script: "0 add 4 10 8184\n",
            replies: "ok\n",
        },
        Piece {
            times: 8,
            script: "0 add 2 4 #\n0 base 3 2\n0 sub 3 3 10\n0 get 3\n",
            replies: "ok\nptr\nok\n0\n",
        },
        Piece {
            times: 1,
            script: "0 add 4 10 8192\n",
            replies: "ok\n",
        },
        Piece {
            times: 8,
            script: "0 add 2 4 #\n0 base 3 2\n0 size 2\n",
            replies: "ok\nrefused 3 NoObject\nrefused 3 NoObject\n",
        },
        Piece {
            times: 1,
            script: "0 set 2 0\n0 base 3 2\n0 size 2\n0 load 3 2 0\n0 set 2 134217728\n0 base 3 2\n0 size 2\n0 load 3 2 0\n\
                    0 set 2 536870912\n0 base 3 2\n0 size 2\n0 load 3 2 0\n0 set 2 9223372036854775808\n0 base 3 2\n0 size 2\n0 load 3 2 0\n\
                    0 set 2 18446744073709551608\n0 base 3 2\n0 size 2\n0 load 3 2 0\n",
            replies: "ok\nrefused 3 NoObject\nrefused 3 NoObject\nrefused 3 NoObject\nok\nrefused 3 NoObject\nrefused 3 NoObject\n\
                    refused 3 NoObject\nok\nrefused 3 NoObject\nrefused 3 NoObject\nrefused 3 NoObject\nok\nrefused 3 NoObject\n\
                    refused 3 NoObject\nrefused 3 NoObject\nok\nrefused 3 NoObject\nrefused 3 NoObject\nrefused 3 NoObject\n",
        },
    ],
}];

#[test]
fn each_row_is_answered(rt: HostRuntime) -> Result<(), Fail> {
    let mut rows = Rows::new(rt.alloc())?;
    rows.are_answered(&rt, ROWS)
}
