//! `tests/rows/marking.rows`, as `tests/rows/as_tests` writes it: a change belongs there.

use crate::row::{Piece, Row, Rows};
use std::test::Fail;

const ROWS: &[Row<'static>] = &[
    Row {
        name: "pointer_moves_to_the_first_root",
        pages: 3,
        pieces: &[
            Piece {
                times: 1,
                script: "attach\n0 alloc 2 4 normal\n0 alloc 1 4 normal\n0 alloc 3 6 normal\n0 alloc 4 6 normal\n0 alloc 5 6 normal\n\
                    0 store 2 2 3\n0 store 3 3 4\n0 set 3 0\n0 set 4 0\n0 set 5 0\ngc begin\ngc roots\n0 load 3 2 2\n0 add 3 3 24\n\
                    0 store 1 1 3\n0 set 3 0\n0 store 2 2 3\ngc finish\n0 load 3 1 1\n0 base 3 3\n0 load 4 3 3\n0 size 4\n0 set 2 0\n\
                    0 set 1 0\n0 set 3 0\n0 set 4 0\ngc collect\n0 alloc 2 4 normal\n0 alloc 1 4 normal\n0 alloc 3 6 normal\n\
                    0 alloc 4 6 normal\n0 alloc 5 6 normal\n0 store 2 2 3\n0 store 3 3 4\n0 set 3 0\n0 set 4 0\n0 set 5 0\ngc begin\n\
                    gc roots\ngc mark 1\n0 load 3 2 2\n0 add 3 3 24\n0 store 1 1 3\n0 set 3 0\n0 store 2 2 3\ngc finish\n0 load 3 1 1\n\
                    0 base 3 3\n0 load 4 3 3\n0 size 4\n0 set 2 0\n0 set 1 0\n0 set 3 0\n0 set 4 0\ngc collect\n0 alloc 2 4 normal\n\
                    0 alloc 1 4 normal\n0 alloc 3 6 normal\n0 alloc 4 6 normal\n0 alloc 5 6 normal\n0 store 2 2 3\n0 store 3 3 4\n\
                    0 set 3 0\n0 set 4 0\n0 set 5 0\ngc begin\ngc roots\ngc mark 1\ngc mark 1\n0 load 3 2 2\n0 add 3 3 24\n0 store 1 1 3\n\
                    0 set 3 0\n0 store 2 2 3\ngc finish\n0 load 3 1 1\n0 base 3 3\n0 load 4 3 3\n0 size 4\n0 set 2 0\n0 set 1 0\n0 set 3 0\n\
                    0 set 4 0\ngc collect\n0 alloc 2 4 normal\n0 alloc 1 4 normal\n0 alloc 3 6 normal\n0 alloc 4 6 normal\n\
                    0 alloc 5 6 normal\n0 store 2 2 3\n0 store 3 3 4\n0 set 3 0\n0 set 4 0\n0 set 5 0\ngc begin\ngc roots\ngc mark 1\n\
                    gc mark 1\ngc mark 1\n0 load 3 2 2\n0 add 3 3 24\n0 store 1 1 3\n0 set 3 0\n0 store 2 2 3\ngc finish\n0 load 3 1 1\n\
                    0 base 3 3\n0 load 4 3 3\n0 size 4\n0 set 2 0\n0 set 1 0\n0 set 3 0\n0 set 4 0\ngc collect\n0 alloc 2 4 normal\n\
                    0 alloc 1 4 normal\n0 alloc 3 6 normal\n0 alloc 4 6 normal\n0 alloc 5 6 normal\n0 store 2 2 3\n0 store 3 3 4\n\
                    0 set 3 0\n0 set 4 0\n0 set 5 0\ngc begin\ngc roots\ngc mark 1\ngc mark 1\ngc mark 1\ngc mark 1\n0 load 3 2 2\n\
                    0 add 3 3 24\n0 store 1 1 3\n0 set 3 0\n0 store 2 2 3\ngc finish\n0 load 3 1 1\n0 base 3 3\n0 load 4 3 3\n0 size 4\n\
                    0 set 2 0\n0 set 1 0\n0 set 3 0\n0 set 4 0\ngc collect\n0 alloc 2 4 normal\n0 alloc 1 4 normal\n0 alloc 3 6 normal\n\
                    0 alloc 4 6 normal\n0 alloc 5 6 normal\n0 store 2 2 3\n0 store 3 3 4\n0 set 3 0\n0 set 4 0\n0 set 5 0\ngc begin\n\
                    gc roots\ngc mark 1\ngc mark 1\ngc mark 1\ngc mark 1\ngc mark 1\n0 load 3 2 2\n0 add 3 3 24\n0 store 1 1 3\n0 set 3 0\n\
                    0 store 2 2 3\ngc finish\n0 load 3 1 1\n0 base 3 3\n0 load 4 3 3\n0 size 4\n0 set 2 0\n0 set 1 0\n0 set 3 0\n0 set 4 0\n\
                    gc collect\n0 alloc 2 4 normal\n0 alloc 1 4 normal\n0 alloc 3 6 normal\n0 alloc 4 6 normal\n0 alloc 5 6 normal\n\
                    0 store 2 2 3\n0 store 3 3 4\n0 set 3 0\n0 set 4 0\n0 set 5 0\ngc begin\ngc roots\ngc mark 1\ngc mark 1\ngc mark 1\n\
                    gc mark 1\ngc mark 1\ngc mark 1\n0 load 3 2 2\n0 add 3 3 24\n0 store 1 1 3\n0 set 3 0\n0 store 2 2 3\ngc finish\n\
                    0 load 3 1 1\n0 base 3 3\n0 load 4 3 3\n0 size 4\n0 set 2 0\n0 set 1 0\n0 set 3 0\n0 set 4 0\ngc collect\n\
                    0 alloc 2 4 normal\n0 alloc 1 4 normal\n0 alloc 3 6 normal\n0 alloc 4 6 normal\n0 alloc 5 6 normal\n0 store 2 2 3\n\
                    0 store 3 3 4\n0 set 3 0\n0 set 4 0\n0 set 5 0\ngc begin\ngc roots\ngc mark 1\ngc mark 1\ngc mark 1\ngc mark 1\n\
                    gc mark 1\ngc mark 1\ngc mark 1\n0 load 3 2 2\n0 add 3 3 24\n0 store 1 1 3\n0 set 3 0\n0 store 2 2 3\ngc finish\n\
                    0 load 3 1 1\n0 base 3 3\n0 load 4 3 3\n0 size 4\n0 set 2 0\n0 set 1 0\n0 set 3 0\n0 set 4 0\ngc collect\n\
                    0 alloc 2 4 normal\n0 alloc 1 4 normal\n0 alloc 3 6 normal\n0 alloc 4 6 normal\n0 alloc 5 6 normal\n0 store 2 2 3\n\
                    0 store 3 3 4\n0 set 3 0\n0 set 4 0\n0 set 5 0\ngc begin\ngc roots\ngc mark 1\ngc mark 1\ngc mark 1\ngc mark 1\n\
                    gc mark 1\ngc mark 1\ngc mark 1\ngc mark 1\n0 load 3 2 2\n0 add 3 3 24\n0 store 1 1 3\n0 set 3 0\n0 store 2 2 3\n\
                    gc finish\n0 load 3 1 1\n0 base 3 3\n0 load 4 3 3\n0 size 4\n0 set 2 0\n0 set 1 0\n0 set 3 0\n0 set 4 0\ngc collect\n\
                    0 alloc 2 4 normal\n0 alloc 1 4 normal\n0 alloc 3 6 normal\n0 alloc 4 6 normal\n0 alloc 5 6 normal\n0 store 2 2 3\n\
                    0 store 3 3 4\n0 set 3 0\n0 set 4 0\n0 set 5 0\ngc begin\ngc roots\ngc mark 1\ngc mark 1\ngc mark 1\ngc mark 1\n\
                    gc mark 1\ngc mark 1\ngc mark 1\ngc mark 1\ngc mark 1\n0 load 3 2 2\n0 add 3 3 24\n0 store 1 1 3\n0 set 3 0\n\
                    0 store 2 2 3\ngc finish\n0 load 3 1 1\n0 base 3 3\n0 load 4 3 3\n0 size 4\n0 set 2 0\n0 set 1 0\n0 set 3 0\n0 set 4 0\n\
                    gc collect\n0 alloc 2 4 normal\n0 alloc 1 4 normal\n0 alloc 3 6 normal\n0 alloc 4 6 normal\n0 alloc 5 6 normal\n\
                    0 store 2 2 3\n0 store 3 3 4\n0 set 3 0\n0 set 4 0\n0 set 5 0\ngc begin\ngc roots\ngc mark 1\ngc mark 1\ngc mark 1\n\
                    gc mark 1\ngc mark 1\ngc mark 1\ngc mark 1\ngc mark 1\ngc mark 1\ngc mark 1\n0 load 3 2 2\n0 add 3 3 24\n0 store 1 1 3\n\
                    0 set 3 0\n0 store 2 2 3\ngc finish\n0 load 3 1 1\n0 base 3 3\n0 load 4 3 3\n0 size 4\n0 set 2 0\n0 set 1 0\n0 set 3 0\n\
                    0 set 4 0\ngc collect\n0 alloc 2 4 normal\n0 alloc 1 4 normal\n0 alloc 3 6 normal\n0 alloc 4 6 normal\n\
                    0 alloc 5 6 normal\n0 store 2 2 3\n0 store 3 3 4\n0 set 3 0\n0 set 4 0\n0 set 5 0\ngc begin\ngc roots\ngc mark 1\n\
                    gc mark 1\ngc mark 1\ngc mark 1\ngc mark 1\ngc mark 1\ngc mark 1\ngc mark 1\ngc mark 1\ngc mark 1\ngc mark 1\n\
                    0 load 3 2 2\n0 add 3 3 24\n0 store 1 1 3\n0 set 3 0\n0 store 2 2 3\ngc finish\n0 load 3 1 1\n0 base 3 3\n0 load 4 3 3\n\
                    0 size 4\n0 set 2 0\n0 set 1 0\n0 set 3 0\n0 set 4 0\ngc collect\n0 alloc 2 4 normal\n0 alloc 1 4 normal\n\
                    0 alloc 3 6 normal\n0 alloc 4 6 normal\n0 alloc 5 6 normal\n0 store 2 2 3\n0 store 3 3 4\n0 set 3 0\n0 set 4 0\n\
                    0 set 5 0\ngc begin\ngc roots\ngc mark 1\ngc mark 1\ngc mark 1\ngc mark 1\ngc mark 1\ngc mark 1\ngc mark 1\ngc mark 1\n\
                    gc mark 1\ngc mark 1\ngc mark 1\ngc mark 1\n0 load 3 2 2\n0 add 3 3 24\n0 store 1 1 3\n0 set 3 0\n0 store 2 2 3\n\
                    gc finish\n0 load 3 1 1\n0 base 3 3\n0 load 4 3 3\n0 size 4\n0 set 2 0\n0 set 1 0\n0 set 3 0\n0 set 4 0\ngc collect\n\
                    0 alloc 2 4 normal\n0 alloc 1 4 normal\n0 alloc 3 6 normal\n0 alloc 4 6 normal\n0 alloc 5 6 normal\n0 store 2 2 3\n\
                    0 store 3 3 4\n0 set 3 0\n0 set 4 0\n0 set 5 0\ngc begin\ngc roots\ngc mark 1\ngc mark 1\ngc mark 1\ngc mark 1\n\
                    gc mark 1\ngc mark 1\ngc mark 1\ngc mark 1\ngc mark 1\ngc mark 1\ngc mark 1\ngc mark 1\ngc mark 1\n0 load 3 2 2\n\
                    0 add 3 3 24\n0 store 1 1 3\n0 set 3 0\n0 store 2 2 3\ngc finish\n0 load 3 1 1\n0 base 3 3\n0 load 4 3 3\n0 size 4\n\
                    0 set 2 0\n0 set 1 0\n0 set 3 0\n0 set 4 0\ngc collect\n0 alloc 2 4 normal\n0 alloc 1 4 normal\n0 alloc 3 6 normal\n\
                    0 alloc 4 6 normal\n0 alloc 5 6 normal\n0 store 2 2 3\n0 store 3 3 4\n0 set 3 0\n0 set 4 0\n0 set 5 0\ngc begin\n\
                    gc roots\ngc mark 1\ngc mark 1\ngc mark 1\ngc mark 1\ngc mark 1\ngc mark 1\ngc mark 1\ngc mark 1\ngc mark 1\ngc mark 1\n\
                    gc mark 1\ngc mark 1\ngc mark 1\ngc mark 1\n0 load 3 2 2\n0 add 3 3 24\n0 store 1 1 3\n0 set 3 0\n0 store 2 2 3\n\
                    gc finish\n0 load 3 1 1\n0 base 3 3\n0 load 4 3 3\n0 size 4\n0 set 2 0\n0 set 1 0\n0 set 3 0\n0 set 4 0\ngc collect\n\
                    0 alloc 2 4 normal\n0 alloc 1 4 normal\n0 alloc 3 6 normal\n0 alloc 4 6 normal\n0 alloc 5 6 normal\n0 store 2 2 3\n\
                    0 store 3 3 4\n0 set 3 0\n0 set 4 0\n0 set 5 0\ngc begin\ngc roots\ngc mark 1\ngc mark 1\ngc mark 1\ngc mark 1\n\
                    gc mark 1\ngc mark 1\ngc mark 1\ngc mark 1\ngc mark 1\ngc mark 1\ngc mark 1\ngc mark 1\ngc mark 1\ngc mark 1\n\
                    gc mark 1\n0 load 3 2 2\n0 add 3 3 24\n0 store 1 1 3\n0 set 3 0\n0 store 2 2 3\ngc finish\n0 load 3 1 1\n0 base 3 3\n\
                    0 load 4 3 3\n0 size 4\n0 set 2 0\n0 set 1 0\n0 set 3 0\n0 set 4 0\ngc collect\n0 alloc 2 4 normal\n0 alloc 1 4 normal\n\
                    0 alloc 3 6 normal\n0 alloc 4 6 normal\n0 alloc 5 6 normal\n0 store 2 2 3\n0 store 3 3 4\n0 set 3 0\n0 set 4 0\n\
                    0 set 5 0\ngc begin\ngc roots\ngc mark 1\ngc mark 1\ngc mark 1\ngc mark 1\ngc mark 1\ngc mark 1\ngc mark 1\ngc mark 1\n\
                    gc mark 1\ngc mark 1\ngc mark 1\ngc mark 1\ngc mark 1\ngc mark 1\ngc mark 1\ngc mark 1\n0 load 3 2 2\n0 add 3 3 24\n\
                    0 store 1 1 3\n0 set 3 0\n0 store 2 2 3\ngc finish\n0 load 3 1 1\n0 base 3 3\n0 load 4 3 3\n0 size 4\n0 set 2 0\n\
                    0 set 1 0\n0 set 3 0\n0 set 4 0\ngc collect\n0 alloc 2 4 normal\n0 alloc 1 4 normal\n0 alloc 3 6 normal\n\
                    0 alloc 4 6 normal\n0 alloc 5 6 normal\n0 store 2 2 3\n0 store 3 3 4\n0 set 3 0\n0 set 4 0\n0 set 5 0\ngc begin\n\
                    gc roots\n",
                replies: "mutator 0\nok\nok\nok\nok\nok\nok\nok\nok\nok\nok\nok\nok\nptr\nok\nok\nok\nok\n1\nptr\nptr\nptr\n6\nok\nok\nok\nok\n4\n\
                    ok\nok\nok\nok\nok\nok\nok\nok\nok\nok\nok\nok\n1\nptr\nok\nok\nok\nok\n1\nptr\nptr\nptr\n6\nok\nok\nok\nok\n4\nok\nok\n\
                    ok\nok\nok\nok\nok\nok\nok\nok\nok\nok\n1\n1\nptr\nok\nok\nok\nok\n1\nptr\nptr\nptr\n6\nok\nok\nok\nok\n4\nok\nok\nok\n\
                    ok\nok\nok\nok\nok\nok\nok\nok\nok\n1\n1\n1\nptr\nok\nok\nok\nok\n1\nptr\nptr\nptr\n6\nok\nok\nok\nok\n4\nok\nok\nok\n\
                    ok\nok\nok\nok\nok\nok\nok\nok\nok\n1\n1\n1\n1\nptr\nok\nok\nok\nok\n1\nptr\nptr\nptr\n6\nok\nok\nok\nok\n4\nok\nok\n\
                    ok\nok\nok\nok\nok\nok\nok\nok\nok\nok\n1\n1\n1\n1\n1\nptr\nok\nok\nok\nok\n1\nptr\nptr\nptr\n6\nok\nok\nok\nok\n4\nok\n\
                    ok\nok\nok\nok\nok\nok\nok\nok\nok\nok\nok\n1\n1\n1\n1\n1\n1\nptr\nok\nok\nok\nok\n1\nptr\nptr\nptr\n6\nok\nok\nok\nok\n\
                    4\nok\nok\nok\nok\nok\nok\nok\nok\nok\nok\nok\nok\n1\n1\n1\n1\n1\n1\n1\nptr\nok\nok\nok\nok\n1\nptr\nptr\nptr\n6\nok\n\
                    ok\nok\nok\n4\nok\nok\nok\nok\nok\nok\nok\nok\nok\nok\nok\nok\n1\n1\n1\n1\n1\n1\n1\n1\nptr\nok\nok\nok\nok\n1\nptr\n\
                    ptr\nptr\n6\nok\nok\nok\nok\n4\nok\nok\nok\nok\nok\nok\nok\nok\nok\nok\nok\nok\n1\n1\n1\n1\n1\n1\n1\n1\n1\nptr\nok\nok\n\
                    ok\nok\n1\nptr\nptr\nptr\n6\nok\nok\nok\nok\n4\nok\nok\nok\nok\nok\nok\nok\nok\nok\nok\nok\nok\n1\n1\n1\n1\n1\n1\n1\n1\n\
                    1\n1\nptr\nok\nok\nok\nok\n1\nptr\nptr\nptr\n6\nok\nok\nok\nok\n4\nok\nok\nok\nok\nok\nok\nok\nok\nok\nok\nok\nok\n1\n\
                    1\n1\n1\n1\n1\n1\n1\n1\n1\n1\nptr\nok\nok\nok\nok\n1\nptr\nptr\nptr\n6\nok\nok\nok\nok\n4\nok\nok\nok\nok\nok\nok\nok\n\
                    ok\nok\nok\nok\nok\n1\n1\n1\n1\n1\n1\n1\n1\n1\n1\n1\n1\nptr\nok\nok\nok\nok\n1\nptr\nptr\nptr\n6\nok\nok\nok\nok\n4\n\
                    ok\nok\nok\nok\nok\nok\nok\nok\nok\nok\nok\nok\n1\n1\n1\n1\n1\n1\n1\n1\n1\n1\n1\n1\n1\nptr\nok\nok\nok\nok\n1\nptr\n\
                    ptr\nptr\n6\nok\nok\nok\nok\n4\nok\nok\nok\nok\nok\nok\nok\nok\nok\nok\nok\nok\n1\n1\n1\n1\n1\n1\n1\n1\n1\n1\n1\n1\n1\n\
                    1\nptr\nok\nok\nok\nok\n1\nptr\nptr\nptr\n6\nok\nok\nok\nok\n4\nok\nok\nok\nok\nok\nok\nok\nok\nok\nok\nok\nok\n1\n1\n\
                    1\n1\n1\n1\n1\n1\n1\n1\n1\n1\n1\n1\n1\nptr\nok\nok\nok\nok\n1\nptr\nptr\nptr\n6\nok\nok\nok\nok\n4\nok\nok\nok\nok\nok\n\
                    ok\nok\nok\nok\nok\nok\nok\n1\n1\n1\n1\n1\n1\n1\n1\n1\n1\n1\n1\n1\n1\n1\n1\nptr\nok\nok\nok\nok\n1\nptr\nptr\nptr\n6\n\
                    ok\nok\nok\nok\n4\nok\nok\nok\nok\nok\nok\nok\nok\nok\nok\nok\nok\n",
            },
            Piece {
                times: 17,
                script: "gc mark 1\n",
                replies: "1\n",
            },
            Piece {
                times: 1,
                script: "0 load 3 2 2\n0 add 3 3 24\n0 store 1 1 3\n0 set 3 0\n0 store 2 2 3\ngc finish\n0 load 3 1 1\n0 base 3 3\n0 load 4 3 3\n\
                    0 size 4\n0 set 2 0\n0 set 1 0\n0 set 3 0\n0 set 4 0\ngc collect\n0 alloc 2 4 normal\n0 alloc 1 4 normal\n\
                    0 alloc 3 6 normal\n0 alloc 4 6 normal\n0 alloc 5 6 normal\n0 store 2 2 3\n0 store 3 3 4\n0 set 3 0\n0 set 4 0\n\
                    0 set 5 0\ngc begin\ngc roots\n",
                replies: "ptr\nok\nok\nok\nok\n1\nptr\nptr\nptr\n6\nok\nok\nok\nok\n4\nok\nok\nok\nok\nok\nok\nok\nok\nok\nok\nok\nok\n",
            },
            Piece {
                times: 18,
                script: "gc mark 1\n",
                replies: "1\n",
            },
            Piece {
                times: 1,
                script: "0 load 3 2 2\n0 add 3 3 24\n0 store 1 1 3\n0 set 3 0\n0 store 2 2 3\ngc finish\n0 load 3 1 1\n0 base 3 3\n0 load 4 3 3\n\
                    0 size 4\n0 set 2 0\n0 set 1 0\n0 set 3 0\n0 set 4 0\ngc collect\n0 alloc 2 4 normal\n0 alloc 1 4 normal\n\
                    0 alloc 3 6 normal\n0 alloc 4 6 normal\n0 alloc 5 6 normal\n0 store 2 2 3\n0 store 3 3 4\n0 set 3 0\n0 set 4 0\n\
                    0 set 5 0\ngc begin\ngc roots\n",
                replies: "ptr\nok\nok\nok\nok\n1\nptr\nptr\nptr\n6\nok\nok\nok\nok\n4\nok\nok\nok\nok\nok\nok\nok\nok\nok\nok\nok\nok\n",
            },
            Piece {
                times: 19,
                script: "gc mark 1\n",
                replies: "1\n",
            },
            Piece {
                times: 1,
                script: "0 load 3 2 2\n0 add 3 3 24\n0 store 1 1 3\n0 set 3 0\n0 store 2 2 3\ngc finish\n0 load 3 1 1\n0 base 3 3\n0 load 4 3 3\n\
                    0 size 4\n0 set 2 0\n0 set 1 0\n0 set 3 0\n0 set 4 0\ngc collect\n0 alloc 2 4 normal\n0 alloc 1 4 normal\n\
                    0 alloc 3 6 normal\n0 alloc 4 6 normal\n0 alloc 5 6 normal\n0 store 2 2 3\n0 store 3 3 4\n0 set 3 0\n0 set 4 0\n\
                    0 set 5 0\ngc begin\ngc roots\n",
                replies: "ptr\nok\nok\nok\nok\n1\nptr\nptr\nptr\n6\nok\nok\nok\nok\n4\nok\nok\nok\nok\nok\nok\nok\nok\nok\nok\nok\nok\n",
            },
            Piece {
                times: 20,
                script: "gc mark 1\n",
                replies: "1\n",
            },
            Piece {
                times: 1,
                script: "0 load 3 2 2\n0 add 3 3 24\n0 store 1 1 3\n0 set 3 0\n0 store 2 2 3\ngc finish\n0 load 3 1 1\n0 base 3 3\n0 load 4 3 3\n\
                    0 size 4\n0 set 2 0\n0 set 1 0\n0 set 3 0\n0 set 4 0\ngc collect\n",
                replies: "ptr\nok\nok\nok\nok\n1\nptr\nptr\nptr\n6\nok\nok\nok\nok\n4\n",
            },
        ],
    },
    Row {
        name: "large_object_is_read_again_by_pages",
        pages: 4,
        pieces: &[Piece {
            times: 1,
            script: "attach\n0 alloc 1 1536 normal\n0 alloc 2 2 normal\n0 alloc 3 2 normal\n0 alloc 4 2 normal\n0 store 2 1 4\n0 sub 2 0 2\n\
                0 set 3 0\n0 set 4 0\ngc begin\ngc roots\ngc mark 2000\ngc retrace\n0 sub 2 0 2\n0 store 1 0 2\n0 set 2 0\ngc retrace\n\
                gc mark 9\ngc retrace\ngc finish\n0 load 2 1 0\n0 load 3 2 1\n0 size 3\n0 set 1 0\n0 set 2 0\n0 set 3 0\ngc collect\n\
                0 alloc 1 1536 normal\n0 alloc 2 2 normal\n0 alloc 3 2 normal\n0 alloc 4 2 normal\n0 store 2 1 4\n0 sub 2 0 2\n0 set 3 0\n\
                0 set 4 0\ngc begin\ngc roots\ngc mark 2000\ngc retrace\n0 sub 2 0 2\n0 store 1 511 2\n0 set 2 0\ngc retrace\ngc mark 9\n\
                gc retrace\ngc finish\n0 load 2 1 511\n0 load 3 2 1\n0 size 3\n0 set 1 0\n0 set 2 0\n0 set 3 0\ngc collect\n\
                0 alloc 1 1536 normal\n0 alloc 2 2 normal\n0 alloc 3 2 normal\n0 alloc 4 2 normal\n0 store 2 1 4\n0 sub 2 0 2\n0 set 3 0\n\
                0 set 4 0\ngc begin\ngc roots\ngc mark 2000\ngc retrace\n0 sub 2 0 2\n0 store 1 512 2\n0 set 2 0\ngc retrace\ngc mark 9\n\
                gc retrace\ngc finish\n0 load 2 1 512\n0 load 3 2 1\n0 size 3\n0 set 1 0\n0 set 2 0\n0 set 3 0\ngc collect\n\
                0 alloc 1 1536 normal\n0 alloc 2 2 normal\n0 alloc 3 2 normal\n0 alloc 4 2 normal\n0 store 2 1 4\n0 sub 2 0 2\n0 set 3 0\n\
                0 set 4 0\ngc begin\ngc roots\ngc mark 2000\ngc retrace\n0 sub 2 0 2\n0 store 1 1300 2\n0 set 2 0\ngc retrace\ngc mark 9\n\
                gc retrace\ngc finish\n0 load 2 1 1300\n0 load 3 2 1\n0 size 3\n0 set 1 0\n0 set 2 0\n0 set 3 0\ngc collect\n\
                0 alloc 1 1536 normal\n0 alloc 2 2 normal\n0 alloc 3 2 normal\n0 alloc 4 2 normal\n0 store 2 1 4\n0 sub 2 0 2\n0 set 3 0\n\
                0 set 4 0\ngc begin\ngc roots\ngc mark 2000\ngc retrace\n0 sub 2 0 2\n0 store 1 1535 2\n0 set 2 0\ngc retrace\ngc mark 9\n\
                gc retrace\ngc finish\n0 load 2 1 1535\n0 load 3 2 1\n0 size 3\n0 set 1 0\n0 set 2 0\n0 set 3 0\ngc collect\n",
            replies: "mutator 0\nok\nok\nok\nok\nok\nok\nok\nok\nok\nok\n1536\n0\nok\nok\nok\n1\n4\n0\n1\nptr\nptr\n2\nok\nok\nok\n3\nok\nok\nok\n\
                ok\nok\nok\nok\nok\nok\nok\n1536\n0\nok\nok\nok\n1\n4\n0\n1\nptr\nptr\n2\nok\nok\nok\n3\nok\nok\nok\nok\nok\nok\nok\nok\n\
                ok\nok\n1536\n0\nok\nok\nok\n1\n4\n0\n1\nptr\nptr\n2\nok\nok\nok\n3\nok\nok\nok\nok\nok\nok\nok\nok\nok\nok\n1536\n0\nok\n\
                ok\nok\n1\n4\n0\n1\nptr\nptr\n2\nok\nok\nok\n3\nok\nok\nok\nok\nok\nok\nok\nok\nok\nok\n1536\n0\nok\nok\nok\n1\n4\n0\n1\n\
                ptr\nptr\n2\nok\nok\nok\n3\n",
        }],
    },
    Row {
        name: "lower_dirty_page_comes_first",
        pages: 4,
        pieces: &[Piece {
            times: 1,
            script: "attach\n0 alloc 1 2 normal\n0 alloc 2 4 normal\n0 alloc 3 6 normal\n0 alloc 4 8 normal\n0 sub 3 0 3\n0 sub 4 0 4\ngc begin\n\
                gc roots\ngc mark 99\ngc retrace\n0 sub 3 0 3\n0 store 2 0 3\n0 set 3 0\n0 sub 4 0 4\n0 store 1 0 4\n0 set 4 0\ngc retrace\n\
                gc mark 99\ngc retrace\ngc mark 99\ngc retrace\ngc finish\n",
            replies: "mutator 0\nok\nok\nok\nok\nok\nok\nok\nok\n6\n0\nok\nok\nok\nok\nok\nok\n1\n8\n1\n6\n0\n0\n",
        }],
    },
];

#[test]
fn each_row_is_answered(rt: HostRuntime) -> Result<(), Fail> {
    let mut rows = Rows::new(rt.alloc())?;
    rows.are_answered(&rt, ROWS)
}
