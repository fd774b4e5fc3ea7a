//! `tests/rows/marking.rows`, as `tests/rows/as_tests` writes it: a change belongs there.

use crate::row::{Piece, Row, Rows};
use std::test::Fail;

const ROWS: &[Row<'static>] = &[
    Row {
        name: "steps_of_each_size",
        pages: 4,
        pieces: &[
            Piece {
                times: 1,
                script: "attach\n0 set 1 0\n",
                replies: "mutator 0\nok\n",
            },
            Piece {
                times: 84,
                script: "0 alloc 2 12 normal\n0 store 2 3 1\n0 alloc 3 12 atomic\n0 store 3 11 2\n0 store 2 11 3\n0 copy 1 2\n",
                replies: "ok\nok\nok\nok\nok\nok\n",
            },
            Piece {
                times: 1,
                script: "0 set 2 0\n0 set 3 0\ngc begin\ngc roots\n",
                replies: "ok\nok\nok\nok\n",
            },
            Piece {
                times: 1008,
                script: "gc mark 1\n",
                replies: "1\n",
            },
            Piece {
                times: 1,
                script: "gc mark 1\ngc retrace\ngc finish\ngc begin\ngc roots\n",
                replies: "0\n0\n0\nok\nok\n",
            },
            Piece {
                times: 504,
                script: "gc mark 2\n",
                replies: "2\n",
            },
            Piece {
                times: 1,
                script: "gc mark 2\ngc retrace\ngc finish\ngc begin\ngc roots\n",
                replies: "0\n0\n0\nok\nok\n",
            },
            Piece {
                times: 336,
                script: "gc mark 3\n",
                replies: "3\n",
            },
            Piece {
                times: 1,
                script: "gc mark 3\ngc retrace\ngc finish\ngc begin\ngc roots\ngc mark 299\ngc mark 299\ngc mark 299\ngc mark 299\ngc mark 299\n\
                    gc retrace\ngc finish\ngc begin\ngc roots\ngc mark 18446744073709551615\ngc retrace\ngc finish\n0 set 1 0\ngc collect\n",
                replies: "0\n0\n0\nok\nok\n299\n299\n299\n111\n0\n0\n0\nok\nok\n1008\n0\n0\nok\n168\n",
            },
        ],
    },
    Row {
        name: "budgets_of_steps",
        pages: 4,
        pieces: &[
            Piece {
                times: 1,
                script: "attach\n0 set 1 0\n",
                replies: "mutator 0\nok\n",
            },
            Piece {
                times: 84,
                script: "0 alloc 2 12 normal\n0 store 2 3 1\n0 alloc 3 12 atomic\n0 store 3 11 2\n0 store 2 11 3\n0 copy 1 2\n",
                replies: "ok\nok\nok\nok\nok\nok\n",
            },
            Piece {
                times: 1,
                script: "0 set 2 0\n0 set 3 0\n0 add 2 1 1\n0 set 4 18446744073709551615\ngc begin\ngc mark 0\ngc mark 5\ngc roots\ngc mark 0\n\
                    gc mark 3\ngc mark 0\ngc mark 8\ngc mark 1008\ngc retrace\ngc finish\n",
                replies: "ok\nok\nok\nok\nok\n0\n0\nok\n0\n3\n0\n8\n997\n0\n0\n",
            },
        ],
    },
    Row {
        name: "pointer_moves_to_the_second_root",
        pages: 3,
        pieces: &[
            Piece {
                times: 1,
                script: "attach\n0 alloc 1 4 normal\n0 alloc 2 4 normal\n0 alloc 3 6 normal\n0 alloc 4 6 normal\n0 alloc 5 6 normal\n\
                    0 store 1 2 3\n0 store 3 3 4\n0 set 3 0\n0 set 4 0\n0 set 5 0\ngc begin\ngc roots\n0 load 3 1 2\n0 add 3 3 24\n\
                    0 store 2 1 3\n0 set 3 0\n0 store 1 2 3\ngc finish\n0 load 3 2 1\n0 base 3 3\n0 load 4 3 3\n0 size 4\n0 set 1 0\n\
                    0 set 2 0\n0 set 3 0\n0 set 4 0\ngc collect\n0 alloc 1 4 normal\n0 alloc 2 4 normal\n0 alloc 3 6 normal\n\
                    0 alloc 4 6 normal\n0 alloc 5 6 normal\n0 store 1 2 3\n0 store 3 3 4\n0 set 3 0\n0 set 4 0\n0 set 5 0\ngc begin\n\
                    gc roots\ngc mark 1\n0 load 3 1 2\n0 add 3 3 24\n0 store 2 1 3\n0 set 3 0\n0 store 1 2 3\ngc finish\n0 load 3 2 1\n\
                    0 base 3 3\n0 load 4 3 3\n0 size 4\n0 set 1 0\n0 set 2 0\n0 set 3 0\n0 set 4 0\ngc collect\n0 alloc 1 4 normal\n\
                    0 alloc 2 4 normal\n0 alloc 3 6 normal\n0 alloc 4 6 normal\n0 alloc 5 6 normal\n0 store 1 2 3\n0 store 3 3 4\n\
                    0 set 3 0\n0 set 4 0\n0 set 5 0\ngc begin\ngc roots\ngc mark 1\ngc mark 1\n0 load 3 1 2\n0 add 3 3 24\n0 store 2 1 3\n\
                    0 set 3 0\n0 store 1 2 3\ngc finish\n0 load 3 2 1\n0 base 3 3\n0 load 4 3 3\n0 size 4\n0 set 1 0\n0 set 2 0\n0 set 3 0\n\
                    0 set 4 0\ngc collect\n0 alloc 1 4 normal\n0 alloc 2 4 normal\n0 alloc 3 6 normal\n0 alloc 4 6 normal\n\
                    0 alloc 5 6 normal\n0 store 1 2 3\n0 store 3 3 4\n0 set 3 0\n0 set 4 0\n0 set 5 0\ngc begin\ngc roots\ngc mark 1\n\
                    gc mark 1\ngc mark 1\n0 load 3 1 2\n0 add 3 3 24\n0 store 2 1 3\n0 set 3 0\n0 store 1 2 3\ngc finish\n0 load 3 2 1\n\
                    0 base 3 3\n0 load 4 3 3\n0 size 4\n0 set 1 0\n0 set 2 0\n0 set 3 0\n0 set 4 0\ngc collect\n0 alloc 1 4 normal\n\
                    0 alloc 2 4 normal\n0 alloc 3 6 normal\n0 alloc 4 6 normal\n0 alloc 5 6 normal\n0 store 1 2 3\n0 store 3 3 4\n\
                    0 set 3 0\n0 set 4 0\n0 set 5 0\ngc begin\ngc roots\ngc mark 1\ngc mark 1\ngc mark 1\ngc mark 1\n0 load 3 1 2\n\
                    0 add 3 3 24\n0 store 2 1 3\n0 set 3 0\n0 store 1 2 3\ngc finish\n0 load 3 2 1\n0 base 3 3\n0 load 4 3 3\n0 size 4\n\
                    0 set 1 0\n0 set 2 0\n0 set 3 0\n0 set 4 0\ngc collect\n0 alloc 1 4 normal\n0 alloc 2 4 normal\n0 alloc 3 6 normal\n\
                    0 alloc 4 6 normal\n0 alloc 5 6 normal\n0 store 1 2 3\n0 store 3 3 4\n0 set 3 0\n0 set 4 0\n0 set 5 0\ngc begin\n\
                    gc roots\ngc mark 1\ngc mark 1\ngc mark 1\ngc mark 1\ngc mark 1\n0 load 3 1 2\n0 add 3 3 24\n0 store 2 1 3\n0 set 3 0\n\
                    0 store 1 2 3\ngc finish\n0 load 3 2 1\n0 base 3 3\n0 load 4 3 3\n0 size 4\n0 set 1 0\n0 set 2 0\n0 set 3 0\n0 set 4 0\n\
                    gc collect\n0 alloc 1 4 normal\n0 alloc 2 4 normal\n0 alloc 3 6 normal\n0 alloc 4 6 normal\n0 alloc 5 6 normal\n\
                    0 store 1 2 3\n0 store 3 3 4\n0 set 3 0\n0 set 4 0\n0 set 5 0\ngc begin\ngc roots\ngc mark 1\ngc mark 1\ngc mark 1\n\
                    gc mark 1\ngc mark 1\ngc mark 1\n0 load 3 1 2\n0 add 3 3 24\n0 store 2 1 3\n0 set 3 0\n0 store 1 2 3\ngc finish\n\
                    0 load 3 2 1\n0 base 3 3\n0 load 4 3 3\n0 size 4\n0 set 1 0\n0 set 2 0\n0 set 3 0\n0 set 4 0\ngc collect\n\
                    0 alloc 1 4 normal\n0 alloc 2 4 normal\n0 alloc 3 6 normal\n0 alloc 4 6 normal\n0 alloc 5 6 normal\n0 store 1 2 3\n\
                    0 store 3 3 4\n0 set 3 0\n0 set 4 0\n0 set 5 0\ngc begin\ngc roots\ngc mark 1\ngc mark 1\ngc mark 1\ngc mark 1\n\
                    gc mark 1\ngc mark 1\ngc mark 1\n0 load 3 1 2\n0 add 3 3 24\n0 store 2 1 3\n0 set 3 0\n0 store 1 2 3\ngc finish\n\
                    0 load 3 2 1\n0 base 3 3\n0 load 4 3 3\n0 size 4\n0 set 1 0\n0 set 2 0\n0 set 3 0\n0 set 4 0\ngc collect\n\
                    0 alloc 1 4 normal\n0 alloc 2 4 normal\n0 alloc 3 6 normal\n0 alloc 4 6 normal\n0 alloc 5 6 normal\n0 store 1 2 3\n\
                    0 store 3 3 4\n0 set 3 0\n0 set 4 0\n0 set 5 0\ngc begin\ngc roots\ngc mark 1\ngc mark 1\ngc mark 1\ngc mark 1\n\
                    gc mark 1\ngc mark 1\ngc mark 1\ngc mark 1\n0 load 3 1 2\n0 add 3 3 24\n0 store 2 1 3\n0 set 3 0\n0 store 1 2 3\n\
                    gc finish\n0 load 3 2 1\n0 base 3 3\n0 load 4 3 3\n0 size 4\n0 set 1 0\n0 set 2 0\n0 set 3 0\n0 set 4 0\ngc collect\n\
                    0 alloc 1 4 normal\n0 alloc 2 4 normal\n0 alloc 3 6 normal\n0 alloc 4 6 normal\n0 alloc 5 6 normal\n0 store 1 2 3\n\
                    0 store 3 3 4\n0 set 3 0\n0 set 4 0\n0 set 5 0\ngc begin\ngc roots\ngc mark 1\ngc mark 1\ngc mark 1\ngc mark 1\n\
                    gc mark 1\ngc mark 1\ngc mark 1\ngc mark 1\ngc mark 1\n0 load 3 1 2\n0 add 3 3 24\n0 store 2 1 3\n0 set 3 0\n\
                    0 store 1 2 3\ngc finish\n0 load 3 2 1\n0 base 3 3\n0 load 4 3 3\n0 size 4\n0 set 1 0\n0 set 2 0\n0 set 3 0\n0 set 4 0\n\
                    gc collect\n0 alloc 1 4 normal\n0 alloc 2 4 normal\n0 alloc 3 6 normal\n0 alloc 4 6 normal\n0 alloc 5 6 normal\n\
                    0 store 1 2 3\n0 store 3 3 4\n0 set 3 0\n0 set 4 0\n0 set 5 0\ngc begin\ngc roots\ngc mark 1\ngc mark 1\ngc mark 1\n\
                    gc mark 1\ngc mark 1\ngc mark 1\ngc mark 1\ngc mark 1\ngc mark 1\ngc mark 1\n0 load 3 1 2\n0 add 3 3 24\n0 store 2 1 3\n\
                    0 set 3 0\n0 store 1 2 3\ngc finish\n0 load 3 2 1\n0 base 3 3\n0 load 4 3 3\n0 size 4\n0 set 1 0\n0 set 2 0\n0 set 3 0\n\
                    0 set 4 0\ngc collect\n0 alloc 1 4 normal\n0 alloc 2 4 normal\n0 alloc 3 6 normal\n0 alloc 4 6 normal\n\
                    0 alloc 5 6 normal\n0 store 1 2 3\n0 store 3 3 4\n0 set 3 0\n0 set 4 0\n0 set 5 0\ngc begin\ngc roots\ngc mark 1\n\
                    gc mark 1\ngc mark 1\ngc mark 1\ngc mark 1\ngc mark 1\ngc mark 1\ngc mark 1\ngc mark 1\ngc mark 1\ngc mark 1\n\
                    0 load 3 1 2\n0 add 3 3 24\n0 store 2 1 3\n0 set 3 0\n0 store 1 2 3\ngc finish\n0 load 3 2 1\n0 base 3 3\n0 load 4 3 3\n\
                    0 size 4\n0 set 1 0\n0 set 2 0\n0 set 3 0\n0 set 4 0\ngc collect\n0 alloc 1 4 normal\n0 alloc 2 4 normal\n\
                    0 alloc 3 6 normal\n0 alloc 4 6 normal\n0 alloc 5 6 normal\n0 store 1 2 3\n0 store 3 3 4\n0 set 3 0\n0 set 4 0\n\
                    0 set 5 0\ngc begin\ngc roots\ngc mark 1\ngc mark 1\ngc mark 1\ngc mark 1\ngc mark 1\ngc mark 1\ngc mark 1\ngc mark 1\n\
                    gc mark 1\ngc mark 1\ngc mark 1\ngc mark 1\n0 load 3 1 2\n0 add 3 3 24\n0 store 2 1 3\n0 set 3 0\n0 store 1 2 3\n\
                    gc finish\n0 load 3 2 1\n0 base 3 3\n0 load 4 3 3\n0 size 4\n0 set 1 0\n0 set 2 0\n0 set 3 0\n0 set 4 0\ngc collect\n\
                    0 alloc 1 4 normal\n0 alloc 2 4 normal\n0 alloc 3 6 normal\n0 alloc 4 6 normal\n0 alloc 5 6 normal\n0 store 1 2 3\n\
                    0 store 3 3 4\n0 set 3 0\n0 set 4 0\n0 set 5 0\ngc begin\ngc roots\ngc mark 1\ngc mark 1\ngc mark 1\ngc mark 1\n\
                    gc mark 1\ngc mark 1\ngc mark 1\ngc mark 1\ngc mark 1\ngc mark 1\ngc mark 1\ngc mark 1\ngc mark 1\n0 load 3 1 2\n\
                    0 add 3 3 24\n0 store 2 1 3\n0 set 3 0\n0 store 1 2 3\ngc finish\n0 load 3 2 1\n0 base 3 3\n0 load 4 3 3\n0 size 4\n\
                    0 set 1 0\n0 set 2 0\n0 set 3 0\n0 set 4 0\ngc collect\n0 alloc 1 4 normal\n0 alloc 2 4 normal\n0 alloc 3 6 normal\n\
                    0 alloc 4 6 normal\n0 alloc 5 6 normal\n0 store 1 2 3\n0 store 3 3 4\n0 set 3 0\n0 set 4 0\n0 set 5 0\ngc begin\n\
                    gc roots\ngc mark 1\ngc mark 1\ngc mark 1\ngc mark 1\ngc mark 1\ngc mark 1\ngc mark 1\ngc mark 1\ngc mark 1\ngc mark 1\n\
                    gc mark 1\ngc mark 1\ngc mark 1\ngc mark 1\n0 load 3 1 2\n0 add 3 3 24\n0 store 2 1 3\n0 set 3 0\n0 store 1 2 3\n\
                    gc finish\n0 load 3 2 1\n0 base 3 3\n0 load 4 3 3\n0 size 4\n0 set 1 0\n0 set 2 0\n0 set 3 0\n0 set 4 0\ngc collect\n\
                    0 alloc 1 4 normal\n0 alloc 2 4 normal\n0 alloc 3 6 normal\n0 alloc 4 6 normal\n0 alloc 5 6 normal\n0 store 1 2 3\n\
                    0 store 3 3 4\n0 set 3 0\n0 set 4 0\n0 set 5 0\ngc begin\ngc roots\ngc mark 1\ngc mark 1\ngc mark 1\ngc mark 1\n\
                    gc mark 1\ngc mark 1\ngc mark 1\ngc mark 1\ngc mark 1\ngc mark 1\ngc mark 1\ngc mark 1\ngc mark 1\ngc mark 1\n\
                    gc mark 1\n0 load 3 1 2\n0 add 3 3 24\n0 store 2 1 3\n0 set 3 0\n0 store 1 2 3\ngc finish\n0 load 3 2 1\n0 base 3 3\n\
                    0 load 4 3 3\n0 size 4\n0 set 1 0\n0 set 2 0\n0 set 3 0\n0 set 4 0\ngc collect\n0 alloc 1 4 normal\n0 alloc 2 4 normal\n\
                    0 alloc 3 6 normal\n0 alloc 4 6 normal\n0 alloc 5 6 normal\n0 store 1 2 3\n0 store 3 3 4\n0 set 3 0\n0 set 4 0\n\
                    0 set 5 0\ngc begin\ngc roots\ngc mark 1\ngc mark 1\ngc mark 1\ngc mark 1\ngc mark 1\ngc mark 1\ngc mark 1\ngc mark 1\n\
                    gc mark 1\ngc mark 1\ngc mark 1\ngc mark 1\ngc mark 1\ngc mark 1\ngc mark 1\ngc mark 1\n0 load 3 1 2\n0 add 3 3 24\n\
                    0 store 2 1 3\n0 set 3 0\n0 store 1 2 3\ngc finish\n0 load 3 2 1\n0 base 3 3\n0 load 4 3 3\n0 size 4\n0 set 1 0\n\
                    0 set 2 0\n0 set 3 0\n0 set 4 0\ngc collect\n0 alloc 1 4 normal\n0 alloc 2 4 normal\n0 alloc 3 6 normal\n\
                    0 alloc 4 6 normal\n0 alloc 5 6 normal\n0 store 1 2 3\n0 store 3 3 4\n0 set 3 0\n0 set 4 0\n0 set 5 0\ngc begin\n\
                    gc roots\n",
                replies: "mutator 0\nok\nok\nok\nok\nok\nok\nok\nok\nok\nok\nok\nok\nptr\nok\nok\nok\nok\n1\nptr\nptr\nptr\n6\nok\nok\nok\nok\n4\n\
                    ok\nok\nok\nok\nok\nok\nok\nok\nok\nok\nok\nok\n1\nptr\nok\nok\nok\nok\n1\nptr\nptr\nptr\n6\nok\nok\nok\nok\n4\nok\nok\n\
                    ok\nok\nok\nok\nok\nok\nok\nok\nok\nok\n1\n1\nptr\nok\nok\nok\nok\n1\nptr\nptr\nptr\n6\nok\nok\nok\nok\n4\nok\nok\nok\n\
                    ok\nok\nok\nok\nok\nok\nok\nok\nok\n1\n1\n1\nptr\nok\nok\nok\nok\n1\nptr\nptr\nptr\n6\nok\nok\nok\nok\n4\nok\nok\nok\n\
                    ok\nok\nok\nok\nok\nok\nok\nok\nok\n1\n1\n1\n1\nptr\nok\nok\nok\nok\n1\nptr\nptr\nptr\n6\nok\nok\nok\nok\n4\nok\nok\n\
                    ok\nok\nok\nok\nok\nok\nok\nok\nok\nok\n1\n1\n1\n1\n1\nptr\nok\nok\nok\nok\n1\nptr\nptr\nptr\n6\nok\nok\nok\nok\n4\nok\n\
                    ok\nok\nok\nok\nok\nok\nok\nok\nok\nok\nok\n1\n1\n1\n1\n1\n1\nptr\nok\nok\nok\nok\n1\nptr\nptr\nptr\n6\nok\nok\nok\nok\n\
                    4\nok\nok\nok\nok\nok\nok\nok\nok\nok\nok\nok\nok\n1\n1\n1\n1\n1\n1\n1\nptr\nok\nok\nok\nok\n1\nptr\nptr\nptr\n6\nok\n\
                    ok\nok\nok\n4\nok\nok\nok\nok\nok\nok\nok\nok\nok\nok\nok\nok\n1\n1\n1\n1\n1\n1\n1\n1\nptr\nok\nok\nok\nok\n1\nptr\n\
                    ptr\nptr\n6\nok\nok\nok\nok\n4\nok\nok\nok\nok\nok\nok\nok\nok\nok\nok\nok\nok\n1\n1\n1\n1\n1\n1\n1\n1\n1\nptr\nok\nok\n\
                    ok\nok\n1\nptr\nptr\nptr\n6\nok\nok\nok\nok\n4\nok\nok\nok\nok\nok\nok\nok\nok\nok\nok\nok\nok\n1\n1\n1\n1\n1\n1\n1\n1\n\
                    1\n1\nptr\nok\nok\nok\nok\n1\nptr\nptr\nptr\n6\nok\nok\nok\nok\n4\nok\nok\nok\nok\nok\nok\nok\nok\nok\nok\nok\nok\n1\n\
                    1\n1\n1\n1\n1\n1\n1\n1\n1\n1\nptr\nok\nok\nok\nok\n1\nptr\nptr\nptr\n6\nok\nok\nok\nok\n4\nok\nok\nok\nok\nok\nok\nok\n\
                    ok\nok\nok\nok\nok\n1\n1\n1\n1\n1\n1\n1\n1\n1\n1\n1\n1\nptr\nok\nok\nok\nok\n1\nptr\nptr\nptr\n6\nok\nok\nok\nok\n4\n\
                    ok\nok\nok\nok\nok\nok\nok\nok\nok\nok\nok\nok\n1\n1\n1\n1\n1\n1\n1\n1\n1\n1\n1\n1\n1\nptr\nok\nok\nok\nok\n1\nptr\n\
                    ptr\nptr\n6\nok\nok\nok\nok\n4\nok\nok\nok\nok\nok\nok\nok\nok\nok\nok\nok\nok\n1\n1\n1\n1\n1\n1\n1\n1\n1\n1\n1\n1\n1\n\
                    1\nptr\nok\nok\nok\nok\n1\nptr\nptr\nptr\n6\nok\nok\nok\nok\n4\nok\nok\nok\nok\nok\nok\nok\nok\nok\nok\nok\nok\n1\n1\n\
                    1\n1\n1\n1\n1\n1\n1\n1\n1\n1\n1\n1\n1\nptr\nok\nok\nok\nok\n1\nptr\nptr\nptr\n6\nok\nok\nok\nok\n4\nok\nok\nok\nok\nok\n\
                    ok\nok\nok\nok\nok\nok\nok\n1\n1\n1\n1\n1\n1\n1\n1\n1\n1\n1\n1\n1\n1\n1\n1\nptr\nok\nok\nok\nok\n1\nptr\nptr\nptr\n6\n\
                    ok\nok\nok\nok\n4\nok\nok\nok\nok\nok\nok\nok\nok\nok\nok\nok\nok\n",
            },
            Piece {
                times: 17,
                script: "gc mark 1\n",
                replies: "1\n",
            },
            Piece {
                times: 1,
                script: "0 load 3 1 2\n0 add 3 3 24\n0 store 2 1 3\n0 set 3 0\n0 store 1 2 3\ngc finish\n0 load 3 2 1\n0 base 3 3\n0 load 4 3 3\n\
                    0 size 4\n0 set 1 0\n0 set 2 0\n0 set 3 0\n0 set 4 0\ngc collect\n0 alloc 1 4 normal\n0 alloc 2 4 normal\n\
                    0 alloc 3 6 normal\n0 alloc 4 6 normal\n0 alloc 5 6 normal\n0 store 1 2 3\n0 store 3 3 4\n0 set 3 0\n0 set 4 0\n\
                    0 set 5 0\ngc begin\ngc roots\n",
                replies: "ptr\nok\nok\nok\nok\n1\nptr\nptr\nptr\n6\nok\nok\nok\nok\n4\nok\nok\nok\nok\nok\nok\nok\nok\nok\nok\nok\nok\n",
            },
            Piece {
                times: 18,
                script: "gc mark 1\n",
                replies: "1\n",
            },
            Piece {
                times: 1,
                script: "0 load 3 1 2\n0 add 3 3 24\n0 store 2 1 3\n0 set 3 0\n0 store 1 2 3\ngc finish\n0 load 3 2 1\n0 base 3 3\n0 load 4 3 3\n\
                    0 size 4\n0 set 1 0\n0 set 2 0\n0 set 3 0\n0 set 4 0\ngc collect\n0 alloc 1 4 normal\n0 alloc 2 4 normal\n\
                    0 alloc 3 6 normal\n0 alloc 4 6 normal\n0 alloc 5 6 normal\n0 store 1 2 3\n0 store 3 3 4\n0 set 3 0\n0 set 4 0\n\
                    0 set 5 0\ngc begin\ngc roots\n",
                replies: "ptr\nok\nok\nok\nok\n1\nptr\nptr\nptr\n6\nok\nok\nok\nok\n4\nok\nok\nok\nok\nok\nok\nok\nok\nok\nok\nok\nok\n",
            },
            Piece {
                times: 19,
                script: "gc mark 1\n",
                replies: "1\n",
            },
            Piece {
                times: 1,
                script: "0 load 3 1 2\n0 add 3 3 24\n0 store 2 1 3\n0 set 3 0\n0 store 1 2 3\ngc finish\n0 load 3 2 1\n0 base 3 3\n0 load 4 3 3\n\
                    0 size 4\n0 set 1 0\n0 set 2 0\n0 set 3 0\n0 set 4 0\ngc collect\n0 alloc 1 4 normal\n0 alloc 2 4 normal\n\
                    0 alloc 3 6 normal\n0 alloc 4 6 normal\n0 alloc 5 6 normal\n0 store 1 2 3\n0 store 3 3 4\n0 set 3 0\n0 set 4 0\n\
                    0 set 5 0\ngc begin\ngc roots\n",
                replies: "ptr\nok\nok\nok\nok\n1\nptr\nptr\nptr\n6\nok\nok\nok\nok\n4\nok\nok\nok\nok\nok\nok\nok\nok\nok\nok\nok\nok\n",
            },
            Piece {
                times: 20,
                script: "gc mark 1\n",
                replies: "1\n",
            },
            Piece {
                times: 1,
                script: "0 load 3 1 2\n0 add 3 3 24\n0 store 2 1 3\n0 set 3 0\n0 store 1 2 3\ngc finish\n0 load 3 2 1\n0 base 3 3\n0 load 4 3 3\n\
                    0 size 4\n0 set 1 0\n0 set 2 0\n0 set 3 0\n0 set 4 0\ngc collect\n",
                replies: "ptr\nok\nok\nok\nok\n1\nptr\nptr\nptr\n6\nok\nok\nok\nok\n4\n",
            },
        ],
    },
];

#[test]
fn each_row_is_answered(rt: HostRuntime) -> Result<(), Fail> {
    let mut rows = Rows::new(rt.alloc())?;
    rows.are_answered(&rt, ROWS)
}
