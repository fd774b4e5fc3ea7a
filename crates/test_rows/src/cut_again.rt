//! `tests/rows/cut_again.rows`, as `tests/rows/as_tests` writes it: a change belongs there.

use crate::row::{Piece, Row, Rows};
use std::test::Fail;

const ROWS: &[Row<'static>] = &[
    Row {
        name: "comes_after_0_words",
        pages: 2,
        pieces: &[Piece {
            times: 1,
            script: "attach\n0 alloc 1 256 normal\n0 alloc 2 256 normal\n0 alloc 3 4 normal\n0 store 2 255 3\n0 sub 3 0 3\ngc begin\ngc roots\n\
                gc mark 0\n0 free 1\n0 free 2\n0 set 2 0\n0 alloc 1 2 normal\n0 sub 3 0 3\n0 store 1 1 3\n0 set 3 0\ngc mark 1000\n\
                gc finish\n0 set 1 0\ngc collect\n0 alloc 1 256 normal\n0 alloc 2 256 normal\n0 alloc 3 4 normal\n0 store 2 255 3\n\
                0 sub 3 0 3\ngc begin\ngc roots\ngc mark 0\n0 free 1\n0 free 2\n0 set 2 0\n0 alloc 1 2 atomic\n0 sub 3 0 3\n0 store 1 1 3\n\
                0 set 3 0\ngc mark 1000\ngc finish\n0 set 1 0\ngc collect\n0 alloc 1 256 normal\n0 alloc 2 256 normal\n0 alloc 3 4 normal\n\
                0 store 2 255 3\n0 sub 3 0 3\ngc begin\ngc roots\ngc mark 0\n0 free 1\n0 free 2\n0 set 2 0\n0 alloc 1 6 normal\n\
                0 sub 3 0 3\n0 store 1 1 3\n0 set 3 0\ngc mark 1000\ngc finish\n0 set 1 0\ngc collect\n0 alloc 1 256 normal\n\
                0 alloc 2 256 normal\n0 alloc 3 4 normal\n0 store 2 255 3\n0 sub 3 0 3\ngc begin\ngc roots\ngc mark 0\n0 free 1\n0 free 2\n\
                0 set 2 0\n0 alloc 1 6 atomic\n0 sub 3 0 3\n0 store 1 1 3\n0 set 3 0\ngc mark 1000\ngc finish\n0 set 1 0\ngc collect\n\
                0 alloc 1 256 normal\n0 alloc 2 256 normal\n0 alloc 3 4 normal\n0 store 2 255 3\n0 sub 3 0 3\ngc begin\ngc roots\n\
                gc mark 0\n0 free 1\n0 free 2\n0 set 2 0\n0 alloc 1 96 normal\n0 sub 3 0 3\n0 store 1 1 3\n0 set 3 0\ngc mark 1000\n\
                gc finish\n0 set 1 0\ngc collect\n0 alloc 1 256 normal\n0 alloc 2 256 normal\n0 alloc 3 4 normal\n0 store 2 255 3\n\
                0 sub 3 0 3\ngc begin\ngc roots\ngc mark 0\n0 free 1\n0 free 2\n0 set 2 0\n0 alloc 1 96 atomic\n0 sub 3 0 3\n0 store 1 1 3\n\
                0 set 3 0\ngc mark 1000\ngc finish\n0 set 1 0\ngc collect\n0 alloc 1 256 normal\n0 alloc 2 256 normal\n0 alloc 3 4 normal\n\
                0 store 2 255 3\n0 sub 3 0 3\ngc begin\ngc roots\ngc mark 0\n0 free 1\n0 free 2\n0 set 2 0\n0 alloc 1 256 normal\n\
                0 sub 3 0 3\n0 store 1 1 3\n0 set 3 0\ngc mark 1000\ngc finish\n0 set 1 0\ngc collect\n0 alloc 1 256 normal\n\
                0 alloc 2 256 normal\n0 alloc 3 4 normal\n0 store 2 255 3\n0 sub 3 0 3\ngc begin\ngc roots\ngc mark 0\n0 free 1\n0 free 2\n\
                0 set 2 0\n0 alloc 1 256 atomic\n0 sub 3 0 3\n0 store 1 1 3\n0 set 3 0\ngc mark 1000\ngc finish\n0 set 1 0\ngc collect\n",
            replies: "mutator 0\nok\nok\nok\nok\nok\nok\nok\n0\nok\nok\nok\nok\nok\nok\nok\n6\n0\nok\n2\nok\nok\nok\nok\nok\nok\nok\n0\nok\nok\n\
                ok\nok\nok\nok\nok\n0\n1\nok\n1\nok\nok\nok\nok\nok\nok\nok\n0\nok\nok\nok\nok\nok\nok\nok\n10\n0\nok\n2\nok\nok\nok\nok\n\
                ok\nok\nok\n0\nok\nok\nok\nok\nok\nok\nok\n0\n1\nok\n1\nok\nok\nok\nok\nok\nok\nok\n0\nok\nok\nok\nok\nok\nok\nok\n100\n0\n\
                ok\n2\nok\nok\nok\nok\nok\nok\nok\n0\nok\nok\nok\nok\nok\nok\nok\n0\n1\nok\n1\nok\nok\nok\nok\nok\nok\nok\n0\nok\nok\nok\n\
                ok\nok\nok\nok\n260\n0\nok\n2\nok\nok\nok\nok\nok\nok\nok\n0\nok\nok\nok\nok\nok\nok\nok\n0\n1\nok\n1\n",
        }],
    },
    Row {
        name: "comes_after_1_words",
        pages: 2,
        pieces: &[Piece {
            times: 1,
            script: "attach\n0 alloc 1 256 normal\n0 alloc 2 256 normal\n0 alloc 3 4 normal\n0 store 2 255 3\n0 sub 3 0 3\ngc begin\ngc roots\n\
                gc mark 1\n0 free 1\n0 free 2\n0 set 2 0\n0 alloc 1 2 normal\n0 sub 3 0 3\n0 store 1 1 3\n0 set 3 0\ngc mark 1000\n\
                gc finish\n0 set 1 0\ngc collect\n0 alloc 1 256 normal\n0 alloc 2 256 normal\n0 alloc 3 4 normal\n0 store 2 255 3\n\
                0 sub 3 0 3\ngc begin\ngc roots\ngc mark 1\n0 free 1\n0 free 2\n0 set 2 0\n0 alloc 1 2 atomic\n0 sub 3 0 3\n0 store 1 1 3\n\
                0 set 3 0\ngc mark 1000\ngc finish\n0 set 1 0\ngc collect\n0 alloc 1 256 normal\n0 alloc 2 256 normal\n0 alloc 3 4 normal\n\
                0 store 2 255 3\n0 sub 3 0 3\ngc begin\ngc roots\ngc mark 1\n0 free 1\n0 free 2\n0 set 2 0\n0 alloc 1 6 normal\n\
                0 sub 3 0 3\n0 store 1 1 3\n0 set 3 0\ngc mark 1000\ngc finish\n0 set 1 0\ngc collect\n0 alloc 1 256 normal\n\
                0 alloc 2 256 normal\n0 alloc 3 4 normal\n0 store 2 255 3\n0 sub 3 0 3\ngc begin\ngc roots\ngc mark 1\n0 free 1\n0 free 2\n\
                0 set 2 0\n0 alloc 1 6 atomic\n0 sub 3 0 3\n0 store 1 1 3\n0 set 3 0\ngc mark 1000\ngc finish\n0 set 1 0\ngc collect\n\
                0 alloc 1 256 normal\n0 alloc 2 256 normal\n0 alloc 3 4 normal\n0 store 2 255 3\n0 sub 3 0 3\ngc begin\ngc roots\n\
                gc mark 1\n0 free 1\n0 free 2\n0 set 2 0\n0 alloc 1 96 normal\n0 sub 3 0 3\n0 store 1 1 3\n0 set 3 0\ngc mark 1000\n\
                gc finish\n0 set 1 0\ngc collect\n0 alloc 1 256 normal\n0 alloc 2 256 normal\n0 alloc 3 4 normal\n0 store 2 255 3\n\
                0 sub 3 0 3\ngc begin\ngc roots\ngc mark 1\n0 free 1\n0 free 2\n0 set 2 0\n0 alloc 1 96 atomic\n0 sub 3 0 3\n0 store 1 1 3\n\
                0 set 3 0\ngc mark 1000\ngc finish\n0 set 1 0\ngc collect\n0 alloc 1 256 normal\n0 alloc 2 256 normal\n0 alloc 3 4 normal\n\
                0 store 2 255 3\n0 sub 3 0 3\ngc begin\ngc roots\ngc mark 1\n0 free 1\n0 free 2\n0 set 2 0\n0 alloc 1 256 normal\n\
                0 sub 3 0 3\n0 store 1 1 3\n0 set 3 0\ngc mark 1000\ngc finish\n0 set 1 0\ngc collect\n0 alloc 1 256 normal\n\
                0 alloc 2 256 normal\n0 alloc 3 4 normal\n0 store 2 255 3\n0 sub 3 0 3\ngc begin\ngc roots\ngc mark 1\n0 free 1\n0 free 2\n\
                0 set 2 0\n0 alloc 1 256 atomic\n0 sub 3 0 3\n0 store 1 1 3\n0 set 3 0\ngc mark 1000\ngc finish\n0 set 1 0\ngc collect\n",
            replies: "mutator 0\nok\nok\nok\nok\nok\nok\nok\n1\nok\nok\nok\nok\nok\nok\nok\n6\n0\nok\n2\nok\nok\nok\nok\nok\nok\nok\n1\nok\nok\n\
                ok\nok\nok\nok\nok\n0\n1\nok\n1\nok\nok\nok\nok\nok\nok\nok\n1\nok\nok\nok\nok\nok\nok\nok\n10\n0\nok\n2\nok\nok\nok\nok\n\
                ok\nok\nok\n1\nok\nok\nok\nok\nok\nok\nok\n0\n1\nok\n1\nok\nok\nok\nok\nok\nok\nok\n1\nok\nok\nok\nok\nok\nok\nok\n100\n0\n\
                ok\n2\nok\nok\nok\nok\nok\nok\nok\n1\nok\nok\nok\nok\nok\nok\nok\n0\n1\nok\n1\nok\nok\nok\nok\nok\nok\nok\n1\nok\nok\nok\n\
                ok\nok\nok\nok\n260\n0\nok\n2\nok\nok\nok\nok\nok\nok\nok\n1\nok\nok\nok\nok\nok\nok\nok\n0\n1\nok\n1\n",
        }],
    },
    Row {
        name: "comes_after_5_words",
        pages: 2,
        pieces: &[Piece {
            times: 1,
            script: "attach\n0 alloc 1 256 normal\n0 alloc 2 256 normal\n0 alloc 3 4 normal\n0 store 2 255 3\n0 sub 3 0 3\ngc begin\ngc roots\n\
                gc mark 5\n0 free 1\n0 free 2\n0 set 2 0\n0 alloc 1 2 normal\n0 sub 3 0 3\n0 store 1 1 3\n0 set 3 0\ngc mark 1000\n\
                gc finish\n0 set 1 0\ngc collect\n0 alloc 1 256 normal\n0 alloc 2 256 normal\n0 alloc 3 4 normal\n0 store 2 255 3\n\
                0 sub 3 0 3\ngc begin\ngc roots\ngc mark 5\n0 free 1\n0 free 2\n0 set 2 0\n0 alloc 1 2 atomic\n0 sub 3 0 3\n0 store 1 1 3\n\
                0 set 3 0\ngc mark 1000\ngc finish\n0 set 1 0\ngc collect\n0 alloc 1 256 normal\n0 alloc 2 256 normal\n0 alloc 3 4 normal\n\
                0 store 2 255 3\n0 sub 3 0 3\ngc begin\ngc roots\ngc mark 5\n0 free 1\n0 free 2\n0 set 2 0\n0 alloc 1 6 normal\n\
                0 sub 3 0 3\n0 store 1 1 3\n0 set 3 0\ngc mark 1000\ngc finish\n0 set 1 0\ngc collect\n0 alloc 1 256 normal\n\
                0 alloc 2 256 normal\n0 alloc 3 4 normal\n0 store 2 255 3\n0 sub 3 0 3\ngc begin\ngc roots\ngc mark 5\n0 free 1\n0 free 2\n\
                0 set 2 0\n0 alloc 1 6 atomic\n0 sub 3 0 3\n0 store 1 1 3\n0 set 3 0\ngc mark 1000\ngc finish\n0 set 1 0\ngc collect\n\
                0 alloc 1 256 normal\n0 alloc 2 256 normal\n0 alloc 3 4 normal\n0 store 2 255 3\n0 sub 3 0 3\ngc begin\ngc roots\n\
                gc mark 5\n0 free 1\n0 free 2\n0 set 2 0\n0 alloc 1 96 normal\n0 sub 3 0 3\n0 store 1 1 3\n0 set 3 0\ngc mark 1000\n\
                gc finish\n0 set 1 0\ngc collect\n0 alloc 1 256 normal\n0 alloc 2 256 normal\n0 alloc 3 4 normal\n0 store 2 255 3\n\
                0 sub 3 0 3\ngc begin\ngc roots\ngc mark 5\n0 free 1\n0 free 2\n0 set 2 0\n0 alloc 1 96 atomic\n0 sub 3 0 3\n0 store 1 1 3\n\
                0 set 3 0\ngc mark 1000\ngc finish\n0 set 1 0\ngc collect\n0 alloc 1 256 normal\n0 alloc 2 256 normal\n0 alloc 3 4 normal\n\
                0 store 2 255 3\n0 sub 3 0 3\ngc begin\ngc roots\ngc mark 5\n0 free 1\n0 free 2\n0 set 2 0\n0 alloc 1 256 normal\n\
                0 sub 3 0 3\n0 store 1 1 3\n0 set 3 0\ngc mark 1000\ngc finish\n0 set 1 0\ngc collect\n0 alloc 1 256 normal\n\
                0 alloc 2 256 normal\n0 alloc 3 4 normal\n0 store 2 255 3\n0 sub 3 0 3\ngc begin\ngc roots\ngc mark 5\n0 free 1\n0 free 2\n\
                0 set 2 0\n0 alloc 1 256 atomic\n0 sub 3 0 3\n0 store 1 1 3\n0 set 3 0\ngc mark 1000\ngc finish\n0 set 1 0\ngc collect\n",
            replies: "mutator 0\nok\nok\nok\nok\nok\nok\nok\n5\nok\nok\nok\nok\nok\nok\nok\n6\n0\nok\n2\nok\nok\nok\nok\nok\nok\nok\n5\nok\nok\n\
                ok\nok\nok\nok\nok\n0\n1\nok\n1\nok\nok\nok\nok\nok\nok\nok\n5\nok\nok\nok\nok\nok\nok\nok\n10\n0\nok\n2\nok\nok\nok\nok\n\
                ok\nok\nok\n5\nok\nok\nok\nok\nok\nok\nok\n0\n1\nok\n1\nok\nok\nok\nok\nok\nok\nok\n5\nok\nok\nok\nok\nok\nok\nok\n100\n0\n\
                ok\n2\nok\nok\nok\nok\nok\nok\nok\n5\nok\nok\nok\nok\nok\nok\nok\n0\n1\nok\n1\nok\nok\nok\nok\nok\nok\nok\n5\nok\nok\nok\n\
                ok\nok\nok\nok\n260\n0\nok\n2\nok\nok\nok\nok\nok\nok\nok\n5\nok\nok\nok\nok\nok\nok\nok\n0\n1\nok\n1\n",
        }],
    },
    Row {
        name: "comes_after_100_words",
        pages: 2,
        pieces: &[Piece {
            times: 1,
            script: "attach\n0 alloc 1 256 normal\n0 alloc 2 256 normal\n0 alloc 3 4 normal\n0 store 2 255 3\n0 sub 3 0 3\ngc begin\ngc roots\n\
                gc mark 100\n0 free 1\n0 free 2\n0 set 2 0\n0 alloc 1 2 normal\n0 sub 3 0 3\n0 store 1 1 3\n0 set 3 0\ngc mark 1000\n\
                gc finish\n0 set 1 0\ngc collect\n0 alloc 1 256 normal\n0 alloc 2 256 normal\n0 alloc 3 4 normal\n0 store 2 255 3\n\
                0 sub 3 0 3\ngc begin\ngc roots\ngc mark 100\n0 free 1\n0 free 2\n0 set 2 0\n0 alloc 1 2 atomic\n0 sub 3 0 3\n\
                0 store 1 1 3\n0 set 3 0\ngc mark 1000\ngc finish\n0 set 1 0\ngc collect\n0 alloc 1 256 normal\n0 alloc 2 256 normal\n\
                0 alloc 3 4 normal\n0 store 2 255 3\n0 sub 3 0 3\ngc begin\ngc roots\ngc mark 100\n0 free 1\n0 free 2\n0 set 2 0\n\
                0 alloc 1 6 normal\n0 sub 3 0 3\n0 store 1 1 3\n0 set 3 0\ngc mark 1000\ngc finish\n0 set 1 0\ngc collect\n\
                0 alloc 1 256 normal\n0 alloc 2 256 normal\n0 alloc 3 4 normal\n0 store 2 255 3\n0 sub 3 0 3\ngc begin\ngc roots\n\
                gc mark 100\n0 free 1\n0 free 2\n0 set 2 0\n0 alloc 1 6 atomic\n0 sub 3 0 3\n0 store 1 1 3\n0 set 3 0\ngc mark 1000\n\
                gc finish\n0 set 1 0\ngc collect\n0 alloc 1 256 normal\n0 alloc 2 256 normal\n0 alloc 3 4 normal\n0 store 2 255 3\n\
                0 sub 3 0 3\ngc begin\ngc roots\ngc mark 100\n0 free 1\n0 free 2\n0 set 2 0\n0 alloc 1 96 normal\n0 sub 3 0 3\n\
                0 store 1 1 3\n0 set 3 0\ngc mark 1000\ngc finish\n0 set 1 0\ngc collect\n0 alloc 1 256 normal\n0 alloc 2 256 normal\n\
                0 alloc 3 4 normal\n0 store 2 255 3\n0 sub 3 0 3\ngc begin\ngc roots\ngc mark 100\n0 free 1\n0 free 2\n0 set 2 0\n\
                0 alloc 1 96 atomic\n0 sub 3 0 3\n0 store 1 1 3\n0 set 3 0\ngc mark 1000\ngc finish\n0 set 1 0\ngc collect\n\
                0 alloc 1 256 normal\n0 alloc 2 256 normal\n0 alloc 3 4 normal\n0 store 2 255 3\n0 sub 3 0 3\ngc begin\ngc roots\n\
                gc mark 100\n0 free 1\n0 free 2\n0 set 2 0\n0 alloc 1 256 normal\n0 sub 3 0 3\n0 store 1 1 3\n0 set 3 0\ngc mark 1000\n\
                gc finish\n0 set 1 0\ngc collect\n0 alloc 1 256 normal\n0 alloc 2 256 normal\n0 alloc 3 4 normal\n0 store 2 255 3\n\
                0 sub 3 0 3\ngc begin\ngc roots\ngc mark 100\n0 free 1\n0 free 2\n0 set 2 0\n0 alloc 1 256 atomic\n0 sub 3 0 3\n\
                0 store 1 1 3\n0 set 3 0\ngc mark 1000\ngc finish\n0 set 1 0\ngc collect\n",
            replies: "mutator 0\nok\nok\nok\nok\nok\nok\nok\n100\nok\nok\nok\nok\nok\nok\nok\n6\n0\nok\n2\nok\nok\nok\nok\nok\nok\nok\n100\nok\n\
                ok\nok\nok\nok\nok\nok\n0\n1\nok\n1\nok\nok\nok\nok\nok\nok\nok\n100\nok\nok\nok\nok\nok\nok\nok\n10\n0\nok\n2\nok\nok\nok\n\
                ok\nok\nok\nok\n100\nok\nok\nok\nok\nok\nok\nok\n0\n1\nok\n1\nok\nok\nok\nok\nok\nok\nok\n100\nok\nok\nok\nok\nok\nok\nok\n\
                100\n0\nok\n2\nok\nok\nok\nok\nok\nok\nok\n100\nok\nok\nok\nok\nok\nok\nok\n0\n1\nok\n1\nok\nok\nok\nok\nok\nok\nok\n100\n\
                ok\nok\nok\nok\nok\nok\nok\n260\n0\nok\n2\nok\nok\nok\nok\nok\nok\nok\n100\nok\nok\nok\nok\nok\nok\nok\n0\n1\nok\n1\n",
        }],
    },
    Row {
        name: "comes_after_257_words",
        pages: 2,
        pieces: &[Piece {
            times: 1,
            script: "attach\n0 alloc 1 256 normal\n0 alloc 2 256 normal\n0 alloc 3 4 normal\n0 store 2 255 3\n0 sub 3 0 3\ngc begin\ngc roots\n\
                gc mark 257\n0 free 1\n0 free 2\n0 set 2 0\n0 alloc 1 2 normal\n0 sub 3 0 3\n0 store 1 1 3\n0 set 3 0\ngc mark 1000\n\
                gc finish\n0 set 1 0\ngc collect\n0 alloc 1 256 normal\n0 alloc 2 256 normal\n0 alloc 3 4 normal\n0 store 2 255 3\n\
                0 sub 3 0 3\ngc begin\ngc roots\ngc mark 257\n0 free 1\n0 free 2\n0 set 2 0\n0 alloc 1 2 atomic\n0 sub 3 0 3\n\
                0 store 1 1 3\n0 set 3 0\ngc mark 1000\ngc finish\n0 set 1 0\ngc collect\n0 alloc 1 256 normal\n0 alloc 2 256 normal\n\
                0 alloc 3 4 normal\n0 store 2 255 3\n0 sub 3 0 3\ngc begin\ngc roots\ngc mark 257\n0 free 1\n0 free 2\n0 set 2 0\n\
                0 alloc 1 6 normal\n0 sub 3 0 3\n0 store 1 1 3\n0 set 3 0\ngc mark 1000\ngc finish\n0 set 1 0\ngc collect\n\
                0 alloc 1 256 normal\n0 alloc 2 256 normal\n0 alloc 3 4 normal\n0 store 2 255 3\n0 sub 3 0 3\ngc begin\ngc roots\n\
                gc mark 257\n0 free 1\n0 free 2\n0 set 2 0\n0 alloc 1 6 atomic\n0 sub 3 0 3\n0 store 1 1 3\n0 set 3 0\ngc mark 1000\n\
                gc finish\n0 set 1 0\ngc collect\n0 alloc 1 256 normal\n0 alloc 2 256 normal\n0 alloc 3 4 normal\n0 store 2 255 3\n\
                0 sub 3 0 3\ngc begin\ngc roots\ngc mark 257\n0 free 1\n0 free 2\n0 set 2 0\n0 alloc 1 96 normal\n0 sub 3 0 3\n\
                0 store 1 1 3\n0 set 3 0\ngc mark 1000\ngc finish\n0 set 1 0\ngc collect\n0 alloc 1 256 normal\n0 alloc 2 256 normal\n\
                0 alloc 3 4 normal\n0 store 2 255 3\n0 sub 3 0 3\ngc begin\ngc roots\ngc mark 257\n0 free 1\n0 free 2\n0 set 2 0\n\
                0 alloc 1 96 atomic\n0 sub 3 0 3\n0 store 1 1 3\n0 set 3 0\ngc mark 1000\ngc finish\n0 set 1 0\ngc collect\n\
                0 alloc 1 256 normal\n0 alloc 2 256 normal\n0 alloc 3 4 normal\n0 store 2 255 3\n0 sub 3 0 3\ngc begin\ngc roots\n\
                gc mark 257\n0 free 1\n0 free 2\n0 set 2 0\n0 alloc 1 256 normal\n0 sub 3 0 3\n0 store 1 1 3\n0 set 3 0\ngc mark 1000\n\
                gc finish\n0 set 1 0\ngc collect\n0 alloc 1 256 normal\n0 alloc 2 256 normal\n0 alloc 3 4 normal\n0 store 2 255 3\n\
                0 sub 3 0 3\ngc begin\ngc roots\ngc mark 257\n0 free 1\n0 free 2\n0 set 2 0\n0 alloc 1 256 atomic\n0 sub 3 0 3\n\
                0 store 1 1 3\n0 set 3 0\ngc mark 1000\ngc finish\n0 set 1 0\ngc collect\n",
            replies: "mutator 0\nok\nok\nok\nok\nok\nok\nok\n257\nok\nok\nok\nok\nok\nok\nok\n5\n0\nok\n2\nok\nok\nok\nok\nok\nok\nok\n257\nok\n\
                ok\nok\nok\nok\nok\nok\n3\n0\nok\n2\nok\nok\nok\nok\nok\nok\nok\n257\nok\nok\nok\nok\nok\nok\nok\n9\n0\nok\n2\nok\nok\nok\n\
                ok\nok\nok\nok\n257\nok\nok\nok\nok\nok\nok\nok\n3\n0\nok\n2\nok\nok\nok\nok\nok\nok\nok\n257\nok\nok\nok\nok\nok\nok\nok\n\
                99\n0\nok\n2\nok\nok\nok\nok\nok\nok\nok\n257\nok\nok\nok\nok\nok\nok\nok\n3\n0\nok\n2\nok\nok\nok\nok\nok\nok\nok\n257\n\
                ok\nok\nok\nok\nok\nok\nok\n259\n0\nok\n2\nok\nok\nok\nok\nok\nok\nok\n257\nok\nok\nok\nok\nok\nok\nok\n3\n0\nok\n2\n",
        }],
    },
    Row {
        name: "comes_after_300_words",
        pages: 2,
        pieces: &[Piece {
            times: 1,
            script: "attach\n0 alloc 1 256 normal\n0 alloc 2 256 normal\n0 alloc 3 4 normal\n0 store 2 255 3\n0 sub 3 0 3\ngc begin\ngc roots\n\
                gc mark 300\n0 free 1\n0 free 2\n0 set 2 0\n0 alloc 1 2 normal\n0 sub 3 0 3\n0 store 1 1 3\n0 set 3 0\ngc mark 1000\n\
                gc finish\n0 set 1 0\ngc collect\n0 alloc 1 256 normal\n0 alloc 2 256 normal\n0 alloc 3 4 normal\n0 store 2 255 3\n\
                0 sub 3 0 3\ngc begin\ngc roots\ngc mark 300\n0 free 1\n0 free 2\n0 set 2 0\n0 alloc 1 2 atomic\n0 sub 3 0 3\n\
                0 store 1 1 3\n0 set 3 0\ngc mark 1000\ngc finish\n0 set 1 0\ngc collect\n0 alloc 1 256 normal\n0 alloc 2 256 normal\n\
                0 alloc 3 4 normal\n0 store 2 255 3\n0 sub 3 0 3\ngc begin\ngc roots\ngc mark 300\n0 free 1\n0 free 2\n0 set 2 0\n\
                0 alloc 1 6 normal\n0 sub 3 0 3\n0 store 1 1 3\n0 set 3 0\ngc mark 1000\ngc finish\n0 set 1 0\ngc collect\n\
                0 alloc 1 256 normal\n0 alloc 2 256 normal\n0 alloc 3 4 normal\n0 store 2 255 3\n0 sub 3 0 3\ngc begin\ngc roots\n\
                gc mark 300\n0 free 1\n0 free 2\n0 set 2 0\n0 alloc 1 6 atomic\n0 sub 3 0 3\n0 store 1 1 3\n0 set 3 0\ngc mark 1000\n\
                gc finish\n0 set 1 0\ngc collect\n0 alloc 1 256 normal\n0 alloc 2 256 normal\n0 alloc 3 4 normal\n0 store 2 255 3\n\
                0 sub 3 0 3\ngc begin\ngc roots\ngc mark 300\n0 free 1\n0 free 2\n0 set 2 0\n0 alloc 1 96 normal\n0 sub 3 0 3\n\
                0 store 1 1 3\n0 set 3 0\ngc mark 1000\ngc finish\n0 set 1 0\ngc collect\n0 alloc 1 256 normal\n0 alloc 2 256 normal\n\
                0 alloc 3 4 normal\n0 store 2 255 3\n0 sub 3 0 3\ngc begin\ngc roots\ngc mark 300\n0 free 1\n0 free 2\n0 set 2 0\n\
                0 alloc 1 96 atomic\n0 sub 3 0 3\n0 store 1 1 3\n0 set 3 0\ngc mark 1000\ngc finish\n0 set 1 0\ngc collect\n\
                0 alloc 1 256 normal\n0 alloc 2 256 normal\n0 alloc 3 4 normal\n0 store 2 255 3\n0 sub 3 0 3\ngc begin\ngc roots\n\
                gc mark 300\n0 free 1\n0 free 2\n0 set 2 0\n0 alloc 1 256 normal\n0 sub 3 0 3\n0 store 1 1 3\n0 set 3 0\ngc mark 1000\n\
                gc finish\n0 set 1 0\ngc collect\n0 alloc 1 256 normal\n0 alloc 2 256 normal\n0 alloc 3 4 normal\n0 store 2 255 3\n\
                0 sub 3 0 3\ngc begin\ngc roots\ngc mark 300\n0 free 1\n0 free 2\n0 set 2 0\n0 alloc 1 256 atomic\n0 sub 3 0 3\n\
                0 store 1 1 3\n0 set 3 0\ngc mark 1000\ngc finish\n0 set 1 0\ngc collect\n",
            replies: "mutator 0\nok\nok\nok\nok\nok\nok\nok\n300\nok\nok\nok\nok\nok\nok\nok\n0\n0\nok\n2\nok\nok\nok\nok\nok\nok\nok\n300\nok\n\
                ok\nok\nok\nok\nok\nok\n0\n0\nok\n2\nok\nok\nok\nok\nok\nok\nok\n300\nok\nok\nok\nok\nok\nok\nok\n0\n0\nok\n2\nok\nok\nok\n\
                ok\nok\nok\nok\n300\nok\nok\nok\nok\nok\nok\nok\n0\n0\nok\n2\nok\nok\nok\nok\nok\nok\nok\n300\nok\nok\nok\nok\nok\nok\nok\n\
                56\n0\nok\n2\nok\nok\nok\nok\nok\nok\nok\n300\nok\nok\nok\nok\nok\nok\nok\n0\n0\nok\n2\nok\nok\nok\nok\nok\nok\nok\n300\n\
                ok\nok\nok\nok\nok\nok\nok\n216\n0\nok\n2\nok\nok\nok\nok\nok\nok\nok\n300\nok\nok\nok\nok\nok\nok\nok\n0\n0\nok\n2\n",
        }],
    },
];

#[test]
fn each_row_is_answered(rt: HostRuntime) -> Result<(), Fail> {
    let mut rows = Rows::new(rt.alloc())?;
    rows.are_answered(&rt, ROWS)
}
