//! `tests/rows/calls.rows`, as `tests/rows/as_tests` writes it: a change belongs there.

use crate::row::{Piece, Row, Rows};
use std::test::Fail;

const ROWS: &[Row<'static>] = &[
    Row {
        name: "empty_input",
        pages: 4,
        pieces: &[],
    },
    Row {
        name: "first_run",
        pages: 4,
        pieces: &[Piece {
            times: 1,
            script: "attach\n0 alloc 1 3 normal\n0 set 2 77\n0 store 1 0 2\n0 load 3 1 0\n",
            replies: "mutator 0\nok\nok\nok\n77\n",
        }],
    },
    Row {
        name: "store_and_load",
        pages: 4,
        pieces: &[Piece {
            times: 1,
            script: "attach\n0 alloc 1 3 normal\n0 size 1\n0 set 2 77\n0 store 1 0 2\n0 load 3 1 0\n",
            replies: "mutator 0\nok\n4\nok\nok\n77\n",
        }],
    },
    Row {
        name: "request_sizes_with_larger_limits",
        pages: 4,
        pieces: &[Piece {
            times: 1,
            script: "attach\n0 alloc 1 256 normal\n0 size 1\n0 alloc 2 257 normal\n0 size 2\n0 alloc 3 0 normal\n0 alloc 3 16385 normal\n",
            replies: "mutator 0\nok\n256\nok\n512\nrefused 5 BadSize\nrefused 6 Full\n",
        }],
    },
    Row {
        name: "page_stays_cut",
        pages: 1,
        pieces: &[Piece {
            times: 1,
            script: "attach\n0 alloc 1 256 normal\n0 alloc 2 256 normal\n0 alloc 3 256 normal\n0 free 1\n0 alloc 3 256 normal\n\
                0 alloc 4 2 atomic\n",
            replies: "mutator 0\nok\nok\nrefused 6 Full\nok\nok\nrefused 6 Full\n",
        }],
    },
    Row {
        name: "freed_twice",
        pages: 4,
        pieces: &[Piece {
            times: 1,
            script: "attach\n0 alloc 1 2 normal\n0 free 1\n0 free 1\n",
            replies: "mutator 0\nok\nok\nrefused 3 NoObject\n",
        }],
    },
    Row {
        name: "free_inside",
        pages: 4,
        pieces: &[Piece {
            times: 1,
            script: "attach\n0 alloc 1 2 normal\n0 add 2 1 8\n0 free 2\n0 size 1\n",
            replies: "mutator 0\nok\nok\nrefused 4 NotBase\n2\n",
        }],
    },
    Row {
        name: "sixteen_slots",
        pages: 4,
        pieces: &[Piece {
            times: 1,
            script: "attach\nattach\nattach\nattach\nattach\nattach\nattach\nattach\nattach\nattach\nattach\nattach\nattach\nattach\nattach\n\
                attach\nattach\n",
            replies: "mutator 0\nmutator 1\nmutator 2\nmutator 3\nmutator 4\nmutator 5\nmutator 6\nmutator 7\nmutator 8\nmutator 9\nmutator 10\n\
                mutator 11\nmutator 12\nmutator 13\nmutator 14\nmutator 15\nrefused 1 NoSlot\n",
        }],
    },
    Row {
        name: "largest_object",
        pages: 32,
        pieces: &[Piece {
            times: 1,
            script: "attach\n0 alloc 1 16384 atomic\n0 size 1\n0 alloc 2 1 normal\n",
            replies: "mutator 0\nok\n16384\nrefused 6 Full\n",
        }],
    },
    Row {
        name: "heap_ends",
        pages: 4,
        pieces: &[Piece {
            times: 1,
            script: "attach\n0 set 1 268435456\n0 get 1\n0 set 1 268451840\n0 get 1\n0 load 2 1 0\n",
            replies: "mutator 0\nok\nptr\nok\n268451840\nrefused 3 NoObject\n",
        }],
    },
    Row {
        name: "largest_object_with_larger_limits",
        pages: 128,
        pieces: &[Piece {
            times: 1,
            script: "attach\n0 alloc 1 65536 atomic\n0 size 1\n0 alloc 2 1 normal\n0 alloc 2 65537 normal\n",
            replies: "mutator 0\nok\n65536\nrefused 6 Full\nrefused 5 BadSize\n",
        }],
    },
    Row {
        name: "heap_ends_with_larger_limits",
        pages: 4096,
        pieces: &[Piece {
            times: 1,
            script: "attach\n0 set 1 285212671\n0 get 1\n0 set 1 285212672\n0 get 1\n",
            replies: "mutator 0\nok\nptr\nok\n285212672\n",
        }],
    },
    Row {
        name: "base_of_interior",
        pages: 4,
        pieces: &[Piece {
            times: 1,
            script: "attach\n0 alloc 1 2 normal\n0 add 2 1 9\n0 base 3 2\n0 sub 4 3 1\n0 get 4\n",
            replies: "mutator 0\nok\nok\nptr\nok\n0\n",
        }],
    },
    Row {
        name: "words_zeroed_again",
        pages: 1,
        pieces: &[Piece {
            times: 1,
            script: "attach\n0 alloc 1 2 normal\n0 set 2 9\n0 store 1 0 2\n0 store 1 1 2\n0 free 1\n0 alloc 1 2 normal\n0 load 3 1 0\n\
                0 load 3 1 1\n",
            replies: "mutator 0\nok\nok\nok\nok\nok\nok\n0\n0\n",
        }],
    },
    Row {
        name: "address_wraps",
        pages: 4,
        pieces: &[Piece {
            times: 1,
            script: "attach\n0 set 1 18446744073709551608\n0 load 2 1 0\n0 load 2 1 1\n",
            replies: "mutator 0\nok\nrefused 3 NoObject\nrefused 3 NoObject\n",
        }],
    },
    Row {
        name: "offset_wraps",
        pages: 4,
        pieces: &[Piece {
            times: 1,
            script: "attach\n0 alloc 1 2 normal\n0 load 2 1 2305843009213693952\n",
            replies: "mutator 0\nok\n0\n",
        }],
    },
    Row {
        name: "stack_full",
        pages: 4,
        pieces: &[
            Piece {
                times: 1,
                script: "attach\n",
                replies: "mutator 0\n",
            },
            Piece {
                times: 256,
                script: "0 push 1\n",
                replies: "ok\n",
            },
            Piece {
                times: 1,
                script: "0 push 1\n",
                replies: "refused 7 StackFull\n",
            },
        ],
    },
    Row {
        name: "free_cell_again",
        pages: 1,
        pieces: &[
            Piece {
                times: 1,
                script: "attach\n",
                replies: "mutator 0\n",
            },
            Piece {
                times: 256,
                script: "0 alloc 1 2 normal\n",
                replies: "ok\n",
            },
            Piece {
                times: 1,
                script: "0 alloc 2 2 normal\n0 free 1\n0 alloc 2 2 normal\n0 alloc 3 2 normal\n",
                replies: "refused 6 Full\nok\nok\nrefused 6 Full\n",
            },
        ],
    },
    Row {
        name: "words_of_an_object",
        pages: 4,
        pieces: &[Piece {
            times: 1,
            script: "attach\n0 alloc 1 3 normal\n0 set 4 268435456\n0 sub 4 1 4\n0 get 4\n0 size 1\n0 set 2 77\n0 store 1 3 2\n0 load 3 1 3\n\
                0 load 3 1 2\n0 load 3 1 4\n0 load 3 2 0\n0 add 3 1 31\n0 base 2 3\n0 sub 4 2 1\n0 get 4\n0 load 2 3 0\n",
            replies: "mutator 0\nok\nok\nok\n0\n4\nok\nok\n77\n0\nrefused 3 NoObject\nrefused 2 Misaligned\nok\nptr\nok\n0\nrefused 2 Misaligned\n",
        }],
    },
    Row {
        name: "page_zeroed_again",
        pages: 1,
        pieces: &[
            Piece {
                times: 1,
                script: "attach\n0 alloc 0 2 normal\n0 store 0 1 0\n0 free 0\n0 alloc 0 512 atomic\n",
                replies: "mutator 0\nok\nok\nok\nok\n",
            },
            Piece {
                times: 512,
                script: "0 load 1 0 #\n",
                replies: "0\n",
            },
        ],
    },
    Row {
        name: "full_stack_is_popped",
        pages: 1,
        pieces: &[
            Piece {
                times: 1,
                script: "attach\n0 pop 1\n",
                replies: "mutator 0\nrefused 8 StackEmpty\n",
            },
            Piece {
                times: 256,
                script: "0 set 1 #\n0 push 1\n",
                replies: "ok\nok\n",
            },
            Piece {
                times: 1,
                script: "0 push 1\n0 pop 2\n0 pop 2\n0 gput 63 2\n0 gget 1 63\n0 get 1\n",
                replies: "refused 7 StackFull\n255\n254\nok\n254\n254\n",
            },
        ],
    },
];

#[test]
fn each_row_is_answered(rt: HostRuntime) -> Result<(), Fail> {
    let mut rows = Rows::new(rt.alloc())?;
    rows.are_answered(&rt, ROWS)
}
