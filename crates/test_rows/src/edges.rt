//! `tests/rows/edges.rows`, as `tests/rows/as_tests` writes it: a change belongs there.

use crate::row::{Piece, Row, Rows};
use std::test::Fail;

const ROWS: &[Row<'static>] = &[
    Row {
        name: "last_line_without_newline",
        pages: 4,
        pieces: &[Piece {
            times: 1,
            script: "attach\n0 detach",
            replies: "mutator 0\nok\n",
        }],
    },
    Row {
        name: "largest_word",
        pages: 4,
        pieces: &[Piece {
            times: 1,
            script: "attach\n0 set 1 18446744073709551615\n0 add 1 1 1\n0 get 1\n",
            replies: "mutator 0\nok\nok\n0\n",
        }],
    },
    Row {
        name: "get_of_no_mutator",
        pages: 4,
        pieces: &[Piece {
            times: 1,
            script: "0 get 1\n",
            replies: "refused 1 NoSlot\n",
        }],
    },
    Row {
        name: "nothing_is_set",
        pages: 4,
        pieces: &[Piece {
            times: 1,
            script: "attach\n0 get 1\n",
            replies: "mutator 0\n0\n",
        }],
    },
    Row {
        name: "vacant_slot",
        pages: 4,
        pieces: &[Piece {
            times: 1,
            script: "0 detach\n3 set 1 1\n3 copy 1 1\n3 add 1 1 1\n3 sub 1 1 1\n3 get 1\n3 push 1\n3 pop 1\n3 load 1 1 0\n3 store 1 0 1\n\
                3 alloc 1 1 normal\n3 free 1\n3 base 1 1\n3 size 1\n3 gget 1 1\n3 gput 1 1\n",
            replies: "refused 1 NoSlot\nrefused 1 NoSlot\nrefused 1 NoSlot\nrefused 1 NoSlot\nrefused 1 NoSlot\nrefused 1 NoSlot\n\
                refused 1 NoSlot\nrefused 1 NoSlot\nrefused 1 NoSlot\nrefused 1 NoSlot\nrefused 1 NoSlot\nrefused 1 NoSlot\n\
                refused 1 NoSlot\nrefused 1 NoSlot\nrefused 1 NoSlot\nrefused 1 NoSlot\n",
        }],
    },
    Row {
        name: "detached_and_attached",
        pages: 4,
        pieces: &[Piece {
            times: 1,
            script: "attach\n0 set 1 9\n0 push 1\n0 detach\n0 set 1 9\nattach\nattach\n0 get 1\n0 pop 1\n",
            replies: "mutator 0\nok\nok\nok\nrefused 1 NoSlot\nmutator 0\nmutator 1\n0\nrefused 8 StackEmpty\n",
        }],
    },
    Row {
        name: "registers",
        pages: 4,
        pieces: &[Piece {
            times: 1,
            script: "attach\n0 set 1 7\n0 copy 15 1\n0 set 1 5\n0 get 15\n0 sub 2 15 1\n0 get 2\n0 sub 2 1 15\n0 get 2\n0 add 0 15 3\n0 get 0\n",
            replies: "mutator 0\nok\nok\nok\n7\nok\n2\nok\n18446744073709551614\nok\n10\n",
        }],
    },
    Row {
        name: "stack",
        pages: 4,
        pieces: &[Piece {
            times: 1,
            script: "attach\n0 set 1 5\n0 set 2 6\n0 push 1\n0 push 2\n0 pop 3\n0 pop 4\n0 pop 5\n0 get 3\n0 get 4\n",
            replies: "mutator 0\nok\nok\nok\nok\n6\n5\nrefused 8 StackEmpty\n6\n5\n",
        }],
    },
    Row {
        name: "globals",
        pages: 4,
        pieces: &[Piece {
            times: 1,
            script: "attach\nattach\n0 set 1 5\n0 gput 63 1\n1 gget 2 63\n1 gget 2 0\n1 gput 63 2\n0 gget 1 63\n",
            replies: "mutator 0\nmutator 1\nok\nok\n5\n0\nok\n0\n",
        }],
    },
    Row {
        name: "misaligned",
        pages: 4,
        pieces: &[Piece {
            times: 1,
            script: "attach\n0 alloc 1 2 normal\n0 add 2 1 1\n0 load 3 2 0\n0 store 2 0 3\n0 base 3 2\n0 size 2\n",
            replies: "mutator 0\nok\nok\nrefused 2 Misaligned\nrefused 2 Misaligned\nptr\n2\n",
        }],
    },
    Row {
        name: "past_the_end",
        pages: 4,
        pieces: &[Piece {
            times: 1,
            script: "attach\n0 alloc 1 2 normal\n0 load 2 1 1\n0 load 2 1 2\n0 store 1 2 2\n0 add 2 1 16\n0 base 3 2\n0 size 2\n0 free 2\n",
            replies: "mutator 0\nok\n0\nrefused 3 NoObject\nrefused 3 NoObject\nok\nrefused 3 NoObject\nrefused 3 NoObject\nrefused 3 NoObject\n",
        }],
    },
    Row {
        name: "bad_sizes",
        pages: 4,
        pieces: &[Piece {
            times: 1,
            script: "attach\n0 alloc 1 0 normal\n0 alloc 1 65537 atomic\n",
            replies: "mutator 0\nrefused 5 BadSize\nrefused 5 BadSize\n",
        }],
    },
    Row {
        name: "full_heap",
        pages: 1,
        pieces: &[Piece {
            times: 1,
            script: "attach\n0 alloc 1 257 atomic\n0 alloc 2 1 normal\n0 free 1\n0 alloc 2 1 normal\n0 alloc 1 257 atomic\n",
            replies: "mutator 0\nok\nrefused 6 Full\nok\nok\nrefused 6 Full\n",
        }],
    },
    Row {
        name: "freed_page_for_another_kind",
        pages: 1,
        pieces: &[Piece {
            times: 1,
            script: "attach\n0 alloc 1 256 normal\n0 free 1\n0 alloc 4 2 atomic\n0 size 4\n",
            replies: "mutator 0\nok\nok\nok\n2\n",
        }],
    },
    Row {
        name: "interior_of_a_large_object",
        pages: 4,
        pieces: &[Piece {
            times: 1,
            script: "attach\n0 alloc 1 1000 normal\n0 add 2 1 8191\n0 size 2\n0 base 3 2\n0 sub 3 3 1\n0 get 3\n0 free 2\n0 add 2 1 8192\n\
                0 size 2\n0 free 1\n0 size 1\n",
            replies: "mutator 0\nok\nok\n1024\nptr\nok\n0\nrefused 4 NotBase\nok\nrefused 3 NoObject\nok\nrefused 3 NoObject\n",
        }],
    },
    Row {
        name: "addresses_print_alike",
        pages: 4,
        pieces: &[Piece {
            times: 1,
            script: "attach\n0 alloc 1 2 normal\n0 store 1 1 1\n0 load 2 1 1\n0 set 3 268451840\n0 store 1 0 3\n0 load 4 1 0\n",
            replies: "mutator 0\nok\nok\nptr\nok\nok\n268451840\n",
        }],
    },
    Row {
        name: "most_pages",
        pages: 4096,
        pieces: &[Piece {
            times: 1,
            script: "attach\n",
            replies: "mutator 0\n",
        }],
    },
    Row {
        name: "refusals_in_their_order",
        pages: 1,
        pieces: &[Piece {
            times: 1,
            script: "attach\n5 alloc 0 0 normal\n0 alloc 0 0 normal\n0 alloc 0 65537 normal\n0 alloc 0 65536 normal\n0 alloc 0 2 normal\n\
                0 alloc 0 2 atomic\n0 add 1 0 15\n0 free 1\n0 add 1 0 16\n0 free 1\n0 size 1\n",
            replies: "mutator 0\nrefused 1 NoSlot\nrefused 5 BadSize\nrefused 5 BadSize\nrefused 6 Full\nok\nrefused 6 Full\nok\n\
                refused 4 NotBase\nok\nrefused 3 NoObject\nrefused 3 NoObject\n",
        }],
    },
    Row {
        name: "no_room_beside_large_objects",
        pages: 4,
        pieces: &[Piece {
            times: 1,
            script: "attach\n0 alloc 1 3 normal\n0 alloc 1 65536 normal\n0 alloc 1 1025 normal\n0 alloc 1 257 normal\n0 detach\n0 detach\n",
            replies: "mutator 0\nok\nrefused 6 Full\nok\nrefused 6 Full\nok\nrefused 1 NoSlot\n",
        }],
    },
    Row {
        name: "freed_by_its_base",
        pages: 1,
        pieces: &[Piece {
            times: 1,
            script: "attach\n0 alloc 1 5 atomic\n0 add 2 1 47\n0 base 3 2\n0 sub 3 3 1\n0 get 3\n0 size 2\n0 free 2\n0 add 2 1 48\n0 free 2\n\
                0 base 3 2\n0 free 1\n0 size 1\n0 alloc 1 512 normal\n0 size 1\n",
            replies: "mutator 0\nok\nok\nptr\nok\n0\n6\nrefused 4 NotBase\nok\nrefused 3 NoObject\nrefused 3 NoObject\nok\nrefused 3 NoObject\n\
                ok\n512\n",
        }],
    },
];

#[test]
fn each_row_is_answered(rt: HostRuntime) -> Result<(), Fail> {
    let mut rows = Rows::new(rt.alloc())?;
    rows.are_answered(&rt, ROWS)
}
