//! `tests/rows/linking.rows`, as `tests/rows/as_tests` writes it: a change belongs there.

use crate::row::{Piece, Row, Rows};
use std::test::Fail;

const ROWS: &[Row<'static>] = &[
    Row {
        name: "link_cleared_by_cycle",
        pages: 4,
        pieces: &[Piece {
            times: 1,
            script: "attach\n0 alloc 1 2 atomic\n0 alloc 2 2 normal\n0 store 1 0 2\n0 link 1 0 2\ngc collect\n0 load 3 1 0\n0 set 3 0\n\
                0 set 2 0\ngc begin\ngc finish\n0 load 3 1 0\n",
            replies: "mutator 0\nok\nok\nok\nok\n0\nptr\nok\nok\nok\n1\n0\n",
        }],
    },
    Row {
        name: "link_cleared_by_free",
        pages: 4,
        pieces: &[Piece {
            times: 1,
            script: "attach\n0 alloc 1 2 atomic\n0 alloc 2 2 normal\n0 store 1 1 2\n0 link 1 1 2\n0 free 2\n0 load 3 1 1\n0 unlink 1 1\n",
            replies: "mutator 0\nok\nok\nok\nok\nok\n0\n0\n",
        }],
    },
    Row {
        name: "link_goes_with_its_holder",
        pages: 4,
        pieces: &[Piece {
            times: 1,
            script: "attach\n0 alloc 1 2 atomic\n0 alloc 2 2 normal\n0 link 1 0 2\n0 free 1\n0 alloc 1 2 atomic\n0 unlink 1 0\n",
            replies: "mutator 0\nok\nok\nok\nok\nok\n0\n",
        }],
    },
    Row {
        name: "link_refusals",
        pages: 4,
        pieces: &[Piece {
            times: 1,
            script: "attach\n0 alloc 1 2 normal\n0 link 1 0 1\n0 alloc 1 2 atomic\n0 link 1 0 2\n",
            replies: "mutator 0\nok\nrefused 11 NotPointerFree\nok\nrefused 3 NoObject\n",
        }],
    },
    Row {
        name: "link_refusals_in_their_order",
        pages: 4,
        pieces: &[Piece {
            times: 1,
            script: "0 link 1 0 1\n0 unlink 1 0\nattach\n0 alloc 1 2 normal\n0 link 1 0 1\n0 add 3 1 1\n0 link 3 0 1\n0 alloc 1 2 atomic\n\
                0 link 1 0 2\n0 link 2 0 1\n",
            replies: "refused 1 NoSlot\nrefused 1 NoSlot\nmutator 0\nok\nrefused 11 NotPointerFree\nok\nrefused 2 Misaligned\nok\n\
                refused 3 NoObject\nrefused 3 NoObject\n",
        }],
    },
    Row {
        name: "link_to_its_holder",
        pages: 4,
        pieces: &[Piece {
            times: 1,
            script: "attach\n0 alloc 1 2 atomic\n0 link 1 0 1\n0 free 1\n0 alloc 1 2 atomic\n0 unlink 1 0\n",
            replies: "mutator 0\nok\nok\nok\nok\n0\n",
        }],
    },
    Row {
        name: "two_links_on_a_dirty_and_a_clean_page",
        pages: 4,
        pieces: &[Piece {
            times: 1,
            script: "attach\n0 alloc 1 256 atomic\n0 alloc 2 2 atomic\n0 alloc 3 2 normal\n0 store 1 0 3\n0 store 2 1 3\n0 link 1 0 3\n\
                0 link 2 1 3\n0 set 3 0\ngc begin\n0 store 2 0 0\ngc finish\n0 load 4 1 0\n0 load 4 2 1\n",
            replies: "mutator 0\nok\nok\nok\nok\nok\nok\nok\nok\nok\nok\n1\n0\n0\n",
        }],
    },
    Row {
        name: "link_replaced_while_marking",
        pages: 4,
        pieces: &[Piece {
            times: 1,
            script: "attach\n0 alloc 1 2 atomic\n0 alloc 2 2 normal\n0 alloc 3 2 normal\n0 store 1 0 2\n0 link 1 0 2\n0 set 2 0\ngc begin\n\
                0 link 1 0 3\ngc finish\n0 load 4 1 0\n0 unlink 1 0\n",
            replies: "mutator 0\nok\nok\nok\nok\nok\nok\nok\nok\n1\nptr\n1\n",
        }],
    },
    Row {
        name: "holder_and_object_leave_together",
        pages: 4,
        pieces: &[Piece {
            times: 1,
            script: "attach\n0 alloc 1 2 atomic\n0 alloc 2 2 normal\n0 link 1 0 2\n0 set 1 0\n0 set 2 0\ngc collect\n0 alloc 1 2 atomic\n\
                0 unlink 1 0\n",
            replies: "mutator 0\nok\nok\nok\nok\nok\n2\nok\n0\n",
        }],
    },
    Row {
        name: "holder_on_a_pending_page",
        pages: 4,
        pieces: &[Piece {
            times: 1,
            script: "attach\n0 alloc 5 2 atomic\n0 alloc 1 2 atomic\n0 alloc 2 2 normal\n0 store 1 0 2\n0 link 1 0 2\n0 set 5 0\ngc begin\n\
                gc finish\n0 free 2\n0 load 3 1 0\ngc sweep\n0 load 3 1 0\n",
            replies: "mutator 0\nok\nok\nok\nok\nok\nok\nok\n1\nok\n0\n1\n0\n",
        }],
    },
    Row {
        name: "links_full",
        pages: 4,
        pieces: &[
            Piece {
                times: 1,
                script: "attach\n0 alloc 1 128 atomic\n0 alloc 2 2 normal\n",
                replies: "mutator 0\nok\nok\n",
            },
            Piece {
                times: 64,
                script: "0 link 1 # 2\n",
                replies: "ok\n",
            },
            Piece {
                times: 1,
                script: "0 link 1 64 2\n0 link 1 63 2\n0 unlink 1 0\n0 link 1 64 2\n",
                replies: "refused 10 LinksFull\nok\n1\nok\n",
            },
        ],
    },
    Row {
        name: "links_full_and_cleared",
        pages: 4,
        pieces: &[
            Piece {
                times: 1,
                script: "attach\n0 alloc 1 128 atomic\n0 alloc 2 2 normal\n",
                replies: "mutator 0\nok\nok\n",
            },
            Piece {
                times: 64,
                script: "0 store 1 # 2\n0 link 1 # 2\n",
                replies: "ok\nok\n",
            },
            Piece {
                times: 1,
                script: "0 link 1 64 2\n0 link 1 63 2\n0 unlink 1 0\n0 link 1 64 2\n0 set 2 0\ngc begin\ngc finish\n0 load 3 1 0\n0 load 3 1 1\n\
                    0 load 3 1 63\n",
                replies: "refused 10 LinksFull\nok\n1\nok\nok\nok\n1\nptr\n0\n0\n",
            },
        ],
    },
];

#[test]
fn each_row_is_answered(rt: HostRuntime) -> Result<(), Fail> {
    let mut rows = Rows::new(rt.alloc())?;
    rows.are_answered(&rt, ROWS)
}
