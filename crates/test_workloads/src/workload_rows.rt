//! `tests/rows/workloads`, as `tests/rows/as_tests` writes it: a change belongs there.

use crate::worked::{Workload, are_printed};
use scripts::ScriptError;
use std::test::Fail;
use test_io::Taken;

const WORKLOADS: &[Workload<'static>] = &[
    Workload {
        text: "",
        printed: "collector\n",
        answer: Ok(()),
    },
    Workload {
        text: "attach\n0 get 1\ngc no\n",
        printed: "mutator 0\n0\ncollector\n0\n",
        answer: Ok(()),
    },
    Workload {
        text: "attach\n0 alloc 1 2 normal\n0 set 2 7\n0 store 1 0 2\n0 load 3 1 0\n0 free 1\n0 base 2 1\n",
        printed: "mutator 0\nok\nok\nok\n7\nok\nrefused 3 NoObject\ncollector\n",
        answer: Ok(()),
    },
    Workload {
        text: "gc finish\ngc mark 4\ngc collect\ngc begin\ngc begin\ngc roots\ngc retrace\ngc finish\ngc sweep\ngc no\n",
        printed: "collector\nrefused 9 WrongPhase\nrefused 9 WrongPhase\n0\nok\nrefused 9 WrongPhase\nok\n0\n0\n0\n2\n",
        answer: Ok(()),
    },
    Workload {
        text: "gc partial\ngc collect\ngc partial\ngc partial\ngc finish\ngc begin\ngc partial\ngc collect\ngc partial\ngc no\n",
        printed: "collector\nrefused 12 NeedsFull\n0\nok\nrefused 9 WrongPhase\n0\nok\nrefused 9 WrongPhase\n0\nok\n3\n",
        answer: Ok(()),
    },
    Workload {
        text: "gc finish\ngc roots\ngc mark 4\ngc retrace\ngc no\ngc collect\ngc partial\ngc partial\ngc finish\ngc begin\ngc begin\n\
            gc finish\ngc finish\ngc no\n",
        printed: "collector\nrefused 9 WrongPhase\nrefused 9 WrongPhase\nrefused 9 WrongPhase\nrefused 9 WrongPhase\n0\n0\nok\n\
            refused 9 WrongPhase\n0\nok\nrefused 9 WrongPhase\n0\nrefused 9 WrongPhase\n3\n",
        answer: Ok(()),
    },
    Workload {
        text: "attach\nattach\nattach\n0 alloc 1 2 normal\n0 get 1\n0 set 2 268451840\n0 get 2\n2 alloc 1 2049 normal\ngc no\n",
        printed: "mutator 0\nok\nptr\nok\n268451840\nmutator 1\nmutator 2\nrefused 6 Full\ncollector\n0\n",
        answer: Ok(()),
    },
    Workload {
        text: "attach\n0 alloc 1 2 atomic\n0 alloc 2 2 normal\n0 store 1 1 2\n0 link 1 1 2\n0 free 2\n0 load 3 1 1\n0 unlink 1 1\n",
        printed: "mutator 0\nok\nok\nok\nok\nok\n0\n0\ncollector\n",
        answer: Ok(()),
    },
    Workload {
        text: "attach\n0 get 1\n1 get 1\n",
        printed: "",
        answer: Err(ScriptError::BadLine(3)),
    },
    Workload {
        text: "attach",
        printed: "mutator 0\ncollector\n",
        answer: Ok(()),
    },
    Workload {
        text: "attach\n",
        printed: "mutator 0\ncollector\n",
        answer: Ok(()),
    },
    Workload {
        text: "gc no\ngc collect\n",
        printed: "collector\n0\n0\n",
        answer: Ok(()),
    },
    Workload {
        text: "attach\nattach\n1 get 1\n0 get 1",
        printed: "mutator 0\n0\nmutator 1\n0\ncollector\n",
        answer: Ok(()),
    },
    Workload {
        text: "attach\n0 set 1 18446744073709551615\n",
        printed: "mutator 0\nok\ncollector\n",
        answer: Ok(()),
    },
    Workload {
        text: "attach\ngc mark 18446744073709551615\ngc no",
        printed: "mutator 0\ncollector\nrefused 9 WrongPhase\n0\n",
        answer: Ok(()),
    },
    Workload {
        text: "attach\nattach\nattach\nattach\nattach\nattach\nattach\nattach\nattach\nattach\nattach\nattach\nattach\nattach\nattach\nattach\n\
            15 get 1\n",
        printed: "mutator 0\nmutator 1\nmutator 2\nmutator 3\nmutator 4\nmutator 5\nmutator 6\nmutator 7\nmutator 8\nmutator 9\nmutator 10\n\
            mutator 11\nmutator 12\nmutator 13\nmutator 14\nmutator 15\n0\ncollector\n",
        answer: Ok(()),
    },
    Workload {
        text: "attach\n1 get 1\n",
        printed: "",
        answer: Err(ScriptError::BadLine(2)),
    },
    Workload {
        text: "attach\ngc no\nattach\n",
        printed: "",
        answer: Err(ScriptError::BadLine(3)),
    },
    Workload {
        text: "attach\n0 detach\n",
        printed: "",
        answer: Err(ScriptError::BadLine(2)),
    },
    Workload {
        text: "0 get 1\nattach\n",
        printed: "",
        answer: Err(ScriptError::BadLine(1)),
    },
    Workload {
        text: "attach\n0 get 1\nattach\n",
        printed: "",
        answer: Err(ScriptError::BadLine(3)),
    },
    Workload {
        text: "gc no\n0 get 1\n",
        printed: "",
        answer: Err(ScriptError::BadLine(2)),
    },
    Workload {
        text: "attach\n\n0 get 1\n",
        printed: "",
        answer: Err(ScriptError::BadLine(2)),
    },
    Workload {
        text: "attach\n0 get 1\n\n",
        printed: "",
        answer: Err(ScriptError::BadLine(3)),
    },
    Workload {
        text: "attach\n0 get 1\n1 get 1",
        printed: "",
        answer: Err(ScriptError::BadLine(3)),
    },
    Workload {
        text: "attach\n0 get 16\n0 detach\n",
        printed: "",
        answer: Err(ScriptError::BadLine(2)),
    },
    Workload {
        text: "attach\n0 detach\n0 get 16\n",
        printed: "",
        answer: Err(ScriptError::BadLine(2)),
    },
    Workload {
        text: "attach\nattach\nattach\nattach\nattach\nattach\nattach\nattach\nattach\nattach\nattach\nattach\nattach\nattach\nattach\nattach\n\
            attach\n",
        printed: "",
        answer: Err(ScriptError::BadLine(17)),
    },
    Workload {
        text: "\n",
        printed: "",
        answer: Err(ScriptError::BadLine(1)),
    },
    Workload {
        text: "attach \n",
        printed: "",
        answer: Err(ScriptError::BadLine(1)),
    },
    Workload {
        text: "attach\n0  get 1\n",
        printed: "",
        answer: Err(ScriptError::BadLine(2)),
    },
    Workload {
        text: "attach\n00 get 1\n",
        printed: "",
        answer: Err(ScriptError::BadLine(2)),
    },
    Workload {
        text: "attach\n16 get 1\n",
        printed: "",
        answer: Err(ScriptError::BadLine(2)),
    },
    Workload {
        text: "attach\n0 gget 1 64\n",
        printed: "",
        answer: Err(ScriptError::BadLine(2)),
    },
    Workload {
        text: "attach\n0 set 1 18446744073709551616\n",
        printed: "",
        answer: Err(ScriptError::BadLine(2)),
    },
    Workload {
        text: "attach\n0 set 1 -1\n",
        printed: "",
        answer: Err(ScriptError::BadLine(2)),
    },
    Workload {
        text: "attach\n0 alloc 1 2 Normal\n",
        printed: "",
        answer: Err(ScriptError::BadLine(2)),
    },
    Workload {
        text: "gc mark\n",
        printed: "",
        answer: Err(ScriptError::BadLine(1)),
    },
    Workload {
        text: "gc collect 1\n",
        printed: "",
        answer: Err(ScriptError::BadLine(1)),
    },
    Workload {
        text: "attach\r\n",
        printed: "",
        answer: Err(ScriptError::BadLine(1)),
    },
];

#[test]
fn each_workload_is_printed(rt: HostRuntime) -> Result<(), Fail> {
    let mut output = Taken::new(rt.alloc())?;
    are_printed(&rt, rt.alloc(), WORKLOADS, &mut output);
    Ok(())
}
