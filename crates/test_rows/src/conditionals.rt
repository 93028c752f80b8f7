//! The instructions that conditionals are compiled to: none that their region does not need.

use std::alloc::{AllocError, Global};
use std::process::Abort;
use std::sync::Wait;
use std::test::Fail;
use std::thread::Threads;
use test_served::answer;

/// Appends the name of the instruction in a line of a listing, and a space.
fn push_name(names: &mut Vec<u8>, line: &[u8]) -> Result<(), AllocError> {
    for byte in line.iter().skip(6) {
        if *byte == b' ' {
            break;
        }
        names.push(*byte)?;
    }
    names.push(b' ')?;
    Ok(())
}

/// Checks that the code blocks of the graph have exactly these instructions, in this order.
fn expect_code<R: Abort + Threads + Wait + Sync>(
    rt: &R,
    alloc: Global,
    text: &[u8],
    wanted: &[u8],
) -> Result<(), Fail> {
    let object = answer(rt, alloc, &["ets", "compile"], text);
    assert_eq!(rt; object.status, 0);
    let listing = answer(rt, alloc, &["ets", "dis"], &object.text);
    let mut names = Vec::new(alloc);
    for line in listing.text.split(|byte| *byte == b'\n') {
        if line.starts_with(b" ") {
            push_name(&mut names, line)?;
        }
    }
    assert_eq!(rt; names.as_slice(), wanted);
    Ok(())
}

/// Graphs, each with the instructions of its code blocks.
const CASES: [(&[u8], &[u8]); 10] = [
    // An `enter` in each arm and a merge: two switches and a copy, and the copy at the end. Each arm has one end, which is the
    // side of the other arm's switch.
    (
        b"etsgraph 1\nblock m 2 1\n- lt 0.0 1.0\n- cond 2.0\n3+ enter 1.0\n3- enter 0.0\n- merge 3 4.0 5.0\nout 6.0\nend\nmain m\n",
        b"copy copy copy lt switch switch copy return copy sync release ",
    ),
    // The trigger asks for the call's frame: that is one more switch, and its other side is an end of the other arm. The predicate
    // has four destinations, so there are two copies of it after the entries.
    (
        b"etsgraph 1\nblock m 2 1\n- cond 0.0\n2+ enter 1.0\n2+ call g 3.0\n2- enter 1.0\n- merge 2 4.0 5.0\nout 6.0\nend\nblock g 1 1\n- neg 0.0\nout 1.0\nend\nmain m\n",
        b"copy copy copy copy copy switch switch frame copy link send copy copy switch copy return sync sync sync copy sync release copy copy neg return release ",
    ),
    // The arguments of a strict call ask for its frame. A side of a switch has one destination, so a copy gives the argument to
    // the frame's request and to the call.
    (
        b"etsgraph 2\nblock m 2 1\n- cond 0.0\n2- enter 1.0\n2- scall g 3.0\nout 1.0\nend\nblock g 1 1\n- neg 0.0\nout 1.0\nend\nmain m\n",
        b"copy copy copy switch copy frame copy link send copy copy return sync sync copy sync release copy copy neg return release ",
    ),
    // A conditional with nothing in its arms costs nothing. What nothing else takes is an end.
    (
        b"etsgraph 1\nblock m 1 1\n- cond 0.0\nout 0.0\nend\nmain m\n",
        b"copy copy return release ",
    ),
    (
        b"etsgraph 1\nblock m 1 1\n- neg 0.0\n- cond 1.0\nout 0.0\nend\nmain m\n",
        b"copy copy neg return sync release ",
    ),
    // A conditional with empty arms, in an arm. The arm's end is the `enter` that gives its predicate.
    (
        b"etsgraph 1\nblock m 2 1\n- cond 0.0\n2+ enter 1.0\n2+ cond 3.0\nout 1.0\nend\nmain m\n",
        b"copy copy copy switch return copy sync release ",
    ),
    // A call in an arm of a conditional in an arm. Only the inner arm has a trigger, which its own predicate gives. Three copies
    // take the predicate from a side of its switch to four places.
    (
        b"etsgraph 1\nblock m 2 1\n- cond 0.0\n2+ enter 1.0\n2+ cond 3.0\n4- enter 3.0\n4- call g 5.0\nout 1.0\nend\nblock g 1 1\n- neg 0.0\nout 1.0\nend\nmain m\n",
        b"copy copy copy switch copy copy copy switch switch frame copy link send copy copy return sync sync sync copy copy sync release copy copy neg return release ",
    ),
    // The answer of a `fetch` that a conditional takes has a copy after it only if more than one `enter` takes it. An input with
    // more than two destinations has copies after the entries.
    (
        b"etsgraph 1\narray a 1\nblock m 1 1\n- fetch a 0.0\n- cond 1.0\nout 0.0\nend\nmain m\n",
        b"copy copy fetch return sync release ",
    ),
    (
        b"etsgraph 1\narray a 1\nblock m 1 1\n- fetch a 0.0\n- cond 1.0\n2+ enter 0.0\nout 0.0\nend\nmain m\n",
        b"copy copy copy fetch switch return copy sync release ",
    ),
    (
        b"etsgraph 1\narray a 1\nblock m 1 1\n- fetch a 0.0\n- cond 1.0\n2+ enter 0.0\n2- enter 0.0\nout 0.0\nend\nmain m\n",
        b"copy copy copy copy fetch copy switch switch return sync sync copy sync release ",
    ),
];

#[test]
fn conditionals_cost_what_they_need(rt: HostRuntime) -> Result<(), Fail> {
    for (text, code) in CASES {
        expect_code(&rt, rt.alloc(), text, code)?;
    }
    Ok(())
}
