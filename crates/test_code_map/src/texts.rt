//! The text of a map.

use code_map::{Owner, Part, code_map};
use graph_check::check;
use graph_file::read;
use lowering::Places;
use map_text::{ProgramPlaces, write_code_map};
use object_view::Object;
use std::test::Fail;
use test_inputs::{graph_texts, objects};

/// The map that the compiler gives, of a graph and its object made by hand.
#[test]
fn map_of_a_sum(rt: HostRuntime) -> Result<(), Fail> {
    let graph = read(rt.alloc(), graph_texts::ADD).expect(&rt, "it is a graph");
    let checked = check(graph).expect(&rt, "it is well formed");
    let object = Object::open(objects::ADD).expect(&rt, "it opens");
    let owners = code_map(rt.alloc(), &checked)?;
    let mut text = Vec::new(rt.alloc());
    write_code_map(&mut text, &object, checked.graph(), &owners, None)?;
    assert!(rt;
        text.as_slice()
            == b"\
        code 0.0 for m continuation\n\
        code 0.1 for m node 0\n\
        code 0.2 for m node 1\n\
        code 0.3 for m node 2\n\
        code 0.4 for m output 0\n\
        code 0.5 for m release\n"
                .as_slice()
    );
    Ok(())
}

/// Owners by hand: each part, an iteration's code, a block that is not there, and places in a program.
#[test]
fn each_part(rt: HostRuntime) -> Result<(), Fail> {
    let graph = read(rt.alloc(), graph_texts::ADD).expect(&rt, "it is a graph");
    let object = Object::open(objects::ADD).expect(&rt, "it opens");
    let owners = [
        (0, false, Part::Node { node: 1 }),
        (0, true, Part::Node { node: 2 }),
        (0, true, Part::Turn),
        (0, false, Part::Joins { node: 3 }),
        (0, false, Part::Joins { node: 4 }),
        (1, false, Part::Output { output: 7 }),
    ]
    .map(|(block, turns, part)| Owner { block, turns, part });
    let places = [Places {
        block: 0,
        inputs: 2,
        nodes: vec![in rt.alloc(); 5, 2]?,
    }];
    let program = ProgramPlaces {
        program: b"a\nbc d",
        places: &places,
    };
    let mut text = Vec::new(rt.alloc());
    write_code_map(&mut text, &object, &graph, &owners, Some(program))?;
    assert!(rt;
        text.as_slice()
            == b"\
        code 0.0 for m node 1\n\
        code 0.1 for m iteration node 2 line 2 column 4\n\
        code 0.2 for m iteration turn\n\
        code 0.3 for m joins 3 line 2 column 1\n\
        code 0.4 for m joins 4\n\
        code 0.5 for  output 7\n"
                .as_slice()
    );
    Ok(())
}
