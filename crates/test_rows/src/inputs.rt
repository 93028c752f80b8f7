//! The input, and what follows the graph in it.

use commands::input::split_at_main;
use commands::serving::serve;
use rounds::Open;
use std::io::{self, Read};
use std::test::Fail;

#[test]
fn parts_input(rt: HostRuntime) -> Result<(), Fail> {
    let (graph, rest) = split_at_main(b"x\nmainly\nmain m\n1\nmain n\n");
    assert_eq!(rt; graph, b"x\nmainly\nmain m\n".as_slice());
    assert_eq!(rt; rest, b"1\nmain n\n".as_slice());
    let (graph, rest) = split_at_main(b"main m");
    assert_eq!(rt; graph, b"main m".as_slice());
    assert!(rt; rest.is_empty());
    Ok(())
}

/// Gives `left` bytes, whichever bytes are in the buffers already.
struct LongReader {
    left: u64,
}

impl Read for LongReader {
    fn read(&mut self, buffer: &mut [u8]) -> io::Result<usize> {
        let count = (buffer.len() as u64).min(self.left);
        self.left -= count;
        Ok(count as usize)
    }
}

#[test]
fn refuses_long_input(rt: HostRuntime) -> Result<(), Fail> {
    for (length, wanted) in [
        (67_108_864, b"refused: read NoHeader line 1\n".as_slice()),
        (67_108_865, b"refused: input\n".as_slice()),
    ] {
        let mut text = Vec::new(rt.alloc());
        let mut reader = LongReader { left: length };
        let status = serve(
            ["ets", "check"].as_slice(),
            &mut reader,
            &mut text,
            rt.alloc(),
            rt.alloc(),
            &rt,
            &Open,
        );
        let LongReader { left: _ } = reader;
        assert_eq!(rt; text.as_slice(), wanted);
        assert_eq!(rt; status, 1);
    }
    Ok(())
}
