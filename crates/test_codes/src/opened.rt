//! An object that adds its two inputs: it is opened, upgraded and written.

use object_view::{Object, ObjectFault, upgrade, write};
use std::alloc::Global;
use test_inputs::rationed::Rationed;
use test_inputs::rationed::writer::{Failure, Taker};

/// Adds two inputs.
fn adds() -> [u8; 152] {
    let mut bytes = [0u8; 152];
    let words: [u64; 19] = [
        0x5443_4a42_4f53_5445,
        1,
        1,
        0,
        0,
        0,
        0x0003_0102_0000_0006,
        0x0005_0004_0000_0012,
        0,
        0x0000_0002_0000_0012,
        0,
        0x0000_8001_0000_0012,
        0,
        0x0000_8001_0000_0001,
        0,
        0x0000_8001_0001_001a,
        0,
        0x0000_0000_0002_0020,
        1,
    ];
    for (place, byte) in bytes.iter_mut().enumerate() {
        *byte = words[place / 8].to_le_bytes()[place % 8];
    }
    bytes
}

fn refusal(bytes: &[u8]) -> Option<ObjectFault> {
    match Object::open(bytes) {
        Ok(_) => None,
        Err(fault) => Some(fault),
    }
}

/// Takes `room` bytes, one for each call, and then fails.
fn with_room(alloc: Global, room: usize) -> Taker {
    Taker::new(alloc, 1, room, Failure::Broken)
}

#[test]
fn upgrades(rt: HostRuntime) {
    let mut bytes = adds();
    let mut out = with_room(rt.alloc(), 152);
    let object = Object::open(&bytes).expect(&rt, "it opens");
    assert!(rt; upgrade(&object, &mut out).is_ok());
    for room in 0..152usize {
        let mut cut = with_room(rt.alloc(), room);
        assert!(rt; upgrade(&object, &mut cut).is_err());
        assert_eq!(rt; cut.taken.len(), room);
    }
    bytes[8] = 2;
    assert_eq!(rt; out.taken.as_slice(), bytes.as_slice());
    assert_eq!(rt; refusal(&out.taken), None);
    let mut again = with_room(rt.alloc(), 152);
    let upgraded = Object::open(&out.taken).expect(&rt, "it opens");
    assert!(rt; upgrade(&upgraded, &mut again).is_ok());
    assert_eq!(rt; again.taken.as_slice(), bytes.as_slice());
}

#[test]
fn origins(rt: HostRuntime) {
    let mut bytes = adds();
    bytes[104] = 4;
    bytes[116] = 3;
    assert_eq!(rt; refusal(&bytes), Some(ObjectFault::BadOpcode));
    bytes[8] = 2;
    let object = Object::open(&bytes).expect(&rt, "it opens");
    let instr = object.instr(3).expect(&rt, "it is there");
    assert_eq!(rt; instr.origin.code(), 3);
    assert!(rt; object.instr(6).is_none());
}

#[test]
fn writes_what_was_taken_apart(rt: HostRuntime) {
    let bytes = adds();
    let object = Object::open(&bytes).expect(&rt, "it opens");
    let heap = Rationed::new(rt.alloc(), 0);
    let code = object.to_code(&heap).expect(&rt, "there is memory");
    let left = heap.left();
    for room in 0..153usize {
        let mut out = with_room(rt.alloc(), room);
        let written = write(&code, object.version(), &mut out);
        assert_eq!(rt; written.is_ok(), room == 152);
        assert_eq!(rt; out.taken.len(), room);
    }
    assert_eq!(rt; heap.left(), left);
}
