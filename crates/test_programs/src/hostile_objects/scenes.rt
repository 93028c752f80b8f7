//! Well-formed objects that no compiler wrote. Their end is the same in every order.

use crate::hostile_objects::object::{Dest, Line, MARK, NONE, entry, push_line};
use semantics::report::End;
use std::alloc::{AllocError, Global};

const ADD: u64 = 1;

const COPY: u64 = 18;

const FETCH: u64 = 21;

const FRAME: u64 = 23;

const LINK: u64 = 24;

const OPEN: u64 = 28;

const RELEASE: u64 = 32;

const RETURN: u64 = 26;

const SEND: u64 = 25;

const STORE: u64 = 22;

const SWITCH: u64 = 20;

const TAKE: u64 = 29;

/// An instruction: its opcode, its slot, its two destinations, and its operand.
type Spelt = (u64, u64, Dest, Dest, u64);

/// The number of a block's inputs, the number of its slots, and its instructions. It has one output.
type Block = (u64, u64, &'static [Spelt]);

/// How a run ends; and, where it comes to rest or starves, how many requests for frames and for credits wait then, and how many
/// readers.
#[derive(Clone, Copy)]
pub struct Wanted {
    pub end: End,
    pub waiting_frames: u64,
    pub waiting_credits: u64,
    pub deferred: u64,
}

/// An object, with the end that is wanted where there is one frame in all, and where there are more. The inputs are 2 and 3.
#[derive(Clone, Copy)]
pub struct Scene {
    pub name: &'static str,
    blocks: &'static [Block],
    pub arrays: &'static [u64],
    pub alone: Wanted,
    pub among: Wanted,
}

const LACKS_A_FRAME: Wanted = Wanted {
    end: End::Starved,
    waiting_frames: 1,
    waiting_credits: 0,
    deferred: 0,
};

const GOES_ON: Wanted = Wanted {
    end: End::Steps,
    waiting_frames: 0,
    waiting_credits: 0,
    deferred: 0,
};

const FREES_A_FREE_FRAME: Wanted = Wanted {
    end: End::Stuck { rule: 5 },
    waiting_frames: 0,
    waiting_credits: 0,
    deferred: 0,
};

const RESTS: Wanted = Wanted {
    end: End::Rest,
    waiting_frames: 0,
    waiting_credits: 0,
    deferred: 0,
};

const CLASHES: Wanted = Wanted {
    end: End::Clash { array: 0, index: 2 },
    waiting_frames: 0,
    waiting_credits: 0,
    deferred: 0,
};

const FINDS_THE_SLOT_IN_USE: Wanted = Wanted {
    end: End::Stuck { rule: 3 },
    waiting_frames: 0,
    waiting_credits: 0,
    deferred: 0,
};

const LACKS_A_CREDIT: Wanted = Wanted {
    end: End::Starved,
    waiting_frames: 0,
    waiting_credits: 1,
    deferred: 0,
};

const FILLS_AN_OUTPUT_TWICE: Wanted = Wanted {
    end: End::Stuck { rule: 6 },
    waiting_frames: 0,
    waiting_credits: 0,
    deferred: 0,
};

const WAITS_FOR_A_CELL: Wanted = Wanted {
    end: End::Rest,
    waiting_frames: 0,
    waiting_credits: 0,
    deferred: 1,
};

const BRINGS_ANOTHER_KIND: Wanted = Wanted {
    end: End::Stuck { rule: 4 },
    waiting_frames: 0,
    waiting_credits: 0,
    deferred: 0,
};

const FINDS_NO_INSTRUCTION: Wanted = Wanted {
    end: End::Stuck { rule: 1 },
    waiting_frames: 0,
    waiting_credits: 0,
    deferred: 0,
};

/// All the scenes.
pub const SCENES: [Scene; 14] = [
    // Each invocation asks for a frame and links the block into it; no frame is given back.
    Scene {
        name: "frames asked for without end",
        blocks: &[(
            1,
            0,
            &[
                (COPY, 0, (2, 0), NONE, 0),
                (COPY, 0, NONE, NONE, 0),
                (FRAME, 0, (1, 0), NONE, 0),
                (LINK, 0, (1, 0), NONE, 0),
                (COPY, 0, NONE, NONE, 0),
            ],
        )],
        arrays: &[],
        alone: LACKS_A_FRAME,
        among: LACKS_A_FRAME,
    },
    // Each invocation asks for a frame, links the block into it, and gives its own frame back.
    Scene {
        name: "frames asked for and given back without end",
        blocks: &[(
            1,
            1,
            &[
                (COPY, 0, (2, 0), (4, 0), 0),
                (COPY, 0, NONE, NONE, 0),
                (FRAME, 0, (1, 0), NONE, 0),
                (LINK, 0, (2, 0), (1, 1), 0),
                (RELEASE, 0, NONE, NONE, 1),
                (COPY, 0, NONE, NONE, 0),
                (COPY, 0, NONE, NONE, 0),
            ],
        )],
        arrays: &[],
        alone: LACKS_A_FRAME,
        among: GOES_ON,
    },
    Scene {
        name: "a frame given back twice",
        blocks: &[(
            1,
            2,
            &[
                (COPY, 0, (2, 0), (3, 0), 0),
                (COPY, 0, (1, 1), (2, 1), 0),
                (RELEASE, 0, NONE, NONE, 0),
                (RELEASE, 1, NONE, NONE, 1),
            ],
        )],
        arrays: &[],
        alone: FREES_A_FREE_FRAME,
        among: FREES_A_FREE_FRAME,
    },
    // Each invocation asks for a frame; only the first one gives its frame back.
    Scene {
        name: "a frame given back while it asks for another",
        blocks: &[(
            1,
            1,
            &[
                (COPY, 0, (2, 0), (4, 0), 0),
                (COPY, 0, (3, 1), NONE, 0),
                (FRAME, 0, (1, 0), NONE, 0),
                (LINK, 0, (2, 0), NONE, 0),
                (RELEASE, 0, NONE, NONE, 1),
                (COPY, 0, NONE, NONE, 0),
                (COPY, 0, NONE, NONE, 0),
            ],
        )],
        arrays: &[],
        alone: LACKS_A_FRAME,
        among: LACKS_A_FRAME,
    },
    // The sum is made and returned in a frame that may be free already.
    Scene {
        name: "a frame given back while it adds",
        blocks: &[(
            2,
            3,
            &[
                (COPY, 0, (3, 0), (5, 0), 0),
                (COPY, 0, (3, 0), (2, 1), 0),
                (COPY, 0, (2, 1), NONE, 0),
                (RELEASE, 0, NONE, NONE, 1),
                (ADD, 1, (1, 1), NONE, 0),
                (RETURN, 2, NONE, NONE, 0),
            ],
        )],
        arrays: &[],
        alone: RESTS,
        among: RESTS,
    },
    Scene {
        name: "two stores of a cell",
        blocks: &[(
            2,
            2,
            &[
                (COPY, 0, NONE, NONE, 0),
                (COPY, 0, (2, 0), (3, 0), 0),
                (COPY, 0, (1, 1), (2, 1), 0),
                (STORE, 0, (2, 0), NONE, 0),
                (STORE, 1, (1, 0), NONE, 0),
                (COPY, 0, NONE, NONE, 0),
            ],
        )],
        arrays: &[4],
        alone: CLASHES,
        among: CLASHES,
    },
    // A block gives its frame back at once, and then gets one more word.
    Scene {
        name: "a word for a frame that is not out",
        blocks: &[
            (
                1,
                2,
                &[
                    (COPY, 0, (2, 0), NONE, 0),
                    (COPY, 0, (3, 1), NONE, 0),
                    (FRAME, 0, (1, 0), NONE, 0),
                    (COPY, 0, (1, 0), (2, 0), 0),
                    (SEND, 0, NONE, NONE, 65537),
                    (COPY, 0, (1, 0), (3, 0), 0),
                    (LINK, 0, (1, 0), NONE, 1),
                    (COPY, 0, (1, 1), NONE, 0),
                    (SEND, 1, NONE, NONE, 65537),
                ],
            ),
            (
                1,
                1,
                &[
                    (COPY, 0, (2, 0), NONE, 0),
                    (COPY, 0, (1, 1), NONE, 0),
                    (RELEASE, 0, NONE, NONE, 0),
                ],
            ),
        ],
        arrays: &[],
        alone: LACKS_A_FRAME,
        among: RESTS,
    },
    Scene {
        name: "a credit of no loop",
        blocks: &[(
            1,
            1,
            &[
                (COPY, 0, (2, 0), NONE, 0),
                (COPY, 0, NONE, NONE, 0),
                (TAKE, 0, NONE, NONE, 2),
            ],
        )],
        arrays: &[],
        alone: FINDS_THE_SLOT_IN_USE,
        among: FINDS_THE_SLOT_IN_USE,
    },
    Scene {
        name: "two requests for one credit",
        blocks: &[(
            1,
            2,
            &[
                (COPY, 0, (3, 0), NONE, 0),
                (COPY, 0, (1, 0), NONE, 0),
                (OPEN, 0, (1, 1), NONE, 2),
                (SWITCH, 1, NONE, (1, 0), 0),
                (COPY, 0, (1, 0), (2, 0), 0),
                (TAKE, 0, NONE, NONE, 2),
                (TAKE, 0, NONE, NONE, 2),
            ],
        )],
        arrays: &[],
        alone: LACKS_A_CREDIT,
        among: LACKS_A_CREDIT,
    },
    Scene {
        name: "a result that is returned twice",
        blocks: &[(
            1,
            2,
            &[
                (COPY, 0, (2, 0), (3, 0), 0),
                (COPY, 0, (1, 1), (2, 1), 0),
                (RETURN, 0, NONE, NONE, 0),
                (RETURN, 1, NONE, NONE, 0),
            ],
        )],
        arrays: &[],
        alone: FILLS_AN_OUTPUT_TWICE,
        among: FILLS_AN_OUTPUT_TWICE,
    },
    Scene {
        name: "words that double",
        blocks: &[(
            1,
            0,
            &[
                (COPY, 0, NONE, NONE, 0),
                (COPY, 0, (1, 0), (1, 0), 0),
                (COPY, 0, (1, 0), (1, 0), 0),
                (COPY, 0, (1, 0), (1, 0), 0),
                (COPY, 0, (1, 0), (1, 0), 0),
                (COPY, 0, (1, 0), (1, 0), 0),
                (COPY, 0, (1, 0), (1, 0), 0),
                (COPY, 0, (1, 0), (1, 0), 0),
                (COPY, 0, (1, 0), (1, 0), 0),
                (COPY, 0, (1, 0), (1, 0), 0),
                (COPY, 0, (1, 0), (1, 0), 0),
                (COPY, 0, (1, 0), (1, 0), 0),
                (COPY, 0, (1, 0), (1, 0), 0),
                (COPY, 0, (1, 0), (1, 0), 0),
                (COPY, 0, (1, 0), (1, 0), 0),
                (COPY, 0, (1, 0), (1, 0), 0),
                (COPY, 0, (1, 0), (1, 0), 0),
                (COPY, 0, (1, 0), (1, 0), 0),
                (COPY, 0, (1, 0), (1, 0), 0),
                (COPY, 0, (1, 0), (1, 0), 0),
                (COPY, 0, (1, 0), (1, 0), 0),
                (COPY, 0, NONE, NONE, 0),
            ],
        )],
        arrays: &[],
        alone: GOES_ON,
        among: GOES_ON,
    },
    Scene {
        name: "a cell that nothing fills",
        blocks: &[(
            1,
            0,
            &[
                (COPY, 0, NONE, NONE, 0),
                (COPY, 0, (1, 0), NONE, 0),
                (FETCH, 0, (1, 0), NONE, 0),
                (COPY, 0, NONE, NONE, 0),
            ],
        )],
        arrays: &[4],
        alone: WAITS_FOR_A_CELL,
        among: WAITS_FOR_A_CELL,
    },
    Scene {
        name: "a continuation that is added",
        blocks: &[(
            1,
            1,
            &[
                (COPY, 0, (2, 0), NONE, 0),
                (COPY, 0, (1, 1), NONE, 0),
                (ADD, 0, NONE, NONE, 0),
            ],
        )],
        arrays: &[],
        alone: BRINGS_ANOTHER_KIND,
        among: BRINGS_ANOTHER_KIND,
    },
    Scene {
        name: "a return after the last instruction",
        blocks: &[
            (
                1,
                1,
                &[
                    (COPY, 0, (2, 0), NONE, 0),
                    (COPY, 0, (3, 1), NONE, 0),
                    (FRAME, 0, (1, 0), NONE, 0),
                    (COPY, 0, (1, 0), (2, 0), 0),
                    (SEND, 0, NONE, NONE, 65537),
                    (LINK, 0, (1, 0), NONE, 1),
                    (COPY, 0, NONE, NONE, 0),
                ],
            ),
            (
                1,
                1,
                &[
                    (COPY, 0, (2, 0), NONE, 0),
                    (COPY, 0, (1, 1), NONE, 0),
                    (RETURN, 0, NONE, NONE, 200),
                ],
            ),
        ],
        arrays: &[],
        alone: LACKS_A_FRAME,
        among: FINDS_NO_INSTRUCTION,
    },
];

impl Scene {
    /// How many inputs main has.
    pub fn inputs(self) -> u64 {
        match self.blocks.first() {
            Some((inputs, _slots, _lines)) => *inputs,
            None => 0,
        }
    }
}

/// The words of the scene's object.
pub fn words_of_scene(alloc: Global, scene: Scene) -> Result<Vec<u64>, AllocError> {
    let mut words = Vec::new(alloc);
    let blocks = scene.blocks.len() as u64;
    let arrays = scene.arrays.len() as u64;
    words.extend_from_slice(&[MARK, 1, blocks, 0, arrays, 0])?;
    for (inputs, slots, lines) in scene.blocks {
        words.push(entry(lines.len(), *inputs, 1, *slots))?;
    }
    for (_inputs, _slots, lines) in scene.blocks {
        for (opcode, slot, first, second, operand) in *lines {
            let line = Line {
                opcode: *opcode,
                flag: 0,
                slot: *slot,
                first: *first,
                second: *second,
                operand: *operand,
            };
            push_line(&mut words, line)?;
        }
    }
    words.extend_from_slice(scene.arrays)?;
    Ok(words)
}
