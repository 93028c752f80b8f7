//! Profiles as texts and pictures.

use graph_file::read;
use oracle::{MeanEnd, WaveReport};
use profile_text::{MachineRow, Sufficient, write_profile, write_svg};
use semantics::report::End;
use semantics::version::Version;
use std::alloc::{AllocError, Global};
use std::test::Fail;
use test_inputs::rationed::Rationed;

/// Memory that counts how often it is asked.
type Heap<'h> = &'h Rationed<Global>;

/// The waves of a sum of eight inputs, by pairs.
const TREE: &[u64] = &[8, 4, 2, 1, 1];

const TEXT: &[u8] = b"work 16
span 5
parallelism 3.20
wave 1 8
wave 2 4
wave 3 2
wave 4 1
wave 5 1
elements 1 rounds 17 tokens 9 slots 7 frames 1
elements 2 rounds 6 tokens 8 slots 7 frames 1 end Starved
elements 3 rounds 6 tokens 8 slots 7 frames 1 end Clash A 20
elements 4 rounds 6 tokens 8 slots 7 frames 1 end Steps
elements 5 rounds 6 tokens 8 slots 7 frames 1 end Stuck 3
elements 6 rounds 6 tokens 8 slots 7 frames 1 end Memory
elements 7 rounds 6 tokens 8 slots 7 frames 1 end Stop
elements 8 rounds 6 tokens 8 slots 7 frames 1
frames that suffice in every order where each loop's bound is at least 5: 8
steps that suffice in every order where each loop's bound is at least 5: 529
end Rest
";

const WITHOUT_LOOPS: &[u8] = b"work 0
span 0
parallelism 0.00
frames that suffice in every order: 1
steps that suffice in every order: 340282366920938463463374607431768211455
end Rest
";

const BARS: &[u8] = b"<rect x=\"0\" width=\"160\" height=\"300\"/>
<rect x=\"160\" width=\"160\" height=\"150\"/>
<rect x=\"320\" width=\"160\" height=\"75\"/>
<rect x=\"480\" width=\"160\" height=\"37\"/>
<rect x=\"640\" width=\"160\" height=\"37\"/>
</g>
</svg>
";

/// A graph without blocks, with two arrays.
const GRAPH: &[u8] = b"etsgraph 2\narray B 10\narray A 30\nmain m\n";

fn waves_of<'h>(heap: Heap<'h>, counts: &[u64]) -> Result<WaveReport<Heap<'h>>, AllocError> {
    Ok(WaveReport {
        end: MeanEnd::Rest,
        counts: Vec::from_slice(heap, counts)?,
    })
}

/// A row of a run that ended so.
fn row(elements: u64, end: End) -> MachineRow {
    MachineRow {
        elements,
        rounds: 6,
        tokens: 8,
        slots: 7,
        frames: 1,
        end,
        waiting_frames: 5,
        waiting_credits: 4,
    }
}

#[test]
fn writes_a_profile(rt: HostRuntime) -> Result<(), Fail> {
    let clash = End::Clash {
        array: 1,
        index: 20,
    };
    let rows = [
        MachineRow {
            elements: 1,
            rounds: 17,
            tokens: 9,
            slots: 7,
            frames: 1,
            end: End::Rest,
            waiting_frames: 0,
            waiting_credits: 0,
        },
        row(2, End::Starved),
        row(3, clash),
        row(4, End::Steps),
        row(5, End::Stuck { rule: 3 }),
        row(6, End::Memory),
        row(7, End::Stop),
        row(8, End::Rest),
    ];
    let heap = Rationed::new(rt.alloc(), 0);
    let graph = read(&heap, GRAPH)?;
    let waves = waves_of(&heap, TREE)?;
    let left = heap.left();
    let mut text = Vec::new(rt.alloc());
    let seven_called = Sufficient {
        frames: 8,
        steps: 529,
        iterations: 5,
    };
    write_profile(&mut text, &graph, &waves, &rows, Some(seven_called))?;
    assert_eq!(&rt; text.as_slice(), TEXT);
    assert_eq!(&rt; heap.left(), left);
    // Without waves there is no parallelism.
    let nothing = waves_of(&heap, &[])?;
    text.clear();
    write_profile(&mut text, &graph, &nothing, &[], None)?;
    assert_eq!(&rt;
        text.as_slice(),
        b"work 0\nspan 0\nparallelism 0.00\nend Rest\n".as_slice()
    );
    Ok(())
}

#[test]
fn says_what_suffices_without_loops(rt: HostRuntime) -> Result<(), Fail> {
    let heap = Rationed::new(rt.alloc(), 0);
    let graph = read(&heap, GRAPH)?;
    let nothing = waves_of(&heap, &[])?;
    let one_frame = Sufficient {
        frames: 1,
        steps: 340_282_366_920_938_463_463_374_607_431_768_211_455,
        iterations: 0,
    };
    let mut text = Vec::new(rt.alloc());
    write_profile(&mut text, &graph, &nothing, &[], Some(one_frame))?;
    assert_eq!(&rt; text.as_slice(), WITHOUT_LOOPS);
    Ok(())
}

#[test]
fn draws_waves(rt: HostRuntime) -> Result<(), Fail> {
    let mut picture = Vec::new(rt.alloc());
    write_svg(&mut picture, TREE)?;
    assert!(&rt; picture.as_slice().starts_with(b"<svg xmlns="));
    assert!(&rt; picture.as_slice().ends_with(BARS));
    // 401 waves make 201 bars, of two waves each, and the last of one alone.
    let mut counts: Vec<u64, _> = Vec::new(rt.alloc());
    for wave in 0..401u64 {
        counts.push(wave)?;
    }
    picture.clear();
    write_svg(&mut picture, &counts)?;
    let last = b"<rect x=\"796\" width=\"4\" height=\"300\"/>\n</g>\n</svg>\n";
    assert!(&rt; picture.as_slice().ends_with(last.as_slice()));
    Ok(())
}
