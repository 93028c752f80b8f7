//! Graphs that tests of several crates run. Each text is here once, without inputs after it.

use crate::pieces::changed;
use std::alloc::{AllocError, Global};

/// Adds its two inputs.
pub const ADD: &[u8] = b"etsgraph 1
block m 2 1
- add 0.0 1.0
out 2.0
end
main m
";

/// Gives two inputs to five operators.
pub const FIVE_RESULTS: &[u8] = b"etsgraph 1
block m 2 5
- sub 0.0 1.0
- add 0.0 1.0
- mul 0.0 1.0
- and 0.0 1.0
- lt 0.0 1.0
out 2.0 3.0 4.0 5.0 6.0
end
main m
";

/// The sign of its input, by a conditional in an arm of another one.
pub const SIGN: &[u8] = b"etsgraph 1
block m 1 1
- lit 0 0.0
- lt 0.0 1.0
- cond 2.0
3+ enter 0.0
3+ lit -1 4.0
3- enter 0.0
3- cond 6.0
7+ enter 6.0
7+ lit 1 8.0
7- enter 6.0
3- merge 7 9.0 10.0
- merge 3 5.0 11.0
out 12.0
end
main m
";

/// The factorial of its input, by recursion.
pub const FACTORIAL: &[u8] = b"etsgraph 1
block fact 1 1
- cond 0.0
1+ enter 0.0
1+ lit 1 2.0
1+ sub 2.0 3.0
1+ call fact 4.0
1+ mul 2.0 5.0
1- enter 0.0
1- lit 1 7.0
- merge 1 6.0 8.0
out 9.0
end
main fact
";

/// A call that gives its first result before its second argument arrives, which waits for that result.
pub const EARLY_RESULT: &[u8] = b"etsgraph 1
array A 1
block g 2 1
out 0.0
end
block m 2 2
- lit 0 0.0
- fetch A 2.0
- call g 0.0 3.0
- add 4.0 1.0
- store A 2.0 5.0
out 4.0 6.0
end
main m
";

/// Two readers of a cell, which is filled with the input.
pub const READERS: &[u8] = b"etsgraph 1
array A 2
block m 1 3
- lit 0 0.0
- fetch A 1.0
- fetch A 1.0
- store A 1.0 0.0
out 2.0 3.0 4.0
end
main m
";

/// A reader of a cell that is never filled.
pub const NEVER_FILLED: &[u8] = b"etsgraph 1
array A 2
block m 1 2
- lit 1 0.0
- fetch A 1.0
out 2.0 0.0
end
main m
";

/// Two stores of one cell.
pub const SECOND_STORE: &[u8] = b"etsgraph 1
array A 1
block m 2 2
- lit 0 0.0
- store A 2.0 0.0
- store A 2.0 1.0
out 3.0 4.0
end
main m
";

/// The sum of the numbers up to its input, by a loop of which two iterations may be under way.
pub const SUM_LOOP: &[u8] = b"etsgraph 1
block b 3 4
- lit 1 0.0
- add 0.0 3.0
- add 1.0 0.0
- le 4.0 2.0
out 6.0 4.0 5.0 2.0
end
block m 1 1
- lit 1 0.0
- lit 0 0.0
- loop b 2 1.0 2.0 0.0
out 3.1
end
main m
";

/// A loop in which each iteration reads the cell that the third one after it fills. Four iterations under way are enough, and
/// three are not.
pub const ARRAY_LOOP: &[u8] = b"etsgraph 1
array A 8
block b 2 3
- lit 1 0.0
- lit 3 0.0
- lit 5 0.0
- add 0.0 2.0
- add 0.0 3.0
- store A 0.0 0.0
- fetch A 6.0
- add 1.0 8.0
- lt 5.0 4.0
out 10.0 5.0 9.0
end
block m 1 1
- lit 0 0.0
- lit 5 0.0
- lit 6 0.0
- lit 7 0.0
- store A 2.0 2.0
- store A 3.0 3.0
- store A 4.0 4.0
- loop b 4 1.0 1.0
out 8.1
end
main m
";

/// As `EARLY_RESULT`, but the call is strict: it never starts.
pub const LATE_RESULT: &[u8] = b"etsgraph 2
array A 1
block g 2 1
out 0.0
end
block m 2 2
- lit 0 0.0
- fetch A 2.0
- scall g 0.0 3.0
- add 4.0 1.0
- store A 2.0 5.0
out 4.0 6.0
end
main m
";

/// A remainder in a called block; it is a fault where the second input is 0.
pub const INNER_FAULT: &[u8] = b"etsgraph 2
block g 2 1
- rem 0.0 1.0
out 2.0
end
block m 2 1
- call g 0.0 1.0
- add 2.0 0.0
out 3.0
end
main m
";

/// The graph with its inputs after it, in lines.
pub fn with_inputs(alloc: Global, text: &[u8], lines: &[u8]) -> Result<Vec<u8>, AllocError> {
    let mut input = Vec::from_slice(alloc, text)?;
    input.extend_from_slice(lines)?;
    Ok(input)
}

/// The graph, in whose text `new` takes the place of `old`.
pub fn with_change(
    alloc: Global,
    text: &[u8],
    old: &[u8],
    new: &[u8],
) -> Result<Vec<u8>, AllocError> {
    match changed(alloc, text, old, new)? {
        Some(changed) => Ok(changed),
        None => Vec::from_slice(alloc, text),
    }
}
