//! How many graphs or objects a part makes, and which.

/// How many graphs or objects a part makes, where its words say that, and their seed.
#[derive(Clone, Copy)]
pub struct Sizes {
    pub count: Option<u64>,
    pub seed: u64,
}

/// What the words of a part say: a count, and after it a seed, which is 0 where it is left out. `None` where they say something else.
pub fn sizes_in(words: &[String]) -> Option<Sizes> {
    let mut count = None;
    let mut seed = 0;
    for (place, word) in words.iter().enumerate() {
        let number: u64 = word.parse().ok()?;
        match place {
            0 => count = Some(number),
            1 => seed = number,
            _ => return None,
        }
    }
    Some(Sizes { count, seed })
}
