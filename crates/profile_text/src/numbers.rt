//! Numbers of a profile.

ghost use Rattle.std.specs.Prelude.{◌≡◌, take, drop};
ghost use Rattle.oracle.specs.Waves.{work};
ghost use Rattle.profile_text.specs.ProfileText.{whole_of, hundredths_of};
ghost use Rattle.profile_text.specs.Picture.{greatest, greatest_from, waves_a_bar, bar_count};

/// How many activities the waves have in all.
pub(crate) fn work_of(counts: &[u64]) -> u128
    ensures { result ≡ work counts.now }
{
    let mut total: u128 = 0;
    for count in counts {
        total += u128::from(*count);
    }
    total
}

/// A number with two decimals.
#[derive(Clone, Copy)]
pub(crate) struct Decimals {
    pub(crate) whole: u128,
    /// From 0 to 99.
    pub(crate) hundredths: u128,
}

/// The work over the span, rounded down, and 0 where there is no wave.
pub(crate) fn parallelism_of(work: u128, span: usize) -> Decimals
    ensures whole { result.whole ≡ whole_of work span }
    ensures hundredths { result.hundredths ≡ hundredths_of work span }
{
    if span == 0 {
        return Decimals {
            whole: 0,
            hundredths: 0,
        };
    }
    let span = span as u128;
    Decimals {
        whole: work / span,
        hundredths: work % span * 100 / span,
    }
}

/// The greatest of the numbers, and 0 where there is none.
pub(crate) fn greatest_of(counts: &[u64]) -> u64
    ensures { result ≡ greatest counts.now }
{
    let mut most: u64 = 0;
    for count in counts {
        if most < *count {
            most = *count;
        }
    }
    most
}

/// How many waves one bar has.
pub(crate) fn size_of_bar(waves: usize) -> usize
    ensures { result ≡ waves_a_bar waves }
{
    waves.saturating_sub(1) / 400 + 1
}

/// How many bars there are.
pub(crate) fn count_bars(waves: usize) -> usize
    ensures { result ≡ bar_count waves }
{
    if waves == 0 {
        return 0;
    }
    (waves - 1) / size_of_bar(waves) + 1
}

/// The first `size` numbers, and those after them.
pub(crate) fn split(counts: &[u64], size: usize) -> (&[u64], &[u64])
    ensures first { result.0.now ≡ take size counts.now }
    ensures rest { result.1.now ≡ drop size counts.now }
{
    if size < counts.len() {
        counts.split_at(size)
    } else {
        (counts, &[])
    }
}
