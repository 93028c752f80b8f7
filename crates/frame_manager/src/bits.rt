//! Sets of numbers as words of 64 bits.

ghost use Rattle.std.specs.Prelude.{◌≡◌, ◌≢◌, ◌==◌, ℕ, ◌*◌, ◌/◌, ◌^◌, ◌<◌, IfSome, IfNone, length, slice_index};
ghost use Rattle.frame_manager.specs.Bits.{bit_of, IsFirst};

/// Whether the number is in the set.
pub fn contains(words: &[u64], number: usize) -> bool
    ensures { result ≡ (bit_of words.now number == 1) }
{
    match words.get(number / 64) {
        Some(word) => (word >> (number % 64)) & 1 == 1,
        None => false,
    }
}

/// Puts a number into the set.
pub fn insert(words: &mut [u64], number: usize)
    requires { number / 64 < length words.old }
    ensures there { bit_of words.new number ≡ 1 }
    ensures others { (i : ℕ) → i ≢ number → bit_of words.new i ≡ bit_of words.old i }
    ensures elsewhere { (w : ℕ) → w ≢ number / 64 → slice_index words.new w ≡ slice_index words.old w }
{
    words[number / 64] |= 1 << (number % 64);
}

/// Takes a number out of the set.
pub fn remove(words: &mut [u64], number: usize)
    requires { number / 64 < length words.old }
    ensures gone { bit_of words.new number ≡ 0 }
    ensures empty { slice_index words.old (number / 64) ≡ 0 → slice_index words.new (number / 64) ≡ 0 }
    ensures others { (i : ℕ) → i ≢ number → bit_of words.new i ≡ bit_of words.old i }
    ensures elsewhere { (w : ℕ) → w ≢ number / 64 → slice_index words.new w ≡ slice_index words.old w }
{
    words[number / 64] &= !(1 << (number % 64));
}

/// The least number in the set.
pub fn first(words: &[u64]) -> Option<usize>
    requires { 64 * length words.now < 2 ^ 64 }
    ensures some { IfSome result (IsFirst words.now) }
    ensures none { IfNone result ((k : ℕ) → bit_of words.now k ≡ 0) }
{
    for (place, word) in words.iter().enumerate() {
        if *word != 0 {
            return Some(64 * place + word.trailing_zeros() as usize);
        }
    }
    None
}
