//! What is known of numbers by their type.

ghost use Rattle.afs_xdr.specs.Words.{AreWords};

/// Each number is a word. It takes no memory.
pub fn are_words(numbers: &[u32])
    ensures { AreWords numbers.now }
{
    let _ = numbers.len();
}
