// Bytes to words and back.
ghost use Rattle.std.specs.Prelude.{◌≡◌, IfOk};
ghost use Rattle.octets.specs.Packing.{words_of, packed};

use std::alloc::{AllocError, Global};

// The words in the bytes; a last word that is cut short is 0, a word of no kind.
pub fn words_in(heap: Global, bytes: &[u8]) -> Result<Vec<u32>, AllocError>
    ensures { IfOk result (λ v. v.items ≡ words_of bytes.now) }
{
    let (whole, rest) = bytes.as_chunks::<4>();
    let mut words: Vec<u32> = whole
        .iter()
        .map(|word| u32::from_le_bytes(*word))
        .collect(heap)?;
    if !rest.is_empty() {
        words.push(0)?;
    }
    Ok(words)
}

// The words as bytes.
pub fn bytes_of(heap: Global, words: &[u32]) -> Result<Vec<u8>, AllocError>
    ensures { IfOk result (λ v. v.items ≡ packed words.now) }
{
    let mut bytes = Vec::new(heap);
    for word in words {
        bytes.extend_from_slice(&word.to_le_bytes())?;
    }
    Ok(bytes)
}
