// Words: the kind in the top 4 bits and the value in the low 28.
ghost use Rattle.std.specs.Prelude.{◌≡◌, ◌==◌};
ghost use Rattle.words.specs.Kinds.{kind_number, kind_in, value_in, word};

use crate::kind::Kind;
use crate::limits::VALUE_COUNT;

// The word of a kind and a value; of a value past 28 bits it holds the low 28.
pub fn word(kind: Kind, value: u32) -> u32
    ensures { result ≡ word kind value }
{
    u32::from(kind) * VALUE_COUNT + value_of(value)
}

// The low 28 bits.
pub fn value_of(bits: u32) -> u32
    ensures { result ≡ value_in bits }
{
    bits & 0x0fff_ffff
}

// Whether a word is of this kind.
pub fn is_of(bits: u32, kind: Kind) -> bool
    ensures { result ≡ (kind_in bits == kind_number kind) }
{
    bits >> 28 == u32::from(kind)
}
