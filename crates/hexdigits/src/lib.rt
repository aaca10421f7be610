// Bytes written as hex digits, two small ones for each byte: how the programs that try many plant files are given them.
#![tactic(auto)]

ghost use Rattle.std.specs.Prelude.{◌≡◌, ℕ, List, IfOk, MatchOption};
ghost use Rattle.hexdigits.specs.Hex.{digit_value, Pair, Writes};

use std::alloc::{AllocError, Global};

// The value of a hex digit.
fn digit(b: u8) -> Option<u8>
    ensures { result ≡ digit_value b }
{
    match b {
        b'0'..=b'9' => Some(b - b'0'),
        b'a'..=b'f' => Some(b - b'a' + 10),
        _ => None,
    }
}

// The byte that two hex digits write, or nothing where they write none.
fn byte(high: u8, low: u8) -> Option<u8>
    ensures { MatchOption result ((b : ℕ) → Pair high low b → ⊥) (λ b. Pair high low b) }
{
    Some(digit(high)? * 16 + digit(low)?)
}

// The bytes that hex digits write, or nothing where they write none.
pub fn bytes_of(heap: Global, digits: &[u8]) -> Result<Option<Vec<u8>>, AllocError>
    ensures { IfOk result (λ o. MatchOption o ((bs : List ℕ) → Writes digits.now bs → ⊥) (λ v. Writes digits.now v.items)) }
{
    let (pairs, odd) = digits.as_chunks::<2>();
    if !odd.is_empty() {
        return Ok(None);
    }
    let mut bytes = Vec::new(heap);
    for [high, low] in pairs {
        let Some(b) = byte(*high, *low) else {
            return Ok(None);
        };
        bytes.push(b)?;
    }
    Ok(Some(bytes))
}
