// What a burst line sends.
ghost use Rattle.std.specs.Prelude.{◌≡◌, ◌≤◌, ◌∷◌, length};
ghost use Rattle.bench_lines.specs.Commands.{burst_line, as_burst};

use crate::digits::byte;
use std::marker::Model;

// 1 to 32 bytes. An array with a count, since commands are Copy, for callers too, which an ArrayVec is not. Zeros fill it up, so that the bytes
// alone say which payload it is.
#[derive(Clone, Copy)]
pub struct Payload {
    bytes: [u8; 32],
    count: usize,
}

impl Model for Payload {
    ghost use Rattle.std.specs.Prelude.{◌≡◌, ℕ, ◌≤◌, ◌-◌, List, ◌++◌, length, take, drop, replicate};
    ghost use Rattle.std.proofs.Common.{ap, sym, ◌∙◌, arith, length-take-le, take-append-drop};

    ghost Value = { List ℕ };

    ghost view = { λ p. take p.count p.bytes };

    ghost invariant = { λ p. (1 ≤ p.count) × (p.count ≤ 32) × (length p.bytes ≡ 32) × (drop p.count p.bytes ≡ replicate (32 - p.count) 0) };

    ghost inverse = { λ bs. record { bytes = bs ++ replicate (32 - length bs) 0; count = length bs } };

    ghost inverse_ok = { λ p h i. let count = length-take-le p.count p.bytes (omega (arith, h.1, h.2)) in record {
      bytes = (ap (λ k. take p.count p.bytes ++ replicate (32 - k) 0) count ∙ ap (λ zs. take p.count p.bytes ++ zs) (sym h.3) ∙ take-append-drop p.count p.bytes) i;
      count = count i;
    } };
}

impl Payload {
    // What the digits of a burst line send, or none where they are not those of 1 to 32 bytes.
    pub(crate) fn from_digits(digits: &[u8]) -> Option<Payload>
        ensures { as_burst result ≡ burst_line (66 ∷ 32 ∷ digits.now) }
    {
        let (pairs, rest) = digits.as_chunks::<2>();
        if pairs.is_empty() || pairs.len() > 32 || !rest.is_empty() {
            return None;
        }
        let mut bytes = [0u8; 32];
        for (i, [high, low]) in pairs.iter().enumerate() {
            bytes[i] = byte(*high, *low)?;
        }
        Some(Payload {
            bytes,
            count: pairs.len(),
        })
    }

    // The bytes that are sent, in their order.
    pub fn bytes(&self) -> &[u8]
        ensures sent { result.now ≡ self.now }
        ensures count { (1 ≤ length result.now) × (length result.now ≤ 32) }
    {
        &self.bytes[..self.count]
    }
}
