//! The remainders of the register's states, without a division for each.

ghost use Rattle.std.specs.Prelude.{◌≡◌, ◌+◌, ◌/◌, ◌%◌, ◌^◌, ◌<◌, ◌≤◌};
ghost use Rattle.frag_model.specs.Limits.{max_pieces};

/// Returns a little more than 2^36 over the modulus.
pub fn reciprocal_of(modulus: u16) -> u64
    requires some { 0 < modulus }
    requires most { modulus ≤ max_pieces + 1 }
    ensures { result ≡ 2 ^ 36 / modulus + 1 }
{
    (1 << 36) / modulus as u64 + 1
}

/// Returns the remainder of `x`. A state has 23 bits and a modulus 13, so 36 bits of the reciprocal give the whole quotient.
#[tactic(auto, using(crate::proofs::Reciprocal::quotient))]
pub fn residue(x: u32, modulus: u16, reciprocal: u64) -> u16
    requires state { x < 2 ^ 23 }
    requires some { 0 < modulus }
    requires most { modulus ≤ max_pieces + 1 }
    requires reciprocal { reciprocal ≡ 2 ^ 36 / modulus + 1 }
    ensures { result ≡ x % modulus }
{
    let quotient = (x as u64 * reciprocal >> 36) as u32;
    (x - quotient * modulus as u32) as u16
}
