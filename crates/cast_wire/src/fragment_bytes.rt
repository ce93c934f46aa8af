//! The bytes of one fragment.

ghost use Rattle.std.specs.Prelude.{◌≡◌, ◌≤◌, ◌↔◌, length, nat_eq, IsTrue};
ghost use Rattle.std.specs.Cmp.{partial_equiv_from_equiv};
ghost use Rattle.std.specs.Cmp.Lexicographic.{pointwise, nat_list_eq_equiv};
ghost use Rattle.cast_wire.specs.Limits.{max_fragment};

use std::marker::Model;

/// The most bytes that a fragment has: a payload's 242 without the command's first three.
pub const MAX_FRAGMENT: usize = 239;

/// The bytes of a fragment (TS004-1.0.0, DataFragment), at most `MAX_FRAGMENT`, borrowed. Contracts see their list.
#[derive(Debug, Drop)]
pub struct FragmentBytes<'a> {
    bytes: &'a [u8],
}

impl<'a> Model for FragmentBytes<'a> {
    ghost use Rattle.std.specs.Prelude.{ℕ, List, ◌≤◌, length};
    ghost use Rattle.cast_wire.specs.Limits.{max_fragment};

    ghost Value = { List ℕ };

    ghost view = { λ f. f.bytes.now };

    ghost invariant = { λ f. length f.bytes.now ≤ max_fragment };
}

impl<'a> FragmentBytes<'a> {
    /// Says whether these bytes make a fragment: there are at most `MAX_FRAGMENT`.
    pub fn fits(bytes: &[u8]) -> bool
        ensures { IsTrue result ↔ (length bytes.now ≤ max_fragment) }
    {
        bytes.len() <= MAX_FRAGMENT
    }

    /// Makes a fragment of these bytes.
    #[inline(always)]
    pub fn from_slice(bytes: &'a [u8]) -> Self
        requires { length bytes.now ≤ max_fragment }
        ensures { result ≡ bytes.now }
    {
        FragmentBytes { bytes }
    }

    /// Returns the bytes.
    pub fn as_slice(&self) -> &'a [u8]
        ensures value { result.now ≡ self.now }
        ensures within { length result.now ≤ max_fragment }
    {
        self.bytes
    }
}

impl<'a> PartialEq for FragmentBytes<'a> {
    ghost eq = { pointwise nat_eq };

    ghost laws = { partial_equiv_from_equiv nat_list_eq_equiv };

    fn eq(&self, other: &Self) -> bool {
        self.bytes == other.bytes
    }
}
