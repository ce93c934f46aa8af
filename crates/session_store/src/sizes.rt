//! The sizes of a device's sessions.

ghost use Rattle.std.specs.Prelude.{◌≡◌};
ghost use Rattle.session_store.specs.Size.{size_with, size_for};

/// What each session of a device has room for.
#[derive(Clone, Copy, Debug, PartialEq, Eq)]
pub enum SessionSize {
    /// 256 pieces, and 16 rows of 256 columns and 48 bytes.
    Small,
    /// 1,024 pieces, and 64 rows of 1,024 columns and 48 bytes.
    Middle,
    /// 4,096 pieces, and 16 rows of 4,096 columns and 239 bytes.
    Rows16,
    /// 4,096 pieces, and 64 rows of 4,096 columns and 239 bytes.
    Rows64,
    /// 4,096 pieces, and 256 rows of 4,096 columns and 239 bytes: any file.
    Large,
}

/// The most pieces of a small session.
pub const SMALL_PIECES: u16 = 256;

/// The words of 64 coefficients for the rows of a small session: 16 rows of 256 columns.
pub const SMALL_WORDS: usize = 64;

/// The bytes for the rows of a small session: 16 rows of 48 bytes.
pub const SMALL_BYTES: usize = 768;

/// The most pieces of a session of the middle size.
pub const MIDDLE_PIECES: u16 = 1_024;

/// The words for its rows: 64 rows of 1,024 columns.
pub const MIDDLE_WORDS: usize = 1_024;

/// The bytes for its rows: 64 rows of 48 bytes.
pub const MIDDLE_BYTES: usize = 3_072;

/// The words for 16 rows of 4,096 columns.
pub const ROWS16_WORDS: usize = 1_024;

/// The bytes for 16 rows of 239 bytes.
pub const ROWS16_BYTES: usize = 3_824;

/// The words for 64 rows of 4,096 columns.
pub const ROWS64_WORDS: usize = 4_096;

/// The bytes for 64 rows of 239 bytes.
pub const ROWS64_BYTES: usize = 15_296;

/// The words for the rows of a large session: 256 rows of 4,096 columns.
pub const ROW_WORDS: usize = 16_384;

/// The bytes for its rows: 256 rows of 239 bytes.
pub const ROW_BYTES: usize = 61_184;

/// Returns the least size that has so many rows (at most 256) for any file.
pub fn size_for(rows: u16) -> SessionSize
    ensures { size_with result ≡ size_for rows }
{
    if rows <= 16 {
        SessionSize::Rows16
    } else if rows <= 64 {
        SessionSize::Rows64
    } else {
        SessionSize::Large
    }
}
