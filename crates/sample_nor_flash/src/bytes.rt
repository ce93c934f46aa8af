//! Bytes inverted, and compared.

ghost use Rattle.std.specs.Prelude.{◌≡◌, length};
ghost use Rattle.std.specs.Bool.{OnTrue};
ghost use Rattle.sample_nor_flash.specs.Cells.{Turns, Falls};

/// How many bytes are read at a time, and programmed.
pub const PAGE: usize = 256;

/// Inverts each bit.
pub fn turn(bytes: &mut [u8])
    ensures { Turns bytes.old bytes.new }
{
    for i in 0..bytes.len() {
        bytes[i] = 255 - bytes[i];
    }
}

/// Makes a page the piece, inverted.
pub fn turn_into(page: &mut [u8], piece: &[u8])
    requires { length page.old ≡ length piece.now }
    ensures { Turns piece.now page.new }
{
    page.copy_from_slice(piece);
    turn(page);
}

/// Says whether `new` has no bit that `old` lacks.
pub fn falls(old: &[u8], new: &[u8]) -> bool
    ensures { OnTrue result (Falls old.now new.now) }
{
    if old.len() != new.len() {
        return false;
    }
    for i in 0..new.len() {
        if old[i] & new[i] != new[i] {
            return false;
        }
    }
    true
}

/// Says whether all are 0.
pub fn are_zeros(bytes: &[u8]) -> bool {
    bytes.iter().all(|byte| *byte == 0)
}
