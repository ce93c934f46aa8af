//! The sizes of a receiver and of a device's sessions, by number.

ghost use Rattle.std.specs.Prelude.{◌≡◌, ◌<◌, IfSome, IsNone};
ghost use Rattle.fuota_c.specs.Size.{size_number, sessions_of};

use session_store::SessionSize;

/// The sizes that C names.
#[derive(Clone, Copy)]
pub enum PartSize {
    Small,
    Middle,
    Large,
}

/// The size with a number.
pub fn size_of(number: u8) -> Option<PartSize>
    ensures some { IfSome result (λ size. number ≡ size_number size) }
    ensures none { IsNone result → 2 < number }
{
    match number {
        0 => Some(PartSize::Small),
        1 => Some(PartSize::Middle),
        2 => Some(PartSize::Large),
        _ => None,
    }
}

/// The size of a device's sessions.
pub fn sessions_of(size: PartSize) -> SessionSize
    ensures { result ≡ sessions_of size }
{
    match size {
        PartSize::Small => SessionSize::Small,
        PartSize::Middle => SessionSize::Middle,
        PartSize::Large => SessionSize::Large,
    }
}
