//! The sections of a script.

/// What may come next in a script.
#[derive(Clone, Copy)]
pub enum Section {
    /// The header.
    Header,
    /// The image line.
    Image,
    /// The group line, or the first device.
    Group,
    /// The group's window line.
    Window,
    /// The first device.
    Device,
    /// A further device, an event, or the end.
    Devices,
    /// An event, or the end.
    Events,
    /// Nothing.
    Ended,
}
