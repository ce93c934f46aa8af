/// The version of LoRaWAN by which the root key of a device is made (TS005-1.0.0, Multicast security).
#[derive(Clone, Copy, Debug, PartialEq, Eq)]
pub enum RootKind {
    /// LoRaWAN 1.0: from GenAppKey.
    V10,
    /// LoRaWAN 1.1: from AppKey.
    V11,
}
