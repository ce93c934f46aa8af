//! Ports, identifiers and lengths of the two packages.

/// The port of clock synchronization (TS003-1.0.0).
pub const CLOCK_PORT: u8 = 202;

/// The port of firmware management (TS006-1.0.0).
pub const FIRMWARE_PORT: u8 = 203;

/// PackageVersionReq and PackageVersionAns, on both ports. A request and its answer share an identifier.
pub const PACKAGE_VERSION: u8 = 0x00;

/// AppTimeReq and AppTimeAns.
pub const APP_TIME: u8 = 0x01;

/// DeviceAppTimePeriodicityReq and DeviceAppTimePeriodicityAns.
pub const PERIODICITY: u8 = 0x02;

/// ForceDeviceResyncReq.
pub const FORCE_RESYNC: u8 = 0x03;

/// DevVersionReq and DevVersionAns.
pub const DEV_VERSION: u8 = 0x01;

/// DevRebootTimeReq and DevRebootTimeAns.
pub const REBOOT_TIME: u8 = 0x02;

/// DevRebootCountdownReq and DevRebootCountdownAns.
pub const REBOOT_COUNTDOWN: u8 = 0x03;

/// DevUpgradeImageReq and DevUpgradeImageAns.
pub const UPGRADE_IMAGE: u8 = 0x04;

/// DevDeleteImageReq and DevDeleteImageAns.
pub const DELETE_IMAGE: u8 = 0x05;

/// The status of a next image that is valid: its version follows.
pub const STATUS_VALID: u8 = 3;

/// The bytes of a command without a body: its identifier.
pub const NO_BODY_LEN: u16 = 1;

/// The bytes of a command whose body is one byte.
pub const ONE_BYTE_LEN: u16 = 2;

/// The bytes of a PackageVersionAns.
pub const VERSION_ANSWER_LEN: u16 = 3;

/// The bytes of a command whose body is a number of three bytes.
pub const THREE_BYTES_LEN: u16 = 4;

/// The bytes of a command whose body is a number of four bytes.
pub const FOUR_BYTES_LEN: u16 = 5;

/// The bytes of an AppTimeReq or an AppTimeAns.
pub const APP_TIME_LEN: u16 = 6;

/// The bytes of a DeviceAppTimePeriodicityAns.
pub const PERIODICITY_ANSWER_LEN: u16 = 6;

/// The bytes of a DevVersionAns.
pub const DEV_VERSION_ANSWER_LEN: u16 = 9;

/// The bytes of a DevUpgradeImageAns with the next version.
pub const NEXT_ANSWER_LEN: u16 = 6;
