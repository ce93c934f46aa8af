//! Ports, identifiers and lengths of the two packages.

/// The port of remote multicast setup (TS005-1.0.0).
pub const MULTICAST_PORT: u8 = 200;

/// The port of fragmented data block transport (TS004-1.0.0).
pub const FRAGMENT_PORT: u8 = 201;

/// PackageVersionReq and PackageVersionAns, on both ports. A request and its answer share an identifier.
pub const PACKAGE_VERSION: u8 = 0x00;

/// FragSessionStatusReq and FragSessionStatusAns.
pub const SESSION_STATUS: u8 = 0x01;

/// FragSessionSetupReq and FragSessionSetupAns.
pub const SESSION_SETUP: u8 = 0x02;

/// FragSessionDeleteReq and FragSessionDeleteAns.
pub const SESSION_DELETE: u8 = 0x03;

/// DataFragment.
pub const DATA_FRAGMENT: u8 = 0x08;

/// McGroupStatusReq and McGroupStatusAns.
pub const GROUP_STATUS: u8 = 0x01;

/// McGroupSetupReq and McGroupSetupAns.
pub const GROUP_SETUP: u8 = 0x02;

/// McGroupDeleteReq and McGroupDeleteAns.
pub const GROUP_DELETE: u8 = 0x03;

/// McClassCSessionReq and McClassCSessionAns.
pub const CLASS_C_SESSION: u8 = 0x04;

/// McClassBSessionReq and McClassBSessionAns.
pub const CLASS_B_SESSION: u8 = 0x05;

/// The bytes of a command without a body: its identifier.
pub const NO_BODY_LEN: u16 = 1;

/// The bytes of a command whose body is one byte.
pub const ONE_BYTE_LEN: u16 = 2;

/// The bytes of a PackageVersionAns.
pub const VERSION_ANSWER_LEN: u16 = 3;

/// The bytes of a FragSessionStatusAns.
pub const STATUS_ANSWER_LEN: u16 = 5;

/// The bytes of a FragSessionSetupReq.
pub const SETUP_REQUEST_LEN: u16 = 11;

/// The bytes of a DataFragment before the fragment itself.
pub const FRAGMENT_HEAD_LEN: u16 = 3;

/// The bytes of a McGroupStatusAns before its groups.
pub const GROUPS_HEAD_LEN: u16 = 2;

/// The bytes of a group in a McGroupStatusAns.
pub const GROUP_LEN: u16 = 5;

/// The bytes of a McGroupSetupReq.
pub const GROUP_SETUP_REQUEST_LEN: u16 = 30;

/// The bytes of a McClassCSessionReq or a McClassBSessionReq.
pub const CLASS_SESSION_REQUEST_LEN: u16 = 11;

/// The bytes of a McClassCSessionAns or a McClassBSessionAns with TimeToStart.
pub const START_ANSWER_LEN: u16 = 5;
