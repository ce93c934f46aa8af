/// A command with its fields. `specs/Table.antt` says where each is in its bytes; numbers have the lowest byte first.
#[derive(Clone, Copy, Debug, PartialEq, Eq)]
pub enum Cmd {
    /// From the server, on both ports: which package and version is there?
    PackageVersionReq,
    /// From the device, on both ports.
    PackageVersionAns {
        /// PackageIdentifier, the package of the port.
        identifier: u8,
        /// PackageVersion, the version of that package.
        version: u8,
    },

    /// TS003-1.0.0, from the device.
    AppTimeReq {
        /// DeviceTime, the seconds of the device's clock.
        time: u32,
        /// AnsRequired: whether the device wants an answer though its clock may be right.
        required: bool,
        /// TokenReq, 0 to 15.
        token: u8,
    },
    /// TS003-1.0.0, from the server.
    AppTimeAns {
        /// TimeCorrection, the seconds to be added to the device's clock; negative where it is fast.
        correction: i32,
        /// TokenAns, the token of the request that is answered, 0 to 15.
        token: u8,
    },
    /// TS003-1.0.0, from the server.
    DeviceAppTimePeriodicityReq {
        /// Period: a request every 128 * 2^period seconds, 0 to 15.
        period: u8,
    },
    /// TS003-1.0.0, from the device.
    DeviceAppTimePeriodicityAns {
        /// NotSupported: the device can't send periodically.
        unsupported: bool,
        /// The seconds of the device's clock.
        time: u32,
    },
    /// TS003-1.0.0, from the server.
    ForceDeviceResyncReq {
        /// NbTransmissions, how many requests the device is to send, 0 to 7.
        count: u8,
    },

    /// TS006-1.0.0, from the server.
    DevVersionReq,
    /// TS006-1.0.0, from the device.
    DevVersionAns {
        /// FWversion, the firmware that runs.
        firmware: u32,
        /// HWversion, the hardware that it runs on.
        hardware: u32,
    },
    /// TS006-1.0.0, from the server.
    DevRebootTimeReq {
        /// The moment of the reboot in seconds of the device's clock; 0 is at once, all ones cancel it.
        time: u32,
    },
    /// TS006-1.0.0, from the device.
    DevRebootTimeAns {
        /// The moment of the reboot, as it was asked for.
        time: u32,
    },
    /// TS006-1.0.0, from the server.
    DevRebootCountdownReq {
        /// The seconds until the reboot, below 2^24; 0 is at once, all ones cancel it.
        count: u32,
    },
    /// TS006-1.0.0, from the device.
    DevRebootCountdownAns {
        /// The seconds until the reboot, as they were asked for, below 2^24.
        count: u32,
    },
    /// TS006-1.0.0, from the server.
    DevUpgradeImageReq,
    /// TS006-1.0.0, from the device.
    DevUpgradeImageAns {
        /// What the next image is: 0 none, 1 corrupt, 2 not for this device, 3 valid.
        status: u8,
        /// The version of the next image; there exactly where it is valid.
        next: Option<u32>,
    },
    /// TS006-1.0.0, from the server.
    DevDeleteImageReq {
        /// The version of the image to be deleted.
        version: u32,
    },
    /// TS006-1.0.0, from the device.
    DevDeleteImageAns {
        /// The error bits, 0 to 3: bit 0 no valid image, bit 1 another version; 0 where the image is deleted.
        errors: u8,
    },
}
