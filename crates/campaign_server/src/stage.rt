//! A device as its server sees it.

/// What the server asks of a device: a row of its table.
#[derive(Clone, Copy, Debug, PartialEq, Eq)]
pub enum Request {
    /// DevVersionReq, for the hardware.
    Version,
    /// McGroupSetupReq.
    Group,
    /// FragSessionSetupReq.
    Fragments,
    /// McClassCSessionReq or McClassBSessionReq.
    Window,
    /// FragSessionStatusReq.
    Status,
    /// DevUpgradeImageReq.
    Image,
    /// DevRebootCountdownReq.
    Reboot,
    /// DevVersionReq, for the firmware.
    Check,
}

/// The stage of a device.
#[derive(Clone, Copy, Debug, PartialEq, Eq)]
pub enum Stage {
    /// It moves on with the answer to this request.
    At(Request),
    /// It runs the campaign's image.
    Updated,
    /// An answer refused the campaign, with these bits: at `Version` 1, the image is not for the hardware; at `Group` 4, IDerror;
    /// at `Fragments` those of FragSessionSetupAns; at `Window` 16 no such group, 8 the frequency, 4 the data rate; at `Status`
    /// 1, too little memory for the matrix; at `Image` the status of DevUpgradeImageAns.
    Refused { request: Request, bits: u8 },
}

/// What a device said of the campaign's session in its last FragSessionStatusAns (TS004-1.0.0, 3.2).
#[derive(Clone, Copy, Debug, PartialEq, Eq)]
pub struct LastStatus {
    /// The fragments that it heard, repeats included, at most 16,383.
    pub received: u16,
    /// The pieces still to be gained; 255 where they are 255 or more.
    pub missing: u8,
    /// Whether it had too little memory for the matrix.
    pub norows: bool,
}

/// What a server knows of a device.
#[derive(Clone, Copy)]
pub struct Standing {
    pub stage: Stage,
    /// None before its first FragSessionStatusAns.
    pub status: Option<LastStatus>,
}
