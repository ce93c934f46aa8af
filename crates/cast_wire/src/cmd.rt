use crate::fragment_bytes::FragmentBytes;
use crate::group_list::GroupList;

/// A command with its fields. `specs/Table.antt` says where each is in its bytes; numbers have the lowest byte first.
#[derive(Debug, PartialEq, Drop)]
pub enum Cmd<'a> {
    /// From the server, on both ports: which package and version is there?
    PackageVersionReq,
    /// From the device, on both ports.
    PackageVersionAns {
        identifier: u8,
        version: u8,
    },

    /// TS004-1.0.0, from the server.
    FragSessionStatusReq {
        /// The session, 0 to 3.
        index: u8,
        /// Participants: whether devices that miss nothing answer too.
        all: bool,
    },
    /// TS004-1.0.0, from the device.
    FragSessionStatusAns {
        /// The session, 0 to 3.
        index: u8,
        /// The fragments heard, below 2^14.
        received: u16,
        /// The fragments missing; 255 where they are 255 or more.
        missing: u8,
        /// The device has too little memory for the matrix of coded fragments.
        norows: bool,
    },
    /// TS004-1.0.0, from the server.
    FragSessionSetupReq {
        /// The session, 0 to 3.
        index: u8,
        /// The multicast groups that may feed the session, a bit for each of 0 to 3.
        mask: u8,
        /// The number of fragments that the file is cut into.
        nb_frag: u16,
        /// The bytes of a fragment.
        frag_size: u8,
        /// The coding of the fragments, 0 to 7.
        algo: u8,
        /// BlockAckDelay, 0 to 7: a multicast request is answered less than 2^(delay + 4) seconds later.
        delay: u8,
        /// The bytes that fill the last fragment up.
        padding: u8,
        /// The descriptor: what the file is, as the server says it.
        descriptor: u32,
    },
    /// TS004-1.0.0, from the device.
    FragSessionSetupAns {
        /// The session, 0 to 3.
        index: u8,
        /// The descriptor isn't the one that the device is for.
        wrong_descriptor: bool,
        /// The device has no place for a session of that index.
        index_unsupported: bool,
        /// The device has too little memory.
        no_memory: bool,
        /// The device can't decode the fragments.
        encoding_unsupported: bool,
    },
    /// TS004-1.0.0, from the server.
    FragSessionDeleteReq {
        /// The session, 0 to 3.
        index: u8,
    },
    /// TS004-1.0.0, from the device.
    FragSessionDeleteAns {
        /// The session, 0 to 3.
        index: u8,
        /// The session doesn't exist.
        missing: bool,
    },
    /// TS004-1.0.0, from the server. It takes all that is left of its payload.
    DataFragment {
        /// The session, 0 to 3.
        index: u8,
        /// The fragment's number, below 2^14.
        n: u16,
        /// The fragment, 1 to 239 bytes.
        bytes: FragmentBytes<'a>,
    },

    /// TS005-1.0.0, from the server.
    McGroupStatusReq {
        /// The groups asked for, a bit for each of 0 to 3.
        mask: u8,
    },
    /// TS005-1.0.0, from the device.
    McGroupStatusAns {
        /// The number of groups that exist, 0 to 7.
        total: u8,
        /// The groups answered, a bit for each of 0 to 3.
        mask: u8,
        /// The groups answered, as many as the mask has bits.
        groups: GroupList,
    },
    /// TS005-1.0.0, from the server.
    McGroupSetupReq {
        /// The group, 0 to 3.
        id: u8,
        /// McAddr, the group's address.
        addr: u32,
        /// McKey_encrypted, the group's key wrapped for the device.
        key: [u8; 16],
        /// minMcFCount, the first frame count that is heard.
        min: u32,
        /// maxMcFCount, the first frame count that isn't heard any more.
        max: u32,
    },
    /// TS005-1.0.0, from the device.
    McGroupSetupAns {
        /// The group, 0 to 3.
        id: u8,
        /// IDerror: the device has no place for a group of that id.
        error: bool,
    },
    /// TS005-1.0.0, from the server.
    McGroupDeleteReq {
        /// The group, 0 to 3.
        id: u8,
    },
    /// TS005-1.0.0, from the device.
    McGroupDeleteAns {
        /// The group, 0 to 3.
        id: u8,
        /// The group doesn't exist.
        undefined: bool,
    },
    /// TS005-1.0.0, from the server.
    McClassCSessionReq {
        /// The group, 0 to 3.
        id: u8,
        /// SessionTime, the start in seconds of the device's clock.
        time: u32,
        /// TimeOut: the session lasts 2^timeout seconds, 0 to 15.
        timeout: u8,
        /// DLFrequ, the frequency in units of 100 Hz, below 2^24.
        freq: u32,
        /// DR, the data rate.
        dr: u8,
    },
    /// TS005-1.0.0, from the device.
    McClassCSessionAns {
        /// The group, 0 to 3.
        id: u8,
        /// The group doesn't exist.
        undefined: bool,
        /// The device can't use the frequency.
        freq_error: bool,
        /// The device can't use the data rate.
        dr_error: bool,
        /// TimeToStart in seconds, below 2^24; there exactly where there is no error.
        start: Option<u32>,
    },
    /// TS005-1.0.0, from the server.
    McClassBSessionReq {
        /// The group, 0 to 3.
        id: u8,
        /// SessionTime, the start in seconds of the device's clock.
        time: u32,
        /// Periodicity of the ping slots, 0 to 7.
        periodicity: u8,
        /// TimeOut: the session lasts 2^timeout beacon periods, 0 to 15.
        timeout: u8,
        /// DLFrequ, the frequency in units of 100 Hz, below 2^24.
        freq: u32,
        /// DR, the data rate.
        dr: u8,
    },
    /// TS005-1.0.0, from the device.
    McClassBSessionAns {
        /// The group, 0 to 3.
        id: u8,
        /// The group doesn't exist.
        undefined: bool,
        /// The device can't use the frequency.
        freq_error: bool,
        /// The device can't use the data rate.
        dr_error: bool,
        /// TimeToStart in seconds, below 2^24; there exactly where there is no error.
        start: Option<u32>,
    },
}
