//! What a server asks, sends and answers, byte by byte, and a device that hears it.

ghost use Rattle.std.specs.Prelude.{◌≡◌, length};

use crate::tests::common::{CONFIG, IMAGE, no_flash};
use campaign_server::{
    Field, Kind, Plan, PlanDevice, PlanGroup, PlanWindow, Request, RestoreError, Server,
    ServerError, Spent, Stage,
};
use device_core::{Aired, Delivered, Device, DeviceConfig};
use flash_session::CellFlash;
use image_slots::is_image;
use mc_keys::RootKind;
use package_grammar::{Downlink, To};
use std::alloc::Global;
use std::process::Abort;
use std::test::*;
use wire_base::{Refusal, Why};

/// The first fragment of the image in pieces of 13 bytes, and then a status request, as frames of `GROUP`; made with the AES
/// and CMAC of Python's `cryptography`.
static FRAMES: [&[u8]; 2] = [
    &[
        0x60, 0x44, 0x33, 0x22, 0x11, 0x00, 0x00, 0x00, 0xc9, 0x47, 0x6a, 0x7f, 0xc7, 0xc0, 0xb1,
        0x6e, 0xa3, 0xf3, 0xef, 0x09, 0x42, 0x5b, 0x5d, 0xc3, 0x47, 0x04, 0x68, 0x30, 0x7c,
    ],
    &[
        0x60, 0x44, 0x33, 0x22, 0x11, 0x00, 0x01, 0x00, 0xc9, 0x14, 0x33, 0x7a, 0x74, 0x7a, 0xf7,
    ],
];

/// What a server of `GROUP` and one device saves after the first fragment and the device's answer to the first request;
/// made with Python's `hashlib` from the table of `Saving.antt`.
static SAVED: [u8; 50] = [
    0x46, 0x55, 0x53, 0x53, 0x01, 0x02, 0x00, 0x01, 0x00, 0x00, 0x00, 0x01, 0x01, 0x00, 0x00, 0x00,
    0x00, 0x00, 0xe8, 0xf7, 0x93, 0xf4, 0xfb, 0xf6, 0x15, 0x8a, 0x7f, 0xe2, 0x3e, 0xe1, 0x75, 0xbb,
    0x7c, 0x92, 0x63, 0x0a, 0x77, 0xd1, 0xa2, 0x40, 0x51, 0x5c, 0xaa, 0xa8, 0xee, 0x54, 0xf5, 0x5e,
    0x6e, 0x1e,
];

const GROUP: PlanGroup = PlanGroup {
    id: 0,
    addr: 0x1122_3344,
    key: [0; 16],
    min: 0,
    max: 10,
};

const WINDOW: PlanWindow = PlanWindow {
    kind: Kind::C,
    start: 1000,
    timeout: 0,
    freq: 8_695_250,
    dr: 0,
};

fn plan(
    rt: &impl Abort,
    alloc: Global,
    frag_size: u8,
    parity: u16,
    group: Option<PlanGroup>,
    window: Option<PlanWindow>,
    count: usize,
) -> Plan
    ensures { length result.devices ≡ count }
{
    let device = PlanDevice {
        key: [0; 16],
        root: RootKind::V10,
    };
    match vec![in alloc; device; count] {
        Ok(devices) => Plan {
            frag_size,
            parity,
            index: 0,
            group,
            window,
            devices,
        },
        Err(_) => panic!(rt; "no memory"),
    }
}

/// A plan for the image of 52 bytes is refused for this field; where there is none, it has a server.
fn is_wrong(rt: &impl Abort, alloc: Global, plan: Plan, wrong: Option<Field>) {
    let parity = plan.parity;
    assert!(rt; is_image(&IMAGE));
    match Server::new(alloc, plan, &IMAGE) {
        Ok(server) => {
            assert!(rt; server.parity() == parity && wrong.is_none());
            drop(server);
        }
        Err(ServerError::BadPlan(field)) => assert!(rt; wrong == Some(field)),
        Err(_) => panic!(rt; "no memory"),
    }
}

const LATE: PlanGroup = PlanGroup { min: 10, ..GROUP };

const LOUD: PlanWindow = PlanWindow {
    timeout: 16,
    ..WINDOW
};

/// Piece size, coded fragments, index, group, window, number of devices, and the first of these that is wrong.
type Planned = (
    u8,
    u16,
    u8,
    Option<PlanGroup>,
    Option<PlanWindow>,
    usize,
    Option<Field>,
);

static PLANS: [Planned; 14] = [
    (13, 4, 0, None, None, 1, None),
    (13, 512, 0, Some(GROUP), Some(WINDOW), 64, None),
    (0, 513, 0, Some(LATE), None, 0, Some(Field::FragSize)),
    (240, 4, 0, None, None, 1, Some(Field::FragSize)),
    (13, 513, 4, Some(LATE), None, 0, Some(Field::Parity)),
    (13, 4, 4, Some(LATE), None, 0, Some(Field::Index)),
    (13, 4, 0, Some(LATE), None, 0, Some(Field::Group)),
    (13, 4, 0, Some(GROUP), None, 0, Some(Field::Window)),
    (13, 4, 0, None, Some(WINDOW), 1, Some(Field::Window)),
    (13, 4, 0, Some(GROUP), Some(LOUD), 1, Some(Field::Window)),
    (13, 4, 0, None, None, 0, Some(Field::Devices)),
    (13, 4, 0, None, None, 65, Some(Field::Devices)),
    (13, 4, 0, Some(GROUP), Some(WINDOW), 1, None),
    (13, 4, 3, None, None, 1, None),
];

/// Plans for the image of 52 bytes, and the first field of each that is wrong.
#[test]
fn the_first_wrong_field_is_named(rt: HostRuntime) {
    for (frag_size, parity, index, group, window, count, wrong) in &PLANS {
        let mut plan = plan(
            &rt,
            rt.alloc(),
            *frag_size,
            *parity,
            *group,
            *window,
            *count,
        );
        plan.index = *index;
        is_wrong(&rt, rt.alloc(), plan, *wrong);
    }
}

/// What is asked, by port and bytes, the uplink that answers it, and the stage after that.
type Asked = (u8, &'static [u8], u8, &'static [u8], Stage);

/// The fragments of the image in pieces of 13 bytes: four uncoded ones, then the sums of pieces
/// 1 and 3 twice, of 2 and 4, and of 2 and 3.
static FRAGMENTS: [[u8; 16]; 8] = [
    [
        0x08, 0x01, 0x00, 0x46, 0x55, 0x49, 0x4d, 0x01, 0x01, 0x00, 0x00, 0x00, 0x02, 0x00, 0x00,
        0x00,
    ],
    [
        0x08, 0x02, 0x00, 0x03, 0x00, 0x00, 0x00, 0xba, 0x78, 0x16, 0xbf, 0x8f, 0x01, 0xcf, 0xea,
        0x41,
    ],
    [
        0x08, 0x03, 0x00, 0x41, 0x40, 0xde, 0x5d, 0xae, 0x22, 0x23, 0xb0, 0x03, 0x61, 0xa3, 0x96,
        0x17,
    ],
    [
        0x08, 0x04, 0x00, 0x7a, 0x9c, 0xb4, 0x10, 0xff, 0x61, 0xf2, 0x00, 0x15, 0xad, 0x61, 0x62,
        0x63,
    ],
    [
        0x08, 0x05, 0x00, 0x07, 0x15, 0x97, 0x10, 0xaf, 0x23, 0x23, 0xb0, 0x03, 0x63, 0xa3, 0x96,
        0x17,
    ],
    [
        0x08, 0x06, 0x00, 0x07, 0x15, 0x97, 0x10, 0xaf, 0x23, 0x23, 0xb0, 0x03, 0x63, 0xa3, 0x96,
        0x17,
    ],
    [
        0x08, 0x07, 0x00, 0x79, 0x9c, 0xb4, 0x10, 0x45, 0x19, 0xe4, 0xbf, 0x9a, 0xac, 0xae, 0x88,
        0x22,
    ],
    [
        0x08, 0x08, 0x00, 0x42, 0x40, 0xde, 0x5d, 0x14, 0x5a, 0x35, 0x0f, 0x8c, 0x60, 0x6c, 0x7c,
        0x56,
    ],
];

/// A campaign without a group.
static CAMPAIGN: [Asked; 6] = [
    (
        203,
        &[0x01],
        203,
        &[0x01, 0x00, 0x00, 0x00, 0x00, 0x01, 0x00, 0x00, 0x00],
        Stage::At(Request::Fragments),
    ),
    (
        201,
        &[
            0x02, 0x00, 0x04, 0x00, 0x0d, 0x00, 0x00, 0x02, 0x00, 0x00, 0x00,
        ],
        201,
        &[0x02, 0x00],
        Stage::At(Request::Status),
    ),
    (
        201,
        &[0x01, 0x01],
        201,
        &[0x01, 0x04, 0x00, 0x00, 0x00],
        Stage::At(Request::Image),
    ),
    (
        203,
        &[0x04],
        203,
        &[0x04, 0x03, 0x02, 0x00, 0x00, 0x00],
        Stage::At(Request::Reboot),
    ),
    (
        203,
        &[0x03, 0x00, 0x00, 0x00],
        203,
        &[0x03, 0x00, 0x00, 0x00],
        Stage::At(Request::Check),
    ),
    (
        203,
        &[0x01],
        203,
        &[0x01, 0x02, 0x00, 0x00, 0x00, 0x01, 0x00, 0x00, 0x00],
        Stage::Updated,
    ),
];

/// The stages of a campaign with a group of class C, its key wrapped by the AES of Python's `cryptography`.
static GROUP_CAMPAIGN: [Asked; 4] = [
    (
        203,
        &[0x01],
        203,
        &[0x01, 0x00, 0x00, 0x00, 0x00, 0x01, 0x00, 0x00, 0x00],
        Stage::At(Request::Group),
    ),
    (
        200,
        &[
            0x02, 0x00, 0x44, 0x33, 0x22, 0x11, 0x87, 0x3f, 0x12, 0x41, 0xda, 0x7a, 0x95, 0xb1,
            0xeb, 0x59, 0x58, 0x9c, 0x75, 0x79, 0xf5, 0xd9, 0x00, 0x00, 0x00, 0x00, 0x0a, 0x00,
            0x00, 0x00,
        ],
        200,
        &[0x02, 0x00],
        Stage::At(Request::Fragments),
    ),
    (
        201,
        &[
            0x02, 0x01, 0x01, 0x00, 0x34, 0x00, 0x00, 0x02, 0x00, 0x00, 0x00,
        ],
        201,
        &[0x02, 0x00],
        Stage::At(Request::Window),
    ),
    (
        200,
        &[
            0x04, 0x00, 0xe8, 0x03, 0x00, 0x00, 0x00, 0xd2, 0xad, 0x84, 0x00,
        ],
        200,
        &[0x04, 0x00, 0x00, 0x00, 0x00],
        Stage::At(Request::Status),
    ),
];

/// After so many answers of `CAMPAIGN` another uplink, by port and bytes, and the stage after it.
static OTHERS: [(usize, u8, &[u8], Stage); 13] = [
    (
        0,
        203,
        &[0x01, 0x00, 0x00, 0x00, 0x00, 0x02, 0x00, 0x00, 0x00],
        Stage::Refused {
            request: Request::Version,
            bits: 1,
        },
    ),
    (
        0,
        203,
        &[0x01, 0x02, 0x00, 0x00, 0x00, 0x01, 0x00, 0x00, 0x00],
        Stage::At(Request::Fragments),
    ),
    (
        1,
        201,
        &[0x02, 0x0f],
        Stage::Refused {
            request: Request::Fragments,
            bits: 15,
        },
    ),
    (1, 201, &[0x02, 0x40], Stage::At(Request::Fragments)),
    (
        2,
        201,
        &[0x01, 0x04, 0x00, 0x00, 0x01],
        Stage::Refused {
            request: Request::Status,
            bits: 1,
        },
    ),
    (
        2,
        201,
        &[0x01, 0x03, 0x00, 0x01, 0x00],
        Stage::At(Request::Status),
    ),
    (
        2,
        201,
        &[0x01, 0x04, 0x40, 0x00, 0x00],
        Stage::At(Request::Status),
    ),
    (3, 203, &[0x04, 0x00], Stage::At(Request::Image)),
    (
        3,
        203,
        &[0x04, 0x01],
        Stage::Refused {
            request: Request::Image,
            bits: 1,
        },
    ),
    (
        3,
        203,
        &[0x04, 0x02],
        Stage::Refused {
            request: Request::Image,
            bits: 2,
        },
    ),
    (
        3,
        203,
        &[0x04, 0x03, 0x03, 0x00, 0x00, 0x00],
        Stage::Refused {
            request: Request::Image,
            bits: 3,
        },
    ),
    (
        4,
        201,
        &[0x01, 0x03, 0x00, 0x01, 0x00],
        Stage::At(Request::Reboot),
    ),
    (
        5,
        203,
        &[0x01, 0x01, 0x00, 0x00, 0x00, 0x01, 0x00, 0x00, 0x00],
        Stage::At(Request::Check),
    ),
];

/// An uplink on port 202 and its moment in ms, and the answer: none where that is empty.
static TIMES: [(u64, &[u8], &[u8]); 8] = [
    (
        10_000,
        &[0x01, 0x0f, 0x00, 0x00, 0x00, 0x10],
        &[0x01, 0xfb, 0xff, 0xff, 0xff, 0x00],
    ),
    (
        12_000,
        &[0x01, 0x0f, 0x00, 0x00, 0x00, 0x10],
        &[0x01, 0xfd, 0xff, 0xff, 0xff, 0x00],
    ),
    (
        15_999,
        &[0x01, 0x0f, 0x00, 0x00, 0x00, 0x10],
        &[0x01, 0x00, 0x00, 0x00, 0x00, 0x00],
    ),
    (15_999, &[0x01, 0x0f, 0x00, 0x00, 0x00, 0x00], &[]),
    (
        16_000,
        &[0x01, 0x0f, 0x00, 0x00, 0x00, 0x00],
        &[0x01, 0x01, 0x00, 0x00, 0x00, 0x00],
    ),
    (
        10_000,
        &[
            0x01, 0x0a, 0x00, 0x00, 0x00, 0x03, 0x01, 0x0f, 0x00, 0x00, 0x00, 0x04,
        ],
        &[0x01, 0xfb, 0xff, 0xff, 0xff, 0x04],
    ),
    (
        10_000,
        &[
            0x01, 0x0f, 0x00, 0x00, 0x00, 0x01, 0x01, 0x14, 0x00, 0x00, 0x00, 0x02,
        ],
        &[0x01, 0xfb, 0xff, 0xff, 0xff, 0x01],
    ),
    (10_000, &[0x00, 0x01, 0x01], &[]),
];

/// The uplink that moves a fresh device, and with a second command after it.
static VERSION: [u8; 18] = [
    0x01, 0x00, 0x00, 0x00, 0x00, 0x01, 0x00, 0x00, 0x00, 0x01, 0x00, 0x00, 0x00, 0x00, 0x01, 0x00,
    0x00, 0x00,
];

/// Foreign uplinks: of another port, with no command, or with one of the server's own after that of the device.
static FOREIGN: [(u8, &[u8], u16, Why); 8] = [
    (199, &[0x00], 0, Why::Port),
    (204, &[], 0, Why::Port),
    (0, &[0x01, 0, 0, 0, 0, 0x01, 0, 0, 0], 0, Why::Port),
    (255, &[0x01, 0, 0, 0, 0, 0x01, 0, 0, 0], 0, Why::Port),
    (203, &[0x06], 0, Why::UnknownCommand),
    (201, &[0x08, 0x01, 0x00, 0x11], 0, Why::UnknownCommand),
    (202, &[0x03, 0x00], 0, Why::UnknownCommand),
    (
        203,
        &[0x01, 0, 0, 0, 0, 0x01, 0, 0, 0, 0x7f],
        9,
        Why::UnknownCommand,
    ),
];

/// A server of a campaign with one device.
#[derive(Drop)]
struct OneDevice {
    server: Server,
    ghost one: { length server.plan.devices ≡ 1 },
}

impl OneDevice {
    ghost use Rattle.std.specs.Prelude.{◌≡◌, length};

    fn begin(
        rt: &impl Abort,
        alloc: Global,
        frag_size: u8,
        parity: u16,
        group: Option<PlanGroup>,
        window: Option<PlanWindow>,
    ) -> Self {
        let plan = plan(rt, alloc, frag_size, parity, group, window, 1);
        assert!(rt; is_image(&IMAGE));
        match Server::new(alloc, plan, &IMAGE) {
            Ok(server) => OneDevice { server },
            Err(_) => panic!(rt; "no server"),
        }
    }

    /// What is asked now; none where there are no bytes.
    fn asks(&self, rt: &impl Abort, port: u8, bytes: &[u8]) {
        match self.server.ask(1) {
            Some(down) => assert!(rt; is_down(&down, To::Unicast, port, bytes)),
            None => assert!(rt; bytes.is_empty()),
        }
    }

    fn asked(&self, rt: &impl Abort) -> Downlink {
        match self.server.ask(1) {
            Some(down) => down,
            None => panic!(rt; "nothing is asked"),
        }
    }

    fn stage(&self) -> Stage {
        self.server.ledger(1)
    }

    /// The stage after an uplink.
    fn after(&mut self, rt: &impl Abort, port: u8, payload: &[u8]) -> Stage {
        assert!(rt; self.uplink(port, payload, 0).is_ok());
        self.stage()
    }

    #[tactic(auto, unfolding(campaign_server::specs::Uplinks::uplink_step, campaign_server::specs::Uplinks::read_uplink))]
    fn uplink(&mut self, port: u8, payload: &[u8], t: u64) -> Result<Option<Downlink>, Refusal> {
        self.server.uplink(1, port, payload, t)
    }

    #[tactic(auto, unfolding(campaign_server::specs::Fragments::after_fragment))]
    fn fragment(&mut self) -> Result<Downlink, Spent> {
        self.server.next_fragment()
    }

    #[tactic(auto, unfolding(campaign_server::specs::Fragments::after_status_to_all))]
    fn status_all(&mut self) -> Option<Downlink> {
        self.server.status_all()
    }
}

/// Whether this goes down.
fn is_down(down: &Downlink, to: To, port: u8, bytes: &[u8]) -> bool {
    down.to == to && down.port == port && down.payload.as_slice() == bytes
}

/// Each is asked, and its answer moves once: the same uplink again does nothing.
fn asked(rt: &impl Abort, campaign: &mut OneDevice, all: &[Asked]) {
    for (port, request, from, answer, stage) in all {
        campaign.asks(rt, *port, request);
        assert!(rt; campaign.after(rt, *from, answer) == *stage);
        assert!(rt; campaign.after(rt, *from, answer) == *stage);
    }
}

/// A campaign without a group, in pieces of 13 bytes.
fn without_group(rt: &impl Abort, alloc: Global) -> OneDevice {
    OneDevice::begin(rt, alloc, 13, 4, None, None)
}

/// The next fragment goes down by unicast.
fn sends(rt: &impl Abort, campaign: &mut OneDevice, fragment: &[u8]) {
    match campaign.fragment() {
        Ok(down) => assert!(rt; is_down(&down, To::Unicast, 201, fragment)),
        Err(_) => panic!(rt; "nothing is sent"),
    }
}

#[test]
fn a_campaign_is_sent_in_bytes(rt: HostRuntime) {
    let mut campaign = without_group(&rt, rt.alloc());
    for fragment in &FRAGMENTS {
        sends(&rt, &mut campaign, fragment);
    }
    assert!(rt; matches!(campaign.fragment(), Err(Spent::Fragments)));
    asked(&rt, &mut campaign, &CAMPAIGN);
    campaign.asks(&rt, 0, &[]);
    drop(campaign);
}

/// A campaign with the group and the window.
fn with_group(
    rt: &impl Abort,
    alloc: Global,
    frag_size: u8,
    parity: u16,
    group: PlanGroup,
) -> OneDevice {
    OneDevice::begin(rt, alloc, frag_size, parity, Some(group), Some(WINDOW))
}

#[test]
fn a_group_is_asked_in_bytes(rt: HostRuntime) {
    let mut campaign = with_group(&rt, rt.alloc(), 52, 0, GROUP);
    asked(&rt, &mut campaign, &GROUP_CAMPAIGN);
    assert!(rt; campaign.after(&rt, 200, &[0x02, 0x04]) == Stage::At(Request::Status));
    drop(campaign);
}

#[test]
fn a_window_is_refused_in_bytes(rt: HostRuntime) {
    let mut refused = with_group(&rt, rt.alloc(), 52, 0, GROUP);
    asked(&rt, &mut refused, &GROUP_CAMPAIGN[..3]);
    let stage = Stage::Refused {
        request: Request::Window,
        bits: 0x1c,
    };
    assert!(rt; refused.after(&rt, 200, &[0x04, 0x1c]) == stage);
    drop(refused);
}

/// A group of two counts.
const FEW: PlanGroup = PlanGroup { max: 2, ..GROUP };

/// A request for the status goes to the group with count 1.
fn asks_all(rt: &impl Abort, campaign: &mut OneDevice) {
    let to = To::Group {
        addr: 0x1122_3344,
        count: 1,
    };
    match campaign.status_all() {
        Some(down) => assert!(rt; is_down(&down, to, 201, &[0x01, 0x00])),
        None => panic!(rt; "nothing is asked"),
    }
}

#[test]
fn counts_of_a_group_end_before_its_fragments(rt: HostRuntime) {
    let mut short = with_group(&rt, rt.alloc(), 26, 1, FEW);
    assert!(rt; short.fragment().is_ok());
    asks_all(&rt, &mut short);
    assert!(rt; matches!(short.fragment(), Err(Spent::Counts)));
    assert!(rt; short.status_all().is_none());
    drop(short);
}

#[test]
fn counts_of_a_group_end_with_its_fragments(rt: HostRuntime) {
    let mut even = with_group(&rt, rt.alloc(), 26, 0, FEW);
    assert!(rt; even.fragment().is_ok() && even.fragment().is_ok());
    assert!(rt; matches!(even.fragment(), Err(Spent::Fragments)));
    drop(even);
}

/// Whether these bytes are refused to the plan of `SAVED`.
fn is_corrupt(rt: &impl Abort, alloc: Global, bytes: &[u8]) -> bool {
    let plan = plan(rt, alloc, 13, 4, Some(GROUP), Some(WINDOW), 1);
    assert!(rt; is_image(&IMAGE));
    matches!(
        Server::restore(alloc, plan, &IMAGE, bytes),
        Err(RestoreError::Corrupt)
    )
}

#[test]
fn a_saved_server_is_restored(rt: HostRuntime) {
    let mut campaign = with_group(&rt, rt.alloc(), 13, 4, GROUP);
    assert!(rt; campaign.fragment().is_ok());
    let version = [0x01, 0, 0, 0, 0, 0x01, 0, 0, 0];
    assert!(rt; campaign.after(&rt, 203, &version) == Stage::At(Request::Group));
    assert!(rt; campaign.server.save().as_slice() == SAVED.as_slice());
    drop(campaign);
    let plan = plan(&rt, rt.alloc(), 13, 4, Some(GROUP), Some(WINDOW), 1);
    assert!(rt; is_image(&IMAGE));
    match Server::restore(rt.alloc(), plan, &IMAGE, &SAVED) {
        Ok(again) => assert!(rt; again.save().as_slice() == SAVED.as_slice()),
        Err(_) => panic!(rt; "not restored"),
    }
}

#[test]
fn other_bytes_are_corrupt(rt: HostRuntime) {
    let mut bytes = SAVED;
    for k in 0..bytes.len() {
        bytes[k] ^= 1;
        assert!(rt; is_corrupt(&rt, rt.alloc(), &bytes));
        bytes[k] ^= 1;
        assert!(rt; is_corrupt(&rt, rt.alloc(), &bytes[..k]));
    }
}

fn device(rt: &impl Abort, alloc: Global) -> Device<CellFlash> {
    let config = DeviceConfig { rows: 4, ..CONFIG };
    match Device::reserve(alloc, config, no_flash(rt, alloc)) {
        Ok(device) => device,
        Err(_) => panic!(rt; "no device"),
    }
}

/// The device acts on a payload, and what it answers goes up.
fn answers(
    rt: &impl Abort,
    campaign: &mut OneDevice,
    device: &mut Device<CellFlash>,
    down: &Downlink,
) {
    assert!(rt; !campaign.server.has_frame(down));
    assert!(rt; device.deliver(0, down, 0, 1) == Delivered::Done);
    match device.take_uplink() {
        Some(uplink) => {
            let payload = uplink.payload.as_slice();
            assert!(rt; campaign.uplink(uplink.port, payload, 0).is_ok());
        }
        None => panic!(rt; "no answer"),
    }
}

/// A payload of the server's to the group is this frame, which the device hears.
fn hears(
    rt: &impl Abort,
    server: &Server,
    device: &mut Device<CellFlash>,
    down: &Downlink,
    bytes: &[u8],
) {
    assert!(rt; server.has_frame(down));
    let frame = server.frame(down);
    assert!(rt; frame.as_slice() == bytes);
    let heard = Aired::Heard(Delivered::Done);
    assert!(rt; device.radio(1_000_000, frame.as_slice(), 0, 2) == heard);
}

/// The device's answer to a status request, none of whose frames was lost on it.
fn tells(device: &mut Device<CellFlash>, bytes: &[u8]) -> bool {
    match device.take_uplink() {
        Some(uplink) => uplink.payload.as_slice() == bytes && device.counts().deaf == 0,
        None => false,
    }
}

/// The device answers what it is asked first, four times.
fn sets_up(rt: &impl Abort, campaign: &mut OneDevice, device: &mut Device<CellFlash>) {
    for _ in 0..4 {
        let down = campaign.asked(rt);
        answers(rt, campaign, device, &down);
    }
    assert!(rt; campaign.stage() == Stage::At(Request::Status));
}

/// It hears a fragment, and then a status request.
fn hears_two(rt: &impl Abort, campaign: &mut OneDevice, device: &mut Device<CellFlash>) {
    match campaign.fragment() {
        Ok(fragment) => hears(rt, &campaign.server, device, &fragment, FRAMES[0]),
        Err(_) => panic!(rt; "no fragment"),
    }
    match campaign.status_all() {
        Some(status) => hears(rt, &campaign.server, device, &status, FRAMES[1]),
        None => panic!(rt; "no count"),
    }
}

/// A device that the server sets up hears what the server sends to the group, in its window.
#[test]
fn frames_reach_a_device_with_the_group(rt: HostRuntime) {
    let mut campaign = with_group(&rt, rt.alloc(), 13, 4, GROUP);
    let mut device = device(&rt, rt.alloc());
    sets_up(&rt, &mut campaign, &mut device);
    hears_two(&rt, &mut campaign, &mut device);
    assert!(rt; tells(&mut device, &[0x01, 0x01, 0x00, 0x03, 0x00]));
    drop(campaign);
    drop(device);
}

/// The stage after an uplink that comes after so many answers of `CAMPAIGN`.
fn moves(rt: &impl Abort, alloc: Global, number: usize, port: u8, payload: &[u8], stage: Stage) {
    let mut campaign = without_group(rt, alloc);
    assert!(rt; number <= 6);
    asked(rt, &mut campaign, &CAMPAIGN[..number]);
    assert!(rt; campaign.after(rt, port, payload) == stage);
    drop(campaign);
}

#[test]
fn an_answer_moves_its_own_stage_alone(rt: HostRuntime) {
    for (number, port, payload, stage) in &OTHERS {
        moves(&rt, rt.alloc(), *number, *port, payload, *stage);
    }
}

/// Whether this is answered to an uplink on port 202; nothing where there are no bytes.
fn is_answered(campaign: &mut OneDevice, t: u64, payload: &[u8], answer: &[u8]) -> bool {
    match campaign.uplink(202, payload, t) {
        Ok(Some(down)) => is_down(&down, To::Unicast, 202, answer),
        Ok(None) => answer.is_empty(),
        Err(_) => false,
    }
}

#[test]
fn the_time_is_answered_anew_each_time(rt: HostRuntime) {
    let mut campaign = without_group(&rt, rt.alloc());
    for (t, payload, answer) in &TIMES {
        assert!(rt; is_answered(&mut campaign, *t, payload, answer));
    }
    assert!(rt;
        campaign
            .uplink(202, &[0x01, 0x0f, 0, 0, 0], 10_000)
            .is_err()
    );
    campaign.asks(&rt, 203, &[0x01]);
    drop(campaign);
}

/// What is left of `VERSION` where it is cut, but not between its commands.
fn stays_at_cuts(rt: &impl Abort, campaign: &mut OneDevice) {
    for length in 1..18usize {
        if length != 9 {
            stays(
                rt,
                campaign,
                203,
                &VERSION[..length],
                length as u16,
                Why::Short,
            );
        }
    }
}

/// An uplink that is cut, foreign or too long is refused at its place, and the server stays as it was, the stage of the
/// command before the cut too; so the whole one moves it then.
#[test]
fn refused_uplinks_move_nothing(rt: HostRuntime) {
    let mut campaign = without_group(&rt, rt.alloc());
    stays_at_cuts(&rt, &mut campaign);
    for (port, payload, at, why) in &FOREIGN {
        stays(&rt, &mut campaign, *port, payload, *at, *why);
    }
    stays(&rt, &mut campaign, 202, &[0; 243], 242, Why::TooLong);
    assert!(rt; campaign.after(&rt, 203, &VERSION[..9]) == Stage::At(Request::Fragments));
    drop(campaign);
}

/// The uplink is refused so, and the server still asks for the version.
fn stays(rt: &impl Abort, campaign: &mut OneDevice, port: u8, payload: &[u8], at: u16, why: Why) {
    match campaign.uplink(port, payload, 0) {
        Ok(_) => assert!(rt; false),
        Err(refusal) => assert!(rt; refusal == Refusal { at, why }),
    }
    assert!(rt; campaign.stage() == Stage::At(Request::Version));
    campaign.asks(rt, 203, &[0x01]);
}
