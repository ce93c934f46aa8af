//! A campaign of one device, up to its window, and the fragments to its group.

ghost use Rattle.std.specs.Prelude.{◌≡◌, length};

use crate::tests::common::IMAGE;
use campaign_server::{PlanDevice, PlanGroup, Server};
use image_slots::is_image;
use mc_keys::RootKind;
use package_grammar::To;
use sample_server::{again, came, campaign, is_updated, kept, queue_of, queue_of_group};
use std::alloc::Global;
use std::process::Abort;
use std::test::*;

fn group() -> PlanGroup {
    PlanGroup {
        id: 0,
        addr: 0x1122_3344,
        key: [0; 16],
        min: 7,
        max: 9,
    }
}

/// The one device of the campaign.
fn devices(rt: &impl Abort, alloc: Global) -> Vec<PlanDevice>
    ensures { length result.items ≡ 1 }
{
    let device = PlanDevice {
        key: [0; 16],
        root: RootKind::V10,
    };
    match vec![in alloc; device; 1] {
        Ok(devices) => devices,
        Err(_) => panic!(rt; "no memory"),
    }
}

fn begun(rt: &impl Abort, alloc: Global) -> Server
    ensures { length result.plan.devices ≡ 1 }
{
    assert!(rt; is_image(&IMAGE));
    match campaign(alloc, &IMAGE, group(), 1000, devices(rt, alloc)) {
        Ok(server) => server,
        Err(_) => panic!(rt; "a plan that is none"),
    }
}

/// The server, ended and restored from what was stored.
fn made_again(rt: &impl Abort, alloc: Global, server: Server) -> Server
    ensures { length result.plan.devices ≡ 1 }
{
    let bytes = kept(&server);
    drop(server);
    assert!(rt; is_image(&IMAGE));
    match again(
        alloc,
        &IMAGE,
        group(),
        1000,
        devices(rt, alloc),
        bytes.as_slice(),
    ) {
        Ok(server) => server,
        Err(_) => panic!(rt; "bytes of no server"),
    }
}

/// What is asked of the device.
fn asks(rt: &impl Abort, server: &Server, port: u8, bytes: &[u8])
    requires { length server.now.plan.devices ≡ 1 }
{
    match queue_of(server, 1) {
        Some(asked) => assert!(rt; asked.port == port && asked.payload.as_slice() == bytes),
        None => panic!(rt; "nothing is asked"),
    }
}

/// A fragment goes to the group, with this count.
fn sends(rt: &impl Abort, server: &mut Server, count: u32) {
    match queue_of_group(server) {
        Some(fragment) => {
            let to = To::Group {
                addr: 0x1122_3344,
                count,
            };
            assert!(rt; fragment.to == to);
            assert!(rt; fragment.port == 201 && fragment.payload.len() == 51);
        }
        None => panic!(rt; "nothing is sent"),
    }
}

#[test]
fn a_campaign_is_driven(rt: HostRuntime) {
    let mut server = begun(&rt, rt.alloc());
    // DevVersionReq, and its answer: firmware 0, hardware 1
    asks(&rt, &server, 203, &[0x01]);
    assert!(rt; !is_updated(&server, 1));
    let answer = [0x01, 0, 0, 0, 0, 1, 0, 0, 0];
    assert!(rt; matches!(came(&mut server, 1, 203, &answer, 0), Ok(None)));
    // two fragments, with a restart of the server between them, and then the group's counts are used up
    sends(&rt, &mut server, 7);
    server = made_again(&rt, rt.alloc(), server);
    sends(&rt, &mut server, 8);
    assert!(rt; queue_of_group(&mut server).is_none());
    drop(server);
}
