//! Scripts of one campaign, by their reports.

use crate::common::IMAGE;
use campaign_world::World;
use image_slots::is_image;
use report_lines::{LineError, LineFault, LineWhy, MAX_LINES};
use script_lines::form;
use std::alloc::Global;
use std::process::Abort;
use std::test::*;

const DEVICE: &str = "device 1 c 1 0 0 00000000000000000000000000000000";

fn world(rt: &impl Abort, alloc: Global) -> World {
    assert!(rt; is_image(&IMAGE));
    match World::new(alloc, &IMAGE) {
        Ok(world) => world,
        Err(_) => panic!(rt; "no memory"),
    }
}

/// Lines that are carried out.
fn takes(rt: &impl Abort, world: &mut World, lines: &[&str]) {
    for line in lines {
        assert!(rt; world.line(line.as_bytes()) == Ok(()));
    }
}

fn reports(rt: &impl Abort, alloc: Global, world: &World, wanted: &str) {
    match world.report(alloc) {
        Ok(text) => {
            assert!(rt; text.as_slice() == wanted.as_bytes());
            drop(text);
        }
        Err(_) => panic!(rt; "no report"),
    }
}

/// There is no report for this.
fn reports_none(rt: &impl Abort, alloc: Global, world: &World, fault: LineError) {
    match world.report(alloc) {
        Ok(text) => {
            drop(text);
            panic!(rt; "a report");
        }
        Err(error) => assert!(rt; error == fault),
    }
}

static LINES: [&str; 9] = [
    "fuota 1",
    "image 52 0",
    DEVICE,
    "ask 1",
    "down 1 1",
    "up 1",
    "ask 1",
    "down 2 1",
    "frag",
];

const REPORT: &str =
    "fuota report 1\nimage 52 fragments 1 size 52 padding 0 parity 0\ndevice 1 fragments clock 0 token 0 running 0 next valid 2\ncounts deaf 0 refused 0 full 0 dropped 0\nsession 0 received 1 missing 0 complete at 11 same\nend\n";

/// Carries out lines form by form, and skips one.
fn carries_out_all(rt: &impl Abort, world: &mut World) {
    for line in &LINES {
        assert!(rt; carries_out(world, line));
    }
    assert!(rt; world.lines() == 9);
    passes(world);
    assert!(rt; !carries_out(world, "down 4 1"));
    assert!(rt; carries_out(world, "down 3 1") && carries_out(world, "end"));
    assert!(rt; world.lines() == 12 && !world.is_over());
}

/// A campaign that is carried out form by form, with a line skipped, has the report of its lines, one line further on.
#[test]
fn forms_are_carried_out_as_lines(rt: HostRuntime) {
    let mut world = world(&rt, rt.alloc());
    carries_out_all(&rt, &mut world);
    reports(&rt, rt.alloc(), &world, REPORT);
    drop(world);
}

/// Carries out what a line says, where no cause holds of it.
fn carries_out(world: &mut World, line: &str) -> bool {
    let Some(said) = form(line.as_bytes()) else {
        return false;
    };
    match world.cause(&said) {
        None => world.lines() < MAX_LINES && world.take(&said) == Ok(()),
        Some(_) => false,
    }
}

/// Skips a line.
fn passes(world: &mut World) {
    if world.lines() < MAX_LINES {
        world.pass();
    }
}

/// Whether a line is refused so.
fn refuses(world: &mut World, line: &str, fault: LineError) -> bool {
    world.line(line.as_bytes()) == Err(fault)
}

const FAULT: LineError = LineError::Line(LineFault {
    line: 4,
    why: LineWhy::Device,
});

/// A line that is refused is answered again by each line after it, and by the report.
#[test]
fn a_refused_line_is_kept(rt: HostRuntime) {
    let mut world = world(&rt, rt.alloc());
    takes(&rt, &mut world, &["fuota 1", "image 13 0", DEVICE]);
    assert!(rt; refuses(&mut world, "ask 2", FAULT) && refuses(&mut world, "ask 1", FAULT));
    reports_none(&rt, rt.alloc(), &world, FAULT);
    drop(world);
}
