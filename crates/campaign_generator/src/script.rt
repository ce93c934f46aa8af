//! The script of a seed, step by step; each step puts its lines at the end of the text.

ghost use Rattle.std.specs.Prelude.{◌≡◌, ◌+◌, ◌≤◌, ◌<◌, ◌^◌, ◌++◌, IfOk};
ghost use Rattle.campaign_generator.specs.Draws.{after_draws};
ghost use Rattle.campaign_generator.specs.Script.{devices_from, turn, turns, rounds, frags, is_skipped, skips, downs, downs_from, deliveries, script_from};

use super::draws::Draws;
use super::lines::{put_ask, put_device, put_down, put_up};
use std::alloc::{AllocError, Global};

/// The devices of every script.
const DEVICES: u32 = 8;

/// The number of coded fragments.
const PARITY: u32 = 128;

/// The most uncoded fragments that a device skips.
const MAX_SKIPPED: u32 = 60;

/// The number of payloads that are sent before the fragments.
const SENT_BEFORE: u32 = 16;

/// Makes the whole script for an image of so many pieces.
#[tactic(auto, unfolding(crate::specs::Script::script_from))]
pub fn script(alloc: Global, draws: &mut Draws, pieces: u32) -> Result<Vec<u8>, AllocError>
    requires { pieces ≤ 1024 }
    ensures { IfOk result (λ text. text.items ≡ script_from draws.old.state pieces) }
{
    let mut text = Vec::new(alloc);
    text.extend_from_slice(b"fuota 1\nimage 64 128\n")?;
    put_devices(alloc, &mut text, draws)?;
    put_rounds(alloc, &mut text, 2, 1, 1)?;
    put_frags(&mut text, pieces + PARITY)?;
    put_deliveries(alloc, &mut text, draws, pieces)?;
    put_rounds(alloc, &mut text, 4, SENT_BEFORE + (pieces + PARITY) + 1, 17)?;
    text.extend_from_slice(b"end\n")?;
    Ok(text)
}

/// The devices, the offset of each drawn.
fn put_devices(alloc: Global, text: &mut Vec<u8>, draws: &mut Draws) -> Result<(), AllocError>
    ensures lines { IfOk result (λ _.
        text.new.items ≡ text.old.items ++ devices_from draws.old.state 1 8) }
    ensures state { IfOk result (λ _. draws.new.state ≡ after_draws draws.old.state 8) }
{
    for k in 0..DEVICES {
        put_device(alloc, text, k + 1, draws.draw())?;
    }
    Ok(())
}

/// A turn of a device: it is asked, takes the payload, and its answer reaches the server.
fn put_turn(
    alloc: Global,
    text: &mut Vec<u8>,
    device: u32,
    sent: u32,
    uplink: u32,
) -> Result<(), AllocError>
    ensures { IfOk result (λ _. text.new.items ≡ text.old.items ++ turn device sent uplink) }
{
    put_ask(alloc, text, device)?;
    put_down(alloc, text, sent, device)?;
    put_up(alloc, text, uplink)
}

/// So many turns of a device, from a sent number and an uplink's number on.
fn put_turns(
    alloc: Global,
    text: &mut Vec<u8>,
    each: u32,
    device: u32,
    sent: u32,
    uplink: u32,
) -> Result<(), AllocError>
    requires turns { each ≤ 4 }
    requires sent { sent < 2 ^ 31 }
    requires uplinks { uplink < 2 ^ 31 }
    ensures { IfOk result (λ _. text.new.items ≡ text.old.items ++ turns device sent uplink each) }
{
    for k in 0..each {
        put_turn(alloc, text, device, sent + k, uplink + k)?;
    }
    Ok(())
}

/// So many turns of each device, from a sent number and an uplink's number on.
fn put_rounds(
    alloc: Global,
    text: &mut Vec<u8>,
    each: u32,
    sent: u32,
    uplink: u32,
) -> Result<(), AllocError>
    requires turns { each ≤ 4 }
    requires sent { sent ≤ 65536 }
    requires uplinks { uplink ≤ 65536 }
    ensures { IfOk result (λ _. text.new.items ≡ text.old.items ++ rounds each 1 sent uplink 8) }
{
    let mut sent = sent;
    let mut uplink = uplink;
    for k in 0..DEVICES {
        put_turns(alloc, text, each, k + 1, sent, uplink)?;
        sent += each;
        uplink += each;
    }
    Ok(())
}

/// So many fragments are sent.
fn put_frags(text: &mut Vec<u8>, count: u32) -> Result<(), AllocError>
    ensures { IfOk result (λ _. text.new.items ≡ text.old.items ++ frags count) }
{
    for _k in 0..count {
        text.extend_from_slice(b"frag\n")?;
    }
    Ok(())
}

/// Whether fragment n is skipped, where v was drawn and so many pieces were skipped before.
fn is_skipped(v: u32, pieces: u32, n: u32, skipped: u32) -> bool
    ensures { result ≡ is_skipped v pieces n skipped }
{
    v == 0 && (n > pieces || skipped < MAX_SKIPPED)
}

/// How many pieces are skipped after it.
fn skips(skip: bool, pieces: u32, n: u32, skipped: u32) -> u32
    requires { skipped < 2 ^ 31 }
    ensures { result ≡ skips skip pieces n skipped }
{
    if skip && n <= pieces {
        skipped + 1
    } else {
        skipped
    }
}

/// Fragment n comes to a device once or twice, or is skipped.
fn put_downs(
    alloc: Global,
    text: &mut Vec<u8>,
    skip: bool,
    twice: bool,
    device: u32,
    n: u32,
) -> Result<(), AllocError>
    requires { n < 2 ^ 31 }
    ensures { IfOk result (λ _. text.new.items ≡ text.old.items ++ downs skip twice device n) }
{
    if skip {
        return Ok(());
    }
    put_down(alloc, text, SENT_BEFORE + n, device)?;
    if twice {
        put_down(alloc, text, SENT_BEFORE + n, device)?;
    }
    Ok(())
}

/// The fragments come to a device.
fn put_fragments(
    alloc: Global,
    text: &mut Vec<u8>,
    draws: &mut Draws,
    device: u32,
    pieces: u32,
) -> Result<(), AllocError>
    requires { pieces ≤ 1024 }
    ensures lines { IfOk result
        (λ _. text.new.items
        ≡ text.old.items ++ downs_from device pieces draws.old.state 1 0 (pieces + 128)) }
    ensures state { IfOk result
        (λ _. draws.new.state ≡ after_draws draws.old.state (pieces + 128)) }
{
    let mut skipped = 0u32;
    for k in 0..pieces + PARITY {
        let v = draws.draw() % 10;
        let skip = is_skipped(v, pieces, k + 1, skipped);
        put_downs(alloc, text, skip, v == 1, device, k + 1)?;
        skipped = skips(skip, pieces, k + 1, skipped);
    }
    Ok(())
}

/// The fragments come to each device.
fn put_deliveries(
    alloc: Global,
    text: &mut Vec<u8>,
    draws: &mut Draws,
    pieces: u32,
) -> Result<(), AllocError>
    requires { pieces ≤ 1024 }
    ensures { IfOk result (λ _.
        text.new.items ≡ text.old.items ++ deliveries pieces draws.old.state 1 8) }
{
    for k in 0..DEVICES {
        put_fragments(alloc, text, draws, k + 1, pieces)?;
    }
    Ok(())
}
