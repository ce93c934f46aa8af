//! The report of two campaigns.

ghost use Rattle.std.specs.Prelude.{◌≡◌, ◌++◌, true, IfOk, codes};
ghost use Rattle.std.specs.Fmt.{decimal};
ghost use Rattle.report_lines.specs.Devices.{◌⧺◌};
ghost use Rattle.report_lines.specs.Texts.{IsText};
ghost use Rattle.campaign_world.specs.Causes.{has_begun};
ghost use Rattle.campaign_world.specs.HeldWorld.{WorldStands};
ghost use Rattle.pair_run.specs.Pair.{PairState};
ghost use Rattle.pair_run.specs.PairReport.{letter, cut_text, pair_image_text, pair_image_line, part_of, pair_parts, pair_report_of};

use crate::owners::Owner;
use campaign_server::Server;
use campaign_world::World;
use script_lines::Campaign;
use std::alloc::{AllocError, Global};

/// Makes the report: what each server sends, and the state of each device.
pub fn report(
    alloc: Global,
    a: &World,
    b: &World,
    owners: &Vec<Owner>,
) -> Result<Vec<u8>, AllocError>
    requires a { has_begun a.now.section ≡ true }
    requires b { has_begun b.now.section ≡ true }
    ensures { (pair : PairState) → WorldStands a.now pair.a → WorldStands b.now pair.b
        → pair.owners ≡ owners.now.items
        → IfOk result (λ text. text.items ≡ pair_report_of pair) }
{
    let (Some(server_a), Some(server_b)) = (a.server(), b.server()) else {
        unreachable!()
    };
    let mut text = head(alloc, server_a, server_b)?;
    let parts = pair_parts(alloc, a, b, owners)?;
    text.extend_from_slice(&parts)?;
    text.extend_from_slice(b"end\n")?;
    Ok(text)
}

/// What each sends, under the report's first line.
fn head(alloc: Global, a: &Server, b: &Server) -> Result<Vec<u8>, AllocError>
    ensures { IfOk result (λ text. text.items ≡ codes "fuota report 2\n"
        ++ (pair_image_line Campaign.A a.now ++ pair_image_line Campaign.B b.now)) }
{
    let image_a = pair_image_line(alloc, Campaign::A, a)?;
    let image_b = pair_image_line(alloc, Campaign::B, b)?;
    Ok(first_lines(alloc, image_a.as_str(), image_b.as_str())?.into_bytes())
}

fn first_lines(alloc: Global, image_a: &str, image_b: &str) -> Result<String, AllocError>
    ensures { IsText result (codes "fuota report 2\n" ++ (image_a.now ++ image_b.now)) }
{
    format!(in alloc; "fuota report 2\n{image_a}{image_b}")
}

/// The lines of each device, in the order of their IDs.
fn pair_parts(
    alloc: Global,
    a: &World,
    b: &World,
    owners: &Vec<Owner>,
) -> Result<Vec<u8>, AllocError>
    requires a { has_begun a.now.section ≡ true }
    requires b { has_begun b.now.section ≡ true }
    ensures { (pair : PairState) → WorldStands a.now pair.a → WorldStands b.now pair.b
        → pair.owners ≡ owners.now.items
        → IfOk result (λ text. text.items ≡ pair_parts pair 1 pair.owners) }
{
    let mut text = Vec::new(alloc);
    let mut id = 1u64;
    for owner in owners {
        let part = owned_part(alloc, a, b, id, *owner)?;
        text.extend_from_slice(part.as_bytes())?;
        id += 1;
    }
    Ok(text)
}

/// The lines of a device, under its ID and its campaign's letter.
fn owned_part(
    alloc: Global,
    a: &World,
    b: &World,
    id: u64,
    owner: Owner,
) -> Result<String, AllocError>
    requires a { has_begun a.now.section ≡ true }
    requires b { has_begun b.now.section ≡ true }
    ensures { (pair : PairState) → WorldStands a.now pair.a → WorldStands b.now pair.b
        → IsText result (part_of pair id owner) }
{
    let name = name_of(alloc, id, letter(owner.campaign))?;
    match owner.campaign {
        Campaign::A => a.device_lines(alloc, owner.number, name.as_str()),
        Campaign::B => b.device_lines(alloc, owner.number, name.as_str()),
    }
}

/// The letter of a campaign.
fn letter(campaign: Campaign) -> &'static str
    ensures { result.now ≡ letter campaign }
{
    match campaign {
        Campaign::A => "a",
        Campaign::B => "b",
    }
}

/// A device's name: its ID, and its campaign's letter.
fn name_of(alloc: Global, id: u64, letter: &str) -> Result<String, AllocError>
    ensures { IsText result (decimal id ⧺ codes " " ⧺ letter.now) }
{
    format!(in alloc; "{id} {letter}")
}

/// The line of a campaign's image.
fn pair_image_line(alloc: Global, campaign: Campaign, server: &Server) -> Result<String, AllocError>
    ensures { IsText result (pair_image_line campaign server.now) }
{
    let cut = cut_text(
        alloc,
        letter(campaign),
        server.image().len(),
        server.nb_frag(),
        server.frag_size(),
    )?;
    image_text(
        alloc,
        cut.as_str(),
        server.padding(),
        server.parity(),
        server.plan().index,
    )
}

fn cut_text(
    alloc: Global,
    letter: &str,
    size: usize,
    fragments: u16,
    frag_size: u8,
) -> Result<String, AllocError>
    ensures { IsText result (cut_text letter.now size fragments frag_size) }
{
    format!(in alloc; "image {letter} {size} fragments {fragments} size {frag_size}")
}

fn image_text(
    alloc: Global,
    cut: &str,
    padding: u8,
    parity: u16,
    index: u8,
) -> Result<String, AllocError>
    ensures { IsText result (pair_image_text cut.now padding parity index) }
{
    format!(in alloc; "{cut} padding {padding} parity {parity} index {index}\n")
}
