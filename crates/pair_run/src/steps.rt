//! A line that is not refused, at the two worlds: one takes it, or both do, and what goes across.

ghost use Rattle.std.specs.Prelude.{◌≡◌, ◌<◌, ◌++◌, true, Ok, OnOk, OnErr};
ghost use Rattle.wire_base.specs.Numbered.{numbered};
ghost use Rattle.script_lines.specs.Limits.{max_lines};
ghost use Rattle.campaign_world.specs.Said.{Own};
ghost use Rattle.campaign_world.specs.HeldWorld.{WorldBecomes, KeepsEnds, IsFine};
ghost use Rattle.campaign_world.specs.Script.{after_line, one_line_more};
ghost use Rattle.pair_run.specs.PairMaking.{joined, reached_by};
ghost use Rattle.pair_run.specs.Sides.{is_quiet};
ghost use Rattle.pair_run.specs.HeldPair.{IsCrossing};

use crate::owners::Owner;
use campaign_world::World;
use report_lines::LineError;
use script_lines::{Campaign, Form};

/// Gives a line to both.
pub fn take_both(a: &mut World, b: &mut World, form: &Form) -> Result<(), LineError>
    requires quiet { is_quiet form.now ≡ true }
    requires a { IsFine a.old form.now }
    requires b { IsFine b.old form.now }
    requires room_a { a.old.lines < max_lines }
    requires room_b { b.old.lines < max_lines }
    ensures a { OnOk result
        (WorldBecomes a.old a.new (λ world. after_line world (Ok (Own form.now)))) }
    ensures b { OnOk result
        (WorldBecomes b.old b.new (λ world. after_line world (Ok (Own form.now)))) }
    ensures ends { OnErr result (KeepsEnds a.old a.new × KeepsEnds b.old b.new) }
{
    a.take(form)?;
    b.take(form)
}

/// Gives one a line of its own, which the other counts; the device of a device line is the next owner.
pub fn take_own(
    own: &mut World,
    other: &mut World,
    owners: &mut Vec<Owner>,
    campaign: Campaign,
    form: &Form,
) -> Result<(), LineError>
    requires fine { IsFine own.old form.now }
    requires room { own.old.lines < max_lines }
    requires room_other { other.old.lines < max_lines }
    ensures own { OnOk result
        (WorldBecomes own.old own.new (λ world. after_line world (Ok (Own form.now)))) }
    ensures other { OnOk result (WorldBecomes other.old other.new one_line_more) }
    ensures owners { OnOk result
        (owners.new.items ≡ owners.old.items ++ joined campaign form.now) }
    ensures ends { OnErr result (KeepsEnds own.old own.new × KeepsEnds other.old other.new) }
{
    let Form::Device(line) = form else {
        own.take(form)?;
        other.pass();
        return Ok(());
    };
    owners.reserve(1)?;
    own.take(form)?;
    other.pass();
    owners.push_reserved(Owner {
        campaign,
        number: line.id,
    });
    Ok(())
}

/// Takes a payload of one campaign's server to a device of the other.
pub fn cross(
    from: &mut World,
    to: &mut World,
    number: u64,
    device: u64,
    word: u64,
) -> Result<(), LineError>
    requires crossing { IsCrossing from.old to.old number device word }
    requires room { from.old.lines < max_lines }
    requires room_to { to.old.lines < max_lines }
    ensures from { OnOk result (WorldBecomes from.old from.new one_line_more) }
    ensures to { OnOk result (WorldBecomes to.old to.new
        (λ world. after_line world (Ok (reached_by device word (numbered from.old.sent number))))) }
    ensures ends { OnErr result (KeepsEnds from.old from.new × KeepsEnds to.old to.new) }
{
    carry(from, to, number, device, word)?;
    from.pass();
    Ok(())
}

/// Hands the payload over.
fn carry(from: &World, to: &mut World, number: u64, device: u64, word: u64) -> Result<(), LineError>
    requires crossing { IsCrossing from.now to.old number device word }
    requires room { to.old.lines < max_lines }
    ensures to { OnOk result (WorldBecomes to.old to.new
        (λ world. after_line world (Ok (reached_by device word (numbered from.now.sent number))))) }
    ensures ends { OnErr result (KeepsEnds to.old to.new) }
{
    // there are at most 64, so that the number of a device fits a byte
    let _few = to.count();
    let sent = from.sent(number).unwrap();
    to.reach(device as u8, &sent.down, word as u32)
}
