//! The campaign of each device of a script.

ghost use Rattle.std.specs.Prelude.{◌≡◌, ◌<◌, ◌^◌, length};
ghost use Rattle.wire_base.specs.Numbered.{numbered};
ghost use Rattle.pair_run.specs.Pair.{is_same};

use script_lines::Campaign;

/// The campaign of a device, and the number that it has there, counted from 1.
#[derive(Clone, Copy)]
pub struct Owner {
    pub campaign: Campaign,
    pub number: u64,
}

/// Returns the campaign and number of the device with an ID; None where there is none.
pub fn owner_of(owners: &[Owner], id: u64) -> Option<Owner>
    requires { length owners.now < 2 ^ 63 }
    ensures { result ≡ numbered owners.now id }
{
    if id == 0 || id > owners.len() as u64 {
        return None;
    }
    Some(owners[id as usize - 1])
}

/// Says whether two campaigns are the same one.
pub fn is_same(x: Campaign, y: Campaign) -> bool
    ensures { result ≡ is_same x y }
{
    match (x, y) {
        (Campaign::A, Campaign::A) => true,
        (Campaign::B, Campaign::B) => true,
        _ => false,
    }
}
