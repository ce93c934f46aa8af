//! What holds for the uplinks of any campaign that a world holds.

ghost use Rattle.campaign_laws.specs.OnceInWorld.{MovesOnceIn};

use campaign_world::World;

/// Each uplink of a campaign whose lines before it are honest moves a stage at most once: the uplink with this number, which has
/// one command (`World::uplink`), moves none once it has moved one, whatever lines come between.
pub fn each_uplink_moves_once(world: &World, number: u64)
    ensures { MovesOnceIn world.now number }
{
    // the promise of this call about the uplink is what the law is about
    let _uplink = world.uplink(number);
}
