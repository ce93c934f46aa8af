//! Laws about the definitions, each the contract of a function with an empty body.

ghost use Rattle.shard_laws.specs.Shards.{ShardsSendAlike};
ghost use Rattle.shard_laws.specs.WorkedShards.{WorkedShards};

/// Two servers of the same image, whose plans differ in their devices alone: over calls that have the same of those that send to
/// all, whatever uplinks come between them and wherever either of them ends and is restored, both send the same fragments and
/// status requests, with the same frame counts.
#[tactic(auto, using(crate::proofs::Shards::shards_send_alike))]
pub fn shards_send_alike()
    ensures { ShardsSendAlike }
{}

/// What is the same of two shards, and which calls and answers count, worked out.
pub fn worked_shards()
    ensures { WorkedShards }
{}
