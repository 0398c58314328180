//! When a joiner can take the next packet. Nothing here runs.
ghost use Rattle.std.specs.Prelude.{◌≢◌, ℕ};
ghost use Rattle.block_pool.specs.declared.chain.Chain.{Chain as Kept};
ghost use Rattle.block_pool.specs.Pool.{PoolState, KeepsOthers, Gives, Passes};
ghost use Rattle.hcp_chain.specs.declared.joiner.Open.{Open as UnderWay};
ghost use Rattle.hcp_chain.specs.declared.joiner.Joiner.{Joiner as Joins};
ghost use Rattle.hcp_chain.specs.Holding.{IsJoinerReady, HoldsWhole};

/// A joiner whose message was given back, or passed to another owner, can take the next packet.
pub fn a_joiner_is_ready_again()
    ensures given { (pool new : PoolState) (joiner : Joins) (whole : UnderWay) → HoldsWhole pool joiner whole
        → Gives pool new whole.chain → KeepsOthers pool new whole.chain whole.chain → IsJoinerReady new joiner }
    ensures passed { (pool new : PoolState) (joiner : Joins) (whole : UnderWay) (after : Kept) (owner : ℕ) → HoldsWhole pool joiner whole
        → owner ≢ joiner.owner → Passes pool new whole.chain after owner → KeepsOthers pool new whole.chain after → IsJoinerReady new joiner }
{}
