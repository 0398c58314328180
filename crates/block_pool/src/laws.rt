//! What follows for chains that are kept together, from what one call on a pool ensures. Nothing here runs.
ghost use Rattle.std.specs.Prelude.{◌≡◌, ◌≢◌, ℕ, ◌<◌, List, length, slice_index};
ghost use Rattle.block_pool.specs.declared.chain.Chain.{Chain as Kept};
ghost use Rattle.block_pool.specs.declared.owners.Owner.{Owner as Counted};
ghost use Rattle.block_pool.specs.Owners.{owner_at, with_used};
ghost use Rattle.block_pool.specs.Slots.{ShareNoBlock, blocks_for};
ghost use Rattle.block_pool.specs.Pool.{PoolState, IsLive, IsApart, KeepsOthers, chain_bytes, chain_blocks};
ghost use Rattle.block_pool.specs.Holdings.{OwnsAll, LiesApart, KeptAll};

/// Live chains of two owners lie apart: no call on the one touches the other.
pub fn chains_of_two_owners_lie_apart()
    ensures { (pool : PoolState) (one other : Kept) → IsLive pool one → IsLive pool other → one.owner ≢ other.owner → IsApart one other }
{}

/// A call on one chain keeps all chains that lie apart from it, with their bytes and the blocks that they use, and they lie apart
/// from what it became.
pub fn a_call_keeps_what_lies_apart()
    ensures { (old new : PoolState) (owner : ℕ) (before after : Kept) (chains : List Kept) → KeepsOthers old new before after
        → OwnsAll Kept (λ c. c) old owner chains → LiesApart Kept (λ c. c) chains before
        → KeptAll Kept (λ c. c) old new owner chains × LiesApart Kept (λ c. c) chains after }
{}

/// Where one owner's use changes, that of no other one does.
pub fn one_owner_is_counted_at_a_time()
    ensures use_of { (owners : List Counted) (o n : ℕ) → o < length owners → (owner_at (with_used owners o n) o).used ≡ n }
    ensures others { (owners : List Counted) (o n p : ℕ) → p ≢ o → owner_at (with_used owners o n) p ≡ owner_at owners p }
{}

/// Two chains that lie apart share no block, and a chain holds each of its blocks once.
pub fn chains_that_lie_apart_share_no_block()
    ensures apart { (pool : PoolState) (one other : Kept) (k j : ℕ) → ShareNoBlock pool.slots pool.places → IsApart one other
        → k < length (chain_blocks pool one) → j < length (chain_blocks pool other)
        → slice_index (chain_blocks pool one) k ≢ slice_index (chain_blocks pool other) j }
    ensures once { (pool : PoolState) (chain : Kept) (k j : ℕ) → ShareNoBlock pool.slots pool.places
        → k < length (chain_blocks pool chain) → j < length (chain_blocks pool chain)
        → slice_index (chain_blocks pool chain) k ≡ slice_index (chain_blocks pool chain) j → k ≡ j }
    ensures blocks { (pool : PoolState) (chain : Kept) → ShareNoBlock pool.slots pool.places
        → length (chain_blocks pool chain) ≡ blocks_for (length (chain_bytes pool chain)) }
{}
