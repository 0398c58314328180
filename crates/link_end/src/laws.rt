//! What a node with several ends in one pool knows, from what each call ensures. Nothing here runs.
ghost use Rattle.std.specs.Prelude.{◌≡◌, ℕ, Option, Some, None, false, List, [], slice_get};
ghost use Rattle.block_pool.specs.declared.chain.Chain.{Chain as Blocks};
ghost use Rattle.block_pool.specs.Pool.{PoolState, IsNew, used_of, KeepsOthers, Gives};
ghost use Rattle.link_laws.specs.machine.Machine.{LinkEnd as Machine};
ghost use Rattle.link_messages.specs.Outgoing.{LeavesOthersBut};
ghost use Rattle.link_end.specs.declared.«end».End.{End as Kept};
ghost use Rattle.link_end.specs.Ends.{EndStandsFor, EndLeavesOthers, IsFree, MayTake, MayPass, HaveOwners, Accounts, Rests};

/// In a new pool an owner of 128 blocks and one of 512 are free for an end.
pub fn a_new_pool_is_free()
    ensures free { (pool : PoolState) (quotas : List ℕ) (sender receiver : ℕ) → IsNew pool quotas → slice_get quotas sender ≡ Some 128
        → slice_get quotas receiver ≡ Some 512 → IsFree pool sender receiver }
    ensures used { (pool : PoolState) (quotas : List ℕ) (owner : ℕ) → IsNew pool quotas → used_of pool owner ≡ 0 }
{}

/// An end that accounts for each block for what comes is at rest once its messages were fetched, and may take a frame then. A held one
/// may also while a message that was fetched lies in its blocks.
pub fn an_end_at_rest_may_take()
    ensures rests { (k : Kept) (pool : PoolState) (m : Machine) → EndStandsFor k pool m → Accounts k pool None → m.got ≡ [] → Rests k pool }
    ensures free { (k : Kept) (pool : PoolState) → Rests k pool → MayTake k pool }
    ensures held { (k : Kept) (pool : PoolState) (m : Machine) → EndStandsFor k pool m → m.shdlc.ready ≡ false → m.got ≡ []
        → MayTake k pool }
{}

/// Each call on an end keeps its account, and keeps the other ends in its pool with theirs.
pub fn a_call_keeps_the_accounts()
    ensures own { (old new : PoolState) (before after : Kept) (m : Machine) (chain : Option Blocks) → EndStandsFor before old m
        → EndLeavesOthers old new before after → Accounts before old chain → Accounts after new chain }
    ensures boxes { (pool : PoolState) (before after : Kept) (chain : Option Blocks) → after.inbox ≡ before.inbox
        → Accounts before pool chain → Accounts after pool chain }
    ensures others { (old new : PoolState) (before after other : Kept) (m n : Machine) (theirs : Option Blocks)
        → EndStandsFor before old m → EndLeavesOthers old new before after → HaveOwners before other
        → EndStandsFor other old n → Accounts other old theirs → EndStandsFor other new n × Accounts other new theirs }
{}

/// A message that was fetched may be given back to the pool.
pub fn a_fetched_message_is_given_back()
    ensures own { (old new : PoolState) (k : Kept) (m : Machine) (chain : Blocks) → EndStandsFor k old m → Accounts k old (Some chain)
        → Gives old new chain → KeepsOthers old new chain chain → EndStandsFor k new m × Accounts k new None }
    ensures others { (old new : PoolState) (k other : Kept) (n : Machine) (chain : Blocks) (theirs : Option Blocks)
        → Accounts k old (Some chain) → Gives old new chain → KeepsOthers old new chain chain → HaveOwners k other
        → EndStandsFor other old n → Accounts other old theirs → EndStandsFor other new n × Accounts other new theirs }
{}

/// A message that was fetched may be passed to the end that it came to.
pub fn a_fetched_message_is_sent_back()
    ensures may { (pool : PoolState) (k : Kept) (m : Machine) (chain : Blocks) → EndStandsFor k pool m → Accounts k pool (Some chain)
        → MayPass pool k chain }
    ensures own { (old new : PoolState) (k after : Kept) (m : Machine) (chain : Blocks) → EndStandsFor k old m
        → Accounts k old (Some chain) → after.inbox ≡ k.inbox
        → LeavesOthersBut old new k.outbox.owner chain k.outbox.queue.items after.outbox.queue.items → Accounts after new None }
    ensures others { (old new : PoolState) (k after other : Kept) (m n : Machine) (chain : Blocks) (theirs : Option Blocks)
        → EndStandsFor k old m → Accounts k old (Some chain)
        → LeavesOthersBut old new k.outbox.owner chain k.outbox.queue.items after.outbox.queue.items → HaveOwners k other
        → EndStandsFor other old n → Accounts other old theirs → EndStandsFor other new n × Accounts other new theirs }
{}

/// A message that was fetched from one end may be passed to another one in its pool.
pub fn a_fetched_message_is_passed_on()
    ensures may { (pool : PoolState) (from to : Kept) (m n : Machine) (chain : Blocks) → EndStandsFor from pool m
        → Accounts from pool (Some chain) → HaveOwners from to → EndStandsFor to pool n → MayPass pool to chain }
    ensures giver { (old new : PoolState) (from to after : Kept) (m n : Machine) (chain : Blocks) → EndStandsFor from old m
        → Accounts from old (Some chain) → HaveOwners from to → EndStandsFor to old n
        → LeavesOthersBut old new to.outbox.owner chain to.outbox.queue.items after.outbox.queue.items
        → EndStandsFor from new m × Accounts from new None }
    ensures taker { (old new : PoolState) (from to after : Kept) (n : Machine) (chain : Blocks) (theirs : Option Blocks)
        → Accounts from old (Some chain) → HaveOwners from to → EndStandsFor to old n → Accounts to old theirs → after.inbox ≡ to.inbox
        → LeavesOthersBut old new to.outbox.owner chain to.outbox.queue.items after.outbox.queue.items → Accounts after new theirs }
    ensures others { (old new : PoolState) (from to after other : Kept) (n o : Machine) (chain : Blocks) (theirs : Option Blocks)
        → Accounts from old (Some chain) → EndStandsFor to old n
        → LeavesOthersBut old new to.outbox.owner chain to.outbox.queue.items after.outbox.queue.items
        → HaveOwners from other → HaveOwners to other → EndStandsFor other old o → Accounts other old theirs
        → EndStandsFor other new o × Accounts other new theirs }
{}
