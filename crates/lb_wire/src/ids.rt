//! The numbers that rules, servers, caches and pools are known by. A line may say 0 of a rule, a server or a cache:
//! nothing has that number, so it is one that is not there.

ghost use Rattle.std.specs.Prelude.{◌≡◌};

/// The number of a rule: 1 to 2^64-1, never used again. A line may say 0, which no rule has.
#[derive(Clone, Copy, Debug, PartialEq, Eq)]
pub struct RuleId(pub u64);

/// The number of a server: 1 to 2^64-1, never used again. A line may say 0, which no server has.
#[derive(Clone, Copy, Debug, PartialEq, Eq)]
pub struct ServerId(pub u64);

/// The number of a packet cache: 1 to 2^64-1, never used again. A line may say 0, which no cache has.
#[derive(Clone, Copy, Debug, PartialEq, Eq)]
pub struct CacheId(pub u64);

/// The number of a pool; 0 is the default pool.
#[derive(Clone, Copy, Debug, PartialEq, Eq)]
pub struct PoolId(pub u8);

impl Default for PoolId {
    /// The default pool.
    fn default() -> PoolId
        ensures { result ≡ record { 0 = 0 } }
    {
        PoolId(0)
    }
}
