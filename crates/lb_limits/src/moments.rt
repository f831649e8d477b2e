//! The moments of passes, as lists that ascend.

ghost use Rattle.std.specs.Prelude.{◌≡◌, ◌≤◌, length};
ghost use Rattle.std.specs.List.Sorted.{IsNonDecreasing};
ghost use Rattle.lb_limits.specs.Moments.{is_recent, recent_of};

/// How long a pass counts, in milliseconds.
pub const WINDOW: u64 = 1000;

/// Whether a moment counts.
pub(crate) fn is_recent(now: u64, moment: u64) -> bool
    ensures { result ≡ is_recent now moment }
{
    now.saturating_sub(moment) < WINDOW
}

/// How many of the moments count.
pub(crate) fn recent_count(moments: &[u64], now: u64) -> usize
    requires { IsNonDecreasing moments.now }
    ensures count { result ≡ length (recent_of now moments.now) }
    ensures within { result ≤ length moments.now }
{
    moments.len() - moments.partition_point(|moment| !is_recent(now, *moment))
}
