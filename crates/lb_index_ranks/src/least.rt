//! The lesser of two ranks.

ghost use Rattle.std.specs.Prelude.{◌≡◌};
ghost use Rattle.lb_index_ranks.specs.Least.{lesser_of};

/// The lesser of two ranks, where there are two.
pub fn lesser(a: Option<u64>, b: Option<u64>) -> Option<u64>
    ensures { result ≡ lesser_of a b }
{
    match a {
        None => b,
        Some(x) => match b {
            None => Some(x),
            Some(y) => { if y < x { Some(y) } else { Some(x) } }
        },
    }
}
