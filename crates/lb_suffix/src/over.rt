//! What is filed over a name.

ghost use Rattle.std.specs.Prelude.{◌≡◌, List, ℕ, []};
ghost use Rattle.std.specs.List.{AllByRecursion};
ghost use Rattle.lb_name.specs.Name.{IsLabel, labels_octets};
ghost use Rattle.lb_index_ranks.specs.Least.{IsLeastFrom};
ghost use Rattle.lb_suffix.specs.Over.{IsOver};

use lb_index_ranks::{Ranks, lesser};

/// The least rank at or after a rank that is filed under the labels of the key or under the first of them.
pub(crate) fn next_over(ranks: &Ranks, key: &[u8], from: u64) -> Option<u64>
    requires { (labels : List (List ℕ)) × AllByRecursion IsLabel labels × (key.now ≡ labels_octets labels) }
    ensures { (labels : List (List ℕ)) → AllByRecursion IsLabel labels → key.now ≡ labels_octets labels → IsLeastFrom (IsOver ranks.now [] labels) from result }
{
    let mut best = None;
    let mut at = 0;
    'labels: loop {
        let (front, rest) = key.split_at(at);
        best = lesser(best, ranks.next_at(front, from));
        let Some(&len) = rest.first() else {
            return best;
        };
        at += usize::from(len) + 1;
    }
}
