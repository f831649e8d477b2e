//! A walk over what is filed at a name and below it.

ghost use Rattle.std.specs.Prelude.{◌≡◌, drop, option_map, slice_get};
ghost use Rattle.lb_suffix.specs.Under.{pairs_before};
ghost use Rattle.lb_suffix.specs.Key.{end_of};

use crate::key::NameKey;
use lb_index_ranks::Cursor;
use std::marker::Model;

/// A walk over what is filed at a name and below it. A contract sees the pairs that it has not passed as a list. It takes
/// no memory.
#[derive(Debug, Drop)]
pub struct Under<'a> {
    cursor: Cursor<'a>,
    key: NameKey,
}

impl<'a> Model for Under<'a> {
    ghost use Rattle.std.specs.Prelude.{List};
    ghost use Rattle.lb_suffix.specs.Index.{Pair};
    ghost use Rattle.lb_suffix.specs.Key.{end_of};
    ghost use Rattle.lb_suffix.specs.Under.{pairs_before};

    ghost Value = { List Pair };

    ghost view = { λ u. pairs_before (end_of u.key) u.cursor };
}

impl<'a> Under<'a> {
    /// A walk from where the cursor stands, up to the end of what begins with the key.
    pub(crate) fn new(cursor: Cursor<'a>, key: NameKey) -> Under<'a>
        ensures { result ≡ pairs_before (end_of key) cursor.entry }
    {
        Under { cursor, key }
    }

    /// Passes the next pair and gives its rank; none where no pair is left.
    pub fn next(&mut self) -> Option<u64>
        ensures rank { result ≡ option_map (λ p. p.rank) (slice_get self.old 0) }
        ensures left { self.new ≡ drop 1 self.old }
    {
        self.cursor.next_below(self.key.as_end())
    }
}
