//! What the tests of names and addresses decide, and that terms may cross threads. Each function is a law: its contract is the
//! statement, and a call does nothing but bring it to the caller's proof.

ghost use Rattle.std.specs.Prelude.{◌↔◌, ℕ, List, IsTrue};
ghost use Rattle.std.specs.Thread.{IsSend, IsSync};
ghost use Rattle.lb_name.specs.Name.{IsUnder};
ghost use Rattle.lb_masks.specs.Mask.{Covers, Prefix};
ghost use Rattle.lb_terms.specs.Sets.{covers, is_under};
ghost use Rattle.lb_terms.specs.contracts.term.CheckedTerm as checked_term;
ghost use Rattle.lb_wire.specs.declared.addr.Addr.{Addr};

/// The test of a name holds where the name is the other one or stands below it.
pub fn suffix_test_decides()
    ensures { (name suffix : List (List ℕ)) → IsTrue (is_under name suffix) ↔ IsUnder name suffix }
{}

/// The test of an address holds where the prefix covers it.
pub fn mask_test_decides()
    ensures { (prefix : Prefix) (addr : Addr) → IsTrue (covers addr prefix) ↔ Covers prefix addr }
{}

/// A checked term may go to another thread, and may be shared with one.
pub fn terms_cross_threads()
    ensures send { IsSend checked_term.the_row }
    ensures sync { IsSync checked_term.the_row }
{}
