//! Terms.

ghost use Rattle.std.specs.Prelude.{◌≡◌, IfOk, IsTrue};
ghost use Rattle.lb_terms.specs.Selector.{selector_of};
ghost use Rattle.lb_terms.specs.Check.{IsChecked, checked_of};

use crate::check::{has_members, has_rates, has_small_sets, is_within, nodes_left};
use crate::copy::copied;
use crate::equality::is_equal;
use crate::fault::TermFault;
use crate::index::index_sets;
use crate::names::Names;
use lb_masks::Group;
use lb_wire::RecordType;
use std::alloc::{AllocError, Global};
use std::marker::Model;

/// The greatest depth of a term.
pub const MAX_DEPTH: usize = 16;

/// The most terms in a term, itself counted.
pub const MAX_NODES: usize = 64;

/// A rule selector: what a rule asks of a query.
#[derive(Debug, Drop)]
pub enum Term {
    /// Every query.
    All,
    /// The name asked for is one of these or stands below one.
    Suffix(Names),
    /// The query came from an address that one of these masks covers.
    Masks(Group),
    /// The type asked for is this one.
    Qtype(RecordType),
    /// All of these hold. They are tested in order, up to the first that does not.
    And(Vec<Term>),
    /// One of these holds. They are tested in order, up to the first that does.
    Or(Vec<Term>),
    /// This does not hold.
    Not(Box<Term>),
    /// The address has had so many queries within the last 1,000 milliseconds; addresses count as one that agree in as
    /// many first bits, the second number for IPv4 and the third for IPv6. Where it has not, the query is counted.
    MaxQps(u16, u8, u8),
}

/// A term within the limits on depth, size, members and rates. A contract sees it as its selector.
#[derive(Debug, Drop)]
pub struct CheckedTerm {
    term: Term,
}

impl Model for CheckedTerm {
    ghost use Rattle.lb_terms.specs.Selector.{Selector, selector_of};
    ghost use Rattle.lb_terms.specs.Check.{IsChecked};

    ghost Value = { Selector };

    ghost use Rattle.lb_terms.specs.Codes.{selector_code};
    ghost use Rattle.std.specs.Coded.{codes};

    ghost coded = { selector_code (Prim.hlevel codes) };

    ghost view = { λ t. selector_of t.term };

    ghost invariant = { λ t. IsChecked (selector_of t.term) };
}

impl Term {
    /// The term, where it is within the limits: depth 16, 64 terms in it, 1,024 names or masks in a set, a member in
    /// each And, Or and set, rates of 1 to 1,000 and lengths of at most 32 and 128. Else the first of its faults, in the
    /// order of `TermFault`; the term is dropped.
    pub fn checked(self) -> Result<CheckedTerm, TermFault>
        ensures { result ≡ checked_of (selector_of self) }
    {
        if !is_within(&self, MAX_DEPTH) {
            return Err(TermFault::TooDeep);
        }
        if nodes_left(&self, MAX_NODES).is_none() || !has_small_sets(&self) {
            return Err(TermFault::TooLarge);
        }
        if !has_members(&self) {
            return Err(TermFault::Empty);
        }
        if !has_rates(&self) {
            return Err(TermFault::BadRate);
        }
        Ok(CheckedTerm { term: self })
    }
}

impl CheckedTerm {
    /// The term.
    pub fn as_term(&self) -> &Term
        ensures term { selector_of result.now ≡ self.now }
        ensures within { IsChecked self.now }
    {
        &self.term
    }

    /// An equal term. The one error is lack of memory.
    pub fn copy(&self, alloc: Global) -> Result<CheckedTerm, AllocError>
        ensures { IfOk result (λ copy. copy ≡ self.now) }
    {
        Ok(CheckedTerm {
            term: copied(alloc, &self.term)?,
        })
    }

    /// Has each set of names or masks in the term found by an index from now on, where that is faster than a walk: more than 64
    /// names, or more than 16 masks for each length that they have. A term that is one set is left as it is: a rule of it is
    /// found by its set, and not tested for it. Nothing that is seen changes. The one error is lack of memory.
    pub fn index_sets(&mut self) -> Result<(), AllocError>
        ensures { self.new ≡ self.old }
    {
        match &self.term {
            Term::Suffix(_) | Term::Masks(_) => Ok(()),
            _ => index_sets(&mut self.term),
        }
    }

    /// Whether two terms are equal: the same members in the same order.
    pub fn equals(&self, other: &CheckedTerm) -> bool
        ensures equal { IsTrue result → self.now ≡ other.now }
        ensures found { self.now ≡ other.now → IsTrue result }
    {
        is_equal(&self.term, &other.term)
    }
}
