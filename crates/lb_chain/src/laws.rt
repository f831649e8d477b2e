//! What holds of every walk, and of rules as they are listed and seen at a moment, and that chains may cross threads.

ghost use Rattle.std.specs.Thread.{IsSend, IsSync};
ghost use Rattle.lb_chain.specs.Chain.{SeenAreRules};
ghost use Rattle.lb_chain.specs.Seen.{SeenWalks, SeenTwice};
ghost use Rattle.lb_chain.specs.Listed.{ListedAlikeSeenAlike, SeenHaveOwnLimiters};
ghost use Rattle.lb_chain.specs.Walk.{AllowedWhereNoneEnds, FirstToEndDecides, NoRuleAllows};
ghost use Rattle.lb_chain.specs.contracts.chain.Chain as chain;
ghost use Rattle.lb_chain.specs.contracts.listed.Listed as listed;

use lb_limits::{recent_are_passes, recent_twice};
use lb_terms::terms_cross_threads;

/// Passes that no longer count at a moment have no part in a walk then or later; nor has what is reserved.
pub fn seen_walks()
    ensures { SeenWalks }
{
    // A law, which does nothing.
    recent_twice();
}

/// What is seen later does not depend on what was seen before.
pub fn seen_twice()
    ensures { SeenTwice }
{
    // A law, which does nothing.
    recent_twice();
}

/// What is listed of rules determines what is seen of them at every moment, where each has the limiters of its term.
pub fn listed_alike_seen_alike()
    ensures { ListedAlikeSeenAlike }
{}

/// Rules that have the limiters of their terms have them as they are seen at a moment.
pub fn seen_have_own_limiters()
    ensures { SeenHaveOwnLimiters }
{}

/// What the list of a chain keeps true, it keeps true as it is seen at a moment.
pub fn seen_are_rules()
    ensures { SeenAreRules }
{
    // A law, which does nothing.
    recent_are_passes();
}

/// The first rule of the list that holds and ends the walk decides; where there is none, the query is allowed.
pub fn first_to_end_decides()
    ensures decides { FirstToEndDecides }
    ensures allows { AllowedWhereNoneEnds }
    ensures none { NoRuleAllows }
{}

/// A chain may go to another thread, and its listed rules may be shared with one.
pub fn chains_cross_threads()
    ensures chain { IsSend chain.the_row }
    ensures listed { IsSync listed.the_row }
{
    // A law, which does nothing.
    terms_cross_threads();
}
