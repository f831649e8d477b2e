//! That what hands answers to requests may cross threads. The function is a law: its contract is the statement, and a call does nothing but
//! bring it to the caller's proof.

ghost use denote.Ref.{NamedLft};
ghost use Rattle.std.specs.Thread.{IsSend};
ghost use Rattle.lb_doh.specs.contracts.posts.HttpPosts as posts;

use std::sync::Wait;

/// What hands answers to requests may go to another thread, where the handle by which it waits may be shared by threads.
pub fn posts_cross_threads<R: Wait + Sync>()
    ensures { (a : NamedLft) → IsSend (posts.the_row a R.row) }
{}
