//! Runs over lists of events.

ghost use Rattle.std.specs.Prelude.{◌≡◌, [], IfOk, IfErr, OnErr};
ghost use Rattle.lb_step.specs.Counts.{AreRaised};
ghost use Rattle.lb_step.specs.Routes.{routes_of};
ghost use Rattle.lb_core.specs.Counts.{times_in};
ghost use Rattle.lb_core.specs.CountsByNumber.{IsCountedRun};
ghost use Rattle.lb_core.specs.Provenance.{MeetsHits, MeetsProvenance};
ghost use Rattle.lb_core.specs.Runs.{IsRun};

use crate::laws::{cached_answers_are_kept_replies, hits_come_from_replies};
use lb_step::{Answer, Balancer, Event, Noted, Tally};
use std::alloc::{AllocError, Global};

/// Answers the events in order. Room for the answers is taken first: where it is refused, the events come back and
/// nothing is run. Where nothing was outstanding or kept when it began, each answer from a cache is that of a reply which was
/// kept in this run, and where one serves a query it is given; in any case it is that of a reply which was kept in this run or
/// when it began.
pub fn run(
    alloc: Global,
    balancer: &mut Balancer,
    events: Vec<Event>,
) -> Result<Vec<Answer>, (AllocError, Vec<Event>)>
    ensures run { IfOk result (λ answers. IsRun balancer.old events.items answers.items balancer.new) }
    ensures provenance { IfOk result (λ answers. balancer.old.outstanding ≡ [] → balancer.old.kept ≡ [] → MeetsProvenance (routes_of balancer.old) events.items answers.items) }
    ensures hits { IfOk result (λ answers. MeetsHits balancer.old events.items answers.items) }
    ensures back { IfErr result (λ e. e.1.items ≡ events.items) }
    ensures unchanged { OnErr result (balancer.new ≡ balancer.old) }
{
    // Laws, which do nothing.
    cached_answers_are_kept_replies();
    hits_come_from_replies();
    let mut answers = match Vec::with_capacity(alloc, events.len()) {
        Ok(answers) => answers,
        Err(error) => return Err((error, events)),
    };
    for event in events {
        answers.push(balancer.step(event)).unwrap();
    }
    Ok(answers)
}

/// The same run, which counts its events and answers: each count is the one from before and the
/// number of those that it is named for. Unless memory for a count was refused, so is each count of
/// a rule, a server and a cache by what the steps noted; what is removed takes its counts with it.
pub fn run_counted(
    alloc: Global,
    balancer: &mut Balancer,
    tally: &mut Tally,
    events: Vec<Event>,
) -> Result<Vec<Answer>, (AllocError, Vec<Event>)>
    ensures run { IfOk result (λ answers. IsCountedRun balancer.old events.items answers.items balancer.new tally.old.by_number tally.new.by_number) }
    ensures counts { IfOk result (λ answers. AreRaised (times_in events.items answers.items) tally.old.counts.items tally.new.counts.items) }
    ensures back { IfErr result (λ e. e.1.items ≡ events.items) }
    ensures unchanged { OnErr result (balancer.new ≡ balancer.old) }
    ensures uncounted { OnErr result (tally.new ≡ tally.old) }
{
    let mut answers = match Vec::with_capacity(alloc, events.len()) {
        Ok(answers) => answers,
        Err(error) => return Err((error, events)),
    };
    for event in events {
        let mut noted = Noted::none();
        answers
            .push(balancer.step_counted(event, tally, &mut noted))
            .unwrap();
    }
    Ok(answers)
}
