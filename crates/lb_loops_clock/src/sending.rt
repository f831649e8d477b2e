//! What a turn of the clock sends.

ghost use Rattle.std.specs.Prelude.{[], Bool, IfOk, List, None, Some, false, get_or, if◌then◌else◌, slice_get, ◌++◌, ◌==◌, ◌∷◌, ◌≡◌};
ghost use Rattle.lb_loops_clock.specs.Lines.{ComesBy, ProbeComes, expired_in as expired_in_spec, is_done, job_again as job_again_spec, probe_to, unsent as unsent_spec};
ghost use Rattle.lb_loops_clock.specs.Turn.{FailsBy, Sends};
ghost use Rattle.lb_loops_clock.specs.World.{listened};
ghost use Rattle.lb_health.specs.Probes.{probe_octets};
ghost use Rattle.lb_loops_io.specs.Letter.{outcome_letter};
ghost use Rattle.lb_loops_io.specs.Lines.{is_by_device};
ghost use Rattle.lb_loops_io.specs.Ways.{job_in, packet_in, post_in};
ghost use Rattle.lb_loops_io.specs.declared.letter.End.TheVariants.{Client};
ghost use Rattle.lb_loops_io.specs.declared.report.Way.TheVariants as ways;
ghost use Rattle.lb_loops_io.specs.declared.roster.Listed.{Listed};

use crate::clock::ClockLoop;
use lb_core::Answer;
use lb_health::probe;
use lb_loops_io::{
    Datagrams, End, Endpoint, Line, Outcome, Outside, Posts, Reported, Sending, Service, Socket,
    Taker, Way, Why, letter_of,
};
use lb_outbox::{Job, Sender};
use lb_wire::{Octets, Origin, ServerId};
use std::alloc::{AllocError, Global};
use std::sync::Wait;

impl<S: Datagrams, P: Posts, T: Taker, O: Outside> ClockLoop<S, P, T, O> {
    /// Sends what came of an event: a message at most. The clock has no way to a server.
    #[tactic(auto, using(crate::proofs::Letters::sends_none, crate::proofs::Letters::sends_to_server))]
    pub(crate) fn send_outcome<R: Wait>(
        &mut self,
        rt: &R,
        event: &Reported,
        outcome: &Outcome,
    ) -> Sending
        ensures { Sends self.old self.new (outcome_letter event.now outcome.now) result }
    {
        match letter_of(event, outcome) {
            Some((End::Client(origin), bytes)) => self.send_to_client(rt, origin, bytes),
            Some((End::Server(..), _)) => Sending::Failed(Why::Gone),
            None => Sending::Nothing,
        }
    }

    /// Sends a message to a client, by what its listener is.
    #[tactic(auto, using(crate::proofs::Letters::sends_nowhere))]
    fn send_to_client<R: Wait>(&mut self, rt: &R, origin: Origin, bytes: &Octets) -> Sending
        ensures { Sends self.old self.new (Some (Client origin, bytes.now)) result }
    {
        match service_of(self.fronts.as_slice(), origin) {
            None | Some(Service::Console) => Sending::Failed(Why::Gone),
            Some(Service::Datagram) => send_packet(&mut self.sockets, origin, bytes),
            Some(Service::Stream) => send_job(rt, self.alloc, &mut self.sender, origin, bytes),
            Some(Service::Http) => hand(&mut self.posts, origin, bytes),
        }
    }
}

/// What listens at the place that a query came to.
fn service_of(fronts: &[Service], origin: Origin) -> Option<Service>
    ensures { result ≡ slice_get fronts.now origin.front }
{
    fronts.get(usize::from(origin.front)).copied()
}

/// Sends a message by the listener's shared socket.
fn send_packet<S: Datagrams>(sockets: &mut S, origin: Origin, bytes: &Octets) -> Sending
    ensures comes { ComesBy (if origin.slot == 0 then Some ways.Datagram else None) (get_or (listened (S.listens sockets.old)) origin.front false) result }
    ensures taken { (roster : List Listed) → S.taken sockets.new ≡ S.taken sockets.old ++ packet_in roster (Some (Client origin, bytes.now)) result }
    ensures apart { (job_in (Some (Client origin, bytes.now)) result ≡ []) × (post_in (Some (Client origin, bytes.now)) result ≡ []) }
    ensures failed { FailsBy (is_by_device result) (S.failures sockets.old) (S.failures sockets.new) }
    ensures same { (S.given sockets.new ≡ S.given sockets.old) × (S.listens sockets.new ≡ S.listens sockets.old) × (S.reads sockets.new ≡ S.reads sockets.old) }
{
    if origin.slot != 0 {
        return Sending::Failed(Why::Gone);
    }
    let to = Endpoint {
        addr: origin.source,
        port: origin.port,
    };
    match sockets.send(Socket::Listener(origin.front), to, bytes) {
        Ok(()) => Sending::Done(Way::Datagram),
        Err(why) => Sending::Failed(why),
    }
}

/// Makes a message a job of the loop of streams.
fn send_job<R: Wait>(
    rt: &R,
    alloc: Global,
    outbox: &mut Sender,
    origin: Origin,
    bytes: &Octets,
) -> Sending
    ensures comes { (there : Bool) → ComesBy (Some ways.Outbox) there result }
    ensures sent { outbox.new ≡ record outbox.old { sent = outbox.old.sent ++ job_in (Some (Client origin, bytes.now)) result } }
    ensures apart { ((roster : List Listed) → packet_in roster (Some (Client origin, bytes.now)) result ≡ []) × (post_in (Some (Client origin, bytes.now)) result ≡ []) }
    ensures device { is_by_device result ≡ false }
{
    let copy = match bytes.copy(alloc) {
        Ok(copy) => copy,
        Err(refused) => return Sending::Failed(Why::from(refused)),
    };
    match outbox.send(rt, Job::ToClient(origin, copy)) {
        Ok(()) => Sending::Done(Way::Outbox),
        Err(_back) => Sending::Failed(Why::Full),
    }
}

/// The answer of a query that timed out, if there was no memory for its copy.
pub(crate) fn unsent(line: Line) -> Option<(Origin, Octets)>
    ensures { result ≡ unsent_spec line }
{
    let Line::Event(_, _event, outcome, sending) = line else {
        return None;
    };
    match sending {
        Sending::Failed(Why::NoMemory) => expired_in(outcome),
        _ => None,
    }
}

/// The answer of a query that timed out, and its client.
fn expired_in(outcome: Outcome) -> Option<(Origin, Octets)>
    ensures { result ≡ expired_in_spec outcome }
{
    let Outcome::Answered(answer) = outcome else {
        return None;
    };
    match answer {
        Answer::Expired(origin, bytes) => Some((origin, bytes)),
        _ => None,
    }
}

/// The job that carries such an answer itself, if its client is one of streams.
pub(crate) fn job_again(fronts: &[Service], unsent: Option<(Origin, Octets)>) -> Option<Job>
    ensures { result ≡ job_again_spec fronts.now unsent }
{
    let (origin, bytes) = unsent?;
    match service_of(fronts, origin) {
        Some(Service::Stream) => Some(Job::ToClient(origin, bytes)),
        _ => None,
    }
}

/// Hands a message to the HTTP request that waits for it.
fn hand<P: Posts>(posts: &mut P, origin: Origin, bytes: &Octets) -> Sending
    ensures comes { (there : Bool) → ComesBy (Some ways.Post) there result }
    ensures handed { P.handed posts.new ≡ P.handed posts.old ++ post_in (Some (Client origin, bytes.now)) result }
    ensures apart { ((roster : List Listed) → packet_in roster (Some (Client origin, bytes.now)) result ≡ []) × (job_in (Some (Client origin, bytes.now)) result ≡ []) }
    ensures device { is_by_device result ≡ false }
{
    match posts.hand(origin, bytes) {
        Ok(()) => Sending::Done(Way::Post),
        Err(why) => match why {
            Why::NoMemory => Sending::Failed(why),
            _ => Sending::Failed(Why::Gone),
        },
    }
}

/// Sends a probe with this word to a server, from its first upstream socket.
pub(crate) fn send_probe<S: Datagrams>(
    alloc: Global,
    sockets: &mut S,
    server: ServerId,
    word: u16,
    at: Endpoint,
) -> Sending
    ensures comes { ProbeComes result }
    ensures taken { S.taken sockets.new ≡ S.taken sockets.old ++ (if is_done result then probe_to server word at ∷ [] else []) }
    ensures failed { FailsBy (is_by_device result) (S.failures sockets.old) (S.failures sockets.new) }
    ensures same { (S.given sockets.new ≡ S.given sockets.old) × (S.listens sockets.new ≡ S.listens sockets.old) × (S.reads sockets.new ≡ S.reads sockets.old) }
{
    let bytes = match probe_message(alloc, word) {
        Ok(bytes) => bytes,
        Err(refused) => return Sending::Failed(Why::from(refused)),
    };
    match sockets.send(Socket::Server(server, 0, at), at, &bytes) {
        Ok(()) => Sending::Done(Way::Datagram),
        Err(why) => Sending::Failed(why),
    }
}

/// The octets of a probe as a message. The one error is lack of memory.
fn probe_message(alloc: Global, word: u16) -> Result<Octets, AllocError>
    ensures { IfOk result (λ bytes. bytes ≡ probe_octets word) }
{
    let bytes = probe(word);
    Ok(Octets::from_vec(Vec::from_slice(alloc, bytes.as_slice())?))
}
