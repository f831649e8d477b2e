//! What turns stand on: sockets, the desk, a gate, waiting requests, and what else is outside.

ghost use Rattle.std.specs.Prelude.{[], Bool, IfErr, IfNone, IfOk, IfSome, List, OnErr, OnOk, ◌++◌, ◌+◌, ◌∷◌, ◌≡◌, ℕ};
ghost use Rattle.lb_step.specs.declared.answer.Answer.{Answer};
ghost use Rattle.lb_step.specs.declared.event.Event.{Event};
ghost use Rattle.lb_loops_io.specs.Counts.{Fails, Grows};
ghost use Rattle.lb_loops_io.specs.Moves.{Came, Dialed, Gave, GavePiece, Sent, Took, Traffic, TurnedAway};
ghost use Rattle.lb_loops_io.specs.Stamps.{Stamp};
ghost use Rattle.lb_loops_io.specs.declared.traffic.Datagram.{Datagram};
ghost use Rattle.lb_wire.specs.declared.addr.Origin.{Origin};

use crate::endpoint::Endpoint;
use crate::report::Why;
use crate::rooms::Rooms;
use crate::traffic::{Accepted, Read, Ready, Received, Socket, WaitFailed};
use lb_core::{Answer, Event};
use lb_desk::DeskFault;
use lb_wire::{Octets, Origin};
use std::alloc::AllocError;

/// The sockets of datagrams of a loop: its listeners, and one for each server and upstream socket.
/// They tell each datagram that they gave and took, in order, how often they were asked for one,
/// and how often a device failed (up to 2^64-1, where the count stays).
pub trait Datagrams: Drop {
    ghost given: { Self → List Datagram };

    ghost taken: { Self → List Datagram };

    ghost failures: { Self → ℕ };

    /// How often a datagram was asked for, whatever came of it.
    ghost reads: { Self → ℕ };

    /// Whether there is a listener of this place.
    ghost listens: { Self → ℕ → Bool };

    /// The next datagram, if there is one, in a block of these where there is one. Room for it is taken before it is read; refused, none is read.
    fn receive(&mut self, rooms: &mut Rooms) -> Result<Received, AllocError>
        ensures gave { Gave result (given self.old) (given self.new) (failures self.old) (failures self.new) }
        ensures read { reads self.new ≡ reads self.old + 1 }
        ensures same { (taken self.new ≡ taken self.old) × (listens self.new ≡ listens self.old) };

    /// Waits until a socket has a datagram, or somebody wakes it, or so many milliseconds have passed.
    fn wait(&mut self, at_most: u64) -> Result<(), WaitFailed>
        ensures same { (given self.new ≡ given self.old) × (taken self.new ≡ taken self.old) × (listens self.new ≡ listens self.old) }
        ensures counts { (failures self.new ≡ failures self.old) × (reads self.new ≡ reads self.old) };

    /// Sends one datagram. Refused, no octet of it was sent: there is no such listener (Gone), a device failed, or memory was lacking.
    fn send(&mut self, socket: Socket, to: Endpoint, bytes: &Octets) -> Result<(), Why>
        ensures sent { Sent result (listens self.old) (record { socket = socket; peer = to; bytes = bytes.now }) (taken self.old) (taken self.new) (failures self.old) (failures self.new) }
        ensures same { (given self.new ≡ given self.old) × (listens self.new ≡ listens self.old) × (reads self.new ≡ reads self.old) };
}

/// The stream connections of a loop, by the numbers that the loop gives them. They tell each piece
/// that they gave and took, who came and whom was dialled, which ended, at which a device failed,
/// for which there was no room, how often they were read or asked for a client, and how often a
/// device failed (up to 2^64-1, where the count stays).
pub trait Streams: Drop {
    ghost told: { Self → Traffic };

    /// The next thing to do. That a connection may be read or written is told once for what has come; what a read leaves there is told again.
    fn ready(&mut self) -> Ready
        ensures same { told self.new ≡ told self.old };

    /// Has it told once more that this connection may be read.
    fn resume(&mut self, connection: u64)
        ensures same { told self.new ≡ told self.old };

    /// Takes in a client that waits, as the connection with this number. Refused for lack of memory, it waits on.
    fn accept(&mut self, connection: u64) -> Result<Accepted, AllocError>
        ensures came { Came result connection (told self.old) (told self.new) };

    /// Takes in a client that waits, and closes its connection at once.
    fn turn_away(&mut self) -> Accepted
        ensures turned { TurnedAway result (told self.old) (told self.new) };

    /// Begins a connection to this end, with this number. What is written before it stands is not taken.
    fn dial(&mut self, connection: u64, to: Endpoint) -> Result<(), Why>
        ensures dialed { Dialed result connection to (told self.old) (told self.new) };

    /// A piece of a connection, of at most 16,384 octets. Room for it is taken before it is read; refused, nothing is read.
    fn read_from(&mut self, connection: u64) -> Result<Read, AllocError>
        ensures gave { GavePiece result connection (told self.old) (told self.new) };

    /// Writes from the front of these octets; how many were taken, which may be none. Refused, the peer takes no more (Gone) or a device failed.
    fn write_to(&mut self, connection: u64, octets: &[u8]) -> Result<usize, Why>
        ensures took { Took result connection octets.now (told self.old) (told self.new) };

    /// Ends a connection.
    fn close(&mut self, connection: u64)
        ensures same { told self.new ≡ told self.old };

    /// Waits until there is something to do, or somebody wakes it, or so many milliseconds have passed.
    fn wait(&mut self, at_most: u64) -> Result<(), WaitFailed>
        ensures same { told self.new ≡ told self.old };
}

/// Event handler: hands events to the desk. It tells how many were answered, and a list of events with their answers, to which a call adds
/// its own pair or nothing.
pub trait Taker: Drop {
    ghost answered: { Self → ℕ };

    ghost pairs: { Self → List (Event × Answer) };

    /// One call. A refused event comes back, and nothing was asked of the balancer.
    fn take(&mut self, event: Event) -> Result<Answer, (DeskFault, Event)>
        ensures answered { IfOk result (λ answer. (answered self.new ≡ answered self.old + 1) × Grows (pairs self.old) (pairs self.new) ((event, answer) ∷ [])) }
        ensures fault { IfErr result (λ fault. (answered self.new ≡ answered self.old) × (pairs self.new ≡ pairs self.old) × (fault.1 ≡ event)) };
}

/// Hook before each event, for tests of interleaving.
pub trait Gate: Drop {
    /// Whether the event may go on. It may wait.
    fn pass(&self, event: &Event) -> bool;
}

/// Source of moments and random words. It tells what it said, in order, and how often it failed (up to 2^64-1, where the count stays).
pub trait Outside: Drop {
    ghost said: { Self → List Stamp };

    ghost failures: { Self → ℕ };

    /// The moment in milliseconds and a random word. None where the clock or the source of words failed.
    fn ask(&mut self) -> Option<(u64, u16)>
        ensures said { IfSome result (λ stamp. (said self.new ≡ said self.old ++ (stamp.0, stamp.1) ∷ []) × (failures self.new ≡ failures self.old)) }
        ensures failed { IfNone result ((said self.new ≡ said self.old) × Fails (failures self.old) (failures self.new)) };
}

/// Delivery of answers to HTTP requests that wait. It tells those that were taken, in order.
pub trait Posts: Drop {
    ghost handed: { Self → List (Origin × List ℕ) };

    /// Hands an answer to the request of this origin. Refused, the request has ended (Gone) or memory was lacking.
    fn hand(&mut self, origin: Origin, bytes: &Octets) -> Result<(), Why>
        ensures handed { OnOk result (handed self.new ≡ handed self.old ++ (origin, bytes.now) ∷ []) }
        ensures same { OnErr result (handed self.new ≡ handed self.old) };
}

/// Wakes a loop that waits for its sockets.
pub trait Waker: Drop {
    /// The next wait of the loop, or the one that it is in, ends at once.
    fn wake(&self);
}
