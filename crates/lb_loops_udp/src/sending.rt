//! What a turn of datagrams sends.

ghost use Rattle.std.specs.Prelude.{[], IsTrue, Some, ◌++◌, ◌∷◌, ◌≡◌, ◌≢◌, ℕ};
ghost use Rattle.lb_loops_udp.specs.Lines.{AreAsked, AreSent, Comes, FailsBy, IsAsked, IsSent, SentAs, hears, listened};
ghost use Rattle.lb_loops_io.specs.Counts.{Rose};
ghost use Rattle.lb_loops_io.specs.Letter.{outcome_letter};
ghost use Rattle.lb_loops_io.specs.Lines.{FirstFault, any_by_device, is_by_device};
ghost use Rattle.lb_loops_io.specs.Ways.{packet_in, packets, sending_of};
ghost use Rattle.lb_loops_io.specs.declared.report.DeviceFault.TheVariants as devices;
ghost use Rattle.lb_loops_io.specs.declared.letter.End.TheVariants.{Client, Server};

use lb_loops_io::{
    Datagrams, DeviceFault, End, Endpoint, Line, Outcome, Reported, Roster, Sending, Socket, Way,
    Why, fault_in, first_fault, letter_of,
};
use lb_wire::{Kind, Lane, Octets, Origin, ServerId};

/// Sends what came of the event of each line, in order, and reports whether a device failed.
pub(crate) fn send_lines<S: Datagrams>(
    sockets: &mut S,
    roster: &Roster,
    lines: &mut [Line],
) -> Option<DeviceFault>
    requires asked { AreAsked lines.old }
    ensures sent { AreSent roster.now.listed (hears (listened (S.listens sockets.old))) lines.old lines.new }
    ensures taken { S.taken sockets.new ≡ S.taken sockets.old ++ packets roster.now.listed lines.new }
    ensures failed { IsTrue (any_by_device lines.new) → Rose (S.failures sockets.old) (S.failures sockets.new) }
    ensures device { (o : ℕ) → FirstFault result (S.failures sockets.old) (S.failures sockets.new) o o }
    ensures clear { result ≢ Some devices.Outside }
    ensures same { (S.given sockets.new ≡ S.given sockets.old) × (S.listens sockets.new ≡ S.listens sockets.old) × (S.reads sockets.new ≡ S.reads sockets.old) }
{
    let mut device = None;
    for line in lines.iter_mut() {
        send_line(sockets, roster, line);
        device = first_fault(device, fault_in(line));
    }
    device
}

/// Sends what came of the event of a line.
fn send_line<S: Datagrams>(sockets: &mut S, roster: &Roster, line: &mut Line)
    requires asked { IsAsked line.old }
    ensures sent { IsSent roster.now.listed (hears (listened (S.listens sockets.old))) line.old line.new }
    ensures taken { S.taken sockets.new ≡ S.taken sockets.old ++ packets roster.now.listed (line.new ∷ []) }
    ensures failed { FailsBy (is_by_device (sending_of line.new)) (S.failures sockets.old) (S.failures sockets.new) }
    ensures same { (S.given sockets.new ≡ S.given sockets.old) × (S.listens sockets.new ≡ S.listens sockets.old) × (S.reads sockets.new ≡ S.reads sockets.old) }
{
    if let Line::Event(_, event, outcome, sending) = line {
        *sending = send_outcome(sockets, roster, event, outcome);
    }
}

/// Sends what came of an event: a message at most.
fn send_outcome<S: Datagrams>(
    sockets: &mut S,
    roster: &Roster,
    event: &Reported,
    outcome: &Outcome,
) -> Sending
    ensures comes { Comes roster.now.listed (hears (listened (S.listens sockets.old))) (outcome_letter event.now outcome.now) result }
    ensures taken { S.taken sockets.new ≡ S.taken sockets.old ++ packet_in roster.now.listed (outcome_letter event.now outcome.now) result }
    ensures failed { FailsBy (is_by_device result) (S.failures sockets.old) (S.failures sockets.new) }
    ensures same { (S.given sockets.new ≡ S.given sockets.old) × (S.listens sockets.new ≡ S.listens sockets.old) × (S.reads sockets.new ≡ S.reads sockets.old) }
{
    match letter_of(event, outcome) {
        Some((End::Client(origin), bytes)) => send_to_client(sockets, roster, origin, bytes),
        Some((End::Server(server, lane), bytes)) => {
            send_to_server(sockets, roster, server, lane, bytes)
        }
        None => Sending::Nothing,
    }
}

/// Sends a message to a client, from the listener that took its query.
fn send_to_client<S: Datagrams>(
    sockets: &mut S,
    roster: &Roster,
    origin: Origin,
    bytes: &Octets,
) -> Sending
    ensures comes { Comes roster.now.listed (hears (listened (S.listens sockets.old))) (Some (Client origin, bytes.now)) result }
    ensures taken { S.taken sockets.new ≡ S.taken sockets.old ++ packet_in roster.now.listed (Some (Client origin, bytes.now)) result }
    ensures failed { FailsBy (is_by_device result) (S.failures sockets.old) (S.failures sockets.new) }
    ensures same { (S.given sockets.new ≡ S.given sockets.old) × (S.listens sockets.new ≡ S.listens sockets.old) × (S.reads sockets.new ≡ S.reads sockets.old) }
{
    if origin.slot != 0 {
        return Sending::Failed(Why::Gone);
    }
    let to = Endpoint {
        addr: origin.source,
        port: origin.port,
    };
    send(sockets, Socket::Listener(origin.front), to, bytes)
}

/// Sends a message to a server, from the socket of its upstream socket.
fn send_to_server<S: Datagrams>(
    sockets: &mut S,
    roster: &Roster,
    server: ServerId,
    lane: Lane,
    bytes: &Octets,
) -> Sending
    ensures comes { Comes roster.now.listed (hears (listened (S.listens sockets.old))) (Some (Server server lane, bytes.now)) result }
    ensures taken { S.taken sockets.new ≡ S.taken sockets.old ++ packet_in roster.now.listed (Some (Server server lane, bytes.now)) result }
    ensures failed { FailsBy (is_by_device result) (S.failures sockets.old) (S.failures sockets.new) }
    ensures same { (S.given sockets.new ≡ S.given sockets.old) × (S.listens sockets.new ≡ S.listens sockets.old) × (S.reads sockets.new ≡ S.reads sockets.old) }
{
    let Some(place) = roster.get(server) else {
        return Sending::Failed(Why::NoServer);
    };
    match lane.kind {
        Kind::Stream => Sending::Failed(Why::Gone),
        Kind::Datagram => send(
            sockets,
            Socket::Server(server, lane.number, place.at),
            place.at,
            bytes,
        ),
    }
}

/// Sends a datagram.
fn send<S: Datagrams>(sockets: &mut S, socket: Socket, to: Endpoint, bytes: &Octets) -> Sending
    ensures sent { SentAs result (S.listens sockets.old) (record { socket = socket; peer = to; bytes = bytes.now }) (S.taken sockets.old) (S.taken sockets.new) }
    ensures failed { FailsBy (is_by_device result) (S.failures sockets.old) (S.failures sockets.new) }
    ensures same { (S.given sockets.new ≡ S.given sockets.old) × (S.listens sockets.new ≡ S.listens sockets.old) × (S.reads sockets.new ≡ S.reads sockets.old) }
{
    match sockets.send(socket, to, bytes) {
        Ok(()) => Sending::Done(Way::Datagram),
        Err(why) => Sending::Failed(why),
    }
}
