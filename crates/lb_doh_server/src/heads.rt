//! What the head of a request says.

ghost use Rattle.std.specs.Prelude.{Result, List, ℕ, ◌≡◌};
ghost use Rattle.std.specs.Net.Socket.{socket_port};
ghost use Rattle.http.specs.Request.{head_of};
ghost use Rattle.lb_doh_server.specs.Heads.{Begins, IsMedia, ReadsHead, source_of};
ghost use Rattle.lb_doh_message.specs.declared.fault.DohFault.{DohFault};
ghost use Rattle.lb_doh_message.specs.declared.request.DohHead.{DohHead};

use http::{Request, header};
use lb_doh::{DohFault, DohHead, read_head};
use lb_wire::{Addr, MAX_MESSAGE, Octets, Origin};
use std::alloc::Global;
use std::net::SocketAddr;

/// Who is at the other end of a connection, as the desk knows it, and at which listen line.
#[derive(Clone, Copy, Debug)]
pub struct Client {
    pub(crate) place: u8,
    pub(crate) source: Addr,
    pub(crate) port: u16,
}

impl Client {
    /// The client of a listener from this end.
    pub(crate) fn at(place: u8, end: SocketAddr) -> Client
        ensures { result ≡ record { place = place; source = source_of end; port = socket_port end } }
    {
        let source = match end {
            SocketAddr::V4(address) => Addr::V4(address.ip().octets()),
            SocketAddr::V6(address) => Addr::V6(address.ip().octets()),
        };
        Client {
            place,
            source,
            port: end.port(),
        }
    }

    /// Where its request with this number came from, and so where the answer goes.
    pub(crate) fn origin(&self, number: u64) -> Origin
        ensures { result ≡ record { front = self.now.place; slot = number; source = self.now.source; port = self.now.port } }
    {
        Origin {
            front: self.place,
            slot: number,
            source: self.source,
            port: self.port,
        }
    }
}

/// What there is to do once the head of a request has come.
#[derive(Debug, Drop)]
pub(crate) enum First {
    /// The request has a message, of a GET.
    Message(Octets),
    /// The body is to be read, of a POST.
    Body,
    /// The request is refused.
    Refused(DohFault),
}

/// What there is to do first, for a request whose body has at least so many octets.
pub(crate) fn first_of<B>(alloc: Global, request: &Request<B>, least: u64) -> First
    ensures { (read : Result DohHead DohFault) × ReadsHead request.now read × Begins read least result }
{
    begun(read_head_of(alloc, request), least)
}

/// What there is to do, by what the head is read as.
fn begun(read: Result<DohHead, DohFault>, least: u64) -> First
    ensures { Begins read least result }
{
    match read {
        Ok(DohHead::Message(message)) => First::Message(message),
        Ok(DohHead::Body) if least <= MAX_MESSAGE as u64 => First::Body,
        Ok(DohHead::Body) => First::Refused(DohFault::TooLong),
        Err(fault) => First::Refused(fault),
    }
}

/// What the head of a request is read as.
fn read_head_of<B>(alloc: Global, request: &Request<B>) -> Result<DohHead, DohFault>
    ensures { ReadsHead request.now result }
{
    read_head(
        alloc,
        request.method().as_str(),
        request.uri().path(),
        request.uri().query().unwrap_or(""),
        media_of(request),
    )
}

/// The media type of a request; the empty text if there is none, or if it is not ASCII.
fn media_of<B>(request: &Request<B>) -> &str
    ensures { IsMedia (head_of request.now).headers result.now }
{
    match request.headers().get(header::CONTENT_TYPE) {
        Some(value) => value.to_str().unwrap_or(""),
        None => "",
    }
}
