//! Sockets of datagrams in memory.

ghost use Rattle.std.specs.Prelude.{length, ◌≡◌};
ghost use Rattle.lb_memory.specs.Datagrams.{told};

use http_server::Log;
use lb_loops_io::{Datagram, Datagrams, Endpoint, Received, Rooms, Socket, WaitFailed, Why};
use lb_wire::Octets;
use std::alloc::{AllocError, Global};
use std::collections::VecDeque;
use std::sync::{Arc, Mutex, Wait};

/// Which calls go wrong, each counted from 1; 0 is none.
#[derive(Clone, Copy, Debug, Default, PartialEq, Eq)]
pub struct Failing {
    /// The read at which the device fails.
    pub read: u64,
    /// The send at which the device fails.
    pub send: u64,
    /// The read that is refused for lack of memory.
    pub refused: u64,
}

/// What a test and sockets of datagrams in memory share: datagrams that come while a loop owns the sockets, and those that the sockets took.
#[derive(Drop)]
pub struct Packets {
    pub coming: VecDeque<Datagram>,
    pub taken: Vec<Datagram>,
}

impl Packets {
    /// None. It takes no memory.
    pub fn new(alloc: Global) -> Packets {
        Packets {
            coming: VecDeque::new(alloc),
            taken: Vec::new(alloc),
        }
    }
}

/// Sockets of datagrams in memory: as many listeners as are said, and one for any server. What is to come is given in its order, and then
/// what comes behind the lock; what is sent is kept there, where a test reads it.
#[derive(Drop)]
pub struct MemoryDatagrams<'a, R: Wait> {
    rt: &'a R,
    alloc: Global,
    listeners: u8,
    coming: VecDeque<Datagram>,
    packets: Arc<Mutex<Packets>>,
    failing: Failing,
    reads: u64,
    sends: u64,
    failures: u64,
    asked: Log<u64, u64>,
    given: Log<(Socket, Endpoint), Octets>,
    taken: Log<(Socket, Endpoint), Octets>,
}

impl<'a, R: Wait> MemoryDatagrams<'a, R> {
    /// Sockets with so many listeners, to which these datagrams come.
    pub fn new(
        rt: &'a R,
        alloc: Global,
        listeners: u8,
        coming: VecDeque<Datagram>,
        packets: Arc<Mutex<Packets>>,
        failing: Failing,
    ) -> MemoryDatagrams<'a, R> {
        MemoryDatagrams {
            rt,
            alloc,
            listeners,
            coming,
            packets,
            failing,
            reads: 0,
            sends: 0,
            failures: 0,
            asked: Log::new(),
            given: Log::new(),
            taken: Log::new(),
        }
    }

    /// The next datagram that comes.
    fn next(&mut self) -> Option<Datagram>
        ensures { self.new ≡ record self.old { coming = self.new.coming } }
    {
        match self.coming.pop_front() {
            Some(datagram) => Some(datagram),
            None => self.packets.lock(self.rt).coming.pop_front(),
        }
    }

    /// How often a device failed.
    pub fn failures(&self) -> u64
        ensures { result ≡ self.now.failures }
    {
        self.failures
    }
}

/// A refusal, from a growth that no memory has room for.
pub(crate) fn refuse(alloc: Global) -> Result<(), AllocError> {
    let _room: Vec<u8> = Vec::with_capacity(alloc, usize::MAX)?;
    Ok(())
}

impl<R: Wait> Datagrams for MemoryDatagrams<'_, R> {
    ghost use Rattle.std.specs.Prelude.{length, nat_lt};
    ghost use Rattle.lb_memory.specs.Datagrams.{told};

    ghost given = { λ m. told m.given.items };

    ghost taken = { λ m. told m.taken.items };

    ghost failures = { λ m. m.failures };

    ghost reads = { λ m. length m.asked.items };

    ghost listens = { λ m front. nat_lt front m.listeners };

    #[inline(always)]
    fn receive(&mut self, _rooms: &mut Rooms) -> Result<Received, AllocError> {
        self.asked = self.asked.and(&0, &0);
        self.reads = self.reads.wrapping_add(1);
        if self.reads == self.failing.refused {
            refuse(self.alloc)?;
        }
        if self.reads == self.failing.read {
            self.failures = self.failures.saturating_add(1);
            return Ok(Received::Failed);
        }
        let Some(datagram) = self.next() else {
            return Ok(Received::Nothing);
        };
        self.given = self
            .given
            .and(&(datagram.socket, datagram.peer), &datagram.bytes);
        Ok(Received::Packet(datagram))
    }

    fn wait(&mut self, _at_most: u64) -> Result<(), WaitFailed> {
        Ok(())
    }

    #[inline(always)]
    fn send(&mut self, socket: Socket, to: Endpoint, bytes: &Octets) -> Result<(), Why> {
        if let Socket::Listener(front) = socket
            && front >= self.listeners
        {
            return Err(Why::Gone);
        }
        self.sends = self.sends.wrapping_add(1);
        if self.sends == self.failing.send {
            self.failures = self.failures.saturating_add(1);
            return Err(Why::Device);
        }
        let bytes = bytes.copy(self.alloc)?;
        let taken = self.taken.and(&(socket, to), &bytes);
        let mut packets = self.packets.lock(self.rt);
        packets.taken.reserve(1)?;
        packets.taken.push_reserved(Datagram {
            socket,
            peer: to,
            bytes,
        });
        self.taken = taken;
        Ok(())
    }
}
