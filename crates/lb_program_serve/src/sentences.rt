//! Sentences for an operator, on standard error: each is a line that begins with `lb: `.

ghost use Rattle.std.specs.Prelude.{string_bytes, true, ◌≡◌};
ghost use Rattle.lb_program_serve.specs.Sentences.{are_sentences};

use crate::descriptors::{Clients, limit, wanted};
use crate::fault::Fault;
use crate::listening::line_of;
use crate::switches::{Switch, Unknowns};
use lb_command::Protocol;
use lb_core::Balancer;
use lb_loops_io::Endpoint;
use lb_program::{Setup, places};
use lb_sockets::BindFault;
use lb_wire::Addr;
use std::alloc::{AllocError, Global};
use std::env::Env;
use std::fmt::Write;
use std::io;

/// The loopback address of IPv6.
const LOOPBACK: [u8; 16] = [0, 0, 0, 0, 0, 0, 0, 0, 0, 0, 0, 0, 0, 0, 0, 1];

/// The most unknown words of the environment that are reported.
const MOST_WORDS: u32 = 16;

/// The most bytes of such a word's name that are reported.
const MOST_SHOWN: usize = 256;

/// Sentences that are still to be reported.
#[derive(Debug, Drop)]
pub(crate) struct Sentences {
    text: String,
    ghost marked: { are_sentences (string_bytes text) ≡ true },
}

impl Sentences {
    /// None. It takes no memory.
    pub(crate) fn none(alloc: Global) -> Sentences {
        Sentences {
            text: String::new(alloc),
        }
    }

    /// What is reported, in lines.
    pub(crate) fn as_bytes(&self) -> &[u8]
        ensures { are_sentences result.now ≡ true }
    {
        self.text.as_bytes()
    }

    /// Adds a sentence.
    fn add(&mut self, alloc: Global, words: String) -> Result<(), AllocError> {
        let line = format!(in alloc; "lb: {words}\n")?;
        self.text.push_str(line.as_str())
    }

    /// What an operator should know before the program serves: that it may have few descriptors,
    /// and how many clients they suffice for; and that answers to a wildcard address leave by the
    /// system's choice.
    pub(crate) fn warn(
        &mut self,
        alloc: Global,
        text: &str,
        left: (&Setup, &Balancer),
        loops: u8,
        has_metrics: bool,
    ) -> Result<(), AllocError> {
        let (setup, balancer) = left;
        let lines = setup.listeners();
        let servers = places(alloc, balancer)?;
        let wanted = wanted(lines, servers.as_slice(), loops, has_metrics);
        if let Some(limit) = limit()
            && limit < wanted
        {
            let Clients { streams, http } = Clients::under(
                Some(limit),
                lines,
                servers.as_slice(),
                loops,
                has_metrics,
            );
            let words = format!(in alloc;
                "the system allows {limit} descriptors: {streams} clients by TCP and {http} by HTTP at a time; 1,024 of each and 256 servers need {wanted} (ulimit -n {wanted})"
            )?;
            self.add(alloc, words)?;
        }
        for (place, line) in lines.iter().enumerate() {
            if line.protocol == Protocol::Udp && is_wildcard(line.addr) {
                let number = line_of(text, place);
                let words = format!(in alloc;
                    "line {number}: answers leave by the address that the system chooses; where this machine has several, list each"
                )?;
                self.add(alloc, words)?;
            }
        }
        Ok(())
    }

    /// That all counts are given to other machines, if they are given at such an address.
    pub(crate) fn warn_of_metrics(
        &mut self,
        alloc: Global,
        end: Option<Endpoint>,
    ) -> Result<(), AllocError> {
        match end {
            Some(end) if !is_loopback(end.addr) => {
                let words =
                    "LB_METRICS is not on the loopback: who reaches its address reads all counts";
                self.add(alloc, String::from_str(alloc, words)?)
            }
            _ => Ok(()),
        }
    }

    /// That clients over TCP have no limits, if other machines reach a listener.
    pub(crate) fn warn_of_streams(
        &mut self,
        alloc: Global,
        setup: &Setup,
    ) -> Result<(), AllocError> {
        let is_reached = setup.listeners().iter().any(|line| line.protocol == Protocol::Tcp
            && !is_loopback(line.addr));
        if !is_reached {
            return Ok(());
        }
        let words =
            "clients over TCP may stay idle forever, and one address may have all connections: set LB_STREAMS_PER_SOURCE and LB_STREAM_IDLE";
        self.add(alloc, String::from_str(alloc, words)?)
    }

    /// The words of the environment that begin as a switch does and are none.
    pub(crate) fn warn_of_words<R: Env>(
        &mut self,
        alloc: Global,
        rt: &R,
    ) -> Result<(), AllocError> {
        let mut unknowns = Unknowns::new(alloc)?;
        for _ in 0..MOST_WORDS {
            let Some(name) = unknowns.next_name(rt) else {
                return Ok(());
            };
            self.add(alloc, no_switch(alloc, name)?)?;
        }
        Ok(())
    }

    /// What an operator should know of a fault.
    pub(crate) fn explain(&mut self, alloc: Global, fault: &Fault) -> Result<(), AllocError> {
        let words = match fault {
            Fault::Switch(switch) => of_switch(alloc, switch)?,
            Fault::NoThreads(count) => {
                format!(in alloc; "the system does not give {count} threads at a time")?
            }
            Fault::NoListener => String::from_str(alloc, "no line of the file listens")?,
            Fault::Bind(line, BindFault::Bind { at, error, .. }) => {
                format!(in alloc; "line {line}: cannot listen at {at}: {error}")?
            }
            Fault::System(error) => format!(in alloc; "the system: {error}")?,
            Fault::Output(error) => format!(in alloc; "standard output: {error}")?,
            Fault::Loops(fault) => format!(in alloc; "a loop ended: {fault}")?,
            Fault::Front(fault) => format!(in alloc; "DNS on HTTP ended: {fault}")?,
            Fault::Console => String::from_str(alloc, "the console: no moment is to be had")?,
            _ => return Ok(()),
        };
        self.add(alloc, words)
    }

    /// Why a file is not read.
    pub(crate) fn unreadable(
        &mut self,
        alloc: Global,
        file: &str,
        error: &io::Error,
    ) -> Result<(), AllocError> {
        let words = format!(in alloc; "cannot read {file}: {error}")?;
        self.add(alloc, words)
    }
}

/// Why a switch cannot be honoured.
fn of_switch(alloc: Global, switch: &Switch) -> Result<String, AllocError> {
    let words = match switch {
        Switch::Log(kind) => {
            return format!(in alloc; "LB_LOG: the file cannot be made: {kind}");
        }
        Switch::MetricsListener(kind) => {
            return format!(in alloc; "LB_METRICS: cannot listen there: {kind}");
        }
        Switch::Recent => "LB_RECENT is no number from 0 to 100,000",
        Switch::LogName => "LB_LOG is no name of a file",
        Switch::LogAnswers => "LB_LOG_ANSWERS is neither 0 nor 1",
        Switch::Loops => "LB_LOOPS is no number from 1 to 16",
        Switch::Metrics => "LB_METRICS is no ADDR:PORT, as 127.0.0.1:9453 or [::1]:9453",
        Switch::OfSource => "LB_STREAMS_PER_SOURCE is no number from 1 to 1,024",
        Switch::Idle => "LB_STREAM_IDLE is no number from 1 to 86,400",
    };
    String::from_str(alloc, words)
}

/// Whether only this machine reaches an address (RFC 1122 section 3.2.1.3, RFC 4291 section 2.5.3).
fn is_loopback(addr: Addr) -> bool {
    match addr {
        Addr::V4(octets) => octets[0] == 127,
        Addr::V6(_) => addr == Addr::V6(LOOPBACK),
    }
}

/// Whether an address stands for all of a machine's.
fn is_wildcard(addr: Addr) -> bool {
    addr == Addr::V4([0; 4]) || addr == Addr::V6([0; 16])
}

/// That a word of the environment is no switch.
fn no_switch(alloc: Global, name: &str) -> Result<String, AllocError> {
    if name.len() > MOST_SHOWN {
        let len = name.len();
        return format!(in alloc;
            "a word of the environment that begins with LB_ and has a name of {len} bytes is no switch"
        );
    }
    format!(in alloc; "{name} is no switch")
}
