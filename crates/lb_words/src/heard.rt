//! The words of the console, read from a line that is no command.

ghost use Rattle.std.specs.Prelude.{IfOk};
ghost use Rattle.lb_words.specs.Heard.{IsHeard, IsListed, IsSaid};

use crate::lines::Lines;
use crate::metrics::metrics;
use crate::recent::{Wanted, Wording, fault, recent};
use crate::seen::Beside;
use crate::setup::setup;
use crate::told::{AtDesk, Shown, Told};
use crate::top::{By, top};
use crate::typed::{next_word, number_of};
use crate::watch::Watch;
use crate::word::{Word, word_of};
use crate::{lists, program};
use lb_command::{CommandFault, FaultKind, Listener};
use lb_desk::{Desk, Naming};
use lb_recent::Rings;
use lb_sends::Sends;
use lb_wire::RuleId;
use std::alloc::{AllocError, Global};
use std::sync::{Arc, Wait};
use std::time::{Clock, Instant};

/// What `help` says, a line each.
const HELP: [&str; 38] = [
    "help                                 these lines",
    "version                              the program, its SHA-256, and for how many seconds it has run",
    "quit                                 closes this connection",
    "stop                                 ends serving, and says how many calls the desk had",
    "rules                                each rule: its number, its place, how many walks it ended, its text",
    "rules ID                             the rule with this number, whole",
    "servers                              each server: its number, name and address, its state and counts,",
    "                                     for how many seconds it is up or down, and its last probe",
    "pools                                each pool: its policy, its servers that are up, its cache",
    "caches                               each cache: what it keeps of what it may keep, its hits",
    "counters                             counts of events, answers and failed sends",
    "metrics                              all counts, also by rule, server and pool, for Prometheus",
    "setup                                what stands now, as lines of a setup file",
    "recent [N] [FILTER]                  the last N queries that ended (10), the newest last",
    "top sources|names|rules [N] [FILTER] what the last queries have most often, and its share",
    "show                                 how much there is of each part",
    "rule add [at PLACE] TERM ACTION      adds a rule, at the end or at a place from 0 on",
    "rule remove ID                       removes the rule with this number",
    "rule move ID PLACE                   moves it",
    "server add NAME ADDR PORT [order N] [pool POOL] [fall N] [rise N] [resolve] [lanes N]",
    "server remove NAME                   removes the server with this name, which is no number",
    "server mode NAME up|down|auto        puts the server with this name, which is no number, into a mode",
    "pool add POOL                        adds a pool; - is the default pool, which is always there",
    "pool policy POOL firstAvailable|leastOutstanding|roundrobin",
    "cache attach POOL MAX SHARDS MAXTTL [skip none|CODE,..]",
    "cache detach POOL                    takes the cache of a pool away",
    "expunge POOL name NAME [TYPE]        removes the kept replies for a name, or for one of its types",
    "expunge POOL suffix NAME             removes those for a name and for all names below it",
    "expunge POOL all                     removes all",
    "timeout MS                           how long a query waits for its reply, from now on",
    "FILTER is dropped, rule ID, server NAME, from ADDR/BITS or under NAME; LB_RECENT=N in the",
    "  environment says how many queries are noted, and without it none is",
    "TERM is all, suffix(NAME,..), masks(ADDR/BITS,..), qtype(TYPE), maxqps(QPS[,V4BITS,V6BITS]),",
    "  and(TERM,..), or(TERM,..) or not(TERM)",
    "ACTION is allow, drop, rcode(RCODE), pool(POOL), tc, spoof(ADDR,..), none, norecurse or skipcache",
    "NAME is a domain name in a rule and in expunge, and the name of a server elsewhere: letters,",
    "  digits, - and _, the first a letter",
    "CONSOLE.md and lb-console(5) have the rest",
];

/// What came of a line.
#[derive(Debug, Drop)]
pub enum Heard {
    /// It does not begin with a word of the console.
    Nothing,
    /// It is answered by these lines, the last of which has no line feed.
    Lines(String),
    /// It begins with such a word, and does not read.
    Fault(CommandFault),
    /// The client is to be closed.
    Quit,
}

/// What the words of the console need beside the desk: what the setup file states of listeners and
/// the log, when serving began, the last queries that ended, what the loops count, and what the
/// last look saw.
#[derive(Drop)]
pub struct Words {
    alloc: Global,
    listeners: Vec<Listener>,
    log: u32,
    began: Option<Instant>,
    rings: Rings,
    sends: Arc<Sends>,
    watch: Watch,
}

impl Words {
    /// Those of a setup file. The one error is lack of memory.
    pub fn new<R: Clock>(
        rt: &R,
        alloc: Global,
        listeners: &[Listener],
        log: u32,
        rings: Rings,
        sends: Arc<Sends>,
    ) -> Result<Words, AllocError> {
        Ok(Words {
            alloc,
            listeners: Vec::from_slice(alloc, listeners)?,
            log,
            began: Instant::now(rt).ok(),
            rings,
            sends,
            watch: Watch::new(alloc),
        })
    }

    /// What changed since this was asked last, as sentences: servers that went down or came up, and
    /// what was lacking. The first time no server has changed, and what was lacking since the start
    /// is said. The one error is lack of memory: then the next time says it.
    pub fn changes<R: Wait + Clock, J: Naming>(
        &mut self,
        rt: &R,
        desk: &Desk<J>,
    ) -> Result<Vec<String>, AllocError> {
        let told = AtDesk { rt, desk }.told(self.alloc)?;
        let now = self.ran(rt);
        self.watch.changes(&told, &self.sends, now)
    }

    /// What a line that is no command says. The one error is lack of memory.
    pub fn hear<R: Wait + Clock, J: Naming>(
        &self,
        rt: &R,
        desk: &Desk<J>,
        line: &str,
    ) -> Result<Heard, AllocError>
        ensures { IfOk result (λ heard. IsHeard line.now heard) }
    {
        self.heard(rt, &AtDesk { rt, desk }, line)
    }

    /// The same, of what is shown.
    fn heard<R: Wait + Clock, S: Shown>(
        &self,
        rt: &R,
        shown: &S,
        line: &str,
    ) -> Result<Heard, AllocError>
        ensures { IfOk result (λ heard. IsHeard line.now heard) }
    {
        let bytes = line.as_bytes();
        let Some(word) = word_of(bytes) else {
            return Ok(Heard::Nothing);
        };
        let (_, first_end) = next_word(bytes, 0);
        let (second, end) = next_word(bytes, first_end);
        if second == end {
            return self.say(rt, shown, word, end);
        }
        match word {
            Word::Rules => self.one_rule(shown, line, second),
            Word::Recent => self.recent(rt, shown, line, second),
            Word::Top => self.top(rt, shown, line, second),
            _ => Ok(Heard::Fault(fault(second, FaultKind::Extra))),
        }
    }

    /// What `rules` says of the rule with the number that stands at a place.
    fn one_rule<S: Shown>(&self, shown: &S, line: &str, from: usize) -> Result<Heard, AllocError>
        ensures { IfOk result (λ heard. IsListed heard) }
    {
        let bytes = line.as_bytes();
        let (begin, end) = next_word(bytes, from);
        let Some(id) = number_of(bytes.get(begin..end).unwrap_or_default()) else {
            return Ok(Heard::Fault(fault(begin, FaultKind::BadNumber)));
        };
        let (next, last) = next_word(bytes, end);
        if next != last {
            return Ok(Heard::Fault(fault(next, FaultKind::Extra)));
        }
        Ok(Heard::Lines(lists::rule(self.alloc, shown, RuleId(id))?))
    }

    /// What `recent` says by what stands from a place on.
    fn recent<R: Wait + Clock, S: Shown>(
        &self,
        rt: &R,
        shown: &S,
        line: &str,
        from: usize,
    ) -> Result<Heard, AllocError>
        ensures { IfOk result (λ heard. IsListed heard) }
    {
        let told = shown.told(self.alloc)?;
        match Wanted::read(line, from, &told) {
            Ok(wanted) => Ok(Heard::Lines(self.listed(rt, &wanted, &told)?)),
            Err(fault) => Ok(Heard::Fault(fault)),
        }
    }

    /// The last queries that are asked for.
    fn listed<R: Wait + Clock>(
        &self,
        rt: &R,
        wanted: &Wanted,
        told: &Told,
    ) -> Result<String, AllocError> {
        let wording = Wording {
            told,
            listeners: self.listeners.as_slice(),
            now: self.ran(rt),
        };
        recent(rt, self.alloc, &self.rings, wanted, wording)
    }

    /// What `top` says by what stands from a place on.
    fn top<R: Wait, S: Shown>(
        &self,
        rt: &R,
        shown: &S,
        line: &str,
        from: usize,
    ) -> Result<Heard, AllocError>
        ensures { IfOk result (λ heard. IsListed heard) }
    {
        let (begin, end) = next_word(line.as_bytes(), from);
        let Some(by) = By::named(line.get(begin..end).unwrap_or_default()) else {
            return Ok(Heard::Fault(fault(begin, FaultKind::UnknownWord)));
        };
        let told = shown.told(self.alloc)?;
        match Wanted::read(line, end, &told) {
            Ok(wanted) => Ok(Heard::Lines(top(rt, self.alloc, &self.rings, by, &wanted)?)),
            Err(fault) => Ok(Heard::Fault(fault)),
        }
    }

    /// What a word alone says, with which the line ends at a place.
    fn say<R: Wait + Clock, S: Shown>(
        &self,
        rt: &R,
        shown: &S,
        word: Word,
        end: usize,
    ) -> Result<Heard, AllocError>
        ensures { IfOk result (λ heard. IsSaid word heard) }
    {
        Ok(Heard::Lines(match word {
            Word::Quit => return Ok(Heard::Quit),
            Word::Help => help(self.alloc)?,
            Word::Version => self.version(rt)?,
            Word::Rules => lists::rules(self.alloc, shown)?,
            Word::Servers => self.servers(rt, shown)?,
            Word::Pools => self.pools(shown)?,
            Word::Caches => self.caches(shown)?,
            Word::Counters => self.counters(shown)?,
            Word::Metrics => self.counts(rt, shown)?.ended()?,
            Word::Setup => setup(self.alloc, shown, self.listeners.as_slice(), self.log)?,
            Word::Recent => self.last(rt, shown)?,
            Word::Top => return Ok(Heard::Fault(fault(end, FaultKind::Missing))),
        }))
    }

    /// What `servers` says.
    fn servers<R: Clock, S: Shown>(&self, rt: &R, shown: &S) -> Result<String, AllocError> {
        let beside = Beside {
            watch: &self.watch,
            sends: &self.sends,
            now: self.ran(rt),
        };
        lists::servers(self.alloc, &shown.told(self.alloc)?, beside)
    }

    /// What `pools` says.
    fn pools<S: Shown>(&self, shown: &S) -> Result<String, AllocError> {
        lists::pools(self.alloc, &shown.told(self.alloc)?)
    }

    /// What `caches` says.
    fn caches<S: Shown>(&self, shown: &S) -> Result<String, AllocError> {
        lists::caches(self.alloc, &shown.told(self.alloc)?)
    }

    /// What `counters` says.
    fn counters<S: Shown>(&self, shown: &S) -> Result<String, AllocError> {
        let told = shown.told(self.alloc)?;
        lists::counters(self.alloc, &told, self.listeners.as_slice(), &self.sends)
    }

    /// What `recent` alone says.
    fn last<R: Wait + Clock, S: Shown>(&self, rt: &R, shown: &S) -> Result<String, AllocError> {
        self.listed(rt, &Wanted::usual(), &shown.told(self.alloc)?)
    }

    /// All counts, as a page for Prometheus: what the word `metrics` says without its last line,
    /// and with a line feed after each line. The one error is lack of memory.
    pub fn metrics<R: Wait + Clock, J: Naming>(
        &self,
        rt: &R,
        desk: &Desk<J>,
    ) -> Result<String, AllocError> {
        Ok(self.counts(rt, &AtDesk { rt, desk })?.whole())
    }

    /// All counts.
    fn counts<R: Clock, S: Shown>(&self, rt: &R, shown: &S) -> Result<Lines, AllocError> {
        let told = shown.told(self.alloc)?;
        let ended = shown.ended(self.alloc, told.totals.rules)?;
        metrics(
            self.alloc,
            &told,
            &ended,
            self.listeners.as_slice(),
            &self.sends,
            self.ran(rt) / 1_000,
        )
    }

    /// For how many milliseconds it has run.
    fn ran<R: Clock>(&self, rt: &R) -> u64 {
        match &self.began {
            Some(began) => began
                .elapsed(rt)
                .map(|ran| u64::try_from(ran.as_millis()).unwrap_or(u64::MAX))
                .unwrap_or(0),
            None => 0,
        }
    }

    /// What `version` says.
    fn version<R: Clock>(&self, rt: &R) -> Result<String, AllocError> {
        let alloc = self.alloc;
        let mut lines = Lines::new(alloc);
        lines.add("curlewrack, not released yet")?;
        if let Some(sum) = program::sum() {
            let sum = hex::encode(alloc, sum.as_slice())?;
            lines.add(format!(in alloc; "program {sum}")?.as_str())?;
        }
        let ran = self.ran(rt) / 1_000;
        let line = format!(in alloc; "running for {ran} seconds")?;
        lines.add(line.as_str())?;
        lines.ended()
    }
}

fn help(alloc: Global) -> Result<String, AllocError> {
    let mut lines = Lines::new(alloc);
    for line in HELP {
        lines.add(line)?;
    }
    lines.ended()
}
