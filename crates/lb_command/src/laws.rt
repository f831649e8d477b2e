//! What holds of lines, whatever reads or writes them. Each public function is a law: its contract is the statement, and a
//! call does nothing but bring it to the caller's proof.

ghost use Rattle.hex.specs.Hex.{IsBytes};
ghost use Rattle.lb_step.specs.declared.answer.Note.TheVariants.{Shown};
ghost use Rattle.lb_command.specs.Laws.{AnswerFits, EqualLinesMeanEqualAnswers, IsNumber, IsPoolName, LanesAreReadBack, NoteFits, OneCommand, OneEvent, OneSetup};

use lb_core::{Answer, Note, Totals};
use lb_servers::PoolName;

/// A line is one command at most.
pub fn one_command()
    ensures { OneCommand }
{}

/// A line is one event at most.
pub fn one_event()
    ensures { OneEvent }
{}

/// A line of a setup file states one thing at most.
pub fn one_setup_line()
    ensures { OneSetup }
{}

/// What a lane of a server is written as is read as that lane. Other words are read as it too: `udp/0` as
/// `udp` is, and a number may begin with zeros.
pub fn lanes_are_read_back()
    ensures { LanesAreReadBack }
{}

/// Answers with equal lines are equal, but for what a line does not say.
pub fn equal_lines_mean_equal_answers(a: &Answer, b: &Answer)
    ensures { EqualLinesMeanEqualAnswers a.now b.now }
{
    answer_fits(a);
    answer_fits(b);
}

/// Each number, name and octet of an answer is within its type.
fn answer_fits(answer: &Answer)
    ensures { AnswerFits answer.now }
{
    match answer {
        Answer::Local(bytes, _) | Answer::NoMemory(bytes) => octets_fit(bytes.as_slice()),
        Answer::Forward(server, lane, id, bytes) => {
            number_fits(server.0);
            number_fits(u64::from(lane.number));
            number_fits(u64::from(*id));
            octets_fit(bytes.as_slice());
        }
        Answer::Deliver(origin, bytes, _) | Answer::Expired(origin, bytes) => {
            number_fits(origin.slot);
            octets_fit(bytes.as_slice());
        }
        Answer::Edited(note) => note_fits(note),
        Answer::Dropped(_) | Answer::Quiet | Answer::Ignored(_) | Answer::Refused(_) => {}
    }
}

/// Each number and name of a note is within its type.
fn note_fits(note: &Note)
    ensures { NoteFits note.now }
{
    match note {
        Note::RuleAdded(id) | Note::RuleRemoved(id) | Note::RuleMoved(id) => number_fits(id.0),
        Note::ServerAdded(id) | Note::ServerRemoved(id) | Note::ServerMode(id, _) => {
            number_fits(id.0);
        }
        Note::ServerUp(id) | Note::ServerDown(id) => number_fits(id.0),
        Note::CacheAttached(id) | Note::CacheDetached(id) => number_fits(id.0),
        Note::Expunged(number) => number_fits(*number as u64),
        Note::TimeoutSet(timeout) => number_fits(u64::from(timeout.as_millis())),
        Note::Shown(totals) => totals_fit(totals),
        Note::PoolAdded(name) | Note::PoolPolicy(name, _) => name_fits(name),
    }
}

/// A pool's name is a name.
fn name_fits(name: &PoolName)
    ensures { IsPoolName name.now }
{
    match name {
        PoolName::Default => {}
        PoolName::Named(name) => name.law_of_idents(),
    }
}

/// Each of the totals is within its type.
fn totals_fit(totals: &Totals)
    ensures { NoteFits (Shown totals.now) }
{
    let Totals {
        rules: _rules,
        servers: _servers,
        pools: _pools,
        caches: _caches,
        outstanding: _outstanding,
        kept: _kept,
    } = *totals;
}

/// Each octet is below 256.
fn octets_fit(octets: &[u8])
    ensures { IsBytes octets.now }
{
    for octet in octets {
        let _octet = *octet;
    }
}

/// A number of 64 bits is within 128.
fn number_fits(number: u64)
    ensures { IsNumber number }
{}
