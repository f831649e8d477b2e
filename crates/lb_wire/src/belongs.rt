//! Which reply belongs to a query.

ghost use Rattle.std.specs.Prelude.{◌≡◌, IsTrue, Some};
ghost use Rattle.lb_name.specs.Name.{IsSame};
ghost use Rattle.lb_wire.specs.Belongs.{belongs, is_failure, same_name, same_question, AsksSame};

use crate::question::Question;
use crate::rcode::Rcode;
use crate::record_type::{Class, RecordType};
use crate::reply::ReplyView;
use lb_name::Name;

/// Whether two names are equal without regard to case.
fn is_same_name(ours: &Name, theirs: &Name) -> bool
    ensures test { result ≡ same_name ours.now theirs.now }
    ensures same { IsTrue result → IsSame ours.now theirs.now }
{
    ours.same(theirs)
}

impl Question {
    /// Whether this is the question that was asked, its name without regard to case.
    fn is_asked(&self, name: &Name, qtype: RecordType, qclass: Class) -> bool
        ensures asked { result ≡ same_question (Some self.now) name.now qtype qclass }
        ensures same { IsTrue result → IsSame self.now.name name.now }
    {
        is_same_name(&self.name, name) && self.qtype.0 == qtype.0 && self.qclass.0 == qclass.0
    }
}

impl Rcode {
    /// Whether a reply without a question may tell of this failure.
    fn is_failure(self) -> bool
        ensures { result ≡ is_failure self }
    {
        !matches!(self, Rcode::NoError | Rcode::NXDomain)
    }
}

impl ReplyView {
    /// Whether the reply belongs to a query with this question (RFC 1035 section 7.3): it has one question, and that is
    /// this one without regard to case; or it has none, and its RCODE is neither NoError nor NXDomain.
    pub fn belongs_to(&self, name: &Name, qtype: RecordType, qclass: Class) -> bool
        ensures belongs { result ≡ belongs self.now name.now qtype qclass }
        // what `respell` asks for
        ensures same { IsTrue result → self.now.questions ≡ 1 → AsksSame self.now.question name.now }
    {
        match (self.questions, &self.question) {
            (1, Some(question)) => question.is_asked(name, qtype, qclass),
            (0, _) => self.rcode.is_failure(),
            _ => false,
        }
    }
}
