//! Why a request has no message.

ghost use Rattle.std.specs.Prelude.{◌≡◌};
ghost use Rattle.lb_doh_message.specs.Fault.{fault_status};

use std::alloc::AllocError;
use thiserror::Error;

/// Why a request has no message; the first that applies, in this order.
#[derive(Clone, Copy, Debug, PartialEq, Eq, Error)]
pub enum DohFault {
    /// 404: it is not the path of DNS queries.
    #[error("not the path of DNS queries")]
    NotFound,
    /// 405: it is neither GET nor POST.
    #[error("neither GET nor POST")]
    BadMethod,
    /// 415: the body is of another media type.
    #[error("not the media type of DNS messages")]
    BadMedia,
    /// 413: the body is over 65,535 octets.
    #[error("a body over 65,535 octets")]
    TooLong,
    /// 400: there is no message that could be a query.
    #[error("no message that could be a query")]
    BadRequest,
    /// 503: there is a message, and memory is lacking.
    #[error("no memory")]
    NoMemory,
}

impl DohFault {
    /// The status that tells it (RFC 9110 section 15).
    pub fn status(self) -> u16
        ensures { result ≡ fault_status self }
    {
        match self {
            DohFault::NotFound => 404,
            DohFault::BadMethod => 405,
            DohFault::BadMedia => 415,
            DohFault::TooLong => 413,
            DohFault::BadRequest => 400,
            DohFault::NoMemory => 503,
        }
    }
}

impl From<AllocError> for DohFault {
    ghost use Rattle.std.specs.Prelude.{◌≡◌};
    ghost use Rattle.lb_doh_message.specs.declared.fault.DohFault.TheVariants as faults;

    ghost from_gives = { λ _ fault. fault ≡ faults.NoMemory };

    fn from(_refused: AllocError) -> DohFault {
        DohFault::NoMemory
    }
}
