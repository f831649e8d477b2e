//! Health checks of servers.

ghost use Rattle.std.specs.Prelude.{◌≡◌, false};
ghost use Rattle.std.specs.Int.NonZero.{non_zero_u8_get};
ghost use Rattle.lb_step.specs.Upstream.{is_check, new_check};

use lb_health::Health;
use lb_wire::ServerId;
use std::num::NonZeroU8;

/// How the health of a server is judged, as an operator states it.
#[derive(Clone, Copy, Debug, PartialEq, Eq)]
pub struct CheckSpec {
    /// So many failures in a row take it down.
    pub fall: NonZeroU8,
    /// So many successes in a row bring it up.
    pub rise: NonZeroU8,
    /// Whether a probe's name has to be resolved: NXDomain and Refused are failures too.
    pub must_resolve: bool,
}

impl Default for CheckSpec {
    /// What holds where nothing is stated: each failure takes the server down, each success brings it up, and no name has
    /// to be resolved.
    fn default() -> CheckSpec
        ensures fall { non_zero_u8_get result.fall ≡ 1 }
        ensures rise { non_zero_u8_get result.rise ≡ 1 }
        ensures resolve { result.must_resolve ≡ false }
    {
        CheckSpec {
            fall: NonZeroU8::MIN,
            rise: NonZeroU8::MIN,
            must_resolve: false,
        }
    }
}

/// The health check of a server.
#[derive(Debug, Drop)]
pub struct Check {
    pub server: ServerId,
    pub health: Health,
    pub must_resolve: bool,
}

impl Check {
    /// That of a new server, which is up.
    pub(crate) fn new(server: ServerId, spec: CheckSpec) -> Check
        ensures { result ≡ new_check server spec }
    {
        Check {
            server,
            health: Health::new(spec.fall, spec.rise),
            must_resolve: spec.must_resolve,
        }
    }

    /// An equal value.
    pub fn copy(&self) -> Check
        ensures { result ≡ self.now }
    {
        Check {
            server: self.server,
            health: self.health.copy(),
            must_resolve: self.must_resolve,
        }
    }

    /// Whether it is that of a server.
    pub(crate) fn is(&self, server: ServerId) -> bool
        ensures { result ≡ is_check server self.now }
    {
        self.server.0 == server.0
    }
}
