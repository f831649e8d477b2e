//! What holds of connections.

ghost use Rattle.lb_loops_tcp.specs.Goes.{GoesOn, NoneDone, OneGoes};
ghost use Rattle.lb_loops_tcp.specs.Links.{EndedFares, MovedFares};

/// What connections go through in two steps, they go through in all: the messages that were taken of each, and those that were sent to it,
/// are those of the first and then those of the second; and each closing has its cause in the whole.
pub fn goes_on()
    ensures { GoesOn }
{}

/// An open connection of which messages are taken and to which messages are sent fares so; and one that is closed, where there is a cause.
pub fn moved_fares()
    ensures moved { MovedFares }
    ensures ended { EndedFares }
{}

/// A step of one connection that leaves all others as they are is a step of all.
pub fn one_goes()
    ensures { OneGoes }
{}

/// Of new connections none is open at its end. So after each turn none is.
pub fn none_is_done()
    ensures { NoneDone }
{}
