//! What holds of streams.

ghost use Rattle.lb_loops_frames.specs.Frames.{OneDivision, CutsDoNotMatter};

/// Octets divide into messages and a rest in one way.
pub fn one_division()
    ensures { OneDivision }
{}

/// A stream that is fed in two pieces gives the messages of the whole, and leaves its rest.
pub fn cuts_do_not_matter()
    ensures { CutsDoNotMatter }
{}
