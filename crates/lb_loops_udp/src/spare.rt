//! Room that a loop keeps from turn to turn.

ghost use Rattle.std.specs.Prelude.{[], vec_capacity, vec_len, ◌≡◌};

use lb_core::Answer;
use lb_loops_io::{Line, Outcome, Rooms};
use lb_wire::Octets;
use std::alloc::Global;
use std::mem;

/// Room for the lines of a report, which a loop keeps from turn to turn. A turn takes what is
/// missing before it reads. The blocks of octets that a report had are kept for the datagrams of
/// the next turn.
#[derive(Drop)]
pub(crate) struct Spare {
    pub(crate) rooms: Rooms,
    lines: Vec<Line>,
    ghost blank: { (lines.items ≡ []) × (vec_len lines ≡ 0) },
}

impl Spare {
    /// No room yet. It takes no memory.
    pub(crate) fn new(alloc: Global) -> Spare {
        Spare {
            rooms: Rooms::new(alloc),
            lines: Vec::new(alloc),
        }
    }

    /// Takes the room of a report's lines back for the next turn, and the blocks of their octets.
    /// The lines go.
    pub(crate) fn take_back(&mut self, alloc: Global, mut lines: Vec<Line>)
        ensures { vec_capacity self.new.lines ≡ vec_capacity lines }
    {
        for line in lines.iter_mut() {
            keep_blocks(&mut self.rooms, alloc, line);
        }
        lines.clear();
        self.lines = lines;
    }

    /// The room for lines that is here.
    pub(crate) fn blank_lines(&mut self, alloc: Global) -> Vec<Line>
        ensures { (result.items ≡ []) × (vec_len result ≡ 0) }
    {
        mem::replace(&mut self.lines, Vec::new(alloc))
    }
}

/// Keeps the blocks of the octets of a line, which is to go.
fn keep_blocks(rooms: &mut Rooms, alloc: Global, line: &mut Line) {
    let Line::Event(_, _, outcome, _) = line else {
        return;
    };
    let Outcome::Answered(answer) = outcome else {
        return;
    };
    match answer {
        Answer::Local(bytes, _) => keep(rooms, alloc, bytes),
        Answer::Forward(_, _, _, bytes) => keep(rooms, alloc, bytes),
        Answer::Deliver(_, bytes, _) => keep(rooms, alloc, bytes),
        _ => {}
    }
}

/// Keeps the block of octets that are to go.
#[inline(always)]
fn keep(rooms: &mut Rooms, alloc: Global, octets: &mut Octets) {
    rooms.keep(mem::replace(octets, Octets::from_vec(Vec::new(alloc))));
}
