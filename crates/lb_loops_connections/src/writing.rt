//! What is put after what connections are to write.

ghost use Rattle.std.specs.Prelude.{IfErr, OnOk};
ghost use Rattle.lb_loops_connections.specs.Writing.{MayNotPut, Puts};

use crate::table::{Connections, place_of};
use lb_loops_io::Why;
use lb_wire::Octets;

impl Connections {
    /// Puts a message after what a connection is to write, if it is open, and notes that this is to
    /// be written. If it is not put, nothing has changed, but that a
    /// refusal of memory is noted.
    pub fn promise(&mut self, number: u64, message: &Octets) -> Result<(), Why>
        ensures put { OnOk result (Puts number message.now self.old self.new) }
        ensures why { IfErr result (λ why. MayNotPut number message.now self.old self.new why) }
    {
        if number > self.last {
            return Err(Why::Gone);
        }
        let Some(connection) = &mut self.slots[place_of(number)] else {
            return Err(Why::Gone);
        };
        if connection.number != number {
            return Err(Why::Gone);
        }
        if connection.is_over(message) {
            return Err(Why::Limit);
        }
        match connection.promise(message) {
            Ok(()) => {
                connection.touch(&mut self.touched);
                Ok(())
            }
            Err(refused) => {
                self.lacks(number, refused);
                Err(Why::from(refused))
            }
        }
    }
}
