//! The program's own file.

use libc;
use os;
use sha2::{Digest, Sha256};

/// The octets of a piece of the file.
const PIECE: usize = 16_384;

/// So many pieces are read at most: a program of 256 MiB.
const PIECES: usize = 16_384;

/// The SHA-256 (FIPS 180-4) of the file of the program that runs, if it can be read whole.
pub(crate) fn sum() -> Option<[u8; 32]> {
    let file = os::open_read(b"/proc/self/exe");
    if file < 0 {
        return None;
    }
    let sum = sum_of(file);
    let _ = libc::close(file);
    sum
}

/// The SHA-256 of what is left of a file.
fn sum_of(file: i32) -> Option<[u8; 32]> {
    let mut hasher = Sha256::new();
    let mut piece = [0u8; PIECE];
    for _ in 0..PIECES {
        let octets = usize::try_from(libc::read(file, &mut piece)).ok()?;
        if octets == 0 {
            return Some(hasher.finalize());
        }
        hasher.update(piece.get(..octets)?);
    }
    None
}
