//! What the system says of this process.

use crate::typed::{next_word, number_of};
use libc;
use os;

/// The octets of a piece of a directory's names.
const PIECE: usize = 4_096;

/// So many pieces are read at most.
const PIECES: usize = 1_024;

/// The entries of a directory that name itself and the one above.
const DOTS: u64 = 2;

/// What the system says of this process, as far as it can be read.
#[derive(Clone, Copy, Debug)]
pub(crate) struct Process {
    /// The octets of memory that are resident.
    pub(crate) resident: Option<u64>,
    /// How many descriptors are open.
    pub(crate) descriptors: Option<u64>,
}

impl Process {
    /// What the system says now.
    pub(crate) fn look() -> Process {
        Process {
            resident: resident(),
            descriptors: descriptors(),
        }
    }
}

/// The octets of memory that are resident, from the second word of `statm`, which counts pages.
fn resident() -> Option<u64> {
    let file = os::open_read(b"/proc/self/statm");
    if file < 0 {
        return None;
    }
    let mut text = [0u8; 256];
    let count = libc::read(file, &mut text);
    let _ = libc::close(file);
    let text = text.get(..usize::try_from(count).ok()?)?;
    let (_, first) = next_word(text, 0);
    let (begin, end) = next_word(text, first);
    let pages = number_of(text.get(begin..end)?)?;
    let page = u64::try_from(libc::sysconf(libc::_SC_PAGESIZE)).ok()?;
    Some(pages.saturating_mul(page))
}

/// How many descriptors are open, without the one by which they are counted.
fn descriptors() -> Option<u64> {
    let folder = os::open_dir_at(libc::AT_FDCWD, b"/proc/self/fd");
    if folder < 0 {
        return None;
    }
    let mut names = 0u64;
    for _ in 0..PIECES {
        let some = names_in_piece(folder);
        if some == 0 {
            break;
        }
        names = names.saturating_add(some);
    }
    let _ = libc::close(folder);
    names.checked_sub(DOTS)?.checked_sub(1)
}

/// How many names the next piece of a directory has.
fn names_in_piece(folder: i32) -> u64 {
    let mut piece = [0u8; PIECE];
    let octets = os::read_dir(folder, &mut piece);
    let names = piece.get(..octets).unwrap_or_default();
    names.iter().fold(
        0u64,
        |names, octet| names.saturating_add(u64::from(*octet == 0)),
    )
}
