//! What an input shows of a line.

ghost use Rattle.std.specs.Prelude.{◌≡◌, ◌≢◌, [], ℕ, ◌+◌, ◌<◌, ◌++◌, ◌∷◌, List, Some, false, take, drop, length, IfOk, IfSome, IfErr, IfNone, OnErr};
ghost use Rattle.std.specs.List.{All};
ghost use Rattle.std.specs.Io.Buffered.{reader_buffer, reader_inner, reader_remaining};
ghost use Rattle.lb_program.specs.Shown.{FirstFeedAt, IsOfReading, TakesFrom, is_line_feed};

use crate::faults::Stop;
use std::io::{BufRead, BufReader, Read};

/// What the input showed of a line.
#[derive(Clone, Copy, Debug, PartialEq, Eq)]
pub(crate) enum Shown {
    /// Bytes of the line, and more of it may come.
    Piece,
    /// The rest of the line, which ended with a line feed.
    LineFeed,
    /// Nothing more comes.
    End,
}

/// Moves the rest of a line, as far as the input shows it, after these bytes. After an error nothing is moved. Where bytes
/// of the input are at hand, no more are read.
pub(crate) fn take_shown<R: Read>(
    input: &mut BufReader<R>,
    bytes: &mut Vec<u8>,
) -> Result<Shown, Stop>
    ensures ok { TakesFrom (reader_remaining R.remaining input.old) bytes.old.items result bytes.new.items (reader_remaining R.remaining input.new) }
    ensures err { IfSome (reader_remaining R.remaining input.old) (λ all. OnErr result ((reader_remaining R.remaining input.new ≡ Some all) × (bytes.new.items ≡ bytes.old.items))) }
    ensures unread { reader_buffer input.old ≢ [] → reader_inner input.new ≡ reader_inner input.old }
    ensures cause { IfErr result (IsOfReading (reader_buffer input.old)) }
{
    if input.buffer().is_empty() {
        input.fill_buf()?;
    }
    let shown = input.buffer();
    if shown.is_empty() {
        return Ok(Shown::End);
    }
    match line_feed(shown) {
        Some(len) => {
            let (piece, _) = shown.split_at(len);
            bytes.extend_from_slice(piece)?;
            input.consume(len + 1);
            Ok(Shown::LineFeed)
        }
        None => {
            let len = shown.len();
            bytes.extend_from_slice(shown)?;
            input.consume(len);
            Ok(Shown::Piece)
        }
    }
}

/// The place of the first line feed.
pub(crate) fn line_feed(bytes: &[u8]) -> Option<usize>
    ensures found { IfSome result (FirstFeedAt bytes.now) }
    ensures none { IfNone result (All (λ byte. is_line_feed byte ≡ false) bytes.now) }
{
    bytes.iter().position(|byte| *byte == b'\n')
}
