//! What the program does for the words of its command line.

ghost use Rattle.std.specs.Prelude.{◌≡◌, ◌≢◌, drop, None, IfErr, IfOk};
ghost use Rattle.std.specs.IoError.{error_kind};
ghost use Rattle.std.specs.declared.io.ErrorKind.TheVariants.{InvalidData};
ghost use Rattle.lb_program.specs.Checking.{ChecksInput};
ghost use Rattle.lb_program.specs.Faults.{Tells, stop_text};
ghost use Rattle.lb_program_start.specs.Program.{Asks, DoesAsked, DoesFor, DoesWithout, ServesFile, texts_of, usage};
ghost use Rattle.lb_program.specs.declared.faults.Stop.TheVariants.{Input};

use lb_program::{Ended, Stop, check_input, replay_told, write_line};
use lb_program_serve::{serve_told, tell_unreadable};
use std::alloc::Global;
use std::env::Env;
use std::fs::File;
use std::io;
use std::io::{ErrorKind, Read, Write};
use std::net::{Net, TcpListener, TcpStream};
use std::random::RandomSource;
use std::rt::Files;
use std::sync::Wait;
use std::thread::Threads;
use std::time::Clock;

/// The exit status where the words ask for nothing that there is.
const BAD_WORDS: u8 = 2;

const USAGE: &str = "usage: lb serve FILE | lb check FILE | lb replay\n";

/// What the words of a command line ask for.
#[derive(Clone, Copy, Debug, PartialEq, Eq)]
pub enum Mode<'a> {
    /// `serve FILE`: a balancer, set up by a file, with its sockets.
    Serve(&'a str),
    /// `check FILE`: a setup file is checked.
    Check(&'a str),
    /// `replay`: the events on standard input are replayed.
    Replay,
}

/// What the words after the program's name ask for: none where that is nothing that there is.
pub fn choose(words: &[String]) -> Option<Mode<'_>>
    ensures { Asks (texts_of words.now) result }
{
    match words {
        [word] if word.as_str() == "replay" => Some(Mode::Replay),
        [word, file] if word.as_str() == "check" => Some(Mode::Check(file.as_str())),
        [word, file] if word.as_str() == "serve" => Some(Mode::Serve(file.as_str())),
        _ => None,
    }
}

/// All that the program does, with the words after its name, and gives the exit status: that of the check or the replay; 2 where the
/// words ask for nothing that there is, as they do where one is not UTF-8 (`InvalidData`); and 3 where they, or the file to check, can't
/// be read.
pub fn start<
    T: Files
        + Threads
        + Wait
        + Net<Listener = TcpListener, Stream = TcpStream>
        + Clock
        + RandomSource
        + AllocGlobal
        + Env
        + Sync,
    R: Read + Drop,
    W: Write,
    F: Write,
>(rt: &T, words: io::Result<Vec<String>>, input: R, output: &mut W, faults: &mut F) -> u8
    ensures asked { IfOk words (λ words. DoesFor (texts_of words.items) (R.remaining input) (W.contents output.old) (W.contents output.new) (F.contents faults.old) (F.contents faults.new) result) }
    ensures unasked { IfErr words (λ error. DoesWithout error (W.contents output.old) (W.contents output.new) (F.contents faults.old) (F.contents faults.new) result) }
{
    match words {
        Ok(words) => run(rt, words.as_slice(), input, output, faults).status,
        Err(error) => without_words(error, faults).status,
    }
}

/// Tells why the words can't be had: those that are not UTF-8 ask for nothing that there is.
fn without_words<F: Write>(error: io::Error, faults: &mut F) -> Ended
    ensures unreadable { error_kind error ≡ InvalidData → (result.status ≡ 2) × Tells (F.contents faults.old) (F.contents faults.new) usage result.told }
    ensures failed { error_kind error ≢ InvalidData → (result.status ≡ 3) × Tells (F.contents faults.old) (F.contents faults.new) (stop_text (Input error)) result.told }
{
    if error.kind() == ErrorKind::InvalidData {
        refuse(USAGE, faults)
    } else {
        Ended::tell(Err(Stop::Input(error)), faults)
    }
}

/// Does what the words after the program's name ask for.
fn run<
    T: Files
        + Threads
        + Wait
        + Net<Listener = TcpListener, Stream = TcpStream>
        + Clock
        + RandomSource
        + AllocGlobal
        + Env
        + Sync,
    R: Read + Drop,
    W: Write,
    F: Write,
>(rt: &T, words: &[String], input: R, output: &mut W, faults: &mut F) -> Ended
    ensures { DoesAsked (texts_of words.now) (R.remaining input) (W.contents output.old) (W.contents output.new) (F.contents faults.old) (F.contents faults.new) result.status result.told }
{
    match choose(words) {
        Some(Mode::Serve(file)) => serve_file(rt, file, output, faults),
        Some(Mode::Check(file)) => check_file(rt, file, output, faults),
        Some(Mode::Replay) => replay_told(rt.alloc(), input, output, faults),
        None => refuse(USAGE, faults),
    }
}

/// Tells why nothing is done.
fn refuse<F: Write>(text: &str, faults: &mut F) -> Ended
    ensures status { result.status ≡ 2 }
    ensures tells { Tells (F.contents faults.old) (F.contents faults.new) text.now result.told }
{
    Ended {
        status: BAD_WORDS,
        told: write_line(faults, text.as_bytes()),
    }
}

/// Checks a setup file.
fn check_file<T: Files + AllocGlobal, W: Write, F: Write>(
    rt: &T,
    file: &str,
    output: &mut W,
    faults: &mut F,
) -> Ended
    ensures { ChecksInput None (W.contents output.old) (W.contents output.new) (F.contents faults.old) (F.contents faults.new) result.status result.told }
{
    match File::open(rt, file) {
        Ok(file) => check_input(rt.alloc(), file, output, faults),
        Err(error) => Ended::tell(Err(Stop::Input(error)), faults),
    }
}

/// Serves by a setup file, which is read whole first.
fn serve_file<
    T: Files
        + Threads
        + Wait
        + Net<Listener = TcpListener, Stream = TcpStream>
        + Clock
        + RandomSource
        + AllocGlobal
        + Env
        + Sync,
    W: Write,
    F: Write,
>(rt: &T, file: &str, output: &mut W, faults: &mut F) -> Ended
    ensures { ServesFile (W.contents output.old) (W.contents output.new) (F.contents faults.old) (F.contents faults.new) result.status result.told }
{
    match read_whole(rt, rt.alloc(), file) {
        Ok(text) => serve_told(rt, rt.alloc(), text.as_str(), output, faults),
        Err(error) => tell_unreadable(rt.alloc(), file, error, faults),
    }
}

/// All that a file has, as text in UTF-8.
fn read_whole<T: Files>(rt: &T, alloc: Global, file: &str) -> io::Result<String> {
    io::read_to_string(alloc, File::open(rt, file)?)
}

/// The words after the first, which is the program's own name.
pub fn behind_first(mut words: Vec<String>) -> Vec<String>
    ensures { result.items ≡ drop 1 words.items }
{
    if !words.is_empty() {
        words.remove(0);
    }
    words
}
