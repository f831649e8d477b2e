//! The words of the console.

ghost use Rattle.std.specs.Prelude.{◌≡◌};
ghost use Rattle.std.specs.List.{position};
ghost use Rattle.lb_words.specs.Word.{begin_of, console_word, end_of, first_bytes, is_other, is_space, up_to, word_named};

/// A word of the console.
#[derive(Clone, Copy, Debug, PartialEq, Eq)]
pub enum Word {
    Help,
    Version,
    Quit,
    Rules,
    Servers,
    Pools,
    Caches,
    Counters,
    Metrics,
    Setup,
    Recent,
    Top,
}

/// The word of the console that a line begins with.
pub fn word_of(line: &[u8]) -> Option<Word>
    ensures { result ≡ console_word line.now }
{
    word_named(first_bytes(line))
}

/// The bytes of a line up to a space, after the spaces that it begins with.
fn first_bytes(line: &[u8]) -> &[u8]
    ensures { result.now ≡ first_bytes line.now }
{
    up_to(line.get(begin(line)..).unwrap_or_default())
}

/// How many spaces a line begins with.
fn begin(line: &[u8]) -> usize
    ensures { result ≡ begin_of line.now }
{
    first_other(line).unwrap_or(line.len())
}

/// The place of the first byte that is no space.
fn first_other(line: &[u8]) -> Option<usize>
    ensures { result ≡ position is_other line.now }
{
    line.iter().position(is_other)
}

fn is_other(byte: &u8) -> bool
    ensures { result ≡ is_other byte.now }
{
    *byte != b' '
}

/// The bytes up to a space.
fn up_to(bytes: &[u8]) -> &[u8]
    ensures { result.now ≡ up_to bytes.now }
{
    bytes.get(..end(bytes)).unwrap_or_default()
}

/// How many bytes stand before a space.
fn end(bytes: &[u8]) -> usize
    ensures { result ≡ end_of bytes.now }
{
    first_space(bytes).unwrap_or(bytes.len())
}

/// The place of the first space.
fn first_space(bytes: &[u8]) -> Option<usize>
    ensures { result ≡ position is_space bytes.now }
{
    bytes.iter().position(is_space)
}

fn is_space(byte: &u8) -> bool
    ensures { result ≡ is_space byte.now }
{
    *byte == b' '
}

/// The word that is spelled so.
fn word_named(text: &[u8]) -> Option<Word>
    ensures { result ≡ word_named text.now }
{
    Some(if text == "help".as_bytes() {
        Word::Help
    } else if text == "version".as_bytes() {
        Word::Version
    } else if text == "quit".as_bytes() {
        Word::Quit
    } else if text == "rules".as_bytes() {
        Word::Rules
    } else if text == "servers".as_bytes() {
        Word::Servers
    } else if text == "pools".as_bytes() {
        Word::Pools
    } else if text == "caches".as_bytes() {
        Word::Caches
    } else if text == "counters".as_bytes() {
        Word::Counters
    } else if text == "metrics".as_bytes() {
        Word::Metrics
    } else if text == "setup".as_bytes() {
        Word::Setup
    } else if text == "recent".as_bytes() {
        Word::Recent
    } else if text == "top".as_bytes() {
        Word::Top
    } else {
        return None;
    })
}
