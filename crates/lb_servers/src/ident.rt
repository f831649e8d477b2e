//! Names of servers and pools.

ghost use Rattle.std.specs.Prelude.{◌≡◌, IsTrue, Some, None, true, bytes_eq, if◌then◌else◌};
ghost use Rattle.std.specs.List.{list_all};
ghost use Rattle.lb_servers.specs.Ident.{is_ident, is_ident_byte};

use arrayvec::ArrayString;
use std::marker::Model;

/// The most bytes of a name.
const MAX_IDENT: usize = 63;

/// A name that an operator gives to a server or a pool: 1 to 63 ASCII letters, digits, `-` and `_`, the first of them a
/// letter. Names are compared exactly. A contract sees it as its bytes.
#[derive(Debug, Drop)]
pub struct Ident {
    text: ArrayString<MAX_IDENT>,
}

impl Model for Ident {
    ghost use Rattle.std.specs.Prelude.{List, ℕ, true, ◌≡◌};
    ghost use Rattle.lb_servers.specs.Ident.{is_ident};

    ghost Value = { List ℕ };

    ghost view = { λ i. i.text.bytes };

    ghost invariant = { λ i. is_ident i.text.bytes ≡ true };
}

/// Whether the byte may stand in a name.
fn is_ident_byte(byte: u8) -> bool
    ensures { result ≡ is_ident_byte byte }
{
    byte.is_ascii_alphanumeric() || byte == b'-' || byte == b'_'
}

/// Whether each of the bytes may stand in a name.
fn are_ident_bytes(text: &[u8]) -> bool
    ensures { result ≡ list_all is_ident_byte text.now }
{
    text.iter().all(|byte| is_ident_byte(*byte))
}

/// Whether the bytes are a name.
fn is_ident(text: &[u8]) -> bool
    ensures { result ≡ is_ident text.now }
{
    !text.is_empty()
        && text.len() <= MAX_IDENT
        && text[0].is_ascii_alphabetic()
        && are_ident_bytes(text)
}

impl Ident {
    /// The name that a text is. None where the text is no name. It takes no memory.
    pub fn parse(text: &str) -> Option<Ident>
        ensures { result ≡ (if is_ident text.now then Some text.now else None) }
    {
        if !is_ident(text.as_bytes()) {
            return None;
        }
        match ArrayString::from(text) {
            Ok(text) => Some(Ident { text }),
            Err(_) => unreachable!(),
        }
    }

    /// The name as a text.
    pub fn as_str(&self) -> &str
        ensures { result.now ≡ self.now }
    {
        self.text.as_str()
    }

    /// The bytes of a name are a name: a law, whose call does nothing but bring it to the caller's proof.
    pub fn law_of_idents(&self)
        ensures { is_ident self.now ≡ true }
    {
        // Read, so that what the name keeps true is at hand.
        let _ = self.text.len();
    }

    /// An equal name.
    pub fn copy(&self) -> Ident
        ensures { result ≡ self.now }
    {
        Ident { text: self.text }
    }

    /// Whether two names are equal.
    pub fn equals(&self, other: &Ident) -> bool
        ensures value { result ≡ bytes_eq self.now other.now }
        ensures equal { IsTrue result → self.now ≡ other.now }
        ensures found { self.now ≡ other.now → IsTrue result }
    {
        self.as_str() == other.as_str()
    }
}
