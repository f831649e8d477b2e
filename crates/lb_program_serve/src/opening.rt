//! How a console's client begins: as a client of HTTP does, or not.

ghost use Rattle.std.specs.Prelude.{◌≤◌};

/// The most bytes of a method and the space after it.
const LONGEST: usize = 8;

/// The methods of HTTP (RFC 9110 section 9.3, RFC 5789), and the word that opens HTTP/2 (RFC 9113
/// section 3.4).
const METHODS: [&[u8]; 10] = [
    b"GET", b"HEAD", b"POST", b"PUT", b"DELETE", b"PATCH", b"OPTIONS", b"CONNECT", b"TRACE", b"PRI",
];

/// The first bytes of a client's first line, as many as a method and the space after it can have.
#[derive(Debug, Drop)]
pub(crate) struct Opening {
    bytes: [u8; LONGEST],
    len: usize,
    ghost few: { len ≤ 8 },
}

impl Opening {
    /// Nothing came yet.
    pub(crate) fn new() -> Opening {
        Opening {
            bytes: [0; LONGEST],
            len: 0,
        }
    }

    /// A piece of the line comes.
    pub(crate) fn take(&mut self, piece: &[u8]) {
        for byte in piece {
            if self.len == LONGEST {
                return;
            }
            self.bytes[self.len] = *byte;
            self.len += 1;
        }
    }

    /// Whether the first word of the line is a method of HTTP: then a browser or another client of
    /// HTTP speaks, whom somebody may have made send lines to a console.
    pub(crate) fn is_request(&self) -> bool {
        let came = self.bytes.get(..self.len).unwrap_or_default();
        let end = came.iter().position(|byte| *byte == b' ' || *byte == b'\r');
        let Some(word) = came.get(..end.unwrap_or(came.len())) else {
            return false;
        };
        METHODS.iter().any(|method| *method == word)
    }
}
