// A list of bytes in memory of its own: at most N of them.
ghost use Rattle.std.specs.Prelude.{◌≡◌, ◌+◌, ◌≤◌, [], ◌++◌, length, take};

use std::marker::Model;

#[derive(Drop)]
pub struct ByteList<const N: usize> {
    bytes: [u8; N],
    len: usize,
}

// In a contract it is the list itself.
impl<const N: usize> Model for ByteList<N> {
    ghost use Rattle.std.specs.Prelude.{ℕ, ◌≤◌, List, take};

    ghost Value = { List ℕ };

    ghost view = { λ l. take l.len l.bytes };

    ghost invariant = { λ l. l.len ≤ N };
}

impl<const N: usize> ByteList<N> {
    pub fn new() -> ByteList<N>
        ensures { result ≡ [] }
    {
        ByteList {
            bytes: [0; N],
            len: 0,
        }
    }

    // The bytes in the first `len` places.
    pub fn of(bytes: [u8; N], len: usize) -> ByteList<N>
        requires { len ≤ N }
        ensures { result ≡ take len bytes.entry }
    {
        ByteList { bytes, len }
    }

    pub fn as_slice(&self) -> &[u8]
        ensures { result.now ≡ self.now }
    {
        &self.bytes[..self.len]
    }

    // Bytes behind the others.
    pub fn extend_from_slice(&mut self, piece: &[u8])
        requires { length self.old + length piece.now ≤ N }
        ensures { self.new ≡ self.old ++ piece.now }
    {
        let end = self.len + piece.len();
        let bytes = &mut self.bytes[..];
        bytes[self.len..end].copy_from_slice(piece);
        self.len = end;
    }
}
