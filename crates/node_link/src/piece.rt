//! A piece of the bytes that wait to be written.

ghost use Rattle.std.specs.Prelude.{◌≡◌, ◌≤◌, ◌++◌, drop, length};
ghost use Rattle.node_link.specs.Piece.{bytes_in, word_in};

use resp_wire::Bytes;

/// Bytes that are spelled one after another, and perhaps a large word behind them, alone or with its line end, which is written
/// from where it stands.
#[derive(Drop)]
pub struct Piece {
    pub spelled: Vec<u8>,
    pub word: Option<Bytes>,
}

impl Piece {
    /// How many bytes it has.
    pub fn len(&self) -> usize
        ensures { result ≡ length (bytes_in self.now) }
    {
        self.spelled.len() + self.word().len()
    }

    /// What is left of both where `written` bytes were written.
    pub fn rest(&self, written: usize) -> (&[u8], &[u8])
        requires { written ≤ length (bytes_in self.now) }
        ensures { result.0.now ++ result.1.now ≡ drop written (bytes_in self.now) }
    {
        let spelled = self.spelled.as_slice();
        let word = self.word();
        let skipped = written.min(spelled.len());
        (&spelled[skipped..], &word[written - skipped..])
    }

    // The large word; nothing where there is none.
    fn word(&self) -> &[u8]
        ensures { result.now ≡ word_in self.now.word }
    {
        match &self.word {
            Some(word) => word.as_slice(),
            None => &[],
        }
    }
}
