// A text that grows in a buffer with room for N bytes.
ghost use Rattle.std.specs.Prelude.{◌≡◌, ◌+◌, ◌%◌, ◌≤◌, ◌<◌, ◌++◌, ◌∷◌, [], List, ℕ, cond, eqb, length, take};
ghost use Rattle.sentences.specs.Sentence.{figures};
ghost use Rattle.sentences.specs.Answers.{Put};

use std::marker::Model;

#[derive(Drop)]
pub struct Buffer<const N: usize> {
    bytes: [u8; N],
    length: usize,
}

// Clauses see the text.
impl<const N: usize> Model for Buffer<N> {
    ghost Value = { List ℕ };

    ghost view = { λ b. take b.length b.bytes };

    ghost invariant = { λ b. b.length ≤ N };
}

impl<const N: usize> Buffer<N> {
    // Refused: a byte in an empty text; a full one.
    pub fn new() -> Self
        ensures { result ≡ [] }
    {
        Buffer {
            bytes: [0; N],
            length: 0,
        }
    }

    // Refused: another byte; one over the second.
    pub fn push(&mut self, byte: u8)
        requires { length self.old < N }
        ensures { self.new ≡ self.old ++ byte ∷ [] }
    {
        self.bytes[self.length] = byte;
        self.length += 1;
    }

    // Byte by byte: `copy_from_slice` becomes a call of memmove here, which the archive for C does not ask of its callers.
    // Refused: the length of the new bytes alone; what stood in the buffer before.
    pub fn extend(&mut self, text: &[u8])
        requires { length self.old + length text.now ≤ N }
        ensures { self.new ≡ self.old ++ text.now }
    {
        for i in 0..text.len() {
            self.push(text[i]);
        }
    }

    // Decimal figures.
    // Refused: a last figure one too high; a first one too high.
    pub fn push_figures(&mut self, n: u16)
        requires { length self.old + length (figures n) ≤ N }
        ensures { self.new ≡ self.old ++ figures n }
    {
        self.push_figure(n / 10_000);
        self.push_figure(n / 1_000);
        self.push_figure(n / 100);
        self.push_figure(n / 10);
        self.push((n % 10) as u8 + b'0')
    }

    // The last figure of a number's front; an empty front, 0, has none.
    fn push_figure(&mut self, front: u16)
        requires { length self.old + length (cond (eqb front 0) [] ((front % 10 + 48) ∷ [])) ≤ N }
        ensures { self.new ≡ self.old ++ cond (eqb front 0) [] ((front % 10 + 48) ∷ []) }
    {
        if front > 0 {
            self.push((front % 10) as u8 + b'0');
        }
    }

    // The text at the front of another buffer, and its length; 0 for a shorter one, which stays as it is.
    // Refused: its first byte for all; no room for a text that just fits.
    pub fn copy_to(&self, out: &mut [u8]) -> usize
        ensures { Put self.now out.old result out.new }
    {
        let length = self.length;
        if out.len() < length {
            return 0;
        }
        out[..length].copy_from_slice(&self.bytes[..length]);
        length
    }
}
