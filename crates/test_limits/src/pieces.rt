//! A reader and a writer of texts that are given as pieces.

ghost use Rattle.std.specs.Prelude.{◌≤◌, length};

use std::io;
use std::io::{ErrorKind, Read, Write};

/// A nonempty text, and how often it is repeated, at least once.
pub(crate) type Piece<'a> = (&'a str, usize);

/// Gives the pieces of a text, one after the other.
#[derive(Drop)]
pub(crate) struct Pieces<'a> {
    pieces: &'a [Piece<'a>],
    // The index of the next piece, and how often it was begun.
    place: usize,
    begun: usize,
    rest: &'a [u8],
}

impl<'a> Pieces<'a> {
    pub(crate) fn new(pieces: &'a [Piece<'a>]) -> Pieces<'a> {
        Pieces {
            pieces,
            place: 0,
            begun: 0,
            rest: &[],
        }
    }

    /// The next bytes, at most `most`. The result is empty only at the end.
    pub(crate) fn next_bytes(&mut self, most: usize) -> &'a [u8]
        ensures { length result.now ≤ most }
    {
        if self.rest.is_empty() {
            self.begin();
        }
        let (front, rest) = self.rest.split_at(self.rest.len().min(most));
        self.rest = rest;
        front
    }

    fn begin(&mut self) {
        if let Some((text, times)) = self.pieces.get(self.place).copied() {
            self.rest = text.as_bytes();
            self.begun = self.begun.wrapping_add(1);
            if self.begun >= times {
                self.place = self.place.wrapping_add(1);
                self.begun = 0;
            }
        }
    }
}

impl Read for Pieces<'_> {
    fn read(&mut self, buf: &mut [u8]) -> io::Result<usize> {
        let front = self.next_bytes(buf.len());
        for (to, from) in buf.iter_mut().zip(front) {
            *to = *from;
        }
        Ok(front.len())
    }
}

/// Takes the pieces of a text, and fails at the first byte that differs.
#[derive(Drop)]
pub(crate) struct Wanted<'a> {
    pieces: Pieces<'a>,
}

impl<'a> Wanted<'a> {
    pub(crate) fn new(pieces: &'a [Piece<'a>]) -> Wanted<'a> {
        Wanted {
            pieces: Pieces::new(pieces),
        }
    }

    /// Whether all of the text was taken.
    pub(crate) fn is_complete(&mut self) -> bool {
        self.pieces.next_bytes(1).is_empty()
    }
}

impl Write for Wanted<'_> {
    fn write(&mut self, buf: &[u8]) -> io::Result<usize> {
        let wanted = self.pieces.next_bytes(buf.len());
        if &buf[..wanted.len()] != wanted {
            return Err(io::Error::from(ErrorKind::Other));
        }
        Ok(wanted.len())
    }

    fn flush(&mut self) -> io::Result<()> {
        Ok(())
    }
}
