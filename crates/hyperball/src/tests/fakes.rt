//! Streams over constant bytes, which take no memory: a reader that gives pieces, and writers that compare what comes with
//! what is wanted.

ghost use Rattle.std.specs.Prelude.{◌≡◌, None};

use super::{Flow, NO_MEMORY, Pieces};
use crate::lines::ProgressLine;
use crate::progress::{LendTeller, ProgressTeller};
use std::io;
use std::io::{ErrorKind, Read, Write};
use std::sync::atomic::{AtomicU32, Ordering};

/// A place in a text that is in pieces.
#[derive(Clone, Copy)]
struct Cursor {
    // the piece of number 0, and those after it
    first: &'static [u8],
    others: Pieces,
    piece: usize,
    byte: usize,
}

impl Cursor {
    // The start of pieces.
    fn new(pieces: Pieces) -> Cursor {
        Cursor {
            first: &[],
            others: pieces,
            piece: 1,
            byte: 0,
        }
    }

    // The start of one piece, which may be empty.
    fn of(text: &'static [u8]) -> Cursor {
        Cursor {
            first: text,
            others: &[],
            piece: usize::from(text.is_empty()),
            byte: 0,
        }
    }

    // The piece in which it is; at the end of the text an empty one.
    fn piece(&self) -> &'static [u8] {
        match self.piece.checked_sub(1) {
            None => self.first,
            Some(place) => match self.others.get(place) {
                Some(piece) => *piece,
                None => &[],
            },
        }
    }

    // What is left of that piece.
    fn rest(&self) -> &'static [u8] {
        match self.piece().get(self.byte..) {
            Some(rest) => rest,
            None => &[],
        }
    }

    // Goes on by some bytes of that piece, at its end to the next piece.
    fn advance(&mut self, count: usize) {
        self.byte = self.byte.saturating_add(count);
        if self.byte >= self.piece().len() {
            self.piece = self.piece.saturating_add(1);
            self.byte = 0;
        }
    }
}

/// A reader that gives pieces, so many bytes a call at most, and fails after so many calls.
#[derive(Drop)]
pub struct Given {
    place: Cursor,
    step: usize,
    calls: u64,
}

impl Given {
    /// Nothing is read yet.
    pub fn new(input: Pieces, flow: &Flow) -> Given {
        Given {
            place: Cursor::new(input),
            step: flow.step,
            calls: flow.reads,
        }
    }
}

impl Read for Given {
    ghost remaining = { λ r. None };

    fn read(&mut self, buf: &mut [u8]) -> io::Result<usize> {
        if self.calls == 0 {
            return Err(io::Error::from(ErrorKind::Other));
        }
        self.calls -= 1;
        let rest = self.place.rest();
        let count = rest.len().min(self.step).min(buf.len());
        let (front, _) = rest.split_at(count);
        buf[..count].copy_from_slice(front);
        self.place.advance(count);
        Ok(count)
    }
}

/// A writer that compares what comes with pieces that are wanted. It takes so many bytes a call at most, and no more than
/// it has room for.
#[derive(Clone, Copy)]
pub struct Compared {
    place: Cursor,
    step: usize,
    room: usize,
    taken: usize,
    // whether a byte came when another was wanted, and when none was
    differs: bool,
    exceeds: bool,
}

impl Compared {
    // Nothing has come yet of what is wanted from this place on.
    fn from(place: Cursor, step: usize, room: usize) -> Compared {
        Compared {
            place,
            step,
            room,
            taken: 0,
            differs: false,
            exceeds: false,
        }
    }

    /// These pieces are wanted, and nothing has come yet.
    pub fn new(wanted: Pieces, step: usize, room: usize) -> Compared {
        Compared::from(Cursor::new(wanted), step, room)
    }

    /// This piece is wanted, which may be empty, and nothing has come yet. Calls move all of their bytes.
    pub fn of(wanted: &'static [u8], room: usize) -> Compared {
        Compared::from(Cursor::of(wanted), usize::MAX, room)
    }

    /// How many bytes have come.
    pub fn taken(&self) -> usize {
        self.taken
    }

    /// Whether what came is a beginning of what is wanted.
    pub fn is_front(&self) -> bool {
        !self.differs && !self.exceeds
    }

    /// Whether what came has all pieces in it, one after the other.
    pub fn has_all(&self) -> bool {
        self.place.rest().is_empty()
    }

    /// Whether what came begins with what is wanted.
    pub fn begins(&self) -> bool {
        self.has_all() && !self.differs
    }

    /// Whether what came is what is wanted.
    pub fn is_whole(&self) -> bool {
        self.has_all() && self.is_front()
    }

    // Compares a byte. A piece that does not go on so is looked for anew.
    fn take(&mut self, byte: u8) {
        match self.place.rest().first() {
            Some(wanted) if *wanted == byte => self.place.advance(1),
            Some(_) => {
                self.differs = true;
                self.place.byte = 0;
            }
            None => self.exceeds = true,
        }
    }
}

impl Write for Compared {
    ghost contents = { λ w. None };

    fn write(&mut self, buf: &[u8]) -> io::Result<usize> {
        let count = buf.len().min(self.step).min(self.room);
        let (front, _) = buf.split_at(count);
        for byte in front {
            self.take(*byte);
        }
        self.room = self.room.saturating_sub(count);
        self.taken = self.taken.saturating_add(count);
        Ok(count)
    }

    fn flush(&mut self) -> io::Result<()> {
        Ok(())
    }
}

/// Counts lines of progress.
#[derive(Drop)]
pub struct Lines {
    told: AtomicU32,
}

impl Lines {
    /// None so far.
    pub fn new() -> Lines {
        Lines {
            told: AtomicU32::new(0),
        }
    }

    /// Whether none was reported.
    pub fn are_none(&self) -> bool {
        self.told.load(Ordering::SeqCst) == 0
    }
}

impl<'a> ProgressTeller for &'a Lines {
    fn tell(&self, _news: ProgressLine) {
        self.told.fetch_add(1, Ordering::SeqCst);
    }
}

/// Compares faults with what is wanted, and with the fault of refused memory, and counts lines of progress.
#[derive(Drop)]
pub struct Heard<'a> {
    pub text: Compared,
    pub refused: Compared,
    lines: &'a Lines,
}

impl<'a> Heard<'a> {
    /// Nothing has come yet.
    pub fn new(wanted: &'static [u8], room: usize, lines: &'a Lines) -> Heard<'a> {
        Heard {
            text: Compared::of(wanted, room),
            refused: Compared::of(NO_MEMORY, usize::MAX),
            lines,
        }
    }
}

impl<'a> Write for Heard<'a> {
    ghost contents = { λ w. None };

    fn write(&mut self, buf: &[u8]) -> io::Result<usize> {
        let _ = self.refused.write(buf);
        self.text.write(buf)
    }

    fn flush(&mut self) -> io::Result<()> {
        Ok(())
    }
}

impl<'a> LendTeller for Heard<'a> {
    type Teller = &'a Lines;

    ghost has_lent = { λ _ _ before. before ≡ None };

    fn teller(&mut self) -> &'a Lines {
        self.lines
    }

    fn end(&mut self, _teller: &'a Lines) {}
}
