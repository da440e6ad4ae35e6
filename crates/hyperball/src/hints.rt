//! Hints, unasked, on an input that is probably not what was meant.
//!
//! A [`HintingReader`] looks at what is read through it, and writes at most one [`Hint`], as soon as it is known: that of
//! the first bytes with them, and that of the delimiter at the end of the edge list. It looks no further once none can
//! be due ([`Look`]): a list is looked at up to its first line with two fields.

ghost use Rattle.std.specs.Prelude.{◌≡◌, ◌⊎◌, IfSome, false};
ghost use Rattle.std.specs.Io.KnownBytes.{Keeps, ReadConsumes};
ghost use Rattle.std.specs.Io.{ReadsAtMost};
ghost use Rattle.hyperball.specs.Hints.{TellsHint, TellsOne, line_of_hint};
ghost use Rattle.hyperball.specs.Streams.{writes_of};

use ball_model::{CountedRead, CountedWrite, put_all};
use edgelist::Delimiter;
use std::io;
use std::io::Read;

/// What is probably wrong with an input.
#[derive(Clone, Copy, Debug, PartialEq, Eq)]
pub(crate) enum Hint {
    /// It begins as what gzip has compressed.
    Gzip,
    /// It begins as a Matrix Market file.
    MatrixMarket,
    /// No line has two fields, and each has a tab.
    Tab,
    /// No line has two fields, and each has a comma.
    Comma,
    /// No line has two fields, and each has a space.
    Space,
}

impl Hint {
    /// Its line, with the end.
    pub(crate) fn line(self) -> &'static str
        ensures { result.now ≡ line_of_hint self }
    {
        match self {
            Hint::Gzip => {
                "hyperball: the input is compressed (gzip): zcat FILE | hyperball run ..\n"
            }
            Hint::MatrixMarket => {
                "hyperball: the input is a Matrix Market file: grep -v '^%' FILE | tail -n +2 | cut -d ' ' -f 1,2 | hyperball run --delimiter space ..\n"
            }
            Hint::Tab => "hyperball: no line has two fields; each has a tab: --delimiter tab?\n",
            Hint::Comma => {
                "hyperball: no line has two fields; each has a comma: --delimiter comma?\n"
            }
            Hint::Space => {
                "hyperball: no line has two fields; each has a space: --delimiter space?\n"
            }
        }
    }
}

// A text that an input may begin with: what of it is still to come, or nothing once another byte came.
#[derive(Clone, Copy)]
struct Front {
    left: &'static [u8],
}

impl Front {
    // One byte more has come. Whether the text is there with it.
    fn is_whole_with(&mut self, byte: u8) -> bool {
        if let Some((next, rest)) = self.left.split_first()
            && *next == byte
        {
            self.left = rest;
            return rest.is_empty();
        }
        self.left = &[];
        false
    }
}

// A delimiter that is not the chosen one: whether it is in the line at hand, and in each record so far.
#[derive(Clone, Copy)]
struct Other {
    byte: u8,
    hint: Hint,
    in_line: bool,
    in_all: bool,
}

impl Other {
    // No record has come.
    fn new(byte: u8, hint: Hint) -> Other {
        Other {
            byte,
            hint,
            in_line: false,
            in_all: true,
        }
    }

    // A record has come.
    fn end_record(&mut self) {
        self.in_all = self.in_all && self.in_line;
        self.in_line = false;
    }
}

const TAB: u8 = b'\t';

const COMMA: u8 = b',';

const SPACE: u8 = b' ';

// The byte of a delimiter, and the other two, the likelier one first.
fn others_of(delimiter: Delimiter) -> (u8, Other, Other) {
    let tab = Other::new(TAB, Hint::Tab);
    let comma = Other::new(COMMA, Hint::Comma);
    let space = Other::new(SPACE, Hint::Space);
    match delimiter {
        Delimiter::Tab => (TAB, comma, space),
        Delimiter::Comma => (COMMA, tab, space),
        Delimiter::Space => (SPACE, tab, comma),
    }
}

// What the line at hand is, as far as it has come.
#[derive(Clone, Copy, PartialEq, Eq)]
enum Line {
    Empty,
    Comment,
    // One percent sign, and two: the mark.
    Percent,
    Mark,
    Record,
}

impl Line {
    // With one byte more.
    fn with(self, byte: u8) -> Line {
        match self {
            Line::Comment => Line::Comment,
            Line::Empty if byte == b'#' => Line::Comment,
            Line::Empty if byte == b'%' => Line::Percent,
            Line::Percent if byte == b'%' => Line::Mark,
            _ => Line::Record,
        }
    }
}

// The bytes of a byte order mark, which is no part of the first line.
const BYTE_ORDER_MARK: [u8; 3] = [0xef, 0xbb, 0xbf];

// What the lines of an edge list have shown so far.
#[derive(Clone, Copy)]
struct Lines {
    delimiter: u8,
    first: Other,
    second: Other,
    // whether the mark ends the list
    marked: bool,
    // whether all bytes so far were those of a byte order mark
    at_front: bool,
    line: Line,
    has_records: bool,
    ended: bool,
}

impl Lines {
    // Nothing has come of a list.
    fn new(delimiter: Delimiter, marked: bool) -> Lines {
        let (delimiter, first, second) = others_of(delimiter);
        Lines {
            delimiter,
            first,
            second,
            marked,
            at_front: true,
            line: Line::Empty,
            has_records: false,
            ended: false,
        }
    }

    // One byte more has come.
    fn pass(&mut self, byte: u8) {
        if self.at_front && BYTE_ORDER_MARK.contains(&byte) {
            return;
        }
        self.at_front = false;
        match byte {
            b'\n' => self.end_line(),
            b'\r' => {}
            _ => self.add(byte),
        }
    }

    // The line at hand has one byte more.
    fn add(&mut self, byte: u8) {
        self.line = self.line.with(byte);
        if self.line == Line::Comment {
            return;
        }
        if byte == self.delimiter {
            self.first.in_all = false;
            self.second.in_all = false;
        } else if byte == self.first.byte {
            self.first.in_line = true;
        } else if byte == self.second.byte {
            self.second.in_line = true;
        }
    }

    // The line at hand has come to its end, or the input has.
    fn end_line(&mut self) {
        match self.line {
            Line::Empty | Line::Comment => {}
            Line::Mark if self.marked => self.ended = true,
            Line::Percent | Line::Mark | Line::Record => {
                self.has_records = true;
                self.first.end_record();
                self.second.end_record();
            }
        }
        self.line = Line::Empty;
    }

    // Whether a hint may be due at the end of the list.
    fn may_end_in_hint(&self) -> bool {
        !self.ended && (self.first.in_all || self.second.in_all)
    }

    // What is due of a list that has ended.
    fn hint(&self) -> Option<Hint> {
        if !self.has_records {
            None
        } else if self.first.in_all {
            Some(self.first.hint)
        } else if self.second.in_all {
            Some(self.second.hint)
        } else {
            None
        }
    }
}

/// What an input has shown so far.
#[derive(Clone, Copy)]
pub(crate) struct Look {
    // whether a hint may still be due, and none was given
    due: bool,
    gzip: Front,
    matrix: Front,
    lines: Lines,
}

impl Look {
    /// Nothing has come of an input with this delimiter, in which the mark ends the edge list or not.
    pub(crate) fn new(delimiter: Delimiter, marked: bool) -> Look {
        Look {
            due: true,
            gzip: Front { left: b"\x1f\x8b" },
            matrix: Front {
                left: b"%%MatrixMarket",
            },
            lines: Lines::new(delimiter, marked),
        }
    }

    /// Nothing is looked at.
    pub(crate) fn closed() -> Look
        ensures { result.due ≡ false }
    {
        Look {
            due: false,
            ..Look::new(Delimiter::Tab, false)
        }
    }

    // One byte more has come: what is due with it.
    fn hint_with(&mut self, byte: u8) -> Option<Hint> {
        if self.gzip.is_whole_with(byte) {
            return Some(Hint::Gzip);
        }
        if self.matrix.is_whole_with(byte) {
            return Some(Hint::MatrixMarket);
        }
        self.lines.pass(byte);
        if self.lines.ended {
            self.lines.hint()
        } else {
            None
        }
    }

    // Whether no hint can be due any more.
    fn is_idle(&self) -> bool {
        self.gzip.left.is_empty() && self.matrix.left.is_empty() && !self.lines.may_end_in_hint()
    }

    // These bytes have come: what is due with them.
    fn hint_in(&mut self, bytes: &[u8]) -> Option<Hint> {
        for byte in bytes {
            let hint = self.hint_with(*byte);
            if hint.is_some() || self.is_idle() {
                return hint;
            }
        }
        None
    }

    // These bytes have come, or the end of the input if they are none: what is due with them.
    fn pass(&mut self, bytes: &[u8]) -> Option<Hint>
        ensures { IfSome result (λ _. self.new.due ≡ false) }
    {
        let hint = if bytes.is_empty() {
            self.lines.end_line();
            self.lines.hint()
        } else {
            self.hint_in(bytes)
        };
        self.due = hint.is_none() && !bytes.is_empty() && !self.is_idle();
        hint
    }
}

// Writes a hint. What of it cannot be written is dropped.
fn tell_hint<W: CountedWrite>(hint: Hint, faults: &mut W)
    ensures { TellsHint hint (writes_of W.contents W.failed_calls faults.old faults.new) }
{
    let _ = put_all(faults, hint.line().as_bytes());
}

// What looks at an input, and writes a hint if one is due.
#[derive(Drop)]
struct Scout<W: Drop> {
    look: Look,
    faults: W,
}

impl<W: CountedWrite + Drop> Scout<W> {
    // These bytes have come into a buffer, or the end of the input if they are none.
    fn pass(&mut self, bytes: &[u8])
        ensures shut { self.old.look.due ≡ false → self.new ≡ self.old }
        ensures once { Keeps (W.contents self.old.faults) (W.contents self.new.faults)
            ⊎ TellsOne self.new.look.due
            (writes_of W.contents W.failed_calls self.old.faults self.new.faults) }
    {
        if !self.look.due {
            return;
        }
        if let Some(hint) = self.look.pass(bytes) {
            tell_hint(hint, &mut self.faults);
        }
    }
}

/// A reader that writes a hint if one is due of what is read through it, and else does what the reader inside does.
#[derive(Drop)]
pub(crate) struct HintingReader<R: Drop, W: Drop> {
    inner: R,
    scout: Scout<W>,
}

impl<R: CountedRead + Drop, W: CountedWrite + Drop> HintingReader<R, W> {
    /// The reader, of which nothing was read yet. Hints go to `faults`.
    pub(crate) fn new(inner: R, look: Look, faults: W) -> HintingReader<R, W>
        ensures inner { result.inner ≡ inner }
        ensures look { result.scout.look ≡ look }
        ensures faults { result.scout.faults ≡ faults }
    {
        HintingReader {
            inner,
            scout: Scout { look, faults },
        }
    }
}

impl<R: CountedRead + Drop, W: CountedWrite + Drop> Read for HintingReader<R, W> {
    ghost remaining = { λ r. R.remaining r.inner };

    fn read(&mut self, buf: &mut [u8]) -> io::Result<usize>
        ensures bound { ReadsAtMost result buf.new }
        ensures bytes { ReadConsumes (R.remaining self.old.inner) (R.remaining self.new.inner)
            result buf.new }
    {
        let result = self.inner.read(buf);
        if let Ok(count) = &result
            && !buf.is_empty()
        {
            self.scout.pass(&buf[..*count]);
        }
        result
    }
}

impl<R: CountedRead + Drop, W: CountedWrite + Drop> CountedRead for HintingReader<R, W> {
    ghost failed_calls = { λ r. R.failed_calls r.inner };

    ghost sure_calls = { λ r. R.sure_calls r.inner };

    fn failures(&self) -> u64 {
        self.inner.failures()
    }

    fn get(&mut self, buf: &mut [u8]) -> Option<usize> {
        let count = self.inner.get(buf)?;
        if !buf.is_empty() {
            self.scout.pass(&buf[..count]);
        }
        Some(count)
    }
}
