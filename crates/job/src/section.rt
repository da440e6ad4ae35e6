//! Sections of an input on a stream: one ends at the first line of exactly `%%`, and nothing after
//! that line is read.
//!
//! [`next_step`] reads a section byte by byte, up to its mark. Bytes are taken from the reader one
//! at a time, so that what follows the mark is left there: the reader should be a buffered one.

ghost use Rattle.std.specs.Prelude.{◌≡◌, ◌≢◌, ℕ, ◌∷◌, ◌==◌, [], true, false, option_map};
ghost use Rattle.std.specs.Io.KnownBytes.{Consumes, IsAtEnd, Keeps, prepend_known};
ghost use Rattle.ball_model.specs.Sections.{after_line, after_mark};
ghost use Rattle.ball_model.specs.Streams.{RisesByOne};
ghost use Rattle.job.specs.Section.{DoesStep, EndsAtMark, Gives, IsAhead, IsByteOrEnd, IsPast};
ghost use Rattle.job.specs.Section.{LeavesAhead, is_front, is_tail};
ghost use Rattle.job.specs.Stream.{FailsAs};

use arrayvec::ArrayVec;
use ball_model::CountedRead;

/// What came of reading one byte.
#[derive(Clone, Copy, Debug, PartialEq, Eq)]
pub enum NextByte {
    /// The byte.
    Byte(u8),
    /// There is none more.
    End,
    /// A call of the reader failed.
    Failed,
}

/// The next byte of a reader.
pub fn next_of<R: CountedRead>(reader: &mut R) -> NextByte
    ensures byte { (b : ℕ) → result ≡ NextByte.Byte b →
        Consumes (R.remaining reader.old) (R.remaining reader.new) (b ∷ []) }
    ensures end { result ≡ NextByte.End → IsAtEnd (R.remaining reader.new) }
    ensures kept { result ≡ NextByte.End →
        Keeps (R.remaining reader.old) (R.remaining reader.new) }
    ensures same { result ≡ NextByte.Failed →
        Keeps (R.remaining reader.old) (R.remaining reader.new) }
    ensures failed { result ≡ NextByte.Failed →
        RisesByOne (R.failed_calls reader.old) (R.failed_calls reader.new) }
    ensures counted { result ≢ NextByte.Failed →
        R.failed_calls reader.new ≡ R.failed_calls reader.old }
{
    let mut byte = [0u8; 1];
    match reader.get(&mut byte) {
        Some(0) => NextByte::End,
        Some(_) => NextByte::Byte(byte[0]),
        None => NextByte::Failed,
    }
}

/// How far a section was read.
#[derive(Drop)]
pub(crate) struct Cut {
    // a line begins at the next byte
    begins: bool,
    // what was read of the reader, and is next
    ahead: ArrayVec<u8, 4>,
    ghost at_line: { IsAhead begins ahead.items },
}

impl Cut {
    /// The start of a section.
    pub(crate) fn start() -> Cut
        ensures begins { result.begins ≡ true }
        ensures ahead { result.ahead.items ≡ [] }
    {
        Cut {
            begins: true,
            ahead: ArrayVec::new(),
        }
    }
}

// What follows the end of a line, if one is at the front.
fn after_line(bytes: &[u8]) -> Option<&[u8]>
    ensures { option_map (λ rest. rest.now) result ≡ after_line bytes.now }
{
    if bytes.is_empty() {
        Some(bytes)
    } else if bytes[0] == b'\n' {
        Some(&bytes[1..])
    } else if bytes.len() > 1 && bytes[0] == b'\r' && bytes[1] == b'\n' {
        Some(&bytes[2..])
    } else {
        None
    }
}

/// What follows a line of exactly %%, if one is at the front.
pub fn after_mark(bytes: &[u8]) -> Option<&[u8]>
    ensures { option_map (λ rest. rest.now) result ≡ after_mark bytes.now }
{
    if bytes.len() > 1 && bytes[0] == b'%' && bytes[1] == b'%' {
        after_line(&bytes[2..])
    } else {
        None
    }
}

// Whether bytes may be the front of a line of %%, and are not all of it.
fn is_front(bytes: &[u8]) -> bool
    ensures { result ≡ is_front bytes.now }
{
    match bytes.len() {
        0 => true,
        1 => bytes[0] == b'%',
        2 => bytes[0] == b'%' && bytes[1] == b'%',
        3 => bytes[0] == b'%' && bytes[1] == b'%' && bytes[2] == b'\r',
        _ => false,
    }
}

// Reads ahead as long as what was read may be the front of a line of %%. False: a call failed. Else
// it is known whether a mark is there, or the input has ended.
fn look<R: CountedRead>(reader: &mut R, ahead: &mut ArrayVec<u8, 4>) -> bool
    requires { is_front ahead.old.items ≡ true }
    ensures same { Keeps (prepend_known ahead.old.items (R.remaining reader.old))
        (prepend_known ahead.new.items (R.remaining reader.new)) }
    ensures past { IsPast ahead.new.items }
    ensures known { result ≡ true → is_front ahead.new.items ≡ true →
        IsAtEnd (R.remaining reader.new) }
    ensures front { result ≡ false → is_front ahead.new.items ≡ true }
    ensures failed { result ≡ false →
        RisesByOne (R.failed_calls reader.old) (R.failed_calls reader.new) }
    ensures counted { result ≡ true →
        R.failed_calls reader.new ≡ R.failed_calls reader.old }
{
    while is_front(ahead) {
        match next_of(reader) {
            NextByte::Byte(byte) => ahead.push(byte),
            NextByte::End => return true,
            NextByte::Failed => return false,
        }
    }
    true
}

/// What came of a step through a section.
#[derive(Clone, Copy, Debug, PartialEq, Eq)]
pub(crate) enum SectionStep {
    /// The next byte.
    Byte(u8),
    /// A mark was here, and is passed.
    Mark,
    /// The input ended.
    End,
    /// A call of the reader failed.
    Failed,
}

// The first byte that was read ahead, if there is one.
fn first_of(ahead: &mut ArrayVec<u8, 4>) -> SectionStep
    requires { is_tail ahead.old.items ≡ true }
    ensures byte { (b : ℕ) → result ≡ SectionStep.Byte b → ahead.old.items ≡ b ∷ ahead.new.items }
    ensures ahead { (b : ℕ) → result ≡ SectionStep.Byte b → IsAhead (b == 10) ahead.new.items }
    ensures end { result ≡ SectionStep.End → ahead.old.items ≡ [] }
    ensures kept { result ≡ SectionStep.End → ahead.new.items ≡ [] }
    ensures kind { IsByteOrEnd result }
{
    if ahead.is_empty() {
        SectionStep::End
    } else {
        SectionStep::Byte(ahead.remove(0))
    }
}

// A step where a line begins.
fn step_at_line<R: CountedRead>(reader: &mut R, ahead: &mut ArrayVec<u8, 4>) -> SectionStep
    requires { is_front ahead.old.items ≡ true }
    ensures does { DoesStep true (prepend_known ahead.old.items (R.remaining reader.old))
        (prepend_known ahead.new.items (R.remaining reader.new)) (R.remaining reader.new) result }
    ensures ahead { LeavesAhead true result ahead.new.items }
    ensures failed { FailsAs R.failed_calls reader.old reader.new result SectionStep.Failed }
{
    if !look(reader, ahead) {
        return SectionStep::Failed;
    }
    match after_mark(ahead) {
        Some(_) => {
            ahead.clear();
            SectionStep::Mark
        }
        None => first_of(ahead),
    }
}

// A step within a line.
fn step_in_line<R: CountedRead>(reader: &mut R, ahead: &mut ArrayVec<u8, 4>) -> SectionStep
    requires { is_tail ahead.old.items ≡ true }
    ensures does { DoesStep false (prepend_known ahead.old.items (R.remaining reader.old))
        (prepend_known ahead.new.items (R.remaining reader.new)) (R.remaining reader.new) result }
    ensures ahead { LeavesAhead false result ahead.new.items }
    ensures mark { result ≢ SectionStep.Mark }
    ensures empty { result ≡ SectionStep.Failed → ahead.new.items ≡ [] }
    ensures failed { FailsAs R.failed_calls reader.old reader.new result SectionStep.Failed }
{
    if !ahead.is_empty() {
        return first_of(ahead);
    }
    match next_of(reader) {
        NextByte::Byte(byte) => SectionStep::Byte(byte),
        NextByte::End => SectionStep::End,
        NextByte::Failed => SectionStep::Failed,
    }
}

// A step where a line begins, or within one.
fn step_of<R: CountedRead>(reader: &mut R, begins: bool, ahead: &mut ArrayVec<u8, 4>) -> SectionStep
    requires { IsAhead begins ahead.old.items }
    ensures does { DoesStep begins (prepend_known ahead.old.items (R.remaining reader.old))
        (prepend_known ahead.new.items (R.remaining reader.new)) (R.remaining reader.new) result }
    ensures ahead { LeavesAhead begins result ahead.new.items }
    ensures failed { FailsAs R.failed_calls reader.old reader.new result SectionStep.Failed }
{
    if begins {
        step_at_line(reader, ahead)
    } else {
        step_in_line(reader, ahead)
    }
}

/// The next byte of a section, or its end. Nothing is read after the end.
pub(crate) fn next_step<R: CountedRead>(reader: &mut R, cut: &mut Cut) -> SectionStep
    ensures byte { (b : ℕ) → result ≡ SectionStep.Byte b → Gives cut.old.begins b
        (prepend_known cut.old.ahead.items (R.remaining reader.old))
        (prepend_known cut.new.ahead.items (R.remaining reader.new)) }
    ensures next { (b : ℕ) → result ≡ SectionStep.Byte b → cut.new.begins ≡ (b == 10) }
    ensures mark { result ≡ SectionStep.Mark → EndsAtMark cut.old.begins
        (prepend_known cut.old.ahead.items (R.remaining reader.old)) (R.remaining reader.new) }
    ensures end { result ≡ SectionStep.End →
        IsAtEnd (prepend_known cut.old.ahead.items (R.remaining reader.old)) }
    ensures kept { result ≡ SectionStep.Failed →
        Keeps (prepend_known cut.old.ahead.items (R.remaining reader.old))
        (prepend_known cut.new.ahead.items (R.remaining reader.new)) }
    ensures still { result ≡ SectionStep.Failed → cut.new.begins ≡ cut.old.begins }
    ensures failed { result ≡ SectionStep.Failed →
        RisesByOne (R.failed_calls reader.old) (R.failed_calls reader.new) }
    ensures counted { result ≢ SectionStep.Failed →
        R.failed_calls reader.new ≡ R.failed_calls reader.old }
{
    let step = step_of(reader, cut.begins, &mut cut.ahead);
    match step {
        SectionStep::Byte(byte) => cut.begins = byte == b'\n',
        SectionStep::Mark => {}
        SectionStep::End => {}
        SectionStep::Failed => {}
    }
    step
}
