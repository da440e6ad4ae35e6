//! Inputs that are read whole, and cut into their parts: an edge list, and after a line of exactly `%%` each a list of
//! counted vertices and a script, if they are wanted.

ghost use Rattle.std.specs.Prelude.{◌≡◌, ◌≢◌, ◌<◌, ◌≤◌, ◌+◌, ◌++◌, if◌then◌else◌, [], length, Err};
ghost use Rattle.std.specs.Prelude.{IfErr, IfOk, None, Ok, OnOk, Some, option_map};
ghost use Rattle.ball_model.specs.Streams.{Rises, RisesByOne, TakesAtMost};
ghost use Rattle.ball_model.specs.Sections.{after_mark, sections_of};
ghost use Rattle.ball_model.specs.RunText.{list_in};
ghost use Rattle.hyperball.specs.Streams.{reads_of};
ghost use Rattle.hyperball.specs.Whole.{IsLong, IsWholeInput, ReadsFew, ReadsWhole, parts_in};

use ball_model::{CountedRead, Filled, fill};
use job::{MOST_BYTES, after_mark};
use std::alloc::{AllocError, Global};
use thiserror::Error;

// How many bytes are read at once.
const PIECE: usize = 65_536;

/// A part that an input lacks: no line of exactly `%%` is before it.
#[derive(Clone, Copy, Debug, Error)]
pub(crate) enum Lack {
    /// The list of counted vertices.
    #[error("no line %% before the list")]
    List,
    /// The script.
    #[error("no line %% before the script")]
    Script,
}

/// Which parts an input is to have after its edge list, in this order, with a line of exactly `%%` before each.
#[derive(Clone, Copy)]
pub(crate) struct Form {
    /// Whether it has a list of counted vertices.
    pub(crate) list: bool,
    /// Whether it has a script.
    pub(crate) script: bool,
}

/// The parts of an input.
#[derive(Clone, Copy)]
pub(crate) struct Parts<'a> {
    /// The edge list.
    pub(crate) edges: &'a [u8],
    /// The list of counted vertices, if there is one.
    pub(crate) list: Option<&'a [u8]>,
    /// The script, if there is one.
    pub(crate) script: Option<&'a [u8]>,
}

/// Why an input is not read whole, in the order of the checks.
#[derive(Clone, Copy, Debug, Error)]
pub(crate) enum WholeError {
    /// A read failed.
    #[error("the input cannot be read")]
    Read,
    /// There are more bytes.
    #[error("the input is longer than 67108864 bytes")]
    Size,
    /// Memory was refused.
    #[error("out of memory")]
    Memory,
}

impl From<AllocError> for WholeError {
    ghost use Rattle.hyperball.specs.declared.whole.WholeError.TheVariants.{Memory};

    ghost from_gives = { λ _ e. e ≡ Memory };

    fn from(_error: AllocError) -> WholeError {
        WholeError::Memory
    }
}

// Adds a piece after the others, if they are not more than `MOST_BYTES` with it.
fn add_piece(bytes: &mut Vec<u8>, piece: &[u8]) -> Result<(), WholeError>
    requires { length bytes.old.items ≤ MOST_BYTES }
    ensures ok { OnOk result (bytes.new.items ≡ bytes.old.items ++ piece.now) }
    ensures within { OnOk result (length bytes.new.items ≤ MOST_BYTES) }
    ensures size { result ≡ Err WholeError.Size →
        MOST_BYTES < length bytes.old.items + length piece.now }
    ensures memory { result ≡ Err WholeError.Memory →
        length bytes.old.items + length piece.now ≤ MOST_BYTES }
    ensures kind { IfErr result (λ e. e ≢ WholeError.Read) }
{
    if piece.len() > MOST_BYTES - bytes.len() {
        return Err(WholeError::Size);
    }
    bytes.extend_from_slice(piece)?;
    Ok(())
}

// A buffer of this length.
fn buffer_of(alloc: Global, size: usize) -> Result<Vec<u8>, AllocError>
    ensures { IfOk result (λ buffer. length buffer.items ≡ size) }
{
    vec![in alloc; 0u8; size]
}

// Reads all pieces.
fn read_all<R: CountedRead>(
    reader: &mut R,
    buffer: &mut [u8],
    bytes: &mut Vec<u8>,
) -> Result<(), WholeError>
    requires buffer { 0 < length buffer.old }
    requires start { bytes.old.items ≡ [] }
    ensures ok { OnOk result (IsWholeInput (R.remaining reader.old) bytes.new.items) }
    ensures within { OnOk result (length bytes.new.items ≤ MOST_BYTES) }
    ensures size { result ≡ Err WholeError.Size → IsLong (R.remaining reader.old) }
    ensures memory { result ≡ Err WholeError.Memory →
        TakesAtMost MOST_BYTES (R.remaining reader.old) (R.remaining reader.new) }
    ensures read { result ≡ Err WholeError.Read →
        RisesByOne (R.failed_calls reader.old) (R.failed_calls reader.new) }
    ensures failed { Rises (R.failed_calls reader.old) (R.failed_calls reader.new) →
        result ≡ Err WholeError.Read }
    ensures sure { R.sure_calls reader.old ≡ None → result ≢ Err WholeError.Read }
    ensures few { ReadsFew (R.remaining reader.old) (R.remaining reader.new) }
{
    loop {
        let room = buffer.len().min(MOST_BYTES - bytes.len() + 1);
        match fill(reader, &mut buffer[..room]) {
            Filled::Full => add_piece(bytes, &buffer[..room])?,
            Filled::Ended { count } => return add_piece(bytes, &buffer[..count]),
            Filled::Failed => return Err(WholeError::Read),
        }
    }
}

/// Reads an input to its end, at most one byte more than 2^26.
///
/// `Read` is answered if a call of the reader failed and at no other time, `Size` only if there are more than 2^26
/// bytes, `Memory` only if no more than 2^26 were read.
pub(crate) fn read_whole<R: CountedRead>(
    alloc: Global,
    reader: &mut R,
) -> Result<Vec<u8>, WholeError>
    ensures ok { IfOk result (λ bytes. IsWholeInput (R.remaining reader.old) bytes.items) }
    ensures within { IfOk result (λ bytes. length bytes.items ≤ MOST_BYTES) }
    ensures reads { ReadsWhole
        (reads_of R.remaining R.failed_calls R.sure_calls reader.old reader.new)
        (λ e. result ≡ Err e) }
{
    let mut buffer = buffer_of(alloc, PIECE)?;
    let mut bytes = Vec::new(alloc);
    read_all(reader, &mut buffer, &mut bytes)?;
    Ok(bytes)
}

// What follows a line of exactly %%, if a line begins and such a one is at the front.
fn mark_here(begins: bool, bytes: &[u8]) -> Option<&[u8]>
    ensures { option_map (λ rest. rest.now) result ≡
        (if begins then after_mark bytes.now else None) }
{
    if begins { after_mark(bytes) } else { None }
}

/// What is before the first line of exactly `%%`, and what follows it.
pub(crate) fn sections(input: &[u8]) -> Option<(&[u8], &[u8])>
    ensures { option_map (λ s. (s.0.now, s.1.now)) result ≡ sections_of input.now }
{
    let mut begins = true;
    for i in 0..input.len() {
        match mark_here(begins, &input[i..]) {
            Some(rest) => return Some((&input[..i], rest)),
            None => begins = input[i] == b'\n',
        }
    }
    None
}

// The two sections of an input, or the part that it lacks.
fn cut(input: &[u8], missing: Lack) -> Result<(&[u8], &[u8]), Lack>
    ensures ok { IfOk result (λ s. sections_of input.now ≡ Some (s.0.now, s.1.now)) }
    ensures lacks { IfErr result (λ e. (sections_of input.now ≡ None) × (e ≡ missing)) }
{
    match sections(input) {
        Some(found) => Ok(found),
        None => Err(missing),
    }
}

/// The parts of an input of this form, or the first that it lacks.
pub(crate) fn parts_of(input: &[u8], form: Form) -> Result<Parts<'_>, Lack>
    ensures ok { IfOk result (λ p. parts_in form.list form.script input.now ≡ Ok (record {
      edges = p.edges.now;
      list = list_in p.list;
      script = list_in p.script;
    })) }
    ensures lacks { IfErr result (λ e. parts_in form.list form.script input.now ≡ Err e) }
{
    match (form.list, form.script) {
        (false, false) => Ok(Parts {
            edges: input,
            list: None,
            script: None,
        }),
        (false, true) => {
            let (edges, script) = cut(input, Lack::Script)?;
            Ok(Parts {
                edges,
                list: None,
                script: Some(script),
            })
        }
        (true, false) => {
            let (edges, list) = cut(input, Lack::List)?;
            Ok(Parts {
                edges,
                list: Some(list),
                script: None,
            })
        }
        (true, true) => {
            let (edges, rest) = cut(input, Lack::List)?;
            let (list, script) = cut(rest, Lack::Script)?;
            Ok(Parts {
                edges,
                list: Some(list),
                script: Some(script),
            })
        }
    }
}
