//! What no clause says, and no run of the program shows: what words are read as, printed texts, and memory and streams
//! that fail. (`tests/check` tries the rest: reports, answers, faults, help and statuses.) A case is constant data:
//! words, an input, and what comes of them. What is written, to the output and to the faults, is compared as it comes,
//! and kept nowhere.

mod fakes;
mod refusals;
mod streams;
mod vectors;
mod words;

use crate::serve::serve;
use ball_model::{CountedRead, CountedWrite, CountingReader, CountingWriter};
use fakes::{Compared, Given, Heard, Lines};
use std::alloc::{AllocError, Global};
use std::process::Abort;
use std::random::RandomSource;
use std::sync::Wait;
use std::thread::Threads;
use std::time::Clock;
use vectors::{FIRST_END, SECOND_END};

/// All that the program has of its machine.
trait Host: Abort + AllocGlobal + Clock + RandomSource + Threads + Wait + Sync {}

impl<H: Abort + AllocGlobal + Clock + RandomSource + Threads + Wait + Sync> Host for H {}

/// Some bytes in pieces, none of which is empty.
type Pieces = &'static [&'static [u8]];

/// The words of a command line, an input, the status, what is written, and the faults: of words that are refused
/// (status 2) the beginning.
type Case = (&'static str, Pieces, u8, Pieces, &'static [u8]);

/// Two edges, from a to b and from b to c.
const EDGES: &[u8] = b"a\tb\nb\tc\n";

/// These edges, with the mark that ends them.
const MARKED: &[u8] = b"a\tb\nb\tc\n%%\n";

/// The report of the two edges.
const REPORT: &[u8] = b"superstep,0,33.803869
superstep,1,34.851860
superstep,2,35.588471
superstep,3,35.588471
end,3,stable
gain,0.708147
vertex,a,11.390942,0.000000,0.000000,1.000000,15
vertex,b,11.780376,0.665022,1.503709,208.680703,14
vertex,c,12.417153,0.751274,0.538737,83.065637,13
";

/// The report of the two edges if a alone is counted.
const ONE_COUNTED: &[u8] = b"superstep,0,32.926942
superstep,1,33.549884
superstep,2,34.172826
superstep,3,34.172826
end,3,stable
gain,0.467206
vertex,a,11.390942,0.000000,0.000000,1.000000,15
vertex,b,11.390942,0.622942,1.605285,208.291557,15
vertex,c,11.390942,0.311471,0.802642,104.145778,15
";

/// Words that ask for the report of two nodes' checkpoints, and what they read.
const GATHER_BOTH: &str = "hyperball gather --log2m 4 --parts 2";

const BOTH_KEPT: Pieces = &[MARKED, b"part 291\n", FIRST_END, b"part 226\n", SECOND_END];

/// That report.
const GATHERED: Case = (GATHER_BOTH, BOTH_KEPT, 0, &[REPORT], b"");

/// Words that ask for the version.
const VERSION: Case = ("hyperball --version", &[], 0, &[b"hyperball 0.1.0\n"], b"");

const RUN: &str = "hyperball run --log2m 4";

const COUNTED: &str = "hyperball run --log2m 4 --counted";

const NO_MEMORY: &[u8] = b"hyperball: out of memory\n";

const UNWRITTEN: &[u8] = b"hyperball: the output cannot be written\n";

/// How bytes flow: how many bytes a call moves at most, how many reads go well, and how many bytes of the output and
/// of the faults find room.
#[derive(Clone, Copy)]
struct Flow {
    step: usize,
    reads: u64,
    room: usize,
    told: usize,
}

/// Streams that never fail.
static OPEN: Flow = Flow {
    step: usize::MAX,
    reads: u64::MAX,
    room: usize::MAX,
    told: usize::MAX,
};

/// How words ended: whether they were served, with no line of progress; the status; how many calls of the reader and
/// the writer failed; what was written; what came to the faults, compared with the case's and with the fault of refused
/// memory.
#[derive(Clone, Copy)]
struct End {
    served: bool,
    status: u8,
    failures: u64,
    output: Compared,
    faults: Compared,
    refused: Compared,
}

/// Adds the words of a line.
fn add_words(alloc: Global, line: &str, words: &mut Vec<String>) -> Result<(), AllocError> {
    for word in line.split_whitespace() {
        words.push(String::from_str(alloc, word)?)?;
    }
    Ok(())
}

/// The words of a line, as the program gets them.
fn words_of(alloc: Global, line: &str) -> Result<Vec<String>, AllocError> {
    let mut words = Vec::new(alloc);
    add_words(alloc, line, &mut words)?;
    Ok(words)
}

/// How these words end over the input of a case.
fn end_of<H: Host>(rt: &H, words: &[String], case: &Case, flow: &Flow, lines: &Lines) -> End {
    let mut reader = CountingReader::new(Given::new(case.1, flow));
    let mut output = Compared::new(case.3, flow.step, flow.room);
    let mut writer = CountingWriter::new(&mut output);
    let mut told = Heard::new(case.4, flow.told, lines);
    let status = serve(rt, words, &mut reader, &mut writer, &mut told);
    let failures = reader.failures().saturating_add(writer.failures());
    End {
        served: true,
        status,
        failures,
        output,
        faults: told.text,
        refused: told.refused,
    }
}

/// The end of words that nobody serves.
fn no_end() -> End {
    let nothing = Compared::of(b"", 0);
    End {
        served: false,
        status: 0,
        failures: 0,
        output: nothing,
        faults: nothing,
        refused: nothing,
    }
}

/// How the words of a case end over its input. They are not served if memory is refused before.
fn served<H: Host>(rt: &H, case: &Case, flow: &Flow, lines: &Lines) -> End {
    match words_of(rt.alloc(), case.0) {
        Ok(words) => end_of(rt, &words, case, flow, lines),
        Err(_) => no_end(),
    }
}

/// How a case ends over such streams. It counts as not served if a line of progress is reported.
fn end_in<H: Host>(rt: &H, case: &Case, flow: &Flow) -> End {
    let lines = Lines::new();
    let mut end = served(rt, case, flow, &lines);
    end.served &= lines.are_none();
    end
}

/// Whether the status is that of the case, and the faults are what it says.
fn is_told(case: &Case, end: &End) -> bool {
    let told = if case.2 == 2 {
        end.faults.begins()
    } else {
        end.faults.is_whole()
    };
    told && end.served && end.status == case.2
}

/// Whether a case ended as it says.
fn is_right(case: &Case, end: &End) -> bool {
    is_told(case, end) && end.output.is_whole()
}

/// Whether a case ends as it says over such streams.
fn ends_in<H: Host>(rt: &H, case: &Case, flow: &Flow) -> bool {
    is_right(case, &end_in(rt, case, flow))
}

/// Whether a case ends as it says.
fn ends<H: Host>(rt: &H, case: &Case) -> bool {
    ends_in(rt, case, &OPEN)
}
