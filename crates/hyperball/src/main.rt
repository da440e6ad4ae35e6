//! HyperBall centralities of a directed graph, from the command line.
//!
//! `hyperball run` reads an edge list on standard input and writes its report on standard output; `hyperball replay`
//! plays a script over one; `hyperball node` is one partition's node that answers commands, and `hyperball gather`
//! writes the report of the checkpoints of all partitions. Each has a file in [`cli`], with its words and what it does.
//! This file hands the real streams to [`serve::serve`], which reads words and bytes, and returns a status.
//! [`cli::read_words`] gives what the words ask for, a [`cli::Subcommand`]: of a run what is asked of it, with the lists of
//! orders ([`cli::orders`]). With `--counted` a run reads its input whole ([`whole::read_whole`]) and cuts it into its
//! parts ([`whole::parts_of`]), and so does a replay. The run itself is [`workers::run_watched`]. How a command gets on
//! is reported in lines of progress ([`lines::ProgressLine`]), if that is asked for ([`progress`]). What is told unasked comes
//! from here: that the input is to be typed, that no plan has the numbers ([`cli::Subcommand::foretold`]), and what is probably
//! wrong with the input ([`hints`]).
//!
//! ```text
//! $ printf 'a\tb\nb\tc\n' | hyperball run --log2m 4 --estimate corrected
//! superstep,0,3.000000
//! superstep,1,5.133332
//! superstep,2,6.276189
//! superstep,3,6.276189
//! end,3,stable
//! gain,1.352380
//! vertex,a,1.000000,0.000000,0.000000,1.000000,15
//! vertex,b,2.066666,1.066666,0.937500,4.004166,14
//! vertex,c,3.209523,1.638094,0.298295,3.072753,13
//! ```
#![tactic(auto)]

mod cli;
mod fault;
mod hints;
pub mod laws;
pub mod lines;
pub mod progress;
pub mod serve;
#[cfg(test)]
mod tests;
mod whole;

use crate::cli::Subcommand;
use crate::hints::{HintingReader, Look};
use crate::progress::ProgressTeller;
use ball_model::{CountingReader, CountingWriter};
use std::io::{BufReader, ErrorKind, IsTerminal, Write};
use std::process::ExitCode;
use std::{env, io};

// The words of the command line. No contract of std says what these are.
fn words_of(rt: &HostRuntime) -> io::Result<Vec<String>> {
    Ok(env::args(rt)?.collect(rt.alloc())?)
}

// Reports why there are no words, and returns the status. A word that is no UTF-8 is refused as other mistaken words are.
fn tell_no_words(rt: &HostRuntime, error: io::Error) -> u8 {
    let mut faults = rt.stderr();
    if error.kind() == ErrorKind::InvalidData {
        let _ = writeln!(faults, "error: a word is not valid UTF-8");
        return 2;
    }
    fault::tell_fault(&mut faults, error)
}

// Reports what a user is to know before anything is read: that input is to be typed, and that no plan has the numbers.
fn tell_before(rt: &HostRuntime, subcommand: &Subcommand) {
    if rt.stdin().is_terminal() {
        let told =
            "hyperball: reads its input from the terminal; Ctrl-D on a line of its own ends it";
        let _ = writeln!(rt.stderr(), "{told}");
    }
    if let Some(line) = subcommand.foretold() {
        rt.stderr().tell(line);
    }
}

// What is looked at in the input: the edge list of a run.
fn look_of(subcommand: &Subcommand) -> Look {
    match subcommand {
        Subcommand::Run(args) => Look::new(args.options.delimiter, args.counted),
        _ => Look::closed(),
    }
}

fn main(rt: HostRuntime) -> ExitCode {
    let words = match words_of(&rt) {
        Ok(words) => words,
        Err(error) => return ExitCode::from(tell_no_words(&rt, error)),
    };
    // Words that ask for help, or are refused, read nothing.
    let look = match cli::read_words(rt.alloc(), &words) {
        Ok(subcommand) => {
            tell_before(&rt, &subcommand);
            look_of(&subcommand)
        }
        Err(_) => Look::closed(),
    };
    let mut faults = rt.stderr();
    let stdin = match BufReader::new(rt.alloc(), rt.stdin()) {
        Ok(stdin) => stdin,
        Err(error) => return ExitCode::from(fault::tell_fault(&mut faults, error)),
    };
    let mut reader = HintingReader::new(
        CountingReader::new(stdin),
        look,
        CountingWriter::new(faults),
    );
    let mut writer = CountingWriter::new(rt.stdout());
    let status = serve::serve(&rt, &words, &mut reader, &mut writer, &mut faults);
    ExitCode::from(status)
}
