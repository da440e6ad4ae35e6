//! From words and bytes to bytes and a status.

ghost use Rattle.std.specs.Prelude.{◌≡◌, ◌≢◌, ◌≤◌, ◌⊎◌, [], List, false, IfErr, IfSome, None};
ghost use Rattle.std.specs.Prelude.{OnOk, Option, ℕ};
ghost use Rattle.std.specs.Io.KnownBytes.{Appends, Keeps};
ghost use Rattle.clap.specs.Words.{kind_of};
ghost use Rattle.hyperball.specs.Ends.{Does, Ends, EndsAccepted, EndsMistaken, EndsOfKind};
ghost use Rattle.hyperball.specs.Ends.{EndsOrders, EndsRefused, FailsBy, LeavesFault};
ghost use Rattle.hyperball.specs.Ends.{LeavesRefused};
ghost use Rattle.hyperball.specs.Progress.{Awaits, TellsAsAsked, TellsProgress};
ghost use Rattle.hyperball.specs.Streams.{AppendsSome, KeptOrFailed, Unread, Unwritten};
ghost use Rattle.hyperball.specs.Streams.{reads_of, writes_of};
ghost use Rattle.hyperball.specs.Whole.{ReadsFew};
ghost use Rattle.hyperball.specs.Subcommands.{IsSubcommand, ReadsAll};
ghost use Rattle.hyperball.specs.Words.{AsksProgress, FailsFor, HasFaults, texts_of};

use crate::cli::gather::gather_by;
use crate::cli::one_node::node_by;
use crate::cli::orders::OrdersError;
use crate::cli::replay::replay_by;
use crate::cli::run::run_by;
use crate::cli::{Host, Subcommand, WordsError, read_words};
use crate::fault::{Fault, tell_fault};
use crate::progress::{LendTeller, ProgressTeller};
use ball_model::{CountedRead, CountedWrite, put_all};
use clap::error::ErrorKind;
use std::alloc::{AllocGlobal, Global};
use std::fmt::Display;
use std::io::Write;
use std::random::RandomSource;
use std::sync::Wait;
use std::thread::Threads;
use std::time::Clock;

/// The status of a command that is done, or of help or the version that was asked for.
const DONE: u8 = 0;

/// The status of words that are refused.
const MISTAKE: u8 = 2;

// Writes help, or the version, that was asked for.
fn tell_help<D: Display, W: CountedWrite, F: Write>(
    alloc: Global,
    help: &D,
    writer: &mut W,
    faults: &mut F,
) -> u8
    ensures status { (result ≡ 0) ⊎ (result ≡ 1) }
    ensures told { result ≡ 0 →
        IfSome (D.output help.now) (Appends (W.contents writer.old) (W.contents writer.new)) }
    ensures some { result ≡ 0 → AppendsSome (W.contents writer.old) (W.contents writer.new) }
    ensures kept { result ≡ 1 →
        KeptOrFailed (writes_of W.contents W.failed_calls writer.old writer.new) }
    ensures silent { result ≡ 0 → Keeps (F.contents faults.old) (F.contents faults.new) }
{
    let Ok(text) = format!(in alloc; "{help}") else {
        return tell_fault(faults, "out of memory");
    };
    if text.is_empty() {
        return tell_fault(faults, "there is no help");
    }
    if put_all(writer, text.as_bytes()) {
        DONE
    } else {
        tell_fault(faults, "the output cannot be written")
    }
}

// The word that this text of `clap` says was not expected, unless it is an option.
fn stray_word(text: &str) -> Option<&str> {
    let Some(rest) = text.strip_prefix("error: unexpected argument '") else {
        return None;
    };
    match rest.split_once("' found") {
        Some((word, _)) if !word.starts_with('-') => Some(word),
        _ => None,
    }
}

// Reports to a user who named a file that the input comes on standard input, with the line to type.
fn tell_file<F: Write>(alloc: Global, words: &[String], error: &clap::Error, faults: &mut F) {
    let Ok(text) = format!(in alloc; "{error}") else {
        return;
    };
    if let Some(command) = words.get(1)
        && let Some(file) = stray_word(&text)
    {
        let _ = writeln!(
            faults,
            "hyperball: the input comes on standard input: hyperball {command} .. < {file}"
        );
    }
}

// Reports why `clap` reads no command: help and the version on the writer, and all else on `faults`.
fn tell_clap<W: CountedWrite, F: Write>(
    alloc: Global,
    words: &[String],
    error: &clap::Error,
    writer: &mut W,
    faults: &mut F,
) -> u8
    ensures status { EndsOfKind (kind_of error.now) result }
    ensures left { LeavesRefused result
        (writes_of W.contents W.failed_calls writer.old writer.new) }
    ensures unwritten { kind_of error.now ≢ ErrorKind.DisplayHelp →
        kind_of error.now ≢ ErrorKind.DisplayVersion →
        Unwritten (writes_of W.contents W.failed_calls writer.old writer.new) }
    ensures silent { result ≡ 0 → Keeps (F.contents faults.old) (F.contents faults.new) }
{
    match error.kind() {
        ErrorKind::OutOfMemory => tell_fault(faults, "out of memory"),
        ErrorKind::DisplayHelp | ErrorKind::DisplayVersion => {
            tell_help(alloc, error, writer, faults)
        }
        _ => {
            let _ = write!(faults, "{error}");
            tell_file(alloc, words, error, faults);
            MISTAKE
        }
    }
}

// Reports a mistake in a list of orders, or that memory was refused.
fn tell_orders<F: Write>(faults: &mut F, error: OrdersError) -> u8
    ensures ends { EndsOrders error result }
    ensures status { (result ≡ 1) ⊎ (result ≡ 2) }
{
    match error {
        OrdersError::Memory => tell_fault(faults, "out of memory"),
        OrdersError::Form => {
            let _ = writeln!(
                faults,
                "hyperball: an order is P.K@S, with commas between orders"
            );
            MISTAKE
        }
    }
}

// Reports why the words are those of no command.
fn tell_words<W: CountedWrite, F: Write>(
    alloc: Global,
    words: &[String],
    error: &WordsError,
    writer: &mut W,
    faults: &mut F,
) -> u8
    ensures refused { (kinds : List ErrorKind) → FailsFor kinds error.now →
        EndsRefused kinds result
        (writes_of W.contents W.failed_calls writer.old writer.new) }
    ensures accepted { FailsFor [] error.now → EndsAccepted error.now result }
    ensures unwritten { FailsFor [] error.now →
        Unwritten (writes_of W.contents W.failed_calls writer.old writer.new) }
    ensures left { LeavesRefused result
        (writes_of W.contents W.failed_calls writer.old writer.new) }
    ensures silent { result ≡ 0 → Keeps (F.contents faults.old) (F.contents faults.new) }
{
    match error {
        WordsError::Clap(error) => tell_clap(alloc, words, error, writer, faults),
        WordsError::Orders(error) => tell_orders(faults, *error),
    }
}

// Hands out a teller, if progress is asked for.
fn teller_for<F: LendTeller>(asked: bool, faults: &mut F) -> Option<F::Teller>
    ensures silent { asked ≡ false → result ≡ None }
    ensures lent { Awaits F.has_lent F.contents faults.new result (F.contents faults.old) }
{
    if asked { Some(faults.teller()) } else { None }
}

// Takes the teller back, if one was handed out.
fn end_telling<F: LendTeller>(teller: Option<F::Teller>, faults: &mut F)
    ensures silent { teller ≡ None → Keeps (F.contents faults.old) (F.contents faults.new) }
    ensures told { (before : Option (List ℕ)) →
        Awaits F.has_lent F.contents faults.old teller before →
        TellsProgress before (F.contents faults.new) }
{
    if let Some(teller) = teller {
        faults.end(teller);
    }
}

// Does what words ask for. Without random words nothing is read or written.
fn fulfil<
    H: AllocGlobal + Clock + RandomSource + Threads + Wait + Sync,
    T: ProgressTeller + Sync,
    R: CountedRead,
    W: CountedWrite,
>(
    host: &Host<'_, H, T>,
    subcommand: Subcommand,
    reader: &mut R,
    writer: &mut W,
) -> Result<(), Fault>
    ensures done { OnOk result (Does subcommand
        (reads_of R.remaining R.failed_calls R.sure_calls reader.old reader.new)
        (writes_of W.contents W.failed_calls writer.old writer.new)) }
    ensures fault { IfErr result (FailsBy subcommand
        (reads_of R.remaining R.failed_calls R.sure_calls reader.old reader.new)
        (writes_of W.contents W.failed_calls writer.old writer.new)) }
    ensures few { ReadsAll subcommand → ReadsFew (R.remaining reader.old) (R.remaining reader.new) }
{
    match subcommand {
        // (A run first makes its gate, and then looks for random words itself.)
        Subcommand::Run(args) => run_by(host, args, reader, writer),
        Subcommand::Replay(args) => {
            let state = host.random_state()?;
            replay_by(host, state, &args, reader, writer)
        }
        Subcommand::Node(args) => {
            let state = host.random_state()?;
            match node_by(host, state, &args, reader, writer) {
                Ok(()) => Ok(()),
                Err(error) => Err(Fault::Node(error)),
            }
        }
        Subcommand::Gather(args) => {
            let state = host.random_state()?;
            match gather_by(host, state, &args, reader, writer) {
                Ok(()) => Ok(()),
                Err(error) => Err(Fault::Gather(error)),
            }
        }
    }
}

/// Does what the words of a command line say, and returns the exit status.
///
/// 0: the report or the answers were written, or help or the version was asked for, and its text was written; on
/// `faults` there is nothing, or lines of progress alone if `--progress` asks for them. 1: a fault,
/// in one line on `faults`; nothing was written, with two exceptions: a beginning, if a write failed, or memory was
/// refused in a replay or for the report of checkpoints; and what a node answered before. 2: words that are refused, as
/// `clap` reports it there, or a list of orders that is not of its form; nothing was read or written.
///
/// The first word is the program's name. With `--counted`, and by a replay, the input is read whole, at most 67,108,865
/// bytes of it: the edge list, a line of exactly `%%`, the list of counted vertices if there is one, and for a replay a
/// line of `%%` after it and the script.
pub fn serve<
    H: AllocGlobal + Clock + RandomSource + Threads + Wait + Sync,
    R: CountedRead,
    W: CountedWrite,
    F: LendTeller,
>(rt: &H, words: &[String], reader: &mut R, writer: &mut W, faults: &mut F) -> u8
    ensures asked { (x : Subcommand) → IsSubcommand (texts_of words.now) x →
        Ends (texts_of words.now) x result
        (reads_of R.remaining R.failed_calls R.sure_calls reader.old reader.new)
        (writes_of W.contents W.failed_calls writer.old writer.new) }
    ensures refused { (kinds : List ErrorKind) → HasFaults (texts_of words.now) kinds →
        EndsRefused kinds result
        (writes_of W.contents W.failed_calls writer.old writer.new) }
    ensures unread { (kinds : List ErrorKind) → HasFaults (texts_of words.now) kinds → kinds ≢ [] →
        Unread (reads_of R.remaining R.failed_calls R.sure_calls reader.old reader.new) }
    ensures status { result ≤ 2 }
    ensures one { result ≡ 1 → LeavesFault (texts_of words.now)
        (reads_of R.remaining R.failed_calls R.sure_calls reader.old reader.new)
        (writes_of W.contents W.failed_calls writer.old writer.new) }
    ensures two { result ≡ 2 → EndsMistaken (texts_of words.now)
        (reads_of R.remaining R.failed_calls R.sure_calls reader.old reader.new)
        (writes_of W.contents W.failed_calls writer.old writer.new) }
    ensures told { result ≡ 0 → TellsAsAsked (AsksProgress (texts_of words.now) false)
        (F.contents faults.old) (F.contents faults.new) }
{
    let subcommand = match read_words(rt.alloc(), words) {
        Ok(subcommand) => subcommand,
        Err(error) => return tell_words(rt.alloc(), words, &error, writer, faults),
    };
    let teller = teller_for(subcommand.tells_progress(), faults);
    let host = Host {
        rt,
        teller: &teller,
    };
    let answer = fulfil(&host, subcommand, reader, writer);
    end_telling(teller, faults);
    match answer {
        Ok(()) => DONE,
        Err(fault) => tell_fault(faults, fault),
    }
}
