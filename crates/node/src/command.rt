//! Commands of a node: a line of one word or two.

ghost use Rattle.std.specs.Prelude.{◌≡◌};
ghost use Rattle.ball_model.specs.Input.{fields};
ghost use Rattle.node.specs.NodeText.{body_length, command_in, lone_command, size_in};
ghost use Rattle.node.specs.NodeText.{sized_command};

use world::script::{cut, number_below, part};

/// Lengths are below it: they have at most 18 digits.
const MOST: u64 = 1_000_000_000_000_000_000;

/// What a node is to do. After the line of some commands bytes follow, as many as it says.
#[derive(Clone, Copy, Debug, PartialEq, Eq)]
pub(crate) enum Command {
    /// It sends another partition the batch of its superstep.
    Send { target: u16 },
    /// It takes the batch that the bytes spell.
    Deliver { length: u64 },
    /// It closes its superstep.
    Close,
    /// It gives its checkpoint.
    Keep,
    /// It goes back to the checkpoint that the bytes are, or to the start if there are none.
    Restart { length: u64 },
    /// It takes over what the checkpoint has that the bytes are.
    Recover { length: u64 },
    /// It writes what it has.
    Show,
    /// It writes the sums of its estimates.
    Totals,
    /// It writes the figures of its vertices.
    Figures,
}

/// How many bytes follow the line of a command.
pub(crate) fn length_of(command: Command) -> u64
    ensures { result ≡ body_length command }
{
    match command {
        Command::Deliver { length } | Command::Restart { length } | Command::Recover { length } =>
            length,
        Command::Send { .. }
        | Command::Close
        | Command::Keep
        | Command::Show
        | Command::Totals
        | Command::Figures => 0,
    }
}

/// The length that a word spells.
pub(crate) fn size(word: &[u8]) -> Option<u64>
    ensures { result ≡ size_in word.now }
{
    number_below(MOST, word)
}

// The command of one word.
fn lone_command(verb: &[u8]) -> Option<Command>
    ensures { result ≡ lone_command verb.now }
{
    if verb == b"close".as_slice() {
        Some(Command::Close)
    } else if verb == b"keep".as_slice() {
        Some(Command::Keep)
    } else if verb == b"show".as_slice() {
        Some(Command::Show)
    } else if verb == b"totals".as_slice() {
        Some(Command::Totals)
    } else if verb == b"figures".as_slice() {
        Some(Command::Figures)
    } else {
        None
    }
}

// The command of a word and a number.
fn sized_command(verb: &[u8], word: &[u8]) -> Option<Command>
    ensures { result ≡ sized_command verb.now word.now }
{
    if verb == b"send".as_slice() {
        let target = part(word)?;
        Some(Command::Send { target })
    } else if verb == b"deliver".as_slice() {
        let length = size(word)?;
        Some(Command::Deliver { length })
    } else if verb == b"restart".as_slice() {
        let length = size(word)?;
        Some(Command::Restart { length })
    } else if verb == b"recover".as_slice() {
        let length = size(word)?;
        Some(Command::Recover { length })
    } else {
        None
    }
}

/// The command that a line says. Between its words is one space.
pub(crate) fn command_of(line: &[u8]) -> Option<Command>
    ensures { result ≡ command_in (fields 32 line.now) }
{
    let Some((verb, word)) = cut(b' ', line) else {
        return lone_command(line);
    };
    match cut(b' ', word) {
        None => sized_command(verb, word),
        Some(_) => None,
    }
}
