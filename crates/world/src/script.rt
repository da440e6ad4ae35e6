//! Scripts: events as lines of words.

ghost use Rattle.std.specs.Prelude.{◌≡◌, ◌<◌, ◌≤◌, ◌^◌, ◌∷◌, [], Ok, IfOk, IfSome, IsOk, OnOk};
ghost use Rattle.std.specs.Prelude.{length, min, option_map};
ghost use Rattle.std.specs.Str.Lines.{lines, strip_carriage_return};
ghost use Rattle.ball_model.specs.Input.{fields, is_record};
ghost use Rattle.ball_model.specs.WorldText.{command_of, node_from, node_in, number_in, of_both};
ghost use Rattle.ball_model.specs.WorldText.{one_command, part_in, replica_in, script_of};
ghost use Rattle.ball_model.specs.WorldText.{two_command, value_from};
ghost use Rattle.ball_model.specs.declared.world.Event.TheVariants as event;
ghost use Rattle.world.specs.Script.{added, cut_of, fault_line, is_command_or_skipped};
ghost use Rattle.world.specs.Script.{number_below};

use ball_model::NodeId;
use ball_model::world::Event;
use itoa::Buffer;
use std::alloc::{AllocError, Global};

/// Numbers of scripts are below it: they have at most 9 digits.
const MOST: u64 = 1_000_000_000;

/// What is before the first such byte, and what follows it.
pub fn cut(byte: u8, text: &[u8]) -> Option<(&[u8], &[u8])>
    ensures { option_map (λ s. (s.0.now, s.1.now)) result ≡ cut_of byte text.now }
{
    for i in 0..text.len() {
        if text[i] == byte {
            return Some((&text[..i], &text[i + 1..]));
        }
    }
    None
}

// The value of digits, or the bound if it is not below that.
fn value_to(bound: u64, word: &[u8]) -> u64
    requires { bound ≤ 10 ^ 18 }
    ensures { result ≡ min (value_from 0 word.now) bound }
{
    let mut value = 0u64;
    for byte in word {
        value = (value * 10 + u64::from(byte.saturating_sub(b'0'))).min(bound);
    }
    value
}

/// The number that a word spells, without needless zeros, if it is below the bound, which is at most 10^18.
pub fn number_below(bound: u64, word: &[u8]) -> Option<u64>
    requires { bound ≤ 10 ^ 18 }
    ensures { result ≡ number_below bound word.now }
{
    let value = value_to(bound, word);
    if value < bound && word == Buffer::new().format(value).as_bytes() {
        Some(value)
    } else {
        None
    }
}

// The number that a word of a script spells.
fn number(word: &[u8]) -> Option<u64>
    ensures { result ≡ number_in word.now }
{
    number_below(MOST, word)
}

/// The number of a partition.
pub fn part(word: &[u8]) -> Option<u16>
    ensures { result ≡ part_in word.now }
{
    match number(word) {
        Some(part) => u16::try_from(part).ok(),
        None => None,
    }
}

// The number of a replica.
fn replica(word: &[u8]) -> Option<u8>
    ensures { result ≡ replica_in word.now }
{
    match number(word) {
        Some(replica) => u8::try_from(replica).ok(),
        None => None,
    }
}

// The node of the words before and after a point.
fn node_of(first: &[u8], second: &[u8]) -> Option<NodeId>
    ensures { result ≡ node_from (first.now ∷ second.now ∷ []) }
{
    let part = part(first)?;
    let replica = replica(second)?;
    Some(NodeId { part, replica })
}

// The node that a word names.
fn node(word: &[u8]) -> Option<NodeId>
    ensures { result ≡ node_in word.now }
{
    let (first, second) = cut(b'.', word)?;
    match cut(b'.', second) {
        None => node_of(first, second),
        Some(_) => None,
    }
}

// The event that a command of a node alone says.
fn one_command(verb: &[u8], word: &[u8]) -> Option<Event>
    ensures { result ≡ one_command verb.now (node_in word.now) }
{
    let node = node(word)?;
    if verb == b"close".as_slice() {
        Some(Event::Close { node })
    } else if verb == b"keep".as_slice() {
        Some(Event::Keep { node })
    } else if verb == b"restart".as_slice() {
        Some(Event::Restart { node })
    } else if verb == b"copy".as_slice() {
        Some(Event::Copy { node })
    } else if verb == b"show".as_slice() {
        Some(Event::Show { node })
    } else {
        None
    }
}

// A node sends a partition its batch.
fn send(first: &[u8], second: &[u8]) -> Option<Event>
    ensures { result ≡ of_both event.Send (node_in first.now) (part_in second.now) }
{
    let node = node(first)?;
    let target = part(second)?;
    Some(Event::Send { node, target })
}

// A message comes to a node.
fn deliver(first: &[u8], second: &[u8]) -> Option<Event>
    ensures { result ≡ of_both event.Deliver (number_in first.now) (node_in second.now) }
{
    let message = number(first)?;
    let node = node(second)?;
    Some(Event::Deliver { message, node })
}

// A node takes over what a copy has.
fn recover(first: &[u8], second: &[u8]) -> Option<Event>
    ensures { result ≡ of_both event.Recover (node_in first.now) (number_in second.now) }
{
    let node = node(first)?;
    let copy = number(second)?;
    Some(Event::Recover { node, copy })
}

// The event that a command of a node and a number says.
fn two_command(verb: &[u8], first: &[u8], second: &[u8]) -> Option<Event>
    ensures { result ≡ two_command verb.now first.now second.now }
{
    if verb == b"send".as_slice() {
        send(first, second)
    } else if verb == b"deliver".as_slice() {
        deliver(first, second)
    } else if verb == b"recover".as_slice() {
        recover(first, second)
    } else {
        None
    }
}

// The event that a line commands. Between its words is one space.
fn command(line: &[u8]) -> Option<Event>
    ensures { result ≡ command_of (fields 32 line.now) }
{
    let (verb, words) = cut(b' ', line)?;
    let Some((first, second)) = cut(b' ', words) else {
        return one_command(verb, words);
    };
    match cut(b' ', second) {
        None => two_command(verb, first, second),
        Some(_) => None,
    }
}

// A line without the CR of its end.
fn without_return(line: &[u8]) -> &[u8]
    ensures { result.now ≡ strip_carriage_return line.now }
{
    if !line.is_empty() && line[line.len() - 1] == b'\r' {
        &line[..line.len() - 1]
    } else {
        line
    }
}

// The first line of a text, without its end, and what follows it.
fn next_line(text: &[u8]) -> (&[u8], &[u8])
    requires { 0 < length text.now }
    ensures value { lines text.now ≡ result.0.now ∷ lines result.1.now }
    ensures shorter { length result.1.now < length text.now }
{
    match cut(b'\n', text) {
        Some((line, rest)) => (without_return(line), rest),
        None => (text, &text[text.len()..]),
    }
}

// Whether a line is neither empty nor a comment.
fn is_record(line: &[u8]) -> bool
    ensures { result ≡ is_record line.now }
{
    !line.is_empty() && line[0] != b'#'
}

// Whether a line is a command, or is skipped.
fn is_command_or_skipped(line: &[u8]) -> bool
    ensures { result ≡ is_command_or_skipped line.now }
{
    !is_record(line) || command(line).is_some()
}

/// The first line of a script that is no command, from 1 on. It takes no memory.
pub(crate) fn first_fault(script: &[u8]) -> Option<u64>
    ensures { result ≡ fault_line (script_of script.now) }
{
    let mut rest = script;
    let mut number = 1u64;
    while !rest.is_empty() {
        let (line, after) = next_line(rest);
        if !is_command_or_skipped(line) {
            return Some(number);
        }
        rest = after;
        number += 1;
    }
    None
}

// Adds the event of a line after the others, if it is a command.
fn add_line(events: &mut Vec<Event>, line: &[u8]) -> Result<(), AllocError>
    ensures { OnOk result (
        IfSome (added events.old.items line.now) (λ all. all ≡ events.new.items)) }
{
    if is_record(line)
        && let Some(event) = command(line)
    {
        events.push(event)?;
    }
    Ok(())
}

/// The events of a script each of whose lines is a command or is skipped. The only memory is theirs.
pub(crate) fn read_script(alloc: Global, script: &[u8]) -> Result<Vec<Event>, AllocError>
    ensures { IsOk (script_of script.now) →
        IfOk result (λ events. script_of script.now ≡ Ok events.items) }
{
    let mut events = Vec::new(alloc);
    let mut rest = script;
    while !rest.is_empty() {
        let (line, after) = next_line(rest);
        add_line(&mut events, line)?;
        rest = after;
    }
    Ok(events)
}
