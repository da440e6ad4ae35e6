//! Labels in one piece of memory, and sets of them.

ghost use Rattle.std.specs.Prelude.{◌≡◌, ◌+◌, ◌^◌, ◌<◌, length, map, slice_index_or, IfOk};
ghost use Rattle.std.specs.Prelude.{◌∷◌, ◌++◌, [], false, IfSome, IfNone, OnOk, OnErr, Some};
ghost use Rattle.std.specs.Prelude.{option_map};
ghost use Rattle.std.specs.List.{sum_by};
ghost use Rattle.graph.specs.Finding.{StandsAt};
ghost use Rattle.graph.specs.Labels.{has_label, texts, with_label};
ghost use Rattle.graph.specs.Lines.{GivesLines, labels_in, lines_after, shortened};
ghost use Rattle.graph.specs.Lists.{Ascend, lists_between};
ghost use Rattle.graph.specs.declared.labels.LinesError.TheVariants as refused;

use gapcode::Places;
use indexmap::IndexSet;
use std::alloc::{AllocError, Global};
use std::hash::RandomState;
use std::marker::Model;
use thiserror::Error;

// Ends the line of a label.
const LF: u8 = b'\n';

/// Why a text is refused as the labels of vertices.
#[derive(Clone, Copy, Debug, PartialEq, Eq, Error)]
pub enum LinesError {
    /// The lines are not as many as the vertices, one is empty, or the last has no LF.
    #[error("the labels are not as many as the vertices, or one is empty")]
    Lines,
    /// Memory was refused, and the text has all that is asked of it.
    #[error("out of memory")]
    Memory,
}

impl From<AllocError> for LinesError {
    ghost from_gives = { λ _ e. e ≡ refused.Memory };

    fn from(_error: AllocError) -> LinesError {
        LinesError::Memory
    }
}

/// Labels, one after another, and the place where each begins. It takes 4 bytes a label beside the labels' own, and one
/// for each LF if they are lines of a text.
#[derive(Drop)]
pub struct Labels {
    bytes: Vec<u8>,
    starts: Places,
    // How many bytes stand after each label that are not part of it.
    gap: usize,
}

impl Model for Labels {
    ghost use Rattle.std.specs.Prelude.{List, ℕ, length};
    ghost use Rattle.graph.specs.Lines.{shortened};
    ghost use Rattle.graph.specs.Lists.{Ascend, lists_between};

    ghost Value = { List (List ℕ) };

    ghost view = { λ l. shortened l.gap (lists_between l.bytes.items l.starts) };

    ghost invariant = { λ l. Ascend (length l.bytes.items) l.starts };
}

// The number of bytes of all texts.
fn total(texts: &[Vec<u8>]) -> usize
    ensures { sum_by (λ text. length text.items) texts.now < 2 ^ 64
        → result ≡ sum_by (λ text. length text.items) texts.now }
{
    let mut sum = 0usize;
    for text in texts {
        sum = sum.saturating_add(text.len());
    }
    sum
}

// Where the first text begins, and room for where `count` texts end.
fn first_start(alloc: Global, count: usize) -> Result<Places, AllocError>
    ensures { IfOk result (λ starts. starts ≡ 0 ∷ []) }
{
    Places::with_room(alloc, count.saturating_add(1))?.push(0)
}

// Appends a copy of a text, and the place where it ends.
fn put_text(bytes: &mut Vec<u8>, starts: Places, text: &[u8]) -> Result<Places, AllocError>
    requires { Ascend (length bytes.old.items) starts }
    ensures starts { IfOk result (λ more. Ascend (length bytes.new.items) more) }
    ensures texts { IfOk result (λ more. lists_between bytes.new.items more
        ≡ lists_between bytes.old.items starts ++ text.now ∷ []) }
{
    bytes.extend_from_slice(text)?;
    starts.push(bytes.len() as u128)
}

// Puts copies of texts one after another, and returns where each begins and the last ends.
fn put_texts(alloc: Global, bytes: &mut Vec<u8>, texts: &[Vec<u8>]) -> Result<Places, AllocError>
    requires { bytes.old.items ≡ [] }
    ensures starts { IfOk result (λ starts. Ascend (length bytes.new.items) starts) }
    ensures texts { IfOk result (λ starts.
        lists_between bytes.new.items starts ≡ map (λ text. text.items) texts.now) }
{
    let mut starts = first_start(alloc, texts.len())?;
    for text in texts {
        starts = put_text(bytes, starts, text)?;
    }
    Ok(starts)
}

// The number of lines of a text; `None` if one is empty, or the last has no LF.
fn count_lines(text: &[u8]) -> Option<usize>
    ensures { result ≡ option_map length (lines_after [] text.now) }
{
    let mut count = 0;
    let mut begin = 0;
    for i in 0..text.len() {
        if text[i] == LF {
            if i == begin {
                return None;
            }
            begin = i + 1;
            count += 1;
        }
    }
    if begin == text.len() {
        Some(count)
    } else {
        None
    }
}

// Where each of the lines of a text begins, and the last ends.
fn line_starts(alloc: Global, text: &[u8], count: u32) -> Result<Places, AllocError>
    requires { option_map length (lines_after [] text.now) ≡ Some count }
    ensures starts { IfOk result (λ starts. Ascend (length text.now) starts) }
    ensures lines { IfOk result (λ starts.
        lines_after [] text.now ≡ Some (shortened 1 (lists_between text.now starts))) }
{
    let mut starts = first_start(alloc, count as usize)?;
    for i in 0..text.len() {
        if text[i] == LF {
            starts = starts.push(i as u128 + 1)?;
        }
    }
    Ok(starts)
}

impl Labels {
    /// A copy of these texts, in their order.
    pub fn of(alloc: Global, texts: &[Vec<u8>]) -> Result<Labels, AllocError>
        ensures { IfOk result (λ labels. labels ≡ map (λ text. text.items) texts.now) }
    {
        let mut bytes = Vec::with_capacity(alloc, total(texts))?;
        let starts = put_texts(alloc, &mut bytes, texts)?;
        Ok(Labels {
            bytes,
            starts,
            gap: 0,
        })
    }

    /// The labels of `count` vertices, one a line: each line ends with LF, and none is empty. Labels may repeat. The
    /// text is taken over as it is. It is checked as a whole before memory is asked for, 4 bytes a label.
    pub fn of_lines(alloc: Global, text: Vec<u8>, count: u32) -> Result<Labels, LinesError>
        ensures value { GivesLines (labels_in count text.items) result }
        ensures count { IfOk result (λ labels. length labels ≡ count) }
    {
        let Some(found) = count_lines(&text) else {
            return Err(LinesError::Lines);
        };
        if found != count as usize {
            return Err(LinesError::Lines);
        }
        let starts = line_starts(alloc, &text, count)?;
        Ok(Labels {
            bytes: text,
            starts,
            gap: 1,
        })
    }

    pub(crate) fn len(&self) -> usize
        ensures { result ≡ length self.now }
    {
        self.starts.len() - 1
    }

    /// Label i, or an empty one if there is none.
    pub(crate) fn text(&self, i: u32) -> &[u8]
        ensures { result.now ≡ slice_index_or self.now i [] }
    {
        if (i as usize) < self.len() {
            self.label(i as usize)
        } else {
            &[]
        }
    }

    pub(crate) fn label(&self, i: usize) -> &[u8]
        requires { i < length self.now }
        ensures { result.now ≡ slice_index_or self.now i [] }
    {
        let text = text_at(&self.bytes, &self.starts, i);
        &text[..text.len().saturating_sub(self.gap)]
    }
}

// Text i: the bytes from its start up to the next.
fn text_at<'a>(bytes: &'a [u8], starts: &Places, i: usize) -> &'a [u8]
    requires starts { Ascend (length bytes.now) starts.now }
    requires below { i + 1 < length starts.now }
    ensures { result.now ≡ slice_index_or (lists_between bytes.now starts.now) i [] }
{
    prove!(i < starts.len());
    &bytes[starts.at(i) as usize..starts.at(i + 1) as usize]
}

/// The number of a label that is in the set: how many came before it.
pub fn find_label(labels: &IndexSet<Vec<u8>, RandomState>, label: &[u8]) -> Option<usize>
    ensures found { IfSome result (StandsAt (texts labels.now) label.now) }
    ensures none { IfNone result (has_label (texts labels.now) label.now ≡ false) }
{
    labels.get_index_of(label)
}

/// Puts a label into the set, at the end if it is new, and returns its number. The error is that memory was refused;
/// the set is then as it was.
pub fn insert_label(
    alloc: Global,
    labels: &mut IndexSet<Vec<u8>, RandomState>,
    label: &[u8],
) -> Result<usize, AllocError>
    ensures found { IfOk result (StandsAt (texts labels.new) label.now) }
    ensures labels { OnOk result (texts labels.new ≡ with_label (texts labels.old) label.now) }
    ensures kept { OnErr result (texts labels.new ≡ texts labels.old) }
{
    let (number, _) = labels.insert_full(Vec::from_slice(alloc, label)?)?;
    Ok(number)
}
