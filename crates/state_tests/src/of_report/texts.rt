//! Texts that are kept in pieces.

use super::*;
use ball_model::MemWriter;
use report::Pages;
use std::alloc::Global;

// Three pages, of which the second is empty.
static PAGES: [&[u8]; 3] = [b"one,", b"", b"two"];

// Writes the pages, each of which is taken whole.
fn write_pages(text: &mut Pages) -> bool {
    let mut whole = true;
    for page in &PAGES {
        whole &= matches!(text.write(page), Ok(count) if count == page.len());
    }
    whole && text.flush().is_ok()
}

// Whether a writer whose call `fails_at` fails takes just these bytes of a text, and all is done or not.
fn takes(alloc: Global, text: &Pages, fails_at: Option<u64>, wanted: &[u8], whole: bool) -> bool {
    let Ok(mut writer) = MemWriter::with_room(alloc, 7, fails_at) else {
        return false;
    };
    let done = text.write_to(&mut writer);
    let taken = writer.into_bytes();
    done == whole && taken.as_slice() == wanted
}

// Whether the pages are written, and taken whole, and up to the second call.
fn takes_pages(alloc: Global, text: &mut Pages) -> bool {
    write_pages(text)
        && takes(alloc, text, None, b"one,two", true)
        && takes(alloc, text, Some(2), b"one,", false)
}

// Whether a new text is written and taken.
fn a_text_is_taken(alloc: Global) -> bool {
    let mut text = Pages::new(alloc);
    takes_pages(alloc, &mut text)
}

#[test]
fn a_text_in_pages(rt: HostRuntime) {
    assert!(rt; a_text_is_taken(rt.alloc()));
}
