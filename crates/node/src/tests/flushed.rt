//! Each answer is passed on before the next command is read.

use super::*;
use ball_model::CountingWriter;
use std::io::{self, Write};

// Counts how often something that was written is passed on.
#[derive(Drop)]
struct Holding {
    waits: bool,
    passed: u32,
}

impl Write for Holding {
    fn write(&mut self, buf: &[u8]) -> io::Result<usize> {
        self.waits = true;
        Ok(buf.len())
    }

    fn flush(&mut self) -> io::Result<()> {
        if self.waits {
            self.passed = self.passed.saturating_add(1);
        }
        self.waits = false;
        Ok(())
    }
}

// How often a node of two that answers all commands passes something on, and whether something waits at the end.
fn passed_on(rt: &HostRuntime, input: &[u8]) -> Option<(u32, bool)> {
    let mut writer = CountingWriter::new(Holding {
        waits: false,
        passed: 0,
    });
    let end = end_of(rt, &job(2), input, &Unwatched, &mut writer);
    let held = writer.into_inner();
    match end {
        Some(Ok(())) => Some((held.passed, held.waits)),
        _ => None,
    }
}

/// Six commands with an answer each, of one line or of many bytes.
#[test]
fn each_answer_is_passed_on(rt: HostRuntime) {
    let input = b"a\tb\nb\tc\n%%\nsend 1\nclose\nkeep\nshow\ntotals\nfigures\n";
    assert!(rt; passed_on(&rt, input) == Some((6, false)));
}
