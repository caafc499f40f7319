//! Streams that fail.

use crate::given::status_of;
use i_shape_test_data::row::Row;
use std::alloc::Global;
use std::io;
use std::io::{ErrorKind, Read, Write};
use std::test::Fail;

const FAILED: &str = "input or output failed\n";

/// Gives empty lines, and fails after so many with an error of this kind.
#[derive(Drop)]
struct BrokenReader {
    left: usize,
    kind: ErrorKind,
}

impl Read for BrokenReader {
    fn read(&mut self, buf: &mut [u8]) -> io::Result<usize> {
        if self.left == 0 || buf.is_empty() {
            return Err(io::Error::from(self.kind));
        }
        self.left -= 1;
        buf[0] = b'\n';
        Ok(1)
    }
}

/// Keeps some bytes, one at a time, each at a second try: the first is interrupted. Then it fails, or takes no byte. A
/// flush fails if no room is left.
#[derive(Drop)]
struct BrokenWriter {
    room: usize,
    kept: Vec<u8>,
    is_tried: bool,
    fails: bool,
}

impl BrokenWriter {
    fn new(alloc: Global, room: usize, fails: bool) -> BrokenWriter {
        BrokenWriter {
            room,
            kept: Vec::new(alloc),
            is_tried: false,
            fails,
        }
    }
}

impl Write for BrokenWriter {
    fn write(&mut self, buf: &[u8]) -> io::Result<usize> {
        self.is_tried = !self.is_tried;
        if self.is_tried {
            return Err(io::Error::from(ErrorKind::Interrupted));
        }
        if self.room == 0 && self.fails {
            return Err(io::Error::from(ErrorKind::BrokenPipe));
        }
        if self.room == 0 {
            return Ok(0);
        }
        let Some(first) = buf.first() else {
            return Ok(0);
        };
        self.kept.push(*first)?;
        self.room -= 1;
        Ok(1)
    }

    fn flush(&mut self) -> io::Result<()> {
        if self.room == 0 {
            return Err(io::Error::from(ErrorKind::BrokenPipe));
        }
        Ok(())
    }
}

#[test]
fn a_read_fails(rt: HostRuntime) -> Result<(), Fail> {
    let row = Row::new(rt.alloc(), "a read");
    for (left, kind) in [(0, ErrorKind::BrokenPipe), (2, ErrorKind::OutOfMemory)] {
        let mut input = BrokenReader { left, kind };
        let (mut output, mut errors) = (Vec::new(row.alloc), Vec::new(row.alloc));
        let ended = status_of(&row, &["area"], &mut input, &mut output, &mut errors)?;
        row.equal((ended, output.len()), (4, 0), "the status")?;
        row.equal(errors.as_slice(), FAILED.as_bytes(), "what is told")?;
    }
    Ok(())
}

/// A text, the room for its answer, whether the writer then fails, and what it keeps.
const WRITTEN: [(&str, usize, bool, &str); 6] = [
    ("\n", 0, true, ""),
    ("\n", 0, false, ""),
    ("\n", 4, true, "none"),
    ("\n", 4, false, "none"),
    ("\n", 5, true, "none\n"),
    ("", 0, true, ""),
];

/// The writer holds as much of the answer as it has room for, and nothing else.
#[test]
fn a_write_or_flush_fails(rt: HostRuntime) -> Result<(), Fail> {
    let row = Row::new(rt.alloc(), "a write");
    for (text, room, fails, kept) in &WRITTEN {
        let mut output = BrokenWriter::new(row.alloc, *room, *fails);
        let mut errors = Vec::new(row.alloc);
        let mut input = text.as_bytes();
        let ended = status_of(&row, &["simplify"], &mut input, &mut output, &mut errors)?;
        row.equal(ended, 4, "the status")?;
        row.equal(output.kept.as_slice(), kept.as_bytes(), "the output")?;
        row.equal(errors.as_slice(), FAILED.as_bytes(), "what is told")?;
    }
    Ok(())
}

/// With little room for messages, or none, a word ends with this status.
#[test]
fn a_line_that_standard_error_does_not_take_changes_no_status(rt: HostRuntime) -> Result<(), Fail> {
    let row = Row::new(rt.alloc(), "a complaint");
    for (word, room, status) in [("simplify", 0, 1), ("simplify", 3, 1), ("simplifies", 0, 2)] {
        let mut output = Vec::new(row.alloc);
        let mut errors = BrokenWriter::new(row.alloc, room, true);
        let mut input = b"x".as_slice();
        let ended = status_of(&row, &[word], &mut input, &mut output, &mut errors)?;
        row.equal((ended, output.len()), (status, 0), "the status")?;
    }
    Ok(())
}
