//! One run of the program in memory.

use i_shape_test_data::row::Row;
use i_shape_tool::serve;
use std::alloc::AllocError;
use std::io::{Read, Write};
use std::test::Fail;

/// The status of a run with these words.
pub fn status_of<R: Read, W: Write, E: Write>(
    row: &Row<'_>,
    texts: &[&str],
    input: &mut R,
    output: &mut W,
    errors: &mut E,
) -> Result<u8, AllocError> {
    let mut words = Vec::new(row.alloc);
    for text in texts {
        words.push(String::from_str(row.alloc, *text)?)?;
    }
    Ok(serve(row.alloc, words.as_slice(), input, output, errors))
}

/// Checks what a run with these words and this input returns and writes. Words that name no command leave the input
/// unread; others read all of it.
pub fn serves(
    row: &Row<'_>,
    (words, input): (&[&str], &[u8]),
    (status, output, told): (u8, &str, &str),
) -> Result<(), Fail> {
    let mut rest = input;
    let mut printed = Vec::new(row.alloc);
    let mut errors = Vec::new(row.alloc);
    let ended = status_of(row, words, &mut rest, &mut printed, &mut errors)?;
    let unread = if status == 2 { input.len() } else { 0 };
    row.equal(ended, status, "the status")?;
    row.equal(rest.len(), unread, "the unread input")?;
    row.equal(printed.as_slice(), output.as_bytes(), "the output")?;
    row.equal(errors.as_slice(), told.as_bytes(), "the message")
}
