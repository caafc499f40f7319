use i_shape_tool::{Command, ToolFault, run, serve};
use std::alloc::{AllocError, Global};
use std::test::Fail;

/// The commands, each with a text, its answer, and the words behind its name.
const TEXTS: [(Command, [&str; 2], &str); 7] = [
    (
        Command::Simplify,
        ["0 0 2 0 4 0 4 4\n", "0 0 4 0 4 4\n"],
        "",
    ),
    (
        Command::Simplify,
        ["0 0 4 0 4 4\n", "0 0 4 0 4 4\n"],
        " of a clean line",
    ),
    (
        Command::Simplify,
        [
            "0 0 2 0 4 0 4 4\n0 0 2 0 4 0 4 4\n",
            "0 0 4 0 4 4\n0 0 4 0 4 4\n",
        ],
        " of two lines",
    ),
    (
        Command::Despike,
        ["0 0 4 0 8 0 4 0 4 4\n", "0 0 4 0 4 4\n"],
        "",
    ),
    (Command::Area, ["0 0 1 0 0 1\n", "1\n"], ""),
    (
        Command::Canonical,
        ["4 0 4 4 0 0 2 0\n", "0 0 4 0 4 4\n"],
        "",
    ),
    (Command::Compact, ["0 0 2 0 4 0 4 4\n", "0 0 4 0 4 4\n"], ""),
];

#[test]
fn runs(rt: HostRuntime) -> Result<(), Fail> {
    for (command, [text, wanted], kind) in &TEXTS {
        println!(rt; "run of {command:?}{kind} begins")?;
        match run(rt.alloc(), *command, *text) {
            Ok(answer) => {
                println!(rt; "run of {command:?}{kind} done")?;
                assert_eq!(rt; answer.as_str(), *wanted);
            }
            Err(fault) => {
                println!(rt; "run of {command:?}{kind} refused")?;
                assert!(rt; matches!(fault, ToolFault::OutOfMemory));
            }
        }
    }
    Ok(())
}

/// Room for what is written, so that no writer grows.
fn room(alloc: Global) -> Result<Vec<u8>, AllocError> {
    Vec::with_capacity(alloc, 64)
}

#[test]
fn served(rt: HostRuntime) -> Result<(), Fail> {
    let alloc = rt.alloc();
    let (Ok(word), Ok(mut output), Ok(mut errors)) = (
        String::from_str(alloc, "simplify"),
        room(alloc),
        room(alloc),
    ) else {
        return Ok(());
    };
    let mut input = b"0 0 2 0 4 0 4 4\n".as_slice();
    println!(rt; "serve begins")?;
    let status = serve(alloc, &[word], &mut input, &mut output, &mut errors);
    let is_read = input.is_empty();
    let (wanted, line, end) = match status {
        0 => ("0 0 4 0 4 4\n", "", "done"),
        3 => ("", "out of memory\n", "refused"),
        _ => ("", "input or output failed\n", "refused"),
    };
    println!(rt; "serve {end}")?;
    assert_eq!(rt; output.as_slice(), wanted.as_bytes());
    assert_eq!(rt; errors.as_slice(), line.as_bytes());
    // The growth fails while the input is read, or else in the command.
    assert!(rt;
        matches!((status, is_read), (0 | 3, true) | (4, false)),
        "{status}"
    );
    Ok(())
}
