//! One run of the program: its arguments, its input, its two outputs and its exit status.

ghost use Rattle.std.specs.Prelude.{◌≡◌, ◌++◌, ◌∷◌, [], Some, IfOk, IfErr, OnOk, IfSome, IfNone};
ghost use Rattle.std.specs.Io.KnownBytes.{Appends, Keeps, IsAtEnd};
ghost use Rattle.i_shape_tool.specs.Text.{newline};
ghost use Rattle.i_shape_tool.specs.declared.program.Complaint.TheVariants.{Fault, Input, Usage};
ghost use Rattle.i_shape_tool.specs.Serve.{Asks, status_of, AppendsBeginning, IsServed, IsTrueComplaint, LeavesOutput, EndsWith, told};

use crate::command::Command;
use crate::fault::ToolFault;
use crate::text::run;
use std::alloc::Global;
use std::io::{ErrorKind, Read, Write};
use std::{fmt, io};

/// Why the program stops, as it reports on standard error.
#[derive(Clone, Copy, Debug, PartialEq, Eq)]
pub enum Complaint {
    /// The arguments aren't one word that names a command.
    Usage,
    /// The input isn't UTF-8.
    NotUtf8,
    /// The command has no answer to the input.
    Fault(ToolFault),
    /// The input couldn't be read, whatever the cause. The program reports this of its arguments too.
    Input,
    /// The answer couldn't be written, whatever the cause.
    Output,
}

impl Complaint {
    /// Returns the exit status for the complaint.
    pub fn status(self) -> u8
        ensures { result ≡ status_of self }
    {
        match self {
            Complaint::Fault(ToolFault::NotAContour(_) | ToolFault::OutOfRange(_)) => 1,
            Complaint::NotUtf8 => 1,
            Complaint::Usage => 2,
            Complaint::Fault(ToolFault::OutOfMemory) => 3,
            Complaint::Input | Complaint::Output => 4,
        }
    }

    /// Writes the complaint as a line of its own.
    pub fn tell<W: Write>(self, errors: &mut W) -> io::Result<()>
        ensures { OnOk result
            (Appends (W.contents errors.old) (W.contents errors.new) (told self ++ newline ∷ [])) }
    {
        writeln!(errors, "{self}")
    }
}

impl fmt::Display for Complaint {
    ghost output = { λ complaint. Some (told complaint) };

    fn fmt<W: fmt::Write>(&self, f: &mut fmt::Formatter<W>) -> fmt::Result {
        match self {
            Complaint::Usage => write!(
                f,
                "usage: i_shape_tool simplify|despike|area|canonical|compact"
            ),
            Complaint::NotUtf8 => write!(f, "input is not UTF-8"),
            Complaint::Fault(ToolFault::NotAContour(number)) => {
                write!(f, "line {number}: not a contour")
            }
            Complaint::Fault(ToolFault::OutOfRange(number)) => {
                write!(f, "line {number}: out of range")
            }
            Complaint::Fault(ToolFault::OutOfMemory) => write!(f, "out of memory"),
            Complaint::Input | Complaint::Output => write!(f, "input or output failed"),
        }
    }
}

impl From<ToolFault> for Complaint {
    ghost from_gives = { λ fault complaint. complaint ≡ Fault fault };

    fn from(fault: ToolFault) -> Complaint {
        Complaint::Fault(fault)
    }
}

/// Returns the command that the words after the program's name ask for.
fn asked(words: &[String]) -> Option<Command>
    ensures asks { IfSome result (Asks words.now) }
    ensures asks_nothing { IfNone result ((command : Command) → Asks words.now command → ⊥) }
{
    match words {
        [word] => Command::from_word(word.as_str()),
        _ => None,
    }
}

/// Returns all input that is left. The only complaint is `Input`, also if an allocation fails.
fn read_all<R: Read>(alloc: Global, input: &mut R) -> Result<Vec<u8>, Complaint>
    ensures ok { IfOk result (λ bytes. IfSome (R.remaining input.old) (λ xs. bytes.items ≡ xs)) }
    ensures end { OnOk result (IsAtEnd (R.remaining input.new)) }
    ensures err { IfErr result (λ complaint. complaint ≡ Input) }
{
    let mut bytes = Vec::new(alloc);
    input
        .read_to_end(&mut bytes)
        .map_err(|_error| Complaint::Input)?;
    Ok(bytes)
}

/// Reads all input, and writes the answer to it. After `Ok` it has written the answer and nothing else, after `Output`
/// a prefix of it, and after any other complaint nothing.
fn answer<R: Read, W: Write>(
    alloc: Global,
    words: &[String],
    input: &mut R,
    output: &mut W,
) -> Result<(), Complaint>
    ensures ok { OnOk result (IsServed words.now (R.remaining input.old)
        (W.contents output.old) (W.contents output.new)) }
    ensures err { IfErr result (IsTrueComplaint words.now (R.remaining input.old)) }
    ensures leaves { IfErr result (λ complaint. LeavesOutput words.now (R.remaining input.old)
        complaint (W.contents output.old) (W.contents output.new)) }
    ensures unread { IfErr result (λ complaint. complaint ≡ Usage
        → Keeps (R.remaining input.old) (R.remaining input.new)) }
    ensures end { OnOk result (IsAtEnd (R.remaining input.new)) }
    ensures end_err { IfErr result (λ complaint. (complaint ≡ Usage → ⊥) → (complaint ≡ Input → ⊥)
        → IsAtEnd (R.remaining input.new)) }
{
    let command = asked(words).ok_or(Complaint::Usage)?;
    let bytes = read_all(alloc, input)?;
    let Ok(text) = str::from_utf8(bytes.as_slice()) else {
        return Err(Complaint::NotUtf8);
    };
    let answer = run(alloc, command, text)?;
    write_whole(output, answer.as_bytes()).map_err(|_error| Complaint::Output)
}

/// Writes all bytes, and flushes. After an error it has written a prefix of the bytes.
fn write_whole<W: Write>(output: &mut W, bytes: &[u8]) -> io::Result<()>
    ensures whole { OnOk result (Appends (W.contents output.old) (W.contents output.new) bytes.now) }
    ensures begun { AppendsBeginning (W.contents output.old) (W.contents output.new) bytes.now }
{
    write_bytes(output, bytes)?;
    output.flush()
}

/// Writes all bytes. After an error it has written a prefix of them, which `write_all` doesn't promise.
fn write_bytes<W: Write>(output: &mut W, bytes: &[u8]) -> io::Result<()>
    ensures whole { OnOk result (Appends (W.contents output.old) (W.contents output.new) bytes.now) }
    ensures begun { AppendsBeginning (W.contents output.old) (W.contents output.new) bytes.now }
{
    let mut rest = bytes;
    for _ in 0..u64::MAX {
        if rest.is_empty() {
            return Ok(());
        }
        match output.write(rest) {
            Ok(0) => return Err(io::Error::from(ErrorKind::WriteZero)),
            Ok(count) => rest = &rest[count..],
            Err(error) if error.kind() == ErrorKind::Interrupted => {}
            Err(error) => return Err(error),
        }
    }
    // No output is interrupted, or takes a byte, so many times.
    Err(io::Error::from(ErrorKind::Interrupted))
}

/// Runs the program once, and returns its exit status. If `words`, the arguments after the program's name, are one
/// command, it reads all input and writes the answer to `output`. Otherwise it reads nothing. If it has no answer, or
/// can't write it, it writes a line to `errors`. If that fails, the line is lost, and the status is the same. If
/// `output` fails, it has gained a prefix of the answer.
#[tactic(auto, using(crate::proofs::Running::Serving::is_usage))]
pub fn serve<R: Read, W: Write, E: Write>(
    alloc: Global,
    words: &[String],
    input: &mut R,
    output: &mut W,
    errors: &mut E,
) -> u8
    ensures ends { EndsWith words.now (R.remaining input.old)
        (W.contents output.old) (W.contents output.new) result }
    ensures quiet { result ≡ 0 → Keeps (E.contents errors.old) (E.contents errors.new) }
    ensures unread { ((command : Command) → Asks words.now command → ⊥)
        → Keeps (R.remaining input.old) (R.remaining input.new) }
    ensures read { (result ≡ 2 → ⊥) → (result ≡ 4 → ⊥) → IsAtEnd (R.remaining input.new) }
{
    match answer(alloc, words, input, output) {
        Ok(()) => 0,
        Err(complaint) => {
            let _ = complaint.tell(errors);
            complaint.status()
        }
    }
}
