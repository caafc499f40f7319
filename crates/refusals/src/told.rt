//! How a call under test ended.

use i_shape::ShapeError;
use std::process::Abort;

/// Prints that a call begins. `ended` prints how it ends.
pub fn begun(rt: &(impl Abort + Print), name: &str) {
    println!(rt; "{name} begins").expect(rt, name);
}

/// Prints how a call ended. The test stops at an error other than `OutOfMemory`, and at one that changed the call's
/// argument.
pub fn ended<T>(
    rt: &(impl Abort + Print),
    name: &str,
    outcome: &Result<T, ShapeError>,
    is_unchanged: bool,
) {
    let end = match outcome {
        Ok(_) => "done",
        Err(error) => {
            assert!(rt; matches!(error, ShapeError::OutOfMemory), "{name}");
            assert!(rt; is_unchanged, "{name}: a refusal changed what was given");
            "refused"
        }
    };
    println!(rt; "{name} {end}").expect(rt, name);
}

/// Prints that a call has returned which can do without memory.
pub fn answered(rt: &(impl Abort + Print), name: &str) {
    println!(rt; "{name} answered").expect(rt, name);
}

/// Compares two calls of a value that keeps something from one call to the next. A run makes one growth fail, so at most
/// one of them fails. If neither fails, both return and leave the same.
pub fn compared<T: PartialEq + Drop>(
    rt: &impl Abort,
    name: &str,
    outcomes: (Result<T, ShapeError>, Result<T, ShapeError>),
    leave_the_same: bool,
) {
    let (first, second) = outcomes;
    let is_same = match (&first, &second) {
        (Ok(answer), Ok(again)) => answer == again && leave_the_same,
        (first, second) => first.is_ok() || second.is_ok(),
    };
    assert!(rt; is_same, "{name}: a second call differs");
}

/// A call, by its name.
macro_rules! call {
    ($rt:ident, $name:expr => $outcome:expr) => {{
        begun(&$rt, $name);
        let outcome = $outcome;
        ended(&$rt, $name, &outcome, true);
    }};
}

/// A call of a value that keeps something from one call to the next. It is made a second time, and both results are
/// compared.
macro_rules! call_twice {
    ($rt:ident, $name:expr => $outcome:expr) => {{
        begun(&$rt, $name);
        let first = $outcome;
        ended(&$rt, $name, &first, true);
        compared(&$rt, $name, (first, $outcome), true);
    }};
}

/// A call that may change its argument. If it fails, the argument is unchanged, or equals `refused`. If setup runs out
/// of memory, the test ends.
macro_rules! on {
    ($rt:ident, $given:expr, $name:expr, $value:ident => $outcome:expr) => {
        on!($rt, $given, $name, $value => $outcome, refused => $given)
    };
    ($rt:ident, $given:expr, $name:expr, $value:ident => $outcome:expr, refused => $refused:expr) => {{
        let (Ok(mut $value), Ok(unchanged)) = ($given, $refused) else {
            return;
        };
        begun(&$rt, $name);
        let outcome = $outcome;
        ended(&$rt, $name, &outcome, $value == unchanged);
    }};
}

/// A call that can do without memory, by its name. It is made a second time, with memory, and returns the same.
macro_rules! spared {
    ($rt:ident, $name:expr => $answer:expr) => {{
        begun(&$rt, $name);
        let answer = $answer;
        answered(&$rt, $name);
        let again = $answer;
        assert!($rt; answer == again, "a second call differs");
    }};
}

pub(crate) use call;
pub(crate) use call_twice;
pub(crate) use on;
pub(crate) use spared;
