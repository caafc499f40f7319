//! The commands of the program.

ghost use Rattle.std.specs.Prelude.{◌≡◌, ◌↔◌, IsTrue, IfSome, IfNone};

/// What to do with the contours of a text.
#[derive(Clone, Copy, Debug, PartialEq, Eq)]
pub enum Command {
    /// Remove the zero turns of each contour.
    Simplify,
    /// Remove the spikes and repeated points of each contour.
    Despike,
    /// Print twice the area of each contour.
    Area,
    /// Remove the zero turns of each contour, and rotate it to its least rotation.
    Canonical,
    /// Remove the zero turns of all contours, and the contours that collapse.
    Compact,
}

impl Command {
    ghost use Rattle.i_shape_tool.specs.Command.{word_of, IsCleaner};

    /// Returns the command that a word of the command line names.
    pub fn from_word(word: &str) -> Option<Command>
        ensures named { IfSome result (λ command. word.now ≡ word_of command) }
        ensures unnamed { IfNone result ((command : Command) → word.now ≡ word_of command → ⊥) }
    {
        match word {
            "simplify" => Some(Command::Simplify),
            "despike" => Some(Command::Despike),
            "area" => Some(Command::Area),
            "canonical" => Some(Command::Canonical),
            "compact" => Some(Command::Compact),
            _ => None,
        }
    }

    /// Returns whether the command cleans, and so requires safe points.
    pub(crate) fn is_cleaner(self) -> bool
        ensures { IsTrue result ↔ IsCleaner self }
    {
        match self {
            Command::Area => false,
            Command::Simplify | Command::Despike | Command::Canonical | Command::Compact => true,
        }
    }
}
