//! Laws of reading and showing contours, of answers to a text in parts, and of `==` and `clone`.

ghost use Rattle.std.specs.Prelude.{◌≡◌, ◌↔◌, ◌⊎◌, ◌++◌, ℕ, List, IsTrue};
ghost use Rattle.std.specs.List.{AllByRecursion};
ghost use Rattle.i_shape.specs.Point.{Point};
ghost use Rattle.i_shape_tool.specs.Run.{AnswersText, IsFirstFault};
ghost use Rattle.i_shape_tool.specs.PartedTexts.{EndsItsLines, PartedAnswer, IsFaultOfSecond};
ghost use Rattle.i_shape_tool.specs.Text.{FitPoint, Reads, shown};

use crate::command::Command;
use crate::fault::ToolFault;
use crate::program::Complaint;

/// A line reads as at most one contour.
pub fn one_reading()
    ensures { (line : List ℕ) (c d : List Point) → Reads line c → Reads line d → c ≡ d }
{}

/// The text of a contour whose coordinates fit `i32` reads as that contour.
#[tactic(auto, using(crate::proofs::Reading::Laws::shown_reads))]
pub fn shown_reads_back()
    ensures { (c : List Point) → AllByRecursion FitPoint c → Reads (shown c) c }
{}

/// An answer to a text that ends its lines, followed by an answer to a second text, is an answer to the two as one
/// text.
#[tactic(auto, using(crate::proofs::Running::TwoTexts::answers_concatenated))]
pub fn answers_concatenated()
    ensures { (command : Command) (text more output added : List ℕ)
        → EndsItsLines text → AnswersText command text output
        → AnswersText command more added → AnswersText command (text ++ more) (output ++ added) }
{}

/// An answer to the two as one text is an answer to the first, followed by one to the second.
#[tactic(auto, using(crate::proofs::Running::TwoTexts::answers_parted))]
pub fn answers_parted()
    ensures { (command : Command) (text more output : List ℕ)
        → EndsItsLines text → AnswersText command (text ++ more) output
        → PartedAnswer command text more output }
{}

/// The first fault of the two as one text is that of the first text. If no line of the first is faulty, it is that of
/// the second, with its line counted on from those of the first.
pub fn fault_concatenated()
    ensures first { (command : Command) (text more : List ℕ) (fault : ToolFault)
        → EndsItsLines text → IsFirstFault command text fault
        → IsFirstFault command (text ++ more) fault }
    ensures second { (command : Command) (text more : List ℕ) (fault : ToolFault)
        → EndsItsLines text → IsFaultOfSecond command text more fault
        → IsFirstFault command (text ++ more) fault }
    ensures one { (command : Command) (text more : List ℕ) (fault : ToolFault)
        → EndsItsLines text → IsFirstFault command (text ++ more) fault
        → IsFirstFault command text fault ⊎ IsFaultOfSecond command text more fault }
{}

/// `==` of two commands is true exactly if they are the same. A clone is the command itself, and cloning never fails.
pub fn commands_equal(_a: &Command, _b: &Command)
    ensures compared { IsTrue (⟦<Command as PartialEq>⟧.eq _a.now _b.now) ↔ (_a.now ≡ _b.now) }
    ensures cloned { ⟦<Command as Clone>⟧.is_clone _a.now _b.now → _b.now ≡ _a.now }
    ensures unrefused { ⟦<Command as Clone>⟧.is_infallible _a.now }
{}

/// The same for faults, with their lines.
pub fn faults_equal(_a: &ToolFault, _b: &ToolFault)
    ensures compared { IsTrue (⟦<ToolFault as PartialEq>⟧.eq _a.now _b.now) ↔ (_a.now ≡ _b.now) }
    ensures cloned { ⟦<ToolFault as Clone>⟧.is_clone _a.now _b.now → _b.now ≡ _a.now }
    ensures unrefused { ⟦<ToolFault as Clone>⟧.is_infallible _a.now }
{}

/// The same for complaints, with their faults.
pub fn complaints_equal(_a: &Complaint, _b: &Complaint)
    ensures compared { IsTrue (⟦<Complaint as PartialEq>⟧.eq _a.now _b.now) ↔ (_a.now ≡ _b.now) }
    ensures cloned { ⟦<Complaint as Clone>⟧.is_clone _a.now _b.now → _b.now ≡ _a.now }
    ensures unrefused { ⟦<Complaint as Clone>⟧.is_infallible _a.now }
{}
