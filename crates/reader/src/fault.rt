ghost use Rattle.std.specs.Prelude.{◌≡◌, Some, IfOk, string_bytes};
ghost use Rattle.reader.specs.Case.{at_line};
ghost use Rattle.reader.specs.Faults.{layer_of, number_of};
ghost use Rattle.reader.specs.Report.{fault_text, fault_line};

use rules::fault::{Fault, Layer};
use sheet::question::SheetQuestion;
use std::alloc::{AllocError, Global};
use std::fmt;
use text::question::TextQuestion;

// What is asked of a case.
#[derive(Clone, Copy, PartialEq, Eq, Debug)]
pub enum Question {
    Text(TextQuestion),
    Sheet(SheetQuestion),
}

// The first question whose answer is no, with its line, 0 where it is asked of the whole text, and its place.
#[derive(Clone, Copy, PartialEq, Eq, Debug)]
pub struct CaseFault {
    pub question: Question,
    pub line: usize,
    pub place: usize,
}

// A question of the text, among all that are asked of a case.
impl From<TextQuestion> for Question {
    ghost use Rattle.reader.specs.declared.fault.Question.TheVariants.{Text};

    ghost from_gives = { λ asked question. question ≡ Text asked };

    fn from(asked: TextQuestion) -> Question {
        Question::Text(asked)
    }
}

// A question of the sheet, among all that are asked of a case.
impl From<SheetQuestion> for Question {
    ghost use Rattle.reader.specs.declared.fault.Question.TheVariants.{Sheet};

    ghost from_gives = { λ asked question. question ≡ Sheet asked };

    fn from(asked: SheetQuestion) -> Question {
        Question::Sheet(asked)
    }
}

impl Question {
    pub fn layer(self) -> Layer
        ensures { result ≡ layer_of self }
    {
        match self {
            Question::Text(_) => Layer::Text,
            Question::Sheet(_) => Layer::Sheet,
        }
    }

    pub fn number(self) -> u32
        ensures { result ≡ number_of self }
    {
        match self {
            Question::Text(question) => question.number(),
            Question::Sheet(question) => question.number(),
        }
    }
}

impl CaseFault {
    // A fault of the line of this number.
    pub(crate) fn at(line: usize, fault: Fault<Question>) -> CaseFault
        ensures { result ≡ at_line line fault }
    {
        CaseFault {
            question: fault.question,
            line,
            place: fault.place,
        }
    }

    // The one line that a fault prints.
    pub fn report(self, heap: Global) -> Result<String, AllocError>
        ensures { IfOk result (λ s. string_bytes s ≡ fault_line self) }
    {
        format!(in heap; "{self}\n")
    }
}

// A fault as its line prints it, without the newline.
impl fmt::Display for CaseFault {
    ghost output = { λ fault. Some (fault_text fault) };

    fn fmt<W: fmt::Write>(&self, f: &mut fmt::Formatter<W>) -> fmt::Result {
        let layer = self.question.layer();
        let number = self.question.number();
        let (line, place) = (self.line, self.place);
        write!(f, "fault {layer} {number} {line} {place}")
    }
}
