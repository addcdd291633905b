ghost use Rattle.std.specs.Prelude.{◌≡◌, ◌≤◌, length, IfOk, vec_capacity};

use crate::enter::enter;
use crate::fault::{CaseFault, Question};
use crate::line::Line;
use crate::stage::Stage;
use rules::fault::Fault;
use sheet::sheet::Sheet;
use std::alloc::{AllocError, Global};
use text::pieces::Lines;
use text::question::TextQuestion;

// Whether the lines of a case go on after this one. The library's `ControlFlow` would say it with two empty values.
#[derive(Clone, Copy, PartialEq, Eq, Debug)]
enum Flow {
    On,
    Stop,
}

// Reads a case onto a sheet. The memory for sheet and figures is reserved when it is made.
#[derive(Debug, Drop)]
pub struct Reader {
    stage: Stage,
    sheet: Sheet,
    figures: Vec<u32>,
    ghost room: { 60000 ≤ vec_capacity figures },
}

impl Reader {
    ghost use Rattle.sheet.specs.Sheets.{drawing};
    ghost use Rattle.text.specs.Pieces.{lines};
    ghost use Rattle.reader.specs.Case.{read_from, Said};
    ghost use Rattle.reader.specs.Steps.{Fresh, Reads, Steps};

    // A reader with an empty sheet, and the memory for all that it can read.
    pub fn new(heap: Global) -> Result<Reader, AllocError>
        ensures { IfOk result Fresh }
    {
        Ok(Reader {
            stage: Stage::Nodes,
            sheet: Sheet::new(heap)?,
            figures: Vec::with_capacity(heap, 60_000)?,
        })
    }

    // Takes one line: its word, its figures, and then what it enters. A refusal leaves the stage and the sheet.
    fn step(&mut self, line: Line) -> Result<Flow, Fault<Question>>
        ensures { Steps self.old self.new line.entry.bytes.now result }
    {
        let (word, stage) = line
            .turn(self.stage)
            .ok_or(Question::Text(TextQuestion::KnownWord))?;
        if stage == Stage::Past {
            return Ok(Flow::Stop);
        }
        line.figures(word, &mut self.figures)
            .map_err(|fault| fault.question_into::<Question>())?;
        let figures = self.figures.as_slice();
        enter(&mut self.sheet, word, figures).map_err(|fault| fault.question_into::<Question>())?;
        self.stage = stage;
        Ok(Flow::On)
    }

    // Takes the lines of a text in turn, to the first fault or the first line past the sheet.
    fn read_lines(&mut self, text: &[u8]) -> Result<(), CaseFault>
        requires { length text.now ≤ 60000 }
        ensures { Reads self.old self.new (lines text.now) result }
    {
        for (number, bytes) in (1..).zip(Lines::new(text)) {
            match self
                .step(Line { bytes })
                .map_err(|fault| CaseFault::at(number, fault))?
            {
                Flow::On => {}
                Flow::Stop => return Ok(()),
            }
        }
        Ok(())
    }

    // The sheet that the text draws, or the text's first fault.
    pub fn read(mut self, text: &[u8]) -> Result<Sheet, CaseFault>
        ensures { Said (read_from self.stage (drawing self.sheet) text.now) result }
    {
        if text.len() > 60_000 {
            return Err(CaseFault::at(0, Question::Text(TextQuestion::Length).into()));
        }
        self.read_lines(text)?;
        Ok(self.sheet)
    }
}
