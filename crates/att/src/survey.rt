// The first pass over a text: its faulty line, or its states and how many arcs it has.
ghost use Rattle.att.specs.Text.{read_text};
ghost use Rattle.att.specs.Survey.{Surveyed};

use crate::reading::Lines;
use crate::states::Known;
use book::replies::Refusal;

#[derive(Clone, Copy)]
pub struct Survey {
    // How many arcs the text has; each takes bytes of it, so they can be counted.
    pub arcs: usize,
    // None where the states are more than there may be.
    pub known: Option<Known>,
}

impl Survey {
    pub fn of(text: &[u8]) -> Result<Survey, Refusal>
        ensures { Surveyed (read_text text.now) result }
    {
        let mut lines = Lines::new(text);
        let mut arcs = 0;
        let mut known = Some(Known::new());
        // Document 02's form, a struct of text and place that yields a line at a time: nothing is counted
        while let Some(line) = lines.advance()? {
            arcs += line.arcs();
            known.take_if(|known| !known.add_line(line));
        }
        Ok(Survey { arcs, known })
    }
}
