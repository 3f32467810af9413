// A table's text, and a number's. Assumes nothing.
ghost use Rattle.std.specs.Prelude.{◌≡◌};
ghost use Rattle.bound_text.specs.Readings.{no_reading, short, parent_said, section_said, lost, advanced, with_tasks, with_section, ended, taken, read_from, number_from};

use crate::{GREATEST_SHORT, Line, Reading, State};
use bound::{NO_SECTION, SECTIONS, Section};
use model::TaskNo;

// A number as the table holds it, or the greatest that it can hold.
fn short(number: u32) -> u16
    ensures { result ≡ short number }
{
    u16::try_from(number).unwrap_or(GREATEST_SHORT)
}

impl Line {
    fn parent(self) -> Option<u16>
        ensures { result ≡ parent_said self }
    {
        if self.outermost {
            return None;
        }
        Some(short(self.value[3]))
    }

    fn section(self) -> Section
        ensures { result ≡ section_said self }
    {
        Section {
            task: TaskNo(short(self.value[0])),
            resource: short(self.value[1]),
            length: self.value[2],
            parent: self.parent(),
        }
    }
}

impl Reading {
    fn nothing() -> Reading
        ensures { result ≡ no_reading }
    {
        Reading {
            tasks: 0,
            first: None,
            clear: true,
            count: 0,
            section: [NO_SECTION; SECTIONS],
            lines: [0; SECTIONS],
            surplus: None,
            line: 1,
        }
    }

    // The line is not understood: its number stays.
    fn lost(self) -> Reading
        ensures { result ≡ lost self }
    {
        Reading {
            clear: false,
            ..self
        }
    }

    // The number of the next line, unless this one is not understood.
    #[tactic(auto, unfolding(crate::specs::Readings::advanced))]
    fn advanced(self) -> Reading
        ensures { result ≡ advanced self }
    {
        if !self.clear {
            return self;
        }
        Reading {
            line: self.line.saturating_add(1),
            ..self
        }
    }

    #[tactic(auto, unfolding(crate::specs::Readings::with_tasks))]
    fn with_tasks(self, line: Line) -> Reading
        ensures { result ≡ with_tasks self line }
    {
        if line.fields != 1 {
            return self.lost();
        }
        Reading {
            tasks: short(line.value[0]),
            first: Some(self.line),
            ..self
        }
    }

    // Another section. The thirteenth is counted and not kept, and those after it change nothing.
    #[tactic(auto, unfolding(crate::specs::Readings::with_section))]
    fn with_section(self, line: Line) -> Reading
        ensures { result ≡ with_section self line }
    {
        if line.fields != 4 {
            return self.lost();
        }
        let count = self.count as usize;
        if SECTIONS < count {
            return self;
        }
        if count == SECTIONS {
            return Reading {
                count: self.count + 1,
                surplus: Some(self.line),
                ..self
            };
        }
        let mut section = self.section;
        section[count] = line.section();
        let mut lines = self.lines;
        lines[count] = self.line;
        Reading {
            count: self.count + 1,
            section,
            lines,
            ..self
        }
    }

    // A line has ended: a blank one, the number of tasks, or the four fields of a section.
    #[tactic(auto, unfolding(crate::specs::Readings::ended))]
    fn ended(self, line: Line) -> Reading
        ensures { result ≡ ended self line }
    {
        if !self.clear {
            return self;
        }
        if !line.clear {
            return self.lost();
        }
        if line.fields == 0 {
            return self;
        }
        match self.first {
            None => self.with_tasks(line),
            Some(_) => self.with_section(line),
        }
    }
}

impl State {
    #[tactic(auto, unfolding(crate::specs::Readings::taken))]
    fn taken(self, byte: u8) -> State
        ensures { result ≡ taken byte self }
    {
        if byte == b'\n' {
            return State {
                reading: self.reading.ended(self.line).advanced(),
                line: Line::fresh(),
            };
        }
        State {
            line: self.line.with_byte(byte),
            ..self
        }
    }
}

// What a table's text is read as.
pub fn read(text: &[u8]) -> Reading
    ensures { result ≡ read_from text.now }
{
    let mut state = State {
        reading: Reading::nothing(),
        line: Line::fresh(),
    };
    for byte in text {
        state = state.taken(*byte);
    }
    state.reading.ended(state.line)
}

// A number by itself. Any other text is none.
pub fn number(text: &[u8]) -> Option<u32>
    ensures { result ≡ number_from text.now }
{
    let mut line = Line::fresh();
    for byte in text {
        line = line.with_byte(*byte);
    }
    if line.clear && line.fields == 1 {
        Some(line.value[0])
    } else {
        None
    }
}
