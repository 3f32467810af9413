// One line of the text, a byte at a time: numbers and a dash with blanks between them, and a comment. Assumes nothing.
ghost use Rattle.std.specs.Prelude.{◌≡◌, ◌<◌};
ghost use Rattle.bound_text.specs.Lines.{no_line, unclear, appended, opened, longer, with_digit, with_dash, with_byte};

use crate::{FIELDS, GREATEST, Line};

// The tenth of the greatest number: below it there is room for a digit more.
const TENTH: u32 = GREATEST / 10;

// A number with one digit more, or the greatest number that there is. Not by saturating_mul: `Lines.appended`, which the format promises, takes every
// number from the tenth on for the greatest.
fn appended(number: u32, digit: u32) -> u32
    requires { digit < 10 }
    ensures { result ≡ appended number digit }
{
    if number < TENTH {
        number * 10 + digit
    } else {
        GREATEST
    }
}

impl Line {
    pub(crate) fn fresh() -> Line
        ensures { result ≡ no_line }
    {
        Line {
            fields: 0,
            value: [0; FIELDS],
            inside: false,
            outermost: false,
            clear: true,
            comment: false,
        }
    }

    fn unclear(self) -> Line
        ensures { result ≡ unclear self }
    {
        Line {
            clear: false,
            ..self
        }
    }

    // The first digit of a field.
    #[tactic(auto, unfolding(crate::specs::Lines::opened))]
    fn opened(self, digit: u32) -> Line
        ensures { result ≡ opened self digit }
    {
        let fields = self.fields as usize;
        if FIELDS <= fields {
            return self.unclear();
        }
        let mut value = self.value;
        value[fields] = digit;
        Line {
            fields: self.fields + 1,
            value,
            inside: true,
            ..self
        }
    }

    // A further digit of the last field.
    #[tactic(auto, unfolding(crate::specs::Lines::longer))]
    fn longer(self, digit: u32) -> Line
        requires { digit < 10 }
        ensures { result ≡ longer self digit }
    {
        let fields = self.fields as usize;
        if fields == 0 || FIELDS < fields {
            return self.unclear();
        }
        let mut value = self.value;
        value[fields - 1] = appended(value[fields - 1], digit);
        Line { value, ..self }
    }

    #[tactic(auto, unfolding(crate::specs::Lines::with_digit))]
    fn with_digit(self, digit: u32) -> Line
        requires { digit < 10 }
        ensures { result ≡ with_digit self digit }
    {
        if self.outermost {
            return self.unclear();
        }
        if self.inside {
            self.longer(digit)
        } else {
            self.opened(digit)
        }
    }

    // A dash is a fourth field by itself.
    #[tactic(auto, unfolding(crate::specs::Lines::with_dash))]
    fn with_dash(self) -> Line
        ensures { result ≡ with_dash self }
    {
        if self.inside || self.fields != 3 {
            return self.unclear();
        }
        Line {
            fields: 4,
            outermost: true,
            ..self
        }
    }

    // The line with another byte, which does not end it.
    #[tactic(auto, unfolding(crate::specs::Lines::with_byte))]
    pub(crate) fn with_byte(self, byte: u8) -> Line
        ensures { result ≡ with_byte self byte }
    {
        if self.comment {
            return self;
        }
        match byte {
            b'#' => Line {
                comment: true,
                ..self
            },
            b'0'..=b'9' => self.with_digit(u32::from(byte - b'0')),
            b'-' => self.with_dash(),
            b' ' | b'\t' | b'\r' => Line {
                inside: false,
                ..self
            },
            _ => self.unclear(),
        }
    }
}
