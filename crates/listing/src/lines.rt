// The lines of the listing for events and for the stop. Each method is given room for the longest text that it can write.
ghost use Rattle.model.specs.Refusals.{refusal_no};
ghost use Rattle.listing.specs.Text.{answer_most, short_line_most, event_line_most};
ghost use Rattle.listing.specs.Listing.{answer_text, event_line, stop_line};
ghost use Rattle.listing.specs.Writer.{HasRoom, Writes};

use crate::Stop;
use crate::writer::Writer;
use model::Answer;

impl Writer<'_> {
    // Rule 14.3.
    #[tactic(auto, unfolding(crate::specs::Listing::stop_line, lent_bytes::specs::Text::bytes))]
    pub(crate) fn put_stop(&mut self, stop: Stop)
        requires { HasRoom self.old short_line_most }
        ensures { Writes short_line_most self.old (stop_line stop.at (refusal_no stop.refusal)) self.new }
    {
        self.put_line(b"stop", stop.at, u16::from(stop.refusal) as usize);
    }

    // An answer's word and number, and what follows. An arm for each word, as in `put_phase`: a word that comes by a pointer is copied by `memmove`, which the
    // static library asks for nowhere else.
    #[tactic(auto, unfolding(crate::specs::Text::spelled, lent_bytes::specs::Text::bytes))]
    fn put_answer(&mut self, answer: Answer)
        requires { HasRoom self.old answer_most }
        ensures { Writes answer_most self.old (answer_text answer) self.new }
    {
        match answer {
            Answer::Ok(n) => self.put_named(b"ok", n as usize),
            Answer::Executes(t) => self.put_named(b"executes", t.0 as usize),
            Answer::Spins(t) => self.put_named(b"spins", t.0 as usize),
            Answer::Granted(r) => self.put_named(b"granted", r as usize),
            Answer::Waits(t) => self.put_named(b"waits", t.0 as usize),
            Answer::Passed(t) => self.put_named(b"passed", t.0 as usize),
            Answer::Freed(r) => self.put_named(b"freed", r as usize),
            Answer::Refused(n) => self.put_named(b"refused", n as usize),
            Answer::RefusedWaiting(r) => {
                self.put_named(b"refused", 62);
                self.put_field(r as usize);
            }
        }
    }

    // Rule 14.1.
    pub(crate) fn put_event(&mut self, number: usize, answer: Answer)
        requires { HasRoom self.old event_line_most }
        ensures { Writes event_line_most self.old (event_line number answer) self.new }
    {
        self.put_number(number);
        self.put_text(b" ");
        self.put_answer(answer);
        self.put_text(b"\n");
    }
}
