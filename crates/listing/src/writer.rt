// Writing a text into a lent buffer, part after part. Each method is given room for the longest text that it can write. It is not `fmt::Write`: what
// `write!` ensures is said of an `Ok` alone, and no clause rules out its `Err`, but `replay` may not fail (its clause `value`).
ghost use Rattle.std.specs.Prelude.{◌≡◌, ◌++◌, ◌+◌, ◌≤◌, length};
ghost use Rattle.lent_bytes.specs.Text.{digits_most, decimal};
ghost use Rattle.listing.specs.Text.{field, newline, field_most, pair_most};
ghost use Rattle.listing.specs.Writer.{HasRoom, Writes};

use lent_bytes::text::{put_number, put_text};

// The buffer lent for a text, and the offset at which what is written so far ends.
#[derive(Drop)]
pub(crate) struct Writer<'a> {
    pub(crate) out: &'a mut [u8],
    pub(crate) end: usize,
}

impl Writer<'_> {
    pub(crate) fn put_text(&mut self, text: &[u8])
        requires { HasRoom self.old (length text.now) }
        ensures { Writes (length text.now) self.old text.now self.new }
    {
        self.end = put_text(self.out, self.end, text);
    }

    pub(crate) fn put_number(&mut self, n: usize)
        requires { HasRoom self.old digits_most }
        ensures { Writes digits_most self.old (decimal n) self.new }
    {
        self.end = put_number(self.out, self.end, n);
    }

    // A number after a space.
    pub(crate) fn put_field(&mut self, n: usize)
        requires { HasRoom self.old field_most }
        ensures { Writes field_most self.old (field n) self.new }
    {
        self.put_text(b" ");
        self.put_number(n);
    }

    // A word and a number after it.
    pub(crate) fn put_named(&mut self, word: &[u8], n: usize)
        requires { HasRoom self.old (length word.now + field_most) }
        ensures { Writes (length word.now + field_most) self.old (word.now ++ field n) self.new }
    {
        self.put_text(word);
        self.put_field(n);
    }

    // A line of a word and two numbers.
    pub(crate) fn put_line(&mut self, word: &[u8], m: usize, n: usize)
        requires { HasRoom self.old (length word.now + (pair_most + 1)) }
        ensures { Writes (length word.now + (pair_most + 1)) self.old (word.now ++ field m ++ field n ++ newline) self.new }
    {
        self.put_named(word, m);
        self.put_field(n);
        self.put_text(b"\n");
    }
}
