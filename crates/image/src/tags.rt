// Enums as the number of their variant and the number that the variant holds, both ways: a task's mode, and an Option of a number. `Tagged::read` is given
// an offset at which the two lie whole in the slice.
ghost use Rattle.std.specs.Prelude.{◌≡◌, ◌+◌, ◌≤◌, length};
ghost use Rattle.image.specs.Encoded.{phase_tag, mode_tagged, number_tagged};
ghost use Rattle.image.specs.Decoded.{phase_of, mode_of, number_of, tagged_in, tag_fits};

use crate::Tagged;
use lent_bytes::numbers::two_bytes;
use model::{Mode, Phase};

impl From<Mode> for Tagged {
    ghost from_gives = { λ mode tagged. tagged ≡ mode_tagged mode };

    fn from(mode: Mode) -> Tagged {
        match mode {
            Mode::Suspended => Tagged { tag: 0, number: 0 },
            Mode::Ready => Tagged { tag: 1, number: 0 },
            Mode::Waiting(number) => Tagged { tag: 2, number },
        }
    }
}

impl From<Tagged> for Mode {
    ghost from_gives = { λ tagged mode. mode ≡ mode_of tagged };

    fn from(tagged: Tagged) -> Mode {
        match tagged.tag {
            0 => Mode::Suspended,
            1 => Mode::Ready,
            _ => Mode::Waiting(tagged.number),
        }
    }
}

impl From<Option<u16>> for Tagged {
    ghost from_gives = { λ held tagged. tagged ≡ number_tagged held };

    fn from(held: Option<u16>) -> Tagged {
        match held {
            None => Tagged { tag: 0, number: 0 },
            Some(number) => Tagged { tag: 1, number },
        }
    }
}

impl From<Tagged> for Option<u16> {
    ghost from_gives = { λ tagged held. held ≡ number_of tagged };

    fn from(tagged: Tagged) -> Option<u16> {
        (tagged.tag != 0).then_some(tagged.number)
    }
}

impl Tagged {
    pub(crate) fn read(bytes: &[u8], at: usize) -> Tagged
        requires { at + 3 ≤ length bytes.now }
        ensures { result ≡ tagged_in bytes.now at }
    {
        Tagged {
            tag: bytes[at],
            number: two_bytes(bytes, at + 1),
        }
    }

    // Whether the variant is the last, or an earlier one and the number 0. With `&&` in place of the second `if`, reading and writing a state takes 3 to
    // 6 % more instructions.
    pub(crate) fn fits(self, last: u8) -> bool
        ensures { result ≡ tag_fits last self }
    {
        if self.tag == last {
            return true;
        }
        if self.tag < last {
            self.number == 0
        } else {
            false
        }
    }
}

// Both ways are functions and no `From`: the phase and the number are both of other crates.
pub fn phase_tag(phase: Phase) -> u8
    ensures { result ≡ phase_tag phase }
{
    phase as u8
}

pub(crate) fn phase_of(tag: u8) -> Phase
    ensures { result ≡ phase_of tag }
{
    match tag {
        0 => Phase::Idle,
        1 => Phase::Active,
        2 => Phase::Running,
        _ => Phase::Recharging,
    }
}
