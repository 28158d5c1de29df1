//! The character in a RUNLVL request: a runlevel, a letter, or the request to read inittab again or to re-execute init.

ghost use Rattle.std.specs.Prelude.{◌≡◌, true};
ghost use Rattle.initctl_frame.specs.Signs.{is_sign, sign_read};

use std::marker::Model;

/// A character of telinit(8), one of `0-9 S s A B C a b c Q q U u`, as it was typed.
#[derive(Clone, Copy, PartialEq, Eq)]
pub struct Sign {
    code: u8,
}

impl Model for Sign {
    ghost use Rattle.std.specs.Prelude.{◌≡◌, ℕ, true};

    ghost Value = { ℕ };

    ghost use Rattle.initctl_frame.specs.Signs.{is_sign};

    ghost view = { λ sign. sign.code };

    ghost invariant = { λ sign. is_sign sign.code ≡ true };

    ghost inverse = { λ code. record { code = code } };
}

impl Sign {
    /// Returns the sign of a byte, or `None` if it is not one of these characters.
    pub fn read(code: u8) -> Option<Sign>
        ensures { result ≡ sign_read code }
    {
        match code {
            b'0'..=b'9' | b'S' | b's' => Some(Sign { code }),
            b'A'..=b'C' | b'a'..=b'c' => Some(Sign { code }),
            b'Q' | b'q' | b'U' | b'u' => Some(Sign { code }),
            _ => None,
        }
    }

    /// Returns the character, in ASCII.
    pub fn code(self) -> u8
        ensures value { result ≡ self }
        ensures valid { is_sign self ≡ true }
    {
        self.code
    }
}
