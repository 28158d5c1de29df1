//! Runlevels, the letters of ondemand entries, and the marks of an entry's runlevels field.

ghost use Rattle.std.specs.Prelude.{◌≡◌, not};
ghost use Rattle.init_words.specs.Levels.{level_code, level_read, letter_code, letter_read, same_level, names};

/// A runlevel: `0` to `9`, or `S` for single-user mode (init(8)).
#[derive(Clone, Copy, PartialEq, Eq)]
pub enum Level {
    L0,
    L1,
    L2,
    L3,
    L4,
    L5,
    L6,
    L7,
    L8,
    L9,
    S,
}

/// The letter that calls an ondemand entry (inittab(5)).
#[derive(Clone, Copy, PartialEq, Eq)]
pub enum Letter {
    A,
    B,
    C,
}

/// A character of an entry's runlevels field: a runlevel, or the letter of an ondemand entry.
#[derive(Clone, Copy, PartialEq, Eq)]
pub enum Mark {
    At(Level),
    OnCall(Letter),
}

impl Default for Mark {
    fn default() -> Mark {
        Mark::At(Level::L0)
    }
}

impl Level {
    /// Returns the level of a character, one of `0-9`, `S` and `s`, or `None` for any other byte.
    pub fn read(code: u8) -> Option<Level>
        ensures { result ≡ level_read code }
    {
        match code {
            b'0' => Some(Level::L0),
            b'1' => Some(Level::L1),
            b'2' => Some(Level::L2),
            b'3' => Some(Level::L3),
            b'4' => Some(Level::L4),
            b'5' => Some(Level::L5),
            b'6' => Some(Level::L6),
            b'7' => Some(Level::L7),
            b'8' => Some(Level::L8),
            b'9' => Some(Level::L9),
            b'S' | b's' => Some(Level::S),
            _ => None,
        }
    }

    /// Returns whether the level is one of 0 to 9.
    pub fn is_numbered(self) -> bool
        ensures { result ≡ not (same_level self Level.S) }
    {
        self != Level::S
    }

    /// Returns the character of the level, which is the capital `S` for single-user mode.
    pub fn code(self) -> u8
        ensures { result ≡ level_code self }
    {
        match self {
            Level::L0 => b'0',
            Level::L1 => b'1',
            Level::L2 => b'2',
            Level::L3 => b'3',
            Level::L4 => b'4',
            Level::L5 => b'5',
            Level::L6 => b'6',
            Level::L7 => b'7',
            Level::L8 => b'8',
            Level::L9 => b'9',
            Level::S => b'S',
        }
    }
}

impl Letter {
    /// Returns the letter of a character, one of `A B C a b c`, or `None` for any other byte.
    pub fn read(code: u8) -> Option<Letter>
        ensures { result ≡ letter_read code }
    {
        match code {
            b'A' | b'a' => Some(Letter::A),
            b'B' | b'b' => Some(Letter::B),
            b'C' | b'c' => Some(Letter::C),
            _ => None,
        }
    }

    /// Returns the character of the letter, a capital.
    pub fn code(self) -> u8
        ensures { result ≡ letter_code self }
    {
        match self {
            Letter::A => b'A',
            Letter::B => b'B',
            Letter::C => b'C',
        }
    }
}

impl Mark {
    ghost use Rattle.init_words.specs.Levels.{mark_code, mark_read, same_mark};

    /// Returns whether the two marks are the same.
    pub fn is(self, other: Mark) -> bool
        ensures { result ≡ same_mark self other }
    {
        self == other
    }

    /// Returns the mark of a character of a runlevels field (inittab(5)), one of `0-9 S s A B C a b c`, or `None` for
    /// any other byte.
    pub fn read(code: u8) -> Option<Mark>
        ensures { result ≡ mark_read code }
    {
        match Level::read(code) {
            Some(level) => Some(Mark::At(level)),
            None => Letter::read(code).map(Mark::OnCall),
        }
    }

    /// Returns the character of the mark; letters are capitals.
    pub fn code(self) -> u8
        ensures { result ≡ mark_code self }
    {
        match self {
            Mark::At(level) => level.code(),
            Mark::OnCall(letter) => letter.code(),
        }
    }
}

/// Returns whether the marks include this one.
pub fn names(marks: &[Mark], mark: Mark) -> bool
    ensures { result ≡ names mark marks.now }
{
    marks.iter().any(|other| mark.is(*other))
}
