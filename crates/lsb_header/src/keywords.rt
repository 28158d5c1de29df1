//! The keywords of a header.

ghost use Rattle.std.specs.Prelude.{◌≡◌};
ghost use Rattle.std.specs.Str.{str_eq_ignore_ascii_case};
ghost use Rattle.lsb_header.specs.Keywords.{keyword_read, same_keyword, word_of};

use std::fmt;

/// A keyword with a meaning in the header (LSB Core 5.0).
#[derive(Clone, Copy, Debug, PartialEq, Eq)]
pub enum Keyword {
    Provides,
    RequiredStart,
    RequiredStop,
    ShouldStart,
    ShouldStop,
    DefaultStart,
    DefaultStop,
    ShortDescription,
    Description,
}

const KEYWORDS: [Keyword; 9] = [
    Keyword::Provides,
    Keyword::RequiredStart,
    Keyword::RequiredStop,
    Keyword::ShouldStart,
    Keyword::ShouldStop,
    Keyword::DefaultStart,
    Keyword::DefaultStop,
    Keyword::ShortDescription,
    Keyword::Description,
];

impl Keyword {
    /// Returns the keyword as it is written.
    pub fn word(self) -> &'static str
        ensures { result.now ≡ word_of self }
    {
        match self {
            Keyword::Provides => "Provides",
            Keyword::RequiredStart => "Required-Start",
            Keyword::RequiredStop => "Required-Stop",
            Keyword::ShouldStart => "Should-Start",
            Keyword::ShouldStop => "Should-Stop",
            Keyword::DefaultStart => "Default-Start",
            Keyword::DefaultStop => "Default-Stop",
            Keyword::ShortDescription => "Short-Description",
            Keyword::Description => "Description",
        }
    }

    /// Reports whether two keywords are the same.
    pub fn is(self, other: Keyword) -> bool
        ensures { result ≡ same_keyword self other }
    {
        self == other
    }

    /// Returns the keyword that a word names, in any ASCII case.
    #[tactic(auto, unfolding(crate::specs::Keywords::keyword_read))]
    pub fn read(word: &[u8]) -> Option<Keyword>
        ensures { result ≡ keyword_read word.now }
    {
        KEYWORDS
            .iter()
            .copied()
            .find(|keyword| is_same(keyword.word().as_bytes(), word))
    }
}

impl fmt::Display for Keyword {
    ghost use Rattle.std.specs.Prelude.{Some};
    ghost use Rattle.lsb_header.specs.Keywords.{word_of};

    ghost output = { λ keyword. Some (word_of keyword) };

    fn fmt<W: fmt::Write>(&self, f: &mut fmt::Formatter<W>) -> fmt::Result {
        f.write_str(self.word())
    }
}

/// Reports whether two words are the same except for ASCII case.
fn is_same(left: &[u8], right: &[u8]) -> bool
    ensures { result ≡ str_eq_ignore_ascii_case left.now right.now }
{
    left.eq_ignore_ascii_case(right)
}
