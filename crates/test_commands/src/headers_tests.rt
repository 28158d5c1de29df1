//! Tests of reading headers and reporting their faults.

use crate::texts::{END, NINE, header_of, joined, shown};
use init_words::Memory;
use lsb_header::HeaderFault::{self, BadLine, NoBegin, NoEnd, NoProvides, Twice};
use lsb_header::{Keyword, second_keyword_line};
use std::alloc::Global;
use std::test::Fail;
use test_support::difference;

/// Lines, and the header that they form, as text, or its fault.
type Row = (&'static [u8], Result<&'static [u8], HeaderFault>);

/// Text before the lines, the lines, and text after them.
const TEXTS: &[(&[u8], &[Row], &[u8])] = &[
    (b"### BEGIN INIT INFO\n", HEADERS, END),
    (
        b"### BEGIN INIT INFO\n# Provides: a\n",
        BAD_LINES,
        b"\n# Provides: b\n### END INIT INFO\n",
    ),
    (b"", WHOLE, b""),
];

const HEADERS: &[Row] = &[
    // A '#' followed only by blanks and tabs.
    (
        b"#\n# \n#\t\n# \t \n# Provides: a\n#   \n",
        Ok(b" a////////"),
    ),
    // Indented lines that do not continue a description.
    (
        b"#\tx\n#  Provides: b\n# Provides: a\n#  c\n",
        Ok(b" a////////"),
    ),
    // Indented lines that continue a description, with empty comments among them.
    (
        b"# Provides: a\n# Description:\t one \n#\n#\ttwo\t\n# \t\n#   three: 3\n",
        Ok(b" a////////one two three: 3"),
    ),
    (
        b"# Provides: a\n# Description:\n#  b\n",
        Ok(b" a//////// b"),
    ),
    // A line with another keyword ends the description.
    (
        b"# Description: one\n#  two\n# X-End: x\n#  three\n# Provides: a\n",
        Ok(b" a////////one two"),
    ),
    // Words are separated by blanks and tabs; the first word may follow the colon directly, and may contain a colon;
    // keywords may be in any ASCII case.
    (
        b"# pROVIDES:web\twww \t a:b\n# SHOULD-STOP:\tc\n",
        Ok(b" web www a:b//// c////"),
    ),
    // Other keywords are ignored, even if they occur twice.
    (
        b"# X-Own: b\n# Provides: a\n# X-Own: c\n# Prov: d\n",
        Ok(b" a////////"),
    ),
    // Words that are not runlevels are ignored, and a runlevel that occurs twice is kept twice.
    (
        b"# Provides: a\n# Default-Start: 3 x 3 10 A 9 -1\n# Default-Stop: S s 0\n",
        Ok(b" a/////339/SS0//"),
    ),
    // The rest of the line, including its inner blanks.
    (
        b"# Short-Description: \t short  text: \t\n# Provides: a\n",
        Ok(b" a///////short  text:/"),
    ),
    // Text in UTF-8.
    (
        b"# Provides: \xc3\xa9\n# x\xe2\x82\xac: b\n",
        Ok(b" \xc3\xa9////////"),
    ),
    // Only the first fault is reported.
    (b"", Err(NoProvides)),
    (b"# Provides: \t\n", Err(NoProvides)),
    (b"# X-Provides: a\n#  Provides: a\n", Err(NoProvides)),
    (b"# Should-Stop: a\nx\n", Err(BadLine(3))),
    (b"x\n# Provides: a\n# Provides: b\n", Err(BadLine(2))),
    (
        b"# Provides:\n# PROVIDES: b\n",
        Err(Twice(Keyword::Provides)),
    ),
];

/// Lines with none of the forms of a header line, used as the third line. The last four are not UTF-8, one in each
/// form.
const BAD_LINES: &[Row] = &[
    (b"", Err(BadLine(3))),
    (b" ", Err(BadLine(3))),
    (b"text", Err(BadLine(3))),
    (b" # X-Own: a", Err(BadLine(3))),
    (b"#a: b", Err(BadLine(3))),
    (b"##", Err(BadLine(3))),
    (b"# words", Err(BadLine(3))),
    (b"# a b: c", Err(BadLine(3))),
    (b"# a\tb: c", Err(BadLine(3))),
    (b"# : a", Err(BadLine(3))),
    (b"# a : b", Err(BadLine(3))),
    (b"# \tx", Err(BadLine(3))),
    (b"# \tX-Own: a", Err(BadLine(3))),
    (b"#\r", Err(BadLine(3))),
    (b"### begin init info", Err(BadLine(3))),
    (b"### BEGIN INIT INFO", Err(BadLine(3))),
    (b" ### END INIT INFO", Err(BadLine(3))),
    (b"# X-Own: \xff", Err(BadLine(3))),
    (b"# Provides: \xc3", Err(BadLine(3))),
    (b"#  \xed\xa0\x80", Err(BadLine(3))),
    (b"# \xe9: a", Err(BadLine(3))),
];

const WHOLE: &[Row] = &[
    (b"", Err(NoBegin)),
    (b"# Provides: a\n### END INIT INFO\n", Err(NoBegin)),
    (
        b"### BEGIN INIT INFO\r\n# Provides: a\r\n### END INIT INFO\r\n",
        Err(NoBegin),
    ),
    (
        b" ### BEGIN INIT INFO\n# Provides: a\n### END INIT INFO\n",
        Err(NoBegin),
    ),
    (
        b"### begin init info\n# Provides: a\n### END INIT INFO\n",
        Err(NoBegin),
    ),
    (
        b"### BEGIN INIT INFO x\n# Provides: a\n### END INIT INFO\n",
        Err(NoBegin),
    ),
    (b"### BEGIN INIT INFO", Err(NoEnd)),
    (b"### BEGIN INIT INFO\nx\n", Err(NoEnd)),
    (
        b"### END INIT INFO\n### BEGIN INIT INFO\n# Provides: a\n",
        Err(NoEnd),
    ),
    (
        b"### BEGIN INIT INFO\n# Provides: a\n### end init info\n",
        Err(NoEnd),
    ),
    (
        b"#!/bin/sh\n### BEGIN INIT INFO\n# Provides: web www\n",
        Err(NoEnd),
    ),
    (
        b"### BEGIN INIT INFO\n### END INIT INFO\n# Provides: a\n### END INIT INFO\n",
        Err(NoProvides),
    ),
    (
        b"#!/bin/sh\n\n### BEGIN INIT INFO\n# Provides: a\nx\n### END INIT INFO\n",
        Err(BadLine(5)),
    ),
    (
        b"### END INIT INFO\n### BEGIN INIT INFO\n# Provides: a\n### END INIT INFO\n",
        Ok(b" a////////"),
    ),
    (
        b"### BEGIN INIT INFO \t\n# Provides: a\n### END INIT INFO\t \n",
        Ok(b" a////////"),
    ),
    (
        b"### BEGIN INIT INFO\n# Provides: a\n### END INIT INFO",
        Ok(b" a////////"),
    ),
    // Only blanks and tabs are ignored after the words of the last line.
    (
        b"### BEGIN INIT INFO\n# Provides: a\n### END INIT INFO#\nx\n### END INIT INFO\n",
        Err(BadLine(3)),
    ),
    (
        b"### BEGIN INIT INFO\n# Provides: a\n### END INIT INFO foo\n",
        Err(NoEnd),
    ),
    (
        b"### BEGIN INIT INFO\n# Provides: a\n### END INIT INFO\r\n",
        Err(NoEnd),
    ),
    (
        b"### BEGIN INIT INFO\n# Provides: a\n### END INIT INFO\nx\n### BEGIN INIT INFO\n",
        Ok(b" a////////"),
    ),
    (
        b"\xff\n### BEGIN INIT INFO\n# Provides: a\n### END INIT INFO\n\xff\n",
        Ok(b" a////////"),
    ),
    (
        b"#!/bin/sh\n### BEGIN INIT INFO\n# Provides: web www\n# Required-Start: $network db\n# Default-Start: 3 5\n\
        # Description: serves\n#   pages\n### END INIT INFO\n",
        Ok(b" web www/ $network db////35///serves pages"),
    ),
];

/// Returns the text of a header, or its fault after a mark.
fn shown_text(global: Global, read: Result<&[u8], HeaderFault>) -> Result<Vec<u8>, Memory> {
    match read {
        Ok(shown) => Ok(Vec::from_slice(global, shown)?),
        Err(fault) => Ok(format!(in global; "! {fault}")?.into_bytes()),
    }
}

/// Returns the difference between the header of a text and the expected one; empty if there is none.
fn header_difference(
    global: Global,
    text: &[u8],
    want: Result<&[u8], HeaderFault>,
) -> Result<String, Memory> {
    let got = match header_of(global, global, text) {
        Ok(header) => shown(global, &header)?,
        Err(fault) => shown_text(global, Err(fault))?,
    };
    let want = shown_text(global, want)?;
    Ok(difference(global, &[("what is read", got.as_slice(), want.as_slice())])?)
}

#[test]
fn headers_are_read(rt: HostRuntime) -> Result<(), Fail> {
    for (front, rows, back) in TEXTS {
        for (lines, want) in *rows {
            let text = joined(rt.alloc(), &[*front, *lines, *back])?;
            let told = header_difference(rt.alloc(), &text, *want)?;
            let lines = str::from_utf8(lines).unwrap_or("?");
            assert!(rt; told.is_empty(), "{lines:?}: {told}");
        }
    }
    Ok(())
}

/// A keyword, as written and in capitals.
const KEYWORDS: &[(&str, &[u8], Keyword)] = &[
    ("Provides", b"PROVIDES", Keyword::Provides),
    ("Required-Start", b"REQUIRED-START", Keyword::RequiredStart),
    ("Required-Stop", b"REQUIRED-STOP", Keyword::RequiredStop),
    ("Should-Start", b"SHOULD-START", Keyword::ShouldStart),
    ("Should-Stop", b"SHOULD-STOP", Keyword::ShouldStop),
    ("Default-Start", b"DEFAULT-START", Keyword::DefaultStart),
    ("Default-Stop", b"DEFAULT-STOP", Keyword::DefaultStop),
    (
        "Short-Description",
        b"SHORT-DESCRIPTION",
        Keyword::ShortDescription,
    ),
    ("Description", b"DESCRIPTION", Keyword::Description),
];

/// Reports whether the keyword is written as this word, and its second occurrence is found in line 12 of a text, before
/// a bad line.
fn is_keyword(global: Global, word: &str, shout: &[u8], keyword: Keyword) -> Result<bool, Fail> {
    let text = joined(global, &[NINE, b"# ", word.as_bytes(), b": x\n?\n", END])?;
    let told = format!(in global; "{keyword}")?;
    Ok(
        header_of(global, global, &text).err() == Some(Twice(keyword))
            && second_keyword_line(&text, keyword) == Some(12)
            && told.as_str() == word
            && Keyword::read(shout) == Some(keyword)
            && keyword.word() == word,
    )
}

#[test]
fn each_keyword_has_its_field(rt: HostRuntime) -> Result<(), Fail> {
    for (word, shout, keyword) in KEYWORDS {
        assert!(rt; is_keyword(rt.alloc(), word, shout, *keyword)?, "{word}");
    }
    assert!(rt; Keyword::read(b"X-Provides").is_none());
    Ok(())
}

/// The second line with a keyword, if there is one.
const SECOND_LINES: &[(&[u8], Option<usize>)] = &[
    (
        b"#\n### BEGIN INIT INFO\n# Provides: a\n# PROVIDES: b\n# Provides: c\n### END INIT INFO\n",
        Some(4),
    ),
    (
        b"### BEGIN INIT INFO\n# Provides: a\n### END INIT INFO\n# Provides: b\n",
        None,
    ),
    (b"# Provides: a\n### BEGIN INIT INFO\n# Provides: b\n", None),
    (
        b"### BEGIN INIT INFO\n# X-Own: b\n# Should-Start: a\n",
        None,
    ),
    (b"# Provides: a\n# Provides: b\n", None),
];

#[test]
fn second_lines(rt: HostRuntime) {
    for (text, want) in SECOND_LINES {
        let got = second_keyword_line(text, Keyword::Provides);
        let text = str::from_utf8(text).unwrap_or("?");
        assert!(rt; got == *want, "{text:?}: {got:?}, not {want:?}");
    }
}

const FAULT_TEXTS: &[(HeaderFault, &str)] = &[
    (NoBegin, "no line \"### BEGIN INIT INFO\""),
    (
        NoEnd,
        "no line \"### END INIT INFO\" after \"### BEGIN INIT INFO\"",
    ),
    (
        BadLine(12),
        "line 12: neither \"# Keyword: words\" nor \"#  text\" in UTF-8",
    ),
    (Twice(Keyword::ShouldStart), "Should-Start appears twice"),
    (NoProvides, "no name after \"# Provides:\""),
    (HeaderFault::Memory, "out of memory"),
];

#[test]
fn faults_are_told(rt: HostRuntime) -> Result<(), Fail> {
    for (fault, want) in FAULT_TEXTS {
        let text = format!(in rt.alloc(); "{fault}")?;
        assert!(rt; text.as_str() == *want, "{text}\n    and not: {want}");
    }
    Ok(())
}
