//! Command lines of rclinks, with texts and folders in memory, and with writers that fail. Other command lines, and
//! command lines with real folders, are in tools/pages.d/rclinks-lines and rclinks.

use crate::rows::{or_difference, output_of, writer_of};
use init_words::Level;
use program_io::{KeptTexts, Reports};
use rc_links::{FolderEntry, LinkAction, LinkChange, is_same};
use rclinks_command::{LinkFolders, run_words};
use std::alloc::{AllocError, Global};
use std::fmt::Write;
use std::io;
use test_support::line_words;

pub(crate) const NET: &[u8] =
    b"### BEGIN INIT INFO\n# Provides: net\n# Required-Start: \n# Default-Start: 3\n### END INIT INFO\n";

/// Paths and their texts. If a path occurs twice, the first text counts.
const TEXTS: &[(&str, &[u8])] = &[
    ("a/run-net", NET),
    ("a/run-net", b"# Provides: net\n"),
    (
        "run-db",
        b"### BEGIN INIT INFO\n# Provides: db\n# Required-Start: net\n# Default-Start: 3\n### END INIT INFO\n",
    ),
    ("run-bad", b"# Provides: bad\n"),
    ("run+net", NET),
    (
        "init.d/net",
        b"### BEGIN INIT INFO\n# Provides: net\n# Default-Start: 2 3\n# Default-Stop: 0\n### END INIT INFO\n",
    ),
    (
        "init.d/web",
        b"### BEGIN INIT INFO\n# Provides: web\n# Required-Start: net\n# Default-Start: 3\n### END INIT INFO\n",
    ),
];

fn kept_texts(global: Global) -> Result<KeptTexts, AllocError> {
    let mut stored = KeptTexts::new(global);
    for (path, text) in TEXTS {
        stored.keep(path, text)?;
    }
    Ok(stored)
}

/// An entry of a runlevel's folder in a directory.
#[derive(Drop)]
struct Link {
    dir: String,
    level: Level,
    entry: FolderEntry,
}

impl Link {
    /// Parses a line such as `etc/rc3.d/S01net ../init.d/net`; an entry without a target is not a link.
    fn read(alloc: Global, line: &str) -> Option<Link> {
        let (path, leads) = line.split_once(' ').unwrap_or((line, ""));
        let (dir, path) = path.split_once("/rc")?;
        let (level, name) = path.split_once(".d/")?;
        let [level] = level.as_bytes() else {
            return None;
        };
        Link::new(
            alloc,
            dir,
            Level::read(*level)?,
            name.as_bytes(),
            leads.as_bytes(),
        )
        .ok()
    }

    fn new(
        alloc: Global,
        dir: &str,
        level: Level,
        name: &[u8],
        leads: &[u8],
    ) -> Result<Link, AllocError> {
        let name = Vec::from_slice(alloc, name)?;
        let leads = Vec::from_slice(alloc, leads)?;
        Ok(Link {
            dir: String::from_str(alloc, dir)?,
            level,
            entry: FolderEntry::new(name, leads),
        })
    }

    fn is_in(&self, dir: &str, level: Level) -> bool {
        self.dir.as_str() == dir && self.level == level
    }
}

/// The folders of the runlevels in memory, without `init.d`. The contracts do not know their contents.
#[derive(Drop)]
struct Links {
    links: Vec<Link>,
}

impl LinkFolders for Links {
    ghost use Rattle.std.specs.Prelude.{None};

    ghost held = { λ _ _ _. None };

    ghost scripts_in = { λ _ _. None };

    fn entries(&self, alloc: Global, dir: &str, level: Level) -> io::Result<Vec<FolderEntry>> {
        let mut found = Vec::new(alloc);
        for link in &self.links {
            if link.is_in(dir, level) {
                found.push(link.entry.copy(alloc)?)?;
            }
        }
        Ok(found)
    }

    fn scripts(&self, alloc: Global, _dir: &str) -> io::Result<Vec<FolderEntry>> {
        Ok(Vec::new(alloc))
    }

    fn change(&mut self, alloc: Global, dir: &str, change: &LinkChange) -> io::Result<()> {
        let (level, entry) = (change.level(), change.entry());
        match change.act() {
            LinkAction::Remove => self.links.retain(|link: &Link| !(link.is_in(dir, level)
                && is_same(entry, &link.entry))),
            LinkAction::Make => {
                let link = Link::new(alloc, dir, level, entry.name(), entry.leads())?;
                self.links.push(link)?;
            }
        }
        Ok(())
    }
}

/// Returns the folders with these entries, one per line.
fn links_of(alloc: Global, lines: &str) -> Option<Links> {
    let mut links = Vec::new(alloc);
    for line in lines.lines() {
        links.push(Link::read(alloc, line)?).ok()?;
    }
    Some(Links { links })
}

/// Returns the entries of the folders, one per line.
fn held_text(alloc: Global, links: &Links) -> Option<String> {
    let mut text = String::new(alloc);
    for link in &links.links {
        let (dir, level) = (&link.dir, char::from(link.level.code()));
        let name = str::from_utf8(link.entry.name()).ok()?;
        let leads = str::from_utf8(link.entry.leads()).ok()?;
        let blank = if leads.is_empty() { "" } else { " " };
        write!(text, "{dir}/rc{level}.d/{name}{blank}{leads}\n").ok()?;
    }
    Some(text)
}

/// Returns the difference between the run of a row and the row; empty if there is none.
pub(crate) fn difference_of(alloc: Global, row: &[&str]) -> Option<String> {
    let [line, before, writer, status, out, err, after] = *row else {
        return None;
    };
    let texts = kept_texts(alloc).ok()?;
    let mut links = links_of(alloc, before)?;
    let words = line_words(alloc, line.trim_ascii_end()).ok()?;
    let mut lines = writer_of(alloc, writer)?;
    let mut reports = Reports::to(Vec::<u8>::new(alloc));
    let ended = run_words(
        &texts,
        &mut links,
        alloc,
        &[],
        words.as_slice(),
        &mut lines,
        &mut reports,
    );
    let ended = format!(in alloc; "status {ended}\n").ok()?;
    let held = held_text(alloc, &links)?;
    let out = output_of(alloc, "rclinks", out).ok()?;
    let told = String::new(alloc);
    let (printed, reported) = (lines.taken.as_slice(), reports.writer().as_slice());
    let told = or_difference(
        alloc,
        told,
        "standard output",
        printed,
        lines.front_of(&out),
    )?;
    let told = or_difference(alloc, told, "standard error", reported, err.as_bytes())?;
    let told = or_difference(alloc, told, "its end", ended.as_bytes(), status.as_bytes())?;
    or_difference(
        alloc,
        told,
        "the folders",
        held.as_bytes(),
        after.as_bytes(),
    )
}
