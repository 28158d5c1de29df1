//! The header of an init script (LSB Core 5.0).

ghost use Rattle.std.specs.Prelude.{◌≡◌, ◌≢◌, ◌+◌, ◌<◌, ◌^◌, [], None, Ok, Err, length, map, string_bytes};
ghost use Rattle.std.specs.Prelude.{IfOk, OnOk, IfErr, IfSome};
ghost use Rattle.text_lines.specs.Lines.{words_of};
ghost use Rattle.lsb_header.specs.Blocks.{block_fault, block_in};
ghost use Rattle.lsb_header.specs.Faults.{IsDue};
ghost use Rattle.lsb_header.specs.HeaderText.{facility_header};
ghost use Rattle.lsb_header.specs.Headers.{frame_fault, header_of, header_read, text_at};

use crate::blocks::{find_header, has_end};
use crate::checks::check;
use crate::faults::HeaderFault;
use crate::keywords::Keyword;
use crate::pieces::{args_of, description_of, levels_of, short_description_of, words_of};
use init_words::{Level, Memory};
use std::alloc::{Allocator, Global};
use std::marker::Model;

/// The fields of an init script's header (LSB Core 5.0). Names and descriptions are UTF-8.
#[derive(Drop)]
pub struct Header<A: Allocator = Global> {
    provides: Vec<String<A>, A>,
    required_start: Vec<String<A>, A>,
    required_stop: Vec<String<A>, A>,
    should_start: Vec<String<A>, A>,
    should_stop: Vec<String<A>, A>,
    default_start: Vec<Level, A>,
    default_stop: Vec<Level, A>,
    short_description: String<A>,
    description: String<A>,
}

impl<A: Allocator> Model for Header<A> {
    ghost use Rattle.std.specs.Prelude.{map, string_bytes};
    ghost use Rattle.lsb_header.specs.HeaderText.{HeaderText};

    ghost Value = { HeaderText };

    ghost view = { λ h. record {
      provides = map string_bytes h.provides.items;
      required_start = map string_bytes h.required_start.items;
      required_stop = map string_bytes h.required_stop.items;
      should_start = map string_bytes h.should_start.items;
      should_stop = map string_bytes h.should_stop.items;
      default_start = h.default_start.items;
      default_stop = h.default_stop.items;
      short_description = string_bytes h.short_description;
      description = string_bytes h.description;
    } };
}

impl<A: Allocator> Header<A> {
    /// Returns the names that the script provides, at least one.
    pub fn provides(&self) -> &[String<A>]
        ensures { map string_bytes result.now ≡ self.now.provides }
    {
        self.provides.as_slice()
    }

    /// Returns the names that must be started before the script.
    pub fn required_start(&self) -> &[String<A>]
        ensures { map string_bytes result.now ≡ self.now.required_start }
    {
        self.required_start.as_slice()
    }

    /// Returns the names that must be available until the script is stopped.
    pub fn required_stop(&self) -> &[String<A>]
        ensures { map string_bytes result.now ≡ self.now.required_stop }
    {
        self.required_stop.as_slice()
    }

    /// Returns the names that are started before the script, if they are present.
    pub fn should_start(&self) -> &[String<A>]
        ensures { map string_bytes result.now ≡ self.now.should_start }
    {
        self.should_start.as_slice()
    }

    /// Returns the names that are stopped after the script, if they are present.
    pub fn should_stop(&self) -> &[String<A>]
        ensures { map string_bytes result.now ≡ self.now.should_stop }
    {
        self.should_stop.as_slice()
    }

    /// Returns the runlevels in which the script is started, as written in the header.
    pub fn default_start(&self) -> &[Level]
        ensures { result.now ≡ self.now.default_start }
    {
        self.default_start.as_slice()
    }

    /// Returns the runlevels in which the script is stopped, as written in the header.
    pub fn default_stop(&self) -> &[Level]
        ensures { result.now ≡ self.now.default_stop }
    {
        self.default_stop.as_slice()
    }

    /// Returns the short description.
    pub fn short_description(&self) -> &str
        ensures { result.now ≡ self.now.short_description }
    {
        self.short_description.as_str()
    }

    /// Returns the description, with continuation lines joined by blanks.
    pub fn description(&self) -> &str
        ensures { result.now ≡ self.now.description }
    {
        self.description.as_str()
    }
}

impl<A: Allocator + Copy> Header<A> {
    /// Creates the header of a facility: it provides these names, has no runlevels, starts after some names and stops
    /// before others, if they are present.
    pub fn facility(
        alloc: A,
        provides: Vec<String<A>, A>,
        should_start: Vec<String<A>, A>,
        should_stop: Vec<String<A>, A>,
    ) -> Header<A>
        ensures { result ≡ facility_header (map string_bytes provides.items)
            (map string_bytes should_start.items) (map string_bytes should_stop.items) }
    {
        Header {
            provides,
            required_start: Vec::new(alloc),
            required_stop: Vec::new(alloc),
            should_start,
            should_stop,
            default_start: Vec::new(alloc),
            default_stop: Vec::new(alloc),
            short_description: String::new(alloc),
            description: String::new(alloc),
        }
    }
}

/// Returns the words after the colon of a keyword's line.
fn names_of<A: Allocator + Copy>(
    alloc: A,
    keyword: Keyword,
    lines: &[&str],
) -> Result<Vec<String<A>, A>, Memory>
    ensures { IfOk result (λ words. map string_bytes words.items
        ≡ words_of (text_at keyword (map (λ line. line.now) lines.now))) }
{
    words_of(alloc, args_of(keyword, lines))
}

/// Reads the header in the text after the line that begins it, which has this number.
fn header_of<A: Allocator + Copy>(
    alloc: A,
    begin: usize,
    body: &[u8],
) -> Result<Header<A>, HeaderFault>
    requires { begin + length body.now < 2 ^ 64 }
    ensures header { IfOk result (λ header. header ≡ header_of (block_in body.now)) }
    ensures fine { OnOk result (block_fault [] (begin + 1) (block_in body.now) ≡ None) }
    ensures fault { IfErr result (IsDue (block_fault [] (begin + 1) (block_in body.now))) }
{
    let checked = check(alloc, begin, body)?;
    let lines = checked.as_slice();
    Ok(Header {
        provides: names_of(alloc, Keyword::Provides, lines)?,
        required_start: names_of(alloc, Keyword::RequiredStart, lines)?,
        required_stop: names_of(alloc, Keyword::RequiredStop, lines)?,
        should_start: names_of(alloc, Keyword::ShouldStart, lines)?,
        should_stop: names_of(alloc, Keyword::ShouldStop, lines)?,
        default_start: levels_of(alloc, args_of(Keyword::DefaultStart, lines))?,
        default_stop: levels_of(alloc, args_of(Keyword::DefaultStop, lines))?,
        short_description: short_description_of(alloc, lines)?,
        description: description_of(alloc, lines)?,
    })
}

/// Reads the header of an init script, or returns the first check that fails.
#[tactic(auto, unfolding(crate::specs::Headers::frame_fault, crate::specs::Headers::header_read))]
pub fn read<A: Allocator + Copy>(alloc: A, text: &[u8]) -> Result<Header<A>, HeaderFault>
    ensures header { IfOk result (λ header. header_read text.now ≡ Ok header) }
    ensures fault { IfErr result (λ fault.
        fault ≢ HeaderFault.Memory → header_read text.now ≡ Err fault) }
    // Reporting that the first or the last line of the header is missing needs no memory.
    ensures frame { IfSome (frame_fault text.now) (λ fault. result ≡ Err fault) }
{
    let Some((number, body)) = find_header(text) else {
        return Err(HeaderFault::NoBegin);
    };
    if !has_end(body) {
        return Err(HeaderFault::NoEnd);
    }
    let header = header_of(alloc, number, body)?;
    if header.provides.is_empty() {
        return Err(HeaderFault::NoProvides);
    }
    Ok(header)
}
