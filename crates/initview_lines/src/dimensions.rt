//! The appearance of a timeline: its dimensions, in unscaled pixels, and the shapes of its pieces.

/// The width of the rows, which is also the position of the last time.
pub const DRAWING: u64 = 900;

/// The height of the row of the stages; the distance between rows; the distance if there are more than `MANY` rows; and
/// the number `MANY`.
pub const LEVEL: u64 = 26;

pub const TALL: u64 = 22;

pub const LOW: u64 = 12;

pub const MANY: usize = 60;

/// The height of everything above the rows and below them.
pub const MARGINS: u64 = 148;

/// The minimum width of a stage labelled with its name, and of one labelled with its letter.
pub const WORDS_ROOM: u64 = 104;

pub const LETTER_ROOM: u64 = 12;

/// Units of time, in seconds.
pub const HOUR: u64 = 3_600;

pub const DAY: u64 = 86_400;

pub const YEAR: u64 = 31_536_000;

/// The steps of an axis, in seconds, and the maximum number of ticks.
pub const STEPS: [u64; 18] = [
    1, 2, 5, 10, 20, 30, 60, 120, 300, 600, 1_200, 1_800, 3_600, 7_200, 14_400, 21_600, 43_200,
    86_400,
];

pub const TICKS: u64 = 10;

/// A vertical line, and the time of day and the text below it, above the rows and below them.
pub const TICK: &[u8] = b")\"><line class=\"t\" y1=\"-6\" y2=\"100%\"/>";

pub const TOP_HOURS: &[u8] = b"<text class=\"m\" y=\"-22\">";

pub const TOP_SECONDS: &[u8] = b"</text><text class=\"m q\" y=\"-10\">";

pub const LOW_HOURS: &[u8] = b"<text class=\"m\" y=\"100%\" dy=\"18\">";

pub const LOW_SECONDS: &[u8] = b"</text><text class=\"m q\" y=\"100%\" dy=\"30\">";

/// The row of an id: its background and its name, its state at the end, and its number of faults.
pub const BAND: &[u8] =
    b"\" overflow=\"visible\"><rect class=\"b\" x=\"-80\" width=\"1130\" height=\"100%\"/><text x=\"-8\" y=\"50%\" dy=\".34em\" class=\"i";

pub const STATE: &[u8] = b"</text><text x=\"912\" y=\"50%\" dy=\".34em\" class=\"q";

pub const FAULTS: &[u8] = b"</text><text x=\"1042\" y=\"50%\" dy=\".34em\" class=\"i r\">";

/// The bars and the marks, up to their positions.
pub const STAGE: &[u8] = b"<rect class=\"n\" y=\"2\" height=\"18\" x=\"";

pub const SETTLED: &[u8] = b"<rect class=\"g\" y=\"2\" height=\"18\" x=\"";

pub const NAME_AT: &[u8] = b"<text class=\"v\" y=\"15\" dx=\"5\" x=\"";

pub const NAME: &[u8] = b"<rect class=\"e\" height=\"100%\" width=\"1\" x=\"";

pub const LIVES: &[u8] = b"<rect class=\"l\" y=\"18%\" height=\"64%\" x=\"";

pub const WAITED: &[u8] = b"<rect class=\"w\" y=\"18%\" height=\"64%\" x=\"";

pub const STOPS: &[u8] = b"<rect class=\"s\" y=\"18%\" height=\"64%\" x=\"";

pub const HELD: &[u8] = b"<rect class=\"h\" y=\"18%\" height=\"64%\" x=\"";

pub const DUE: &[u8] = b"<rect class=\"d\" y=\"46%\" height=\"8%\" x=\"";

pub const FAILED: &[u8] =
    b"<rect class=\"f\" y=\"5%\" height=\"90%\" width=\"4\" transform=\"translate(-2)\" x=\"";

pub const KILLED: &[u8] = b"<use href=\"#K\" y=\"50%\" x=\"";

pub const UNBORN: &[u8] = b"<use href=\"#U\" y=\"50%\" x=\"";

/// The text before the height of the document.
pub const HEAD: &[u8] =
    b"<svg xmlns=\"http://www.w3.org/2000/svg\" role=\"img\" width=\"1130\" height=\"";

/// The text between the title and the heading: the colors, on a light background and on a dark one.
pub const STYLE: &[u8] = b"</title>
<style>
text{font:12px monospace;pointer-events:none}
.small text{font-size:10px}
.i{text-anchor:end}
.m{text-anchor:middle}
.r,.v,.z{font-weight:bold}
.v{paint-order:stroke;stroke-width:5}
.e{fill-opacity:.5}
.u{fill:none;stroke-width:2.5}
.x{stroke-width:2}
.b{fill:#808080;fill-opacity:.1}
svg>svg:nth-of-type(even)>.b{fill-opacity:0}
.s{fill:url(#S)}
.h{fill:url(#H)}
.n{fill:url(#N)}
.d{fill:url(#D)}
.p{fill:#fff}
text{fill:#1b1f24}
.q,.e{fill:#626c77}
.t{stroke:#d9dfe5}
.l{fill:#b4d0ee}
.l,.w,.s,.xs{stroke:#5f92c6}
.w{fill:#5f92c6}
.g{fill:#c5ced8}
.n,.xn{stroke:#c5ced8}
.f,.k,.r{fill:#c4221a}
.u,.h,.xh{stroke:#c4221a}
.v{stroke:#fff}
@media(prefers-color-scheme:dark){
.p{fill:#14171b}
text{fill:#e3e6ea}
.q,.e{fill:#98a2ad}
.t{stroke:#30363e}
.l{fill:#2c5480}
.l,.w,.s,.xs{stroke:#6ea3d8}
.w{fill:#4a84c4}
.g{fill:#46505c}
.n,.xn{stroke:#46505c}
.f,.k,.r{fill:#ff7c6b}
.u,.h,.xh{stroke:#ff7c6b}
.v{stroke:#14171b}
}
</style>
<defs>
<pattern id=\"S\" width=\"5\" height=\"5\" patternUnits=\"userSpaceOnUse\" patternTransform=\"rotate(-45)\"><rect class=\"p\" width=\"5\" height=\"5\"/><path class=\"x xs\" d=\"M1 0V5\"/></pattern>
<pattern id=\"H\" width=\"6\" height=\"6\" patternUnits=\"userSpaceOnUse\" patternTransform=\"rotate(45)\"><path class=\"x xh\" d=\"M1 0V6\"/></pattern>
<pattern id=\"N\" width=\"6\" height=\"6\" patternUnits=\"userSpaceOnUse\" patternTransform=\"rotate(45)\"><path class=\"x xn\" d=\"M1 0V6\"/></pattern>
<pattern id=\"D\" width=\"6\" height=\"9\" patternUnits=\"userSpaceOnUse\"><rect class=\"q\" width=\"2\" height=\"9\"/></pattern>
<path id=\"K\" class=\"k\" d=\"M0-6L6 0L0 6L-6 0Z\"/>
<path id=\"U\" class=\"u\" d=\"M-4-4L4 4M4-4L-4 4\"/>
</defs>
<rect class=\"p\" width=\"100%\" height=\"100%\"/>
<text class=\"z\" x=\"80\" y=\"20\">";

/// The legend of the shapes.
pub const LEGEND: &[u8] = b" with faults</tspan></text>
<g transform=\"translate(80 52)\">
<g transform=\"translate(0)\"><rect class=\"l\" width=\"18\" height=\"12\"/><text class=\"q\" x=\"24\" y=\"11\">runs</text></g>
<g transform=\"translate(67)\"><rect class=\"w\" width=\"18\" height=\"12\"/><text class=\"q\" x=\"24\" y=\"11\">init waits for it</text></g>
<g transform=\"translate(228)\"><rect class=\"s\" width=\"18\" height=\"12\"/><text class=\"q\" x=\"24\" y=\"11\">TERM sent</text></g>
<g transform=\"translate(331)\"><rect class=\"h\" width=\"18\" height=\"12\"/><text class=\"q\" x=\"24\" y=\"11\">held</text></g>
<g transform=\"translate(398)\"><rect class=\"f\" x=\"7\" y=\"-1\" width=\"4\" height=\"14\"/><text class=\"q\" x=\"24\" y=\"11\">failed</text></g>
<g transform=\"translate(479)\"><use href=\"#K\" x=\"9\" y=\"6\"/><text class=\"q\" x=\"24\" y=\"11\">KILL sent</text></g>
<g transform=\"translate(582)\"><use href=\"#U\" x=\"9\" y=\"6\"/><text class=\"q\" x=\"24\" y=\"11\">start failed</text></g>
<g transform=\"translate(707)\"><rect class=\"n\" width=\"18\" height=\"12\"/><text class=\"q\" x=\"24\" y=\"11\">unsettled</text></g>
<g transform=\"translate(817)\"><rect class=\"g\" width=\"18\" height=\"12\"/><text class=\"q\" x=\"24\" y=\"11\">settled</text></g>
</g>
";

/// A sentence above the rows, if there are more than `MANY`.
pub const FEWER: &[u8] =
    b"<text class=\"i q\" x=\"1122\" y=\"40\">--faults draws only the rows with faults</text>\n";

/// The text before the height of the rows.
pub const TALL_ROWS: &[u8] = b"<svg x=\"80\" y=\"104\" overflow=\"visible\" height=\"";

pub const LOW_ROWS: &[u8] =
    b"<svg class=\"small\" x=\"80\" y=\"104\" overflow=\"visible\" height=\"";

/// The name of the row of the stages, and the names of the columns after the rows.
pub const AT_END: &[u8] =
    b"<text class=\"i z\" x=\"-8\" y=\"15\">level</text><text class=\"q\" x=\"912\" y=\"15\">at the end</text><text class=\"i q\" x=\"1042\" y=\"15\">faults</text>
";

/// A sentence below the rows, if there are more than `MANY`.
pub const FEWER_LINE: &[u8] = b"--faults draws only\nthe rows with faults";

/// The legend of the characters: three lines if they fit. Each line consists of parts, given one per line here.
pub const LEGEND_LINES: [&[u8]; 3] = [
    b"level: i sysinit,
b boot,
0 to 9 and S;
- unsettled,
= settled",
    b"| started,
= runs,
w init waits for it,
- TERM sent,
~ held,
? not started yet",
    b"x failed,
! start failed,
K KILL sent;
right: the state at the end,
and faults",
];
