//! Splits a line of the inittab at its colons.

ghost use Rattle.std.specs.Prelude.{◌≡◌};
ghost use Rattle.std.specs.Option.{option_map};

use text_lines::cut;

/// The four fields of a line, `id:runlevels:action:process` (inittab(5)).
#[derive(Clone, Copy)]
pub struct Fields<'a> {
    /// The id, exactly as in the line.
    pub id: &'a [u8],
    /// The characters of the runlevels field.
    pub levels: &'a [u8],
    /// The word of the action.
    pub action: &'a [u8],
    /// Everything after the third colon.
    pub process: &'a [u8],
}

impl<'a> Fields<'a> {
    ghost use Rattle.inittab_text.specs.Lines.{fields_of, fields_at};

    /// Splits a line at its first three colons. Returns `None` if there are fewer.
    pub fn of(line: &'a [u8]) -> Option<Fields<'a>>
        ensures { option_map fields_at result ≡ fields_of line.now }
    {
        let (id, rest) = cut(b':', line)?;
        let (levels, rest) = cut(b':', rest)?;
        let (action, process) = cut(b':', rest)?;
        Some(Fields {
            id,
            levels,
            action,
            process,
        })
    }
}
