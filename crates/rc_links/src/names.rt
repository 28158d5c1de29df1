//! Names of init scripts and facilities.

ghost use Rattle.std.specs.Prelude.{◌≡◌};
ghost use Rattle.std.specs.List.{list_all};
ghost use Rattle.rc_links.specs.Names.{is_name, is_name_byte};

/// Reports whether a byte is allowed in the name of a link: `A-Z a-z 0-9 . _ -`.
pub fn is_name_byte(byte: u8) -> bool
    ensures { result ≡ is_name_byte byte }
{
    byte.is_ascii_alphanumeric() || byte == b'.' || byte == b'_' || byte == b'-'
}

fn has_name_bytes(name: &[u8]) -> bool
    ensures { result ≡ list_all is_name_byte name.now }
{
    name.iter().all(|byte| is_name_byte(*byte))
}

/// Reports whether a name can follow the digits of a link: it has one or more bytes, all allowed.
pub fn is_name(name: &[u8]) -> bool
    ensures { result ≡ is_name name.now }
{
    match name {
        [] => false,
        [_, ..] => has_name_bytes(name),
    }
}
