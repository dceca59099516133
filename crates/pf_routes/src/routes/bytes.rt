//! Kinds of bytes.

ghost use Rattle.std.specs.Prelude.{◌≡◌};
ghost use Rattle.std.specs.List.{list_all};
ghost use Rattle.pf_routes.specs.EdgeText.{is_gap, is_visible};

/// Whether the byte is a space or a tab.
pub(crate) fn is_gap_byte(byte: u8) -> bool
    ensures { result ≡ is_gap byte }
{
    byte == b' ' || byte == b'\t'
}

/// Whether the byte lies between `!` and `~`.
pub(crate) fn is_visible_byte(byte: u8) -> bool
    ensures { result ≡ is_visible byte }
{
    b'!' <= byte && byte <= b'~'
}

/// Whether all of the bytes lie between `!` and `~`.
pub(crate) fn are_visible(bytes: &[u8]) -> bool
    ensures { result ≡ list_all is_visible bytes.now }
{
    bytes.iter().all(|byte| is_visible_byte(*byte))
}
