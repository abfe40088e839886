ghost use Rattle.std.specs.Prelude.{◌≡◌};
ghost use Rattle.std.specs.List.{list_all};
ghost use Rattle.sf_features.specs.Names.{is_name as is_name_of, is_name_byte as is_name_byte_of};

fn is_name_byte(b: u8) -> bool
    ensures { result ≡ is_name_byte_of b }
{
    b.is_ascii_alphabetic() || b.is_ascii_digit() || b == b'_'
}

fn are_name_bytes(bytes: &[u8]) -> bool
    ensures { result ≡ list_all is_name_byte_of bytes.now }
{
    bytes.iter().all(|b| is_name_byte(*b))
}

/// Whether a text is a name: 1 to 32 ASCII letters, digits or underscores, the first of them a
/// letter.
pub fn is_name(text: &str) -> bool
    ensures { result ≡ is_name_of text.now }
{
    match text.as_bytes().split_first() {
        None => false,
        Some((first, rest)) => {
            first.is_ascii_alphabetic() && rest.len() <= 31 && are_name_bytes(rest)
        }
    }
}
