ghost use Rattle.std.specs.Prelude.{◌≡◌, ◌==◌};
ghost use Rattle.std.specs.List.{position};
ghost use Rattle.sf_text_lines.specs.Lines.{without_return as without_return_of};

/// The place of the first line feed.
pub fn line_feed(bytes: &[u8]) -> Option<usize>
    ensures { result ≡ position (λ byte. byte == 10) bytes.now }
{
    bytes.iter().position(|byte| *byte == b'\n')
}

/// The bytes without a carriage return at their end.
pub fn without_return(bytes: &[u8]) -> &[u8]
    ensures { result.now ≡ without_return_of bytes.now }
{
    match bytes.split_last() {
        Some((last, prefix)) if *last == b'\r' => prefix,
        _ => bytes,
    }
}
