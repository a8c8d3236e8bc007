//! Lines and columns.
ghost use Rattle.std.specs.Prelude.{◌≡◌};
ghost use Rattle.nl_scan.specs.Place.{line_and_column};

/// The line and the column of a byte of a text, both counted from 1; columns are bytes, lines end at `\n`, and a place
/// past the end counts as the end.
pub fn line_column(text: &[u8], place: u32) -> (u64, u64)
    ensures { result ≡ line_and_column text.now place }
{
    let end = text.len().min(place as usize);
    let before = &text[..end];
    let mut line = 1u64;
    let mut column = 1u64;
    'bytes: for byte in before {
        if *byte == b'\n' {
            line += 1;
            column = 1;
        } else {
            column += 1;
        }
    }
    (line, column)
}
