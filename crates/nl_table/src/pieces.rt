//! Bytes, cut into pieces behind the line feeds that stand outside of quotes.
ghost use Rattle.std.specs.Prelude.{◌≡◌, ◌≤◌, ◌+◌, drop, length, option_map};
ghost use Rattle.nl_table.specs.Pieces.{first_end};

/// The place behind the first line feed, from a place on, that has an even number of quotes between that place and itself. None where there
/// is no such line feed.
pub fn piece_end(rest: &[u8], from: usize) -> Option<usize>
    requires { from ≤ length rest.now }
    ensures { result ≡ option_map (λ end. from + end) (first_end (drop from rest.now)) }
{
    let mut outside = true;
    for place in from..rest.len() {
        let byte = rest[place];
        if byte == b'"' {
            outside = !outside;
        } else if outside && byte == b'\n' {
            return Some(place + 1);
        }
    }
    None
}
