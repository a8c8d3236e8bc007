//! The part of a file that is code.
ghost use Rattle.std.specs.Prelude.{◌≡◌, ◌≤◌, length, take};
ghost use Rattle.std.specs.Str.{bytes_eq};
ghost use Rattle.nl_scan.specs.CodePart.{code_of, section_line};

use crate::pieces::line_len;

// Whether a line is the one that ends the code.
fn is_section(line: &[u8]) -> bool
    ensures { result ≡ bytes_eq line.now section_line }
{
    line == b"@#$#@#$#@".as_slice()
}

/// The code of a file: all before its first line that is exactly `@#$#@#$#@`, or the whole file. In a `.nlogo` file the
/// widgets and other sections stand behind that line. A line ends at `\n` alone, so one with a `\r` doesn't end the code.
pub fn code_part(file: &[u8]) -> &[u8]
    ensures is { result.now ≡ code_of file.now }
    ensures front { result.now ≡ take (length result.now) file.now }
    ensures within { length result.now ≤ length file.now }
{
    let mut at = 0;
    'lines: while at < file.len() {
        let rest = &file[at..];
        let len = line_len(rest);
        if is_section(&rest[..len]) {
            return &file[..at];
        }
        at = file.len().min(at + len + 1);
    }
    file
}
