ghost use Rattle.std.specs.Prelude.{◌≡◌, ◌<◌, ◌∷◌, length, option_copied, position, IfSome};
ghost use Rattle.gw_store.specs.Lines as lines;

use memchr::memchr;

/// The first line without its line feed, and what follows the line feed, if there is one.
pub fn first_line(text: &[u8]) -> (&[u8], Option<&[u8]>)
    ensures cut { lines.lines_of text.now ≡ result.0.now ∷ lines.lines_left (option_copied result.1) }
    ensures shorter { IfSome result.1 (λ rest. length rest.now < length text.now) }
{
    match line_end(text) {
        Some(at) => (&text[..at], Some(&text[at + 1..])),
        None => (text, None),
    }
}

fn line_end(text: &[u8]) -> Option<usize>
    ensures { result ≡ position lines.is_line_end text.now }
{
    memchr(b'\n', text)
}

/// Whether the line has nothing but spaces, tabs and carriage returns.
pub fn is_blank(line: &[u8]) -> bool
    ensures { result ≡ lines.is_blank line.now }
{
    line.iter()
        .all(|b| *b == b' ' || *b == b'\t' || *b == b'\r')
}
