//! Where a byte of a text stands.
ghost use Rattle.std.specs.Prelude.{◌≡◌, ◌≤◌, ◌^◌, ◌+◌, length, take, count_by};
ghost use Rattle.std.specs.List.{suffix_len};
ghost use Rattle.dp_lexer.specs.Bytes as bytes;

/// The line of the byte at an offset, counted from 1. Behind the text is the end of it.
pub fn line_at(text: &[u8], at: u32) -> u32
    requires { length text.now ≤ 2 ^ 26 }
    ensures { result ≡ bytes.line_at text.now at }
{
    1 + line_feeds(before(text, at))
}

fn line_feeds(text: &[u8]) -> u32
    requires { length text.now ≤ 2 ^ 26 }
    ensures is { result ≡ count_by bytes.is_line_feed text.now }
    ensures within { result ≤ length text.now }
{
    let mut count = 0;
    for byte in text {
        if *byte == b'\n' {
            count += 1;
        }
    }
    count
}

/// The column of the byte at an offset, counted from 1 in bytes. Behind the text is the end of it.
pub fn column_at(text: &[u8], at: u32) -> u32
    requires { length text.now ≤ 2 ^ 26 }
    ensures { result ≡ bytes.column_at text.now at }
{
    1 + last_line_len(before(text, at)) as u32
}

/// How many bytes stand after the last line feed.
fn last_line_len(text: &[u8]) -> usize
    ensures is { result ≡ suffix_len bytes.is_no_line_feed text.now }
    ensures within { result ≤ length text.now }
{
    text.iter().rev().take_while(|b| **b != b'\n').count()
}

/// What stands before an offset.
fn before(text: &[u8], at: u32) -> &[u8]
    ensures is { result.now ≡ take at text.now }
    ensures within { length result.now ≤ length text.now }
{
    match text.get(..at as usize) {
        Some(front) => front,
        None => text,
    }
}
