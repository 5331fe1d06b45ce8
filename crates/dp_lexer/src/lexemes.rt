//! What begins at a byte: a run, a comment, or a single byte.
ghost use Rattle.std.specs.Prelude.{◌≡◌, ◌+◌, ◌^◌, ◌≤◌, length};
ghost use Rattle.std.specs.List.{prefix_len};
ghost use Rattle.dp_base.specs.Bytes as num;
ghost use Rattle.dp_lexer.specs.Bytes as bytes;
ghost use Rattle.dp_lexer.specs.Tokens as tokens;

use crate::Kind;
use dp_base::is_decimal;

/// What begins at a byte that stands in no comment and in no run.
#[derive(Clone, Copy)]
pub(crate) enum Class {
    Blank,
    Comment,
    LineFeed,
    Run,
    Mark(Kind),
    Bad,
}

pub(crate) fn class_of(byte: u8) -> Class
    ensures { result ≡ tokens.class_of byte }
{
    match byte {
        b' ' | b'\t' | b'\r' => Class::Blank,
        b'\n' => Class::LineFeed,
        b'#' => Class::Comment,
        b':' => Class::Mark(Kind::Colon),
        b'*' => Class::Mark(Kind::Star),
        _ if is_name_byte(byte) => Class::Run,
        _ => Class::Bad,
    }
}

fn is_name_byte(byte: u8) -> bool
    ensures { result ≡ num.is_name_byte byte }
{
    matches!(byte, b'a'..=b'z' | b'A'..=b'Z' | b'0'..=b'9' | b'_' | b'.' | b'+' | b'-')
}

fn run_len(rest: &[u8]) -> usize
    ensures is { result ≡ prefix_len num.is_name_byte rest.now }
    ensures within { result ≤ length rest.now }
{
    rest.iter().take_while(|b| is_name_byte(**b)).count()
}

fn comment_len(rest: &[u8]) -> usize
    ensures is { result ≡ prefix_len bytes.is_no_line_feed rest.now }
    ensures within { result ≤ length rest.now }
{
    rest.iter().take_while(|b| **b != b'\n').count()
}

/// How many of the bytes that follow belong to what begins at a byte of this class.
pub(crate) fn more_of(class: Class, rest: &[u8]) -> usize
    ensures is { result ≡ tokens.more_of class rest.now }
    ensures within { result ≤ length rest.now }
{
    match class {
        Class::Run => run_len(rest),
        Class::Comment => comment_len(rest),
        _ => 0,
    }
}

/// Which token such a text is, if it is one.
pub(crate) fn kind_of(class: Class, text: &[u8]) -> Option<Kind>
    ensures { result ≡ tokens.kind_of class text.now }
{
    match class {
        Class::Run => Some(if is_decimal(text) {
            Kind::Number
        } else {
            Kind::Word
        }),
        Class::LineFeed => Some(Kind::LineEnd),
        Class::Mark(kind) => Some(kind),
        _ => None,
    }
}
