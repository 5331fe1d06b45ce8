//! The tokens of a model file.
#![tactic(auto)]

ghost use Rattle.std.specs.Prelude.{◌≡◌, ◌^◌, ◌≤◌, length, Ok, IfOk, IfErr};
ghost use Rattle.dp_lexer.specs.TokenLaws.{AreTokensOf};
ghost use Rattle.dp_lexer.specs.Tokens.{tokens_of, NamesFirstBadByte};

mod laws;
mod lexemes;
mod place;

pub use crate::laws::{first_bad_byte_is_named, tokens_are_of_text};
use crate::lexemes::{Class, class_of, kind_of, more_of};
pub use crate::place::{column_at, line_at};
use std::alloc::{AllocFailed, Global};

/// The kinds of tokens.
#[derive(Clone, Copy, Debug, PartialEq, Eq)]
pub enum Kind {
    /// A longest run of letters, digits and the bytes `_`, `.`, `+`, `-` that is no number.
    Word,
    /// Such a run of the decimal shape.
    Number,
    /// `:`
    Colon,
    /// `*`
    Star,
    /// A line feed.
    LineEnd,
}

/// A token of a text: its bytes are the slice `start..end`. Lines count from 1.
#[derive(Clone, Copy, Debug, PartialEq, Eq)]
pub struct Token {
    pub start: u32,
    pub end: u32,
    pub line: u32,
    pub kind: Kind,
}

/// Why a text has no tokens.
#[derive(Clone, Copy, Debug, PartialEq, Eq)]
pub enum LexFault {
    /// A byte outside comments that is neither a blank nor one of a token. Lines and columns count
    /// from 1, and columns count bytes.
    BadByte { line: u32, column: u32 },
    /// Memory ran out.
    Memory,
}

impl<T: Drop> From<AllocFailed<T>> for LexFault {
    ghost use Rattle.dp_lexer.specs.declared.LexFault.TheVariants as faults;

    ghost from_gives = { λ _ fault. fault ≡ faults.Memory };

    fn from(_: AllocFailed<T>) -> LexFault {
        LexFault::Memory
    }
}

/// The tokens of a text of at most 64 MiB, in order.
///
/// Blanks are space, tab and carriage return. A `#` begins a comment, which goes up to the next
/// line feed and may hold any bytes. Takes time and memory linear in the bytes.
///
/// `BadByte` names the first byte outside comments that is neither a blank nor one of a token.
pub fn lex(alloc: Global, bytes: &[u8]) -> Result<Vec<Token>, LexFault>
    requires { length bytes.now ≤ 2 ^ 26 }
    ensures tokens { IfOk result (λ tokens. tokens_of bytes.now ≡ Ok tokens.items) }
    ensures described { IfOk result (λ tokens. AreTokensOf bytes.now tokens.items) }
    ensures first_bad_byte { IfErr result (NamesFirstBadByte bytes.now) }
{
    let mut tokens = Vec::new(alloc);
    let mut at: usize = 0;
    let mut line: u32 = 1;
    while at < bytes.len() {
        let class = class_of(bytes[at]);
        if let Class::Bad = class {
            let column = column_at(bytes, at as u32);
            return Err(LexFault::BadByte { line, column });
        }
        let end = at + 1 + more_of(class, &bytes[at + 1..]);
        if let Some(kind) = kind_of(class, &bytes[at..end]) {
            tokens.push(Token {
                start: at as u32,
                end: end as u32,
                line,
                kind,
            })?;
        }
        if let Class::LineFeed = class {
            line += 1;
        }
        at = end;
    }
    Ok(tokens)
}

#[cfg(test)]
mod tests {
    use super::*;
    use std::process::Abort;

    fn token(start: u32, end: u32, line: u32, kind: Kind) -> Token {
        Token {
            start,
            end,
            line,
            kind,
        }
    }

    fn lexed(rt: &impl Abort, alloc: Global, text: &[u8]) -> Result<Vec<Token>, LexFault> {
        assert!(rt; text.len() <= 100);
        lex(alloc, text)
    }

    #[test]
    fn texts_with_tokens(rt: HostRuntime) {
        let rows: [(&[u8], &[Token]); 5] = [
            (b"", &[]),
            (
                b"T: a # x\n",
                &[
                    token(0, 1, 1, Kind::Word),
                    token(1, 2, 1, Kind::Colon),
                    token(3, 4, 1, Kind::Word),
                    token(8, 9, 1, Kind::LineEnd),
                ],
            ),
            (
                b"R: * : -12.5e+2\r\n+",
                &[
                    token(0, 1, 1, Kind::Word),
                    token(1, 2, 1, Kind::Colon),
                    token(3, 4, 1, Kind::Star),
                    token(5, 6, 1, Kind::Colon),
                    token(7, 15, 1, Kind::Number),
                    token(16, 17, 1, Kind::LineEnd),
                    token(17, 18, 2, Kind::Word),
                ],
            ),
            (b"#a\rb,\n", &[token(5, 6, 1, Kind::LineEnd)]),
            (
                b"a.b_c-1:1.:.",
                &[
                    token(0, 7, 1, Kind::Word),
                    token(7, 8, 1, Kind::Colon),
                    token(8, 10, 1, Kind::Number),
                    token(10, 11, 1, Kind::Colon),
                    token(11, 12, 1, Kind::Word),
                ],
            ),
        ];
        for (text, tokens) in rows {
            match lexed(&rt, rt.alloc(), text) {
                Ok(found) => assert_eq!(rt; found.as_slice(), tokens),
                Err(fault) => assert_eq!(rt; Some(fault), None),
            }
        }
    }

    #[test]
    fn texts_with_a_bad_byte(rt: HostRuntime) {
        let rows: [(&[u8], u32, u32); 6] = [
            (b"a,b", 1, 2),
            (b"# x , y\n ;", 2, 2),
            (b"a\r\n\n b\r,", 3, 4),
            (b"#,\r,\n\n\n\xff", 4, 1),
            (b"1.5 \0 ,", 1, 5),
            (b"a: {b}\n", 1, 4),
        ];
        for (text, line, column) in rows {
            match lexed(&rt, rt.alloc(), text) {
                Ok(found) => assert_eq!(rt; found.len(), 1000),
                Err(fault) => assert_eq!(rt; fault, LexFault::BadByte { line, column }),
            }
        }
    }
}
