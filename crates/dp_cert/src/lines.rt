//! The lines of a text, read one after the other.
ghost use Rattle.std.specs.Prelude.{◌≡◌, ℕ, List, [], ◌∷◌, ◌+◌, ◌^◌, ◌<◌, ◌≤◌, cond, length, map, pos, IfOk};
ghost use Rattle.std.specs.List.{join_with_byte};
ghost use Rattle.dp_spec.specs.TextLines.{fixed, plain, signed};
ghost use Rattle.dp_lines.specs.Forms.{AreInRange};
ghost use Rattle.dp_lines.specs.Lines.{AreWords, fixed_form, plain_form};
ghost use Rattle.dp_lines.specs.Scanning.{front_of};
ghost use Rattle.dp_lines.specs.Steps.{one_of, the_numbers, the_words};
ghost use Rattle.dp_cert.specs.Reading.{Gives};
ghost use Rattle.dp_lines.specs.Reading.{rest_at};

use crate::CertFault;
use dp_lines::{LineFault, PlainRange, fixed_line, plain_line, plain_row, signed_line};
use std::alloc::Global;

/// The lines from one on.
#[derive(Clone, Copy)]
pub(crate) struct Lines<'a> {
    /// The number of the next line.
    pub line: u32,
    /// The bytes from there on.
    pub rest: &'a [u8],
    ghost numbered: { line + length rest.now < 2 ^ 32 },
}

impl<'a> Lines<'a> {
    /// The lines behind the next one.
    pub(crate) fn after(self, rest: &'a [u8]) -> Lines<'a>
        requires { length rest.now < length self.rest.now }
        ensures line { result.line ≡ self.entry.line + 1 }
        ensures rest { result.rest.now ≡ rest.entry.now }
    {
        Lines {
            line: self.line + 1,
            rest,
        }
    }
}

/// The lines after one of fixed words.
pub(crate) fn words<'a>(from: Lines<'a>, text: &[u8]) -> Result<Lines<'a>, CertFault>
    ensures { (ws : List (List ℕ)) → AreWords ws → text.now ≡ join_with_byte 32 ws →
        Gives (λ to. rest_at tt to.line to.rest.now) result
        (front_of (the_words ws) from.entry.line from.entry.rest.now) }
{
    match fixed_line(text, from.rest) {
        Ok(rest) => Ok(from.after(rest)),
        Err(LineFault::Bad(why)) => Err(CertFault::At {
            line: from.line,
            why,
        }),
        Err(LineFault::Memory) => Err(CertFault::Memory),
    }
}

/// Whether the next line has the first of two texts of fixed words, and not the second, and the lines after it.
pub(crate) fn one_of<'a>(
    from: Lines<'a>,
    first: &[u8],
    second: &[u8],
) -> Result<(bool, Lines<'a>), CertFault>
    ensures { (ws vs : List (List ℕ)) → AreWords ws → AreWords vs →
        first.now ≡ join_with_byte 32 ws → second.now ≡ join_with_byte 32 vs →
        Gives (λ x. rest_at (cond x.0 0 1) x.1.line x.1.rest.now) result
        (front_of (one_of (fixed_form ws) (fixed_form vs)) from.entry.line from.entry.rest.now) }
{
    match fixed_line(first, from.rest) {
        Ok(rest) => Ok((true, from.after(rest))),
        Err(LineFault::Bad(_)) => match fixed_line(second, from.rest) {
            Ok(rest) => Ok((false, from.after(rest))),
            Err(LineFault::Bad(why)) => Err(CertFault::At {
                line: from.line,
                why,
            }),
            Err(LineFault::Memory) => Err(CertFault::Memory),
        },
        Err(LineFault::Memory) => Err(CertFault::Memory),
    }
}

/// The numbers of a line of a word and plain numbers, and the lines after it.
pub(crate) fn numbers<'a>(
    alloc: Global,
    from: Lines<'a>,
    word: &[u8],
    ranges: &[PlainRange],
) -> Result<(Vec<u32>, Lines<'a>), CertFault>
    ensures gives { Gives (λ x. rest_at (map pos x.0.items) x.1.line x.1.rest.now) result
        (front_of (the_numbers (fixed word.now ∷ plain_form ranges.now)) from.entry.line from.entry.rest.now) }
    ensures count { IfOk result (λ x. length x.0.items ≡ length ranges.now) }
    ensures inside { IfOk result (λ x. AreInRange (fixed word.now ∷ plain_form ranges.now) (map pos x.0.items)) }
{
    match plain_line(alloc, word, from.rest, ranges) {
        Ok((numbers, rest)) => Ok((numbers, from.after(rest))),
        Err(LineFault::Bad(why)) => Err(CertFault::At {
            line: from.line,
            why,
        }),
        Err(LineFault::Memory) => Err(CertFault::Memory),
    }
}

/// The numbers of a line of plain numbers, and the lines after it.
pub(crate) fn row<'a>(
    alloc: Global,
    from: Lines<'a>,
    ranges: &[PlainRange],
) -> Result<(Vec<u32>, Lines<'a>), CertFault>
    ensures gives { Gives (λ x. rest_at (map pos x.0.items) x.1.line x.1.rest.now) result
        (front_of (the_numbers (plain_form ranges.now)) from.entry.line from.entry.rest.now) }
    ensures count { IfOk result (λ x. length x.0.items ≡ length ranges.now) }
{
    match plain_row(alloc, from.rest, ranges) {
        Ok((numbers, rest)) => Ok((numbers, from.after(rest))),
        Err(LineFault::Bad(why)) => Err(CertFault::At {
            line: from.line,
            why,
        }),
        Err(LineFault::Memory) => Err(CertFault::Memory),
    }
}

/// The number of a line of a word and a number with a sign, and the lines after it.
pub(crate) fn with_sign<'a>(from: Lines<'a>, word: &[u8]) -> Result<(i128, Lines<'a>), CertFault>
    ensures { Gives (λ x. rest_at (x.0 ∷ []) x.1.line x.1.rest.now) result
        (front_of (the_numbers (fixed word.now ∷ signed ∷ [])) from.entry.line from.entry.rest.now) }
{
    match signed_line(word, from.rest) {
        Ok((number, rest)) => Ok((number, from.after(rest))),
        Err(LineFault::Bad(why)) => Err(CertFault::At {
            line: from.line,
            why,
        }),
        Err(LineFault::Memory) => Err(CertFault::Memory),
    }
}

/// The number of a line of a word and one plain number, and the lines after it.
pub(crate) fn number<'a>(
    alloc: Global,
    from: Lines<'a>,
    word: &[u8],
    range: PlainRange,
) -> Result<(u32, Lines<'a>), CertFault>
    ensures gives { Gives (λ x. rest_at (pos x.0 ∷ []) x.1.line x.1.rest.now) result
        (front_of (the_numbers (fixed word.now ∷ plain range.low range.high ∷ []))
        from.entry.line from.entry.rest.now) }
    ensures inside { IfOk result (λ x. (range.low ≤ x.0) × (x.0 ≤ range.high)) }
{
    match plain_line(alloc, word, from.rest, &[range]) {
        Ok((all, rest)) => Ok((all[0], from.after(rest))),
        Err(LineFault::Bad(why)) => Err(CertFault::At {
            line: from.line,
            why,
        }),
        Err(LineFault::Memory) => Err(CertFault::Memory),
    }
}
