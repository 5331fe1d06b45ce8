//! The text of a model file, whole.
ghost use Rattle.std.specs.Prelude.{◌≤◌, ◌^◌, length};
ghost use Rattle.dp_lexer.specs.TokenLaws.{AreTokensOf};
ghost use Rattle.dp_meaning.specs.Meaning.{text_of};
ghost use Rattle.dp_text.specs.Reading.{Reads};
ghost use Rattle.dp_text.specs.TextSteps.{text_of_items};

use crate::fault::TextFault;
use crate::header::read_header;
use crate::statements::read_statements;
use dp_items::Document;
use dp_lexer::Token;
use dp_meaning::Text;
use std::alloc::Global;

#[tactic(auto, unfolding(crate::specs::TextSteps::text_of_items))]
fn read_items(alloc: Global, document: &Document) -> Result<Text, TextFault>
    ensures { Reads (text_of_items document.now) result }
{
    document.no_lines_before()?;
    let (header, from) = read_header(alloc, document)?;
    let statements = read_statements(alloc, document, from, &header)?;
    Ok(Text { header, statements })
}

/// What a model file of at most 64 MiB that has these tokens says: its header and its statements.
///
/// `At` names the first fault of the text and its offset, as it is read from its beginning to its end.
/// Takes memory linear in the bytes.
pub fn read_text(alloc: Global, bytes: &[u8], tokens: &[Token]) -> Result<Text, TextFault>
    requires limit { length bytes.now ≤ 2 ^ 26 }
    requires tokens { AreTokensOf bytes.now tokens.now }
    ensures { Reads (text_of bytes.now) result }
{
    let document = Document::of(alloc, bytes, tokens)?;
    read_items(alloc, &document)
}
