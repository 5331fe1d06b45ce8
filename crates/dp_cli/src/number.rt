// Words with a number behind them.
ghost use Rattle.std.specs.Prelude.{◌≡◌, ◌++◌, OnOk};
ghost use Rattle.dp_cli.specs.NumberTexts.{field_text, signed_field_text};

use dp_base::Memory;
use itoa::Buffer;

// Appends a word and a number.
pub fn push_number(text: &mut Vec<u8>, word: &[u8], number: u64) -> Result<(), Memory>
    ensures { OnOk result (text.new.items ≡ text.old.items ++ field_text word.now number) }
{
    let mut buffer = Buffer::new();
    text.extend_from_slice(word)?;
    text.extend_from_slice(buffer.format(number).as_bytes())?;
    Ok(())
}

// Appends a word and a number that may have a sign.
pub fn push_signed(text: &mut Vec<u8>, word: &[u8], number: i128) -> Result<(), Memory>
    ensures { OnOk result (text.new.items ≡ text.old.items ++ signed_field_text word.now number) }
{
    let mut buffer = Buffer::new();
    text.extend_from_slice(word)?;
    text.extend_from_slice(buffer.format(number).as_bytes())?;
    Ok(())
}
