ghost use Rattle.std.specs.Prelude.{◌≡◌};
ghost use Rattle.dp_meaning.specs.Faults.{why_word};

/// What is wrong at a place of a model file.
#[derive(Clone, Copy, Debug, PartialEq, Eq)]
pub enum Why {
    /// A byte outside comments that stands in no token and is no blank.
    BadByte,
    /// Something else is required here.
    Expected,
    /// A name or an index that is not in its list.
    UnknownName,
    /// A name that its list already has.
    DoubleName,
    /// A number that is outside its range, or has too many fraction digits.
    Number,
    /// A row of chances whose sum is too far from 1 to be repaired.
    RowSum,
    /// A row of chances of which no statement covers a cell.
    MissingRow,
    /// An entry of the header that comes twice or too early, or is missing.
    Header,
}

impl Why {
    /// The fault's word in a printed line.
    pub fn word(self) -> &'static str
        ensures { result.now ≡ why_word self }
    {
        match self {
            Why::BadByte => "bad-byte",
            Why::Expected => "expected",
            Why::UnknownName => "unknown-name",
            Why::DoubleName => "double-name",
            Why::Number => "number",
            Why::RowSum => "row-sum",
            Why::MissingRow => "missing-row",
            Why::Header => "header",
        }
    }
}

/// What is wrong with a text, and the offset at which it is.
#[derive(Clone, Copy, Debug, PartialEq, Eq)]
pub struct Fault {
    pub at: u32,
    pub why: Why,
}
