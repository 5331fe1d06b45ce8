//! A text within its limits.
ghost use Rattle.std.specs.Prelude.{◌≡◌, ◌<◌, ◌≤◌, None, IfOk};
ghost use Rattle.std.specs.Result.{result_err};
ghost use Rattle.dp_spec.specs.Model.{AreScales};
ghost use Rattle.dp_meaning.specs.Limits.{passed_limit};
ghost use Rattle.dp_meaning.specs.Meaning.{IsSaid};
ghost use Rattle.dp_meaning.specs.Scales.{scales_of};
ghost use Rattle.dp_meaning.specs.Text.{joint_actions_in, joint_observations_in, states_in};
ghost use Rattle.dp_tables.specs.Tables.{row_length, scale_in};

use crate::limits::bounds_of;
use crate::sizes::JointSizes;
use dp_meaning::{Header, Statement, Table, Text};
use dp_model::TooLarge;
use dp_spec::Scales;

/// The text of a model file that passes no limit, with its sizes and its scales.
///
/// Contracts see the text, and the length of the file.
#[derive(Drop)]
pub struct BoundedText {
    text: Text,
    sizes: JointSizes,
    scales: Scales,
    end: u32,
}

impl std::marker::Model for BoundedText {
    ghost use Rattle.dp_tables.specs.Bounded.{FileText, IsBounded};

    ghost Value = { FileText };

    ghost view = { λ b. record { text = b.text; end = b.end } };

    ghost invariant = { λ b. IsBounded b.text b.sizes b.scales };
}

impl BoundedText {
    /// The text of a file of this length, or the first limit that it passes, with the count that
    /// passes it. The limits on sizes come first, then those on cells, on reward statements and on
    /// scales. It takes no memory.
    pub fn of(text: Text, end: u32) -> Result<BoundedText, TooLarge>
        requires { IsSaid text }
        ensures passed { passed_limit text ≡ result_err result }
        ensures is { IfOk result (λ bounded. bounded ≡ record { text = text; end = end }) }
    {
        let (sizes, scales) = bounds_of(&text)?;
        Ok(BoundedText {
            text,
            sizes,
            scales,
            end,
        })
    }

    /// What holds of every text within its limits. It does nothing.
    pub fn invariant(&self)
        ensures said { IsSaid self.now.text }
        ensures within { passed_limit self.now.text ≡ None }
    {
        let _ = &self.end;
    }

    /// The header.
    pub fn header(&self) -> &Header
        ensures { result.now ≡ self.now.text.header }
    {
        &self.text.header
    }

    /// The header alone.
    pub fn into_header(self) -> Header
        ensures { result ≡ self.text.header }
    {
        self.text.header
    }

    /// The statements in order.
    pub(crate) fn statements(&self) -> &[Statement]
        ensures { result.now ≡ self.now.text.statements }
    {
        self.text.statements.as_slice()
    }

    /// The length of the file.
    pub(crate) fn end(&self) -> u32
        ensures { result ≡ self.now.end }
    {
        self.end
    }

    /// The scales.
    pub fn scales(&self) -> Scales
        ensures is { result ≡ scales_of self.now.text }
        ensures scales { AreScales result }
    {
        self.scales
    }

    /// The scale of a table.
    pub(crate) fn scale(&self, table: Table) -> u64
        ensures is { result ≡ scale_in self.now.text table }
        ensures some { 0 < result }
    {
        let scales = self.scales();
        match table {
            Table::Trans => scales.trans,
            Table::Obs => scales.obs,
            Table::Reward => scales.reward,
        }
    }

    /// How many states there are.
    pub(crate) fn states(&self) -> u32
        ensures is { result ≡ states_in self.now.text }
        ensures limit { result ≤ 256 }
    {
        self.sizes.states
    }

    /// How many joint actions there are.
    pub(crate) fn joint_actions(&self) -> u32
        ensures is { result ≡ joint_actions_in self.now.text }
        ensures limit { result ≤ 256 }
    {
        self.sizes.joint_actions
    }

    /// How many joint observations there are.
    pub(crate) fn joint_observations(&self) -> u32
        ensures is { result ≡ joint_observations_in self.now.text }
        ensures limit { result ≤ 256 }
    {
        self.sizes.joint_observations
    }

    /// How many cells the last axis of a table has.
    pub(crate) fn row_len(&self, table: Table) -> u32
        ensures is { result ≡ row_length self.now.text table }
        ensures limit { result ≤ 256 }
    {
        match table {
            Table::Trans => self.sizes.states,
            Table::Obs | Table::Reward => self.sizes.joint_observations,
        }
    }
}
