//! What the text of a model file says.
use crate::{Header, Statement};
use dp_model::Sequence;

/// The header of a model file, and its statements in order.
#[derive(Drop)]
pub struct Text {
    pub header: Header,
    pub statements: Sequence<Statement>,
}
