//! Models that are written: texts of model files and of model tables, and models that are made from a seed.
#![tactic(auto)]

mod decimals;
mod draws;
mod fault;
mod header;
mod laws;
mod limited;
mod lists;
mod made;
mod model_text;
mod needs;
mod rewards;
mod row_text;
mod rows;
mod sizes;
mod statements;
mod table_head;
mod table_rows;
mod table_text;

pub use fault::MakeFault;
pub use laws::{
    said_texts_read_back, written_chances_read_back, written_models_read_back,
    written_rewards_read_back, written_rows_need_no_repair, written_scales_have_room,
};
pub use made::make_model;
pub use model_text::write_model;
pub use needs::writable;
pub use sizes::MakeSize;
pub use table_text::write_table;
