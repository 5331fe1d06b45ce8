//! Certificates, and their texts.
#![tactic(auto)]

mod certificate;
mod fault;
mod fits;
mod head;
mod laws;
mod lines;
mod plain_text;
mod ranges;
mod read;
mod shared_text;
mod tree_text;
mod write;

pub use certificate::Certificate;
pub use dp_lines::FileWhy;
pub use fault::CertFault;
pub use laws::{certificate_texts_have_one_answer, certificate_texts_say_their_certificates};
pub use read::read_cert;
pub use write::write_cert;
