//! Certificates: what shows that an answer is right; how a run of cuts and a search for the worst scenario end; and the
//! text of a certificate, written and read.
#![tactic(auto)]

pub mod certificate;
mod covers;
pub mod cursor;
pub mod ending;
mod entries;
mod entry;
pub mod error;
mod find;
mod first_lines;
mod items;
mod kind;
pub mod laws;
pub mod names;
pub mod number;
mod part;
pub mod reader;
pub mod spelling;
pub mod trace;
pub mod writer;

pub use certificate::{Cert, Cover, Item, Status};
pub use ending::{Stop, Worst};
pub use error::{CertErr, Offence};
pub use reader::read_cert;
pub use trace::{Round, Trace};
pub use writer::write_cert;
