// Parts of the files: what a read of stored bytes gives, and the files with other bytes.
#![tactic(auto)]

mod filing;

pub use filing::{cut, read_stored, read_stored_iso, with_bytes};
