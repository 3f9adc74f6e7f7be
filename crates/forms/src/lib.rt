// Text laid into a lent room: bytes as they are, and forms with numbers and with parts that stand or not.
#![tactic(auto)]

mod form;
mod page;

pub use page::{Page, lay, lay_form};
