//! The page of a session's figures: a capture's records are counted, and one page of HTML is written at the end, which
//! stands alone. A contract sees the text of the page, by the figures of the history that the records are.
#![tactic(auto)]

mod charts;
mod link_table;
mod page;
mod page_writer;
mod reporting;
mod rows;

pub use page::{PAGE_LEN, put_page};
pub use page_writer::PageWriter;
pub use reporting::report;
