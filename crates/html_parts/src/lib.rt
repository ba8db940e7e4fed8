//! Parts of a page that stands alone, as octets: its head, rows of a table, and charts of points, drawn as lines of
//! SVG. A contract sees the text with the part behind it.
#![tactic(auto)]

mod chart;
mod digits;
mod page;
mod points;

pub use chart::{CHART_LEN, MAX_POINTS, TITLE_LEN, put_chart, put_numbered_title, put_title};
pub use page::{
    FOOT_LEN, HEAD_LEN, NUMBERS_LEN, ROW_LEN, put_columns, put_foot, put_head, put_note,
    put_numbers, put_row, put_table_end, put_tenths_row,
};
pub use points::{greatest, total};
