//! A page's head, the rows of its table, and its foot.
ghost use Rattle.std.specs.Prelude.{◌≡◌, ◌≤◌, ◌+◌, length, take};
ghost use Rattle.html_parts.specs.Page.{with_head, with_row, with_tenths_row, with_name, with_columns, with_cell, with_numbers, with_note, with_table_end, with_foot};

use crate::digits::{put_grouped, put_number, put_tenths};
use octet_fields::put_at;

/// How many octets the head has at most.
pub const HEAD_LEN: usize = 700;

/// How many octets a row has at most beside its three texts.
pub const ROW_LEN: usize = 110;

/// How many octets a row of four numbers has at most.
pub const NUMBERS_LEN: usize = 220;

/// How many octets the foot has at most, and the end of the table.
pub const FOOT_LEN: usize = 64;

/// Puts the head of a page to its place, up to where the rows of its table begin, and says where it ends.
pub fn put_head(out: &mut [u8], at: usize) -> usize
    requires room { at + HEAD_LEN ≤ length out.old }
    ensures octets { take result out.new ≡ with_head (take at out.old) }
    ensures within { result ≤ at + HEAD_LEN }
{
    let at = put_at(
        out,
        at,
        b"<!DOCTYPE html>\n<html lang=en><head><meta charset=utf-8><meta name=viewport content='width=device-width'>\n",
    );
    let at = put_at(
        out,
        at,
        b"<title>RIST session</title><style>body{font-family:sans-serif;max-width:60em;margin:auto;padding:1em}\n",
    );
    let at = put_at(
        out,
        at,
        b"th,td{text-align:left;vertical-align:top;padding:.2em .8em .2em 0}th+td{text-align:right}\n",
    );
    let at = put_at(
        out,
        at,
        b"svg{box-sizing:border-box;width:100%;height:8em;padding:6px;border:1px solid #999;overflow:visible}\n",
    );
    let at = put_at(
        out,
        at,
        b"table{margin-bottom:1em}path{fill:none;stroke:#000;vector-effect:non-scaling-stroke}\n",
    );
    put_at(
        out,
        at,
        b"section{break-inside:avoid}</style></head><body><h1>RIST session</h1><table>\n",
    )
}

/// Puts a row of the table to its place: a name, a number with commas between groups of three digits, its unit, and the
/// rule that it is counted by.
pub fn put_row(out: &mut [u8], at: usize, name: &str, number: u64, unit: &str, rule: &str) -> usize
    requires room { at + length name.now + length unit.now + length rule.now + ROW_LEN ≤ length out.old }
    ensures octets { take result out.new ≡ with_row (take at out.old) name.now number unit.now rule.now }
    ensures within { result ≤ at + length name.now + length unit.now + length rule.now + ROW_LEN }
{
    let at = put_at(out, at, b"<tr><th>");
    let at = put_at(out, at, name.as_bytes());
    let at = put_at(out, at, b"</th><td>");
    let at = put_grouped(out, at, number);
    let at = put_at(out, at, b"</td><td>");
    let at = put_at(out, at, unit.as_bytes());
    let at = put_at(out, at, b"</td><td>");
    let at = put_at(out, at, rule.as_bytes());
    put_at(out, at, b"</td></tr>\n")
}

/// Puts a row as `put_row` does, of a number of tenths.
pub fn put_tenths_row(
    out: &mut [u8],
    at: usize,
    name: &str,
    tenths: u64,
    unit: &str,
    rule: &str,
) -> usize
    requires room { at + length name.now + length unit.now + length rule.now + ROW_LEN ≤ length out.old }
    ensures octets { take result out.new ≡ with_tenths_row (take at out.old) name.now tenths unit.now rule.now }
    ensures within { result ≤ at + length name.now + length unit.now + length rule.now + ROW_LEN }
{
    let at = put_at(out, at, b"<tr><th>");
    let at = put_at(out, at, name.as_bytes());
    let at = put_at(out, at, b"</th><td>");
    let at = put_tenths(out, at, tenths);
    let at = put_at(out, at, b"</td><td>");
    let at = put_at(out, at, unit.as_bytes());
    let at = put_at(out, at, b"</td><td>");
    let at = put_at(out, at, rule.as_bytes());
    put_at(out, at, b"</td></tr>\n")
}

/// Puts a sentence of a number between two texts.
pub fn put_note(out: &mut [u8], at: usize, before: &str, number: u64, after: &str) -> usize
    requires room { at + length before.now + length after.now + 40 ≤ length out.old }
    ensures octets { take result out.new ≡ with_note (take at out.old) before.now number after.now }
    ensures within { result ≤ at + length before.now + length after.now + 40 }
{
    let at = put_at(out, at, b"<p>");
    let at = put_at(out, at, before.as_bytes());
    let at = put_number(out, at, number);
    let at = put_at(out, at, after.as_bytes());
    put_at(out, at, b"</p>\n")
}

/// Puts where a table of numbers begins: the names of its four columns.
pub fn put_columns(
    out: &mut [u8],
    at: usize,
    first: &str,
    second: &str,
    third: &str,
    fourth: &str,
) -> usize
    requires room { at + length first.now + length second.now + length third.now + length fourth.now + 100
        ≤ length out.old }
    ensures octets { take result out.new
        ≡ with_columns (take at out.old) first.now second.now third.now fourth.now }
    ensures within { result ≤ at + length first.now + length second.now + length third.now + length fourth.now + 100 }
{
    let at = put_at(out, at, b"<table>\n<tr>");
    let at = put_name(out, at, first);
    let at = put_name(out, at, second);
    let at = put_name(out, at, third);
    let at = put_name(out, at, fourth);
    put_at(out, at, b"</tr>\n")
}

// The name of a column.
fn put_name(out: &mut [u8], at: usize, name: &str) -> usize
    requires room { at + length name.now + 9 ≤ length out.old }
    ensures octets { take result out.new ≡ with_name (take at out.old) name.now }
    ensures within { result ≤ at + length name.now + 9 }
{
    let at = put_at(out, at, b"<th>");
    let at = put_at(out, at, name.as_bytes());
    put_at(out, at, b"</th>")
}

/// Puts a row of four numbers.
pub fn put_numbers(
    out: &mut [u8],
    at: usize,
    first: u64,
    second: u64,
    third: u64,
    fourth: u64,
) -> usize
    requires room { at + NUMBERS_LEN ≤ length out.old }
    ensures octets { take result out.new ≡ with_numbers (take at out.old) first second third fourth }
    ensures within { result ≤ at + NUMBERS_LEN }
{
    let at = put_at(out, at, b"<tr>");
    let at = put_cell(out, at, first);
    let at = put_cell(out, at, second);
    let at = put_cell(out, at, third);
    let at = put_cell(out, at, fourth);
    put_at(out, at, b"</tr>\n")
}

// A number in a cell of its own.
fn put_cell(out: &mut [u8], at: usize, number: u64) -> usize
    requires room { at + 49 ≤ length out.old }
    ensures octets { take result out.new ≡ with_cell (take at out.old) number }
    ensures within { result ≤ at + 49 }
{
    let at = put_at(out, at, b"<td>");
    let at = put_grouped(out, at, number);
    put_at(out, at, b"</td>")
}

/// Puts the end of the table to its place.
pub fn put_table_end(out: &mut [u8], at: usize) -> usize
    requires room { at + FOOT_LEN ≤ length out.old }
    ensures octets { take result out.new ≡ with_table_end (take at out.old) }
    ensures within { result ≤ at + FOOT_LEN }
{
    put_at(out, at, b"</table>\n")
}

/// Puts the foot of a page to its place.
pub fn put_foot(out: &mut [u8], at: usize) -> usize
    requires room { at + FOOT_LEN ≤ length out.old }
    ensures octets { take result out.new ≡ with_foot (take at out.old) }
    ensures within { result ≤ at + FOOT_LEN }
{
    put_at(out, at, b"</body></html>\n")
}
