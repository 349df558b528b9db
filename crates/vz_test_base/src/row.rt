//! Rows of the table: a kind, what is given, and what is expected of it behind ` => `.
use crate::{devices, files, holds, logs, pixels, words};

/// The first of these rows of which something else comes than is expected.
pub fn first_other<'t>(rt: &HostRuntime, rows: &'t str) -> Option<&'t str> {
    for row in rows.lines() {
        if !is_as_expected(rt, row) {
            return Some(row);
        }
    }
    None
}

/// Whether of a row comes what is expected.
fn is_as_expected(rt: &HostRuntime, row: &str) -> bool {
    let (front, expected) = row.split_once(" => ").unwrap_or((row, ""));
    let (kind, given) = front.split_once(' ').unwrap_or((front, ""));
    let alloc = rt.alloc();
    match kind {
        "file" => files::is_read(alloc, given, expected),
        "holds" => holds::are(alloc, given, expected),
        "frame" => files::is_tested(alloc, given, expected),
        "log" => logs::is_read(alloc, given, expected),
        "words" => words::are(alloc, given, expected),
        "pixels" => pixels::are_laid(alloc, given, expected),
        "block" => pixels::is_shared(alloc, given, expected),
        "shelf" => devices::gives_back(rt, given, expected),
        "prints" => devices::prints(rt, expected),
        "error" => devices::error_reads(alloc, given, expected),
        _ => false,
    }
}
