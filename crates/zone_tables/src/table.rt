// The rows of a file's table: a second and an offset, parted by a tab.
use anyhow::Context;
use std::alloc::Global;

// What a table says of a second.
#[derive(Clone, Copy)]
pub struct Row {
    pub second: i64,
    pub offset: i32,
}

// Whether a line is a row, and not a comment.
pub(crate) fn is_row(line: &str) -> bool {
    !line.starts_with('#')
}

fn read_row(line: &str) -> Option<Row> {
    let (second, offset) = line.split_once('\t')?;
    Some(Row {
        second: second.parse::<i64>().ok()?,
        offset: offset.parse::<i32>().ok()?,
    })
}

// The rows of a table, in its order; a row that doesn't read is an error.
pub(crate) fn read_rows(alloc: Global, table: &str) -> anyhow::Result<Vec<Row>> {
    let mut rows = Vec::new(alloc);
    for line in table.lines().filter(|line| is_row(line)) {
        let row = read_row(line).context(format_args!("the row {line:?} doesn't read"))?;
        rows.push(row)?;
    }
    Ok(rows)
}
