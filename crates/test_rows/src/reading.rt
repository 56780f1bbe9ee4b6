//! Reading rows out of TOML files.
use crate::row::{Entry, Row};
use std::alloc::{AllocError, Global};
use std::rt::Files;
use std::{fs, io};
use thiserror::Error;
use toml::{Table, Value};

/// Why rows were not read.
#[derive(Debug, Drop, Error)]
pub enum RowsFault {
    /// The file can't be read.
    #[error("the file can't be read")]
    File,
    /// The text is no TOML, or has no list `row` of tables.
    #[error("the file holds no rows")]
    NoRows,
    #[error("out of memory")]
    NoMemory,
}

impl From<AllocError> for RowsFault {
    fn from(_: AllocError) -> Self {
        RowsFault::NoMemory
    }
}

impl From<io::Error> for RowsFault {
    fn from(_: io::Error) -> Self {
        RowsFault::File
    }
}

/// The rows of the named file.
pub fn read_rows<R: Files + Alloc<A = Global>>(
    rt: &R,
    alloc: Global,
    file: &str,
) -> Result<Vec<Row>, RowsFault> {
    let text = fs::read_to_string(rt, file)?;
    rows_of(alloc, text.as_str())
}

/// The rows of a TOML text.
pub fn rows_of(alloc: Global, text: &str) -> Result<Vec<Row>, RowsFault> {
    match toml::table_from_str(alloc, text) {
        Ok(table) => rows_of_table(alloc, &table),
        Err(_) => Err(RowsFault::NoRows),
    }
}

// The rows of a document.
fn rows_of_table(alloc: Global, table: &Table) -> Result<Vec<Row>, RowsFault> {
    let Some(list) = table.get("row").and_then(Value::as_array) else {
        return Err(RowsFault::NoRows);
    };
    let mut rows = Vec::new(alloc);
    for value in list.iter() {
        let Some(row) = value.as_table() else {
            return Err(RowsFault::NoRows);
        };
        let row = row_of(alloc, row)?;
        push_row(&mut rows, row)?;
    }
    Ok(rows)
}

// Puts a row behind the others.
fn push_row(rows: &mut Vec<Row>, row: Row) -> Result<(), AllocError> {
    rows.push(row)?;
    Ok(())
}

// The row that a table stands for.
fn row_of(alloc: Global, table: &Table) -> Result<Row, AllocError> {
    let mut row = Row {
        name: String::from_str(alloc, name_of(table))?,
        entries: Vec::new(alloc),
    };
    for (key, value) in table.iter() {
        add_value(alloc, &mut row, key.as_str(), value)?;
    }
    Ok(row)
}

// The name that a table has.
fn name_of(table: &Table) -> &str {
    match table.get("name") {
        Some(value) => value.as_str().unwrap_or(""),
        None => "",
    }
}

// Puts a value into the row: a text, a number, or the texts of a list.
fn add_value(alloc: Global, row: &mut Row, key: &str, value: &Value) -> Result<(), AllocError> {
    if let Some(list) = value.as_array() {
        for text in list.iter() {
            add_plain(alloc, row, key, text)?;
        }
        return Ok(());
    }
    add_plain(alloc, row, key, value)
}

// Puts a text or a number into the row; any other value is left out.
fn add_plain(alloc: Global, row: &mut Row, key: &str, value: &Value) -> Result<(), AllocError> {
    let text = match value {
        Value::String(text) => text.clone()?,
        Value::Integer(number) => format!(in alloc; "{number}")?,
        _ => return Ok(()),
    };
    let key = String::from_str(alloc, key)?;
    row.entries.push(Entry { key, text })?;
    Ok(())
}
