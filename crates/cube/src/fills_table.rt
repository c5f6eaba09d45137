// The rows of fill lists as comma-separated values.

use crate::failure::Failure;
use allocation::fill::FillRow;
use csv::{Writer, WriterBuilder};
use day::fills::Fill;
use script::transcript::rows::KindText;
use std::alloc::{AllocError, Global};

// The names of the columns.
const HEADER: [&str; 11] = [
    "auction",
    "side",
    "size",
    "cause",
    "price",
    "member",
    "own number",
    "class",
    "kind",
    "filled",
    "left",
];

/// Comma-separated values, a record a line, under a header.
#[derive(Drop)]
pub struct FillsTable {
    writer: Writer<Vec<u8>>,
    // Whether a first column names the script, as it does where several are named.
    names_scripts: bool,
}

// Whose row it is: member, own number, class and kind of a response; of the contra the last three are empty.
fn party(heap: Global, row: &FillRow) -> Result<[String; 4], AllocError> {
    let FillRow {
        member,
        own_number,
        class,
        kind,
        ..
    } = *row;
    if member == 0 {
        let contra = String::from_str(heap, "contra")?;
        return Ok([
            contra,
            String::new(heap),
            String::new(heap),
            String::new(heap),
        ]);
    }
    let kind = KindText(kind);
    Ok([
        format!(in heap; "{member}")?,
        format!(in heap; "{own_number}")?,
        format!(in heap; "{class}")?,
        format!(in heap; "{kind}")?,
    ])
}

// What is told of the auction: its number, side, size and cause.
fn auction(heap: Global, fill: &Fill) -> Result<[String; 4], AllocError> {
    let Fill {
        auction,
        side,
        size,
        cause,
        row: _,
    } = *fill;
    let cause = cause.letter();
    Ok([
        format!(in heap; "{auction}")?,
        format!(in heap; "{side}")?,
        format!(in heap; "{size}")?,
        format!(in heap; "{cause}")?,
    ])
}

impl FillsTable {
    /// A table with its header, and no fills yet.
    pub fn new(heap: Global, names_scripts: bool) -> Result<FillsTable, Failure> {
        let mut writer = WriterBuilder::new().from_writer(Vec::new(heap));
        if names_scripts {
            writer.write_field(b"script")?;
        }
        for name in &HEADER {
            writer.write_field(name.as_bytes())?;
        }
        writer.end_record()?;
        Ok(FillsTable {
            writer,
            names_scripts,
        })
    }

    fn write_texts(&mut self, texts: &[String]) -> Result<(), csv::Error> {
        for text in texts {
            self.writer.write_field(text.as_bytes())?;
        }
        Ok(())
    }

    /// Adds a fill of the script of this name.
    pub fn push(&mut self, heap: Global, script: &str, fill: &Fill) -> Result<(), Failure> {
        if self.names_scripts {
            self.writer.write_field(script.as_bytes())?;
        }
        let FillRow {
            price,
            filled,
            left,
            ..
        } = fill.row;
        self.write_texts(&auction(heap, fill)?)?;
        self.write_texts(&[format!(in heap; "{price}")?])?;
        self.write_texts(&party(heap, &fill.row)?)?;
        self.write_texts(&[format!(in heap; "{filled}")?, format!(in heap; "{left}")?])?;
        self.writer.end_record()?;
        Ok(())
    }

    /// The bytes of the table.
    pub fn into_bytes(self) -> Result<Vec<u8>, Failure> {
        let FillsTable {
            writer,
            names_scripts: _,
        } = self;
        match writer.into_inner() {
            Ok(bytes) => Ok(bytes),
            Err(error) => Err(Failure::Table(error.into_error())),
        }
    }
}
