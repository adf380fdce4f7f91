//! Bars of text, on a scale that all groups share.
use crate::table::Row;
use log_groups::answers::{Answer, Column};
use log_groups::number::MOST_DECIMALS;
use log_groups::text::push_spaces;
use std::alloc::AllocError;

/// The width of the bars.
const WIDTH: u32 = 40;

/// How many steps of the scale a doubling takes.
const STEPS: u32 = 64;

/// How many steps of the scale a decimal takes, about.
const DECIMAL: u32 = 213;

/// A scale of logarithms, from the least to the greatest percentile of all groups.
#[derive(Clone, Copy)]
pub struct Scale {
    least: u32,
    most: u32,
}

/// Returns the place of a number on an endless scale. All numbers below 1 are at its left end.
fn place_of(number: i128, decimals: u8) -> u32 {
    let size = u64::try_from(number).unwrap_or(0).max(1);
    let doublings = size.ilog2();
    let within = (size as u128 * STEPS as u128 >> doublings).saturating_sub(STEPS as u128);
    let shift = DECIMAL * (MOST_DECIMALS - decimals.min(MOST_DECIMALS)) as u32;
    doublings * STEPS + shift + within.min(STEPS as u128) as u32
}

/// Returns the places of a row's least and greatest percentile.
fn ends_of(row: &Row<'_>, columns: &[Column<'_>]) -> Option<(u32, u32)> {
    let mut ends = None;
    for (cell, column) in row.cells.iter().zip(columns) {
        if let (Answer::Number(number), Column::Point(..)) = (cell.answer, column) {
            let place = place_of(number, row.decimals);
            let (least, most) = ends.unwrap_or((place, place));
            ends = Some((place.min(least), place.max(most)));
        }
    }
    ends
}

impl Scale {
    /// Returns the scale of rows.
    pub fn of(rows: &[Row<'_>], columns: &[Column<'_>]) -> Self {
        let (mut least, mut most) = (u32::MAX, 0);
        for row in rows {
            let (start, end) = ends_of(row, columns).unwrap_or((least, most));
            least = least.min(start);
            most = most.max(end);
        }
        Scale { least, most }
    }

    /// Returns how many characters are before this place.
    fn column_of(self, place: u32) -> usize {
        let length = self.most.saturating_sub(self.least).max(1) as u64;
        let part = place.saturating_sub(self.least) as u64 * (WIDTH - 1) as u64;
        (part / length).min((WIDTH - 1) as u64) as usize
    }

    /// Adds a row's bar.
    pub fn push_bar(
        self,
        line: &mut Vec<u8>,
        row: &Row<'_>,
        columns: &[Column<'_>],
    ) -> Result<(), AllocError> {
        let Some((least, most)) = ends_of(row, columns) else {
            return Ok(());
        };
        let (start, end) = (self.column_of(least), self.column_of(most));
        push_spaces(line, start.saturating_add(2))?;
        for _ in start..end.saturating_add(1) {
            line.push(b'#')?;
        }
        Ok(())
    }
}
