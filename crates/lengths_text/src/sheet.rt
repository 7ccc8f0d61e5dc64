// Both tables on paper, a row for each minute of headway.
ghost use Rattle.std.specs.Prelude.{◌≡◌, ◌+◌, ◌≤◌, ◌<◌, length, get_or};
ghost use Rattle.laws.specs.Tables.{join};
ghost use Rattle.numerals.specs.Writes.{Put};
ghost use Rattle.block_lengths.specs.Paper.{speeds, entry};
ghost use Rattle.lengths_text.specs.Sheet.{table_of, side_by_side, row_text, table_text, most_sheet, sheet_in};

use crate::places;

// The length of a table in a row and a column, in whole metres.
fn whole_metres(stopping: bool, row: u32, column: usize) -> u64
    requires { (row < 9) × (column < 6) }
    ensures { result ≡ entry (table_of stopping) row column }
{
    match block_lengths::lengths(60 * (row + 2), block_lengths::speed_of(column)) {
        Ok(lengths) if stopping => block_lengths::millimetres(lengths.stopping) / 1000,
        Ok(lengths) => block_lengths::millimetres(lengths.plain) / 1000,
        // No row and no column of the tables is refused.
        Err(_) => 0,
    }
}

// put_entries and put_speeds stay two: one function would take a closure and its contract, which is longer than the two loops.
// The lengths of a row.
fn put_entries(stopping: bool, row: u32, out: &mut [u8], at: usize) -> usize
    requires { (row < 9) × (at + 48 ≤ length out.old) }
    ensures { Put out.old at (side_by_side 6 (entry (table_of stopping) row)) 48 out.new result }
{
    let mut next = at;
    for column in 0..6 {
        let metres = whole_metres(stopping, row, column);
        next = places::put_filled(32, 7, metres, out, next);
    }
    next
}

// The speeds over the columns.
fn put_speeds(out: &mut [u8], at: usize) -> usize
    requires { at + 48 ≤ length out.old }
    ensures { Put out.old at (side_by_side 6 (λ column. get_or speeds column 0)) 48 out.new result }
{
    let mut next = at;
    for column in 0..6 {
        let speed = block_lengths::speed_of(column);
        next = places::put_filled(32, 7, speed as u64, out, next);
    }
    next
}

// A row: the headway in minutes and in seconds, and the length for each speed.
fn put_row(stopping: bool, row: u32, out: &mut [u8], at: usize) -> usize
    requires { (row < 9) × (at + 60 ≤ length out.old) }
    ensures { Put out.old at (row_text stopping row) 60 out.new result }
{
    let minutes = (row + 2) as u64;
    let seconds = places::put_filled(32, 4, minutes, out, at);
    let lengths = places::put_filled(32, 5, 60 * minutes, out, seconds);
    let end = put_entries(stopping, row, out, lengths);
    places::write_word(b"\n", out, end)
}

// The nine rows.
fn put_rows(stopping: bool, out: &mut [u8], at: usize) -> usize
    requires { at + 540 ≤ length out.old }
    ensures { Put out.old at (join 9 (row_text stopping)) 540 out.new result }
{
    let mut next = at;
    for row in 0..9 {
        next = put_row(stopping, row, out, next);
    }
    next
}

// A table with the head of its columns.
fn put_table(stopping: bool, out: &mut [u8], at: usize) -> usize
    requires { at + 628 ≤ length out.old }
    ensures { Put out.old at (table_text stopping) 628 out.new result }
{
    let speeds = places::write_word(b"    headway   speed in km/h\n  min     s", out, at);
    let unit = put_speeds(out, speeds);
    let rows = places::write_word(b"\n", out, unit);
    put_rows(stopping, out, rows)
}

// The sheet, where the buffer has room for it.
pub fn put_sheet(out: &mut [u8]) -> usize
    ensures { Put out.old 0 (sheet_in (length out.old)) most_sheet out.new result }
{
    if out.len() < 2048 {
        return 0;
    }
    let plain = places::write_word(
        b"JD 550 chapter 7: greatest length in metres of two blocks one after the other\n\nTable 7.1: where there is no stopping place\n",
        out,
        0,
    );
    let between = put_table(false, out, plain);
    let stopping = places::write_word(
        b"\nTable 7.2: next to a stopping place and past it\n",
        out,
        between,
    );
    let notes = put_table(true, out, stopping);
    places::write_word(
        b"\nFor trains that follow one another. One block may be half as long, as a rule;\nthe stopping distance is to be checked apart (chapter 6).\nTwo misprints are put right: table 7.1, 180 s, 90 km/h, 3030 for 3930; table\n7.2, 180 s, 100 km/h, 2900 for 2290. Between two headways the length is on the\nstraight line: lengths HEADWAY SPEED, in whole seconds and km/h.\n",
        out,
        notes,
    )
}
