//! Where things stand: each command a row, each node a column, in pixels. Bounds keep sums and differences in range.

ghost use Rattle.std.specs.Prelude.{◌≡◌, ◌≤◌, ◌+◌, ◌*◌, ◌^◌};

/// Where column 0 stands, in which the arrows of frames from outside the ring begin.
const LEFT: u64 = 24;

/// From a column to the next.
const COLUMN: u64 = 128;

/// Where row 0 stands, which is before all commands.
const TOP: u64 = 72;

/// From a row to the next.
const ROW: u64 = 24;

/// What a letter of what a row says takes at most.
const LETTER: u64 = 8;

/// What a row says is cut to so many letters.
pub(crate) const LETTERS: usize = 112;

/// Rows after so many, and lines after so many, would be drawn over the last; no script has so many commands.
const MOST: u64 = 4_294_967_296;

/// The numbers of nodes stand over the columns again after so many rows.
pub(crate) const HEADS: u64 = 40;

/// After so many marks of frames of a row that did not come to a node, the others stand over the next one.
pub(crate) const MARKS: u64 = 6;

/// Where the column of a node stands.
pub(crate) fn column_at(node: u8) -> u64
    ensures least { 24 + 128 * node ≤ result }
    ensures most { result ≤ 2 ^ 20 }
{
    LEFT + COLUMN * u64::from(node)
}

/// Where the columns of so many nodes end.
pub(crate) fn end_of(nodes: u8) -> u64
    ensures { result ≤ 2 ^ 21 }
{
    column_at(nodes) + COLUMN
}

/// Where a row stands.
pub(crate) fn row_at(row: u64) -> u64
    ensures least { 72 ≤ result }
    ensures most { result ≤ 2 ^ 40 }
{
    let row = row.min(MOST);
    TOP + ROW * (row + row / HEADS)
}

/// Where a line below so many rows stands, from 1 on.
pub(crate) fn line_at(rows: u64, line: u64) -> u64
    ensures { result ≤ 2 ^ 41 }
{
    row_at(rows) + ROW * line.min(MOST)
}

/// How wide the picture of so many nodes is.
pub(crate) fn width(nodes: u8) -> u64 {
    end_of(nodes) + LETTER * LETTERS as u64
}

/// Where what a row of so many nodes says begins.
pub(crate) fn words_across(nodes: u8) -> u64 {
    end_of(nodes) + 8
}

/// How far down the label of an arrow to a row stands.
pub(crate) fn label_down(row: u64) -> u64 {
    row_at(row) - 8
}

/// How far down the numbers of nodes stand above a row.
pub(crate) fn number_down(row: u64) -> u64 {
    row_at(row) - 24
}

/// Where the label of an arrow from a node to a node begins, or ends where it stands on the left: on the far side of
/// where it comes from, as nothing leaves a row there.
pub(crate) fn label_across(from: u8, to: u8) -> u64
    ensures { result ≤ 2 ^ 21 }
{
    let x = column_at(to);
    if from < to { x + 9 } else { x - 9 }
}

/// The same of the second label there.
pub(crate) fn second_across(from: u8, to: u8) -> u64 {
    let x = label_across(from, to);
    if from < to {
        x + 66
    } else {
        x.saturating_sub(66)
    }
}

/// How far an arrow from a column to a column bends to the right: only within one.
pub(crate) fn bend_between(from: u8, to: u8) -> u64
    ensures { result ≤ 60 }
{
    if from == to { 60 } else { 0 }
}

/// Where the stub of a frame ends that did not come to a node, on its sender's side: those of one row, counted from 0,
/// side by side, and the last ones at the same place.
pub(crate) fn mark_across(from: u8, to: u8, place: u64) -> u64 {
    let x = column_at(to);
    let reach = 20 + 14 * place.min(MARKS);
    if from < to {
        x - reach
    } else {
        x + bend_between(from, to) + reach
    }
}
