//! A row of a terminal that is renewed in place.

use arrayvec::ArrayVec;

/// The most columns of a row.
pub(crate) const MOST_COLUMNS: usize = 120;

/// The columns that every terminal has, less the last one, behind which some go on to the next row.
const FEW_COLUMNS: usize = 39;

/// The bytes that one renewal takes at the most.
pub const ROW_LEN: usize = 132;

// Tell a terminal to cut a row at its last column, and to go on in the next row again.
const CUT: &[u8] = b"\x1b[?7l";

const GO_ON: &[u8] = b"\x1b[?7h";

/// What stands in the row of a terminal, whose number of columns isn't known.
#[derive(Drop)]
pub struct Row {
    // The columns that are taken.
    taken: usize,
    // Whether the terminal cuts a row where it is told to.
    can_cut: bool,
}

impl Row {
    /// A row in which nothing stands, of a terminal that cuts a row where it is told to, or doesn't.
    pub fn new(can_cut: bool) -> Row {
        Row { taken: 0, can_cut }
    }

    /// Returns the bytes that put the text, in ASCII, in place of what stands in the row. The terminal cuts what has
    /// more than 39 columns at its own width; where it can't, 39 columns are shown.
    pub fn renewed(&mut self, text: &[u8]) -> ArrayVec<u8, ROW_LEN> {
        let most = if self.can_cut {
            MOST_COLUMNS
        } else {
            FEW_COLUMNS
        };
        let shown = &text[..text.len().min(most)];
        let bytes = filled(shown, self.taken.max(shown.len()));
        self.taken = shown.len();
        bytes
    }

    /// Returns the bytes that take away what stands in the row; none where nothing does.
    pub fn cleared(&mut self) -> ArrayVec<u8, ROW_LEN> {
        if self.taken == 0 {
            return ArrayVec::new();
        }
        let mut bytes = filled(b"", self.taken);
        let _ = bytes.try_push(b'\r');
        self.taken = 0;
        bytes
    }
}

// The bytes that fill this number of columns with the text and blanks behind it.
fn filled(text: &[u8], columns: usize) -> ArrayVec<u8, ROW_LEN> {
    let is_cut = columns > FEW_COLUMNS;
    let blanks = [b' '; MOST_COLUMNS];
    let behind = columns.saturating_sub(text.len()).min(MOST_COLUMNS);
    let mut bytes = ArrayVec::new();
    let _ = bytes.try_extend_from_slice(if is_cut { CUT } else { b"" });
    let _ = bytes.try_push(b'\r');
    let _ = bytes.try_extend_from_slice(text);
    let _ = bytes.try_extend_from_slice(&blanks[..behind]);
    let _ = bytes.try_extend_from_slice(if is_cut { GO_ON } else { b"" });
    bytes
}
