//! Board lines: 64 cells row by row from a1, a space, and who moves.

ghost use Rattle.std.specs.Prelude.{◌≡◌, ◌<◌, ◌≤◌, ◌↔◌, ℕ, List, IfOk, IfErr, Ok, Err, bit_and, length};
ghost use Rattle.oth_rules.specs.Position.{empty_count};
ghost use Rattle.oth_text.specs.declared.position.Position.{Position as PositionShown};
ghost use Rattle.oth_text.specs.declared.fault.LineFault.{LineFault as Fault};
ghost use Rattle.oth_text.specs.BoardLine.{IsBoardLine, IsFirstFault, IsSolvableFault, IsSolvableLine, board_line};
ghost use Rattle.oth_text.specs.BoardLine.{if_solvable, reading, side_byte, solvable_reading};
ghost use Rattle.oth_text.specs.OneLine.{IsOneLine};
ghost use Rattle.oth_text.specs.Discs.{AreSquaresOf, IsCellFault, ShowsDiscs, disc_byte};

use crate::fault::LineFault;
use crate::position::{Position, Side};
use arrayvec::ArrayVec;
use oth_search::MOST_EMPTIES;
use std::simd::prelude::*;

/// The number of bytes of a board line.
pub const BOARD_LINE_LEN: usize = 66;

/// The position of a board line. Another text is refused with its first fault: its length, else its leftmost bad cell,
/// else byte 65, else the mover. The number of empty squares isn't limited.
pub fn read_board(text: &[u8]) -> Result<Position, LineFault>
    ensures reading { result ≡ reading text.now }
    ensures line { (p : PositionShown) → (result ≡ Ok p) ↔ IsBoardLine text.now p }
    ensures fault { (f : Fault) → (result ≡ Err f) ↔ IsFirstFault text.now f }
{
    parsed(text)
}

/// The position of a board line whose board has at most 30 empty squares. Another text is refused as by `read_board`,
/// and then a board with more empty squares with their number, also where the game is over.
pub fn read_solvable(text: &[u8]) -> Result<Position, LineFault>
    ensures reading { result ≡ solvable_reading text.now }
    ensures line { (p : PositionShown) → (result ≡ Ok p) ↔ IsSolvableLine text.now p }
    ensures fault { (f : Fault) → (result ≡ Err f) ↔ IsSolvableFault text.now f }
    ensures few { IfOk result (λ p. empty_count p.board ≤ 30) }
{
    if_solvable(read_board(text))
}

// What was read, where it doesn't have too many empty squares.
fn if_solvable(read: Result<Position, LineFault>) -> Result<Position, LineFault>
    ensures reading { result ≡ if_solvable read }
    ensures few { IfOk result (λ p. empty_count p.board ≤ 30) }
{
    let position = read?;
    let empties = position.board.empties();
    if empties > MOST_EMPTIES {
        return Err(LineFault::Empties(empties));
    }
    Ok(position)
}

// The position of a board line, whatever its number of empty squares.
fn parsed(text: &[u8]) -> Result<Position, LineFault>
    ensures line { IfOk result (λ p. IsBoardLine text.now p) }
    ensures fault { IfErr result (λ f. IsFirstFault text.now f) }
{
    if text.len() != BOARD_LINE_LEN {
        return Err(LineFault::Length);
    }
    let (black, white) = read_cells(text)?;
    if text[64] != b' ' {
        return Err(LineFault::Space);
    }
    let mover = match text[65] {
        b'X' => Side::Black,
        b'O' => Side::White,
        _ => return Err(LineFault::Mover),
    };
    Ok(Position::of_sides(black, white, mover))
}

// The words of the black and of the white discs.
fn read_cells(text: &[u8]) -> Result<(u64, u64), LineFault>
    requires { length text.now ≡ 66 }
    ensures cells { IfOk result (λ sides. ShowsDiscs text.now sides.0 sides.1) }
    ensures apart { IfOk result (λ sides. bit_and sides.0 sides.1 ≡ 0) }
    ensures fault { IfErr result (λ f. IsCellFault text.now f) }
{
    let cells = u8x64::from_slice(text);
    let black = squares_of(cells, b'X');
    let white = squares_of(cells, b'O');
    let bad = !(black | white | squares_of(cells, b'-'));
    if bad != 0 {
        return Err(LineFault::BadCell(bad.trailing_zeros() as u8 + 1));
    }
    Ok((black, white))
}

// The squares whose cells are this byte.
fn squares_of(cells: u8x64, byte: u8) -> u64
    ensures { AreSquaresOf cells byte result }
{
    cells.simd_eq(u8x64::splat(byte)).to_bitmask()
}

/// The board line of a position, which is the only one, without byte 10. `read_board` gives the position back.
pub fn write_board(position: &Position) -> ArrayVec<u8, BOARD_LINE_LEN>
    ensures line { result.items ≡ board_line position.now }
    ensures is_line { IsBoardLine result.items position.now }
    ensures only { (text : List ℕ) → IsBoardLine text position.now → text ≡ result.items }
    ensures reads_back { reading result.items ≡ Ok position.now }
    ensures one_line { IsOneLine result.items }
{
    let black = position.black();
    let white = position.white();
    let mut line = ArrayVec::new();
    for n in 0u8..64 {
        line.push(disc_byte(black, white, n));
    }
    line.push(b' ');
    line.push(side_byte(position.mover));
    line
}

/// The byte of the side to move.
pub(crate) fn side_byte(side: Side) -> u8
    ensures { result ≡ side_byte side }
{
    match side {
        Side::Black => b'X',
        Side::White => b'O',
    }
}

// The byte of a cell.
fn disc_byte(black: u64, white: u64, n: u8) -> u8
    requires { n < 64 }
    ensures { result ≡ disc_byte black white n }
{
    if black >> n & 1 == 1 {
        b'X'
    } else if white >> n & 1 == 1 {
        b'O'
    } else {
        b'-'
    }
}
