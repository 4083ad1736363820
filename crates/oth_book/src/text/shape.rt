//! The lines of a book by place: which bytes are allowed where.

ghost use Rattle.std.specs.Prelude.{◌≡◌, ◌<◌, ◌≤◌, ◌+◌, length};
ghost use Rattle.oth_book.specs.Shape.{allows, allows_in_bounds, allows_in_entry, bounds_len, fit_of, header};
ghost use Rattle.oth_book.specs.Shape.{header_len, shape_len, is_cell, is_hex_digit, is_sign, IsWhole};

use crate::version::Version;
use oth_rules::Scoring;

/// A kind of line.
#[derive(Clone, Copy)]
pub enum Shape {
    Header(Version),
    Entry(Version),
    End,
}

/// How bytes fit a kind of line.
#[derive(Clone, Copy, PartialEq, Eq)]
pub enum Fit {
    Whole,
    Cut,
    Misplaced,
}

/// The header of a version.
#[tactic(auto, unfolding(crate::specs::Shape::header))]
pub fn header(version: Version) -> &'static [u8]
    ensures text { result.now ≡ header version }
    ensures len { length result.now ≡ header_len version }
{
    match version {
        Version::One => b"OBOOK1\n",
        Version::Two(Scoring::Winner) => b"OBOOK2 W\n",
        Version::Two(Scoring::Discs) => b"OBOOK2 D\n",
    }
}

/// How many bytes the bounds of an entry take.
pub fn bounds_len(version: Version) -> usize
    ensures value { result ≡ bounds_len version }
    ensures most { result ≤ 7 }
{
    match version {
        Version::One => 3,
        Version::Two(_) => 7,
    }
}

/// How many bytes a line of the kind has.
pub fn line_len(shape: Shape) -> usize
    ensures { result ≡ shape_len shape }
{
    match shape {
        Shape::Header(Version::One) => 7,
        Shape::Header(Version::Two(_)) => 9,
        Shape::Entry(version) => 83 + bounds_len(version),
        Shape::End => 11,
    }
}

/// How the front of the bytes fits a kind of line.
pub fn fit_of(shape: Shape, bytes: &[u8]) -> Fit
    ensures fit { result ≡ fit_of shape bytes.now }
    ensures whole { result ≡ Fit.Whole → IsWhole shape bytes.now }
{
    for place in 0..line_len(shape) {
        if place == bytes.len() {
            return Fit::Cut;
        }
        if !is_allowed(shape, place, bytes[place]) {
            return Fit::Misplaced;
        }
    }
    Fit::Whole
}

// Whether the byte may stand at this place of a line.
fn is_allowed(shape: Shape, place: usize, byte: u8) -> bool
    requires { place < shape_len shape }
    ensures { result ≡ allows shape place byte }
{
    match shape {
        Shape::Header(version) => is_allowed_in_header(version, place, byte),
        Shape::Entry(version) => is_allowed_in_entry(bounds_len(version), place, byte),
        Shape::End => is_allowed_in_end(place, byte),
    }
}

// As `is_allowed`, of the header.
fn is_allowed_in_header(version: Version, place: usize, byte: u8) -> bool
    requires { place < header_len version }
    ensures { result ≡ allows (Shape.Header version) place byte }
{
    byte == header(version)[place]
}

// As `is_allowed`, of an entry line whose bounds take `bounds` bytes.
fn is_allowed_in_entry(bounds: usize, place: usize, byte: u8) -> bool
    requires { bounds ≤ 7 }
    ensures { result ≡ allows_in_entry bounds place byte }
{
    if place < 64 {
        is_cell(byte)
    } else if place == 64 {
        byte == b' '
    } else if place < 65 + bounds {
        is_allowed_in_bounds(place - 65, byte)
    } else if place == 65 + bounds {
        byte == b' '
    } else if place < 82 + bounds {
        is_hex_digit(byte)
    } else {
        byte == b'\n'
    }
}

// Whether the byte may stand at this place of the bounds, counted from their first byte.
fn is_allowed_in_bounds(place: usize, byte: u8) -> bool
    ensures { result ≡ allows_in_bounds place byte }
{
    if place == 0 || place == 4 {
        is_sign(byte)
    } else if place == 3 {
        byte == b' '
    } else {
        byte.is_ascii_digit()
    }
}

// As `is_allowed`, of the end line.
fn is_allowed_in_end(place: usize, byte: u8) -> bool
    requires { place < 11 }
    ensures { result ≡ allows Shape.End place byte }
{
    match place {
        0..=3 => byte == b"END "[place],
        4..=9 => byte.is_ascii_digit(),
        _ => byte == b'\n',
    }
}

/// Whether the byte is one of a cell.
pub fn is_cell(byte: u8) -> bool
    ensures { result ≡ is_cell byte }
{
    byte == b'X' || byte == b'O' || byte == b'-'
}

// Whether it is a plus or a minus.
fn is_sign(byte: u8) -> bool
    ensures { result ≡ is_sign byte }
{
    byte == b'+' || byte == b'-'
}

// Whether it is one of 0 to 9 and a to f.
fn is_hex_digit(byte: u8) -> bool
    ensures { result ≡ is_hex_digit byte }
{
    byte.is_ascii_digit() || (b'a' <= byte && byte <= b'f')
}
