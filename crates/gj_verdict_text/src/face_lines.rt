//! The lines of faces, from pieces that are kept.
//!
//! There may be hundreds of thousands of lines, so the piece up to the row is put together once a
//! row, and the piece behind it once a column.
ghost use Rattle.std.specs.Prelude.{◌≡◌, ◌+◌, ◌*◌, ◌<◌, ◌≤◌, [], ◌++◌, All, codes, decimal};
ghost use Rattle.std.specs.Prelude.{flat_map, length, take, IfOk, OnOk};
ghost use Rattle.gj_shape.specs.Limits.{greatest_order};
ghost use Rattle.gj_function_lines.specs.FunctionLines.{line};
ghost use Rattle.gj_function_lines.specs.FaceLines.{face_text, face_word};
ghost use Rattle.gj_verdict_text.specs.FacePieces.{text_of, AreStarts, AreEnds, HasPieces};

use crate::piece::{Piece, ROOM};
use gj_function_lines::face_word;
use gj_shape::{Face, FaceKind};
use itoa::Buffer;
use std::alloc::{AllocError, Global};

/// The room of a line: that of two pieces.
const LINE_ROOM: usize = 2 * ROOM;

/// How many lines are written at a time at most. Room for so many is less than 2 KB, and that is
/// cleared faster than the same in longer runs.
const FEW: usize = 60;

/// The beginnings of the lines of the faces of one row of squares: the word of the kind, a space
/// and the row.
#[derive(Clone, Copy)]
pub(crate) struct Starts {
    row: u32,
    /// That of each kind, at its place.
    pieces: [Piece; 6],
}

/// The beginnings for a row.
#[tactic(auto, using(crate::proofs::WrittenPieces::has_few_digits))]
pub(crate) fn starts_of(row: u32) -> Starts
    requires { row < greatest_order }
    ensures starts { AreStarts result }
    ensures row { result.row ≡ row }
{
    let mut buffer = Buffer::new();
    let digits = buffer.format(row).as_bytes();
    let pieces = [
        start(FaceKind::Vertex, digits),
        start(FaceKind::Horizontal, digits),
        start(FaceKind::Vertical, digits),
        start(FaceKind::Diagonal, digits),
        start(FaceKind::Lower, digits),
        start(FaceKind::Upper, digits),
    ];
    Starts { row, pieces }
}

/// The ends of the lines for the columns below n: a space, the column and a line feed.
pub(crate) fn ends_below(alloc: Global, n: u32) -> Result<Vec<Piece>, AllocError>
    ensures ends { IfOk result (λ ends. AreEnds ends.items) }
    ensures count { IfOk result (λ ends. length ends.items ≡ n) }
{
    let mut ends = Vec::new(alloc);
    for column in 0..n {
        ends.push(end(column))?;
    }
    Ok(ends)
}

/// Appends the line of each face, a few at a time.
pub(crate) fn push_face_lines(
    out: &mut Vec<u8>,
    starts: &Starts,
    ends: &[Piece],
    faces: &[Face],
) -> Result<(), AllocError>
    requires starts { AreStarts starts.now }
    requires ends { AreEnds ends.now }
    requires faces { All (HasPieces starts.now ends.now) faces.now }
    ensures { OnOk result (out.new.items ≡ out.old.items ++ flat_map
        (λ face. line (face_text face)) faces.now) }
{
    let mut left = faces;
    while !left.is_empty() {
        let (few, rest) = left.split_at(left.len().min(FEW));
        push_few_lines(out, starts, ends, few)?;
        left = rest;
    }
    Ok(())
}

/// Appends the lines of a few faces.
///
/// The text is first made as long as it can become, and then cut off behind the last line. So room
/// is asked for once for all of them.
fn push_few_lines(
    out: &mut Vec<u8>,
    starts: &Starts,
    ends: &[Piece],
    faces: &[Face],
) -> Result<(), AllocError>
    requires starts { AreStarts starts.now }
    requires ends { AreEnds ends.now }
    requires faces { All (HasPieces starts.now ends.now) faces.now }
    requires few { length faces.now ≤ FEW }
    ensures { OnOk result (out.new.items ≡ out.old.items ++ flat_map
        (λ face. line (face_text face)) faces.now) }
{
    let before = out.len();
    out.resize(before + LINE_ROOM * faces.len(), 0)?;
    let length = write_face_lines(&mut out[before..], starts, ends, faces);
    out.truncate(before + length);
    Ok(())
}

/// Writes the line of each face to the front of the text, and says where they end.
fn write_face_lines(text: &mut [u8], starts: &Starts, ends: &[Piece], faces: &[Face]) -> usize
    requires starts { AreStarts starts.now }
    requires ends { AreEnds ends.now }
    requires faces { All (HasPieces starts.now ends.now) faces.now }
    requires room { LINE_ROOM * length faces.now ≤ length text.old }
    ensures written { take result text.new ≡ flat_map (λ face. line (face_text face)) faces.now }
    ensures within { result ≤ length text.new }
    ensures length { length text.new ≡ length text.old }
{
    let mut end = 0;
    for face in faces {
        let middle = starts.pieces[face.kind.position() as usize].write(text, end);
        end = ends[face.b as usize].write(text, middle);
    }
    end
}

/// The beginning for a kind and a row of these digits.
fn start(kind: FaceKind, digits: &[u8]) -> Piece
    requires { length digits.now ≤ 3 }
    ensures { text_of result ≡ face_word kind ++ codes " " ++ digits.now }
{
    Piece::empty()
        .followed_by(face_word(kind))
        .followed_by(b" ")
        .followed_by(digits)
}

/// The end for a column.
fn end(column: u32) -> Piece
    ensures { text_of result ≡ line (codes " " ++ decimal column) }
{
    let mut buffer = Buffer::new();
    let digits = buffer.format(column).as_bytes();
    Piece::empty()
        .followed_by(b" ")
        .followed_by(digits)
        .followed_by(b"\n")
}
