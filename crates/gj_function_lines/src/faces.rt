//! The lines of faces and of covered intervals, printed.
ghost use Rattle.std.specs.Prelude.{◌≡◌, [], ◌∷◌, ◌++◌, flat_map, OnOk};
ghost use Rattle.gj_forms.specs.LineForms.{bytes_of};
ghost use Rattle.gj_forms.specs.LineForms.Field.{word, count};
ghost use Rattle.gj_function_lines.specs.FaceLines.{face_word, cover_line};

use gj_lex::print_counts;
use gj_shape::{CoverLine, Face, FaceKind};
use std::alloc::AllocError;

/// Appends the lines of covered intervals. An error says that memory ran out; `out` may then have a
/// part of them.
pub fn push_cover_lines(out: &mut Vec<u8>, lines: &[CoverLine]) -> Result<(), AllocError>
    ensures { OnOk result (out.new.items ≡ out.old.items ++ flat_map cover_line lines.now) }
{
    for line in lines {
        push_cover_line(out, *line)?;
    }
    Ok(())
}

/// Appends the line `cover I J KIND A B` of a covered interval.
fn push_cover_line(out: &mut Vec<u8>, line: CoverLine) -> Result<(), AllocError>
    ensures { OnOk result (out.new.items ≡ out.old.items ++ cover_line line) }
{
    out.extend_from_slice(b"cover")?;
    print_counts(out, line.interval, line.from, b' ')?;
    push_face(out, line.face)
}

/// Appends the word of a face and its square, and the end of the line.
fn push_face(out: &mut Vec<u8>, face: Face) -> Result<(), AllocError>
    ensures { OnOk result (out.new.items ≡ out.old.items ++ bytes_of
        (word (face_word face.kind) ∷ count face.a ∷ count face.b ∷ [])) }
{
    out.extend_from_slice(face_word(face.kind))?;
    print_counts(out, face.a, face.b, b'\n')
}

/// The word of a kind of face.
pub fn face_word(kind: FaceKind) -> &'static [u8]
    ensures { result.now ≡ face_word kind }
{
    match kind {
        FaceKind::Vertex => b"vertex",
        FaceKind::Horizontal => b"horizontal",
        FaceKind::Vertical => b"vertical",
        FaceKind::Diagonal => b"diagonal",
        FaceKind::Lower => b"lower",
        FaceKind::Upper => b"upper",
    }
}
