//! Short texts that are copied at once.
ghost use Rattle.std.specs.Prelude.{◌≤◌};

/// The room of a piece, in which a word of at most 10 bytes, a space, and a number of at most 3
/// digits fit, or a space, a number of at most 10 digits and a line feed.
pub(crate) const ROOM: usize = 16;

/// A text of at most 16 bytes.
///
/// All of its room is copied, since a copy of so many bytes that are known beforehand is fast. What
/// is written next stands over what is behind the text.
#[derive(Clone, Copy)]
pub(crate) struct Piece {
    bytes: [u8; ROOM],
    length: u32,
    ghost fits: { length ≤ 16 },
}

impl Piece {
    ghost use Rattle.std.specs.Prelude.{◌≡◌, ◌+◌, ◌≤◌, [], ◌++◌, length, take};
    ghost use Rattle.gj_verdict_text.specs.FacePieces.{text_of};

    /// No text.
    pub(crate) fn empty() -> Piece
        ensures { text_of result ≡ [] }
    {
        Piece {
            bytes: [0; ROOM],
            length: 0,
        }
    }

    /// The text with one more behind it.
    pub(crate) fn followed_by(&self, text: &[u8]) -> Piece
        requires { length (text_of self.now) + length text.now ≤ ROOM }
        ensures { text_of result ≡ text_of self.now ++ text.now }
    {
        let mut bytes = self.bytes;
        let mut length = self.length;
        for byte in text {
            bytes[length as usize] = *byte;
            length += 1;
        }
        Piece { bytes, length }
    }

    /// Writes the text into another from `start` on, and says where it ends.
    ///
    /// The bytes are taken out first. So it is plain that the two do not overlap, which would be
    /// asked at each piece otherwise.
    #[inline(always)]
    pub(crate) fn write(&self, text: &mut [u8], start: usize) -> usize
        requires { start + ROOM ≤ length text.old }
        ensures written { take result text.new ≡ take start text.old ++ text_of self.now }
        ensures end { result ≤ start + ROOM }
        ensures length { length text.new ≡ length text.old }
    {
        let bytes = self.bytes;
        text[start..start + ROOM].copy_from_slice(&bytes);
        start + self.length as usize
    }
}
