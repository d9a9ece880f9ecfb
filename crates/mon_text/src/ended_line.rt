//! A line that has ended, where it stands.
ghost use Rattle.std.specs.Prelude.{◌≡◌};
ghost use Rattle.mon_text.specs.Feeding.{text_of};

/// A line that has ended, without its line end.
#[derive(Drop)]
pub enum EndedLine<'a> {
    /// It stands whole in a piece.
    InPiece(&'a [u8]),
    /// It began in a piece before.
    Joined(Vec<u8>),
}

impl<'a> EndedLine<'a> {
    /// The bytes of the line.
    pub fn text(&self) -> &[u8]
        ensures { result.now ≡ text_of self.now }
    {
        match self {
            EndedLine::InPiece(text) => text,
            EndedLine::Joined(text) => text,
        }
    }
}
