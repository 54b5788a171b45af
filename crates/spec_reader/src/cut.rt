//! How a script is cut into pieces.
ghost use Rattle.std.specs.Prelude.{◌≡◌, ◌<◌, ◌≤◌, length, slice_get, slice_range, IfSome, IsTrue};
ghost use Rattle.spec_reader.specs.Cutting.{region_after, is_skipped, gap_len, is_end, piece_len, begins_piece, first_piece_of, pieces};

/// Where a byte stands, between the pieces or in a piece.
#[derive(Clone, Copy, PartialEq, Eq, Debug)]
pub(crate) enum Region {
    /// Outside comments and strings.
    Open,
    /// In a comment.
    Comment,
    /// In a string of a piece.
    Quoted,
}

impl Region {
    /// Where the byte after `byte` stands.
    fn after(self, byte: u8) -> Region
        ensures { result ≡ region_after self byte }
    {
        match (self, byte) {
            (Region::Open, b'#') => Region::Comment,
            (Region::Open, b'"') => Region::Quoted,
            (Region::Comment, b'\n') => Region::Open,
            (Region::Quoted, b'"' | b'\n') => Region::Open,
            (Region::Open | Region::Comment | Region::Quoted, _) => self,
        }
    }

    /// Whether `byte` is a blank, or of a comment.
    pub(crate) fn skips(self, byte: u8) -> bool
        ensures { result ≡ is_skipped self byte }
    {
        match self {
            Region::Open => matches!(byte, b' ' | b'\t' | b'\r' | b'\n' | b'#'),
            Region::Comment => true,
            Region::Quoted => false,
        }
    }

    /// Whether a piece ends with `byte`, which `rest` follows.
    fn ends(self, byte: u8, rest: &[u8]) -> bool
        ensures { result ≡ is_end self byte rest.now }
    {
        match (self, byte) {
            (Region::Open, b';') => true,
            (Region::Open, b':') => !matches!(rest, [b'=', ..]),
            (Region::Open | Region::Comment | Region::Quoted, _) => false,
        }
    }
}

/// The number of bytes of blanks and comments at the front of `text`.
pub(crate) fn gap_len(text: &[u8]) -> usize
    ensures value { result ≡ gap_len Region.Open text.now }
    ensures within { result ≤ length text.now }
{
    let mut region = Region::Open;
    for (i, byte) in text.iter().enumerate() {
        if !region.skips(*byte) {
            return i;
        }
        region = region.after(*byte);
    }
    text.len()
}

/// The number of bytes of the piece at the front of `text`.
fn piece_len(text: &[u8]) -> usize
    ensures value { result ≡ piece_len Region.Open text.now }
    ensures within { result ≤ length text.now }
{
    let mut region = Region::Open;
    for (i, byte) in text.iter().enumerate() {
        if region.ends(*byte, &text[i + 1..]) {
            return i + 1;
        }
        region = region.after(*byte);
    }
    text.len()
}

/// The place of the first byte of the first piece of a script, and the place after its last byte.
///
/// Blanks and comments in front of it are skipped. It ends with the first `;`, or `:` that no `=` follows, that stands
/// outside comments and strings, and where there is none with the script. `None` where only blanks and comments are
/// left. The next piece of a script is the first one of what follows the end of this one.
pub fn first_piece(script: &[u8]) -> Option<(usize, usize)>
    ensures piece { result ≡ first_piece_of script.now }
    ensures first { slice_get (pieces script.now) 0 ≡ result }
    ensures some { IfSome result (λ piece. piece.0 < piece.1) }
    ensures within { IfSome result (λ piece. piece.1 ≤ length script.now) }
    ensures begins { IfSome result (λ piece. IsTrue (begins_piece (slice_range script.now piece.0 piece.1))) }
{
    let start = gap_len(script);
    let piece = &script[start..];
    if piece.is_empty() {
        return None;
    }
    Some((start, start + piece_len(piece)))
}
