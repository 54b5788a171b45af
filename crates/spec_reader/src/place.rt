//! Lines and columns.
ghost use Rattle.std.specs.Prelude.{◌≡◌, ◌+◌, ◌^◌, ◌<◌, ◌≤◌, min, max, length};
ghost use Rattle.spec_reader.specs.Places.{place_behind};

/// A line and a column, both counted from 1.
#[derive(Clone, Copy, Debug)]
pub struct Place {
    pub line: u32,
    pub column: u32,
}

/// The place behind `bytes`, the first of which stands at `start`. From there it can go on behind the bytes that follow.
pub fn behind(start: Place, bytes: &[u8]) -> Place
    requires line { start.line + length bytes.now < 2 ^ 32 }
    requires column { start.column + length bytes.now + 1 < 2 ^ 32 }
    ensures value { result ≡ place_behind start bytes.now }
    ensures line { (start.line ≤ result.line) × (result.line ≤ start.line + length bytes.now) }
    ensures column { (min start.column 1 ≤ result.column) × (result.column ≤ max start.column 1 + length bytes.now) }
{
    let mut place = start;
    for byte in bytes {
        if *byte == b'\n' {
            place.line += 1;
            place.column = 1;
        } else {
            place.column += 1;
        }
    }
    place
}
