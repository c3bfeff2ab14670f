// Line and column of an offset, as those who write scripts count them.
ghost use Rattle.std.specs.Prelude.{◌≡◌, ◌≤◌, ◌^◌};
ghost use Rattle.call_positions.specs.Position.{advanced, along, first, position_at};

// A line and a byte of it, both counted from 1.
#[derive(Clone, Copy)]
pub struct Position {
    pub line: usize,
    pub column: usize,
}

const LINE_FEED: u8 = b'\n';

// Neither number passes the bytes gone over by more than one, and a slice has fewer than 2 ^ 63.
#[tactic(auto, unfolding(crate::specs::Position::advanced))]
fn advanced(p: Position, b: u8) -> Position
    requires line_bound { p.line ≤ 2 ^ 63 }
    requires column_bound { p.column ≤ 2 ^ 63 }
    ensures { result ≡ advanced p b }
{
    if b == LINE_FEED {
        return Position {
            line: p.line + 1,
            column: 1,
        };
    }
    Position {
        line: p.line,
        column: p.column + 1,
    }
}

// Where the byte after all of these stands.
fn after(part: &[u8]) -> Position
    ensures { result ≡ along part.now first }
{
    let mut p = Position { line: 1, column: 1 };
    for b in part {
        p = advanced(p, *b);
    }
    p
}

// Where the byte at an offset stands; past the end of the text, where its end does.
pub fn position_at(text: &[u8], at: usize) -> Position
    ensures { result ≡ position_at text.now at }
{
    after(&text[..at.min(text.len())])
}
