// Words of the lent slices as places, and back.
ghost use Rattle.std.specs.Prelude.{◌≡◌, ◌<◌};

// A word as a place or a position.
pub fn wide(x: u32) -> usize
    ensures value { result ≡ x }
    ensures upper_bound { result < 4294967296 }
{
    x as usize
}

// A place or a position as a word.
pub fn narrow(x: usize) -> u32
    requires { x < 65536 }
    ensures { result ≡ x }
{
    x as u32
}
