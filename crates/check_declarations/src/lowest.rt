// The lowest of the offsets where a refusal applies.
ghost use Rattle.std.specs.Prelude.{[], ◌∷◌};
ghost use Rattle.check_declarations.specs.Lowest.{Lowered};

// The lowest offset so far, with one more.
pub(crate) fn lowered(low: Option<usize>, at: usize) -> Option<usize>
    ensures { Lowered low (at ∷ []) result }
{
    let Some(i) = low else {
        return Some(at);
    };
    if at < i {
        return Some(at);
    }
    low
}
