// Refusal 8: a type that is defined as a bare name.
ghost use Rattle.calculus.specs.Declarations.{bare_names, own_bare_name};
ghost use Rattle.read_tables.specs.Decode.{script_in, type_declaration, tally_in};
ghost use Rattle.std.specs.Prelude.{◌<◌};
ghost use Rattle.read_tables.specs.Whole.{Tables};
ghost use Rattle.check_declarations.specs.Lowest.{Lowered, least};

use crate::lowest::lowered;
use notation::kinds;
use read_tables::access::{declared_type, type_count, type_node};

// The name that stands as the definition of the type i.
fn bare_name(text: &[u8], scratch: &[u32], i: usize, low: Option<usize>) -> Option<usize>
    requires { Tables text.now scratch.now × (i < (tally_in scratch.now).types) }
    ensures { Lowered low (own_bare_name (type_declaration text.now scratch.now i)) result }
{
    let t = declared_type(scratch, i);
    let n = type_node(scratch, t.number);
    if n.kind == kinds::NAMED {
        return lowered(low, n.second);
    }
    low
}

pub(crate) fn bare_names(text: &[u8], scratch: &[u32]) -> Option<usize>
    requires { Tables text.now scratch.now }
    ensures { Lowered least (bare_names (script_in text.now scratch.now)) result }
{
    let n = type_count(scratch);
    let mut low = None;
    for i in 0..n {
        low = bare_name(text, scratch, i, low);
    }
    low
}
