// The numbers of a line.
ghost use Rattle.std.specs.Prelude.{◌≡◌, ◌≢◌, ◌⊎◌, IfOk, OnOk, IfErr, slice_get};

use crate::LineError;
use std::num::ParseIntError;
use std::str::FromStr;

// A number in decimal digits that fits its type, with a minus in front where the type has one. Rust's own `parse` takes a
// plus too; a plan has none.
pub fn number<T: FromStr<Err = ParseIntError>>(word: &str) -> Result<T, LineError>
    ensures parsed { IfOk result (λ x. T.from_str_gives word.now (Ok x)) }
    ensures no_plus { OnOk result (slice_get word.now 0 ≢ Some 43) }
    ensures refused { IfErr result (λ _. (slice_get word.now 0 ≡ Some 43)
        ⊎ ((e : ParseIntError) × T.from_str_gives word.now (Err e))) }
{
    if word.starts_with('+') {
        return Err(LineError::Unreadable);
    }
    Ok(word.parse()?)
}
