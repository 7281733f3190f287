// What a call says, told in numbers to programs in other languages: document 01's number, what is given back (0 where nothing is), and the
// counters. The array of counters holds first, next, last, nodes, inputs, cells, words.
#![tactic(auto)]

ghost use Rattle.std.specs.Prelude.{◌≡◌, pos};
ghost use Rattle.paper.specs.Numbers.{added_said, demanded_said, kept_said};
ghost use Rattle.tell.specs.Tell.{Told, WorthTold};

use paper::{Added, Counters, Demanded, Refusal};

// What a call said, told: c are the counters before it.
pub fn say_kept(said: Result<Counters, Refusal>, c: Counters, counters: &mut [usize; 7]) -> u32
    ensures { Told (kept_said said c) result (pos 0) counters.new }
{
    match said {
        Ok(after) => {
            *counters = after.into();
            0
        }
        Err(why) => {
            *counters = c.into();
            why.into()
        }
    }
}

pub fn say_added(
    said: Result<Added, Refusal>,
    c: Counters,
    counters: &mut [usize; 7],
    id: &mut usize,
) -> u32
    ensures { Told (added_said said c) result (pos id.new) counters.new }
{
    match said {
        Ok(done) => {
            *id = done.id;
            *counters = done.counters.into();
            0
        }
        Err(why) => {
            *id = 0;
            *counters = c.into();
            why.into()
        }
    }
}

pub fn say_demanded(
    said: Result<Demanded, Refusal>,
    c: Counters,
    counters: &mut [usize; 7],
    lit: &mut i32,
) -> u32
    ensures { Told (demanded_said said c) result lit.new counters.new }
{
    match said {
        Ok(done) => {
            *lit = done.lit;
            *counters = done.counters.into();
            0
        }
        Err(why) => {
            *lit = 0;
            *counters = c.into();
            why.into()
        }
    }
}

pub fn say_valued(said: Result<usize, Refusal>, value: &mut usize) -> u32
    ensures { WorthTold said result (pos value.new) }
{
    match said {
        Ok(v) => {
            *value = v;
            0
        }
        Err(why) => {
            *value = 0;
            why.into()
        }
    }
}
