// The calls for programs in other languages, on numbers and slices: crate totdb_c exports them, each under its name. Each is the call of
// crate door, and answers document 01's number; what is given back and the counters go through the last parameters. `counters` holds
// first, next, last, nodes, inputs, cells, words. A refused call leaves the counters as they were, and gives back 0.
#![tactic(auto)]

ghost use Rattle.std.specs.Prelude.{◌≡◌, pos};
ghost use Rattle.paper.specs.Calls.{Db, check_call, fresh_step, unweighted_call, weighted_call, value_call, empty_call};
ghost use Rattle.door.specs.Door.{db, work};
ghost use Rattle.paper.specs.Numbers.{counters_of, semantics_of};
ghost use Rattle.tell.specs.Tell.{Told, ValueTold};
ghost use Rattle.totdb.specs.Foreign.{pair_of, LeafTold, DummyTold, InnerTold, DemandTold, ReserveTold, ResetTold};

use paper::{Counters, Pair, Semantics};

// The table check: 0 or 2.
pub fn totdb_check(
    nodes: &[u32],
    inputs: &[i32],
    keys: &[u32],
    lits: &[i32],
    marks: &[u8],
    clauses: &[i32],
    counters: &[usize; 7],
) -> u32
    ensures { result ≡ (check_call (db nodes.now inputs.now keys.now lits.now marks.now clauses.now (counters_of counters.now))).said.number }
{
    let c = Counters::from(*counters);
    if door::check(nodes, inputs, keys, lits, marks, clauses, c) {
        0
    } else {
        2
    }
}

// Begins a table; what the counters held does not matter. 0 or 15.
pub fn totdb_fresh(counters: &mut [usize; 7], first: usize, last: usize) -> u32
    ensures { (d : Db) → d.counters ≡ counters_of counters.old → Told (fresh_step d first last).said result (pos 0) counters.new }
{
    let c = Counters::from(*counters);
    let said = door::fresh(first, last);
    tell::say_kept(said, c, counters)
}

// Gives the leaf's id. 2, 6, 11.
pub fn totdb_leaf(
    nodes: &mut [u32],
    inputs: &mut [i32],
    keys: &[u32],
    lits: &[i32],
    marks: &[u8],
    clauses: &[i32],
    counters: &mut [usize; 7],
    x: i32,
    id: &mut usize,
) -> u32
    ensures { LeafTold (db nodes.old inputs.old keys.now lits.now marks.now clauses.now (counters_of counters.old)) x
        result id.new counters.new nodes.new inputs.new }
{
    let c = Counters::from(*counters);
    let said = door::leaf(nodes, inputs, keys, lits, marks, clauses, c, x);
    tell::say_added(said, c, counters, id)
}

// Gives the dummy's id. 2, 11.
pub fn totdb_dummy(
    nodes: &mut [u32],
    inputs: &[i32],
    keys: &[u32],
    lits: &[i32],
    marks: &[u8],
    clauses: &[i32],
    counters: &mut [usize; 7],
    id: &mut usize,
) -> u32
    ensures { DummyTold (db nodes.old inputs.now keys.now lits.now marks.now clauses.now (counters_of counters.old))
        result id.new counters.new nodes.new }
{
    let c = Counters::from(*counters);
    let said = door::dummy(nodes, inputs, keys, lits, marks, clauses, c);
    tell::say_added(said, c, counters, id)
}

// Gives the new node's id. 2, 4, 7, 8, 9, 10, 11.
pub fn totdb_inner(
    nodes: &mut [u32],
    inputs: &[i32],
    keys: &mut [u32],
    lits: &mut [i32],
    marks: &mut [u8],
    clauses: &[i32],
    counters: &mut [usize; 7],
    left: usize,
    lmul: usize,
    right: usize,
    rmul: usize,
    id: &mut usize,
) -> u32
    ensures { InnerTold (db nodes.old inputs.now keys.old lits.old marks.old clauses.now (counters_of counters.old)) (pair_of left lmul right rmul)
        result id.new counters.new nodes.new keys.new lits.new marks.new }
{
    let c = Counters::from(*counters);
    let said = door::inner(
        nodes,
        inputs,
        keys,
        lits,
        marks,
        clauses,
        c,
        Pair {
            left,
            lmul,
            right,
            rmul,
        },
    );
    tell::say_added(said, c, counters, id)
}

// Gives the output's literal. `demand`: 1 If, 2 OnlyIf, any other both. 2, 3, 4, 5, 1, 12, 13.
pub fn totdb_define_unweighted(
    nodes: &[u32],
    inputs: &[i32],
    keys: &[u32],
    lits: &mut [i32],
    marks: &mut [u8],
    clauses: &mut [i32],
    ints: &mut [i32],
    bytes: &mut [u8],
    counters: &mut [usize; 7],
    id: usize,
    i: usize,
    demand: u32,
    lit: &mut i32,
) -> u32
    ensures { DemandTold (unweighted_call (db nodes.now inputs.now keys.now lits.old marks.old clauses.old (counters_of counters.old))
        (work ints.old bytes.old) id i (semantics_of demand)) result lit.new counters.new lits.new marks.new clauses.new }
{
    let c = Counters::from(*counters);
    let semantics = Semantics::from(demand);
    let said = door::define_unweighted(
        nodes, inputs, keys, lits, marks, clauses, ints, bytes, c, id, i, semantics,
    );
    tell::say_demanded(said, c, counters, lit)
}

// Gives the output's literal. 2, 3, 4, 1, 12, 13.
pub fn totdb_define_weighted(
    nodes: &[u32],
    inputs: &[i32],
    keys: &[u32],
    lits: &mut [i32],
    marks: &mut [u8],
    clauses: &mut [i32],
    ints: &mut [i32],
    bytes: &mut [u8],
    counters: &mut [usize; 7],
    id: usize,
    v: usize,
    lit: &mut i32,
) -> u32
    ensures { DemandTold (weighted_call (db nodes.now inputs.now keys.now lits.old marks.old clauses.old (counters_of counters.old))
        (work ints.old bytes.old) id v) result lit.new counters.new lits.new marks.new clauses.new }
{
    let c = Counters::from(*counters);
    let said = door::define_weighted(
        nodes, inputs, keys, lits, marks, clauses, ints, bytes, c, id, v,
    );
    tell::say_demanded(said, c, counters, lit)
}

// 2, 3, 4, 12.
pub fn totdb_reserve_vars(
    nodes: &[u32],
    inputs: &[i32],
    keys: &[u32],
    lits: &mut [i32],
    marks: &[u8],
    clauses: &[i32],
    ints: &mut [i32],
    bytes: &mut [u8],
    counters: &mut [usize; 7],
    id: usize,
) -> u32
    ensures { ReserveTold (db nodes.now inputs.now keys.now lits.old marks.now clauses.now (counters_of counters.old)) (work ints.old bytes.old) id
        result counters.new lits.new }
{
    let c = Counters::from(*counters);
    let said = door::reserve_vars(
        nodes, inputs, keys, lits, marks, clauses, ints, bytes, c, id,
    );
    tell::say_kept(said, c, counters)
}

// Gives the node's value. 2, 3, 4, 14.
pub fn totdb_value(
    nodes: &[u32],
    inputs: &[i32],
    keys: &[u32],
    lits: &[i32],
    marks: &[u8],
    clauses: &[i32],
    ints: &mut [i32],
    bytes: &mut [u8],
    counters: &[usize; 7],
    id: usize,
    assign: &[u8],
    value: &mut usize,
) -> u32
    ensures { ValueTold (value_call (db nodes.now inputs.now keys.now lits.now marks.now clauses.now (counters_of counters.now)) (work ints.old bytes.old) id assign.now).said
        result (pos value.new) }
{
    let c = Counters::from(*counters);
    let said = door::value(
        nodes, inputs, keys, lits, marks, clauses, ints, bytes, c, id, assign,
    );
    tell::say_valued(said, value)
}

// 2.
pub fn totdb_reset(
    nodes: &[u32],
    inputs: &[i32],
    keys: &[u32],
    lits: &[i32],
    marks: &mut [u8],
    clauses: &[i32],
    counters: &mut [usize; 7],
) -> u32
    ensures { ResetTold (db nodes.now inputs.now keys.now lits.now marks.old clauses.now (counters_of counters.old))
        result counters.new marks.new }
{
    let c = Counters::from(*counters);
    let said = door::reset(nodes, inputs, keys, lits, marks, clauses, c);
    tell::say_kept(said, c, counters)
}

// 2.
pub fn totdb_empty_clauses(
    nodes: &[u32],
    inputs: &[i32],
    keys: &[u32],
    lits: &[i32],
    marks: &[u8],
    clauses: &[i32],
    counters: &mut [usize; 7],
) -> u32
    ensures { Told (empty_call (db nodes.now inputs.now keys.now lits.now marks.now clauses.now (counters_of counters.old))).said
        result (pos 0) counters.new }
{
    let c = Counters::from(*counters);
    let said = door::empty_clauses(nodes, inputs, keys, lits, marks, clauses, c);
    tell::say_kept(said, c, counters)
}
