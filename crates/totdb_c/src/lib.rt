// The exports for programs in other languages: `rt lib` makes the static library of them. Each calls the function of its name in crate
// totdb and states its clauses again.
#![tactic(auto)]

ghost use Rattle.std.specs.Prelude.{◌≡◌, pos};
ghost use Rattle.paper.specs.Calls.{Db, check_call, fresh_step, unweighted_call, weighted_call, value_call, empty_call};
ghost use Rattle.door.specs.Door.{db, work};
ghost use Rattle.paper.specs.Numbers.{counters_of, semantics_of};
ghost use Rattle.tell.specs.Tell.{Told, ValueTold};
ghost use Rattle.totdb.specs.Foreign.{pair_of, LeafTold, DummyTold, InnerTold, DemandTold, ReserveTold, ResetTold};

// The table check: 0 or 2.
#[unsafe(no_mangle)]
pub extern "C" fn totdb_check(
    nodes: &[u32],
    inputs: &[i32],
    keys: &[u32],
    lits: &[i32],
    marks: &[u8],
    clauses: &[i32],
    counters: &[usize; 7],
) -> u32
    ensures { result ≡ (check_call (db nodes.now inputs.now keys.now lits.now marks.now clauses.now (counters_of counters.now))).said.number }
{
    totdb::totdb_check(nodes, inputs, keys, lits, marks, clauses, counters)
}

// Begins a table; what the counters held does not matter. 0 or 15.
#[unsafe(no_mangle)]
pub extern "C" fn totdb_fresh(counters: &mut [usize; 7], first: usize, last: usize) -> u32
    ensures { (d : Db) → d.counters ≡ counters_of counters.old → Told (fresh_step d first last).said result (pos 0) counters.new }
{
    totdb::totdb_fresh(counters, first, last)
}

// Gives the leaf's id. 2, 6, 11.
#[unsafe(no_mangle)]
pub extern "C" fn totdb_leaf(
    nodes: &mut [u32],
    inputs: &mut [i32],
    keys: &[u32],
    lits: &[i32],
    marks: &[u8],
    clauses: &[i32],
    counters: &mut [usize; 7],
    x: i32,
    id: &mut usize,
) -> u32
    ensures { LeafTold (db nodes.old inputs.old keys.now lits.now marks.now clauses.now (counters_of counters.old)) x
        result id.new counters.new nodes.new inputs.new }
{
    totdb::totdb_leaf(nodes, inputs, keys, lits, marks, clauses, counters, x, id)
}

// Gives the dummy's id. 2, 11.
#[unsafe(no_mangle)]
pub extern "C" fn totdb_dummy(
    nodes: &mut [u32],
    inputs: &[i32],
    keys: &[u32],
    lits: &[i32],
    marks: &[u8],
    clauses: &[i32],
    counters: &mut [usize; 7],
    id: &mut usize,
) -> u32
    ensures { DummyTold (db nodes.old inputs.now keys.now lits.now marks.now clauses.now (counters_of counters.old))
        result id.new counters.new nodes.new }
{
    totdb::totdb_dummy(nodes, inputs, keys, lits, marks, clauses, counters, id)
}

// Gives the new node's id. 2, 4, 7, 8, 9, 10, 11.
#[unsafe(no_mangle)]
pub extern "C" fn totdb_inner(
    nodes: &mut [u32],
    inputs: &[i32],
    keys: &mut [u32],
    lits: &mut [i32],
    marks: &mut [u8],
    clauses: &[i32],
    counters: &mut [usize; 7],
    left: usize,
    lmul: usize,
    right: usize,
    rmul: usize,
    id: &mut usize,
) -> u32
    ensures { InnerTold (db nodes.old inputs.now keys.old lits.old marks.old clauses.now (counters_of counters.old)) (pair_of left lmul right rmul)
        result id.new counters.new nodes.new keys.new lits.new marks.new }
{
    totdb::totdb_inner(
        nodes, inputs, keys, lits, marks, clauses, counters, left, lmul, right, rmul, id,
    )
}

// Gives the output's literal. `demand`: 1 If, 2 OnlyIf, any other both. 2, 3, 4, 5, 1, 12, 13.
#[unsafe(no_mangle)]
pub extern "C" fn totdb_define_unweighted(
    nodes: &[u32],
    inputs: &[i32],
    keys: &[u32],
    lits: &mut [i32],
    marks: &mut [u8],
    clauses: &mut [i32],
    ints: &mut [i32],
    bytes: &mut [u8],
    counters: &mut [usize; 7],
    id: usize,
    i: usize,
    demand: u32,
    lit: &mut i32,
) -> u32
    ensures { DemandTold (unweighted_call (db nodes.now inputs.now keys.now lits.old marks.old clauses.old (counters_of counters.old))
        (work ints.old bytes.old) id i (semantics_of demand)) result lit.new counters.new lits.new marks.new clauses.new }
{
    totdb::totdb_define_unweighted(
        nodes, inputs, keys, lits, marks, clauses, ints, bytes, counters, id, i, demand, lit,
    )
}

// Gives the output's literal. 2, 3, 4, 1, 12, 13.
#[unsafe(no_mangle)]
pub extern "C" fn totdb_define_weighted(
    nodes: &[u32],
    inputs: &[i32],
    keys: &[u32],
    lits: &mut [i32],
    marks: &mut [u8],
    clauses: &mut [i32],
    ints: &mut [i32],
    bytes: &mut [u8],
    counters: &mut [usize; 7],
    id: usize,
    v: usize,
    lit: &mut i32,
) -> u32
    ensures { DemandTold (weighted_call (db nodes.now inputs.now keys.now lits.old marks.old clauses.old (counters_of counters.old))
        (work ints.old bytes.old) id v) result lit.new counters.new lits.new marks.new clauses.new }
{
    totdb::totdb_define_weighted(
        nodes, inputs, keys, lits, marks, clauses, ints, bytes, counters, id, v, lit,
    )
}

// 2, 3, 4, 12.
#[unsafe(no_mangle)]
pub extern "C" fn totdb_reserve_vars(
    nodes: &[u32],
    inputs: &[i32],
    keys: &[u32],
    lits: &mut [i32],
    marks: &[u8],
    clauses: &[i32],
    ints: &mut [i32],
    bytes: &mut [u8],
    counters: &mut [usize; 7],
    id: usize,
) -> u32
    ensures { ReserveTold (db nodes.now inputs.now keys.now lits.old marks.now clauses.now (counters_of counters.old)) (work ints.old bytes.old) id
        result counters.new lits.new }
{
    totdb::totdb_reserve_vars(
        nodes, inputs, keys, lits, marks, clauses, ints, bytes, counters, id,
    )
}

// Gives the node's value. 2, 3, 4, 14.
#[unsafe(no_mangle)]
pub extern "C" fn totdb_value(
    nodes: &[u32],
    inputs: &[i32],
    keys: &[u32],
    lits: &[i32],
    marks: &[u8],
    clauses: &[i32],
    ints: &mut [i32],
    bytes: &mut [u8],
    counters: &[usize; 7],
    id: usize,
    assign: &[u8],
    value: &mut usize,
) -> u32
    ensures { ValueTold (value_call (db nodes.now inputs.now keys.now lits.now marks.now clauses.now (counters_of counters.now)) (work ints.old bytes.old) id assign.now).said
        result (pos value.new) }
{
    totdb::totdb_value(
        nodes, inputs, keys, lits, marks, clauses, ints, bytes, counters, id, assign, value,
    )
}

// 2.
#[unsafe(no_mangle)]
pub extern "C" fn totdb_reset(
    nodes: &[u32],
    inputs: &[i32],
    keys: &[u32],
    lits: &[i32],
    marks: &mut [u8],
    clauses: &[i32],
    counters: &mut [usize; 7],
) -> u32
    ensures { ResetTold (db nodes.now inputs.now keys.now lits.now marks.old clauses.now (counters_of counters.old))
        result counters.new marks.new }
{
    totdb::totdb_reset(nodes, inputs, keys, lits, marks, clauses, counters)
}

// 2.
#[unsafe(no_mangle)]
pub extern "C" fn totdb_empty_clauses(
    nodes: &[u32],
    inputs: &[i32],
    keys: &[u32],
    lits: &[i32],
    marks: &[u8],
    clauses: &[i32],
    counters: &mut [usize; 7],
) -> u32
    ensures { Told (empty_call (db nodes.now inputs.now keys.now lits.now marks.now clauses.now (counters_of counters.old))).said
        result (pos 0) counters.new }
{
    totdb::totdb_empty_clauses(nodes, inputs, keys, lits, marks, clauses, counters)
}
