// What the clauses mean: the clauses that a run appends, and what whatever satisfies them makes true. There is no code here.
#![tactic(auto)]
