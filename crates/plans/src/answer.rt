// What the calls say, as specs/Numbers.antt of the crate `paper` has it.
use paper::{Added, Counters, Demanded, Refusal};
use std::fmt;

// What a done call gives back: an id, a value or a literal; the number 0 where it gives nothing.
#[derive(Clone, Copy, Debug)]
pub enum Given {
    Number(usize),
    Literal(i32),
}

// What a call says: what it gives back, or why it is refused; and the counters after it.
#[derive(Clone, Copy)]
pub struct Said {
    pub given: Result<Given, Refusal>,
    pub counters: Counters,
}

// The answer of a call.
pub trait Answer {
    ghost use Rattle.std.specs.Prelude.{◌≡◌};
    ghost use Rattle.paper.specs.declared.Counters.{Counters};
    ghost use Rattle.paper.specs.Numbers.{Said as Told};
    ghost use Rattle.plans.specs.Heads.{told_of};

    // What document 01 has it say, with the counters before the call.
    ghost says: { Self → Counters → Told };

    fn said(self, before: Counters) -> Said
        ensures { told_of result.given result.counters ≡ says self before };
}

impl Said {
    ghost use Rattle.std.specs.Prelude.{◌≡◌};

    fn done(given: Given, after: Counters) -> Said
        ensures given { result.given ≡ Ok given }
        ensures counters { result.counters ≡ after }
    {
        Said {
            given: Ok(given),
            counters: after,
        }
    }

    // A refused call leaves the counters as they were.
    fn refused(why: Refusal, before: Counters) -> Said
        ensures given { result.given ≡ Err why }
        ensures counters { result.counters ≡ before }
    {
        Said {
            given: Err(why),
            counters: before,
        }
    }
}

impl Answer for Result<Added, Refusal> {
    ghost use Rattle.paper.specs.Numbers.{added_said};

    ghost says = { added_said };

    fn said(self, before: Counters) -> Said {
        match self {
            Ok(done) => Said::done(Given::Number(done.id), done.counters),
            Err(why) => Said::refused(why, before),
        }
    }
}

impl Answer for Result<Demanded, Refusal> {
    ghost use Rattle.paper.specs.Numbers.{demanded_said};

    ghost says = { demanded_said };

    fn said(self, before: Counters) -> Said {
        match self {
            Ok(done) => Said::done(Given::Literal(done.lit), done.counters),
            Err(why) => Said::refused(why, before),
        }
    }
}

impl Answer for Result<Counters, Refusal> {
    ghost use Rattle.paper.specs.Numbers.{kept_said};

    ghost says = { kept_said };

    fn said(self, before: Counters) -> Said {
        match self {
            Ok(after) => Said::done(Given::Number(0), after),
            Err(why) => Said::refused(why, before),
        }
    }
}

impl Answer for Result<usize, Refusal> {
    ghost use Rattle.paper.specs.Numbers.{valued_said};

    ghost says = { valued_said };

    fn said(self, before: Counters) -> Said {
        match self {
            Ok(v) => Said::done(Given::Number(v), before),
            Err(why) => Said::refused(why, before),
        }
    }
}

// The table check.
impl Answer for bool {
    ghost use Rattle.plans.specs.Heads.{checked_said};

    ghost says = { checked_said };

    fn said(self, before: Counters) -> Said {
        if self {
            Said::done(Given::Number(0), before)
        } else {
            Said::refused(Refusal::TableFails, before)
        }
    }
}

impl fmt::Display for Given {
    ghost use Rattle.std.specs.Prelude.{Some};
    ghost use Rattle.std.specs.Fmt.{signed_decimal};
    ghost use Rattle.plans.specs.Heads.{value_of};

    ghost output = { λ g. Some (signed_decimal (value_of g)) };

    fn fmt<W: fmt::Write>(&self, f: &mut fmt::Formatter<W>) -> fmt::Result {
        match self {
            Given::Number(n) => write!(f, "{n}"),
            Given::Literal(x) => write!(f, "{x}"),
        }
    }
}

// Document 01's number, and what is given back; each is 0 where there is none.
impl fmt::Display for Said {
    ghost use Rattle.std.specs.Prelude.{Some};
    ghost use Rattle.plans.specs.Heads.{told_of, head_text};

    ghost output = { λ s. Some (head_text (told_of s.given s.counters)) };

    fn fmt<W: fmt::Write>(&self, f: &mut fmt::Formatter<W>) -> fmt::Result {
        match self.given {
            Ok(given) => write!(f, "0 {given}"),
            Err(why) => write!(f, "{} 0", u32::from(why)),
        }
    }
}
