// The line of an answer.
ghost use Rattle.std.specs.Prelude.{◌≡◌, ◌+◌, ◌≤◌, ◌++◌, ◌∷◌, [], true, false, take, drop, length, codes, OnOk};
ghost use Rattle.std.specs.Fmt.{decimal, signed_decimal};
ghost use Rattle.std.specs.Io.KnownBytes.{Appends};
ghost use Rattle.plans.specs.Heads.{head_text, told_of, value_of};
ghost use Rattle.plans_rows.specs.Rows.{node_count};

use plans::{Given, LONGEST, LineError, Said, bytes_before, literal_before, number_before};
use plans_rows::Db;
use std::fmt;
use std::io::Write;

// The parts of an answer are put together from the last to the first, and written at once: a write costs more than its bytes.
const ROOM: usize = 64;

// An error of the output takes more room than an answer: that there was one is all that is handed on. `Telling` keeps it for the
// one who is told.
fn put<W: Write>(out: &mut W, text: &[u8]) -> fmt::Result
    ensures { OnOk result (Appends (W.contents out.old) (W.contents out.new) text.now) }
{
    out.write_all(text).map_err(|_| fmt::Error)
}

fn given_before(text: &mut [u8; ROOM], at: usize, given: Given) -> usize
    requires room { 21 ≤ at }
    requires inside { at ≤ 64 }
    ensures within { result ≤ at }
    ensures short { at ≤ result + 21 }
    ensures written { drop result text.new ≡ signed_decimal (value_of given) ++ drop at text.old }
{
    match given {
        Given::Number(n) => number_before(text, at, n as u64),
        Given::Literal(x) => literal_before(text, at, x),
    }
}

// What is said, as its `Display` has it.
fn said_before(text: &mut [u8; ROOM], at: usize, said: Said) -> usize
    requires room { 23 ≤ at }
    requires inside { at ≤ 64 }
    ensures within { result ≤ at }
    ensures written { drop result text.new
        ≡ head_text (told_of said.given said.counters) ++ drop at text.old }
{
    match said.given {
        Ok(given) => {
            let start = given_before(text, at, given);
            bytes_before(text, start, b"0 ")
        }
        Err(why) => {
            let start = bytes_before(text, at, b" 0");
            number_before(text, start, u32::from(why) as u64)
        }
    }
}

// The words that a call appended to the clause row.
fn put_words<W: Write>(out: &mut W, words: &[i32]) -> fmt::Result {
    for x in words {
        let mut text = [0; ROOM];
        let start = literal_before(&mut text, ROOM, *x);
        let start = bytes_before(&mut text, start, b" ");
        put(out, &text[start..])?;
    }
    Ok(())
}

// The end of an answer: the next variable.
fn put_next<W: Write>(out: &mut W, next: usize) -> fmt::Result
    ensures { OnOk result (Appends (W.contents out.old) (W.contents out.new)
        (codes " | " ++ decimal next ++ 10 ∷ [])) }
{
    let mut text = [0; ROOM];
    let start = bytes_before(&mut text, ROOM, b"\n");
    let start = number_before(&mut text, start, next as u64);
    let start = bytes_before(&mut text, start, b" | ");
    put(out, &text[start..])
}

// An answer without words.
fn put_short<W: Write>(out: &mut W, said: Said, next: usize) -> fmt::Result
    ensures { OnOk result (Appends (W.contents out.old) (W.contents out.new)
        (head_text (told_of said.given said.counters) ++ codes " | | " ++ decimal next ++ 10 ∷ [])) }
{
    let mut text = [0; ROOM];
    let start = bytes_before(&mut text, ROOM, b"\n");
    let start = number_before(&mut text, start, next as u64);
    let start = bytes_before(&mut text, start, b" | | ");
    let start = said_before(&mut text, start, said);
    put(out, &text[start..])
}

// What is said, and what parts it from the words.
fn put_head<W: Write>(out: &mut W, said: Said) -> fmt::Result
    ensures { OnOk result (Appends (W.contents out.old) (W.contents out.new)
        (head_text (told_of said.given said.counters) ++ codes " |")) }
{
    let mut text = [0; ROOM];
    let start = bytes_before(&mut text, ROOM, b" |");
    let start = said_before(&mut text, start, said);
    put(out, &text[start..])
}

pub(crate) fn put_call<W: Write>(
    out: &mut W,
    said: Said,
    words: &[i32],
    next: usize,
) -> fmt::Result {
    if words.is_empty() {
        return put_short(out, said, next);
    }
    put_head(out, said)?;
    put_words(out, words)?;
    put_next(out, next)
}

// An answer that gives nothing back, and has no words.
fn put_plain<W: Write>(out: &mut W, head: &[u8], next: usize) -> fmt::Result
    requires { length head.now ≤ 3 }
    ensures { OnOk result (Appends (W.contents out.old) (W.contents out.new)
        (head.now ++ codes " | | " ++ decimal next ++ 10 ∷ [])) }
{
    let mut text = [0; ROOM];
    let start = bytes_before(&mut text, ROOM, b"\n");
    let start = number_before(&mut text, start, next as u64);
    let start = bytes_before(&mut text, start, b" | | ");
    let start = bytes_before(&mut text, start, head);
    put(out, &text[start..])
}

// A table without nodes is as short as other answers, and written as they are.
pub(crate) fn put_dump<W: Write>(out: &mut W, db: &Db) -> fmt::Result
    ensures { node_count db.now ≡ 0 → OnOk result (Appends (W.contents out.old) (W.contents out.new)
        (codes "0 | | " ++ decimal db.now.counters.next ++ 10 ∷ [])) }
{
    if db.node_count() == 0 {
        return put_plain(out, b"0", db.counters.next);
    }
    put_table(out, db)?;
    put_plain(out, b"", db.counters.next)
}

// Apart, so that no formatter is made ready for a table without nodes.
#[inline(never)]
fn put_table<W: Write>(out: &mut W, db: &Db) -> fmt::Result {
    write!(out, "{db}").map_err(|_| fmt::Error)
}

// The answer to a command that gives nothing back.
pub(crate) fn put_done<W: Write>(
    out: &mut W,
    done: Result<(), LineError>,
    next: usize,
) -> fmt::Result {
    match done {
        Ok(()) => put_plain(out, b"0 0", next),
        Err(LineError::Unreadable) => put_plain(out, b"bad", next),
    }
}

// The first n bytes, or all where there are fewer.
fn front(line: &[u8], n: usize) -> &[u8]
    ensures { result.now ≡ take n line.now }
{
    line.get(..n).unwrap_or(line)
}

// The line itself, before its answer. One that is passed over has none.
pub(crate) fn put_line<W: Write>(out: &mut W, line: &[u8], answered: bool) -> fmt::Result
    ensures answered { answered ≡ true → OnOk result (Appends (W.contents out.old) (W.contents out.new)
        (take LONGEST line.now ++ codes " => ")) }
    ensures passed { answered ≡ false → OnOk result (Appends (W.contents out.old) (W.contents out.new)
        (take LONGEST line.now ++ 10 ∷ [])) }
{
    put(out, front(line, LONGEST))?;
    if answered {
        put(out, b" => ")
    } else {
        put(out, b"\n")
    }
}
