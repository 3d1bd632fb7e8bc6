// Gate lists read from a text (document 01, 'Lines on the wire'; refusals 2 to 7): one list, two lists, and two lists with lines behind them.
// Every text gets an answer. Reading goes from the top; the first fault ends it, and no more of the text is looked at.
#![tactic(auto)]

mod lines; // the lines of a list: header, gates, outputs, and the end
pub mod pair; // two lists, and the variables of their miter
mod plain; // gates and outputs in a row

ghost use Rattle.std.specs.Prelude.{◌≡◌, ◌+◌, drop, IfOk};
ghost use Rattle.laws.specs.ListText.{list_bytes};
ghost use Rattle.model.specs.Lists.{read_one, read_both, read_lists};
ghost use Rattle.refusal.specs.Answers.{answer_of, answer_by};
ghost use Rattle.netlist.specs.Says.{HeaderRead, ListSays, PartSays, RightSays, both_read};

use frame::cursor::Cursor;
use lines::{read_body, read_end, read_header};
use listing::{Counts, GateList};
use pair::Pair;
use refusal::{Reason, Refusal};

// The list whose header was read, with what stands behind that; and the cursor behind the list. Inlined, as are those that hand it on and what they
// call in `lines`: a list and a cursor come back through memory, which for a short list takes as long as reading it.
#[inline(always)]
fn read_behind<'a>(
    header: Cursor<'a>,
    counts: Counts,
    body: Cursor<'a>,
) -> Result<(GateList<'a>, Cursor<'a>), Refusal>
    requires { HeaderRead header counts body }
    ensures { ListSays header.entry counts result }
{
    let next = read_body(body, counts)?;
    Ok((GateList::new(header.rest, counts), next))
}

// A list at a cursor, and the cursor behind it.
#[inline(always)]
fn read_part(cursor: Cursor<'_>) -> Result<(GateList<'_>, Cursor<'_>), Refusal>
    ensures { PartSays cursor.entry result }
{
    let (counts, body) = read_header(cursor)?;
    read_behind(cursor, counts, body)
}

// The right list behind a left one: its header is held to the left's before its gates are read.
#[inline(always)]
fn read_right<'a>(
    left: &GateList<'_>,
    middle: Cursor<'a>,
) -> Result<(GateList<'a>, Cursor<'a>), Refusal>
    ensures { RightSays left.now middle.entry result }
{
    let (counts, body) = read_header(middle)?;
    let due = left.counts();
    if counts.inputs != due.inputs || counts.outputs != due.outputs {
        return Err(Reason::Unlike.at(middle.line));
    }
    read_behind(middle, counts, body)
}

// The checker's text: the left list and the right list, and what is left of the text behind them. Where that begins is worked out from the counts,
// since before a faulty byte several places have the same lines.
pub fn read_both(text: &[u8]) -> Result<(Pair<'_>, Cursor<'_>), Refusal>
    ensures reads { answer_by both_read result ≡ read_both text.now }
    ensures behind { IfOk result (λ r. r.1.rest.now ≡ drop (list_bytes r.0.left + list_bytes r.0.right) text.now) }
{
    let (left, middle) = read_part(Cursor::start(text))?;
    let (right, next) = read_right(&left, middle)?;
    let behind = Cursor::start(text).past(left.bytes() + right.bytes(), next.line - 1);
    Ok((Pair { left, right }, behind))
}

// The evaluator's text: one list, and nothing behind it.
pub fn read_list(text: &[u8]) -> Result<GateList<'_>, Refusal>
    ensures { answer_of result ≡ read_one text.now }
{
    let (list, next) = read_part(Cursor::start(text))?;
    read_end(next)?;
    Ok(list)
}

// The engine's text: two lists, and nothing behind them.
pub fn read_lists(text: &[u8]) -> Result<Pair<'_>, Refusal>
    ensures { answer_of result ≡ read_lists text.now }
{
    let (pair, next) = read_both(text)?;
    read_end(next)?;
    Ok(pair)
}
