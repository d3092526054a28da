//! The checks of a code line, read front to back, each field once, into tables.
ghost use Rattle.std.specs.Prelude.{◌≡◌, [], ◌+◌, ◌*◌, ◌≤◌, length, get_or, OnOk, IfOk};
ghost use Rattle.trellis.specs.Rules.{size_of};
ghost use Rattle.trellis.specs.Sizes.{most_edges, most_checks};
ghost use Rattle.machine.specs.CodeLine.{read_edge as the_edge};
ghost use Rattle.machine.specs.inner.Tables.{edges_into, check_into, checks_into};
ghost use Rattle.codeline.specs.inner.Reading.{put_columns, put_weights, edge_read, edges_read, check_read, checks_read};

use crate::answers::Numbers;
use crate::reader::Reader;
use crate::tables::{Edge, Tables};
use refusal::Refusal;

// "for each edge the column (two bytes, high first, below N, rising within the check) and weight".
#[tactic(auto, unfolding(machine::specs::CodeLine::read_edge))]
fn read_edge(line: &mut Reader<'_>, n: usize, q: usize, low: usize) -> Result<Edge, Refusal>
    requires { line.old.at + 3 ≤ length line.old.src.now }
    ensures read { edge_read result ≡ the_edge line.old.src.now line.old.at n q low }
    ensures src { line.new.src ≡ line.old.src }
    ensures at { OnOk result (line.new.at ≡ line.old.at + 3) }
{
    let column = line.word();
    let c = usize::from(column);
    if !(low..n).contains(&c) {
        return Err(Refusal::Column);
    }
    let weight = line.byte();
    if !(1..q).contains(&usize::from(weight)) {
        return Err(Refusal::Weight);
    }
    Ok(Edge { column, weight })
}

// "then 10 and 11 edge by edge": `count` edges, behind the `from` edges that the tables have. That count is handed down, here and below: a
// table that is only written need not be cleared where nobody reads it.
#[tactic(auto, using(crate::proofs::Parsing::edges_bad, crate::proofs::Parsing::edges_more, crate::proofs::Parsing::edges_done))]
fn edges(
    line: &mut Reader<'_>,
    count: usize,
    n: usize,
    q: usize,
    from: usize,
    tables: &mut Tables,
) -> Result<(), Refusal>
    requires counted { from ≡ tables.old.edges }
    requires left { line.old.at + 3 * count ≤ length line.old.src.now }
    requires room { tables.old.edges + count ≤ most_edges }
    ensures read { edges_read result tables.new ≡ edges_into count line.old.src.now line.old.at n q 0 (put_columns tables.old) (put_weights tables.old) }
    ensures src { line.new.src ≡ line.old.src }
    ensures at { OnOk result (line.new.at ≡ line.old.at + 3 * count) }
    ensures edges { OnOk result (tables.new.edges ≡ tables.old.edges + count) }
    ensures degrees { tables.new.degrees ≡ tables.old.degrees }
{
    let mut low = 0;
    for i in 0..count {
        let edge = read_edge(line, n, q, low)?;
        tables.put(from + i, edge);
        low = usize::from(edge.column) + 1;
    }
    tables.edges = from + count;
    Ok(())
}

// "in each check 5 for the degree byte, 9, 5 for its edges": one check, behind the edges that the tables have.
#[tactic(auto, unfolding(machine::specs::inner::Tables::check_into))]
fn check(
    line: &mut Reader<'_>,
    n: usize,
    q: usize,
    from: usize,
    tables: &mut Tables,
) -> Result<u8, Refusal>
    requires counted { from ≡ tables.old.edges }
    ensures read { check_read result tables.new ≡ check_into line.old.src.now line.old.at n q tables.old.edges (put_columns tables.old) (put_weights tables.old) }
    ensures degree { IfOk result (λ d. d ≡ get_or line.old.src.now line.old.at 0) }
    ensures src { line.new.src ≡ line.old.src }
    ensures at { IfOk result (λ d. line.new.at ≡ line.old.at + 1 + 3 * d) }
    ensures edges { IfOk result (λ d. tables.new.edges ≡ tables.old.edges + d) }
    ensures degrees { tables.new.degrees ≡ tables.old.degrees }
{
    if line.left() == 0 {
        return Err(Refusal::CodeLength);
    }
    let degree = line.byte();
    let d = usize::from(degree);
    if !(2..=sizes::MOST_DEGREE).contains(&d) || from + d > sizes::MOST_EDGES {
        return Err(Refusal::Degree);
    }
    if line.left() < 3 * d {
        return Err(Refusal::CodeLength);
    }
    edges(line, d, n, q, from, tables)?;
    Ok(degree)
}

/// "Then M checks"; "last 5 for bytes left over".
#[tactic(auto, using(crate::proofs::Parsing::checks_bad, crate::proofs::Parsing::checks_more, crate::proofs::Parsing::checks_done, crate::proofs::Parsing::checks_over))]
pub fn checks(line: &mut Reader<'_>, numbers: Numbers, tables: &mut Tables) -> Result<(), Refusal>
    requires room { numbers.checks ≤ most_checks }
    requires none { tables.old.edges ≡ 0 }
    ensures read { checks_read result numbers.checks tables.new
        ≡ checks_into numbers.checks line.old.src.now line.old.at numbers.columns (size_of numbers.first) 0 [] [] [] }
    ensures src { line.new.src ≡ line.old.src }
    ensures degrees { length tables.new.degrees ≡ most_checks }
{
    let n = usize::from(numbers.columns);
    let q = rules::size(numbers.first);
    let mut edges = 0;
    // By index: the tables are lent on within the turn.
    for m in 0..usize::from(numbers.checks) {
        let degree = check(line, n, q, edges, tables)?;
        tables.degrees[m] = degree;
        edges += usize::from(degree);
    }
    if line.left() != 0 {
        return Err(Refusal::CodeLength);
    }
    Ok(())
}
