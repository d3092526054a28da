//! The code line: its numbers, and its checks in tables.
#![tactic(auto)]

pub mod answers;
mod checks;
pub mod code;
mod head;
mod lending;
mod reader;
mod tables;

ghost use Rattle.std.specs.Prelude.{◌≡◌, ◌≤◌, IfOk};
ghost use Rattle.trellis.specs.Sizes.{most_checks};
ghost use Rattle.machine.specs.CodeLine.{Code as CodeIs, good, parse, numbers_of};
ghost use Rattle.codeline.specs.Answers.{header_numbers, summary_of, Tells, degree_table, column_table, weight_table, left_in};
ghost use Rattle.codeline.specs.inner.Reading.{Filled};

use crate::answers::{Numbers, Summary};
use crate::reader::Reader;
use crate::tables::Tables;
use refusal::Refusal;

// The whole line. Where it is refused, the tables may hold anything.
#[tactic(auto, using(crate::proofs::Parsing::head_refused, crate::proofs::Parsing::not_filled, crate::proofs::Parsing::rest_refused, crate::proofs::Parsing::read_numbers, crate::proofs::Parsing::read_filled))]
fn read(code: &[u8], tables: &mut Tables) -> Result<Numbers, Refusal>
    requires { tables.old.edges ≡ 0 }
    ensures numbers { header_numbers result ≡ numbers_of (parse code.now) }
    ensures checks { IfOk result (λ k. k.checks ≤ most_checks) }
    ensures tables { (C : CodeIs) → parse code.now ≡ good C → Filled C tables.new }
{
    let mut line = Reader::new(code);
    let numbers = head::head(&mut line)?;
    checks::checks(&mut line, numbers, tables)?;
    Ok(numbers)
}

/// The numbers of a code line, whose checks are read too.
pub fn code_line(code: &[u8]) -> Result<Numbers, Refusal>
    ensures { header_numbers result ≡ numbers_of (parse code.now) }
{
    read(code, &mut Tables::new())
}

/// All 0 but the number where the line is refused.
pub fn describe(code: &[u8]) -> Summary
    ensures { Tells (summary_of (parse code.now)) result }
{
    match code_line(code) {
        Err(refusal) => lending::refused(refusal),
        Ok(numbers) => Summary {
            number: 0,
            first: numbers.first,
            columns: numbers.columns,
            checks: numbers.checks,
            scale: numbers.scale,
            limit: numbers.limit,
            store: lending::store_length(numbers.first, numbers.checks, code.len()),
        },
    }
}

/// The numbers as code_line answers them, for whoever goes on with the checks: the degrees, and all columns and weights end to end, in tables that have room for the
/// largest code. A line may be refused at its end, so it is read into tables of the call's own, and these are handed over where it is
/// accepted.
#[tactic(auto, using(crate::proofs::Answered::refused_left, crate::proofs::Answered::degrees_left, crate::proofs::Answered::columns_left, crate::proofs::Answered::weights_left))]
pub fn code_tables(
    code: &[u8],
    degrees: &mut [u8; sizes::MOST_CHECKS],
    columns: &mut [u16; sizes::MOST_EDGES],
    weights: &mut [u8; sizes::MOST_EDGES],
) -> Result<Numbers, Refusal>
    ensures numbers { header_numbers result ≡ numbers_of (parse code.now) }
    ensures degrees_then { degrees.new ≡ left_in degree_table (parse code.now) degrees.old }
    ensures columns_then { columns.new ≡ left_in column_table (parse code.now) columns.old }
    ensures weights_then { weights.new ≡ left_in weight_table (parse code.now) weights.old }
{
    let mut tables = Tables::new();
    let numbers = read(code, &mut tables)?;
    tables.hand_over(numbers, degrees, columns, weights);
    Ok(numbers)
}
