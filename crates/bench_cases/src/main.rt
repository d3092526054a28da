//! Runs the cases of the bench table, SPEC 11.2, with degrees from 2 on, through the public calls and prints what they answer, a line
//! each; the file stdout beside src/ holds what is expected.
#![tactic(auto)]

use refusal::Refusal;
use std::io;

// Sixty-three groups of seven bytes and thirty-two shifts.
const MOST_RECORD: usize = 63 * 7 + 32;

fn print_refusal(rt: &impl Print, refusal: Refusal) -> io::Result<()> {
    let number = u8::from(refusal);
    println!(rt; "refused {number}")
}

fn product_case(rt: &impl Print, p: u8, a: u8, b: u8) -> io::Result<()> {
    match field::product(p, a, b) {
        Ok(x) => println!(rt; "product {x:02X}"),
        Err(refusal) => print_refusal(rt, refusal),
    }
}

// What a check writes, or its refusal.
fn record_case(rt: &impl Print, first: u8, weights: &[u8], costs: &[u8]) -> io::Result<()> {
    let mut record = [0u8; MOST_RECORD];
    let answer = checknode::check(first, weights, costs, &mut record);
    print_record(rt, answer, &record)
}

fn print_record(rt: &impl Print, answer: Result<usize, Refusal>, record: &[u8]) -> io::Result<()> {
    match answer {
        Ok(n) => {
            print!(rt; "record ")?;
            for b in &record[..n.min(record.len())] {
                print!(rt; "{b:02X}")?;
            }
            println!(rt)
        }
        Err(refusal) => print_refusal(rt, refusal),
    }
}

// A check of d columns of cost 0, weights 1, and the expansion of its record (of no record where the check is refused): how many bytes each
// writes, or its refusal.
fn degree_case(rt: &impl Print, weights: &[u8], costs: &[u8]) -> io::Result<()> {
    let mut record = [0u8; MOST_RECORD];
    let answer = checknode::check(2, weights, costs, &mut record);
    print_count(rt, answer)?;
    let n = answer.unwrap_or(0).min(record.len());
    let mut out = [0u8; 128];
    print_count(rt, expansion::expand(2, weights, &record[..n], &mut out))
}

fn print_count(rt: &impl Print, answer: Result<usize, Refusal>) -> io::Result<()> {
    match answer {
        Ok(n) => println!(rt; "bytes {n}"),
        Err(refusal) => print_refusal(rt, refusal),
    }
}

fn product_cases(rt: &impl Print) -> io::Result<()> {
    product_case(rt, 3, 3, 3)?;
    product_case(rt, 3, 4, 4)?;
    product_case(rt, 4, 2, 9)?;
    product_case(rt, 6, 2, 32)?;
    product_case(rt, 7, 0, 0)?;
    product_case(rt, 2, 4, 0)
}

fn record_cases(rt: &impl Print) -> io::Result<()> {
    record_case(
        rt,
        2,
        b"\x01\x01\x01",
        b"\x00\x05\x07\x09\x00\x04\x08\x03\x00\x06\x02\x0A",
    )?;
    record_case(
        rt,
        2,
        b"\x01\x01\x01",
        b"\x05\x00\x09\x07\x00\x04\x08\x03\x00\x06\x02\x0A",
    )?;
    record_case(
        rt,
        2,
        b"\x01\x01\x01",
        b"\x00\x01\x09\x09\x00\x09\x01\x09\x00\x09\x09\x09",
    )?;
    record_case(
        rt,
        2,
        b"\x01\x01\x01",
        b"\x00\x00\x00\x00\x00\x00\x00\x00\x00\x00\x00\x00",
    )?;
    record_case(
        rt,
        2,
        b"\x01\x01\x01",
        b"\x00\xFF\xFF\xFF\x00\xFF\xFF\xFF\x00\xFF\xFF\xFF",
    )?;
    record_case(
        rt,
        2,
        b"\x01\x02\x03",
        b"\x09\x00\x09\x09\x09\x00\x09\x09\x09\x00\x09\x09",
    )
}

fn degree_cases(rt: &impl Print) -> io::Result<()> {
    let weights = [1u8; 33];
    let costs = [0u8; 132];
    degree_case(rt, &weights[..1], &costs[..4])?;
    degree_case(rt, &weights[..2], &costs[..8])?;
    degree_case(rt, &weights[..32], &costs[..128])?;
    degree_case(rt, &weights, &costs)
}

fn main(rt: HostRuntime) -> io::Result<()> {
    product_cases(&rt)?;
    record_cases(&rt)?;
    degree_cases(&rt)
}
