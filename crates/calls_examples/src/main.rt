// The calls from Rattle, a line for each: its name, its answer, and the part that it hands back or the buffer as it is left, which was
// filled with aa; of a page the text. differential/src/named.rs has the examples and the edges.
#![tactic(auto)]

use code::refusal::{Condition, Refusal};
use std::io;

fn bytes(rt: &impl Print, s: &[u8]) -> io::Result<()> {
    print!(rt; " ")?;
    for byte in s {
        print!(rt; "{byte:02x}")?;
    }
    println!(rt; "")
}

// Number, place, and what was found: a degree or a length.
fn numbers(rt: &impl Print, answer: Result<usize, Refusal>) -> io::Result<()> {
    match answer {
        Ok(found) => print!(rt; " 0 0 {found}"),
        Err(refusal) => print!(rt; " {refusal} 0"),
    }
}

fn examine_term(rt: &impl Print, s: &[u8]) -> io::Result<()> {
    print!(rt; "examine a term:")?;
    numbers(rt, examine::examine_term(s))?;
    println!(rt; "")
}

// The term is handed back as a part of the caller's own bytes.
fn examine_file(rt: &impl Print, s: &[u8]) -> io::Result<()> {
    let r = calls::examine_file(s);
    let part = r.unwrap_or(&[]);
    print!(rt; "examine a file:")?;
    numbers(rt, r.map(|part| part.len()))?;
    bytes(rt, part)
}

fn write_type(rt: &impl Print, s: &[u8]) -> io::Result<()> {
    let mut out: [u8; 8] = [0xaa; 8];
    let r = calls::write_type(s, &mut out);
    print!(rt; "write a type:")?;
    match r.transpose() {
        None => print!(rt; " none")?,
        Some(written) => numbers(rt, written)?,
    }
    bytes(rt, &out)
}

fn apply_step(rt: &impl Print, s: &[u8], kind: u8, place: u16) -> io::Result<()> {
    let mut out: [u8; 8] = [0xaa; 8];
    let r = calls::apply_step(s, kind, place, &mut out);
    print!(rt; "apply a step:")?;
    numbers(rt, r)?;
    bytes(rt, &out)
}

fn print_term(rt: &impl Print, s: &[u8]) -> io::Result<()> {
    let mut out: [u8; 73] = [0xaa; 73];
    let r = printing::print_term(s, &mut out);
    print!(rt; "print a term:")?;
    numbers(rt, r)?;
    println!(rt; "")?;
    if r.is_ok() {
        rt.write_all(&out)?;
    }
    Ok(())
}

fn count_strings(rt: &impl Print, length: usize) -> io::Result<()> {
    print!(rt; "count strings: ")?;
    match counting::count_strings(length) {
        Ok(counts) => {
            let (accepted, malformed, unbound) = (
                counts.accepted,
                counts.malformed,
                counts.unbound,
            );
            println!(rt; "0 {accepted} {malformed} {unbound}")
        }
        Err(condition) => println!(rt; "{} 0 0 0", u32::from(condition)),
    }
}

fn check(rt: &impl Print, s: &[u8]) -> io::Result<()> {
    print!(rt; "check a file: ")?;
    match checker::check(s) {
        Ok(checked) => println!(rt; "0 0 {} {}", checked.comparisons, checked.degree),
        Err(refused) => {
            println!(rt;
                "{} {} {}",
                refused.refusal, refused.comparisons, refused.degree
            )
        }
    }
}

fn explain(rt: &impl Print, s: &[u8]) -> io::Result<()> {
    let mut left: [u8; 4] = [0xaa; 4];
    let mut right: [u8; 4] = [0xaa; 4];
    print!(rt; "explain a refusal: ")?;
    match explaining::explain(s, &mut left, &mut right) {
        Ok(checked) => print!(rt; "0 0 {} {} 0 0 0", checked.comparisons, checked.degree)?,
        Err(explained) => {
            let number = u32::from(Condition::from(explained.cause));
            print!(rt; "{number} {}", explained.place)?;
            print!(rt; " {} {}", explained.comparisons, explained.degree)?;
            let (first, second, third) = explained.cause.numbers();
            print!(rt; " {first} {second} {third}")?;
        }
    }
    bytes(rt, &left)?;
    bytes(rt, &right)
}

fn check_set(rt: &impl Print, s: &[u8]) -> io::Result<()> {
    print!(rt; "check a set: ")?;
    match sets::check_set(s) {
        Ok(checked) => println!(rt; "{} 0 0 {} 0", checked.files, checked.comparisons),
        Err(named) => {
            let refused = named.refused;
            print!(rt; "{} {}", named.file, refused.refusal)?;
            println!(rt; " {} {}", refused.comparisons, refused.degree)
        }
    }
}

fn main(rt: HostRuntime) -> io::Result<()> {
    examine_term(&rt, b"\xff\x00\xff\x01\x01")?;
    examine_file(&rt, b"\x01\x00\x01\x00")?;
    examine_file(&rt, b"\x01\x00\x02\x00")?;
    write_type(&rt, b"\xff\x00\xff\x01\x01")?;
    write_type(&rt, b"\x00")?;
    apply_step(&rt, b"\xff\x00\xfe\x01\xff\x01\x02", 2, 2)?;
    apply_step(&rt, b"\xff\x00\xfe\x01\xff\x01\x01", 2, 2)?;
    apply_step(&rt, b"\xff\x00\xfe\x01\xff\x01\x01", 3, 2)?;
    print_term(&rt, b"\xff\x00\xff\x01\xfe\x01\xff\x02\x01")?;
    print_term(&rt, b"\x01")?;
    count_strings(&rt, 3)?;
    count_strings(&rt, 8)?;
    check(
        &rt,
        b"\x01\x00\x09\xff\x00\xff\x01\xfe\x01\xff\x02\x01\x02\x00\x00\x03\x00\x00",
    )?;
    explain(
        &rt,
        b"\x01\x00\x0d\xff\x00\xff\xff\x01\x00\xfe\x01\xff\xff\x00\x00\x00\x02\x00\x00\x03\x00\x00",
    )?;
    explain(&rt, b"\x01\x00\x05\xfe\x00\xfe\x00\x00")?;
    check_set(
        &rt,
        b"\x05\x00\x04\x01\x00\x01\x00\x05\x00\x04\x01\x00\x01\x00",
    )?;
    check_set(&rt, b"\x05\x00\x04\x01\x00\x01\x00\x05\x00\x00")
}
