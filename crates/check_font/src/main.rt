// Tells in words what is wrong with the TFM file on standard input: a line with the verdict and one for each finding, or REFUSED and the answer's number.
#![tactic(auto)]

use judge::Verdict;
use lent::Pen;
use std::io;
use tfm::Refusal;

fn print_line(rt: &impl Print, pen: &Pen) -> io::Result<()> {
    rt.write_all(pen.text())?;
    println!(rt;)
}

// A record: the tag, two bytes of length, two numbers of two bytes, high byte first. (The line holds every sentence: `finding_le` and its like, in words.)
fn print_record(rt: &impl Print, record: &[u8]) -> io::Result<()> {
    let mut line = [0u8; 160];
    let mut pen = Pen::new(&mut line);
    words::put_finding(
        &mut pen,
        lent::at(record, 0, 0),
        input::half(record, 3),
        input::half(record, 5),
    );
    print_line(rt, &pen)
}

fn print_refusal(rt: &impl Print, refusal: Refusal) -> io::Result<()> {
    let mut line = [0u8; 160];
    let mut pen = Pen::new(&mut line);
    words::put_number(&mut pen, refusal.number());
    print!(rt; "REFUSED {}: ", refusal.number())?;
    print_line(rt, &pen)
}

fn print_verdict(rt: &impl Print, verdict: Verdict) -> io::Result<()> {
    let mut line = [0u8; 160];
    let mut pen = Pen::new(&mut line);
    words::put_verdict(&mut pen, verdict.number());
    print_line(rt, &pen)
}

fn print_judged(rt: &impl Print, verdict: Verdict, findings: &[u8]) -> io::Result<()> {
    print_verdict(rt, verdict)?;
    for record in findings.chunks_exact(7) {
        print_record(rt, record)?;
    }
    Ok(())
}

fn check(rt: &impl Print, file: &[u8]) -> io::Result<()> {
    let mut copy = [0u8; 131072];
    let mut findings = [0u8; 131072];
    let mut pairs = [0u32; 65792];
    match judge::verdict(file, &mut copy, &mut findings, &mut pairs) {
        Ok(judgement) => print_judged(
            rt,
            judgement.verdict,
            lent::part(&findings, 0, judgement.findings),
        ),
        Err(refusal) => print_refusal(rt, refusal),
    }
}

// A file's own bytes are 131,068 at most: what lies past one more is junk like that one, and changes no answer.
fn main(rt: HostRuntime) -> io::Result<()> {
    let mut buffer = [0u8; 131069];
    let n = input::read_full(&mut rt.stdin(), &mut buffer)?;
    check(&rt, &buffer[..n])
}
