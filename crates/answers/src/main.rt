// Answers questions on buffers of many sizes. Each question on standard input is six numbers, of four bytes each and high byte first, and a file: how
// many bytes the file has; what is asked, 0xFFFFFFFF for the listing, 0xFFFFFFFE for the verdict, or 65,536 times a left code and a right code for that
// pair; and how many bytes of copy, bytes of findings, entries of the pair room and bytes of listing are lent. What is lent holds 170 all over. A line
// has the answer and a check sum of each buffer that the operation is lent, afterwards; then the findings follow, and the listing.
#![tactic(auto)]

use std::io;
use std::io::Read;
use tfm::Refusal;

const LISTING: u32 = 0xFFFF_FFFF;

const VERDICT: u32 = 0xFFFF_FFFE;

// What is lent for an answer.
#[derive(Drop)]
struct Buffers<'a> {
    copy: &'a mut [u8],
    findings: &'a mut [u8],
    pairs: &'a mut [u32],
    out: &'a mut [u8],
}

// The sum of what a buffer holds, each value after 31 times those before it, modulo 2^32.
fn print_sum<T: Copy + Into<u32>>(rt: &impl Print, buffer: &[T]) -> io::Result<()> {
    let mut sum = 0u32;
    for &value in buffer {
        sum = sum.wrapping_mul(31).wrapping_add(value.into());
    }
    print!(rt; " {sum:08x}")
}

fn print_refusal(rt: &impl Print, refusal: Refusal) -> io::Result<()> {
    print!(rt; "REFUSED {}", refusal.number())
}

fn judge_on(rt: &impl Print, file: &[u8], lent: Buffers) -> io::Result<()> {
    let Buffers {
        copy,
        findings,
        pairs,
        ..
    } = lent;
    let judged = judge::verdict(file, copy, findings, pairs);
    match judged {
        Ok(judgement) => print!(rt; "{} {}", judgement.verdict, judgement.findings)?,
        Err(refusal) => print_refusal(rt, refusal)?,
    }
    print_sum(rt, copy)?;
    print_sum(rt, findings)?;
    print_sum(rt, pairs)?;
    println!(rt;)?;
    match judged {
        Ok(judgement) => rt.write_all(lent::part(findings, 0, judgement.findings)),
        Err(_) => Ok(()),
    }
}

fn list_on(rt: &impl Print, file: &[u8], lent: Buffers) -> io::Result<()> {
    let Buffers {
        copy,
        findings,
        pairs,
        out,
    } = lent;
    let listed = listing::listing(file, copy, findings, pairs, out);
    match listed {
        Ok(listing) => print!(rt; "{} {} {}", listing.verdict, listing.findings, listing.text)?,
        Err(refusal) => print_refusal(rt, refusal)?,
    }
    print_sum(rt, copy)?;
    print_sum(rt, findings)?;
    print_sum(rt, pairs)?;
    print_sum(rt, out)?;
    println!(rt;)?;
    match listed {
        Ok(listing) => {
            rt.write_all(lent::part(findings, 0, listing.findings))?;
            rt.write_all(lent::part(out, 0, listing.text))
        }
        Err(_) => Ok(()),
    }
}

fn pair_on(rt: &impl Print, file: &[u8], asked: u32, lent: Buffers) -> io::Result<()> {
    let Buffers { copy, pairs, .. } = lent;
    match judge::pair(file, asked / 65536, asked % 65536, copy, pairs) {
        Ok(Some(code)) => print!(rt; "LEAVES {code}")?,
        Ok(None) => print!(rt; "LOOPS")?,
        Err(refusal) => print!(rt; "NO OUTCOME {}", refusal.number())?,
    }
    print_sum(rt, copy)?;
    print_sum(rt, pairs)?;
    println!(rt;)
}

// The number k of a question.
fn number(question: &[u8], k: u32) -> usize {
    tfm::word_of(question, k) as usize
}

fn answer_on(rt: &impl Print, file: &[u8], question: &[u8], whole: Buffers) -> io::Result<()> {
    let Buffers {
        copy,
        findings,
        pairs,
        out,
    } = whole;
    let c = copy.len().min(number(question, 2));
    let f = findings.len().min(number(question, 3));
    let p = pairs.len().min(number(question, 4));
    let o = out.len().min(number(question, 5));
    let lent = Buffers {
        copy: &mut copy[..c],
        findings: &mut findings[..f],
        pairs: &mut pairs[..p],
        out: &mut out[..o],
    };
    match tfm::word_of(question, 1) {
        LISTING => list_on(rt, file, lent),
        VERDICT => judge_on(rt, file, lent),
        asked => pair_on(rt, file, asked, lent),
    }
}

fn answer(rt: &impl Print, file: &[u8], question: &[u8]) -> io::Result<()> {
    let mut copy = [170u8; 131080];
    let mut findings = [170u8; 262144];
    let mut pairs = [170u32; 65800];
    let mut out = [170u8; 600000];
    let whole = Buffers {
        copy: &mut copy,
        findings: &mut findings,
        pairs: &mut pairs,
        out: &mut out,
    };
    answer_on(rt, file, question, whole)
}

// The answer to a question, of the file that follows it.
fn answer_from(
    rt: &impl Print,
    reader: &mut impl Read,
    question: &[u8],
    buffer: &mut [u8],
) -> io::Result<()> {
    let claimed = buffer.len().min(number(question, 0));
    let n = input::read_full(reader, &mut buffer[..claimed])?;
    answer(rt, &buffer[..n], question)
}

fn answer_next(rt: &impl Print, reader: &mut impl Read, question: &[u8]) -> io::Result<()> {
    let mut buffer = [0u8; 131080];
    answer_from(rt, reader, question, &mut buffer)
}

fn answer_all(rt: &impl Print, reader: &mut impl Read) -> io::Result<()> {
    // So many questions at most, since a loop needs an end that the check sees.
    for _ in 0..1000000u32 {
        let mut question = [0u8; 24];
        let n = input::read_full(reader, &mut question)?;
        if n < 24 {
            return Ok(());
        }
        answer_next(rt, reader, &question)?;
    }
    Ok(())
}

fn main(rt: HostRuntime) -> io::Result<()> {
    answer_all(&rt, &mut rt.stdin())
}
