// Prints the decimals of the marked words, and then what the operations on a file say of the TFM file on standard input:
//   SIZES number, the twelve sizes
//   SUBFILE k, number, bytes, the first and the last byte    for k from 0 to 10
//   EYE code, number, the bits of width, height, depth and italic correction    for each code from 0 to 256 that is not missing
#![tactic(auto)]

use std::io;
use tfm::Refusal;

const MARKED: [u32; 11] = [
    0x0000_0000,
    0x0000_0001,
    0xFFFF_FFFF,
    0x0008_0000,
    0xFFF8_0000,
    0x0010_0001,
    0x0001_9999,
    0x0001_999A,
    0x0000_2000,
    0x7FFF_FFFF,
    0x8000_0000,
];

fn print_decimal(rt: &impl Print, word: u32) -> io::Result<()> {
    let decimal = decimal::decimal(word);
    print!(rt; "{word:08x} ")?;
    rt.write_all(decimal.text())?;
    println!(rt;)
}

fn print_marked(rt: &impl Print) -> io::Result<()> {
    for word in MARKED {
        print_decimal(rt, word)?;
    }
    Ok(())
}

fn print_sizes(rt: &impl Print, file: &[u8]) -> io::Result<()> {
    let answer = tfm::sizes(file);
    print!(rt; "SIZES {}", answer.number)?;
    for size in answer.sizes {
        print!(rt; " {size}")?;
    }
    println!(rt;)
}

// The number of an answer, and the part that was asked for, which is empty on refusal.
fn print_part(rt: &impl Print, k: u8, part: Result<&[u8], Refusal>) -> io::Result<()> {
    let number = tfm::number_of(&part);
    let bytes = part.unwrap_or(b"");
    let first = bytes.first().copied().unwrap_or(0);
    let last = bytes.last().copied().unwrap_or(0);
    println!(rt; "SUBFILE {k} {number} {} {first} {last}", bytes.len())
}

fn print_subfiles(rt: &impl Print, file: &[u8]) -> io::Result<()> {
    for k in 0..11u8 {
        print_part(rt, k, tfm::try_subfile(file, k))?;
    }
    Ok(())
}

// The bits of a float that is a number.
fn bits(x: f64) -> u64 {
    if x.is_nan() { 0 } else { x.to_bits() }
}

fn print_bits(rt: &impl Print, number: u8, code: u32, lengths: [f64; 4]) -> io::Result<()> {
    print!(rt; "EYE {code} {number}")?;
    for length in lengths {
        print!(rt; " {:016x}", bits(length))?;
    }
    println!(rt;)
}

fn print_eye_lengths(rt: &impl Print, file: &[u8], code: u32) -> io::Result<()> {
    match tfm::eye_lengths(file, code) {
        Ok(lengths) => print_bits(rt, 0, code, lengths.into()),
        Err(Refusal::NoCharacter) => Ok(()),
        Err(refusal) => print_bits(rt, refusal.number(), code, [0.0; 4]),
    }
}

fn print_codes(rt: &impl Print, file: &[u8]) -> io::Result<()> {
    for code in 0..257u32 {
        print_eye_lengths(rt, file, code)?;
    }
    Ok(())
}

fn main(rt: HostRuntime) -> io::Result<()> {
    let mut buffer = [0u8; 262144];
    let n = input::read_full(&mut rt.stdin(), &mut buffer)?;
    let file = &buffer[..n];
    print_marked(&rt)?;
    print_sizes(&rt, file)?;
    print_subfiles(&rt, file)?;
    print_codes(&rt, file)
}
