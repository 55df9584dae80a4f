// The list program: reads a TFM file on standard input, and writes its listing, or "REFUSED n" and a newline.
#![tactic(auto)]

use std::io;
use tfm::Refusal;

fn print_refusal(rt: &impl Print, refusal: Refusal) -> io::Result<()> {
    println!(rt; "REFUSED {}", refusal.number())
}

fn print_listing(rt: &impl Print, file: &[u8]) -> io::Result<()> {
    let mut copy = [0u8; 65536];
    let mut findings = [0u8; 7000];
    let mut pairs = [0u32; 5000];
    let mut out = [0u8; 65536];
    match listing::listing(file, &mut copy, &mut findings, &mut pairs, &mut out) {
        Ok(listing) => rt.write_all(lent::part(&out, 0, listing.text)),
        Err(refusal) => print_refusal(rt, refusal),
    }
}

// One byte more than is listed tells a file that is too long.
fn main(rt: HostRuntime) -> io::Result<()> {
    let mut buffer = [0u8; 65537];
    let n = input::read_full(&mut rt.stdin(), &mut buffer)?;
    if 65536 < n {
        print_refusal(&rt, Refusal::ShortCopy)
    } else {
        print_listing(&rt, &buffer[..n])
    }
}
