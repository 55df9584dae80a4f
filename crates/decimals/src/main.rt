// Prints the decimal of each word on standard input, four bytes a word, high byte first, a line each; the first 16,384 of them.
#![tactic(auto)]

use lent::Pen;
use std::io;

fn put_decimals(pen: &mut Pen, words: &[u8]) {
    for word in words.chunks_exact(4) {
        decimal::put_decimal(pen, tfm::word_of(word, 0));
        ink::put_line(pen, 0);
    }
}

fn main(rt: HostRuntime) -> io::Result<()> {
    let mut words = [0u8; 65536];
    let n = input::read_full(&mut rt.stdin(), &mut words)?;
    let mut out = [0u8; 262144];
    let mut pen = Pen::new(&mut out);
    put_decimals(&mut pen, &words[..n]);
    rt.write_all(pen.text())
}
