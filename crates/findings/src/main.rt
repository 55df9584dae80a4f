// Prints what is wrong with the TFM file on standard input: REFUSED and the number of the answer; or a line for each finding, its tag and its two
// numbers, and then a line for each byte that the mended copy changes, with its place, the old byte and the new. (The loop, 18, is not looked for.)
#![tactic(auto)]

use lent::Pen;
use std::io;
use tfm::Font;

fn print_record(rt: &impl Print, record: &[u8]) -> io::Result<()> {
    let tag = lent::at(record, 0, 0);
    let first = input::half(record, 3);
    let second = input::half(record, 5);
    println!(rt; "{tag} {first} {second}")
}

fn print_findings(rt: &impl Print, file: &[u8], font: &Font, marks: &[u8]) -> io::Result<()> {
    let mut records = [0u8; 262144];
    let mut pen = Pen::new(&mut records);
    mend::findings::put_findings(&mut pen, file, font, marks, 1, 23);
    for record in pen.text().chunks_exact(7) {
        print_record(rt, record)?;
    }
    Ok(())
}

// The bytes of the file, beside those of its copy.
fn print_changes(rt: &impl Print, file: &[u8], copy: &[u8]) -> io::Result<()> {
    for (place, (old, new)) in file.iter().zip(copy).enumerate() {
        if old != new {
            println!(rt; "byte {place} {old} {new}")?;
        }
    }
    Ok(())
}

fn print_mends(rt: &impl Print, file: &[u8], font: &Font, marks: &[u8]) -> io::Result<()> {
    let mut copy = [0u8; 131072];
    let mut pen = Pen::new(&mut copy);
    mend::copy::put_copy(&mut pen, file, font, marks);
    print_changes(rt, file, pen.text())
}

fn main(rt: HostRuntime) -> io::Result<()> {
    let mut buffer = [0u8; 262144];
    let n = input::read_full(&mut rt.stdin(), &mut buffer)?;
    let file = &buffer[..n];
    let layout = tfm::read_layout(file);
    if let Err(refusal) = tfm::check(file, layout) {
        return println!(rt; "REFUSED {}", refusal.number());
    }
    let font = tfm::tables_of(file, layout);
    let marks = program::marks(&font);
    print_findings(&rt, file, &font, &marks)?;
    print_mends(&rt, file, &font, &marks)
}
