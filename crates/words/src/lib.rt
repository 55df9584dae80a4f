// Words for what is found: the sentence of each finding, of each answer's number, and of each verdict, into a lent buffer.
#![tactic(auto)]

ghost use Rattle.std.specs.Prelude.{◌≡◌, [], min, get_or};
ghost use Rattle.lent.specs.Write.{lit};
ghost use Rattle.lent.specs.Pens.{Written};
ghost use Rattle.words.specs.Words.{findings, numbers, verdicts, string_name, table_name, piece_words, code_name, spelled, filled, finding_words, number_words, verdict_words};

use lent::Pen;

// What a finding's record and an answer hold are numbers for C, and the functions below take them as they stand there: the string, table or piece, the
// tag, an answer's number and a verdict.
#[tactic(auto, unfolding(crate::specs::Words::string_name))]
fn string_name(string: u16) -> &'static [u8]
    ensures { lit result.now ≡ string_name string }
{
    match string {
        0 => b"coding scheme",
        _ => b"font family",
    }
}

#[tactic(auto, unfolding(crate::specs::Words::table_name))]
fn table_name(table: u16) -> &'static [u8]
    ensures { lit result.now ≡ table_name table }
{
    match table {
        0 => b"width",
        1 => b"height",
        2 => b"depth",
        3 => b"italic",
        _ => b"kern",
    }
}

// A piece of a recipe, and what was done.
#[tactic(auto, unfolding(crate::specs::Words::piece_words))]
fn piece_words(piece: u16) -> &'static [u8]
    ensures { lit result.now ≡ piece_words piece }
{
    match piece {
        0 => b"top piece; it was left out.",
        1 => b"middle piece; it was left out.",
        2 => b"bottom piece; it was left out.",
        _ => b"repeater; the character itself is listed.",
    }
}

#[tactic(auto, unfolding(crate::specs::Words::code_name))]
fn put_code(pen: &mut Pen, code: u16)
    ensures { Written pen.old (code_name code) pen.new }
{
    match code {
        256 => pen.put_bytes(b" the left boundary"),
        _ => ink::put_octal(pen, code as u32),
    }
}

// A byte of a sentence, or what a mark in it stands for.
#[tactic(auto, unfolding(crate::specs::Words::spelled))]
fn put_spelled(pen: &mut Pen, b: u8, first: u16, second: u16)
    ensures { Written pen.old (spelled first second b) pen.new }
{
    match b {
        b'#' => ink::put_number(pen, first as u32),
        b'%' => ink::put_number(pen, second as u32),
        b'@' => put_code(pen, first),
        b'&' => put_code(pen, second),
        b'$' => pen.put_bytes(string_name(first)),
        b'^' => pen.put_bytes(table_name(first)),
        b'~' => pen.put_bytes(table_name(second)),
        b'!' => pen.put_bytes(piece_words(second)),
        _ => pen.put(b),
    }
}

// A sentence, with what its marks stand for.
fn put_sentence(pen: &mut Pen, sentence: &[u8], first: u16, second: u16)
    ensures { Written pen.old (filled first second sentence.now) pen.new }
{
    for &b in sentence {
        put_spelled(pen, b, first, second);
    }
}

// The sentences of the findings by their tags, and last what is said of any other tag.
const FINDINGS: [&[u8]; 25] = [
    b"There is no finding.",
    b"There is junk after the end of the file.",
    b"The length byte of the $ was too large; it was set to 1.",
    b"Byte % of the $ was a parenthesis; it was made a slash.",
    b"Byte % of the $ was not printable; it was made a question mark.",
    b"The design size is negative or below 1; it is listed as 10 points.",
    b"The number of parameters is unusual for this kind of font: #.",
    b"Parameter # was too big; it was set to 0.",
    b"Entry 0 of the ^ table is not zero.",
    b"Entry % of the ^ table was too big; it was set to 0.",
    b"The program of the left boundary starts past the last step; it is ignored.",
    b"The program of character@ starts past the last step; it was taken away.",
    b"Step # skipped past the last step; it was made the last of its program.",
    b"Step # leads past the last step.",
    b"Step # was for a missing character; the first code of the font was put in its place, or 0 where that is 256.",
    b"Step # made a missing character; the first code of the font was put in its place, or 0 where that is 256.",
    b"Step # has a kern past the last kern; it is listed as R 0.0.",
    b"Step # had an unknown ligature code; it was made a plain ligature.",
    b"The pair of@ and& is rewritten without end.",
    b"Recipe # has a missing !",
    b"The ~ index of character@ is past its table; it counts as 0.",
    b"The next larger character of@ is missing; the link was taken away.",
    b"The next larger characters of@ come round to it again; its link was taken away.",
    b"The recipe of character@ is past the last recipe; it was taken away.",
    b"There is no such finding.",
];

fn finding(tag: u8) -> &'static [u8]
    ensures { result.now ≡ get_or findings (min tag 24) [] }
{
    FINDINGS[(tag as usize).min(24)]
}

// The sentence of a finding, by its tag and its two numbers.
#[tactic(auto, unfolding(crate::specs::Words::finding_words))]
pub fn put_finding(pen: &mut Pen, tag: u8, first: u16, second: u16)
    ensures { Written pen.old (finding_words tag first second) pen.new }
{
    put_sentence(pen, finding(tag), first, second);
}

// The same of the numbers of the answers.
const NUMBERS: [&[u8]; 20] = [
    b"Accepted.",
    b"The file has no bytes.",
    b"The first byte of the file is over 127.",
    b"The file has only one byte.",
    b"The file says that its length is 0.",
    b"The file has fewer bytes than it says.",
    b"The file says that it has fewer than six words.",
    b"A size has a first byte over 127.",
    b"The header has fewer than two words.",
    b"The range of character codes is impossible.",
    b"The widths, heights, depths or italic corrections are empty.",
    b"There are more than 256 recipes.",
    b"The sizes do not add up to the length of the file.",
    b"The copy buffer is shorter than the file.",
    b"The pair room is too small for the pairs of the program.",
    b"The findings need more bytes than are lent.",
    b"The listing needs more bytes than are lent.",
    b"An argument is out of range.",
    b"The character does not exist.",
    b"There is no such answer.",
];

fn answer(number: u8) -> &'static [u8]
    ensures { result.now ≡ get_or numbers (min number 19) [] }
{
    NUMBERS[(number as usize).min(19)]
}

// The sentence of an answer's number: C gives any.
#[tactic(auto, unfolding(crate::specs::Words::number_words))]
pub fn put_number(pen: &mut Pen, number: u8)
    ensures { Written pen.old (number_words number) pen.new }
{
    put_sentence(pen, answer(number), 0, 0);
}

// And of the verdicts: none, clean, mended, looping.
const VERDICTS: [&[u8]; 5] = [
    b"There is no verdict.",
    b"CLEAN: nothing needs mending.",
    b"MENDED: the file has faults; its copy is mended.",
    b"LOOPING: a pair of characters is rewritten without end.",
    b"There is no such verdict.",
];

fn verdict_of(verdict: u8) -> &'static [u8]
    ensures { result.now ≡ get_or verdicts (min verdict 4) [] }
{
    VERDICTS[(verdict as usize).min(4)]
}

// The sentence of a verdict: 0 none, 1 clean, 2 mended, 3 looping. C gives any number.
#[tactic(auto, unfolding(crate::specs::Words::verdict_words))]
pub fn put_verdict(pen: &mut Pen, verdict: u8)
    ensures { Written pen.old (verdict_words verdict) pen.new }
{
    put_sentence(pen, verdict_of(verdict), 0, 0);
}
