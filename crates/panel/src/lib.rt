// The seven operations for a renderer in C, over lent buffers and numbers alone, and words for what they answer; include/nyelgomir.h declares them.
#![tactic(auto)]

ghost use Rattle.std.specs.Prelude.{◌≡◌, [], ◌∷◌, min, length};
ghost use Rattle.lent.specs.Write.{pen, Wrote};
ghost use Rattle.decimal.specs.Room.{filled};
ghost use Rattle.decimal.specs.Text.{text_of};
ghost use Rattle.tfm.specs.Sizes.{sizes_answer};
ghost use Rattle.tfm.specs.Subfiles.{subfile_number, subfile_start, subfile_of};
ghost use Rattle.tfm.specs.Lengths.{eye_answer};
ghost use Rattle.judge.specs.Judge.{answer_of, pair_says};
ghost use Rattle.listing.specs.Listing.{says_of};
ghost use Rattle.words.specs.Words.{finding_words, number_words, verdict_words};
ghost use Rattle.panel.specs.Panel.{floats_of, numbers_in, list_numbers, pair_numbers, VerdictTold, ListingTold, PairTold};

use decimal::Decimal;
use judge::Judgement;
use lent::Pen;
use listing::Listing;
use tfm::Refusal;

#[unsafe(no_mangle)]
pub extern "C" fn nyelgomir_sizes(file: &[u8], sizes: &mut [u16; 12]) -> u8
    ensures value { result ≡ (sizes_answer file.now).number }
    ensures sizes_after { sizes.new ≡ (sizes_answer file.now).sizes }
{
    let answer = tfm::sizes(file);
    let twelve = answer.sizes;
    *sizes = twelve;
    answer.number
}

// C may ask for any number of 32 bits; all that are over 9 are answered alike.
fn subfile_asked(k: u32) -> u8
    ensures { result ≡ min k 10 }
{
    k.min(10) as u8
}

// The answer's number, and in the array the first byte of a subfile and how many bytes it has.
#[tactic(auto, unfolding(tfm::specs::Subfiles::subfile_start, tfm::specs::Subfiles::subfile_of, lent::specs::Answer::on_accept))]
fn put_place(file: &[u8], k: u8, part: &mut [usize; 2]) -> u8
    ensures value { result ≡ subfile_number file.now k }
    ensures part_after { part.new ≡ subfile_start file.now k ∷ length (subfile_of file.now k) ∷ [] }
{
    match tfm::try_subfile(file, k) {
        Ok(bytes) => {
            *part = [4 * tfm::start(tfm::read_layout(file), k), bytes.len()];
            0
        }
        Err(refusal) => {
            *part = [0, 0];
            refusal.number()
        }
    }
}

#[unsafe(no_mangle)]
pub extern "C" fn nyelgomir_subfile(file: &[u8], k: u32, part: &mut [usize; 2]) -> u8
    ensures value { result ≡ subfile_number file.now k }
    ensures part_after { part.new ≡ subfile_start file.now k ∷ length (subfile_of file.now k) ∷ [] }
{
    put_place(file, subfile_asked(k), part)
}

#[unsafe(no_mangle)]
pub extern "C" fn nyelgomir_eye_lengths(file: &[u8], code: u32, lengths: &mut [f64; 4]) -> u8
    ensures value { result ≡ (eye_answer file.now code).number }
    ensures lengths_after { lengths.new ≡ floats_of (eye_answer file.now code).lengths }
{
    match tfm::eye_lengths(file, code) {
        Ok(found) => {
            *lengths = found.into();
            0
        }
        Err(refusal) => {
            *lengths = [0.0; 4];
            refusal.number()
        }
    }
}

#[unsafe(no_mangle)]
pub extern "C" fn nyelgomir_decimal(word: u32, text: &mut [u8; 13]) -> usize
    ensures value { result ≡ (filled (text_of word)).len }
    ensures text_after { text.new ≡ (filled (text_of word)).bytes }
{
    let Decimal { bytes, len } = decimal::decimal(word);
    *text = bytes;
    len
}

// The verdict as C reads it, and the length of the findings; zeros on refusal.
fn numbers_in(judged: Result<Judgement, Refusal>) -> [usize; 2]
    ensures { result ≡ numbers_in (answer_of judged) }
{
    match judged {
        Ok(judgement) => [judgement.verdict.number() as usize, judgement.findings],
        Err(_) => [0, 0],
    }
}

#[unsafe(no_mangle)]
pub extern "C" fn nyelgomir_verdict(
    file: &[u8],
    copy: &mut [u8],
    findings: &mut [u8],
    pairs: &mut [u32],
    answer: &mut [usize; 2],
) -> u8
    ensures { VerdictTold file.now copy.old findings.old pairs.old result answer.new copy.new findings.new pairs.new }
{
    let judged = judge::verdict(file, copy, findings, pairs);
    *answer = numbers_in(judged);
    tfm::number_of(&judged)
}

// The verdict as C reads it, and the lengths of the findings and of the listing; zeros on refusal.
fn list_numbers(listed: Result<Listing, Refusal>) -> [usize; 3]
    ensures { result ≡ list_numbers (says_of listed) }
{
    match listed {
        Ok(listing) => [
            listing.verdict.number() as usize,
            listing.findings,
            listing.text,
        ],
        Err(_) => [0, 0, 0],
    }
}

#[unsafe(no_mangle)]
pub extern "C" fn nyelgomir_listing(
    file: &[u8],
    copy: &mut [u8],
    findings: &mut [u8],
    pairs: &mut [u32],
    listing: &mut [u8],
    answer: &mut [usize; 3],
) -> u8
    ensures { ListingTold file.now copy.old findings.old pairs.old listing.old result answer.new copy.new findings.new pairs.new listing.new }
{
    let listed = listing::listing(file, copy, findings, pairs, listing);
    *answer = list_numbers(listed);
    tfm::number_of(&listed)
}

// The outcome as C reads it, and the code left of the cursor; zeros on refusal.
fn pair_numbers(outcome: Result<Option<u32>, Refusal>) -> [u32; 2]
    ensures { result ≡ pair_numbers (pair_says outcome) }
{
    match outcome {
        Ok(Some(code)) => [1, code],
        Ok(None) => [2, 0],
        Err(_) => [0, 0],
    }
}

#[unsafe(no_mangle)]
pub extern "C" fn nyelgomir_pair(
    file: &[u8],
    left: u32,
    right: u32,
    copy: &mut [u8],
    pairs: &mut [u32],
    answer: &mut [u32; 2],
) -> u8
    ensures { PairTold file.now left right copy.old pairs.old result answer.new copy.new pairs.new }
{
    let outcome = judge::pair(file, left, right, copy, pairs);
    *answer = pair_numbers(outcome);
    tfm::number_of(&outcome)
}

#[unsafe(no_mangle)]
pub extern "C" fn nyelgomir_finding_words(
    tag: u8,
    first: u16,
    second: u16,
    text: &mut [u8],
) -> usize
    ensures { Wrote (pen text.old 0) (finding_words tag first second) (pen text.new result) }
{
    let mut pen = Pen::new(text);
    words::put_finding(&mut pen, tag, first, second);
    pen.end()
}

#[unsafe(no_mangle)]
pub extern "C" fn nyelgomir_number_words(number: u8, text: &mut [u8]) -> usize
    ensures { Wrote (pen text.old 0) (number_words number) (pen text.new result) }
{
    let mut pen = Pen::new(text);
    words::put_number(&mut pen, number);
    pen.end()
}

#[unsafe(no_mangle)]
pub extern "C" fn nyelgomir_verdict_words(verdict: u8, text: &mut [u8]) -> usize
    ensures { Wrote (pen text.old 0) (verdict_words verdict) (pen text.new result) }
{
    let mut pen = Pen::new(text);
    words::put_verdict(&mut pen, verdict);
    pen.end()
}
