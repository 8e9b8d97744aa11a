// The proved functions as plain numbers, for C and Rust.
#![tactic(auto)]

ghost use Rattle.std.specs.Prelude.{◌≡◌};
ghost use Rattle.language.specs.FileOf.{file_of};
ghost use Rattle.look.specs.Looks.{answer_of};
ghost use Rattle.sentences.specs.SheetOf.{sentence_in};
ghost use Rattle.sentences.specs.Answers.{Put};
ghost use Rattle.export.specs.Answers.{check_answer, look_answer, Looks};

use checker::plan;
use look;
use look::Answer;
use sentences;
use text::refusal::Refusal;

// So many different payloads stand in 56 bits.
const PAYLOAD_COUNT: u64 = 0x100_0000_0000_0000;

// 0 for a text that is accepted; else the number of its refusal in the upper 16 bits and the line in the lower.
// Refused: the number in the lower bits; 65535 for 65536.
#[unsafe(no_mangle)]
pub extern "C" fn sakthveim_check(text: &[u8]) -> u32
    ensures { result ≡ check_answer (file_of text.now) }
{
    match plan::check(text) {
        Ok(_) => 0,
        Err(refusal) => refusal.packed(),
    }
}

// An answer as one number.
fn told(a: Result<Answer, Refusal>) -> u64
    ensures { result ≡ look_answer (answer_of a) }
{
    match a {
        Ok(Answer::Case(k)) => 0x80 * PAYLOAD_COUNT + k % PAYLOAD_COUNT,
        Ok(Answer::NoCase) => 0x82 * PAYLOAD_COUNT,
        Ok(Answer::Spent(next)) => next % PAYLOAD_COUNT,
        Err(refusal) => 0x8f * PAYLOAD_COUNT + (refusal.packed() as u64),
    }
}

// A look. The upper 8 bits are 0x80 for a case, 0x82 for no case, 0 for spent and 0x8f for a refusal; the 56 below are k, 0, the next
// start, and the refusal's number times 65,536 with its line.
// Refused: start and count swapped; a count of 0.
#[unsafe(no_mangle)]
pub extern "C" fn sakthveim_look(
    text: &[u8],
    start: u64,
    count: u64,
    work: &mut [i32],
    instance: &mut [i16],
) -> u64
    ensures { Looks text.now start count work.old instance.old result work.new instance.new }
{
    let a = look::look(text, start, count, work, instance);
    told(a)
}

// The sentence of a refusal in language 0, English, or 1, French, at the front of the buffer, and its length in bytes; 0 and an unchanged
// buffer where it does not fit or the language is another.
// Refused: English for every language; line 0 for every line.
#[unsafe(no_mangle)]
pub extern "C" fn sakthveim_sentence(number: u8, line: u16, language: u8, out: &mut [u8]) -> usize
    ensures { Put (sentence_in language number line) out.old result out.new }
{
    sentences::sentence(number, line, language, out)
}
