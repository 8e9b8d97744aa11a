// A refusal as a sentence in English or in French.
#![tactic(auto)]

mod buffer;
mod words;

ghost use Rattle.std.specs.Prelude.{◌≡◌, ◌+◌, ◌≤◌, ◌<◌, ◌++◌, ◌∷◌, [], ◌&&◌, ltb, length, get_or};
ghost use Rattle.sentences.specs.Sentence.{said, sentence};
ghost use Rattle.sentences.specs.SheetOf.{sentence_in, both_sentences};
ghost use Rattle.sentences.specs.Languages.{Names, language_in, texts_in, first_in};
ghost use Rattle.sentences.specs.Answers.{Put};

use buffer::Buffer;

// Room for any sentence.
pub const ROOM: usize = 512;

// Room for both, each closed by LF.
pub const SHEET: usize = 1026;

// Pieces: the word for a line, what stands behind its figures, the close of a sentence with the refusal's number, and the first of those
// without a line and of those behind one.
const LINE: usize = 0;

const COLON: usize = 1;

const CLOSE: usize = 2;

const ALONE: usize = 3;

const THERE: usize = 22;

// The last refusal with a sentence of its own.
const LAST: u8 = 18;

// The languages of sentences.
#[derive(Clone, Copy, PartialEq, Eq)]
pub enum Language {
    English,
    French,
}

// A number that stands for no language.
#[derive(Clone, Copy, PartialEq, Eq)]
pub struct UnknownLanguage;

impl TryFrom<u8> for Language {
    type Error = UnknownLanguage;

    ghost try_from_gives = { Names };

    // Refused: English for 1; French for 2.
    fn try_from(number: u8) -> Result<Self, UnknownLanguage> {
        match number {
            0 => Ok(Language::English),
            1 => Ok(Language::French),
            _ => Err(UnknownLanguage),
        }
    }
}

// Where a refusal's own words stand: alone, where no line is named, or behind the line.
#[derive(Clone, Copy, PartialEq, Eq)]
enum Place {
    Alone,
    There,
}

impl Place {
    // Where its sentences begin among the pieces.
    fn first(self) -> usize
        ensures { result ≡ first_in self }
    {
        match self {
            Place::Alone => ALONE,
            Place::There => THERE,
        }
    }
}

// Whether a refusal has a sentence of its own.
fn is_known(number: u8) -> bool
    ensures { result ≡ ltb 0 number && ltb number 19 }
{
    (1..=LAST).contains(&number)
}

// Entry n of the sentences at a place.
fn own_words(language: Language, place: Place, n: u8) -> &'static [u8]
    requires { n < 19 }
    ensures { result.now ≡ get_or (texts_in place (language_in language)) n [] }
{
    words::piece(language, place.first() + (n as usize))
}

// The sentence of a refusal; one that has none of its own is named by its number.
fn push_said<const N: usize>(text: &mut Buffer<N>, language: Language, place: Place, number: u8)
    requires { length text.old + length (said (language_in language) (texts_in place (language_in language)) number) ≤ N }
    ensures { text.new ≡ text.old ++ said (language_in language) (texts_in place (language_in language)) number }
{
    if is_known(number) {
        return text.extend(own_words(language, place, number));
    }
    text.extend(own_words(language, place, 0));
    text.push_figures(number as u16);
    text.extend(words::piece(language, CLOSE))
}

#[tactic(auto, unfolding(crate::specs::Sentence::sentence))]
fn push_sentence<const N: usize>(text: &mut Buffer<N>, language: Language, number: u8, line: u16)
    requires { length text.old + length (sentence (language_in language) number line) ≤ N }
    ensures { text.new ≡ text.old ++ sentence (language_in language) number line }
{
    if line == 0 {
        return push_said(text, language, Place::Alone, number);
    }
    text.extend(words::piece(language, LINE));
    text.push_figures(line);
    text.extend(words::piece(language, COLON));
    push_said(text, language, Place::There, number)
}

// The same, closed by LF.
fn push_closed<const N: usize>(text: &mut Buffer<N>, language: Language, number: u8, line: u16)
    requires { length text.old + length (sentence (language_in language) number line) < N }
    ensures { text.new ≡ text.old ++ (sentence (language_in language) number line ++ 10 ∷ []) }
{
    push_sentence(text, language, number, line);
    text.push(b'\n')
}

// The sentence of a refusal in language 0, English, or 1, French, and its length; 0 for a buffer without room or another language, and
// then the buffer stays as it is. A buffer of ROOM bytes has room for it.
// Refused: a sentence for language 2; English for every language.
pub fn sentence(number: u8, line: u16, language: u8, out: &mut [u8]) -> usize
    ensures put { Put (sentence_in language number line) out.old result out.new }
    ensures room { length (sentence_in language number line) ≤ ROOM }
{
    let Ok(language) = Language::try_from(language) else {
        return 0;
    };
    let mut text = Buffer::<ROOM>::new();
    push_sentence(&mut text, language, number, line);
    text.copy_to(out)
}

// Both sentences of a refusal, English first, each closed by LF.
// Refused: French first; English twice.
pub fn both_sentences(number: u8, line: u16, out: &mut [u8]) -> usize
    ensures { Put (both_sentences number line) out.old result out.new }
{
    let mut text = Buffer::<SHEET>::new();
    push_closed(&mut text, Language::English, number, line);
    push_closed(&mut text, Language::French, number, line);
    text.copy_to(out)
}
