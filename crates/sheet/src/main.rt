// The second program: a rule file on standard input, its refusal in English and in French on standard output; of an accepted file nothing.
#![tactic(auto)]

ghost use Rattle.std.specs.Prelude.{◌≡◌};
ghost use Rattle.sentences.specs.SheetOf.{sheet_of};
ghost use Rattle.sentences.specs.Answers.{Put};

use checker::plan;
use input::Program;
use sentences;

// The sheet of a text. The text is checked and nothing is searched.
fn sheet(text: &[u8], out: &mut [u8]) -> usize
    ensures { Put (sheet_of text.now) out.old result out.new }
{
    match plan::check(text) {
        Ok(_) => 0,
        Err(refusal) => sentences::both_sentences(refusal.reason.number(), refusal.line, out),
    }
}

// Its output by the definition. A full buffer for the input is refused whatever follows.
struct Sheets;

impl Program for Sheets {
    ghost use Rattle.language.specs.OutputOf.{input_room};
    ghost use Rattle.sentences.specs.SheetOf.{sheet_of};
    ghost use Rattle.sentences.proofs.SheetLaws.{sheet-cut};

    ghost printed = { sheet_of };

    ghost room = { 1026 };

    ghost settling = { input_room };

    fn name(&self) -> &'static str {
        "sheet"
    }

    fn output(&self, text: &[u8], out: &mut [u8]) -> usize {
        sheet(text, out)
    }

    ghost settled = { sheet-cut };
}

fn main(rt: HostRuntime) {
    let mut text = [0u8; input::ROOM];
    let mut out = [0u8; sentences::SHEET];
    input::run(&rt, &mut rt.stdin(), &Sheets, &mut text, &mut out)
}
