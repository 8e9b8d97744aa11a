// The program: a rule file on standard input, its first case, "no case" or its refusal on standard output.
#![tactic(auto)]

use input::Program;

// Its output by the definition. A full buffer for the input is refused whatever follows.
struct Generate;

impl Program for Generate {
    ghost use Rattle.language.specs.OutputOf.{input_room, output_room, output_of};
    ghost use Rattle.language.proofs.InputLaws.{input-cut};

    ghost printed = { output_of };

    ghost room = { output_room };

    ghost settling = { input_room };

    fn name(&self) -> &'static str {
        "generate"
    }

    fn output(&self, text: &[u8], out: &mut [u8]) -> usize {
        report::output(text, out)
    }

    ghost settled = { input-cut };
}

fn main(rt: HostRuntime) {
    let mut text = [0u8; input::ROOM];
    let mut out = [0u8; report::ROOM];
    input::run(&rt, &mut rt.stdin(), &Generate, &mut text, &mut out)
}
