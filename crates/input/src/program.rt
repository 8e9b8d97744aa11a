// What the programs do alike: read the input, write what is printed for it, and say where either fails.
ghost use Rattle.std.specs.Prelude.{◌≡◌, ◌≤◌, ℕ, List, length, take};

use crate::{Input, read};
use std::io::Read;

pub trait Program {
    // What it prints for a text.
    ghost printed: { List ℕ → List ℕ };

    // Room for what it prints for any text.
    ghost room: { ℕ };

    // So many bytes of an input settle what it prints.
    ghost settling: { ℕ };

    fn name(&self) -> &'static str;

    // What it prints for a text, at the front of a buffer, and its length.
    fn output(&self, text: &[u8], out: &mut [u8]) -> usize
        requires { room ≤ length out.old }
        ensures within { result ≤ length out.new }
        ensures whole { take result out.new ≡ printed text.now };

    // A longer input that is cut behind them prints the same.
    ghost settled: { (n : ℕ) (text : List ℕ) → settling ≤ n → printed (take n text) ≡ printed text };
}

// That the message cannot be written either is left unsaid.
fn say(rt: &impl Eprint, name: &str, fault: &str) {
    let _ = eprintln!(rt; "{name}: {fault}");
}

// Writes what a program prints for a text.
fn write<P: Program>(rt: &(impl Print + Eprint), program: &P, text: &[u8], bytes: &[u8])
    requires { bytes.now ≡ P.printed text.now }
{
    if rt.write_all(bytes).is_err() {
        say(rt, program.name(), "the output cannot be written");
    }
}

fn print<P: Program>(rt: &(impl Print + Eprint), program: &P, text: &[u8], out: &mut [u8])
    requires { P.room ≤ length out.old }
{
    let n = program.output(text, out);
    write(rt, program, text, &out[..n]);
}

// Runs a program on what a reader gives, in two lent buffers. A full buffer for the text settles what is printed, whatever follows.
// Refused: one byte more than was read; room for the output without its first byte.
pub fn run<P: Program, R: Read>(
    rt: &(impl Print + Eprint),
    from: &mut R,
    program: &P,
    text: &mut [u8],
    out: &mut [u8],
)
    requires text_room { P.settling ≤ length text.old }
    requires out_room { P.room ≤ length out.old }
{
    match read(from, text) {
        Ok(Input::More(n) | Input::End(n)) => print(rt, program, &text[..n], out),
        Err(_) => say(rt, program.name(), "the input cannot be read"),
    }
}
