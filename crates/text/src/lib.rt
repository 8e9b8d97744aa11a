// From text to frames, and from a frame to its line of text.
#![tactic(auto)]

pub mod refusal;

ghost use Rattle.std.specs.Prelude.{◌≡◌, ◌≤◌, ◌<◌, length, drop};
ghost use Rattle.text.specs.Text.{hex_value, hex_digit, lines_of, frames_of};
ghost use Rattle.text.specs.Pair.{pair_of, pair_told};
ghost use Rattle.text.specs.Answers.{blank_frames, Decoded, Written};

use refusal::{Reason, Refusal};

// Room for the frames of 8,192 bytes of text, each behind its length: the shortest line has three bytes and takes two.
pub const ROOM: usize = 5462;

// The frames, in the first `used` bytes; every other byte is 0.
#[derive(Drop)]
pub struct Frames {
    pub bytes: [u8; ROOM],
    pub used: usize,
}

// The value of a digit; 16 for any other character.
fn digit_of(c: u8) -> u8
    ensures { result ≡ hex_value c }
{
    match c {
        48..=57 => c - 48,
        97..=102 => c - 87,
        _ => 16,
    }
}

// The byte whose two digits stand at `at`, if they do.
fn pair_at(text: &[u8], at: usize) -> Option<u8>
    requires { at < length text.now }
    ensures { pair_told result ≡ pair_of (drop at text.now) }
{
    if text.len() - at < 2 {
        return None;
    }
    let high = digit_of(text[at]);
    let low = digit_of(text[at + 1]);
    if 16 <= high {
        return None;
    }
    if 16 <= low {
        return None;
    }
    Some(16 * high + low)
}

// No frames.
fn blank() -> Frames
    ensures { result ≡ blank_frames }
{
    Frames {
        bytes: [0u8; ROOM],
        used: 0,
    }
}

// The frames of the lines of a text, or its refusal by 2 at the first wrong line. The loop counts by hand, for a turn reads one character or two.
fn lines_of(text: &[u8]) -> Result<Frames, Refusal>
    requires { length text.now ≤ 8192 }
    ensures { Decoded (lines_of text.now) result }
{
    let mut r = blank();
    let mut line: u16 = 1;
    let mut at = 0;
    let mut size = 0;
    while at < text.len() {
        let start = r.used;
        if text[at] == 10 {
            if size == 0 {
                return Err(Reason::Line.at(line));
            }
            r.bytes[start] = size as u8;
            r.used = start + 1 + size;
            line = line + 1;
            size = 0;
            at = at + 1;
        } else {
            if 120 <= size {
                return Err(Reason::Line.at(line));
            }
            let Some(byte) = pair_at(text, at) else {
                return Err(Reason::Line.at(line));
            };
            let place = start + 1 + size;
            r.bytes[place] = byte;
            size = size + 1;
            at = at + 2;
        }
    }
    if size == 0 {
        return Ok(r);
    }
    Err(Reason::Line.at(line))
}

// The frames of a text, or its refusal by 1 or 2.
// Refused: 1 for a text of 8,192 bytes; no frames for an empty text.
pub fn decode(text: &[u8]) -> Result<Frames, Refusal>
    ensures { Decoded (frames_of text.now) result }
{
    if text.len() == 0 {
        return Err(Reason::Size.at(0));
    }
    if 8192 < text.len() {
        return Err(Reason::Size.at(0));
    }
    lines_of(text)
}

// The digit of a number below 16.
fn hex_digit(d: u8) -> u8
    requires { d < 16 }
    ensures { result ≡ hex_digit d }
{
    if d < 10 {
        return d + 48;
    }
    d + 87
}

// Writes the line of a frame at `at`, if there is room, and answers the place behind what is written.
// Refused: the low digit of a byte twice; CR for LF.
pub fn write_line(frame: &[u8], out: &mut [u8], at: usize) -> usize
    ensures { Written frame.now at out.old result out.new }
{
    if out.len() <= at {
        return at;
    }
    if (out.len() - at - 1) / 2 < frame.len() {
        return at;
    }
    for i in 0..frame.len() {
        out[at + 2 * i] = hex_digit(frame[i] / 16);
        out[at + 2 * i + 1] = hex_digit(frame[i] % 16);
    }
    let end = at + 2 * frame.len();
    out[end] = 10;
    end + 1
}
