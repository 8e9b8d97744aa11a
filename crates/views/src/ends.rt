// Where a condition ends, by its tokens alone: what settles nothing any more is passed over, and not evaluated.
ghost use Rattle.std.specs.Prelude.{◌≡◌};
ghost use Rattle.views.specs.Ends.{own_bytes, own_forms, EndsCondition};

use slice::item_at;

// By token, 00 to 17: how many bytes it has with its own fields, 0 where it is none, and how many forms stand behind it.
const BYTES: [u8; 24] =
    *b"\x03\x03\x01\x01\x01\x03\x01\x02\0\0\0\0\0\0\0\0\x01\x01\x01\x01\x01\x01\x01\x02";

const FORMS: [u8; 24] =
    *b"\0\0\x02\x02\x02\x01\x03\x01\0\0\0\0\0\0\0\0\0\x02\x02\x02\x01\x02\x02\x01";

fn own_bytes(token: u8) -> u8
    ensures { result ≡ own_bytes token }
{
    item_at(&BYTES, token as usize, 0)
}

fn own_forms(token: u8) -> u8
    ensures { result ≡ own_forms token }
{
    item_at(&FORMS, token as usize, 0)
}

// Where the bytes behind the condition at `at` start. Open is what other bytes give, but for being not before `at`, and nobody sees it: only
// frames that are read whole get here.
// Refused: no form is left at the start; bytes of one token end it.
pub(crate) fn behind(frame: &[u8], at: usize) -> usize
    ensures { EndsCondition frame.now at result }
{
    let mut next = at;
    let mut left: usize = 1;
    // It counts the forms left and steps by a token's length, so there is no range to go over.
    while 0 < left {
        if frame.len() <= next {
            return next;
        }
        let token = frame[next];
        let bytes = own_bytes(token);
        if bytes == 0 {
            return next;
        }
        next += bytes as usize;
        left = left - 1 + (own_forms(token) as usize);
    }
    next
}
