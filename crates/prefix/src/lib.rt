// Where each field of a frame ends, and each expression and condition in prefix form; or the reason of its refusal.
#![tactic(auto)]

ghost use Rattle.std.specs.Prelude.{ℕ, ◌≡◌, ◌&&◌, ◌+◌, ◌*◌, ◌≤◌, ltb, leb, length, get_or};
ghost use Rattle.language.specs.Reading.{byte_if, two_bytes, step as step_r, place as place_r, existing, read_e, read_c};
ghost use Rattle.catalog.specs.Items.{relations_in, widths_in};
ghost use Rattle.text.specs.declared.refusal.Reason.TheVariants.{Form};
ghost use Rattle.prefix.specs.Skipped.{skip_by, skip_told, skipped, twice, open_of, opened_setting, behind_e, behind_c};

use catalog::frames;
use catalog::items::Items;
use catalog::relation::Relation;
use slice::item_at;
use text::refusal::Reason;

// Where an expression stands: the from items that are open, and how many relations are before the view.
#[derive(Clone, Copy)]
pub struct Setting {
    pub items: Items,
    pub earlier: u8,
}

impl Setting {
    // The same with one more item open, the row of a relation.
    // Refused: the items as they were; no relation before the view.
    fn opened(self, relation: u8) -> Setting
        ensures { result ≡ opened_setting self relation }
    {
        Setting {
            items: self.items.opened(relation),
            earlier: self.earlier,
        }
    }
}

// A frame, read where so much is open; the relations tell how many columns each has.
#[derive(Clone, Copy)]
pub struct Reader<'a> {
    pub frame: &'a [u8],
    pub relations: &'a [Relation],
    pub setting: Setting,
}

// One byte, whose test the caller has made. A refusal is a number or a reason: the contract holds of each way to number it in which a frame
// that is too short has 4.
// Refused: the byte is left; 4 for the reason.
fn tested<E: Copy + From<Reason>>(
    frame: &[u8],
    at: usize,
    reason: E,
    passes: bool,
) -> Result<usize, E>
    ensures { (number : E → ℕ) → ((e : E) → E.from_gives Form e → number e ≡ 4)
        → skip_by number result ≡ skipped frame.now at (byte_if (number reason) (λ _. passes)) }
{
    if frame.len() <= at {
        return Err(E::from(Reason::Form));
    }
    if passes { Ok(at + 1) } else { Err(reason) }
}

// One byte below n.
// Refused: n passes; what n numbers for the reason.
pub fn below<E: Copy + From<Reason>>(frame: &[u8], at: usize, reason: E, n: u8) -> Result<usize, E>
    ensures { (number : E → ℕ) → ((e : E) → E.from_gives Form e → number e ≡ 4)
        → skip_by number result ≡ skipped frame.now at (byte_if (number reason) (λ b. ltb b n)) }
{
    tested(frame, at, reason, item_at(frame, at, 0) < n)
}

// One byte from lo to hi.
// Refused: lo for hi; hi for lo.
pub fn between<E: Copy + From<Reason>>(
    frame: &[u8],
    at: usize,
    reason: E,
    lo: u8,
    hi: u8,
) -> Result<usize, E>
    ensures { (number : E → ℕ) → ((e : E) → E.from_gives Form e → number e ≡ 4)
        → skip_by number result ≡ skipped frame.now at (byte_if (number reason) (λ b. leb lo b && leb b hi)) }
{
    let b = item_at(frame, at, 0);
    tested(frame, at, reason, (lo..=hi).contains(&b))
}

// Two bytes.
// Refused: one byte; a second byte that is not there.
fn two_bytes(frame: &[u8], at: usize) -> Result<usize, Reason>
    ensures { skip_told result ≡ skipped frame.now at two_bytes }
{
    if frame.len() <= at {
        return Err(Reason::Form);
    }
    if frame.len() <= at + 1 {
        return Err(Reason::Form);
    }
    Ok(at + 2)
}

// Two bytes from 1 to 1,000.
// Refused: 0 passes; 1,001 passes.
fn step(frame: &[u8], at: usize) -> Result<usize, Reason>
    ensures { skip_told result ≡ skipped frame.now at step_r }
{
    let next = two_bytes(frame, at)?;
    let number = frames::word_at(frame, at);
    if (1..=1000).contains(&number) {
        Ok(next)
    } else {
        Err(Reason::Limit)
    }
}

impl Reader<'_> {
    // A from item, and one of its columns.
    // Refused: 5 for 6; the columns of the first from item.
    pub fn place(&self, at: usize) -> Result<usize, Reason>
        ensures { skip_told result ≡ skipped self.now.frame.now at (place_r (widths_in self.now.relations.now (relations_in self.now.setting.items))) }
    {
        let items = self.setting.items;
        let item = item_at(self.frame, at, 0);
        let next = tested(self.frame, at, Reason::Reference, item < items.number)?;
        below(
            self.frame,
            next,
            Reason::Reference,
            items.width(self.relations, item),
        )
    }

    // An expression.
    // Refused: a condition; the form at 0.
    #[cycle(forms)]
    #[tactic(auto, using(crate::proofs::Tokens::form_e))]
    pub fn expression(&self, at: usize) -> Result<usize, Reason>
        ensures { skip_told result ≡ skipped self.now.frame.now at (read_e (open_of self.now.relations.now self.now.setting)) }
    {
        if self.frame.len() <= at {
            return Err(Reason::Form);
        }
        self.behind_expression(at + 1, self.frame[at])
    }

    // A condition.
    // Refused: the form at 0; an expression; 10 and 17 are unknown.
    #[cycle(forms)]
    #[tactic(auto, using(crate::proofs::Tokens::form_c))]
    pub fn condition(&self, at: usize) -> Result<usize, Reason>
        ensures { skip_told result ≡ skipped self.now.frame.now at (read_c (open_of self.now.relations.now self.now.setting)) }
    {
        if self.frame.len() <= at {
            return Err(Reason::Form);
        }
        self.behind_condition(at + 1, self.frame[at])
    }

    #[cycle(forms)]
    fn two_expressions(&self, at: usize) -> Result<usize, Reason>
        ensures { skip_told result ≡ skipped self.now.frame.now at (twice (read_e (open_of self.now.relations.now self.now.setting))) }
    {
        let next = self.expression(at)?;
        self.expression(next)
    }

    #[cycle(forms)]
    fn two_conditions(&self, at: usize) -> Result<usize, Reason>
        ensures { skip_told result ≡ skipped self.now.frame.now at (twice (read_c (open_of self.now.relations.now self.now.setting))) }
    {
        let next = self.condition(at)?;
        self.condition(next)
    }

    // What stands behind an expression's token.
    // Refused: 07 is unknown.
    #[cycle(forms)]
    fn behind_expression(&self, at: usize, token: u8) -> Result<usize, Reason>
        ensures { skip_told result ≡ skipped self.now.frame.now at (behind_e (open_of self.now.relations.now self.now.setting) token) }
    {
        match token {
            0x00 => two_bytes(self.frame, at),
            0x01 => self.place(at),
            0x02..=0x04 => self.two_expressions(at),
            0x05 => {
                let next = step(self.frame, at)?;
                self.expression(next)
            }
            0x06 => {
                let next = self.condition(at)?;
                self.two_expressions(next)
            }
            0x07 => {
                let next = between(self.frame, at, Reason::Limit, 0, 3)?;
                self.expression(next)
            }
            _ => Err(Reason::Form),
        }
    }

    // What stands behind a condition's token.
    // Refused: 10 is unknown.
    #[cycle(forms)]
    fn behind_condition(&self, at: usize, token: u8) -> Result<usize, Reason>
        requires { at ≤ length self.now.frame.now }
        ensures { skip_told result ≡ skipped self.now.frame.now at (behind_c (open_of self.now.relations.now self.now.setting) token) }
    {
        match token {
            0x10 => Ok(at),
            0x11..=0x13 => self.two_expressions(at),
            0x14 => self.condition(at),
            0x15..=0x16 => self.two_conditions(at),
            0x17 => self.behind_exists(at),
            _ => Err(Reason::Form),
        }
    }

    // Behind token 17: a relation, and a condition with its row open. A seventh item is refused before the relation is read. Its frame holds a
    // reader of its own; kept out of `condition`, no other token pays for it on the stack.
    #[inline(never)]
    #[cycle(forms)]
    fn behind_exists(&self, at: usize) -> Result<usize, Reason>
        ensures { skip_told result ≡ skipped self.now.frame.now at (existing (open_of self.now.relations.now self.now.setting) read_c) }
    {
        let setting = self.setting;
        if 6 <= setting.items.number {
            return Err(Reason::Limit);
        }
        let next = below(self.frame, at, Reason::Reference, setting.earlier)?;
        let inner = Reader {
            frame: self.frame,
            relations: self.relations,
            setting: setting.opened(item_at(self.frame, at, 0)),
        };
        inner.condition(next)
    }
}
