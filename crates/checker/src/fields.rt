// The fields of a frame: each is as it has to be, or there is the reason of a refusal.
ghost use Rattle.std.specs.Prelude.{◌≡◌, ℕ, ◌<◌};
ghost use Rattle.text.specs.Refusals.{number_of};
ghost use Rattle.language.specs.Reading.{byte_if};
ghost use Rattle.language.specs.Frames.{ending};
ghost use Rattle.checker.specs.Faults.{fault_by, fault_told, first_among, fault_at, under, within, from_under};

use text::refusal::Reason;

// A byte from lo to hi. The refusal is a reason, or a number of the caller's own.
// Refused: a byte below lo kept; a byte above lo refused.
pub fn between<E: Copy + From<Reason>>(
    frame: &[u8],
    at: usize,
    reason: E,
    lo: u8,
    hi: u8,
) -> Result<(), E>
    ensures { (number : E → ℕ) → ((e : E) → E.from_gives Reason.Form e → number e ≡ 4) → fault_by number result ≡ fault_at frame.now at (byte_if (number reason) (within lo hi)) }
{
    if frame.len() <= at {
        return Err(E::from(Reason::Form));
    }
    let b = frame[at];
    if b < lo {
        return Err(reason);
    }
    if hi < b {
        return Err(reason);
    }
    Ok(())
}

// A byte below n.
// Refused: n itself kept; 4 for the reason.
pub(crate) fn below(frame: &[u8], at: usize, reason: Reason, n: u8) -> Result<(), Reason>
    ensures { fault_told result ≡ fault_at frame.now at (byte_if (number_of reason) (under n)) }
{
    if frame.len() <= at {
        return Err(Reason::Form);
    }
    let b = frame[at];
    if b < n { Ok(()) } else { Err(reason) }
}

// A byte from lo on and below n.
// Refused: n itself kept; lo itself refused.
pub(crate) fn from_below(
    frame: &[u8],
    at: usize,
    reason: Reason,
    lo: u8,
    n: u8,
) -> Result<(), Reason>
    ensures { fault_told result ≡ fault_at frame.now at (byte_if (number_of reason) (from_under lo n)) }
{
    if frame.len() <= at {
        return Err(Reason::Form);
    }
    let i = frame[at];
    if i < lo {
        return Err(reason);
    }
    if i < n { Ok(()) } else { Err(reason) }
}

// Nothing from `at` on.
// Refused: a fault where nothing is left; a surplus byte kept.
pub(crate) fn ends_at(frame: &[u8], at: usize) -> Result<(), Reason>
    ensures { fault_told result ≡ fault_at frame.now at (ending at) }
{
    if frame.len() <= at {
        Ok(())
    } else {
        Err(Reason::Form)
    }
}

// Parts 0 to n - 1 in their order: the first fault among them.
// Refused: no part asked; part 0 asked each time.
pub(crate) fn repeated<F: Fn(u8) -> Result<(), Reason>>(n: u8, part: F) -> Result<(), Reason>
    requires { F.IsAlwaysCallable part }
    ensures { (fault : ℕ → ℕ) → ((i : ℕ) → i < n → (r : _) → F.post part i r → fault_told r ≡ fault i) → fault_told result ≡ first_among fault n }
{
    for i in 0..n {
        part(i)?;
    }
    Ok(())
}
