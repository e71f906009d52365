// How many retired blocks one operation may hold back, so that a table can be sized; and demand 3, in proofs/.
#![tactic(auto)]

ghost use Rattle.rules.specs.Terms.{limit};
ghost use Rattle.safety.specs.Limits.{Says};

use numbers::Epoch;

// K + (U − L) × F + T × (F − 1), of any numbers, or None where no word holds it: an interval that ends before it begins counts as one of no length.
pub fn limit(k: u32, l: Epoch, u: Epoch, f: u32, t: u32) -> Option<u32>
    ensures { Says result (limit k l.0 u.0 f t) }
{
    let made_within = u64::from(u.0.saturating_sub(l.0)) * u64::from(f);
    let made_besides = u64::from(t) * u64::from(f.saturating_sub(1));
    let made = made_within.checked_add(made_besides)?;
    let blocks = made.checked_add(u64::from(k))?;
    u32::try_from(blocks).ok()
}
