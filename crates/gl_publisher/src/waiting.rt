ghost use Rattle.std.specs.Prelude.{◌≡◌, ℕ, ◌^◌, ◌<◌, ◌≤◌, ◌==◌, length, slice_index, count_by, vec_len, All, IfOk, OnOk};
ghost use Rattle.std.specs.Ordering.{nat_cmp};
ghost use Rattle.std.specs.BTreeSet.{contains};
ghost use Rattle.gl_publisher.specs.Waiting.{ends_with, is_free, Lowers, GainsFree};

use std::alloc::{AllocError, Global};
use std::collections::BTreeSet;

/// How many edges each of the `n` numbers has to what it depends on.
pub(crate) fn open_counts(
    alloc: Global,
    n: u32,
    edges: &[(u32, u32)],
) -> Result<Vec<usize>, AllocError>
    requires { All (λ e. e.0 < n) edges.now }
    ensures size { IfOk result (λ counts. vec_len counts ≡ n) }
    ensures counted { IfOk result (λ counts.
        (a : ℕ) → slice_index counts.items a ≡ count_by (λ e. e.0 == a) edges.now) }
{
    let mut counts = vec![in alloc; 0usize; n as usize]?;
    for (dependent, _) in edges {
        counts[*dependent as usize] += 1;
    }
    Ok(counts)
}

/// The numbers with no open dependency.
pub(crate) fn free_numbers(alloc: Global, counts: &[usize]) -> Result<BTreeSet<u32>, AllocError>
    requires { length counts.now < 2 ^ 32 }
    ensures { IfOk result (λ free. (a : ℕ) → contains nat_cmp free a ≡ is_free counts.now a) }
{
    let mut free = BTreeSet::new(alloc);
    for (number, count) in counts.iter().enumerate() {
        if *count == 0 {
            free.insert(number as u32)?;
        }
    }
    Ok(free)
}

/// Counts one open dependency less for each pair's second number, and puts those with none left into
/// `free`.
pub(crate) fn release(
    pairs: &[(u32, u32)],
    counts: &mut Vec<usize>,
    free: &mut BTreeSet<u32>,
) -> Result<(), AllocError>
    requires within { All (λ p. p.1 < vec_len counts.old) pairs.now }
    requires counted { (a : ℕ) → ends_with pairs.now a ≤ slice_index counts.old.items a }
    ensures lowers { OnOk result (Lowers pairs.now counts.old.items counts.new.items) }
    ensures gains { OnOk result (GainsFree counts.old.items counts.new.items free.old free.new) }
{
    for (_, dependent) in pairs {
        let count = counts[*dependent as usize] - 1;
        counts[*dependent as usize] = count;
        if count == 0 {
            free.insert(*dependent)?;
        }
    }
    Ok(())
}
