//! The lower median.

ghost use Rattle.std.specs.Prelude.{◌≡◌, [], MatchOption};
ghost use Rattle.fp_coarse.specs.Medians.{IsLowerMedian};

/// The lower median of numbers, None where there are none. It leaves them in another order.
pub fn lower_median(numbers: &mut [i64]) -> Option<i64>
    ensures { MatchOption result (numbers.old ≡ []) (IsLowerMedian numbers.old) }
{
    if numbers.is_empty() {
        return None;
    }
    let middle = (numbers.len() - 1) / 2;
    let (_, median, _) = numbers.select_nth_unstable(middle);
    Some(*median)
}
