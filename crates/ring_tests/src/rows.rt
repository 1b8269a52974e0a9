//! Rows of steps with expected results.

/// A result that may be yes or no.
pub trait YesOrNo: Sized {
    const YES: Self;

    const NO: Self;

    /// Yes if `holds`, and otherwise no.
    fn whether(holds: bool) -> Self {
        if holds { Self::YES } else { Self::NO }
    }
}

/// A subject that makes steps and reports a result of each.
pub trait Tells {
    /// A step.
    type Step: Copy;
    /// The result of a step.
    type Expected: Copy + PartialEq;

    /// Makes the step, as far as it can be made, and returns its result.
    fn make(&mut self, step: Self::Step) -> Self::Expected;
}

/// Makes the steps of the rows up to the first whose result differs. Returns the number of rows that agreed.
pub fn told_so<T: Tells>(tells: &mut T, rows: &[(T::Step, T::Expected)]) -> usize {
    let mut count = 0usize;
    for (step, wanted) in rows {
        if tells.make(*step) != *wanted {
            return count;
        }
        count = count.saturating_add(1);
    }
    count
}
