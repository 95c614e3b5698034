// Steps on numbers that stand for elements of the field, place by place.
ghost use Rattle.std.specs.Prelude.{◌≡◌, ℕ, ◌≤◌, ◌<◌, length, EachIndex, slice_index};
ghost use Rattle.linear.specs.Rows.{plus, times, negated, Zeros};

use crate::system::System;
use fields::Field;

// Puts in the place of each number what the step gives for it there.
fn rewrite<S: Fn(usize, u32) -> u32>(numbers: &mut [u32], step: S)
    requires { (k a : ℕ) → k < length numbers.old → S.pre step k a }
    ensures { EachIndex numbers.old (λ k. S.post step k (slice_index numbers.old k) (slice_index numbers.new k)) }
{
    for (k, number) in numbers.iter_mut().enumerate() {
        *number = step(k, *number);
    }
}

impl<'a, F: Field> System<'a, F> {
    // Adds the multiple of the others. They are read by their place: of the writes of a `zip` the check knows nothing.
    pub(crate) fn add_multiple(&self, numbers: &mut [u32], factor: u32, others: &[u32])
        requires { length numbers.old ≤ length others.now }
        ensures { EachIndex numbers.old (λ k. slice_index numbers.new k ≡ plus (F.arithmetic self.now.field.now) factor others.now numbers.old k) }
    {
        rewrite(
            numbers,
            |k, a| self.field.add(a, self.field.multiply(factor, others[k])),
        );
    }

    pub(crate) fn multiply_all(&self, numbers: &mut [u32], factor: u32)
        ensures { EachIndex numbers.old (λ k. slice_index numbers.new k ≡ times (F.arithmetic self.now.field.now) factor numbers.old k) }
    {
        rewrite(numbers, |_, a| self.field.multiply(factor, a));
    }

    pub(crate) fn negate_all(&self, numbers: &mut [u32])
        ensures { EachIndex numbers.old (λ k. slice_index numbers.new k ≡ negated (F.arithmetic self.now.field.now) numbers.old k) }
    {
        rewrite(numbers, |_, a| self.field.negate(a));
    }

    // Whether each of the numbers stands for zero.
    pub(crate) fn all_zero(&self, numbers: &[u32]) -> bool
        ensures { Zeros (F.arithmetic self.now.field.now) (length numbers.now) numbers.now result }
    {
        numbers.iter().all(|a| self.field.add(*a, 0) == 0)
    }
}
