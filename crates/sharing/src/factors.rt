// The numbers that stand in front of a coefficient once a polynomial was derived.
ghost use Rattle.std.specs.Prelude.{◌≡◌, ◌<◌, ◌≤◌};
ghost use Rattle.sharing.specs.Cards.{falling};
ghost use Rattle.sharing.specs.Factors.{Wholes};

use crate::MOST_COEFFICIENTS;
use fields::Field;

// The whole numbers that can stand before a coefficient, 0 to 31, as elements of a field. A machine number in their place
// would overflow in the longest products, and would not be reduced in a small field.
#[derive(Drop)]
pub(crate) struct Factors<'a, F: Field> {
    pub(crate) field: &'a F,
    elements: [u32; MOST_COEFFICIENTS],
    ghost wholes: { Wholes (F.arithmetic field.now) elements },
}

impl<'a, F: Field> Factors<'a, F> {
    // One is added to the element before.
    pub(crate) fn of(field: &'a F) -> Factors<'a, F>
        ensures { result.field.now ≡ field.now }
    {
        let mut elements = [0; MOST_COEFFICIENTS];
        let mut next = 0;
        for element in elements.iter_mut() {
            *element = next;
            next = field.add(next, 1);
        }
        Factors { field, elements }
    }

    // i × (i − 1) × … × (i − order + 1) as an element.
    pub(crate) fn falling(&self, i: usize, order: usize) -> u32
        requires { (order ≤ i) × (i < 32) }
        ensures { result ≡ falling (F.arithmetic self.now.field.now) i order }
    {
        let mut product = 1;
        // No plainer over the elements: it would be those from i − order + 1 to i, backwards, where the place says so itself.
        for k in 0..order {
            product = self.field.multiply(product, self.elements[i - k]);
        }
        product
    }
}
