// Which numbers are elements of a field.
ghost use Rattle.std.specs.Prelude.{◌≡◌, nat_le};
ghost use Rattle.std.specs.List.{list_any};

use fields::Field;

// Whether some number is not below the field's size.
pub fn any_outside<F: Field>(field: &F, numbers: &[u32]) -> bool
    ensures { result ≡ list_any (λ a. nat_le (F.arithmetic field.now).size a) numbers.now }
{
    // Tried: `any` with a closure, also with the size worked out before it, takes more than twice the time.
    for number in numbers {
        if *number >= field.size() {
            return true;
        }
    }
    false
}
