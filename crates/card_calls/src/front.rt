ghost use Rattle.std.specs.Prelude.{◌≡◌, take};

// The first of a slice, as many as there are.
#[tactic(auto, using(crate::proofs::Fronts::take_min))]
pub(crate) fn front_of<T>(items: &[T], count: usize) -> &[T]
    ensures { result.now ≡ take count items.now }
{
    &items[..count.min(items.len())]
}
