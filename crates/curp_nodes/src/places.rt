ghost use Rattle.std.specs.Prelude.{◌≡◌, ◌+◌, ◌<◌, ◌⊎◌, IfSome, IfNone};

/// Where what has this number stands in a list of so many, since numbers count from 1.
pub fn place_of(number: u64, count: usize) -> Option<usize>
    ensures found { IfSome result (λ place. (number ≡ place + 1) × (place < count)) }
    ensures none { IfNone result ((number ≡ 0) ⊎ (count < number)) }
{
    if number == 0 || number > count as u64 {
        return None;
    }
    Some((number - 1) as usize)
}
