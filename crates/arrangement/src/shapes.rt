//! Sizes of shapes.
ghost use Rattle.std.specs.Prelude.{◌≡◌, ◌-◌, ◌^◌, min, get_or};
ghost use Rattle.xr_types.specs.Points.{size};

/// The product of the sizes, as far as 64 bits count.
#[tactic(auto, using(plan_core::proofs::Products::saturates))]
pub fn points(shape: &[u64]) -> u64
    ensures { result ≡ min (size shape.now) (2 ^ 64 - 1) }
{
    match shape {
        [] => 1,
        [n, rest @ ..] => n.saturating_mul(points(rest)),
    }
}

/// The size of an axis, or 0 where there is none.
pub fn size_of(shape: &[u64], axis: usize) -> u64
    ensures { result ≡ get_or shape.now axis 0 }
{
    match shape.get(axis) {
        Some(size) => *size,
        None => 0,
    }
}
