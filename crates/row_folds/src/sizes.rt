//! Sizes of shapes.
ghost use Rattle.std.specs.Prelude.{◌≡◌, ◌<◌, ◌≤◌, ◌+◌, ◌*◌, ◌-◌, ◌^◌, min, length, drop};
ghost use Rattle.xr_types.specs.Points.{size};
ghost use Rattle.xr_arrays.specs.Nodes.{most_node_cells};

/// The product of the sizes, as far as 64 bits count.
#[tactic(auto, using(plan_core::proofs::Products::saturates))]
pub fn points(shape: &[u64]) -> u64
    ensures { result ≡ min (size shape.now) (2 ^ 64 - 1) }
{
    match shape {
        [] => 1,
        [n, rest @ ..] => n.saturating_mul(points(rest)),
    }
}

/// The sizes behind the first.
pub fn behind(sizes: &[u64]) -> &[u64]
    requires { 0 < length sizes.now }
    ensures { result.now ≡ drop 1 sizes.now }
{
    &sizes[1..]
}

/// Where what stands at a position of the first axis begins.
pub fn begin(shape: &[u64], start: usize, position: u64) -> usize
    requires some { 0 < length shape.now }
    requires rest { size (drop 1 shape.now) ≤ most_node_cells }
    requires few { start + position * size (drop 1 shape.now) ≤ most_node_cells }
    ensures { result ≡ start + position * size (drop 1 shape.now) }
{
    start + position as usize * points(behind(shape)) as usize
}
