ghost use Rattle.std.specs.Prelude.{◌≡◌, ◌<◌, length, All};
ghost use Rattle.gl_publisher.specs.Shortest.{IsLeast, lesser, number_if, distance_to, number_at};

/// The least distance among the second numbers of the pairs, if any has one.
pub(crate) fn least_distance(pairs: &[(u32, u32)], distances: &[Option<u32>]) -> Option<u32>
    requires { All (λ p. p.1 < length distances.now) pairs.now }
    ensures { IsLeast (distance_to distances.now) pairs.now result }
{
    let mut least = None;
    for (_, number) in pairs {
        least = lesser(least, distances[*number as usize]);
    }
    least
}

/// The least of the second numbers of the pairs that are at the distance, if any is.
pub(crate) fn least_number(
    pairs: &[(u32, u32)],
    distances: &[Option<u32>],
    wanted: u32,
) -> Option<u32>
    requires { All (λ p. p.1 < length distances.now) pairs.now }
    ensures { IsLeast (number_at distances.now wanted) pairs.now result }
{
    let mut least = None;
    for (_, number) in pairs {
        let found = number_if(distances[*number as usize], wanted, *number);
        least = lesser(least, found);
    }
    least
}

/// The number, if its distance is the one that is wanted.
fn number_if(distance: Option<u32>, wanted: u32, number: u32) -> Option<u32>
    ensures { result ≡ number_if distance wanted number }
{
    match distance {
        Some(distance) if distance == wanted => Some(number),
        _ => None,
    }
}

/// The lesser, where there are two.
fn lesser(a: Option<u32>, b: Option<u32>) -> Option<u32>
    ensures { result ≡ lesser a b }
{
    match (a, b) {
        (Some(a), Some(b)) => Some(a.min(b)),
        (Some(a), None) => Some(a),
        (None, b) => b,
    }
}
