// Reading and filling the front of a row of places.
ghost use Rattle.std.specs.Prelude.{◌≡◌, take};
ghost use Rattle.networks.specs.Places.{filled};
ghost use Rattle.std.specs.List.{slice_get};

// The u-th of the first n, if there is one.
pub fn item<T: Copy>(places: &[T], n: usize, u: usize) -> Option<T>
    ensures { result ≡ slice_get (take n places.now) u }
{
    places[..n.min(places.len())].get(u).copied()
}

// The first n hold x, as far as there are places; those behind stay. A `fill` would ask that no clone of x can fail.
pub fn fill_front<T: Copy>(places: &mut [T], n: usize, x: T)
    ensures { places.new ≡ filled n x places.old }
{
    let n = n.min(places.len());
    for place in &mut places[..n] {
        *place = x;
    }
}
