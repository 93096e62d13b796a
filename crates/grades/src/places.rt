// Writing over the front of a row of places.
ghost use Rattle.std.specs.Prelude.{◌≡◌};
ghost use Rattle.grades.specs.Places.{onto};

// As many of `items` as there are places; the places behind stay.
pub fn write_front<T: Copy>(items: &[T], places: &mut [T])
    ensures { places.new ≡ onto items.now places.old }
{
    let n = items.len().min(places.len());
    places[..n].copy_from_slice(&items[..n]);
}
