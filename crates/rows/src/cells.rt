// A rising row of 16-bit numbers: whether one stands in it, and one put in or taken out.
// A row is part of what its struct owns, so that it rises is asked of a slice and stands in no type.
ghost use Rattle.std.specs.Prelude.{◌≡◌, ◌-◌, ◌<◌, ◌++◌, length, take, drop};
ghost use Rattle.grades.specs.Places.{onto};
ghost use Rattle.rows.specs.Row.{has, place_of};
ghost use Rattle.std.specs.List.{insert, remove};
ghost use Rattle.std.specs.List.Sorted.{IsStrictlyIncreasing};

// How many of a rising row are below v.
pub(crate) fn place(row: &[u16], v: usize) -> usize
    requires { IsStrictlyIncreasing row.now }
    ensures { result ≡ place_of v row.now }
{
    row.partition_point(|x| usize::from(*x) < v)
}

pub(crate) fn stands(row: &[u16], v: usize) -> bool
    requires { IsStrictlyIncreasing row.now }
    ensures { result ≡ has v row.now }
{
    row.binary_search_by_key(&v, |x| usize::from(*x)).is_ok()
}

// Not write_front, which copies items of one type: these numbers get wider.
pub(crate) fn copy(row: &[u16], places: &mut [u32])
    ensures { places.new ≡ onto row.now places.old }
{
    let n = row.len().min(places.len());
    // By index: of places lent by a zip the proof knows only how many they are.
    for (i, place) in places[..n].iter_mut().enumerate() {
        *place = u32::from(row[i]);
    }
}

// v put in at a place; the numbers from there on move up, and the last place is given up.
pub(crate) fn insert(row: &mut [u16], at: usize, v: u16)
    requires { at < length row.old }
    ensures { row.new ≡ insert (take (length row.old - 1) row.old) at v }
{
    let last = row.len() - 1;
    row.copy_within(at..last, at + 1);
    row[at] = v;
}

// The number at a place taken out; those behind move down, and the last place keeps its own.
pub(crate) fn remove(row: &mut [u16], at: usize)
    requires { at < length row.old }
    ensures { row.new ≡ remove row.old at ++ drop (length row.old - 1) row.old }
{
    row.copy_within(at + 1.., at);
}
