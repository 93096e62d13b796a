// A network for reading: about a person or place that is not there it says 0, false or None, since no question can fail.
ghost use Rattle.std.specs.Prelude.{◌≡◌};
ghost use Rattle.grades.specs.Places.{onto};
ghost use Rattle.networks.specs.Fixed.{Fixed};
ghost use Rattle.networks.specs.Net.{Net, Sound, neighbours, degree_of};
ghost use Rattle.std.specs.List.{slice_get};

use grades::Grade;

pub trait Network {
    type Grade: Grade;

    ghost meaning: { Self → Net (Self.Grade) };

    ghost sound: { (s : Self) → Sound (meaning s) };

    ghost fixed: { Self → Fixed (Self.Grade) };

    fn persons(&self) -> usize
        ensures { result ≡ (meaning self.now).persons };

    fn degree(&self, u: usize) -> usize
        ensures { result ≡ degree_of (meaning self.now) u };

    // The i-th neighbour of u, counted from 0.
    fn neighbour(&self, u: usize, i: usize) -> Option<usize>
        ensures { result ≡ slice_get (neighbours (meaning self.now) u) i };

    fn linked(&self, u: usize, v: usize) -> bool
        ensures { result ≡ (meaning self.now).linked u v };

    fn grade(&self, u: usize) -> Option<Self::Grade>
        ensures { result ≡ slice_get (meaning self.now).grades u };

    // The neighbours of u, as many as there are places; the answer is how many there are. The places are lent: nothing is allocated.
    fn copy_neighbours(&self, u: usize, places: &mut [u32]) -> usize
        ensures count { result ≡ degree_of (meaning self.now) u }
        ensures copied { places.new ≡ onto (neighbours (meaning self.now) u) places.old }
    {
        // Not write_front, since there may be no row to copy: the neighbours are asked for.
        let d = self.degree(u);
        let n = d.min(places.len());
        for (i, place) in places[..n].iter_mut().enumerate() {
            if let Some(v) = self.neighbour(u, i) {
                *place = v as u32;
            }
        }
        d
    }
}
