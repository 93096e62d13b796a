// Cascades over lanes that a caller lends: safe on any lanes, and right where the lanes were right.
ghost use Rattle.std.specs.Prelude.{◌≡◌, ℕ, ◌≤◌, true, false, ◌&&◌, length, ◌==◌, slice_index};
ghost use Rattle.meaning.specs.Persons.{graph_of};
ghost use Rattle.theory.specs.Cores.{core, everyone};
ghost use Rattle.theory.specs.Sets.{◌∈◌, without};
ghost use Rattle.cores.specs.Lanes.{fitting, alive, Counted, Ready, Fallen};
ghost use Rattle.cores.specs.Lent.{lanes_of, SameLanes};

use networks::Network;

// Lanes of numbers that a caller lends, with a place for each person.
// Lanes that do not fit are left as they are, which each call promises: the rules number no refusal of lanes, and no type can hold that lent lanes fit.
// That they stay the same memory is one named fact, which each method has to promise.
#[derive(Drop)]
pub struct Cascade<'a> {
    // 0 for who stands, else the mark with which they fell: a number, since one row of numbers is lent for all lanes
    pub fell: &'a mut [u32],
    pub degree: &'a mut [u32],
    // those who fell, in the order in which they fell, as many as `tail`
    pub order: &'a mut [u32],
    pub tail: usize,
    // room for the neighbours of a person
    pub near: &'a mut [u32],
}

impl<'a> Cascade<'a> {
    fn fits<N: Network>(&self, net: &N, mark: u32) -> bool
        ensures { result ≡ fitting (N.meaning net.now).persons mark (lanes_of self.now) self.now.near.now }
    {
        let n = net.persons();
        mark > 0
            && self.tail <= n
            && self.fell.len() == n
            && self.degree.len() == n
            && self.order.len() == n
            && self.near.len() == n
    }

    // Everyone stands, with all their links.
    pub fn raise<N: Network>(&mut self, net: &N)
        ensures same { SameLanes self.old self.new }
        ensures rest { (self.new.order.now ≡ self.old.order.now) × (self.new.tail ≡ self.old.tail) × (self.new.near.now ≡ self.old.near.now) }
        ensures unfit { let n = (N.meaning net.now).persons in (length self.old.fell.now == n && length self.old.degree.now == n) ≡ false → (self.new.fell.now ≡ self.old.fell.now) × (self.new.degree.now ≡ self.old.degree.now) }
        ensures raised { let g = graph_of (N.meaning net.now) in (length self.old.fell.now == g.size && length self.old.degree.now == g.size) ≡ true → (alive self.new.fell.now ≡ everyone g) × Counted g self.new.fell.now self.new.degree.now }
    {
        let n = net.persons();
        if self.fell.len() == n && self.degree.len() == n {
            self.fell.fill(0);
            for (u, degree) in self.degree.iter_mut().enumerate() {
                *degree = net.degree(u) as u32;
            }
        }
    }

    // The k-core of those who stand is left. k and the mark are new with each call, and in no struct.
    pub fn shrink<N: Network>(&mut self, net: &N, k: u32, mark: u32)
        ensures same { SameLanes self.old self.new }
        ensures unfit { let old = lanes_of self.old in fitting (N.meaning net.now).persons mark old self.old.near.now ≡ false → (lanes_of self.new ≡ old) × (self.new.near.now ≡ self.old.near.now) }
        ensures fallen { let g = graph_of (N.meaning net.now) in let old = lanes_of self.old in let new = lanes_of self.new in fitting g.size mark old self.old.near.now ≡ true → Ready g old → (alive new.fell ≡ core g k (alive old.fell)) × Fallen g k mark old new }
    {
        if self.fits(net, mark) {
            let head = self.tail;
            self.drop_weak(net, k, mark);
            self.follow(net, k, mark, head);
        }
    }

    // Where everyone who stands has degree k at least: w falls, and all who cannot stand without.
    pub fn take_out<N: Network>(&mut self, net: &N, w: usize, k: u32, mark: u32)
        ensures same { SameLanes self.old self.new }
        ensures unfit { let old = lanes_of self.old in fitting (N.meaning net.now).persons mark old self.old.near.now ≡ false → (lanes_of self.new ≡ old) × (self.new.near.now ≡ self.old.near.now) }
        ensures fallen { let g = graph_of (N.meaning net.now) in let old = lanes_of self.old in let new = lanes_of self.new in fitting g.size mark old self.old.near.now ≡ true → Ready g old → ((v : ℕ) → v ∈ alive old.fell → k ≤ slice_index old.degrees v) → (alive new.fell ≡ core g k (without (alive old.fell) w)) × Fallen g k mark old new }
    {
        if self.fits(net, mark) && w < self.fell.len() && self.fell[w] == 0 {
            let first = self.tail;
            self.let_fall(w as u32, mark);
            self.follow(net, k, mark, first);
        }
    }
}
