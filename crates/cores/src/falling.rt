// Persons fall: one, those with too few neighbours, and all who cannot stand without them.
// Lent lanes carry no ghost field, so that they fit is asked by one name.
ghost use Rattle.std.specs.Prelude.{◌≡◌, ℕ, ◌<◌, [], length};
ghost use Rattle.networks.specs.Net.{neighbours};
ghost use Rattle.meaning.specs.Persons.{graph_of};
ghost use Rattle.theory.specs.Cores.{core};
ghost use Rattle.theory.specs.Sets.{Set};
ghost use Rattle.cores.specs.Falling.{Falling, let_fall, eased, settled};
ghost use Rattle.cores.specs.Lanes.{Lanes, alive, Fits, Ready, Fallen};
ghost use Rattle.cores.specs.Lent.{lanes_of, SameLanes};

use crate::lanes::Cascade;
use networks::Network;

impl<'a> Cascade<'a> {
    // x falls and stands last in the order, if there is a place.
    pub(crate) fn let_fall(&mut self, x: u32, mark: u32)
        requires { x < length self.old.fell.now }
        ensures same { SameLanes self.old self.new }
        ensures fell { lanes_of self.new ≡ let_fall mark x (lanes_of self.old) }
        ensures near { self.new.near.now ≡ self.old.near.now }
    {
        self.fell[x as usize] = mark;
        if self.tail < self.order.len() {
            self.order[self.tail] = x;
            self.tail += 1;
        }
    }

    // x, if they stand, has one neighbour less, and falls with fewer than k.
    fn ease(&mut self, x: u32, k: u32, mark: u32)
        requires fell { x < length self.old.fell.now }
        requires degree { x < length self.old.degree.now }
        ensures same { SameLanes self.old self.new }
        ensures eased { lanes_of self.new ≡ eased k mark x (lanes_of self.old) }
        ensures near { self.new.near.now ≡ self.old.near.now }
    {
        let v = x as usize;
        if self.fell[v] == 0 {
            let left = self.degree[v].saturating_sub(1);
            self.degree[v] = left;
            if left < k {
                self.let_fall(x, mark);
            }
        }
    }

    // Lowers the degrees of the neighbours of u, who has fallen; whoever has fewer than k left falls too.
    fn settle<N: Network>(&mut self, net: &N, u: usize, k: u32, mark: u32)
        requires { Fits (N.meaning net.now).persons mark (lanes_of self.old) self.old.near.now }
        ensures same { SameLanes self.old self.new }
        ensures fits { Fits (N.meaning net.now).persons mark (lanes_of self.new) self.new.near.now }
        ensures settled { lanes_of self.new ≡ settled k mark (neighbours (N.meaning net.now) u) (lanes_of self.old) }
    {
        let d = net.copy_neighbours(u, self.near);
        // by index: a loop that lends `near` could not call on all the lanes
        for i in 0..d {
            let x = self.near[i];
            self.ease(x, k, mark);
        }
    }

    // Everyone who stands with a degree below k falls.
    pub(crate) fn drop_weak<N: Network>(&mut self, net: &N, k: u32, mark: u32)
        requires { Fits (N.meaning net.now).persons mark (lanes_of self.old) self.old.near.now }
        ensures same { SameLanes self.old self.new }
        ensures fits { Fits (N.meaning net.now).persons mark (lanes_of self.new) self.new.near.now }
        ensures falling { let g = graph_of (N.meaning net.now) in let old = lanes_of self.old in Ready g old → Falling g k g.size mark (alive old.fell) old (lanes_of self.new) old.tail [] }
    {
        // by index: a fall writes the lanes that the loop reads
        for u in 0..self.fell.len() {
            if self.fell[u] == 0 && self.degree[u] < k {
                self.let_fall(u as u32, mark);
            }
        }
    }

    // All whom the falls from `head` on leave with a degree below k fall too.
    pub(crate) fn follow<N: Network>(&mut self, net: &N, k: u32, mark: u32, mut head: usize)
        requires { Fits (N.meaning net.now).persons mark (lanes_of self.old) self.old.near.now }
        ensures same { SameLanes self.old self.new }
        ensures fallen { let g = graph_of (N.meaning net.now) in (X : Set) (old : Lanes) → Falling g k g.size mark X old (lanes_of self.old) head [] → (alive self.new.fell.now ≡ core g k X) × Fallen g k mark old (lanes_of self.new) }
    {
        // by index: the order grows while it is read
        while head < self.tail {
            let u = self.order[head] as usize;
            head += 1;
            self.settle(net, u, k, mark);
        }
    }
}
