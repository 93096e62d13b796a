// Rows of numbers in memory, each rising in a stretch of its own: one read, and a pair of persons entered in both or taken out.
ghost use Rattle.std.specs.Prelude.{◌≡◌, ℕ, ◌*◌, ◌<◌, ◌≤◌, ◌≢◌, true, false, ◌&&◌, ◌||◌, ◌==◌, not, length};
ghost use Rattle.std.specs.List.Sorted.{IsStrictlyIncreasing};
ghost use Rattle.networks.specs.Changes.{is_pair};
ghost use Rattle.rows.specs.Rows.{Within, Listed, frame_in};

use crate::cells::{insert, place, remove};
use networks::places::fill_front;

// n rows of numbers below n: counts and cells as they are handed, at a fixed size, and not a Vec a row.
#[derive(Drop)]
pub(crate) struct TidyRows {
    pub(crate) n: usize,
    pub(crate) span: usize,
    pub(crate) counts: Vec<u16>,
    pub(crate) cells: Vec<u16>,
    // 4,096 as a sound network is defined, and 4,095 as the links of one among so many
    ghost few: { n ≤ 4096 },
    // with no rows the span may be any
    ghost narrow: { 0 < n → span ≤ 4095 },
    ghost counted: { n ≤ length counts.items },
    ghost roomy: { n * span ≤ length cells.items },
    ghost within: { Within n span counts.items },
    ghost listed: { Listed n span counts.items cells.items },
}

// A pair of persons is two numbers in every call, so that they are below n is asked of them and stands in no type.
// That the frame stays is one named fact, which each change has to promise.
// To enter and to take out ask different facts, so each has functions of its own, and none takes the edit as a closure.
impl TidyRows {
    ghost use Rattle.rows.specs.Tidy.{links, in_row, frame};

    // Rows with no number in them.
    pub(crate) fn cleared(n: usize, span: usize, mut counts: Vec<u16>, cells: Vec<u16>) -> TidyRows
        requires few { n ≤ 4096 }
        requires narrow { 0 < n → span ≤ 4095 }
        requires counted { n ≤ length counts.items }
        requires roomy { n * span ≤ length cells.items }
        ensures linked { (u v : ℕ) → links result u v ≡ false }
        ensures framed { frame result ≡ frame_in n span counts.items cells.items }
    {
        fill_front(&mut counts, n, 0);
        TidyRows {
            n,
            span,
            counts,
            cells,
        }
    }

    // The row of u as it stands in memory; of nobody it is empty.
    pub(crate) fn row(&self, u: usize) -> &[u16]
        ensures value { result.now ≡ in_row self.now u }
        ensures rising { IsStrictlyIncreasing result.now }
    {
        if u >= self.n {
            return &[];
        }
        let first = u * self.span;
        &self.cells[first..first + usize::from(self.counts[u])]
    }

    // v put into the row of u.
    fn put_in(&mut self, u: usize, v: usize)
        requires known { u < self.old.n }
        requires other_known { v < self.old.n }
        requires free { links self.old u v ≡ false }
        requires room { length (in_row self.old u) < self.old.span }
        ensures linked { (x y : ℕ) → links self.new x y ≡ ((x == u && y == v) || links self.old x y) }
        ensures framed { frame self.new ≡ frame self.old }
    {
        let row = self.row(u);
        let at = place(row, v);
        let places = row.len() + 1;
        let first = u * self.span;
        insert(&mut self.cells[first..first + places], at, v as u16);
        self.counts[u] += 1;
    }

    // v taken out of the row of u.
    fn take_out(&mut self, u: usize, v: usize)
        requires known { u < self.old.n }
        requires other_known { v < self.old.n }
        requires held { links self.old u v ≡ true }
        ensures linked { (x y : ℕ) → links self.new x y ≡ (not (x == u && y == v) && links self.old x y) }
        ensures framed { frame self.new ≡ frame self.old }
    {
        let row = self.row(u);
        let at = place(row, v);
        let places = row.len();
        let first = u * self.span;
        remove(&mut self.cells[first..first + places], at);
        self.counts[u] -= 1;
    }

    // Each of a pair put into the row of the other.
    pub(crate) fn join(&mut self, u: usize, v: usize)
        requires known { u < self.old.n }
        requires other_known { v < self.old.n }
        requires apart { u ≢ v }
        requires free { links self.old u v ≡ false }
        requires other_free { links self.old v u ≡ false }
        requires room { length (in_row self.old u) < self.old.span }
        requires other_room { length (in_row self.old v) < self.old.span }
        ensures linked { (x y : ℕ) → links self.new x y ≡ (is_pair u v x y || links self.old x y) }
        ensures framed { frame self.new ≡ frame self.old }
    {
        self.put_in(u, v);
        self.put_in(v, u);
    }

    // Each of a pair taken out of the row of the other.
    pub(crate) fn sever(&mut self, u: usize, v: usize)
        requires known { u < self.old.n }
        requires other_known { v < self.old.n }
        requires apart { u ≢ v }
        requires held { links self.old u v ≡ true }
        requires other_held { links self.old v u ≡ true }
        ensures linked { (x y : ℕ) → links self.new x y ≡ (not (is_pair u v x y) && links self.old x y) }
        ensures framed { frame self.new ≡ frame self.old }
    {
        self.take_out(u, v);
        self.take_out(v, u);
    }
}
